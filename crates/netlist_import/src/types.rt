//! The modules of a netlist by their names, and which of them are used.

ghost use Rattle.std.specs.Prelude.{◌≡◌, ◌||◌, IfOk, OnOk, option_map};
ghost use Rattle.std.specs.List.{list_any};
ghost use Rattle.netlist_import.specs.Netlist.{module_named, place_named};
ghost use Rattle.netlist_import.specs.Fault.{is_used};
ghost use Rattle.netlist_import.specs.Index.{is_key};
ghost use Rattle.netlist_import.specs.Types.{is_of};

use crate::index::{Named, places};
use crate::netlist::{Cell, Module};
use indexmap::{IndexMap, IndexSet};
use scald_base::NoMemory;
use std::alloc::Global;
use std::marker::Model;

/// The modules of a netlist, to be found by their names.
#[derive(Drop)]
pub struct Types<'n> {
    alloc: Global,
    modules: &'n [Module],
    /// The place of each name's first module.
    places: IndexMap<&'n [u8], usize>,
    /// The types of all cells.
    used: IndexSet<&'n [u8]>,
}

impl<'n> Model for Types<'n> {
    ghost use Rattle.std.specs.Prelude.{List};
    ghost use Rattle.netlist_import.specs.declared.netlist.Module.{Module as Read};
    ghost use Rattle.netlist_import.specs.Types.{AreTypes};

    ghost Value = { List Read };

    ghost view = { λ t. t.modules.now };

    ghost invariant = { λ t. AreTypes t.modules.now t.places.entries t.used.keys };
}

impl Named for Module {
    ghost name = { λ m. m.name };

    fn name(&self) -> &[u8] {
        self.name.as_slice()
    }
}

/// Adds the types of cells.
fn add_types<'n>(used: &mut IndexSet<&'n [u8]>, cells: &'n [Cell]) -> Result<(), NoMemory>
    ensures { OnOk result ((name : _) → list_any (is_key name) used.new.keys
        ≡ (list_any (is_key name) used.old.keys || list_any (is_of name.now) cells.now)) }
{
    for cell in cells {
        used.insert(cell.kind.as_slice())?;
    }
    Ok(())
}

/// The types of all cells.
fn used(alloc: Global, modules: &[Module]) -> Result<IndexSet<&[u8]>, NoMemory>
    ensures { IfOk result (λ used. (name : _) →
        list_any (is_key name) used.keys ≡ is_used modules.now name.now) }
{
    let mut used = IndexSet::new(alloc);
    for module in modules {
        add_types(&mut used, module.cells.as_slice())?;
    }
    Ok(used)
}

impl<'n> Types<'n> {
    /// The modules by their names.
    pub fn of(alloc: Global, modules: &'n [Module]) -> Result<Types<'n>, NoMemory>
        ensures { IfOk result (λ types. types ≡ modules.now) }
    {
        let places = places(alloc, modules)?;
        let used = used(alloc, modules)?;
        Ok(Types {
            alloc,
            modules,
            places,
            used,
        })
    }

    /// The allocator.
    pub(crate) fn alloc(&self) -> Global {
        self.alloc
    }

    /// The place of the first module of a name, from 0.
    pub fn place_of(&self, name: &[u8]) -> Option<usize>
        ensures { result ≡ place_named name.now self.now }
    {
        self.places.get(&name).copied()
    }

    /// The first module of a name.
    pub fn module_named(&self, name: &[u8]) -> Option<&'n Module>
        ensures { option_map (λ m. m.now) result ≡ module_named name.now self.now }
    {
        match self.place_of(name) {
            Some(place) => self.modules.get(place),
            None => None,
        }
    }

    /// Whether a cell of a module is of this type.
    pub fn is_used(&self, name: &[u8]) -> bool
        ensures { result ≡ is_used self.now name.now }
    {
        self.used.contains(&name)
    }
}
