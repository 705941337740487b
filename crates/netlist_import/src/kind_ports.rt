//! The ports of a kind of cells, to be found by their names.

ghost use Rattle.std.specs.Prelude.{◌≡◌, [], IfOk, OnOk};
ghost use Rattle.netlist_import.specs.Kinds as spec;

use crate::kinds::is_same_way;
use crate::netlist::{Direction, Port};
use crate::shapes::{Formal, Formals};
use indexmap::IndexMap;
use scald_base::{Bytes, List, NoMemory};
use std::alloc::Global;
use std::marker::Model;

/// Which way a port leads, and how many bits it has.
#[derive(Clone, Copy)]
pub struct PortForm {
    pub direction: Direction,
    pub width: usize,
}

/// The ports of a kind of cells, each name once, in the order in which they first come.
#[derive(Drop)]
pub struct KindPorts {
    ports: IndexMap<Bytes, PortForm>,
}

impl Model for KindPorts {
    ghost use Rattle.std.specs.Prelude.{List, map};
    ghost use Rattle.std.specs.Str.{bytes_eq};
    ghost use Rattle.indexmap.specs.IndexMap.{IsUnique};
    ghost use Rattle.netlist_import.specs.KindPorts.{formal_in};
    ghost use Rattle.netlist_import.specs.declared.shapes.Formal.{Formal as Port};

    ghost Value = { List Port };

    ghost view = { λ p. map formal_in p.ports.entries };

    ghost invariant = { λ p. IsUnique bytes_eq p.ports };
}

/// Whether a port leads the way of a connection, and is as wide.
fn is_alike(connection: &Port, form: PortForm) -> bool
    ensures { result ≡ spec.is_alike connection.now
        (record { name = []; direction = form.direction; width = form.width }) }
{
    is_same_way(form.direction, connection.direction) && form.width == connection.bits.len()
}

impl KindPorts {
    /// No ports.
    pub(crate) fn new(alloc: Global) -> KindPorts
        ensures { result ≡ [] }
    {
        KindPorts {
            ports: IndexMap::new(alloc),
        }
    }

    /// Whether a connection leaves the ports as they are, or adds one.
    pub(crate) fn agrees(&self, connection: &Port) -> bool
        ensures { result ≡ spec.agrees self.now connection.now }
    {
        if connection.bits.is_empty() {
            return true;
        }
        match self.ports.get(&connection.name) {
            Some(form) => is_alike(connection, *form),
            None => true,
        }
    }

    /// Adds the port of a connection, if it has bits and a new name.
    pub(crate) fn add(&mut self, alloc: Global, connection: &Port) -> Result<(), NoMemory>
        ensures { OnOk result (self.new ≡ spec.with_port self.old connection.now) }
    {
        if connection.bits.is_empty() {
            return Ok(());
        }
        if self.ports.contains_key(&connection.name) {
            return Ok(());
        }
        let name = Bytes::of(alloc, connection.name.as_slice())?;
        let form = PortForm {
            direction: connection.direction,
            width: connection.bits.len(),
        };
        self.ports.insert(name, form)?;
        Ok(())
    }

    /// The ports as those of a macro.
    pub(crate) fn formals(&self, alloc: Global) -> Result<Formals, NoMemory>
        ensures { IfOk result (λ formals. formals ≡ self.now) }
    {
        let mut formals = List::new(alloc);
        for place in 0..self.ports.len() {
            let Some((name, form)) = self.ports.get_index(place) else {
                return Ok(formals);
            };
            formals.push(Formal {
                name: Bytes::of(alloc, name.as_slice())?,
                direction: form.direction,
                width: form.width,
            })?;
        }
        Ok(formals)
    }
}
