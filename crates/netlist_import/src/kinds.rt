//! The kinds of cells that no module of the netlist is.

ghost use Rattle.std.specs.Prelude.{◌≡◌, ◌^◌, ◌<◌, [], ◌∷◌, ◌++◌, IfOk, OnOk, is_some, map, true};
ghost use Rattle.std.specs.List.{list_all};
ghost use Rattle.std.specs.Map.{lookup};
ghost use Rattle.netlist_import.specs.Kinds as spec;
ghost use Rattle.netlist_import.specs.Shapes.{number_of_used};
ghost use Rattle.netlist_import.specs.Sorts.{is_sort, start_of};
ghost use Rattle.netlist_import.specs.Netlist.{place_named};

use crate::kind_ports::KindPorts;
use crate::netlist::{Cell, Direction, Module, Port};
use crate::types::Types;
use indexmap::IndexMap;
use scald_base::{Bytes, List, NoMemory, same_bytes};
use std::alloc::Global;
use std::marker::Model;

/// Cells of one type whose parameters agree, and the widths of their ports.
#[derive(Drop)]
pub struct Kind {
    /// The name of their type.
    pub kind: Bytes,
    /// The text of their parameters.
    pub parameters: Bytes,
    /// The ports that are not empty in some of them, in the order in which they first come.
    pub ports: KindPorts,
}

/// A type of cells, and parameters.
#[derive(Clone, Copy, PartialEq, Eq, Hash)]
pub struct Sort<'n> {
    pub kind: &'n [u8],
    pub parameters: &'n [u8],
}

/// The kinds of cells, in the order in which they first come.
#[derive(Drop)]
pub struct Kinds<'n> {
    list: Vec<Kind>,
    /// From which place on to look for a kind of a type and parameters: the first has it.
    starts: IndexMap<Sort<'n>, usize>,
}

impl<'n> Model for Kinds<'n> {
    ghost use Rattle.std.specs.Prelude.{List};
    ghost use Rattle.netlist_import.specs.Sorts.{AreStarts};
    ghost use Rattle.netlist_import.specs.declared.kinds.Kind.{Kind as OfCells};

    ghost Value = { List OfCells };

    ghost view = { λ k. k.list.items };

    ghost invariant = { λ k. AreStarts k.list.items k.starts.entries };
}

/// Whether two ports lead the same way.
pub(crate) fn is_same_way(one: Direction, other: Direction) -> bool
    ensures { result ≡ spec.is_same_way one other }
{
    match (one, other) {
        (Direction::Input, Direction::Input) | (Direction::Output, Direction::Output) => true,
        _ => false,
    }
}

/// Whether all connections of a cell agree with a kind's ports.
fn all_agree(ports: &KindPorts, connections: &[Port]) -> bool
    ensures { result ≡ list_all (spec.agrees ports.now) connections.now }
{
    connections
        .iter()
        .all(|connection| ports.agrees(connection))
}

/// Whether a cell is of a kind.
fn fits(kind: &Kind, cell: &Cell) -> bool
    ensures { result ≡ spec.fits cell.now kind.now }
{
    same_bytes(kind.kind.as_slice(), cell.kind.as_slice())
        && same_bytes(kind.parameters.as_slice(), cell.parameters.as_slice())
        && all_agree(&kind.ports, cell.connections.as_slice())
}

/// Adds the ports of a cell that a kind does not have yet.
#[tactic(auto, unfolding(crate::specs::Kinds::with_ports))]
fn add_ports(alloc: Global, ports: &mut KindPorts, connections: &[Port]) -> Result<(), NoMemory>
    ensures { OnOk result (ports.new ≡ spec.with_ports ports.old connections.now) }
{
    for connection in connections {
        ports.add(alloc, connection)?;
    }
    Ok(())
}

/// The kind of a cell that is the first of its kind.
#[tactic(auto, unfolding(crate::specs::Kinds::with_ports))]
fn kind_of(alloc: Global, cell: &Cell) -> Result<Kind, NoMemory>
    ensures { IfOk result (λ kind. kind ≡ spec.kind_of cell.now) }
{
    let mut ports = KindPorts::new(alloc);
    add_ports(alloc, &mut ports, cell.connections.as_slice())?;
    Ok(Kind {
        kind: Bytes::of(alloc, cell.kind.as_slice())?,
        parameters: Bytes::of(alloc, cell.parameters.as_slice())?,
        ports,
    })
}

/// The place of the first kind that a cell fits, or the number of kinds if it fits none.
#[tactic(auto, unfolding(crate::specs::Kinds::joins))]
fn place_among(kinds: &[Kind], cell: &Cell) -> usize
    ensures { result ≡ spec.joins kinds.now cell.now }
{
    for (place, kind) in kinds.iter().enumerate() {
        if fits(kind, cell) {
            return place;
        }
    }
    kinds.len()
}

/// The type and the parameters of a cell.
fn sort_of<'n>(cell: &'n Cell) -> Sort<'n>
    ensures kind { result.kind.now ≡ cell.now.kind }
    ensures parameters { result.parameters.now ≡ cell.now.parameters }
{
    Sort {
        kind: cell.kind.as_slice(),
        parameters: cell.parameters.as_slice(),
    }
}

/// From which of so many kinds on to look for one of this sort.
fn start_of(starts: &IndexMap<Sort, usize>, count: usize, sort: Sort) -> usize
    ensures { result ≡ start_of starts.now.entries count sort.entry }
{
    match starts.get(&sort) {
        Some(start) => *start,
        None => count,
    }
}

/// Notes that the kinds of a sort begin after so many, if none of the sort is there yet.
fn add_start<'n>(
    starts: &mut IndexMap<Sort<'n>, usize>,
    count: usize,
    sort: Sort<'n>,
) -> Result<(), NoMemory>
    ensures known { OnOk result (is_some (lookup (is_sort sort.entry) starts.new.entries) ≡ true) }
    ensures same { (s : _) → start_of starts.new.entries count s
        ≡ start_of starts.old.entries count s }
{
    if !starts.contains_key(&sort) {
        starts.insert(sort, count)?;
    }
    Ok(())
}

impl<'n> Kinds<'n> {
    /// No kinds.
    pub(crate) fn new(alloc: Global) -> Kinds<'n>
        ensures { result ≡ [] }
    {
        Kinds {
            list: Vec::new(alloc),
            starts: IndexMap::new(alloc),
        }
    }

    /// The kinds.
    pub(crate) fn list(&self) -> &[Kind]
        ensures { result.now ≡ self.now }
    {
        self.list.as_slice()
    }

    /// The place of the first kind that a cell fits, or the number of kinds if it fits none.
    fn place_of(&self, cell: &Cell) -> usize
        ensures place { result ≡ spec.joins self.now cell.now }
        ensures small { result < 2 ^ 63 }
    {
        let start = start_of(&self.starts, self.list.len(), sort_of(cell));
        start + place_among(&self.list[start..], cell)
    }

    /// Adds the kind of a cell.
    fn add(&mut self, alloc: Global, cell: &'n Cell) -> Result<(), NoMemory>
        ensures { OnOk result (self.new ≡ self.old ++ spec.kind_of cell.now ∷ []) }
    {
        add_start(&mut self.starts, self.list.len(), sort_of(cell))?;
        self.list.push(kind_of(alloc, cell)?)?;
        Ok(())
    }

    /// The place of the first kind that a cell is of, after it has joined it.
    fn join(&mut self, alloc: Global, cell: &'n Cell) -> Result<usize, NoMemory>
        ensures place { IfOk result (λ place. place ≡ spec.joins self.old cell.now) }
        ensures kinds { OnOk result (self.new ≡ spec.with_cell self.old cell.now) }
        ensures small { IfOk result (λ place. place < 2 ^ 63) }
    {
        let place = self.place_of(cell);
        if place < self.list.len() {
            let ports = &mut self.list[place].ports;
            add_ports(alloc, ports, cell.connections.as_slice())?;
        } else {
            self.add(alloc, cell)?;
        }
        Ok(place)
    }
}

/// The macros that the cells of a module use, by number: first the modules, then the kinds.
pub type Targets = List<usize>;

/// The macro that a cell uses: its module, or the kind that it joins.
fn target_of<'n>(
    alloc: Global,
    types: &Types,
    modules: &[Module],
    kinds: &mut Kinds<'n>,
    cell: &'n Cell,
) -> Result<usize, NoMemory>
    requires { types.now ≡ modules.now }
    ensures target { IfOk result (λ target. target
        ≡ number_of_used types.now (spec.used_by (place_named cell.now.kind types.now)
        kinds.old cell.now)) }
    ensures kinds { OnOk result (kinds.new
        ≡ spec.kinds_with (place_named cell.now.kind types.now) kinds.old cell.now) }
{
    match types.place_of(cell.kind.as_slice()) {
        Some(place) => Ok(place),
        None => Ok(modules.len() + kinds.join(alloc, cell)?),
    }
}

/// The macros that the cells of a module use.
#[tactic(auto, unfolding(crate::specs::Kinds::uses_after, crate::specs::Kinds::kinds_after))]
fn targets_of<'n>(
    alloc: Global,
    types: &Types,
    modules: &[Module],
    kinds: &mut Kinds<'n>,
    cells: &'n [Cell],
) -> Result<Targets, NoMemory>
    requires { types.now ≡ modules.now }
    ensures targets { IfOk result (λ targets. targets
        ≡ map (number_of_used types.now) (spec.uses_after types.now kinds.old cells.now)) }
    ensures kinds { OnOk result (kinds.new ≡ spec.kinds_after types.now kinds.old
        cells.now) }
{
    let mut targets = List::new(alloc);
    for cell in cells {
        targets.push(target_of(alloc, types, modules, kinds, cell)?)?;
    }
    Ok(targets)
}

/// The macros that the cells of each module use. The kinds of cells are put into `kinds`.
fn targets_by<'n>(
    alloc: Global,
    types: &Types,
    modules: &'n [Module],
    kinds: &mut Kinds<'n>,
) -> Result<List<Targets>, NoMemory>
    requires { types.now ≡ modules.now }
    ensures targets { IfOk result (λ all. all ≡ map (map (number_of_used modules.now))
        (spec.all_uses_after modules.now kinds.old modules.now)) }
    ensures kinds { OnOk result (kinds.new
        ≡ spec.kinds_after modules.now kinds.old (spec.all_cells modules.now)) }
{
    let mut all = List::new(alloc);
    for module in modules {
        let cells = module.cells.as_slice();
        all.push(targets_of(alloc, types, modules, kinds, cells)?)?;
    }
    Ok(all)
}

/// The same, for modules that are still to be found by their names.
pub(crate) fn all_targets<'n>(
    alloc: Global,
    modules: &'n [Module],
    kinds: &mut Kinds<'n>,
) -> Result<List<Targets>, NoMemory>
    ensures targets { IfOk result (λ all. all ≡ map (map (number_of_used modules.now))
        (spec.all_uses_after modules.now kinds.old modules.now)) }
    ensures kinds { OnOk result (kinds.new
        ≡ spec.kinds_after modules.now kinds.old (spec.all_cells modules.now)) }
{
    let types = Types::of(alloc, modules)?;
    targets_by(alloc, &types, modules, kinds)
}
