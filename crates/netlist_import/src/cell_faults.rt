//! The first fault of the cells of a module. Each function gives that of one part.

ghost use Rattle.std.specs.Prelude.{◌≡◌, ◌==◌, ◌||◌, None, codes, map, option_map};
ghost use Rattle.std.specs.List.{list_any};
ghost use Rattle.netlist_import.specs.Fault as spec;
ghost use Rattle.netlist_import.specs.Netlist.{members_in, text_under};
ghost use Rattle.netlist_import.specs.Placed.{field, member_of, placed_of};

use crate::fault::{FaultKind, Found, earlier, fault_at};
use crate::index::Index;
use crate::module::directions_of;
use crate::netlist::Port;
use crate::port_faults::{WIDEST, bits_fault, direction_fault, hidden_fault, object_fault};
use crate::types::Types;
use crate::value::{Json, Member, array_of, field_in, field_of, object_of, text_of};
use scald_base::same_bytes;
use std::alloc::Global;

/// Whether a connection of so many bits fits a port of so many: it may have none.
fn is_width(width: usize, wanted: usize) -> bool
    ensures { result ≡ (width == 0 || width == wanted) }
{
    width == 0 || width == wanted
}

/// Whether a port has this name, and its width if there are bits.
fn is_like(port: &Port, name: &[u8], width: usize) -> bool
    ensures { result ≡ spec.is_like name.now width port.now }
{
    same_bytes(port.name.as_slice(), name) && is_width(width, port.bits.len())
}

/// Whether one of the ports has this name, and its width if there are bits.
fn any_like(ports: &[Port], name: &[u8], width: usize) -> bool
    ensures { result ≡ list_any (spec.is_like name.now width) ports.now }
{
    ports.iter().any(|port| is_like(port, name, width))
}

/// The same, of ports that are looked up: mostly the first of the name is the one.
#[tactic(auto, using(crate::proofs::Found::like_none, crate::proofs::Found::like_first))]
fn has_like(ports: &Index<Port>, name: &[u8], width: usize) -> bool
    ensures { result ≡ list_any (spec.is_like name.now width) ports.now }
{
    let Some(port) = ports.find(name) else {
        return false;
    };
    if is_width(width, port.bits.len()) {
        return true;
    }
    any_like(ports.items(), name, width)
}

/// A connection of a cell, by its module's ports or else by its directions.
fn connection_fault(
    ports: Option<&Index<Port>>,
    directions: &Index<Member>,
    member: &Member,
) -> Found
    ensures { result ≡ spec.connection_fault (option_map (λ ps. ps.now) ports.entry)
        (map member_of directions.now) (member_of member.now) }
{
    let value = &member.1;
    let name = member.0.as_bytes();
    let Some(values) = array_of(value) else {
        return fault_at(FaultKind::NoNetlist, value);
    };
    if ports.is_none() && field_of(directions, name).is_none() {
        return fault_at(FaultKind::BadDirection, value);
    }
    if values.len() > WIDEST {
        return fault_at(FaultKind::TooWide, value);
    }
    if let Some(ports) = ports {
        if !has_like(ports, name, values.len()) {
            return fault_at(FaultKind::UnlikeCells, value);
        }
    }
    bits_fault(values)
}

/// The connections of a cell, one after another.
#[tactic(auto, unfolding(crate::specs::Fault::each))]
fn each_connection_fault(
    ports: Option<&Index<Port>>,
    directions: &Index<Member>,
    connections: &[Member],
) -> Found
    ensures { result ≡ spec.each (spec.connection_fault (option_map (λ ps. ps.now) ports.entry)
        (map member_of directions.now)) (map member_of connections.now) }
{
    for connection in connections {
        let found = connection_fault(ports, directions, connection);
        if found.is_some() {
            return found;
        }
    }
    None
}

/// The connections of a cell.
fn connections_fault(alloc: Global, ports: Option<&Index<Port>>, cell: &Json) -> Found
    ensures { result ≡ spec.connections_fault (option_map (λ ps. ps.now) ports.entry)
        (placed_of cell.now)
        (members_in (placed_of cell.now)) }
{
    let Some(value) = field_in(cell, b"connections") else {
        return fault_at(FaultKind::NoNetlist, cell);
    };
    let Some(connections) = object_of(value) else {
        return fault_at(FaultKind::NoNetlist, value);
    };
    each_connection_fault(ports, &directions_of(alloc, cell), connections)
}

/// The directions that a cell gives, one after another.
#[tactic(auto, unfolding(crate::specs::Fault::each))]
fn each_direction_fault(directions: &[Member]) -> Found
    ensures { result ≡ spec.each spec.named_direction_fault (map member_of directions.now) }
{
    for direction in directions {
        let found = direction_fault(&direction.1);
        if found.is_some() {
            return found;
        }
    }
    None
}

/// The directions of a cell of no module's type.
fn directions_fault(cell: &Json) -> Found
    ensures { result ≡ spec.directions_fault None (placed_of cell.now)
        (members_in (placed_of cell.now)) }
{
    let Some(value) = field_in(cell, b"port_directions") else {
        return fault_at(FaultKind::NoNetlist, cell);
    };
    let Some(directions) = object_of(value) else {
        return fault_at(FaultKind::NoNetlist, value);
    };
    each_direction_fault(directions)
}

/// The type of a cell.
fn kind_fault(cell: &Json) -> Found
    ensures { result ≡ spec.needed (codes "type") spec.text_fault (placed_of cell.now)
        (members_in (placed_of cell.now)) }
{
    match field_in(cell, b"type") {
        Some(value) => match text_of(value) {
            Some(_) => None,
            None => fault_at(FaultKind::NoNetlist, value),
        },
        None => fault_at(FaultKind::NoNetlist, cell),
    }
}

/// The directions and the connections of a cell of this type.
fn wires_fault(types: &Types, kind: &[u8], cell: &Json) -> Found
    ensures { result ≡ spec.wires_fault (spec.ports_named kind.now types.now) (placed_of cell.now)
        (members_in (placed_of cell.now)) }
{
    let alloc = types.alloc();
    match types.module_named(kind) {
        Some(module) => {
            let ports = Index::of(alloc, module.ports.as_slice());
            connections_fault(alloc, Some(&ports), cell)
        }
        None => earlier(directions_fault(cell), connections_fault(alloc, None, cell)),
    }
}

/// The type and the connections of a cell.
fn wiring_fault(types: &Types, cell: &Json) -> Found
    ensures { result ≡ spec.wiring_fault
        (spec.ports_named
        (text_under (field (codes "type") (members_in (placed_of cell.now)))) types.now)
        (placed_of cell.now) (members_in (placed_of cell.now)) }
{
    let wires = match field_in(cell, b"type") {
        Some(value) => match text_of(value) {
            Some(kind) => wires_fault(types, kind.as_bytes(), cell),
            None => wires_fault(types, b"", cell),
        },
        None => wires_fault(types, b"", cell),
    };
    earlier(kind_fault(cell), wires)
}

/// The parts of a cell.
fn parts_fault(types: &Types, cell: &Json) -> Found
    ensures { result ≡ spec.parts_fault types.now (placed_of cell.now)
        (members_in (placed_of cell.now)) }
{
    let wiring = earlier(object_fault(cell, b"parameters"), wiring_fault(types, cell));
    earlier(hidden_fault(cell), wiring)
}

fn cell_fault(types: &Types, member: &Member) -> Found
    ensures { result ≡ spec.cell_fault types.now (member_of member.now) }
{
    let cell = &member.1;
    if object_of(cell).is_none() {
        return fault_at(FaultKind::NoNetlist, cell);
    }
    parts_fault(types, cell)
}

/// The cells of a module, one after another.
#[tactic(auto, unfolding(crate::specs::Fault::each))]
fn each_cell_fault(types: &Types, cells: &[Member]) -> Found
    ensures { result ≡ spec.each (spec.cell_fault types.now) (map member_of cells.now) }
{
    for cell in cells {
        let found = cell_fault(types, cell);
        if found.is_some() {
            return found;
        }
    }
    None
}

/// The cells of a module.
pub(crate) fn cells_fault(types: &Types, whole: &Json) -> Found
    ensures { result ≡ spec.cells_fault types.now (placed_of whole.now)
        (members_in (placed_of whole.now)) }
{
    let Some(value) = field_in(whole, b"cells") else {
        return fault_at(FaultKind::NoNetlist, whole);
    };
    let Some(cells) = object_of(value) else {
        return fault_at(FaultKind::NoNetlist, value);
    };
    each_cell_fault(types, cells)
}
