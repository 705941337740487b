//! From a JSON value to the modules that it has.

ghost use Rattle.std.specs.Prelude.{◌≡◌, ◌++◌, IfOk, OnOk, Some, codes, map, option_map};
ghost use Rattle.std.specs.Option.{unwrap_or};
ghost use Rattle.netlist_import.specs.Netlist.{bits_under, cell_of, connection_of, direction_named, direction_of, directions_given, inside, is_binary_one, is_black_box, is_hidden, is_set, members_in, members_or_none, members_under, module_of, net_of, netlist_of, object_in, parameters_text, port_of, text_under};
ghost use Rattle.netlist_import.specs.Placed.{field, member_of, placed_of};
ghost use Rattle.netlist_import.specs.declared.netlist.Direction.TheVariants.{Input};

use crate::bits::{bits_of, whole};
use crate::index::{Index, or_none};
use crate::netlist::{
    Bits, Cell, Cells, Direction, Module, NetName, NetNames, Netlist, Port, Ports,
};
use crate::spelled::spell;
use crate::value::{Json, Member, field_in, field_of, field_under, number_of, object_of, text_of};
use scald_base::{Bytes, List, NoMemory, same_bytes};
use std::alloc::Global;

/// The members of the object under a name, if there is one.
fn object_under<'v, 'a>(value: &'v Json<'a>, name: &[u8]) -> Option<&'v [Member<'a>]>
    ensures { option_map (λ ms. map member_of ms.now) result
        ≡ object_in (field name.now (members_in (placed_of value.now))) }
{
    match field_in(value, name) {
        Some(under) => object_of(under),
        None => None,
    }
}

/// The same, and no members if there is none.
#[tactic(auto, using(crate::proofs::Found::members_found))]
fn members_under<'v, 'a>(value: &'v Json<'a>, name: &[u8]) -> &'v [Member<'a>]
    ensures { map member_of result.now ≡ members_under name.now (members_in (placed_of value.now)) }
{
    or_none(object_under(value, name))
}

fn direction_named(name: &[u8]) -> Option<Direction>
    ensures { result ≡ direction_named name.now }
{
    if same_bytes(name, b"input") {
        Some(Direction::Input)
    } else if same_bytes(name, b"output") {
        Some(Direction::Output)
    } else {
        None
    }
}

/// The direction that a value names, if it names one.
pub(crate) fn direction_of(value: &Json) -> Option<Direction>
    ensures { result ≡ direction_of (Some (placed_of value.now)) }
{
    match text_of(value) {
        Some(name) => direction_named(name.as_bytes()),
        None => None,
    }
}

/// The direction that a value names, or `Input` if it names none.
fn direction_or_input(value: Option<&Json>) -> Direction
    ensures { result ≡ unwrap_or (direction_of (option_map (λ v. placed_of v.now) value.entry))
        Input }
{
    match value {
        Some(direction) => direction_of(direction).unwrap_or(Direction::Input),
        None => Direction::Input,
    }
}

/// The bits under a name.
fn bits_under(alloc: Global, value: &Json, name: &[u8]) -> Result<Bits, NoMemory>
    ensures { IfOk result (λ bits. bits ≡ bits_under
        (field name.now (members_in (placed_of value.now)))) }
{
    match field_in(value, name) {
        Some(bits) => bits_of(alloc, bits),
        None => Ok(List::new(alloc)),
    }
}

fn port_of(alloc: Global, member: &Member) -> Result<Port, NoMemory>
    ensures { IfOk result (λ port. port ≡ port_of (member_of member.now)) }
{
    let bits = bits_under(alloc, &member.1, b"bits")?;
    Ok(Port {
        name: Bytes::of(alloc, member.0.as_bytes())?,
        direction: direction_or_input(field_in(&member.1, b"direction")),
        bits,
    })
}

/// The ports that members are.
fn ports_of(alloc: Global, members: &[Member]) -> Result<Ports, NoMemory>
    ensures { IfOk result (λ ports. ports
        ≡ map port_of (map member_of members.now)) }
{
    let mut ports = List::new(alloc);
    for member in members {
        ports.push(port_of(alloc, member)?)?;
    }
    Ok(ports)
}

/// The ports of a module.
fn ports_under(alloc: Global, value: &Json) -> Result<Ports, NoMemory>
    ensures { IfOk result (λ ports. ports
        ≡ map port_of (members_under (codes "ports") (members_in (placed_of value.now)))) }
{
    ports_of(alloc, members_under(value, b"ports"))
}

/// The directions that a cell gives, to be found by the names of its connections.
#[tactic(auto, unfolding(crate::specs::Netlist::directions_given))]
pub(crate) fn directions_of<'v, 'a>(alloc: Global, cell: &'v Json<'a>) -> Index<'v, Member<'a>>
    ensures { map member_of result ≡ directions_given (placed_of cell.now) }
{
    Index::of(alloc, members_under(cell, b"port_directions"))
}

/// A connection of a cell that gives these directions.
fn connection_of(
    alloc: Global,
    directions: &Index<Member>,
    member: &Member,
) -> Result<Port, NoMemory>
    ensures { IfOk result (λ port. port ≡ connection_of (map member_of directions.now)
        (member_of member.now)) }
{
    let name = member.0.as_bytes();
    let bits = bits_of(alloc, &member.1)?;
    Ok(Port {
        name: Bytes::of(alloc, name)?,
        direction: direction_or_input(field_of(directions, name)),
        bits,
    })
}

/// The connections that members of a cell are that gives these directions.
fn connections_listed(
    alloc: Global,
    directions: &Index<Member>,
    members: &[Member],
) -> Result<Ports, NoMemory>
    ensures { IfOk result (λ ports. ports
        ≡ map (connection_of (map member_of directions.now)) (map member_of members.now)) }
{
    let mut ports = List::new(alloc);
    for member in members {
        ports.push(connection_of(alloc, directions, member)?)?;
    }
    Ok(ports)
}

/// The connections of a cell.
fn connections_of(alloc: Global, cell: &Json) -> Result<Ports, NoMemory>
    ensures { IfOk result (λ ports. ports
        ≡ map (connection_of (directions_given (placed_of cell.now)))
        (members_under (codes "connections") (members_in (placed_of cell.now)))) }
{
    let directions = directions_of(alloc, cell);
    connections_listed(alloc, &directions, members_under(cell, b"connections"))
}

/// Whether `hide_name` is there, and not 0.
fn is_hidden(value: &Json) -> bool
    ensures { result ≡ is_hidden (members_in (placed_of value.now)) }
{
    match field_in(value, b"hide_name") {
        Some(number) => match number_of(number) {
            Some(digits) => !same_bytes(digits.as_bytes(), b"0"),
            None => false,
        },
        None => false,
    }
}

/// The name of a cell's type, and no bytes if there is none.
fn kind_of(alloc: Global, cell: &Json) -> Result<Bytes, NoMemory>
    ensures { IfOk result (λ kind. kind ≡ text_under
        (field (codes "type") (members_in (placed_of cell.now)))) }
{
    match field_in(cell, b"type") {
        Some(value) => match text_of(value) {
            Some(text) => Bytes::of(alloc, text.as_bytes()),
            None => Ok(Bytes::new(alloc)),
        },
        None => Ok(Bytes::new(alloc)),
    }
}

/// Puts the text of the parameters of a cell at the end of `out`.
fn add_parameters(out: &mut Bytes, cell: &Json) -> Result<(), NoMemory>
    ensures { OnOk result (out.new ≡ out.old ++ parameters_text
        (field (codes "parameters") (members_in (placed_of cell.now)))) }
{
    match field_in(cell, b"parameters") {
        Some(value) => spell(value, out),
        None => out.extend(b"{}"),
    }
}

/// The text of the parameters of a cell.
fn parameters_of(alloc: Global, cell: &Json) -> Result<Bytes, NoMemory>
    ensures { IfOk result (λ text. text ≡ parameters_text
        (field (codes "parameters") (members_in (placed_of cell.now)))) }
{
    let mut out = Bytes::new(alloc);
    add_parameters(&mut out, cell)?;
    Ok(out)
}

/// Makes a cell the one that a member is.
fn fill_cell(alloc: Global, cell: &mut Cell, member: &Member) -> Result<(), NoMemory>
    ensures { OnOk result (cell.new ≡ cell_of (member_of member.now)) }
{
    cell.name = Bytes::of(alloc, member.0.as_bytes())?;
    cell.is_hidden = is_hidden(&member.1);
    cell.kind = kind_of(alloc, &member.1)?;
    cell.parameters = parameters_of(alloc, &member.1)?;
    cell.connections = connections_of(alloc, &member.1)?;
    Ok(())
}

fn cell_of(alloc: Global, member: &Member) -> Result<Cell, NoMemory>
    ensures { IfOk result (λ cell. cell ≡ cell_of (member_of member.now)) }
{
    let mut cell = Cell {
        name: Bytes::new(alloc),
        is_hidden: false,
        kind: Bytes::new(alloc),
        parameters: Bytes::new(alloc),
        connections: List::new(alloc),
    };
    fill_cell(alloc, &mut cell, member)?;
    Ok(cell)
}

/// The cells that members are.
fn cells_listed(alloc: Global, members: &[Member]) -> Result<Cells, NoMemory>
    ensures { IfOk result (λ cells. cells
        ≡ map cell_of (map member_of members.now)) }
{
    let mut cells = List::new(alloc);
    for member in members {
        cells.push(cell_of(alloc, member)?)?;
    }
    Ok(cells)
}

/// The cells of a module, of which a black box has none.
fn cells_of(alloc: Global, value: &Json) -> Result<Cells, NoMemory>
    ensures { IfOk result (λ cells. cells
        ≡ map cell_of (inside (codes "cells") (members_in (placed_of value.now)))) }
{
    cells_listed(alloc, members_inside(value, b"cells"))
}

fn net_of(alloc: Global, member: &Member) -> Result<NetName, NoMemory>
    ensures { IfOk result (λ net. net ≡ net_of (member_of member.now)) }
{
    let bits = bits_under(alloc, &member.1, b"bits")?;
    Ok(NetName {
        name: Bytes::of(alloc, member.0.as_bytes())?,
        is_hidden: is_hidden(&member.1),
        bits,
    })
}

/// The names that members are.
fn nets_listed(alloc: Global, members: &[Member]) -> Result<NetNames, NoMemory>
    ensures { IfOk result (λ nets. nets
        ≡ map net_of (map member_of members.now)) }
{
    let mut nets = List::new(alloc);
    for member in members {
        nets.push(net_of(alloc, member)?)?;
    }
    Ok(nets)
}

/// The names that a module has for its bits, of which a black box has none.
fn nets_of(alloc: Global, value: &Json) -> Result<NetNames, NoMemory>
    ensures { IfOk result (λ nets. nets
        ≡ map net_of (inside (codes "netnames") (members_in (placed_of value.now)))) }
{
    nets_listed(alloc, members_inside(value, b"netnames"))
}

/// Whether these are binary digits of value 1.
fn is_binary_one(digits: &[u8]) -> bool
    ensures { result ≡ is_binary_one digits.now }
{
    let mut rest = digits;
    'digits: while let [first, more @ ..] = rest {
        if *first == b'1' && more.is_empty() {
            return true;
        }
        if *first != b'0' {
            return false;
        }
        rest = more;
    }
    false
}

/// Whether the value is the number 1, or binary digits of value 1.
fn is_set(value: &Json) -> bool
    ensures { result ≡ is_set (Some (placed_of value.now)) }
{
    if let Some(digits) = number_of(value) {
        return whole(digits.as_bytes()) == Some(1);
    }
    match text_of(value) {
        Some(text) => is_binary_one(text.as_bytes()),
        None => false,
    }
}

/// Whether the attribute `blackbox` of a module is set.
pub(crate) fn is_black_box(value: &Json) -> bool
    ensures { result ≡ is_black_box (members_in (placed_of value.now)) }
{
    match field_under(value, b"attributes", b"blackbox") {
        Some(attribute) => is_set(attribute),
        None => false,
    }
}

/// The members of the object under a name, if there is one and the module is no black box.
fn object_inside<'v, 'a>(value: &'v Json<'a>, name: &[u8]) -> Option<&'v [Member<'a>]>
    ensures { members_or_none (option_map (λ ms. map member_of ms.now) result)
        ≡ inside name.now (members_in (placed_of value.now)) }
{
    if is_black_box(value) {
        None
    } else {
        object_under(value, name)
    }
}

/// The members of the object under a name, of which a black box has none.
#[tactic(auto, using(crate::proofs::Found::members_found))]
fn members_inside<'v, 'a>(value: &'v Json<'a>, name: &[u8]) -> &'v [Member<'a>]
    ensures { map member_of result.now ≡ inside name.now (members_in (placed_of value.now)) }
{
    or_none(object_inside(value, name))
}

/// Makes a module the one that a member is.
fn fill_module(alloc: Global, read: &mut Module, member: &Member) -> Result<(), NoMemory>
    ensures { OnOk result (read.new ≡ module_of (member_of member.now)) }
{
    read.name = Bytes::of(alloc, member.0.as_bytes())?;
    read.is_black_box = is_black_box(&member.1);
    read.ports = ports_under(alloc, &member.1)?;
    read.cells = cells_of(alloc, &member.1)?;
    read.nets = nets_of(alloc, &member.1)?;
    Ok(())
}

fn module_of(alloc: Global, member: &Member) -> Result<Module, NoMemory>
    ensures { IfOk result (λ read. read ≡ module_of (member_of member.now)) }
{
    let mut read = Module {
        name: Bytes::new(alloc),
        is_black_box: false,
        ports: List::new(alloc),
        cells: List::new(alloc),
        nets: List::new(alloc),
    };
    fill_module(alloc, &mut read, member)?;
    Ok(read)
}

/// The modules that members are.
fn modules_listed(alloc: Global, members: &[Member]) -> Result<Netlist, NoMemory>
    ensures { IfOk result (λ modules. modules
        ≡ map module_of (map member_of members.now)) }
{
    let mut modules = List::new(alloc);
    for member in members {
        modules.push(module_of(alloc, member)?)?;
    }
    Ok(modules)
}

/// The modules that a value has. If a part is missing or of another type, it counts as none.
pub(crate) fn netlist_of(alloc: Global, value: &Json) -> Result<Netlist, NoMemory>
    ensures { IfOk result (λ netlist. netlist ≡ netlist_of (placed_of value.now)) }
{
    modules_listed(alloc, members_under(value, b"modules"))
}
