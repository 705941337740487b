//! The buffers of a macro: they drive the bits of output ports that are called by something else.

ghost use Rattle.std.specs.Prelude.{◌≡◌, ◌++◌, IfOk, OnOk, codes};
ghost use Rattle.drawing_tree.specs.Canonical.{statement_lines, statements_lines};
ghost use Rattle.netlist_import.specs.Body as spec;
ghost use Rattle.netlist_import.specs.Fresh.{names_after};
ghost use Rattle.netlist_import.specs.Nets.{numbered_from};

use crate::kinds::is_same_way;
use crate::names::Names;
use crate::netlist::{Bit, Direction, Port};
use crate::nets::{Nets, Wire, Wired};
use crate::words::counted;
use scald_base::{Bytes, List, NoMemory};
use std::alloc::Global;

/// A bit that a port leads out, and what it is called elsewhere.
#[derive(Clone, Copy)]
pub(crate) struct Outlet {
    pub(crate) from: Wired,
    pub(crate) to: Wire,
}

/// Whether this is what stands for a bit.
fn is_wire(wire: Wire, wired: Wired) -> bool
    ensures { result ≡ spec.is_wire wire wired }
{
    match wired {
        Wired::Zero | Wired::One => false,
        Wired::Bit(other) => other.net == wire.net && other.index == wire.index,
    }
}

/// What a bit is called, if it is not what nothing drives.
fn source_of(nets: &Nets, bit: Bit) -> Option<Wired>
    ensures { result ≡ spec.source_of nets.now bit }
{
    match bit {
        Bit::Zero => Some(Wired::Zero),
        Bit::One => Some(Wired::One),
        Bit::Undriven => None,
        Bit::Number(number) => match nets.named(number) {
            Some(wire) => Some(Wired::Bit(wire)),
            None => None,
        },
    }
}

/// Adds what a bit of an output port leads out.
fn add_outlet(outlets: &mut List<Outlet>, nets: &Nets, to: Wire, bit: Bit) -> Result<(), NoMemory>
    ensures { OnOk result (outlets.new ≡ outlets.old ++ spec.outlets_at nets.now to bit) }
{
    let Some(from) = source_of(nets, bit) else {
        return Ok(());
    };
    if is_wire(to, from) {
        return Ok(());
    }
    outlets.push(Outlet { from, to })
}

/// Adds what the bits of an output port lead out.
#[tactic(auto, unfolding(crate::specs::Body::port_outlets, crate::specs::Nets::numbered_from))]
fn add_outlets(
    outlets: &mut List<Outlet>,
    nets: &Nets,
    net: usize,
    bits: &[Bit],
) -> Result<(), NoMemory>
    ensures { OnOk result (outlets.new
        ≡ outlets.old ++ spec.port_outlets nets.now net (numbered_from 0 bits.now)) }
{
    for (index, bit) in bits.iter().enumerate() {
        add_outlet(outlets, nets, Wire { net, index }, *bit)?;
    }
    Ok(())
}

/// What all output ports lead out.
#[tactic(auto, unfolding(crate::specs::Body::all_outlets, crate::specs::Nets::numbered_from))]
pub(crate) fn outlets_of(
    alloc: Global,
    nets: &Nets,
    ports: &[Port],
) -> Result<List<Outlet>, NoMemory>
    ensures { IfOk result (λ outlets. outlets
        ≡ spec.all_outlets nets.now (numbered_from 0 ports.now)) }
{
    let mut outlets = List::new(alloc);
    for (net, port) in ports.iter().enumerate() {
        if is_same_way(port.direction, Direction::Output) {
            add_outlets(&mut outlets, nets, net, port.bits.as_slice())?;
        }
    }
    Ok(outlets)
}

/// Puts the buffer that drives a bit of an output port at the end of `out`.
fn add_buffer(out: &mut Bytes, nets: &Nets, label: &[u8], outlet: Outlet) -> Result<(), NoMemory>
    ensures { OnOk result (out.new ≡ out.old ++ statement_lines (codes "  ")
        (spec.buffer nets.now.list label.now outlet)) }
{
    out.extend(b"  ")?;
    out.extend(label)?;
    out.extend(b" : BUF [0:0] (")?;
    nets.add_connection(out, &[outlet.from])?;
    out.extend(b") -> (")?;
    nets.add_connection(out, &[Wired::Bit(outlet.to)])?;
    out.extend(b");\n")
}

/// Puts the buffers at the end of `out`, each with a label of its own.
#[tactic(auto, unfolding(crate::specs::Fresh::names_after, crate::specs::Body::buffer_labels, crate::specs::Body::buffers, crate::specs::Body::listed, drawing_tree::specs::Canonical::statements_lines))]
pub(crate) fn add_buffers(
    alloc: Global,
    out: &mut Bytes,
    nets: &Nets,
    labels: &mut Names,
    outlets: &[Outlet],
) -> Result<(), NoMemory>
    ensures { OnOk result (out.new ≡ out.old ++ statements_lines (codes "  ") (spec.listed
        (spec.buffers nets.now.list (names_after labels.old (spec.buffer_labels 0 outlets.now))
        outlets.now))) }
{
    for (number, outlet) in outlets.iter().enumerate() {
        let wanted = counted(alloc, b"thru", number)?;
        let label = labels.fresh(alloc, wanted)?;
        add_buffer(out, nets, label.as_slice(), *outlet)?;
    }
    Ok(())
}
