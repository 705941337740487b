//! The delays of a run that a break depends on. One in which the drawing leaves no freedom has no
//! line.
//!
//! Each function puts its lines at the end of the bytes. Its one error is that memory ran out.

ghost use Rattle.std.specs.Prelude.{◌≡◌, ◌++◌, OnOk, map};
ghost use Rattle.flat_circuit.specs.Split.{two_delays};
ghost use Rattle.fixpoint_engine.specs.Settled.{marked_in};
ghost use Rattle.listing.specs.Piece.{piece_text};
ghost use Rattle.listing.specs.Names.{instance_text};
ghost use Rattle.fault_decider.specs.Choices.{bound_line, delay_lines, delay_of, delays_text, is_driver as drives, is_own, wire_line, wire_lines, wires_of_number, wires_text};

use element_kinds::Form;
use fixpoint_engine::NetSet;
use flat_circuit::{Circuit, Instance, Pin, Target};
use listing::{Piece, add_line, add_pieces, instance_piece};
use scald_base::{Bytes, Delay, NoMemory};
use trace_tool::Trace;

/// A number within bounds, if they are more than one number.
fn add_bound(out: &mut Bytes, front: &[Piece], number: u16, bounds: Delay) -> Result<(), NoMemory>
    ensures { OnOk result (out.new
        ≡ out.old ++ bound_line (map piece_text front.now) number bounds) }
{
    if bounds.min == bounds.max {
        return Ok(());
    }
    add_pieces(out, front)?;
    add_line(
        out,
        &[
            Piece::Number(u64::from(number)),
            Piece::Text(b" OF "),
            Piece::Number(u64::from(bounds.min)),
            Piece::Text(b":"),
            Piece::Number(u64::from(bounds.max)),
        ],
    )
}

// ---- delays

/// The lines of the delays of an instance.
fn add_delay(
    out: &mut Bytes,
    c: &Circuit,
    k: u32,
    i: &Instance,
    pick: (u16, u16),
) -> Result<(), NoMemory>
    ensures { OnOk result (out.new ≡ out.old
        ++ delay_lines i.now (two_delays i.now.kind i.now.split) (instance_text c.now k) pick) }
{
    let name = instance_piece(c, k);
    if let Some(split) = i.split {
        if i.kind.may_split() {
            let rise = [Piece::Text(b"  DELAY "), name, Piece::Text(b" RISE ")];
            add_bound(out, &rise, pick.0, split.rise)?;
            let fall = [Piece::Text(b"  DELAY "), name, Piece::Text(b" FALL ")];
            return add_bound(out, &fall, pick.1, split.fall);
        }
    }
    match i.kind.form() {
        Form::Gate | Form::Register(_) | Form::Latch(_) => {
            let front = [Piece::Text(b"  DELAY "), name, Piece::Text(b" ")];
            add_bound(out, &front, pick.0, i.delay)
        }
        Form::Change | Form::Checker(_) => Ok(()),
    }
}

/// Whether an instance drives a net of a set.
fn is_driver(i: &Instance, cone: &NetSet) -> bool
    ensures { result ≡ drives (marked_in cone.now) i.now.out }
{
    match i.out {
        Some(Target::Net(net)) => cone.has(net),
        Some(Target::Constant(_)) => false,
        None => false,
    }
}

/// The lines of the delays of instance k, if it drives a net of the cone.
fn add_delay_at(
    out: &mut Bytes,
    c: &Circuit,
    trace: &Trace,
    cone: &NetSet,
    k: u32,
) -> Result<(), NoMemory>
    ensures { OnOk result (out.new ≡ out.old ++ delay_of c.now trace.now (marked_in cone.now) k) }
{
    match c.instance(k) {
        None => Ok(()),
        Some(i) => {
            if is_driver(i, cone) {
                add_delay(out, c, k, i, trace.pick(k))
            } else {
                Ok(())
            }
        }
    }
}

/// The delays of the drivers of the cone, in the order of expansion.
pub fn add_delays(
    out: &mut Bytes,
    c: &Circuit,
    trace: &Trace,
    cone: &NetSet,
) -> Result<(), NoMemory>
    ensures { OnOk result (out.new
        ≡ out.old ++ delays_text c.now trace.now (marked_in cone.now)) }
{
    for k in 0..c.instance_count() {
        add_delay_at(out, c, trace, cone, k)?;
    }
    Ok(())
}

// ---- wires

/// The delay of the wire to one pin.
fn add_wire(
    out: &mut Bytes,
    c: &Circuit,
    k: u32,
    place: usize,
    target: Target,
    wire: u16,
) -> Result<(), NoMemory>
    ensures { OnOk result (out.new ≡ out.old ++ wire_line c.now k place target wire) }
{
    let Target::Net(net) = target else {
        return Ok(());
    };
    let Some(found) = c.net(net) else {
        return Ok(());
    };
    let front = [
        Piece::Text(b"  WIRE "),
        instance_piece(c, k),
        Piece::Text(b" PIN "),
        Piece::Number(place as u64),
        Piece::Text(b" "),
    ];
    add_bound(out, &front, wire, found.wire)
}

/// The delays of the wires to the pins of an instance.
fn add_wires_of(
    out: &mut Bytes,
    c: &Circuit,
    k: u32,
    pins: &[Pin],
    wires: &[u16],
) -> Result<(), NoMemory>
    ensures { OnOk result (out.new ≡ out.old ++ wire_lines c.now k 0 pins.now wires.now) }
{
    for place in 0..pins.len() {
        let (Some(pin), Some(wire)) = (pins.get(place), wires.get(place)) else {
            return Ok(());
        };
        add_wire(out, c, k, place, pin.target, *wire)?;
    }
    Ok(())
}

/// Whether a number is that of the constraint's own instance.
fn is_own(own: Option<u32>, k: u32) -> bool
    ensures { result ≡ is_own own k }
{
    match own {
        None => false,
        Some(own) => own == k,
    }
}

/// The delays of the wires to the pins of instance k, if it drives a net of the cone or is the
/// constraint's own.
fn add_wires_at(
    out: &mut Bytes,
    c: &Circuit,
    trace: &Trace,
    cone: &NetSet,
    own: Option<u32>,
    k: u32,
) -> Result<(), NoMemory>
    ensures { OnOk result (out.new
        ≡ out.old ++ wires_of_number c.now trace.now (marked_in cone.now) own k) }
{
    let Some(i) = c.instance(k) else {
        return Ok(());
    };
    if !(is_driver(i, cone) || is_own(own, k)) {
        return Ok(());
    }
    add_wires_of(out, c, k, i.pins.as_slice(), trace.wires(k))
}

/// The delays of the wires to the pins of the drivers of the cone, and to those of the constraint's
/// own instance.
pub fn add_wires(
    out: &mut Bytes,
    c: &Circuit,
    trace: &Trace,
    cone: &NetSet,
    own: Option<u32>,
) -> Result<(), NoMemory>
    ensures { OnOk result (out.new
        ≡ out.old ++ wires_text c.now trace.now (marked_in cone.now) own) }
{
    for k in 0..c.instance_count() {
        add_wires_at(out, c, trace, cone, own, k)?;
    }
    Ok(())
}
