//! The instance and checker bits that the use of a primitive makes.

ghost use Rattle.std.specs.Prelude.{◌≡◌, ℕ, [], ◌++◌, ◌<◌, ◌≤◌, map, IfOk, OnOk};
ghost use Rattle.std.specs.List.{flat_map, list_all};
ghost use Rattle.flat_circuit.specs.Instances.{InstanceFits};
ghost use Rattle.macro_expander.specs.Primitives.{greatest as spec_greatest, width_of as spec_width_of, can_have, inputs_fit as spec_inputs_fit, bit_at as spec_bit_at, adding};
ghost use Rattle.macro_expander.specs.Numbered.{bits_in, no_ref, pin_ref, all_refs, column_ref, refs_by, pin_refs, output_ref, target_ref, inverted_ref, instance_of, SameNets, DoneAt, state_of, nets_in, names_in};
ghost use Rattle.macro_expander.specs.Wired.{all_wired, wired_bit};

use crate::connection::Joined;
use crate::expansion::Expansion;
use crate::primitive::Plan;
use drawing_tree::UseStmt;
use flat_circuit::{Instance, Kind, Pin, Pins, Text};
use scald_base::{NoMemory, Stop};
use std::alloc::Global;
use vector_names::{BitRef, Target};

fn greatest_width(connections: &[Joined]) -> usize
    ensures { result ≡ spec_greatest (map bits_in connections.now) }
{
    let mut greatest = 0;
    for connection in connections {
        greatest = greatest.max(connection.bits.len());
    }
    greatest
}

pub(crate) fn width_of(kind: Kind, ins: &[Joined], outs: &[Joined]) -> usize
    ensures { result ≡ spec_width_of kind (map bits_in ins.now) (map bits_in outs.now) }
{
    if kind.has_output() {
        greatest_width(outs)
    } else {
        greatest_width(ins)
    }
}

fn all_can_have(connections: &[Joined], width: usize) -> bool
    ensures { result ≡ list_all (can_have width) (map bits_in connections.now) }
{
    for connection in connections {
        let bits = connection.bits.len();
        if bits != width && bits != 1 {
            return false;
        }
    }
    true
}

pub(crate) fn inputs_fit(kind: Kind, width: usize, ins: &[Joined]) -> bool
    ensures { result ≡ spec_inputs_fit kind width (map bits_in ins.now) }
{
    if kind.is_change() {
        true
    } else {
        all_can_have(ins, width)
    }
}

/// Bit k of a connection, which one bit is for every k.
fn bit_at(bits: &[BitRef], k: usize) -> BitRef
    ensures { result ≡ spec_bit_at no_ref bits.now k }
{
    match bits {
        [only] => *only,
        _ => match bits.get(k) {
            Some(bit) => *bit,
            None => BitRef {
                target: Target::Constant(false),
                inverted: false,
            },
        },
    }
}

fn pin(bit: BitRef, hold: bool) -> Pin
    ensures { result ≡ pin_ref hold bit }
{
    Pin {
        target: bit.target,
        inverted: bit.inverted,
        hold,
    }
}

fn add_all(pins: &mut Pins, connection: &Joined) -> Result<(), NoMemory>
    ensures { OnOk result (pins.new ≡ pins.old ++ all_refs connection.now) }
{
    let bits = connection.bits.as_slice();
    for bit in bits {
        pins.push(pin(*bit, connection.hold))?;
    }
    Ok(())
}

/// How many bits the connections have together: the room for their pins.
fn bit_count(connections: &[Joined]) -> usize {
    let mut count: usize = 0;
    for connection in connections {
        count = count.saturating_add(connection.bits.len());
    }
    count
}

fn all_pins(alloc: Global, ins: &[Joined]) -> Result<Pins, NoMemory>
    ensures { IfOk result (λ pins. pins ≡ flat_map all_refs ins.now) }
{
    let mut pins = Pins::with_room(alloc, bit_count(ins))?;
    for connection in ins {
        add_all(&mut pins, connection)?;
    }
    Ok(pins)
}

fn column(alloc: Global, ins: &[Joined], k: usize) -> Result<Pins, NoMemory>
    ensures { IfOk result (λ pins. pins ≡ map (column_ref k) ins.now) }
{
    let mut pins = Pins::with_room(alloc, ins.len())?;
    for connection in ins {
        pins.push(pin(bit_at(connection.bits.as_slice(), k), connection.hold))?;
    }
    Ok(pins)
}

/// The pins of bit k: one for each connection, or one for each bit of each.
fn pins_by(alloc: Global, each_bit: bool, ins: &[Joined], k: usize) -> Result<Pins, NoMemory>
    ensures { IfOk result (λ pins. pins ≡ refs_by each_bit ins.now k) }
{
    if each_bit {
        all_pins(alloc, ins)
    } else {
        column(alloc, ins, k)
    }
}

/// The pins of bit k: those of a change function are all bits of its inputs.
fn pins(alloc: Global, kind: Kind, ins: &[Joined], k: usize) -> Result<Pins, NoMemory>
    ensures { IfOk result (λ pins. pins ≡ pin_refs kind ins.now k) }
{
    pins_by(alloc, kind.is_change(), ins, k)
}

fn output(outs: &[Joined], k: usize) -> Option<BitRef>
    ensures { result ≡ output_ref outs.now k }
{
    match outs {
        [] => None,
        [first, ..] => Some(bit_at(first.bits.as_slice(), k)),
    }
}

fn target(bit: Option<BitRef>) -> Option<Target>
    ensures { result ≡ target_ref bit }
{
    bit.map(|bit| bit.target)
}

fn inverted(bit: Option<BitRef>) -> bool
    ensures { result ≡ inverted_ref bit }
{
    match bit {
        None => false,
        Some(bit) => bit.inverted,
    }
}

/// The connections of a use, with what it says of its bits and the whole text of its label.
#[derive(Clone, Copy)]
pub(crate) struct Wiring<'a> {
    pub(crate) path: &'a [u8],
    pub(crate) statement: &'a UseStmt,
    pub(crate) kind: Kind,
    pub(crate) plan: Plan,
    pub(crate) ins: &'a [Joined],
    pub(crate) outs: &'a [Joined],
}

/// Bit k of a use.
fn instance(alloc: Global, wiring: &Wiring, k: u16) -> Result<Instance, NoMemory>
    ensures { IfOk result (λ j. j ≡ wired_bit wiring.now k) }
{
    let output = output(wiring.outs, k as usize);
    Ok(Instance {
        path: Text::of(alloc, wiring.path)?,
        bit: k,
        kind: wiring.kind,
        delay: wiring.plan.delay,
        split: wiring.plan.split,
        limits: wiring.plan.limits,
        pins: pins(alloc, wiring.kind, wiring.ins, k as usize)?,
        out: target(output),
        out_inverted: inverted(output),
        place: wiring.statement.place,
    })
}

/// Adds bit k of a use.
fn add_bit(expansion: &mut Expansion, alloc: Global, wiring: &Wiring, k: u16) -> Result<(), Stop>
    requires { InstanceFits expansion.old.builder.header (nets_in expansion.old)
        (wired_bit wiring.now k) }
    ensures done { DoneAt expansion.old expansion.new result
        (adding (instance_of (names_in expansion.old) (wired_bit wiring.now k))
        (state_of expansion.old)) }
    ensures same { OnOk result (SameNets expansion.old expansion.new) }
{
    let instance = instance(alloc, wiring, k)?;
    expansion.builder.known();
    expansion.builder.instance(instance)?;
    Ok(())
}

/// Adds the bits of a use, from bit 0 on.
pub(crate) fn add_bits(
    expansion: &mut Expansion,
    alloc: Global,
    wiring: &Wiring,
    width: usize,
) -> Result<(), Stop>
    requires fits { (k : ℕ) → k < width →
        InstanceFits expansion.old.builder.header (nets_in expansion.old)
        (wired_bit wiring.now k) }
    requires few { width ≤ 256 }
    ensures { DoneAt expansion.old expansion.new result
        (all_wired (names_in expansion.old) wiring.now width (state_of expansion.old)) }
{
    for k in 0..width {
        add_bit(expansion, alloc, wiring, k as u16)?;
    }
    Ok(())
}
