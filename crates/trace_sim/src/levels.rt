//! The bits of nets, and what pins show of them.

ghost use Rattle.std.specs.Prelude.{◌≡◌, ◌<◌, ℕ, false, slice_index_or, slice_set, IfOk};
ghost use Rattle.std.specs.List.{list_all};
ghost use Rattle.scald_base.specs.Signal.{turned as turned_bit};
ghost use Rattle.element_kinds.specs.Equation.{bits_at, nth_signal};
ghost use Rattle.flat_circuit.specs.Run.{pin_signal, pin_signals, target_signal};
ghost use Rattle.trace_sim.specs.Simulated.{bit_of};
ghost use Rattle.trace_sim.specs.Making.{put as put_bit, seen, stays_at};

use crate::choice::Levels;
use flat_circuit::{Pin, Target};
use scald_base::{List, NoMemory};
use std::alloc::Global;

fn bit_at(bits: &[Levels], net: u32, t: usize) -> bool
    ensures { result ≡ bit_of bits.now net t }
{
    match bits.get(net as usize) {
        None => false,
        Some(row) => in_row(row, t),
    }
}

fn in_row(row: &Levels, t: usize) -> bool
    ensures { result ≡ slice_index_or row.now t false }
{
    match row.get(t) {
        None => false,
        Some(bit) => *bit,
    }
}

/// A bit, complemented if it is marked so.
pub(crate) fn turned(inverted: bool, bit: bool) -> bool
    ensures { result ≡ turned_bit inverted bit }
{
    if inverted { !bit } else { bit }
}

/// What is seen at a tick through a wire of this delay.
pub(crate) fn through(bits: &[Levels], target: Target, wire: u16, t: usize) -> bool
    ensures { result ≡ target_signal (seen bits.now) target wire t }
{
    match target {
        Target::Constant(bit) => bit,
        Target::Net(n) => bit_at(bits, n, t.saturating_sub(wire as usize)),
    }
}

fn pin_bit(bits: &[Levels], pin: Pin, wire: u16, t: usize) -> bool
    ensures { result ≡ pin_signal (seen bits.now) pin wire t }
{
    turned(pin.inverted, through(bits, pin.target, wire, t))
}

/// What the pin at a place shows at a tick, through a wire of its delay; 0 past the last.
pub fn nth_pin(bits: &[Levels], pins: &[Pin], wires: &[u16], place: usize, t: usize) -> bool
    ensures { result ≡ nth_signal (pin_signals (seen bits.now) pins.now wires.now) place t }
{
    if place < pins.len() && place < wires.len() {
        pin_bit(bits, pins[place], wires[place], t)
    } else {
        false
    }
}

/// What all pins show at a tick.
pub(crate) fn pin_bits(
    alloc: Global,
    bits: &[Levels],
    pins: &[Pin],
    wires: &[u16],
    t: usize,
) -> Result<Vec<bool>, NoMemory>
    ensures { IfOk result (λ shown. shown.items
        ≡ bits_at (pin_signals (seen bits.now) pins.now wires.now) t) }
{
    let mut shown = Vec::new(alloc);
    let mut place = 0;
    'pins: while place < pins.len() && place < wires.len() {
        shown.push(pin_bit(bits, pins[place], wires[place], t))?;
        place += 1;
    }
    Ok(shown)
}

/// Whether no pin steps at a tick.
pub(crate) fn all_stay(bits: &[Levels], pins: &[Pin], wires: &[u16], t: usize) -> bool
    ensures { result ≡ list_all (stays_at t) (pin_signals (seen bits.now) pins.now wires.now) }
{
    let mut place = 0;
    'pins: while place < pins.len() && place < wires.len() {
        let before = pin_bit(bits, pins[place], wires[place], t.saturating_sub(1));
        let now = pin_bit(bits, pins[place], wires[place], t);
        if before != now {
            return false;
        }
        place += 1;
    }
    true
}

/// Writes a net's bit at a tick; past the nets or the ticks nothing is written.
pub(crate) fn put(bits: &mut [Levels], net: u32, t: usize, bit: bool)
    ensures is { bits.new ≡ put_bit bits.old net t bit }
    ensures before { (n v : ℕ) → v < t → bit_of bits.new n v ≡ bit_of bits.old n v }
{
    let n = net as usize;
    if n < bits.len() {
        put_in(&mut bits[n], t, bit);
    }
}

fn put_in(row: &mut Levels, t: usize, bit: bool)
    ensures { row.new ≡ slice_set row.old t bit }
{
    if t < row.len() {
        row.set(t, bit);
    }
}

/// A copy.
pub(crate) fn copied(alloc: Global, row: &Levels) -> Result<Levels, NoMemory>
    ensures { IfOk result (λ copy. copy ≡ row.now) }
{
    let mut copy = List::new(alloc);
    for bit in row.as_slice() {
        copy.push(*bit)?;
    }
    Ok(copy)
}
