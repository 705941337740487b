//! Steps of a pin.

ghost use Rattle.std.specs.Prelude.{◌≡◌, if◌then◌else◌, Some};
ghost use Rattle.trace_tool.specs.Pass.{begins, changed as changed_bit, shown, step_at as step_to};

use flat_circuit::Instance;
use std::cmp::max;
use trace_sim::{Levels, nth_pin};

/// The first tick at which a step of a pin counts: not before a given one, and the pin's net has
/// both bits.
pub fn begin(from: u32, wires: &[u16], pin: usize) -> usize
    ensures { result ≡ begins from wires.now pin }
{
    let wire = match wires.get(pin) {
        None => 0,
        Some(wire) => *wire as usize,
    };
    max(from as usize, wire + 1)
}

fn changed(before: bool, now: bool) -> Option<bool>
    ensures { result ≡ changed_bit before now }
{
    match (before, now) {
        (false, true) => Some(true),
        (true, false) => Some(false),
        _ => None,
    }
}

/// The bit to which a pin steps at a tick, if its steps count.
pub fn step_at(
    bits: &[Levels],
    i: &Instance,
    wires: &[u16],
    pin: usize,
    begin: usize,
    t: usize,
) -> Option<bool>
    ensures { result ≡ step_to begin (shown bits.now i.now wires.now pin) t }
{
    if t < begin {
        return None;
    }
    let before = nth_pin(bits, i.pins.as_slice(), wires, pin, t.saturating_sub(1));
    let now = nth_pin(bits, i.pins.as_slice(), wires, pin, t);
    changed(before, now)
}

/// The last of the ticks that pass a test, with one tick more.
pub fn latest(passes: bool, last: Option<u32>, t: u32) -> Option<u32>
    ensures { result ≡ (if passes then Some t else last) }
{
    if passes { Some(t) } else { last }
}
