//! What the pins of an instance do in a run.

ghost use Rattle.std.specs.Prelude.{◌≡◌, ◌↔◌, IsTrue};
ghost use Rattle.point_check.specs.Break.{Changes, Leaves, Rises};
ghost use Rattle.pulse_check.specs.Break.{IsPulse};
ghost use Rattle.run_search.specs.Pins.{Counts, shown};

use flat_circuit::Instance;
use trace_sim::{Levels, nth_pin};

/// What a pin shows at a tick.
pub fn shows(bits: &[Levels], i: &Instance, wires: &[u16], pin: u16, t: u32) -> bool
    ensures { result ≡ shown bits.now i.now wires.now pin t }
{
    nth_pin(bits, i.pins.as_slice(), wires, pin as usize, t as usize)
}

/// Whether a pin rises at a tick.
pub fn rises(bits: &[Levels], i: &Instance, wires: &[u16], pin: u16, t: u32) -> bool
    ensures { IsTrue result ↔ Rises (shown bits.now i.now wires.now pin) t }
{
    !shows(bits, i, wires, pin, t.saturating_sub(1)) && shows(bits, i, wires, pin, t)
}

/// Whether a pin steps at a tick.
pub fn changes(bits: &[Levels], i: &Instance, wires: &[u16], pin: u16, t: u32) -> bool
    ensures { IsTrue result ↔ Changes (shown bits.now i.now wires.now pin) t }
{
    shows(bits, i, wires, pin, t.saturating_sub(1)) != shows(bits, i, wires, pin, t)
}

/// Whether a pin does not stay at a bit at a tick.
pub fn leaves(bits: &[Levels], i: &Instance, wires: &[u16], pin: u16, bit: bool, t: u32) -> bool
    ensures { IsTrue result ↔ Leaves (shown bits.now i.now wires.now pin) bit t }
{
    shows(bits, i, wires, pin, t.saturating_sub(1)) != bit || shows(bits, i, wires, pin, t) != bit
}

/// Whether a pin comes to a bit at a tick, and next leaves it at the other.
#[tactic(auto, using(crate::proofs::Pulses::is_pulse, crate::proofs::Pulses::not_before, crate::proofs::Pulses::not_during, crate::proofs::Pulses::not_behind, crate::proofs::Pulses::not_ordered))]
pub fn is_pulse(
    bits: &[Levels],
    i: &Instance,
    wires: &[u16],
    bit: bool,
    start: u32,
    end: u32,
) -> bool
    ensures { IsTrue result ↔ IsPulse (shown bits.now i.now wires.now 0) bit start end }
{
    if shows(bits, i, wires, 0, start.saturating_sub(1)) == bit || end <= start {
        return false;
    }
    for t in start..end {
        if shows(bits, i, wires, 0, t) != bit {
            return false;
        }
    }
    shows(bits, i, wires, 0, end) != bit
}

/// Whether a step of a pin is one of the run of so many ticks, and lies from a tick on: its net has
/// both bits, the delay of the wire before.
pub fn counts(wires: &[u16], pin: u16, from: u32, ticks: u32, t: u32) -> bool
    ensures { IsTrue result ↔ Counts wires.now pin from ticks t }
{
    let wire = match wires.get(pin as usize) {
        None => 0,
        Some(wire) => *wire,
    };
    from <= t && u32::from(wire) < t && t < ticks
}
