//! Pins that are to stay while a marked one lets them through.

ghost use Rattle.std.specs.Prelude.{◌≡◌, ◌<◌, length, MatchBool};
ghost use Rattle.point_check.specs.Break.{HasMark};
ghost use Rattle.trace_tool.specs.Pass.{Disturbs, FindsFirst, LetsThrough, MarkEnds};

use crate::step::{begin, step_at};
use flat_circuit::Instance;
use trace_sim::{Levels, nth_pin};

fn has_mark(i: &Instance, pin: usize) -> bool
    ensures { MatchBool result (HasMark i.now pin) (¬ (HasMark i.now pin)) }
{
    match i.pins.get(pin) {
        None => false,
        Some(pin) => pin.hold,
    }
}

// Whether two bits are other than to stay at this one.
fn leaves(before: bool, now: bool, closed: bool) -> bool
    ensures { MatchBool result (¬ ((before ≡ closed) × (now ≡ closed)))
        ((before ≡ closed) × (now ≡ closed)) }
{
    before != closed || now != closed
}

// Whether the pin is marked, and lets the others through at a tick.
fn lets_through(
    i: &Instance,
    wires: &[u16],
    closed: bool,
    from: u32,
    t: usize,
    pin: usize,
    bits: &[Levels],
) -> bool
    ensures { MatchBool result (LetsThrough bits.now i.now wires.now closed from t pin)
        (¬ (LetsThrough bits.now i.now wires.now closed from t pin)) }
{
    if !has_mark(i, pin) {
        return false;
    }
    if t < begin(from, wires, pin) {
        return false;
    }
    let before = nth_pin(bits, i.pins.as_slice(), wires, pin, t.saturating_sub(1));
    let now = nth_pin(bits, i.pins.as_slice(), wires, pin, t);
    leaves(before, now, closed)
}

// Whether a pin other than the marked one changes at a tick.
fn disturbs(
    i: &Instance,
    wires: &[u16],
    from: u32,
    t: usize,
    marked: usize,
    bits: &[Levels],
) -> bool
    ensures { MatchBool result (Disturbs bits.now i.now wires.now from t marked)
        (¬ (Disturbs bits.now i.now wires.now from t marked)) }
{
    for pin in 0..i.pins.len() {
        if pin != marked && step_at(bits, i, wires, pin, begin(from, wires, pin), t).is_some() {
            return true;
        }
    }
    false
}

fn mark_ends(
    i: &Instance,
    wires: &[u16],
    closed: bool,
    from: u32,
    t: usize,
    bits: &[Levels],
) -> bool
    ensures { MatchBool result (MarkEnds bits.now i.now wires.now closed from t)
        (¬ (MarkEnds bits.now i.now wires.now closed from t)) }
{
    for marked in 0..i.pins.len() {
        if lets_through(i, wires, closed, from, t, marked, bits) {
            if disturbs(i, wires, from, t, marked, bits) {
                return true;
            }
        }
    }
    false
}

/// The first tick, from one on, at which a pin changes while a marked one lets it through.
pub fn mark_end(
    i: &Instance,
    wires: &[u16],
    closed: bool,
    from: u32,
    ticks: u32,
    bits: &[Levels],
) -> Option<u32>
    ensures { FindsFirst (MarkEnds bits.now i.now wires.now closed from) ticks result }
{
    for t in 0..ticks {
        if mark_ends(i, wires, closed, from, t as usize, bits) {
            return Some(t);
        }
    }
    None
}
