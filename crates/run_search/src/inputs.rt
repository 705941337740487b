//! Inputs that change as early and as late as their assertions permit.

use crate::chance::{coin, seldom};
use assertion_syntax::{ideal, quiet};
use flat_circuit::{CaseValue, Net};
use rand_core::Rng;
use scald_base::{AssertSpec, ClockSpec, Header, NoMemory, Spans};
use std::alloc::Global;
use trace_sim::{Levels, skew_of, slot_back};

/// One bit for ever.
pub fn constant(alloc: Global, one: bool, ticks: u32) -> Result<Levels, NoMemory> {
    let mut row = Levels::new(alloc);
    for _ in 0..ticks {
        row.push(one)?;
    }
    Ok(row)
}

/// Bits by chance: at each tick, or seldom another than before.
pub fn free_row<R: Rng>(
    alloc: Global,
    rng: &mut R,
    ticks: u32,
    calm: bool,
) -> Result<Levels, NoMemory> {
    let mut row = Levels::new(alloc);
    let mut bit = coin(rng);
    for _ in 0..ticks {
        if calm {
            bit = bit != seldom(rng, 8);
        } else {
            bit = coin(rng);
        }
        row.push(bit)?;
    }
    Ok(row)
}

/// The bit of an ideal clock that comes early, or one that comes late.
fn clock_bit(clock: &ClockSpec, h: &Header, skew: (u16, u16), late: bool, t: u32) -> bool {
    let slot = if late {
        slot_back(h, t as usize, skew.1 as usize)
    } else {
        slot_back(h, t as usize + skew.0 as usize, 0)
    };
    ideal(clock, h, slot)
}

/// A clock that comes early or late as a whole.
fn shifted(
    alloc: Global,
    clock: &ClockSpec,
    h: &Header,
    late: bool,
    ticks: u32,
) -> Result<Levels, NoMemory> {
    let skew = skew_of(clock, h.pskew);
    let mut row = Levels::new(alloc);
    for t in 0..ticks {
        row.push(clock_bit(clock, h, skew, late, t))?;
    }
    Ok(row)
}

/// A clock whose rises and falls come early or late each for itself.
fn moved(
    alloc: Global,
    clock: &ClockSpec,
    h: &Header,
    late_rise: bool,
    late_fall: bool,
    ticks: u32,
) -> Result<Levels, NoMemory> {
    let skew = skew_of(clock, h.cskew);
    let mut row = Levels::new(alloc);
    for t in 0..ticks {
        let early = clock_bit(clock, h, skew, false, t);
        let late = clock_bit(clock, h, skew, true, t);
        let bit = match (late_rise, late_fall) {
            (false, false) => early,
            (true, true) => late,
            (false, true) => early || late,
            (true, false) => early && late,
        };
        row.push(bit)?;
    }
    Ok(row)
}

/// Whether a net that is stable in these intervals may change in the slot of a tick; a calm one
/// changes only in the first and in the last slot between two intervals.
fn may_change(spans: &Spans, h: &Header, t: u32, calm: bool) -> bool {
    let t = t as usize;
    if quiet(spans, h, slot_back(h, t, 0)) {
        return false;
    }
    !calm || quiet(spans, h, slot_back(h, t, 1)) || quiet(spans, h, slot_back(h, t + 1, 0))
}

/// A net that changes wherever it may, by chance.
fn stable<R: Rng>(
    alloc: Global,
    rng: &mut R,
    spans: &Spans,
    h: &Header,
    ticks: u32,
    calm: bool,
) -> Result<Levels, NoMemory> {
    let mut row = Levels::new(alloc);
    let mut bit = coin(rng);
    for t in 0..ticks {
        if may_change(spans, h, t, calm) {
            bit = coin(rng);
        }
        row.push(bit)?;
    }
    Ok(row)
}

/// The value that a case gives a net.
pub fn value_in(values: &[CaseValue], net: u32) -> Option<bool> {
    for value in values {
        if value.net == net {
            return Some(value.one);
        }
    }
    None
}

/// The bits of a net that nothing drives: its value in the case, or by its assertion.
pub fn input_row<R: Rng>(
    alloc: Global,
    rng: &mut R,
    h: &Header,
    net: &Net,
    value: Option<bool>,
    late: bool,
    ticks: u32,
    calm: bool,
) -> Result<Levels, NoMemory> {
    if let Some(one) = value {
        return constant(alloc, one, ticks);
    }
    match net.spec.or(&AssertSpec::None) {
        AssertSpec::None => constant(alloc, coin(rng), ticks),
        AssertSpec::Precision(clock) => shifted(alloc, clock, h, late, ticks),
        AssertSpec::Clock(clock) => {
            let other = late != seldom(rng, 4);
            moved(alloc, clock, h, late, other, ticks)
        }
        AssertSpec::Stable(spans) => stable(alloc, rng, spans, h, ticks, calm),
    }
}
