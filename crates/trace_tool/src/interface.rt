//! Whether a net that nothing drives keeps its assertion, of bits that anyone wrote.

ghost use Rattle.std.specs.Prelude.{◌≡◌, ◌<◌, ◌≤◌, ◌^◌, ◌-◌, length, MatchBool, slice_index_or, false};
ghost use Rattle.scald_base.specs.Time.{period};
ghost use Rattle.scald_base.specs.Clock.{IsEdge, ideal as ideal_bit};
ghost use Rattle.pin_waves.specs.Meets.{Meets, MeetsClock, MeetsPrecision, MeetsStable, NearEdge};
ghost use Rattle.trace_tool.specs.Interface.{IsConstant, IsShifted, KeepsClock, row_signal, steps_from};

use assertion_syntax::{ideal, quiet};
use scald_base::{AssertSpec, ClockSpec, Header, Spans};
use trace_sim::{skew_of, slot_back};

/// The bit of a net at a tick, of its bits tick by tick: 0 after the last.
pub fn bit_at(row: &[bool], t: usize) -> bool
    ensures { result ≡ row_signal row.now t }
{
    match row.get(t) {
        None => false,
        Some(bit) => *bit,
    }
}

// ---- a clock

fn is_edge(clock: &ClockSpec, h: &Header, to: bool, slot: u16) -> bool
    requires { slot < period h.now }
    ensures { MatchBool result (IsEdge clock.now h.now to slot)
        (¬ (IsEdge clock.now h.now to slot)) }
{
    let before = ideal(clock, h, slot_back(h, slot as usize, 1));
    if before == to {
        return false;
    }
    let after = ideal(clock, h, slot);
    if after != to {
        return false;
    }
    true
}

/// Whether the slot of a tick is in the region of an edge to this bit.
fn is_near(clock: &ClockSpec, h: &Header, to: bool, t: usize) -> bool
    requires { t < 2 ^ 32 }
    ensures { MatchBool result (NearEdge h.now clock.now to t) (¬ (NearEdge h.now clock.now to t)) }
{
    let skew = skew_of(clock, h.cskew);
    let slot = slot_back(h, t, 0) as usize + skew.0 as usize;
    for by in 0..skew.0 as usize + skew.1 as usize + 1 {
        if is_edge(clock, h, to, slot_back(h, slot, by)) {
            return true;
        }
    }
    false
}

/// Whether a net steps from this bit, to which an edge is near.
fn steps_from(near: bool, to: bool, before: bool, now: bool) -> bool
    ensures { result ≡ steps_from near to before now }
{
    near && before == to && now != to
}

/// Whether the bits on both sides of the slot of a tick are those of a clock whose edges move.
fn keeps_clock(clock: &ClockSpec, h: &Header, t: usize, before: bool, now: bool) -> bool
    requires { t < 2 ^ 32 }
    ensures { MatchBool result (KeepsClock h.now clock.now t before now)
        (¬ (KeepsClock h.now clock.now t before now)) }
{
    let rising = is_near(clock, h, true, t);
    let falling = is_near(clock, h, false, t);
    if steps_from(rising, true, before, now) {
        return false;
    }
    if steps_from(falling, false, before, now) {
        return false;
    }
    if rising {
        return true;
    }
    if falling {
        return true;
    }
    if before != ideal(clock, h, slot_back(h, t, 1)) {
        return false;
    }
    if now != ideal(clock, h, slot_back(h, t, 0)) {
        return false;
    }
    true
}

fn meets_clock(clock: &ClockSpec, h: &Header, row: &[bool]) -> bool
    requires { length row.now < 2 ^ 32 }
    ensures { MatchBool result (MeetsClock h.now clock.now (length row.now) (row_signal row.now))
        (¬ (MeetsClock h.now clock.now (length row.now) (row_signal row.now))) }
{
    for t in 1..row.len() {
        if !keeps_clock(clock, h, t, bit_at(row, t - 1), bit_at(row, t)) {
            return false;
        }
    }
    true
}

// ---- a precision clock

/// Whether the bits are those of the ideal clock, so much later than its earliest.
fn is_shifted(clock: &ClockSpec, h: &Header, by: usize, row: &[bool]) -> bool
    requires { (length row.now < 2 ^ 32) × (by < 2 ^ 32) }
    ensures { MatchBool result (IsShifted h.now clock.now by row.now)
        (¬ (IsShifted h.now clock.now by row.now)) }
{
    let early = skew_of(clock, h.pskew).0 as usize;
    for t in 0..row.len() {
        if bit_at(row, t) != ideal(clock, h, slot_back(h, t + early, by)) {
            return false;
        }
    }
    true
}

fn meets_precision(clock: &ClockSpec, h: &Header, row: &[bool]) -> bool
    requires { length row.now < 2 ^ 32 }
    ensures { MatchBool result (MeetsPrecision h.now clock.now (length row.now)
        (row_signal row.now))
        (¬ (MeetsPrecision h.now clock.now (length row.now) (row_signal row.now))) }
{
    let skew = skew_of(clock, h.pskew);
    for by in 0..skew.0 as usize + skew.1 as usize + 1 {
        if is_shifted(clock, h, by, row) {
            return true;
        }
    }
    false
}

// ---- stable nets

fn meets_stable(spans: &Spans, h: &Header, row: &[bool]) -> bool
    requires { length row.now < 2 ^ 32 }
    ensures { MatchBool result (MeetsStable h.now spans.now (length row.now) (row_signal row.now))
        (¬ (MeetsStable h.now spans.now (length row.now) (row_signal row.now))) }
{
    for t in 1..row.len() {
        if quiet(spans, h, slot_back(h, t, 0)) {
            if bit_at(row, t - 1) != bit_at(row, t) {
                return false;
            }
        }
    }
    true
}

fn is_constant(row: &[bool]) -> bool
    ensures { MatchBool result (IsConstant row.now) (¬ (IsConstant row.now)) }
{
    for t in 1..row.len() {
        if bit_at(row, t - 1) != bit_at(row, t) {
            return false;
        }
    }
    true
}

/// Whether the bits keep an assertion; those of a net without one do not change.
pub fn meets(h: &Header, spec: &AssertSpec, row: &[bool]) -> bool
    requires { length row.now < 2 ^ 32 }
    ensures { MatchBool result (Meets h.now spec.now (length row.now) (row_signal row.now))
        (¬ (Meets h.now spec.now (length row.now) (row_signal row.now))) }
{
    match spec {
        AssertSpec::None => is_constant(row),
        AssertSpec::Precision(clock) => meets_precision(clock, h, row),
        AssertSpec::Clock(clock) => meets_clock(clock, h, row),
        AssertSpec::Stable(spans) => meets_stable(spans, h, row),
    }
}
