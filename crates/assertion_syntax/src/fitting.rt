//! Whether an assertion fits a header.

ghost use Rattle.std.specs.Prelude.{◌≡◌, ◌+◌, ◌*◌, ◌<◌, length, MatchBool, MatchResult};
ghost use Rattle.std.specs.List.{list_all};
ghost use Rattle.scald_base.specs.Time.{period};
ghost use Rattle.scald_base.specs.Clock.{ideal};
ghost use Rattle.scald_base.specs.Span.{span_fits};
ghost use Rattle.scald_base.specs.Fitting.{IntervalsFit, EdgesOverlap, Fits, skew_of};
ghost use Rattle.assertion_syntax.specs.Slots.{steps, is_near, AreNear};
ghost use Rattle.assertion_syntax.specs.Units.{AreHeld};
ghost use Rattle.assertion_syntax.specs.Faults.{IsFaultOf};

use crate::units::{UNITS, held};
use scald_base::{AssertSpec, ClockSpec, Header, Spans};
use thiserror::Error;

/// Why an assertion does not fit a header.
#[derive(Clone, Copy, PartialEq, Eq, Debug, Error)]
pub enum NameFault {
    /// An interval is not one of the header's units.
    #[error("an interval does not fit the units of the period")]
    BadName,
    /// Two edges of a clock may come at the same tick, if each moves by itself.
    #[error("the regions of two edges overlap")]
    EdgesOverlap,
}

/// Whether the assertion is one for this header: `BadName` exactly if an interval is not one of
/// its units, and then `EdgesOverlap` exactly if the regions of two edges of a `.C` clock share
/// a slot, or one is longer than the period.
pub fn fits(spec: &AssertSpec, h: &Header) -> Result<(), NameFault>
    ensures { MatchResult result (λ _. Fits h.now spec.now) (IsFaultOf h.now spec.now) }
{
    if !intervals_fit(spec, h) {
        return Err(NameFault::BadName);
    }
    if edges_overlap(spec, h) {
        return Err(NameFault::EdgesOverlap);
    }
    Ok(())
}

/// Whether each interval is one of the header's units.
fn spans_fit(spans: &Spans, h: &Header) -> bool
    ensures { result ≡ list_all (span_fits h.now.units) spans.now }
{
    let units = h.units;
    spans.as_slice().iter().all(|span| span.fits(units))
}

/// Whether each interval of the assertion is one of the header's units.
fn intervals_fit(spec: &AssertSpec, h: &Header) -> bool
    ensures { MatchBool result (IntervalsFit h.now spec.now) (¬ IntervalsFit h.now spec.now) }
{
    match spec {
        AssertSpec::None => true,
        AssertSpec::Precision(clock) => spans_fit(&clock.spans, h),
        AssertSpec::Clock(clock) => spans_fit(&clock.spans, h),
        AssertSpec::Stable(spans) => spans_fit(spans, h),
    }
}

/// Whether the regions of a clock's edges overlap, if each edge moves by itself.
fn edges_overlap(spec: &AssertSpec, h: &Header) -> bool
    requires { IntervalsFit h.now spec.now }
    ensures { MatchBool result (EdgesOverlap h.now spec.now) (¬ EdgesOverlap h.now spec.now) }
{
    match spec {
        AssertSpec::Clock(clock) => {
            h.known();
            let (early, late) = skew(clock, h);
            let held = held(clock.spans.as_slice(), h.units);
            are_near(clock, &held, h, u32::from(early) + u32::from(late))
        }
        _ => false,
    }
}

/// How many ticks early and late the clock's edges may come.
fn skew(clock: &ClockSpec, h: &Header) -> (u16, u16)
    ensures { result ≡ skew_of clock.now h.now.cskew }
{
    clock.skew.unwrap_or(h.cskew)
}

/// Whether two edges are at most so many ticks apart. An edge and the same edge a period on count
/// as two, so that one whose region is longer than the period is found as well. The units of the
/// clock's intervals are given.
fn are_near(clock: &ClockSpec, held: &[bool; UNITS], h: &Header, reach: u32) -> bool
    requires size { length held.now ≡ 4096 }
    requires are { AreHeld h.now.units held.now clock.now.spans }
    ensures { let near = AreNear (steps clock.now h.now) reach (2 * period h.now) in
        MatchBool result near (¬ near) }
{
    let mut last = None;
    'ticks: for tick in 0..2 * h.period() {
        if steps(clock, held, h, tick) {
            if is_near(last, tick, reach) {
                return true;
            }
            last = Some(tick);
        }
    }
    false
}

/// Whether the clock steps at this tick of this period or the next.
fn steps(clock: &ClockSpec, held: &[bool; UNITS], h: &Header, tick: u16) -> bool
    requires size { length held.now ≡ 4096 }
    requires are { AreHeld h.now.units held.now clock.now.spans }
    requires within { tick < 2 * period h.now }
    ensures { result ≡ steps clock.now h.now tick }
{
    let period = h.period();
    let before = shows(clock, held, h, (tick + (period - 1)) % period);
    let after = shows(clock, held, h, tick % period);
    if before { !after } else { after }
}

/// What the ideal clock shows at a tick of the period.
fn shows(clock: &ClockSpec, held: &[bool; UNITS], h: &Header, tick: u16) -> bool
    requires size { length held.now ≡ 4096 }
    requires are { AreHeld h.now.units held.now clock.now.spans }
    requires within { tick < period h.now }
    ensures { result ≡ ideal clock.now h.now tick }
{
    h.known();
    let inside = held[(tick / h.ticks) as usize];
    if clock.low { !inside } else { inside }
}

/// Whether the last edge is at most so many ticks before this tick.
fn is_near(last: Option<u16>, tick: u16, reach: u32) -> bool
    ensures { result ≡ is_near last tick reach }
{
    match last {
        None => false,
        Some(last) => u32::from(tick.saturating_sub(last)) <= reach,
    }
}
