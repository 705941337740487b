//! What a name asserts at each tick.

ghost use Rattle.std.specs.Prelude.{◌≡◌};
ghost use Rattle.std.specs.List.{list_any};
ghost use Rattle.scald_base.specs.Span.{holds_unit};
ghost use Rattle.scald_base.specs.Clock.{ideal};
ghost use Rattle.scald_base.specs.Quiet.{quiet, quiet_inside};
ghost use Rattle.assertion_syntax.specs.Slots.{is_between};

use scald_base::{ClockSpec, Header, Span, Spans};

/// What a clock shows at a tick, without any skew: 1 in the units of its intervals, or 0 there
/// if it is complemented. The period's ticks count from 0.
pub fn ideal(spec: &ClockSpec, h: &Header, tick: u16) -> bool
    ensures { result ≡ ideal spec.now h.now tick }
{
    h.known();
    let inside = hold_unit(spec.spans.as_slice(), tick / h.ticks);
    if spec.low { !inside } else { inside }
}

/// Whether a stable signal keeps its value in a slot, which is the step to this tick of the period
/// from the one before.
pub fn quiet(spans: &Spans, h: &Header, slot: u16) -> bool
    ensures { result ≡ quiet spans.now h.now slot }
{
    match spans.as_slice() {
        [] => true,
        spans => quiet_in_one(h, slot, spans),
    }
}

/// Whether the unit is of an interval.
fn hold_unit(spans: &[Span], unit: u16) -> bool
    ensures { result ≡ list_any (λ s. holds_unit s unit) spans.now }
{
    spans.iter().any(|span| holds_unit(*span, unit))
}

/// Whether the unit is of the interval.
fn holds_unit(span: Span, unit: u16) -> bool
    ensures { result ≡ holds_unit span unit }
{
    if span.lo < span.hi {
        span.lo <= unit && unit < span.hi
    } else {
        span.lo <= unit || unit < span.hi
    }
}

/// Whether the step stays inside an interval.
fn quiet_in_one(h: &Header, slot: u16, spans: &[Span]) -> bool
    ensures { result ≡ list_any (quiet_inside h.now slot) spans.now }
{
    spans.iter().any(|span| quiet_inside(h, slot, *span))
}

/// Whether the step stays inside the interval, in this period or in the next.
fn quiet_inside(h: &Header, slot: u16, span: Span) -> bool
    ensures { result ≡ quiet_inside h.now slot span }
{
    let ticks = u64::from(h.ticks);
    let period = u64::from(h.period());
    let slot = u64::from(slot);
    let begin = u64::from(span.lo) * ticks;
    let end = if span.lo < span.hi {
        u64::from(span.hi) * ticks
    } else {
        u64::from(span.hi) * ticks + period
    };
    is_between(begin, slot, end) || is_between(begin, slot + period, end)
}

/// Whether a tick is after the first of two and before the second.
fn is_between(begin: u64, tick: u64, end: u64) -> bool
    ensures { result ≡ is_between begin tick end }
{
    begin < tick && tick < end
}
