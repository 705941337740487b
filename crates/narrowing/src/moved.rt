//! Assertions in units of one tick, and clocks that are moved by ticks. `None` comes if a tick
//! is past the numbers of the machine, which it is in no circuit.

ghost use Rattle.std.specs.Prelude.{◌≡◌, ◌+◌, ◌%◌, IfOk, IfSome};
ghost use Rattle.scald_base.specs.Time.{period};
ghost use Rattle.narrowing.specs.Narrowed.{fine_clock, fine_header, fine_span, fine_spans, fine_spec, lag, moved_clock, moved_span, moved_spans, moved_spec};
ghost use Rattle.narrowing.specs.Part.{most_late, skew_in};

use crate::part::Late;
use scald_base::{AssertSpec, ClockSpec, Header, NoMemory, Span, Spans};
use std::alloc::Global;

/// The header with a period of as many units as it has ticks.
pub fn fine_header(h: &Header) -> Header
    ensures { result ≡ fine_header h.now }
{
    Header {
        units: h.period(),
        ticks: 1,
        wire: h.wire,
        pskew: h.pskew,
        cskew: h.cskew,
    }
}

// ---- intervals

fn fine_span(h: &Header, span: Span) -> Option<Span>
    ensures { IfSome result (λ fine. fine ≡ fine_span h.now span) }
{
    let lo = span.lo.checked_mul(h.ticks)?;
    let hi = span.hi.checked_mul(h.ticks)?;
    Some(Span { lo, hi })
}

fn fine_spans(alloc: Global, h: &Header, spans: &[Span]) -> Result<Option<Spans>, NoMemory>
    ensures { IfOk result (λ found. IfSome found (λ fine. fine ≡ fine_spans h.now spans.now)) }
{
    let mut fine = Spans::new(alloc);
    for span in spans {
        let Some(span) = fine_span(h, *span) else {
            return Ok(None);
        };
        fine.push(span)?;
    }
    Ok(Some(fine))
}

/// The tick so many later, round the period.
fn tick_after(h: &Header, tick: u16, by: u16) -> u16
    ensures { result ≡ (tick + by) % period h.now }
{
    let period = u32::from(h.period());
    ((u32::from(tick) + u32::from(by)) % period) as u16
}

fn moved_span(h: &Header, span: Span, by: u16) -> Option<Span>
    ensures { IfSome result (λ moved. moved ≡ moved_span h.now by span) }
{
    let fine = fine_span(h, span)?;
    Some(Span {
        lo: tick_after(h, fine.lo, by),
        hi: tick_after(h, fine.hi, by),
    })
}

fn moved_spans(
    alloc: Global,
    h: &Header,
    spans: &[Span],
    by: u16,
) -> Result<Option<Spans>, NoMemory>
    ensures { IfOk result (λ found. IfSome found (λ moved.
        moved ≡ moved_spans h.now by spans.now)) }
{
    let mut moved = Spans::new(alloc);
    for span in spans {
        let Some(span) = moved_span(h, *span, by) else {
            return Ok(None);
        };
        moved.push(span)?;
    }
    Ok(Some(moved))
}

// ---- clocks

/// How early and how late a `.P` clock may come.
fn skew_in(h: &Header, clock: &ClockSpec) -> (u16, u16)
    ensures { result ≡ skew_in h.now clock.now }
{
    clock.skew.unwrap_or(h.pskew)
}

/// By how much later than at its earliest a `.P` clock may come.
pub fn most_late(h: &Header, clock: &ClockSpec) -> u32
    ensures { result ≡ most_late h.now clock.now }
{
    let (early, late) = skew_in(h, clock);
    u32::from(early) + u32::from(late)
}

/// By how much of a period a clock that comes so much later than at its earliest is behind the
/// ideal one.
fn lag(h: &Header, clock: &ClockSpec, by: u16) -> u16
    ensures { result ≡ lag h.now clock.now by }
{
    let period = h.period();
    let skew = skew_in(h, clock);
    tick_after(h, by, period - skew.0 % period)
}

fn fine_clock(alloc: Global, h: &Header, clock: &ClockSpec) -> Result<Option<ClockSpec>, NoMemory>
    ensures { IfOk result (λ found. IfSome found (λ fine. fine ≡ fine_clock h.now clock.now)) }
{
    let Some(spans) = fine_spans(alloc, h, clock.spans.as_slice())? else {
        return Ok(None);
    };
    Ok(Some(ClockSpec {
        spans,
        skew: clock.skew,
        low: clock.low,
    }))
}

/// The clock that comes later than at its earliest by a number within bounds.
fn moved_clock(
    alloc: Global,
    h: &Header,
    clock: &ClockSpec,
    late: Late,
) -> Result<Option<ClockSpec>, NoMemory>
    ensures { IfOk result (λ found. IfSome found (λ moved.
        moved ≡ moved_clock h.now clock.now late)) }
{
    let by = lag(h, clock, late.min);
    let Some(spans) = moved_spans(alloc, h, clock.spans.as_slice(), by)? else {
        return Ok(None);
    };
    Ok(Some(ClockSpec {
        spans,
        skew: Some((0, late.max.saturating_sub(late.min))),
        low: clock.low,
    }))
}

// ---- assertions

/// The assertion in units of one tick.
pub fn fine_spec(
    alloc: Global,
    h: &Header,
    spec: &AssertSpec,
) -> Result<Option<AssertSpec>, NoMemory>
    ensures { IfOk result (λ found. IfSome found (λ fine. fine ≡ fine_spec h.now spec.now)) }
{
    Ok(match spec {
        AssertSpec::None => Some(AssertSpec::None),
        AssertSpec::Precision(clock) => match fine_clock(alloc, h, clock)? {
            None => None,
            Some(clock) => Some(AssertSpec::Precision(clock)),
        },
        AssertSpec::Clock(clock) => match fine_clock(alloc, h, clock)? {
            None => None,
            Some(clock) => Some(AssertSpec::Clock(clock)),
        },
        AssertSpec::Stable(spans) => match fine_spans(alloc, h, spans.as_slice())? {
            None => None,
            Some(spans) => Some(AssertSpec::Stable(spans)),
        },
    })
}

/// The same, if a `.P` clock comes later than at its earliest by a number within bounds.
pub fn moved_spec(
    alloc: Global,
    h: &Header,
    spec: &AssertSpec,
    late: Late,
) -> Result<Option<AssertSpec>, NoMemory>
    ensures { IfOk result (λ found. IfSome found (λ moved.
        moved ≡ moved_spec h.now late spec.now)) }
{
    match spec {
        AssertSpec::Precision(clock) => match moved_clock(alloc, h, clock, late)? {
            None => Ok(None),
            Some(clock) => Ok(Some(AssertSpec::Precision(clock))),
        },
        AssertSpec::None => fine_spec(alloc, h, spec),
        AssertSpec::Clock(_) => fine_spec(alloc, h, spec),
        AssertSpec::Stable(_) => fine_spec(alloc, h, spec),
    }
}
