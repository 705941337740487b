//! Which units a clock's intervals have, found once for all units of the period.
//!
//! Each interval is looked at once, and each unit once, however many intervals there are.

ghost use Rattle.std.specs.Prelude.{◌≡◌, ◌<◌, ◌≤◌, length};
ghost use Rattle.std.specs.List.{All};
ghost use Rattle.scald_base.specs.Span.{SpanFits};
ghost use Rattle.assertion_syntax.specs.Units.{longer, with_span, AreEnds, AreHeld};

use scald_base::Span;

/// The most units of a period.
pub const UNITS: usize = 4096;

/// Lets an interval that begins in one unit end before another: one that goes further stays.
fn lengthen(ends: &mut [u16; UNITS], begin: u16, end: u16)
    requires { begin < 4096 }
    ensures { ends.new ≡ longer ends.old begin end }
{
    let begin = begin as usize;
    ends[begin] = ends[begin].max(end);
}

/// Adds an interval. One that goes over the period's end is two.
fn add(ends: &mut [u16; UNITS], units: u16, span: Span)
    requires fits { SpanFits units span }
    requires few { units ≤ 4096 }
    ensures { ends.new ≡ with_span units ends.old span }
{
    if span.lo < span.hi {
        lengthen(ends, span.lo, span.hi);
    } else {
        lengthen(ends, span.lo, units);
        lengthen(ends, 0, span.hi);
    }
}

/// Before which unit the intervals that begin in each unit end, at the latest; 0 if none begins.
fn ends_of(spans: &[Span], units: u16) -> [u16; UNITS]
    requires fit { All (SpanFits units) spans.now }
    requires few { units ≤ 4096 }
    ensures length { length result ≡ 4096 }
    ensures are { AreEnds units result spans.now }
{
    let mut ends = [0; UNITS];
    'spans: for span in spans {
        add(&mut ends, units, *span);
    }
    ends
}

/// For each unit of the period, whether it is of an interval.
pub fn held(spans: &[Span], units: u16) -> [bool; UNITS]
    requires fit { All (SpanFits units) spans.now }
    requires few { units ≤ 4096 }
    ensures length { length result ≡ 4096 }
    ensures are { AreHeld units result spans.now }
{
    let ends = ends_of(spans, units);
    let mut held = [false; UNITS];
    let mut latest = 0;
    'units: for unit in 0..units {
        latest = ends[unit as usize].max(latest);
        held[unit as usize] = unit < latest;
    }
    held
}
