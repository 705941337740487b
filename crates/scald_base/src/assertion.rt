//! What a net's name asserts of it.

use crate::list::List;

/// From unit `lo` to unit `hi`, over the end of the period if `hi` is the lesser.
#[derive(Clone, Copy, PartialEq, Eq, Debug)]
pub struct Span {
    pub lo: u16,
    pub hi: u16,
}

impl Span {
    ghost use Rattle.std.specs.Prelude.{◌≡◌, ◌↔◌, IsTrue};
    ghost use Rattle.scald_base.specs.Span.{SpanFits, span_fits};

    /// Whether the interval is one of a period of so many units: it begins in the period, ends in
    /// it or at its end, and is not empty.
    pub fn fits(self, units: u16) -> bool
        ensures test { result ≡ span_fits units self }
        ensures is { IsTrue result ↔ SpanFits units self }
    {
        self.lo < units && self.hi <= units && self.lo != self.hi
    }
}

/// Intervals of units.
pub type Spans = List<Span>;

/// A clock's assertion.
#[derive(Drop, PartialEq, Eq, Debug)]
pub struct ClockSpec {
    /// Where the clock is 1.
    pub spans: Spans,
    /// By how many ticks an edge may come early and late, if the name says it.
    pub skew: Option<(u16, u16)>,
    /// The clock is complemented.
    pub low: bool,
}

/// What is asserted of a net.
#[derive(Drop, PartialEq, Eq, Debug)]
pub enum AssertSpec {
    /// Nothing.
    None,
    /// `.P`: the clock, shifted by one offset.
    Precision(ClockSpec),
    /// `.C`: the clock, each edge shifted by itself.
    Clock(ClockSpec),
    /// `.S`: no change inside the intervals. Without intervals it never changes.
    Stable(Spans),
}
