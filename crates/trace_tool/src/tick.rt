//! How long a tick is.

ghost use Rattle.std.specs.Prelude.{◌≡◌};
ghost use Rattle.trace_tool.specs.Tick.{count_text, counted, tick_of, unit_of, unit_text};

/// How many of its unit a tick has.
#[derive(Clone, Copy, PartialEq, Eq, Debug)]
pub enum Count {
    One,
    Ten,
    Hundred,
}

impl Count {
    /// As it is written.
    pub(crate) fn text(self) -> &'static [u8]
        ensures { result.now ≡ count_text self }
    {
        match self {
            Count::One => b"1",
            Count::Ten => b"10",
            Count::Hundred => b"100",
        }
    }
}

/// The unit of a tick.
#[derive(Clone, Copy, PartialEq, Eq, Debug)]
pub enum Unit {
    Seconds,
    Milliseconds,
    Microseconds,
    Nanoseconds,
    Picoseconds,
    Femtoseconds,
}

impl Unit {
    /// As it is written.
    pub(crate) fn text(self) -> &'static [u8]
        ensures { result.now ≡ unit_text self }
    {
        match self {
            Unit::Seconds => b"s",
            Unit::Milliseconds => b"ms",
            Unit::Microseconds => b"us",
            Unit::Nanoseconds => b"ns",
            Unit::Picoseconds => b"ps",
            Unit::Femtoseconds => b"fs",
        }
    }

    /// The unit that is written so, if there is one.
    fn of(text: &[u8]) -> Option<Unit>
        ensures { result ≡ unit_of text.now }
    {
        if text == b"s".as_slice() {
            Some(Unit::Seconds)
        } else if text == b"ms".as_slice() {
            Some(Unit::Milliseconds)
        } else if text == b"us".as_slice() {
            Some(Unit::Microseconds)
        } else if text == b"ns".as_slice() {
            Some(Unit::Nanoseconds)
        } else if text == b"ps".as_slice() {
            Some(Unit::Picoseconds)
        } else if text == b"fs".as_slice() {
            Some(Unit::Femtoseconds)
        } else {
            None
        }
    }
}

/// How long a tick is: 1, 10 or 100 of a unit.
#[derive(Clone, Copy, PartialEq, Eq, Debug)]
pub struct TickLength {
    pub count: Count,
    pub unit: Unit,
}

impl TickLength {
    /// One nanosecond.
    pub const NANOSECOND: TickLength = TickLength {
        count: Count::One,
        unit: Unit::Nanoseconds,
    };

    /// The length that is written so, as `10us`, or `None` if no length is.
    pub fn of(text: &[u8]) -> Option<TickLength>
        ensures { result ≡ tick_of text.now }
    {
        if let Some(unit) = text.strip_prefix(b"100") {
            return counted(Count::Hundred, unit);
        }
        if let Some(unit) = text.strip_prefix(b"10") {
            return counted(Count::Ten, unit);
        }
        match text.strip_prefix(b"1") {
            Some(unit) => counted(Count::One, unit),
            None => None,
        }
    }
}

/// So many of the unit that is written so, if there is one.
fn counted(count: Count, unit: &[u8]) -> Option<TickLength>
    ensures { result ≡ counted count (unit_of unit.now) }
{
    match Unit::of(unit) {
        Some(unit) => Some(TickLength { count, unit }),
        None => None,
    }
}
