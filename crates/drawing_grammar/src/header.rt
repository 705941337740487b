//! The header of a drawing, as it is written.

use scald_base::Place;

/// Two numbers of a header statement, with the place of its first token.
#[derive(Clone, Copy, PartialEq, Eq, Debug)]
pub struct NumberPair {
    pub first: i64,
    pub second: i64,
    pub place: Place,
}

/// A header as it is written. A bound that is not written is 0:0.
#[derive(Clone, Copy, PartialEq, Eq, Debug)]
pub struct WrittenHeader {
    pub version: i64,
    /// The place of the word SCALD.
    pub place: Place,
    /// How many units, and how many ticks in each.
    pub clock: NumberPair,
    pub wire: Option<NumberPair>,
    pub pskew: Option<NumberPair>,
    pub cskew: Option<NumberPair>,
}
