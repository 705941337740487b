//! What a use is connected to.

use crate::Expr;
use assertion_syntax::SignalName;
use scald_base::{List, Place};

/// The bits of a net that are meant: from the first to the last, or the first alone.
#[derive(Drop, PartialEq, Eq, Debug)]
pub struct RangeExpr {
    pub first: Expr,
    pub last: Option<Expr>,
}

/// A range, if one is written. Most terms have none, so it has memory of its own.
pub type WrittenRange = Option<Box<RangeExpr>>;

/// What a term stands for.
#[derive(Drop, PartialEq, Eq, Debug)]
pub enum Item {
    /// The constant 0.
    Zero,
    /// The constant 1.
    One,
    /// Bits of a net: those of the range, or if none is written those that the name alone means.
    Named(SignalName, WrittenRange),
}

/// Bits of one net or a constant, complemented if a minus stands before them.
#[derive(Drop, PartialEq, Eq, Debug)]
pub struct Term {
    pub minus: bool,
    pub item: Item,
}

/// Terms, whose bits follow one another.
pub type Terms = List<Term>;

/// A connection: the bits of its terms, with the place of its first token.
#[derive(Drop, PartialEq, Eq, Debug)]
pub struct Conn {
    pub terms: Terms,
    /// The hazard mark `!H` follows it.
    pub hold: bool,
    pub place: Place,
}

/// Connections.
pub type Conns = List<Conn>;
