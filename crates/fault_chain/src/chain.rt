//! A chain of links from a fault back to where it comes from.

use scald_base::List;
use step_values::Value;

/// What a net may do in a slot, however late it comes.
#[derive(Clone, Copy, PartialEq, Eq, Debug)]
pub struct Link {
    pub net: u32,
    pub slot: u16,
    pub value: Value,
}

/// Links, from the fault on.
pub type Links = List<Link>;

/// Why a chain does not go on after its last link.
#[derive(Clone, Copy, PartialEq, Eq, Debug)]
pub enum End {
    /// A driven net is at a level that its assertion does not permit, and does not change there.
    Level,
    /// The net is that of an earlier link: the chain goes round a loop.
    Repeat,
    /// Nothing drives the net: its name says what it may do.
    Undriven,
    /// No pin of the driver changes: it is storage whose set and reset may both be 1.
    Both,
}

/// The links of a fault, and how they end.
#[derive(Drop, Debug)]
pub struct Chain {
    pub links: Links,
    pub end: End,
}
