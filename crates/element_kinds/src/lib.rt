//! The kinds of elements and checkers, a row each.
//!
//! What a kind is called, what makes its output, how many connections it takes and whether a pin of
//! it may be marked stands in its [`Row`] and nowhere else. The layers above ask for it: the reader
//! for names, the expander for connections and limits, circuits for outputs and pins, the rounds
//! and the checks for the form. `specs/Kinds` has the rows as definitions, with what follows from
//! them, and `specs/Equation` what the output of each kind obeys at a tick.
#![tactic(auto)]

mod form;
mod kind;
mod named;
mod row;

pub use form::{Check, Form};
pub use kind::{KINDS, Kind};
pub use named::{is_kind_name, kind_named};
pub use row::Row;
