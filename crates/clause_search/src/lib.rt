//! A search for an assignment that makes clauses hold, or for steps that refute them.
//!
//! The layer above calls [`search`]. Nothing is promised of its answer: an assignment is the
//! caller's to try, and steps are for `clause_check` to check. The same clauses and the same budget
//! give the same answer.
//!
//! Decisions are made in the order of [`order`], the last in conflict first. [`propagation`] gives
//! each variable the bit that follows, and [`analysis`] makes a lemma of a conflict, and the hints
//! by which the checker finds that it follows. Restarts come after fixed numbers of conflicts
//! ([`restarts`]), and with them half of the lemmas that have not been of use go ([`reduction`]).
#![tactic(auto)]

mod analysis;
mod order;
mod propagation;
mod reduction;
mod restarts;
mod solver;
mod store;
mod trail;
mod units;

pub use solver::{Answer, search};
