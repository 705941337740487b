//! Clauses that are true of every run of a case in which one constraint is broken, so that if
//! they are refuted there is no such run.
//!
//! The layer above calls [`refute_window`]. `specs/World` says what the facts of clauses say of a
//! run, `specs/Clauses` when clauses are true and when they are refuted, and `specs/Refuting` has
//! in words which clauses are made and why they are true. Which are made, and in which order, is
//! free; `clause_search` finds the steps of a refutation, and `clause_check` checks them.
#![tactic(auto)]

// clauses
mod fact;
mod formula;

// what is true of a run
mod breaks;
mod broken;
mod change;
mod choices;
mod driven;
mod gates;
mod numbers;
mod pins;
mod same;
mod storage;
mod undriven;

// all of it
mod encode;
mod window;

pub use fact::{Fact, Said};
pub use formula::Formula;
pub use window::{Budget, refute_window};
