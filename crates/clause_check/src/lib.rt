//! Clauses that no assignment makes hold, by a refutation that is checked and not trusted.
//!
//! A caller puts its [`Clauses`] together, has a solver find [`Steps`], and asks [`refutes`]:
//! `true` comes only if the clauses are refuted, whoever made the steps. `specs/Clauses` says what
//! that means, and `proofs/Meaning` turns it into a fact about whatever the caller's variables
//! stand for.
//!
//! Each step is a lemma with hints, the numbers of the clauses that become unit one after another
//! when the lemma is supposed false. So a step costs the lengths of its hints, with nothing to
//! search and nothing to watch, and the lemmas that no hint names cost nothing: no step has to
//! delete any.
#![tactic(auto)]

mod check;
mod given;
mod literal;
mod propagation;
mod rows;
mod steps;

pub use check::refutes;
pub use literal::Literal;
pub use rows::{Clauses, Hints, Rows};
pub use steps::Steps;
