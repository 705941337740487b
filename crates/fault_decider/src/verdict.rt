//! What is said of a fault.

use crate::showing::Showing;
use narrowing::Parts;
use scald_base::List;

/// What is said of a fault.
#[derive(Drop)]
pub enum Verdict {
    /// A run of the case breaks its constraint.
    Shown(Showing),
    /// No run of the case breaks its constraint from a tick on, by narrowings that all runs make
    /// together.
    Refuted { from: u64, leaves: List<Parts> },
    /// No run of the case breaks its constraint from a tick on, by clauses that are true of every run
    /// that does, and that no bits make hold.
    Window { from: u64 },
    /// Neither was found within the budget.
    Open,
}
