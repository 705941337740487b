//! Each fault of a drawing shown by a run in which its constraint is broken, or refuted: by parts
//! that all runs make together, none of which has the fault, or by clauses of short runs.
//!
//! The program calls [`decide_main`], the main call of `program_call` for [`Decider`].
//! `specs/Verdict` says what is promised of a fault, `specs/Lines` what is written of it, and
//! `specs/Decided` what is replied to a text. A run is searched for by `run_search`, and judged
//! here; a refutation is the tree that `narrowing` finds, or `run_clauses` gives it.
#![tactic(auto)]

// one fault
mod decide;
mod showing;
mod tested;
mod verdict;

// its lines
mod choices;
mod inputs;
mod leaves;
mod lines;
mod offsets;
mod row;
mod steps;

// all of them
mod answer;
mod report;
mod text;
mod told;

// the call
mod call;
pub mod laws;
mod outcome;
mod program;
mod words;

pub use call::decide_main;
pub use outcome::{DecideOutcome, decide_status};
pub use program::Decider;
pub use showing::Showing;
pub use text::decide_text;
pub use verdict::Verdict;
pub use words::{Request, read_request};
