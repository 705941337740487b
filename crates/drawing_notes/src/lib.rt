//! What a drawing does not say: clocks that never come, checkers that ask nothing, inputs that none
//! checks, paths that take longer than a period, and what the settled waves do not know.
//!
//! The program calls [`notes_main`], the main call of `program_call` for [`NotesProgram`].
//! `specs/Report` says which notes there are and in which order, and `specs/Answer` what is
//! answered to a text. Each kind of note has a file of `specs/` that says which notes of it there
//! are, in the words of its line, and a call that appends exactly its lines to those of others and
//! counts them. The kinds that need no waves stand in `drawing_omissions`, with what is found as
//! a drawing is expanded.
//!
//! `specs/Paths` says which net leads to which, and `specs/Passing` what passes on a change in a
//! case: [`parts`] finds the loops, [`CasePaths`] what storage launches, and [`CaseGates`] what
//! clocks reach. [`SoFar`] gathers what the cases tell, one after another.
#![tactic(auto)]

// the pins that lines are about
mod pins;

// what instances alone show
mod idle;
mod unchecked;
mod unread;

// paths between nets
mod found;
mod late;
mod launched;
mod left;
mod loop_notes;
mod loops;
mod passing;

// what waves show, case by case
mod case_gates;
mod case_paths;
mod cases;
mod clocks;
mod common;
mod doubts;
mod held;
mod searching;
mod skews;
mod unclocked;
mod unknown;
mod unmarked;

// the call
mod drawn;
mod program;
mod reply;
mod report;

pub use case_gates::CaseGates;
pub use case_paths::CasePaths;
pub use cases::SoFar;
pub use common::add_common;
pub use found::Found;
pub use idle::add_idle;
pub use late::add_late;
pub use launched::{Arrival, Edges, order};
pub use loop_notes::{add_loops, part_at};
pub use loops::{Part, parts};
pub use passing::View;
pub use pins::{CLOCK, INPUT, has_clock, is_storage, pin_net, target_piece};
pub use program::{NotesProgram, notes_main};
pub use unchecked::{Sampling, add_unchecked};
pub use unclocked::add_unclocked;
pub use unmarked::add_unmarked;
pub use unread::add_unread;
