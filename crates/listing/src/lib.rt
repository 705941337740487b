//! The report on a circuit, line by line: its head, the lines of each case with waves and faults as
//! the mode asks, and the last line; and the one line that stands in place of a report if a text
//! is refused, rounds do not settle, or the numbers of a report are asked for alone.
//!
//! The layer above composes a report of [`begin_report`], [`write_case`] for each case, and
//! [`end_report`]. Each call appends exactly its lines to the bytes that it is given. [`Lines`] are
//! those of a report of which many lines come again in other cases: each is made and kept once.
//! `specs/Head`, `specs/Case`, `specs/End` and `specs/Answer` say which lines these are, over
//! `specs/Wave`, `specs/Run` and `specs/Fault`.
//!
//! A crate whose own lines name nets, instances and faults composes them of the same pieces
//! ([`add_line`], [`add_pieces`]), with [`write_period`], [`write_fault`] and
//! [`write_unnamed_fault`].
#![tactic(auto)]

// pieces of lines
mod count;
mod names;
mod piece;

// the report
mod case;
mod end;
mod fault;
mod head;
mod known;
mod lines;
mod output;
mod run;
mod wave;

// in place of a report
mod answer;

pub use answer::{write_refusal, write_summary, write_unsettled};
pub use case::{CaseHead, Mode, write_case};
pub use end::end_report;
pub use fault::{write_fault, write_unnamed_fault};
pub use head::{begin_report, write_period};
pub use lines::Lines;
pub use names::{instance_piece, net_piece};
pub use output::{Output, Part, Parts};
pub use piece::{Piece, add_line, add_pieces};
