//! The whole call of the timing verifier: from its words and the bytes of a drawing to the bytes of
//! a report and an outcome.
//!
//! The program calls `tool_main`, the main call of `program_call` for the program `Verifier`. What
//! it promises stands in `specs/Promise`, over the answer that words and a text have (`Answer`): by
//! the circuit that the text draws, its settled cases (`timing_analysis`, which also says what
//! never breaks in them) and the lines on them (`Report`).
#![tactic(auto)]

// what comes in
mod words;

// what is made of it
mod bench;
mod format;
mod report;
mod upgrade;
mod verified;

// what goes out
mod tool;
mod verifier;

// beside the call
pub mod laws;

pub use program_call::Omissions;
pub use scald_base::{Outcome, Words, status, words_of};
pub use tool::tool_main;
pub use verified::verify_text;
pub use words::{Command, read_words};
