//! The simulator: runs of a drawing's circuit, made and judged.
//!
//! `run T SEED` draws a run of so many ticks by the words of a generator that is seeded so, in a
//! case if `case=K` follows, and `vcd T SEED` writes the same run as a value change dump; `judge F`
//! says whether a trace is a run, and what breaks in it from tick F on. With `long` last, `run` and
//! `judge` take up to 1,048,576 ticks in place of 4,096. The program calls
//! [`trace_main`], the main call of `program_call` for [`Simulator`] (`specs/Simulator`);
//! `specs/Ran` says what `run` and `vcd` reply, and `specs/Judged` what `judge` does.
//!
//! `specs/Trace` says what the lines of a trace are, and `specs/Reading` which is the first that is
//! wrong; that they say every bit is a law in [`laws`]. [`first_stray`] finds the first net that
//! nothing drives and that does not keep its assertion (`specs/Interface`), and [`first_break`]
//! what is broken first from a tick on (`specs/Break`), in one pass for each element
//! (`specs/Pass`).
//!
//! [`write_dump`] writes the levels of a run as a value change dump (IEEE 1364), which wave viewers
//! read. A variable is a stretch of bits of one name side by side (`specs/Stretch`), declared in
//! the scopes of its path (`specs/Scope`, `specs/Variable`); its values are those of the run at the
//! ticks at which they change (`specs/Change`). `specs/Dump` says which bytes these are, and
//! [`dump_laws`] that a reader of a dump finds every bit (`specs/DumpReading`).
#![tactic(auto)]

// the text of a trace
pub mod laws;
mod line;
mod read;
mod scan;
mod split;
mod take;
mod trace;
mod write;

// inputs and breaks of a run
mod assertion;
mod element;
mod first;
mod interface;
mod mark;
mod pulse;
mod step;
mod stray;
mod window;

// a dump: names and lengths
mod name;
mod tick;

// its variables
mod code;
mod reference;
mod scope;
mod stretch;
mod variable;

// its values
mod change;
mod dump;
pub mod dump_laws;
mod level;

// words and outcomes
mod asked;
mod extent;
mod outcome;
mod words;

// runs that are drawn, and traces that are judged
mod drawn;
mod judged;
mod verdict;

// the call
mod call;
mod replies;
mod simulator;

pub use asked::{Asked, Format, Trial};
pub use call::trace_main;
pub use drawn::run;
pub use dump::write_dump;
pub use element::Element;
pub use extent::Extent;
pub use first::first_break;
pub use judged::judge;
pub use outcome::{TraceOutcome, trace_status};
pub use simulator::Simulator;
pub use split::split_trace;
pub use stray::first_stray;
pub use take::read_trace;
pub use tick::{Count, TickLength, Unit};
pub use trace::{Trace, TraceFault};
pub use words::{Command, read_words};
pub use write::write_trace;
