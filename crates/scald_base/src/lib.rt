//! What every crate of the timing verifier stands on: lists, assertions and the header, refusals
//! with their places, the devices that bytes come from and go to, and the words and outcomes of a
//! program.
//!
//! A text is read with `read_all`, and an answer is written with `write_all`. `specs/Device` says
//! what a source and a sink promise, and `specs/Memory` what those in memory do at each call;
//! `specs/Time`, `Span`, `Clock`, `Quiet` and `Fitting` say what an assertion means on the ticks of
//! a period, and `specs/Signal` what a signal is.
#![tactic(auto)]

mod assertion;
mod bytes;
mod call_end;
mod header;
mod list;
mod memory;
mod outcome;
mod refusal;
mod sink;
mod source;
mod standard;
mod sure;
mod transfer;
mod words;

pub use assertion::{AssertSpec, ClockSpec, Span, Spans};
pub use bytes::{Bytes, same_bytes};
pub use call_end::CallEnd;
pub use header::{Delay, Header};
pub use list::{Calls, List, NoMemory};
pub use memory::{MemorySink, MemorySource};
pub use outcome::{Outcome, status};
pub use refusal::{Place, Refusal, RefusalKind, Stop};
pub use sink::Sink;
pub use source::{Failed, Source};
pub use standard::{StdSink, StdSource};
pub use sure::{CountSink, SureSource};
pub use transfer::{ReadEnd, WriteFault, read_all, write_all};
pub use words::{Words, words_of};
