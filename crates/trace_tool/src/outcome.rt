//! How a call of the simulator ends.

ghost use Rattle.std.specs.Prelude.{◌≡◌};
ghost use Rattle.trace_tool.specs.Outcome.{status_of};

use scald_base::{CallEnd, Outcome, Refusal, status};

/// What a call of the simulator answers.
#[derive(Clone, Copy, PartialEq, Eq, Debug)]
pub enum TraceOutcome {
    /// The trace is written; or a trace is judged, and nothing breaks.
    Done,
    /// The trace is a run in which something breaks: the verdict is written.
    Broken,
    /// The drawing is refused: the line that says why is written.
    Refused(Refusal),
    /// The trace is no run: the tick and the net that show it are written.
    NotRun,
    /// The call ended without its whole answer, for this reason.
    Ended(CallEnd),
    /// The line of the trace with this number, from 1, is not a valid line of a trace of the
    /// circuit; or, if the number is 0, no line ends the trace. Nothing is written.
    BadTrace(u32),
    /// There is no case of the number that was asked for: the drawing has so many. Nothing is
    /// written.
    NoCase(u32),
    /// The run would have more than 4,000,000 bits. Nothing is written.
    TooBig,
}

/// The status that the program ends with: 0 to 11, in the order of the outcomes. The ends of a call
/// have 4 to 8, in their order.
pub fn trace_status(outcome: &TraceOutcome) -> u8
    ensures { result ≡ status_of outcome.now }
{
    match outcome {
        TraceOutcome::Done => 0,
        TraceOutcome::Broken => 1,
        TraceOutcome::Refused(_) => 2,
        TraceOutcome::NotRun => 3,
        TraceOutcome::Ended(end) => status(&Outcome::ended(*end)),
        TraceOutcome::BadTrace(_) => 9,
        TraceOutcome::NoCase(_) => 10,
        TraceOutcome::TooBig => 11,
    }
}
