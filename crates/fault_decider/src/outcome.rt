//! How a call ends.

ghost use Rattle.std.specs.Prelude.{◌≡◌};
ghost use Rattle.fault_decider.specs.Outcome.{status_of};

use scald_base::{CallEnd, Outcome, Refusal, status};

/// What a call answers.
#[derive(Clone, Copy, PartialEq, Eq, Debug)]
pub enum DecideOutcome {
    /// Each fault is refuted, or there is none: the report is written.
    Settled,
    /// Some fault is shown, or left open: the report is written.
    Faulty,
    /// The trace of a fault's run is written.
    Done,
    /// There is no such fault, or it is not shown. Nothing is written.
    NoRun,
    /// The drawing is refused: the line that says why is written.
    Refused(Refusal),
    /// The waves do not settle in the limit of rounds, `round`. The net, by its position in name
    /// order from 0, is the first that still changes: the line that names it is written.
    Unsettled { net: u32, round: u32 },
    /// The call ended without its whole answer, for this reason.
    Ended(CallEnd),
}

/// The status that the program ends with: 0 if nothing is left to fear or a trace is written, 1
/// if something is, 2 to 8 as of `verify`, and 10 if there is no run to write.
pub fn decide_status(outcome: &DecideOutcome) -> u8
    ensures { result ≡ status_of outcome.now }
{
    match outcome {
        DecideOutcome::Settled => 0,
        DecideOutcome::Faulty => 1,
        DecideOutcome::Done => 0,
        DecideOutcome::NoRun => 10,
        DecideOutcome::Refused(_) => 2,
        DecideOutcome::Unsettled { .. } => 3,
        DecideOutcome::Ended(end) => status(&Outcome::ended(*end)),
    }
}
