//! How a call of the verifier ends, and of a program that answers as it does.

ghost use Rattle.std.specs.Prelude.{◌≡◌};
ghost use Rattle.scald_base.specs.Outcome.{ended, status_of};

use crate::call_end::CallEnd;
use crate::refusal::Refusal;

/// What a call of the verifier answers.
#[derive(Clone, Copy, PartialEq, Eq, Debug)]
pub enum Outcome {
    /// No case has a fault: the report is written.
    Clean,
    /// So many faults over all cases: the report is written.
    Faulty(u32),
    /// The text that was asked for is written.
    Done,
    /// The text is refused: the line that says why is written.
    Refused(Refusal),
    /// The rounds do not settle in the limit, which is `round`. The net, by its position in name
    /// order from 0, is the first that still changes: the line that names it is written.
    Unsettled { net: u32, round: u32 },
    /// The words are unrecognised. The number is that of the first with which no form continues,
    /// from 0, or the count of words if one is missing. Nothing is read or written.
    BadWords(u32),
    /// More bytes came than a text may have. Nothing is written.
    TooLong,
    /// The source failed. Nothing is written.
    ReadFault,
    /// The sink failed. A front of the answer's bytes was taken, as far as the sink tells.
    WriteFault,
    /// Memory ran out. Nothing is written.
    NoMemory,
}

impl Outcome {
    /// The outcome of a call that has this end.
    pub fn ended(end: CallEnd) -> Outcome
        ensures { result ≡ ended end }
    {
        match end {
            CallEnd::BadWords(i) => Outcome::BadWords(i),
            CallEnd::TooLong => Outcome::TooLong,
            CallEnd::ReadFault => Outcome::ReadFault,
            CallEnd::WriteFault => Outcome::WriteFault,
            CallEnd::NoMemory => Outcome::NoMemory,
        }
    }
}

/// The status that a program ends with: 0 if there is no fault, 1 with faults, 2 refused, 3
/// unsettled, 4 for bad words, 5 for a text that is too long, 6 and 7 if reading or writing
/// failed, 8 if memory ran out.
pub fn status(outcome: &Outcome) -> u8
    ensures { result ≡ status_of outcome.now }
{
    match outcome {
        Outcome::Clean | Outcome::Done => 0,
        Outcome::Faulty(_) => 1,
        Outcome::Refused(_) => 2,
        Outcome::Unsettled { .. } => 3,
        Outcome::BadWords(_) => 4,
        Outcome::TooLong => 5,
        Outcome::ReadFault => 6,
        Outcome::WriteFault => 7,
        Outcome::NoMemory => 8,
    }
}
