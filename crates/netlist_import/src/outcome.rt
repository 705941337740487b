//! How a call of the import ends.

ghost use Rattle.std.specs.Prelude.{◌≡◌};
ghost use Rattle.netlist_import.specs.Outcome.{status_of};

use crate::read::NetlistRefusal;
use scald_base::{CallEnd, Outcome, status};

/// What an import answers.
#[derive(Clone, Copy)]
pub enum ImportOutcome {
    /// The macros are written.
    Done,
    /// The text is refused: the line that says why is written.
    Refused(NetlistRefusal),
    /// The call ended without its whole answer, for this reason.
    Ended(CallEnd),
}

/// The status that a program ends with: 0 if the macros are written, 2 refused, 4 for bad words,
/// 5 for a text that is too long, 6 and 7 if reading or writing failed, 8 if memory ran out.
pub fn import_status(outcome: &ImportOutcome) -> u8
    ensures { result ≡ status_of outcome.now }
{
    match outcome {
        ImportOutcome::Done => 0,
        ImportOutcome::Refused(_) => 2,
        ImportOutcome::Ended(end) => status(&Outcome::ended(*end)),
    }
}
