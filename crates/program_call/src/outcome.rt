//! The outcome of what looks for faults.

ghost use Rattle.std.specs.Prelude.{◌≡◌};
ghost use Rattle.program_call.specs.Answer.{verdict_of};

use scald_base::Outcome;

/// The outcome of a circuit with so many faults.
pub fn verdict(total: u32) -> Outcome
    ensures { result ≡ verdict_of total }
{
    if total == 0 {
        Outcome::Clean
    } else {
        Outcome::Faulty(total)
    }
}
