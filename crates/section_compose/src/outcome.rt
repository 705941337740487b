//! How a call on sections ends.

ghost use Rattle.std.specs.Prelude.{◌≡◌};
ghost use Rattle.section_compose.specs.Outcome.{status_of, verdict_of};

use scald_base::{CallEnd, Outcome, Refusal, status};

/// What a call on sections answers. Sections count from 1; a net is given by its position in name
/// order in its section, from 0.
#[derive(Clone, Copy, PartialEq, Eq, Debug)]
pub enum SectionsOutcome {
    /// No section has a fault: the report is written.
    Clean,
    /// So many faults over all sections: the report is written.
    Faulty(u32),
    /// A section is refused: the lines that say which and why are written.
    Refused { section: u32, refusal: Refusal },
    /// The rounds of a section do not settle in the limit, which is `round`. The net is the first
    /// that still changes: the lines that name it are written.
    Unsettled { section: u32, net: u32, round: u32 },
    /// The call ended without its whole answer, for this reason.
    Ended(CallEnd),
    /// There are so many sections, which is not 2 to 64. Nothing is written.
    BadCount(u32),
    /// A section breaks a rule of sections that are joined, 24 to 29, and with which net, or 0
    /// if the rule is one of sections: the line that says so is written.
    BadSection { section: u32, rule: u8, net: u32 },
}

impl SectionsOutcome {
    /// The outcome of sections with so many faults.
    pub(crate) fn verdict(total: u32) -> SectionsOutcome
        ensures { result ≡ verdict_of total }
    {
        if total == 0 {
            SectionsOutcome::Clean
        } else {
            SectionsOutcome::Faulty(total)
        }
    }
}

/// The status that a program ends with: 0 if there is no fault, 1 with faults, 2 refused, 3
/// unsettled, 4 for bad words, 5 for a text that is too long, 6 and 7 if reading or writing
/// failed, 8 if memory ran out, 9 for a wrong number of sections, 10 if a rule of sections is
/// broken.
pub fn sections_status(outcome: &SectionsOutcome) -> u8
    ensures { result ≡ status_of outcome.now }
{
    match outcome {
        SectionsOutcome::Clean => 0,
        SectionsOutcome::Faulty(_) => 1,
        SectionsOutcome::Refused { .. } => 2,
        SectionsOutcome::Unsettled { .. } => 3,
        SectionsOutcome::Ended(end) => status(&Outcome::ended(*end)),
        SectionsOutcome::BadCount(_) => 9,
        SectionsOutcome::BadSection { .. } => 10,
    }
}
