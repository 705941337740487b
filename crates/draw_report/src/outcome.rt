//! How a call of `draw` ends.

ghost use Rattle.std.specs.Prelude.{◌≡◌};
ghost use Rattle.draw_report.specs.Outcome.{ended, status_of};

use scald_base::{CallEnd, Outcome, status};

/// What a call of `draw` answers.
#[derive(Clone, Copy)]
pub enum DrawOutcome {
    /// As the verifier ends on the drawing: with `Clean` or `Faulty` the waves of a case are
    /// written.
    Drawing(Outcome),
    /// The same, if the picture of a limit or a page is written.
    Limits(Outcome),
    /// There is no case of the number that was asked for: the drawing lists so many. Nothing is
    /// written.
    NoCase(u32),
    /// There is no row of the number that was asked for: there are so many. Nothing is written.
    NoRow(u32),
    /// No net is below the path that was asked for. Nothing is written.
    NoNet,
    /// There is too much to draw. Nothing is written.
    TooMuch,
}

impl DrawOutcome {
    /// The outcome of a call that has this end.
    pub fn ended(end: CallEnd) -> DrawOutcome
        ensures { result ≡ ended end }
    {
        DrawOutcome::Drawing(Outcome::ended(end))
    }
}

/// The status that the program ends with: the verifier's, or 10 if there is no such case, row or
/// net, or 11 if there is too much to draw.
pub fn draw_status(outcome: &DrawOutcome) -> u8
    ensures { result ≡ status_of outcome.now }
{
    match outcome {
        DrawOutcome::Drawing(outcome) | DrawOutcome::Limits(outcome) => status(outcome),
        DrawOutcome::NoCase(_) | DrawOutcome::NoRow(_) | DrawOutcome::NoNet => 10,
        DrawOutcome::TooMuch => 11,
    }
}
