//! How many limits have a row.

ghost use Rattle.std.specs.Prelude.{◌≡◌, ◌<◌, ◌&&◌, List, Some, is_none, length, not, slice_get, true};
ghost use Rattle.flat_circuit.specs.Circuit.{Circuit};
ghost use Rattle.slack_rows.specs.declared.parameter.Parameter.{Parameter};
ghost use Rattle.slack_rows.specs.Known.{are_sure, is_sure};
ghost use Rattle.slack_rows.specs.Limit.{Case};
ghost use Rattle.slack_rows.specs.Rows.{own_rows};
ghost use Rattle.slack_report.specs.Answer.{AreRows, has_row as is_row};

use slack_rows::{Least, Rows};

/// Whether something can break a limit.
fn can_break(least: Option<Least>) -> bool
    ensures { result ≡ not (is_none least) }
{
    least.is_some()
}

/// Whether a limit has a row, by whether something can break it and it is reported with another.
fn has_own(can_break: bool, is_reported: bool) -> bool
    ensures { result ≡ (can_break && not is_reported) }
{
    can_break && !is_reported
}

/// Whether the limit at a place has a row: something can break it, and it is not reported with the
/// one before it.
pub fn has_row(rows: &Rows, place: usize) -> bool
    requires { place < length rows.now.parameters }
    ensures { (c : Circuit) (cases : List Case) (q : Parameter) → AreRows c cases rows.now →
        slice_get rows.now.parameters place ≡ Some q → is_sure c cases q.subject ≡ true →
        result ≡ is_row c cases q }
{
    let Some(least) = rows.least.get(place) else {
        return false;
    };
    has_own(can_break(*least), rows.is_reported(place))
}

/// How many limits have a row.
pub fn row_count(rows: &Rows) -> usize
    ensures { (c : Circuit) (cases : List Case) → AreRows c cases rows.now →
        are_sure c cases ≡ true → result ≡ length (own_rows c cases) }
{
    let mut count = 0;
    for place in 0..rows.parameters.len() {
        if has_row(rows, place) {
            count += 1;
        }
    }
    count
}
