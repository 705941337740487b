//! The first and the last lines of an answer.

ghost use Rattle.std.specs.Prelude.{◌≡◌, ◌++◌, OnOk};
ghost use Rattle.slack_report.specs.Answer.{count_line, first_line, free_lines, last_lines};

use crate::request::Part;
use flat_circuit::Circuit;
use listing::{Piece, add_line};
use scald_base::{Bytes, NoMemory};

/// How many limits nothing can break, how many are broken, and how many have a row.
#[derive(Clone, Copy)]
pub struct Counts {
    pub free: usize,
    pub broken: usize,
    pub limits: usize,
}

/// The first line: the period.
pub fn add_first(out: &mut Bytes, c: &Circuit) -> Result<(), NoMemory>
    ensures { OnOk result (out.new ≡ out.old ++ first_line c.now) }
{
    add_line(
        out,
        &[
            Piece::Text(b"SLACK PERIOD "),
            Piece::Number(u64::from(c.header().period())),
        ],
    )
}

/// Under a table, how many limits nothing can break, if there are some.
fn add_free(out: &mut Bytes, part: Part, free: usize) -> Result<(), NoMemory>
    ensures { OnOk result (out.new ≡ out.old ++ free_lines part free) }
{
    match part {
        Part::Table if free > 0 => add_line(
            out,
            &[
                Piece::Number(free as u64),
                Piece::Text(b" limits that nothing can break"),
            ],
        ),
        Part::Table | Part::Paragraphs => Ok(()),
    }
}

/// How many limits are broken, or else how many are met.
fn add_count(out: &mut Bytes, broken: usize, limits: usize) -> Result<(), NoMemory>
    ensures { OnOk result (out.new ≡ out.old ++ count_line broken limits) }
{
    if broken > 0 {
        add_line(
            out,
            &[Piece::Text(b"BROKEN "), Piece::Number(broken as u64)],
        )
    } else {
        add_line(out, &[Piece::Text(b"MET "), Piece::Number(limits as u64)])
    }
}

/// The last lines: under a table how many limits nothing can break; and after a blank line how many
/// are broken, or else how many are met.
#[tactic(auto, unfolding(crate::specs::Answer::last_lines))]
pub fn add_last(out: &mut Bytes, part: Part, counts: Counts) -> Result<(), NoMemory>
    ensures { OnOk result (out.new
        ≡ out.old ++ last_lines part counts.free counts.broken counts.limits) }
{
    add_free(out, part, counts.free)?;
    add_line(out, &[])?;
    add_count(out, counts.broken, counts.limits)
}
