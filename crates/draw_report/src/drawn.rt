//! What is drawn of limits and of a settled case.

ghost use Rattle.std.specs.Prelude.{◌≡◌, ◌^◌, ◌<◌, ◌≤◌, IfOk, IfSome, length};
ghost use Rattle.std.specs.Option.{option_copied};
ghost use Rattle.fixpoint_engine.specs.Waves.{FitWaves, waves_of};
ghost use Rattle.draw_report.specs.Caption.{AreShort};
ghost use Rattle.draw_report.specs.Case.{settled_head};
ghost use Rattle.draw_report.specs.Drawn.{IsPanel, IsPicture, IsRowDrawn};
ghost use Rattle.draw_report.specs.Mark.{AreOn};

use crate::account::{ACCOUNT_LINES, lines_of, paragraph};
use crate::below::panel_rows;
use crate::case::{CaseHead, case_picture};
use crate::limit::Subjected;
use crate::limit_picture::Account;
use crate::mark::{Mark, marks_on};
use crate::panel::{Panel, row_numbers};
use crate::row::Row as Strip;
use crate::sought::number_of;
use drawing_tree::Drawing;
use fixpoint_engine::Waves;
use scald_base::{Bytes, List, NoMemory};
use slack_report::{Row, Sheet};
use step_values::Value;
use timing_analysis::SettledCase;
use wave_core::CyclicWave;

/// The most rows of a picture.
pub const MOST_ROWS: usize = 8192;

/// What was drawn.
#[derive(Drop)]
pub enum Drawn {
    /// There are only so many rows.
    NoRow(u32),
    /// There is too much to draw.
    Much,
    /// Its picture, or the page.
    Picture(Bytes),
}

/// The account of which these are the lines: the first is the heading.
fn account_of(lines: &[Bytes], page: Option<u64>) -> Account<'_>
    requires { AreShort lines.now }
    ensures few { length result.lines.now ≤ length lines.now }
    ensures short { AreShort result.lines.now }
    ensures page { result.page ≡ page }
{
    match lines {
        [heading, others @ ..] => Account {
            heading: heading.as_slice(),
            lines: others,
            page,
        },
        [] => Account {
            heading: &[],
            lines: &[],
            page,
        },
    }
}

/// The picture of a row of this number in the waves of its first case, alone or in a page with this
/// room for labels; `None` if there is too much to draw.
pub fn row_picture<W: CyclicWave<Item = Value>>(
    sheet: Sheet,
    drawing: &Drawing,
    number: usize,
    row: &Row,
    waves: &Waves<W>,
    page: Option<u64>,
) -> Result<Option<Bytes>, NoMemory>
    requires fit { FitWaves sheet.circuit.now waves.now }
    requires room { IfSome page (λ room. room < 2 ^ 32) }
    ensures { IfOk result (λ drawn. IfSome drawn IsPicture) }
{
    let text = paragraph(sheet, drawing, number, row)?;
    let lines = lines_of(sheet.alloc, text.as_slice(), ACCOUNT_LINES)?;
    let account = account_of(lines.as_slice(), page);
    Subjected::along_paths(sheet, row.first).picture(waves, account)
}

/// A row of this number alone.
pub fn draw_row<W: CyclicWave<Item = Value>>(
    sheet: Sheet,
    drawing: &Drawing,
    number: u32,
    row: &Row,
    waves: &Waves<W>,
) -> Result<Drawn, NoMemory>
    requires fit { FitWaves sheet.circuit.now waves.now }
    ensures { IfOk result (IsRowDrawn number) }
{
    match row_picture(sheet, drawing, number as usize, row, waves, None)? {
        Some(bytes) => Ok(Drawn::Picture(bytes)),
        None => Ok(Drawn::Much),
    }
}

/// What is said above the panel of a case.
fn head_of(case: &SettledCase) -> CaseHead
    ensures { result ≡ settled_head case.now.number case.now.tick }
{
    CaseHead {
        number: number_of(case.number),
        tick: case.tick,
    }
}

/// The marks of broken limits on the rows of a case, unless there are too many to be drawn.
fn panel_marks(
    sheet: Sheet,
    rows: &[Row],
    strips: &[Strip],
    case: &SettledCase,
    has_limits: bool,
) -> Result<List<Mark>, NoMemory>
    ensures { IfOk result (AreOn (length strips.now)) }
{
    if strips.len() > MOST_ROWS {
        return Ok(List::new(sheet.alloc));
    }
    let numbers = row_numbers(sheet.alloc, sheet.circuit, strips)?;
    let panel = Panel {
        sheet,
        numbers: &numbers,
        case: case.number,
        has_limits,
    };
    let marks = panel.marks(rows)?;
    marks_on(sheet.alloc, marks.as_slice(), strips.len() as u32)
}

/// The panel of a case in a page with this room for labels, and with pictures of limits or without
/// them; it has the nets below a path, or all if there is none, and the marks of broken limits.
/// `None` if there is too much to draw.
pub fn panel_picture<W: CyclicWave<Item = Value>>(
    sheet: Sheet,
    rows: &[Row],
    waves: &Waves<W>,
    case: &SettledCase,
    has_limits: bool,
    under: Option<&[u8]>,
    page: Option<u64>,
) -> Result<Option<Bytes>, NoMemory>
    requires room { IfSome page (λ room. room < 2 ^ 32) }
    requires fit { FitWaves sheet.circuit.now waves.now }
    ensures { IfOk result (IsPanel sheet.entry.circuit.now (waves_of waves.now)
        (settled_head case.now.number case.now.tick) (option_copied under.entry) page) }
{
    let strips = panel_rows(sheet.alloc, sheet.circuit, waves, under)?;
    let marks = panel_marks(sheet, rows, strips.as_slice(), case, has_limits)?;
    case_picture(
        sheet.alloc,
        sheet.circuit,
        waves,
        strips.as_slice(),
        head_of(case),
        marks.as_slice(),
        page,
    )
}
