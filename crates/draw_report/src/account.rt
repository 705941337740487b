//! The account of a limit, line by line.

ghost use Rattle.std.specs.Prelude.{◌≤◌, ◌^◌, length, IfOk};
ghost use Rattle.draw_report.specs.Caption.{AreShort};

use drawing_tree::Drawing;
use scald_base::{Bytes, List, NoMemory};
use slack_report::{Page, Row, Sheet, put_paragraph};
use std::alloc::Global;

/// The most lines of an account.
pub const ACCOUNT_LINES: usize = 4096;

/// The most bytes of a line.
const MOST_BYTES: usize = 65_536;

/// The paragraph of a row of this number.
pub fn paragraph(
    sheet: Sheet,
    drawing: &Drawing,
    number: usize,
    row: &Row,
) -> Result<Bytes, NoMemory> {
    let mut page = Page::new(sheet.alloc);
    put_paragraph(&mut page, sheet, drawing, number, row);
    page.done()
}

/// Where a line ends: before the next line end, or at the end of the text.
fn line_end(text: &[u8]) -> usize
    ensures { result ≤ length text.now }
{
    for (place, byte) in text.iter().enumerate() {
        if *byte == b'\n' {
            return place;
        }
    }
    text.len()
}

/// The line with which a text begins, which ends here, or 65,536 bytes of it.
fn line_of(alloc: Global, text: &[u8], end: usize) -> Result<Bytes, NoMemory>
    requires { end ≤ length text.now }
    ensures { IfOk result (λ line. length line ≤ 2 ^ 32) }
{
    Bytes::of(alloc, &text[..end.min(MOST_BYTES)])
}

/// What follows a line that ends here.
fn after_line(text: &[u8], end: usize) -> &[u8] {
    if end < text.len() {
        &text[end + 1..]
    } else {
        &[]
    }
}

/// The first lines of a text, at most so many, without their ends, each up to 65,536 bytes.
pub fn lines_of(alloc: Global, text: &[u8], most: usize) -> Result<List<Bytes>, NoMemory>
    ensures few { IfOk result (λ lines. length lines ≤ most) }
    ensures short { IfOk result AreShort }
{
    let mut lines = List::new(alloc);
    let mut rest = text;
    for _count in 0..most {
        if rest.is_empty() {
            break;
        }
        let end = line_end(rest);
        let line = line_of(alloc, rest, end)?;
        lines.push(line)?;
        rest = after_line(rest, end);
    }
    Ok(lines)
}
