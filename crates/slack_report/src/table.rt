//! The table: a row for bits of one statement with equal sums, the worst first.

ghost use Rattle.std.specs.Prelude.{◌≤◌};

use crate::groups::Row;
use crate::page::{Page, number_of};
use crate::sheet::Sheet;
use crate::words::{put_cases, put_limit, put_names, put_slack};

/// How many rows there are without being asked for.
const FEWEST: usize = 12;

/// How many columns there are.
const COLUMNS: usize = 5;

/// The headings.
const HEADINGS: [&[u8]; COLUMNS] = [b"slack", b"limit", b"of", b"line", b"case"];

/// How many rows are broken. Broken ones come first.
pub fn broken_rows(rows: &[Row]) -> usize {
    let mut broken: usize = 0;
    for row in rows {
        if row.first.least.finding.slack.is_broken() {
            broken = broken.saturating_add(1);
        }
    }
    broken
}

/// Puts a cell of a row, or else of the headings.
fn put_cell(page: &mut Page, sheet: Sheet, row: Option<&Row>, column: usize) {
    let Some(row) = row else {
        return page.put(HEADINGS[column.min(COLUMNS - 1)]);
    };
    match column {
        0 => put_slack(page, row.first.least.finding.slack),
        1 => put_limit(page, row.first.parameter),
        2 => put_names(page, sheet, row.limits.as_slice()),
        3 => page.number(sheet.line(row.first.parameter.subject)),
        _ => put_cases(page, sheet, row.first.least),
    }
}

/// How wide a cell is, which is put on a page of its own for that.
fn cell_width(scratch: &mut Page, sheet: Sheet, row: Option<&Row>, column: usize) -> usize {
    let before = scratch.len();
    put_cell(scratch, sheet, row, column);
    scratch.len().saturating_sub(before)
}

/// How wide a column is.
fn column_width(scratch: &mut Page, sheet: Sheet, rows: &[Row], column: usize) -> usize {
    let mut width = cell_width(scratch, sheet, None, column);
    for row in rows {
        width = width.max(cell_width(scratch, sheet, Some(row), column));
    }
    width
}

/// How many columns are shown.
fn shown_columns(sheet: Sheet) -> usize
    ensures { result ≤ 5 }
{
    if sheet.has_cases() {
        COLUMNS
    } else {
        COLUMNS - 1
    }
}

/// Puts a line of cells: slack and line from the right, the others from the left.
fn put_line(
    page: &mut Page,
    scratch: &mut Page,
    sheet: Sheet,
    row: Option<&Row>,
    widths: &[usize],
) {
    for (column, width) in widths.iter().enumerate() {
        let missing = width.saturating_sub(cell_width(scratch, sheet, row, column));
        let is_right = column == 0 || column == 3;
        let is_last = column.saturating_add(1) == widths.len();
        page.put(if column == 0 { b"" } else { b"  ".as_slice() });
        page.spaces(if is_right { missing } else { 0 });
        put_cell(page, sheet, row, column);
        page.spaces(if is_right || is_last { 0 } else { missing });
    }
    page.put(b"\n");
}

/// Puts the headings and these rows.
fn put_lines(page: &mut Page, scratch: &mut Page, sheet: Sheet, rows: &[Row]) {
    let shown = shown_columns(sheet);
    let mut widths = [0; COLUMNS];
    for column in 0..shown {
        widths[column] = column_width(scratch, sheet, rows, column);
    }
    let widths = &widths[..shown];
    put_line(page, scratch, sheet, None, widths);
    for row in rows {
        put_line(page, scratch, sheet, Some(row), widths);
    }
}

/// Puts the table, with at least so many rows if there are.
pub fn put_table(page: &mut Page, sheet: Sheet, rows: &[Row], worst: Option<u32>) {
    let asked = worst.unwrap_or(0) as usize;
    let shown = FEWEST.max(broken_rows(rows)).max(asked).min(rows.len());
    let mut scratch = Page::new(sheet.alloc);
    put_lines(page, &mut scratch, sheet, &rows[..shown]);
    if let Some(next) = rows.get(shown) {
        let more = rows.len().saturating_sub(shown);
        page.fill(b"and # rows more, from slack ", &[number_of(more)]);
        put_slack(page, next.first.least.finding.slack);
        page.put(b" on\n");
    }
}
