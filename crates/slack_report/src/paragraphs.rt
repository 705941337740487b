//! Which rows have a paragraph.

ghost use Rattle.std.specs.Prelude.{◌<◌};

use crate::groups::Row;
use crate::page::{Page, number_of};
use crate::paragraph::put_paragraph;
use crate::sheet::Sheet;
use crate::table::broken_rows;
use drawing_tree::Drawing;
use slack_rows::Word;

/// How many paragraphs there are at most without being asked for.
const MOST: usize = 5;

/// How many kinds of limits there are.
const KINDS: usize = 6;

/// The kind of a limit: of each one has a paragraph if all limits are met.
fn kind_of(word: Word) -> usize
    ensures { result < 6 }
{
    match word {
        Word::Setup => 0,
        Word::Hold => 1,
        Word::High => 2,
        Word::Low => 3,
        Word::Gate | Word::Before | Word::After => 4,
        Word::Assert | Word::From | Word::To => 5,
    }
}

/// Puts one paragraph more, after a blank line.
fn put_next(page: &mut Page, sheet: Sheet, drawing: &Drawing, number: usize, row: &Row) {
    page.put(b"\n");
    put_paragraph(page, sheet, drawing, number, row);
}

/// Puts the paragraph of the worst row of each kind of limit.
fn put_kinds(page: &mut Page, sheet: Sheet, drawing: &Drawing, rows: &[Row]) {
    let mut had = [false; KINDS];
    let mut number: usize = 0;
    for row in rows {
        let kind = kind_of(row.first.parameter.word);
        if !had[kind] {
            had[kind] = true;
            number = number.saturating_add(1);
            put_next(page, sheet, drawing, number, row);
        }
    }
}

/// Puts the paragraphs: of the rows that are asked for, else of broken ones, which come first, else
/// of each kind of limit.
pub fn put_paragraphs(
    page: &mut Page,
    sheet: Sheet,
    drawing: &Drawing,
    rows: &[Row],
    worst: Option<u32>,
) {
    let broken = broken_rows(rows);
    if worst.is_none() && broken == 0 {
        return put_kinds(page, sheet, drawing, rows);
    }
    let asked = match worst {
        Some(asked) => asked as usize,
        None => broken.min(MOST),
    };
    for (place, row) in rows[..asked.min(rows.len())].iter().enumerate() {
        put_next(page, sheet, drawing, place.saturating_add(1), row);
    }
    if worst.is_none() && broken > MOST {
        let numbers = [number_of(broken - MOST), number_of(broken)];
        page.fill(b"\n# broken rows more: worst=# shows them\n", &numbers);
    }
}
