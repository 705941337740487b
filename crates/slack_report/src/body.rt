//! What stands between the first line of an answer and the last ones.

use crate::groups::grouped;
use crate::page::Page;
use crate::paragraphs::put_paragraphs;
use crate::sheet::{Names, Sheet};
use crate::table::put_table;
use drawing_tree::Drawing;
use flat_circuit::Circuit;
use scald_base::{Bytes, NoMemory};
use slack_rows::Rows;
use std::alloc::Global;

/// The table of a sheet.
fn table_of(sheet: Sheet, worst: Option<u32>) -> Result<Bytes, NoMemory> {
    let groups = grouped(sheet)?;
    let mut page = Page::new(sheet.alloc);
    put_table(&mut page, sheet, groups.as_slice(), worst);
    page.done()
}

/// The paragraphs of a sheet.
fn paragraphs_of(sheet: Sheet, drawing: &Drawing, worst: Option<u32>) -> Result<Bytes, NoMemory> {
    let groups = grouped(sheet)?;
    let mut page = Page::new(sheet.alloc);
    put_paragraphs(&mut page, sheet, drawing, groups.as_slice(), worst);
    page.done()
}

/// The table of a circuit's slacks, with at least so many rows if there are.
pub fn table(
    alloc: Global,
    circuit: &Circuit,
    rows: &Rows,
    worst: Option<u32>,
) -> Result<Bytes, NoMemory> {
    let mut names = Names::new(alloc);
    names.fill(alloc, circuit)?;
    let sheet = Sheet {
        alloc,
        circuit,
        rows,
        names: &names,
    };
    table_of(sheet, worst)
}

/// The paragraphs on a circuit's slacks, of so many rows if that is asked for.
pub fn paragraphs(
    alloc: Global,
    circuit: &Circuit,
    rows: &Rows,
    drawing: &Drawing,
    worst: Option<u32>,
) -> Result<Bytes, NoMemory> {
    let mut names = Names::new(alloc);
    names.fill(alloc, circuit)?;
    let sheet = Sheet {
        alloc,
        circuit,
        rows,
        names: &names,
    };
    paragraphs_of(sheet, drawing, worst)
}
