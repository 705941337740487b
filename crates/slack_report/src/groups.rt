//! Bits of one statement with equal sums, which are one row.

use crate::keys::{Outline, row_text, shape_text};
use crate::sheet::{Limit, Sheet};
use critical_paths::{At, End};
use indexmap::IndexSet;
use scald_base::{Bytes, List, NoMemory};
use slack_rows::Rank;
use std::alloc::Global;

/// Bits of one statement with equal sums: the first, and all.
#[derive(Drop)]
pub struct Row {
    pub first: Limit,
    pub limits: List<Limit>,
}

/// A limit that something can break: its row, where its slack is sorted, and its place among all.
#[derive(Clone, Copy, PartialEq, Eq, PartialOrd, Ord)]
struct Entry {
    row: usize,
    rank: Rank,
    place: usize,
}

/// The shapes of paths: the texts of links, each once, and of each event the number of its path's
/// from 1, or 0.
#[derive(Drop)]
struct Shapes {
    distinct: IndexSet<Bytes>,
    known: List<usize>,
}

/// Adds the limits that something can break and that are in no row yet.
fn add_entries(sheet: Sheet, entries: &mut Vec<Entry>) -> Result<(), NoMemory> {
    for place in 0..sheet.rows.parameters.len() {
        if let Some(limit) = sheet.limit(place) {
            if !sheet.is_reported(place) {
                entries.push(Entry {
                    row: 0,
                    rank: limit.least.finding.slack.rank(),
                    place,
                })?;
            }
        }
    }
    Ok(())
}

impl Shapes {
    /// No shapes, of no events.
    fn new(alloc: Global) -> Shapes {
        Shapes {
            distinct: IndexSet::new(alloc),
            known: List::new(alloc),
        }
    }

    /// Gives so many events no shape.
    fn begin(&mut self, events: usize) -> Result<(), NoMemory> {
        for _ in 0..events {
            self.known.push(0)?;
        }
        Ok(())
    }

    /// The number from 1 of the shape of an event's path that is known, or 0.
    fn known(&self, number: usize) -> usize {
        self.known.get(number).copied().unwrap_or(0)
    }

    /// Adds the events of a path that have no shape yet, and gives the shape of the one after the
    /// last of them, or 0.
    fn add_unknown(
        &self,
        sheet: Sheet,
        start: usize,
        events: &mut List<usize>,
    ) -> Result<usize, NoMemory> {
        let mut number = start;
        for _ in 0..sheet.event_count(start) {
            let rest = self.known(number);
            if rest > 0 {
                return Ok(rest);
            }
            events.push(number)?;
            number = sheet.before(number);
        }
        Ok(0)
    }

    /// Keeps the shape of an event's path.
    fn remember(&mut self, event: usize, shape: usize) {
        if event < self.known.len() {
            self.known.set(event, shape);
        }
    }

    /// The number from 1 of the shape of an event's path, which ends like this, by that of the
    /// event before. The events of a loop have no shape of their own, since each has another begin.
    fn add(
        &mut self,
        sheet: Sheet,
        event: usize,
        end: End,
        rest: usize,
    ) -> Result<usize, NoMemory> {
        let Some(node) = sheet.node(event) else {
            return Ok(rest);
        };
        let text = shape_text(sheet, node, end, rest)?;
        let (number, _) = self.distinct.insert_full(text)?;
        let shape = number.saturating_add(1);
        if !matches!(end, End::Loop) {
            self.remember(event, shape);
        }
        Ok(shape)
    }

    /// Adds events, which come from the last one back, after one of this shape, and gives the shape
    /// of the last one.
    fn add_all(
        &mut self,
        sheet: Sheet,
        events: &[usize],
        end: End,
        before: usize,
    ) -> Result<usize, NoMemory> {
        let mut rest = before;
        for back in 0..events.len() {
            rest = self.add(sheet, events[events.len() - 1 - back], end, rest)?;
        }
        Ok(rest)
    }

    /// The number from 1 of the shape of an event's path: the links that are not known up to one
    /// that is, and then back.
    fn of(&mut self, sheet: Sheet, start: usize) -> Result<usize, NoMemory> {
        let Some(node) = sheet.node(start) else {
            return Ok(0);
        };
        let mut events = List::new(sheet.alloc);
        let before = self.add_unknown(sheet, start, &mut events)?;
        self.add_all(sheet, events.as_slice(), node.end, before)
    }

    /// That of a path, if there is one.
    fn outline(&mut self, sheet: Sheet, at: Option<At>) -> Result<Option<Outline>, NoMemory> {
        let Some(at) = at else {
            return Ok(None);
        };
        Ok(Some(Outline {
            shape: self.of(sheet, at.node)?,
            tick: at.tick,
            begin: sheet.begin(at),
            wire: at.wire,
        }))
    }

    /// The text of what is equal in the row of a limit.
    fn row_text(&mut self, sheet: Sheet, of: Limit) -> Result<Bytes, NoMemory> {
        let data = self.outline(sheet, of.least.data)?;
        let clock = self.outline(sheet, of.least.clock)?;
        row_text(sheet, of, data, clock)
    }
}

/// The number of the row of the limit at a place.
fn row_of(
    sheet: Sheet,
    keys: &mut IndexSet<Bytes>,
    shapes: &mut Shapes,
    place: usize,
) -> Result<usize, NoMemory> {
    let Some(limit) = sheet.limit(place) else {
        return Ok(0);
    };
    let text = shapes.row_text(sheet, limit)?;
    let (row, _) = keys.insert_full(text)?;
    Ok(row)
}

/// Gives each limit its row, by the shapes of its paths.
fn number_by(sheet: Sheet, shapes: &mut Shapes, entries: &mut [Entry]) -> Result<(), NoMemory> {
    let mut keys = IndexSet::new(sheet.alloc);
    for at in 0..entries.len() {
        entries[at].row = row_of(sheet, &mut keys, shapes, entries[at].place)?;
    }
    Ok(())
}

/// Gives each limit its row, the worst first.
fn number_rows(sheet: Sheet, entries: &mut [Entry]) -> Result<(), NoMemory> {
    let mut shapes = Shapes::new(sheet.alloc);
    shapes.begin(sheet.rows.paths.len())?;
    number_by(sheet, &mut shapes, entries)
}

/// Adds all limits that have a row, row by row, the worst first.
fn add_sorted(sheet: Sheet, entries: &mut Vec<Entry>) -> Result<(), NoMemory> {
    add_entries(sheet, entries)?;
    entries.sort()?;
    number_rows(sheet, entries)?;
    entries.sort()?;
    Ok(())
}

/// Adds the limits of the first row of some entries.
fn add_first_row(
    sheet: Sheet,
    entries: &[Entry],
    limits: &mut List<Limit>,
) -> Result<(), NoMemory> {
    for at in 0..entries.len() {
        if entries[at].row != entries[0].row {
            break;
        }
        if let Some(limit) = sheet.limit(entries[at].place) {
            limits.push(limit)?;
        }
    }
    Ok(())
}

/// Adds the first row of some entries, whose first limit is known.
fn add_row(
    sheet: Sheet,
    entries: &[Entry],
    first: Limit,
    rows: &mut List<Row>,
) -> Result<(), NoMemory> {
    let mut limits = List::new(sheet.alloc);
    add_first_row(sheet, entries, &mut limits)?;
    rows.push(Row { first, limits })
}

/// Adds the rows of entries.
fn add_rows(sheet: Sheet, entries: &[Entry], rows: &mut List<Row>) -> Result<(), NoMemory> {
    for at in 0..entries.len() {
        if at == 0 || entries[at].row != entries[at - 1].row {
            if let Some(first) = sheet.limit(entries[at].place) {
                add_row(sheet, &entries[at..], first, rows)?;
            }
        }
    }
    Ok(())
}

/// The rows of entries.
fn rows_of(sheet: Sheet, entries: &[Entry]) -> Result<List<Row>, NoMemory> {
    let mut rows = List::new(sheet.alloc);
    add_rows(sheet, entries, &mut rows)?;
    Ok(rows)
}

/// The limits that something can break, row by row, the worst first.
pub fn grouped(sheet: Sheet) -> Result<List<Row>, NoMemory> {
    let mut entries = Vec::new(sheet.alloc);
    add_sorted(sheet, &mut entries)?;
    rows_of(sheet, &entries)
}
