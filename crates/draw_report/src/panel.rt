//! The marks in the panel of a case: the broken limits that have their slack there.

use crate::limit::{Subjected, Ticks};
use crate::mark::{Mark, Slots};
use crate::plan::place_number;
use crate::row::Row as Strip;
use flat_circuit::Circuit;
use scald_base::{List, NoMemory};
use slack_report::{Row, Sheet};
use std::alloc::Global;

/// The row of the panel that each net is in, by the net's number.
pub type RowNumbers = List<u32>;

/// The row of each net, by the rows of the panel. Nets that are in none have the number after the
/// last, of which marks are left out (`marks_on`).
pub fn row_numbers(alloc: Global, c: &Circuit, strips: &[Strip]) -> Result<RowNumbers, NoMemory> {
    let mut numbers = List::new(alloc);
    for _ in 0..c.net_count() {
        numbers.push(place_number(strips.len()))?;
    }
    for (number, strip) in strips.iter().enumerate() {
        for place in strip.from..strip.to {
            let net = c.net_at(place) as usize;
            if net < numbers.len() {
                numbers.set(net, place_number(number));
            }
        }
    }
    Ok(numbers)
}

/// A tick of the panel, which has none before 0.
fn tick_of(tick: i64) -> u32 {
    u32::try_from(tick).unwrap_or(0)
}

/// What the panel of a case is marked with, on a page with the pictures of limits or without them.
#[derive(Clone, Copy)]
pub struct Panel<'a> {
    pub sheet: Sheet<'a>,
    pub numbers: &'a RowNumbers,
    pub case: u32,
    pub has_limits: bool,
}

impl<'a> Panel<'a> {
    /// The row that a net is in.
    fn row_of(self, net: u32) -> Option<u32> {
        self.numbers.get(net as usize).copied()
    }

    /// Slots of a row.
    fn slots(self, row: u32, at: Ticks) -> Slots {
        Slots {
            row,
            from: tick_of(at.from),
            to: tick_of(at.to),
        }
    }

    /// Whether the case is one of those in which a limit has its least slack.
    fn has_case(self, row: &Row) -> Result<bool, NoMemory> {
        let cases = self.sheet.cases_of(row.first.least.cases)?;
        for case in cases.as_slice() {
            if *case == self.case {
                return Ok(true);
            }
        }
        Ok(false)
    }

    /// Whether it is the first of them.
    fn is_first(self, row: &Row) -> bool {
        self.sheet.rows.cases.get(row.first.least.case) == Some(&self.case)
    }

    /// Adds the line of an edge between the rows of the clock and of the data.
    fn add_edge(
        self,
        tick: i64,
        row: u32,
        other: u32,
        marks: &mut List<Mark>,
    ) -> Result<(), NoMemory> {
        marks.push(Mark::Edge {
            tick: tick_of(tick),
            row,
            other,
        })
    }

    /// Adds the edges of a limit: the first and the last.
    fn add_edges(self, of: Subjected, row: u32, marks: &mut List<Mark>) -> Result<(), NoMemory> {
        if !of.has_edges() {
            return Ok(());
        }
        let Some(net) = of.clock_net() else {
            return Ok(());
        };
        let Some(other) = self.row_of(net) else {
            return Ok(());
        };
        let edges = of.edges();
        self.add_edge(edges.from, other, row, marks)?;
        if edges.to != edges.from {
            self.add_edge(edges.to, other, row, marks)?;
        }
        Ok(())
    }

    /// Adds the window of a limit, what offends in it, and its edges.
    fn add_areas(self, of: Subjected, row: u32, marks: &mut List<Mark>) -> Result<(), NoMemory> {
        if let Some(window) = of.net_window() {
            marks.push(Mark::Window(self.slots(row, window)))?;
        }
        if let Some(bad) = of.net_bad() {
            marks.push(Mark::Bad(self.slots(row, bad)))?;
        }
        self.add_edges(of, row, marks)
    }

    /// Adds the marks of a broken row of this number.
    fn add_row(self, number: u32, row: &Row, marks: &mut List<Mark>) -> Result<(), NoMemory> {
        let of = Subjected::in_panel(self.sheet, row.first);
        let Some(strip) = self.data_row(of) else {
            return Ok(());
        };
        if !self.has_case(row)? {
            return Ok(());
        }
        if self.is_first(row) {
            self.add_areas(of, strip, marks)?;
        }
        marks.push(Mark::Flag {
            row: strip,
            number,
            is_link: self.has_limits,
        })
    }

    /// The row of the data's net.
    fn data_row(self, of: Subjected) -> Option<u32> {
        self.row_of(of.data_net()?)
    }

    /// The marks of all broken rows, which come first.
    pub fn marks(self, rows: &[Row]) -> Result<List<Mark>, NoMemory> {
        let mut marks = List::new(self.sheet.alloc);
        for (place, row) in rows.iter().enumerate() {
            if row.first.least.finding.slack.is_broken() {
                let number = place_number(place).saturating_add(1);
                self.add_row(number, row, &mut marks)?;
            }
        }
        Ok(marks)
    }
}
