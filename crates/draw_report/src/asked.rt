//! What is asked for.

ghost use Rattle.std.specs.Prelude.{◌<◌, ◌≤◌, IfErr};

use drawing_tree::Drawing;
use slack_report::{Names, Row, broken_rows};
use std::alloc::Global;
use timing_analysis::Subject;

/// What is drawn.
#[derive(Clone, Copy)]
pub enum Asked {
    /// The waves of a case, 0 to 256.
    Case(u32),
    /// Limits.
    Limits(Limits),
}

/// What is drawn of limits.
#[derive(Clone, Copy)]
pub enum Limits {
    /// A page of them.
    Page(Shows),
    /// The limit of a row in the table of slacks.
    Row(Wanted),
}

/// What a page shows below the table of slacks: the broken limits, the waves of the cases, or both.
#[derive(Clone, Copy)]
pub enum Shows {
    All,
    Faults,
    Waves,
}

impl Shows {
    /// Whether it shows limits.
    pub fn has_limits(self) -> bool {
        !matches!(self, Shows::Waves)
    }

    /// Whether it shows cases.
    pub fn has_cases(self) -> bool {
        !matches!(self, Shows::Faults)
    }
}

/// Which row of the table of slacks is asked for: of the broken ones, or of all.
#[derive(Clone, Copy)]
pub enum Among {
    Broken,
    All,
}

/// A row by its number from 1.
#[derive(Clone, Copy)]
pub struct Wanted {
    pub among: Among,
    pub number: u32,
}

impl Wanted {
    /// How many rows there are to choose from.
    fn count(self, rows: &[Row]) -> usize {
        match self.among {
            Among::Broken => broken_rows(rows),
            Among::All => rows.len(),
        }
    }

    /// The row that it is. `Err` is how many there are if there are not so many.
    pub fn row(self, rows: &[Row]) -> Result<&Row, u32>
        requires { 1 ≤ self.number }
        ensures { IfErr result (λ count. count < self.number) }
    {
        let count = self.count(rows).min(rows.len());
        if self.number as usize > count {
            return Err(count as u32);
        }
        Ok(&rows[self.number as usize - 1])
    }
}

/// What is drawn from: the circuit with its cases, how many rounds there may be, the drawing with
/// its texts, the names of the circuit, and the path that nets are to be below, if one is asked for.
#[derive(Clone, Copy)]
pub struct Job<'a> {
    pub alloc: Global,
    pub subject: &'a Subject,
    pub limit: u32,
    pub drawing: &'a Drawing,
    pub names: &'a Names,
    pub under: Option<&'a [u8]>,
}
