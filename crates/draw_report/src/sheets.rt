//! The page of a drawing: its verdict, the head of its report, the table of its slacks, how
//! pictures are read, and its pictures.

ghost use Rattle.std.specs.Prelude.{◌≡◌, ◌^◌, ◌<◌, ◌≤◌, length, IfOk, OnOk};
ghost use Rattle.fixpoint_engine.specs.Waves.{FitWaves};
ghost use Rattle.std.specs.List.{All};
ghost use Rattle.draw_report.specs.Drawn.{AreDrawn, IsPageDrawn, IsPicture};

use crate::account::lines_of;
use crate::asked::Shows;
use crate::drawn::{Drawn, panel_picture, row_picture};
use crate::label::{longest_label, pin_length};
use crate::limit::{Subjected, has_own_row};
use crate::page::{Page, page_of};
use crate::picture::room_of;
use crate::pictures::Pictures;
use drawing_tree::Drawing;
use fixpoint_engine::Waves;
use flat_circuit::Pin;
use listing::{Piece, add_line, add_pieces, begin_report};
use scald_base::{Bytes, List, NoMemory};
use slack_report::{Page as Table, Row, Sheet, broken_rows, put_table};
use std::alloc::Global;
use step_values::Value;
use timing_analysis::SettledCase;
use wave_core::CyclicWave;

/// More lines than stand on a page: one for each of up to 65,536 nets that are taken for constant,
/// one for each row of the table, and those around them.
const MOST_LINES: usize = 131_072;

/// How pictures are read.
const LEGEND: &[u8] = b"
In the pictures, the slot before the line of a tick is the step to that tick.
  line                    0 below, 1 above
  two rails               stable
  crossed hatch           may change; in one slot a crossing
  rising, falling hatch   may rise, may fall; in one slot a ramp
  dots                    unknown
  blue, with dashes       where the wave may step, and its changes at their latest
  yellow, dashed box      where a limit permits no change
  red, solid box          what breaks the limit; a red distance is its slack
  dash-dotted line        the edge that a window is about
  arrows                  from change to change with their ticks; dashed for the clock
";

/// Where the rows of the table begin among the lines of a page: after the first empty line and the
/// head of the table.
fn first_row(lines: &[Bytes]) -> usize
    ensures { result ≤ length lines.now }
{
    for (place, line) in lines.iter().enumerate() {
        if line.as_slice().is_empty() {
            return place.saturating_add(2).min(lines.len());
        }
    }
    lines.len()
}

/// How many bytes are shown of the label of a pin; none if it has no row of its own.
fn own_length(sheet: Sheet, pin: Option<Pin>) -> usize {
    match pin {
        Some(pin) if has_own_row(sheet.circuit, pin) => pin_length(sheet.circuit, pin),
        _ => 0,
    }
}

/// How many bytes are shown of the longest label of a pin that has a row of its own in the pictures
/// of broken limits.
fn longest_pin(sheet: Sheet, rows: &[Row]) -> usize {
    let mut longest: usize = 0;
    for row in rows {
        if row.first.least.finding.slack.is_broken() {
            let of = Subjected::along_paths(sheet, row.first);
            longest = longest.max(own_length(sheet, of.data_pin()));
            longest = longest.max(own_length(sheet, of.clock_pin()));
        }
    }
    longest
}

/// How many bytes the room for labels holds: as many as the longest of all pictures of a page.
fn longest_of(sheet: Sheet, rows: &[Row], shows: Shows) -> usize {
    let nets = longest_label(sheet.circuit);
    if shows.has_limits() {
        nets.max(longest_pin(sheet, rows))
    } else {
        nets
    }
}

/// A page of pictures.
fn drawn_page(alloc: Global, page: &Page) -> Result<Drawn, NoMemory>
    requires limits { All IsPicture page.now.limits.now }
    requires cases { All IsPicture page.now.cases.now }
    ensures { IfOk result IsPageDrawn }
{
    Ok(Drawn::Picture(page_of(alloc, page)?))
}

/// What a page is made of: what it shows, the rows of the table, the path that the nets of its
/// panels are below, if there is one, and the room for labels.
#[derive(Clone, Copy)]
pub struct Sheets<'a> {
    pub drawing: &'a Drawing,
    pub sheet: Sheet<'a>,
    pub rows: &'a [Row],
    pub shows: Shows,
    pub under: Option<&'a [u8]>,
    room: u64,
    ghost near: { room < 2 ^ 32 },
}

impl<'a> Sheets<'a> {
    /// What is shown of the rows of a table, and of the nets below a path if there is one.
    pub fn new(
        drawing: &'a Drawing,
        sheet: Sheet<'a>,
        rows: &'a [Row],
        shows: Shows,
        under: Option<&'a [u8]>,
    ) -> Sheets<'a>
        ensures { result.sheet.circuit.now ≡ sheet.entry.circuit.now }
    {
        Sheets {
            drawing,
            sheet,
            rows,
            shows,
            under,
            room: room_of(longest_of(sheet, rows, shows)),
        }
    }

    /// No pictures yet, with room for the limits that the page shows.
    pub fn no_pictures<W: CyclicWave<Item = Value>>(self) -> Result<Pictures, NoMemory>
        ensures { IfOk result AreDrawn }
    {
        let count = if self.shows.has_limits() {
            broken_rows(self.rows)
        } else {
            0
        };
        Pictures::new::<W>(self.sheet.alloc, count)
    }

    /// Whether a row is drawn in a case: that is the first in which it has its least slack.
    fn is_drawn_in(self, row: &Row, case: &SettledCase) -> bool {
        self.sheet.rows.cases.get(row.first.least.case) == Some(&case.number)
    }

    /// The limit of a row at this place.
    fn add_limit<W: CyclicWave<Item = Value>>(
        self,
        waves: &Waves<W>,
        place: usize,
        row: &Row,
        pictures: &mut Pictures,
    ) -> Result<(), NoMemory>
        requires fit { FitWaves self.sheet.circuit.now waves.now }
        requires drawn { AreDrawn pictures.old }
        ensures { OnOk result (AreDrawn pictures.new) }
    {
        let number = place.saturating_add(1);
        let room = Some(self.room);
        let picture = row_picture(self.sheet, self.drawing, number, row, waves, room)?;
        pictures.set_limit(place, picture);
        Ok(())
    }

    /// The limits that are drawn in a case.
    fn add_limits<W: CyclicWave<Item = Value>>(
        self,
        waves: &Waves<W>,
        case: &SettledCase,
        pictures: &mut Pictures,
    ) -> Result<(), NoMemory>
        requires fit { FitWaves self.sheet.circuit.now waves.now }
        requires drawn { AreDrawn pictures.old }
        ensures { OnOk result (AreDrawn pictures.new) }
    {
        let shown = pictures.limits.len();
        for (place, row) in self.rows.iter().enumerate() {
            if place < shown && self.is_drawn_in(row, case) {
                self.add_limit(waves, place, row, pictures)?;
            }
        }
        Ok(())
    }

    /// The panel of a case.
    fn add_panel<W: CyclicWave<Item = Value>>(
        self,
        waves: &Waves<W>,
        case: &SettledCase,
        pictures: &mut Pictures,
    ) -> Result<(), NoMemory>
        requires fit { FitWaves self.sheet.circuit.now waves.now }
        requires drawn { AreDrawn pictures.old }
        ensures { OnOk result (AreDrawn pictures.new) }
    {
        let has_limits = self.shows.has_limits();
        let room = Some(self.room);
        let picture = panel_picture(
            self.sheet, self.rows, waves, case, has_limits, self.under, room,
        )?;
        pictures.add_case(picture)
    }

    /// One case more, with the limits that are drawn in it.
    pub fn add_case<W: CyclicWave<Item = Value>>(
        self,
        waves: &Waves<W>,
        case: &SettledCase,
        pictures: &mut Pictures,
    ) -> Result<(), NoMemory>
        requires fit { FitWaves self.sheet.circuit.now waves.now }
        requires drawn { AreDrawn pictures.old }
        ensures { OnOk result (AreDrawn pictures.new) }
    {
        if self.shows.has_cases() {
            self.add_panel(waves, case, pictures)?;
        }
        self.add_limits(waves, case, pictures)
    }

    /// The name of the drawing with its verdict.
    fn title(self, faults: u32) -> Result<Bytes, NoMemory> {
        let mut title = Bytes::new(self.sheet.alloc);
        let name = Piece::Text(self.drawing.name.as_slice());
        if faults == 0 {
            add_pieces(&mut title, &[name, Piece::Text(b": CLEAN")])?;
        } else {
            let count = Piece::Number(u64::from(faults));
            add_pieces(&mut title, &[name, Piece::Text(b": FAULTS "), count])?;
        }
        Ok(title)
    }

    /// The table of slacks.
    fn table(self) -> Result<Bytes, NoMemory> {
        let mut table = Table::new(self.sheet.alloc);
        put_table(&mut table, self.sheet, self.rows, None);
        table.done()
    }

    /// Adds how many limits nothing can break, if there are some.
    fn add_free(self, text: &mut Bytes) -> Result<(), NoMemory> {
        let free = self.sheet.rows.free_count();
        if free == 0 {
            return Ok(());
        }
        let count = Piece::Number(free as u64);
        add_line(
            text,
            &[count, Piece::Text(b" limits that nothing can break")],
        )
    }

    /// Adds the table of slacks to a text.
    fn add_table(self, text: &mut Bytes) -> Result<(), NoMemory> {
        let table = self.table()?;
        text.extend(table.as_slice())
    }

    /// Adds what stands above the pictures: the head of the report, with the nets that are taken
    /// for constant, the table, and how pictures are read.
    fn add_text(self, text: &mut Bytes) -> Result<(), NoMemory> {
        begin_report(self.sheet.circuit, self.drawing.version, text)?;
        text.push(b'\n')?;
        self.add_table(text)?;
        self.add_free(text)?;
        text.extend(LEGEND)
    }

    /// The same line by line.
    fn lines(self) -> Result<List<Bytes>, NoMemory> {
        let mut text = Bytes::new(self.sheet.alloc);
        self.add_text(&mut text)?;
        lines_of(self.sheet.alloc, text.as_slice(), MOST_LINES)
    }

    /// The page.
    pub fn page(self, faults: u32, pictures: &Pictures) -> Result<Drawn, NoMemory>
        requires { AreDrawn pictures.now }
        ensures { IfOk result IsPageDrawn }
    {
        if pictures.is_much {
            return Ok(Drawn::Much);
        }
        let title = self.title(faults)?;
        let lines = self.lines()?;
        let lines = lines.as_slice();
        let first = first_row(lines);
        let after = first.saturating_add(pictures.limits.len()).min(lines.len());
        let page = Page {
            title: title.as_slice(),
            above: &lines[..first],
            rows: &lines[first..after],
            below: &lines[after..],
            limits: pictures.limits.as_slice(),
            cases: pictures.cases.as_slice(),
        };
        drawn_page(self.sheet.alloc, &page)
    }
}
