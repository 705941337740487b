//! The picture of the waves of a case over two periods.

ghost use Rattle.std.specs.Prelude.{◌≡◌, ◌<◌, ◌≤◌, ◌^◌, length, IfOk, IfSome};
ghost use Rattle.fixpoint_engine.specs.Waves.{FitWaves, waves_of};
ghost use Rattle.draw_report.specs.Mark.{AreOn};
ghost use Rattle.draw_report.specs.Paper.{Adds};
ghost use Rattle.draw_report.specs.Picture.{are_many_runs, case_drawn, case_heading, case_text, case_view, picture, row_sketch, row_waves};
ghost use Rattle.draw_report.specs.Row.{AreInside};
ghost use Rattle.draw_report.specs.View.{IsView};

use crate::label::labels_of;
use crate::mark::Mark;
use crate::paper::{Paper, Piece};
use crate::picture::picture_of;
use crate::row::Row;
use crate::run::count_runs;
use crate::sketch::Sketch;
use crate::view::View;
use fixpoint_engine::Waves;
use flat_circuit::Circuit;
use scald_base::{Bytes, List, NoMemory};
use skew_algebra::Skewed;
use std::alloc::Global;
use step_values::Value;
use wave_core::CyclicWave;

/// From one row to the next.
const PITCH: u16 = 270;

/// The most rows of a picture.
const MOST_ROWS: usize = 8192;

/// The most runs of a picture.
const MOST_RUNS: usize = 262_144;

/// What is said of a case above its picture: its number where there are cases, and the tick from
/// which on its waves hold.
#[derive(Clone, Copy)]
pub struct CaseHead {
    pub number: Option<u32>,
    pub tick: u64,
}

/// The number of a case in words, where there are cases.
fn put_case(out: &mut Paper, number: Option<u32>)
    ensures { Adds out.old out.new (case_text number) }
{
    if let Some(number) = number {
        out.put(&[
            Piece::Markup(b"case "),
            Piece::Number(u64::from(number)),
            Piece::Markup(b": "),
        ]);
    }
}

/// The heading of the picture of a case.
fn heading_of(alloc: Global, c: &Circuit, head: CaseHead) -> Result<Bytes, NoMemory>
    ensures { IfOk result (λ text. text ≡ case_heading c.now head) }
{
    let mut out = Paper::new(alloc);
    put_case(&mut out, head.number);
    out.put(&[
        Piece::Number(u64::from(c.net_count())),
        Piece::Markup(b" nets, period "),
        Piece::Number(u64::from(c.header().period())),
        Piece::Markup(b", two periods; holds from tick "),
        Piece::Number(head.tick),
        Piece::Markup(b" on"),
    ]);
    out.done()
}

/// Two periods, from slot 0 on.
fn view_of(c: &Circuit) -> View
    ensures is { result ≡ case_view c.now }
    ensures view { IsView result }
{
    c.header().known();
    let period = c.header().period();
    View {
        first: 0,
        count: 2 * u32::from(period),
        period,
        unit: c.header().ticks,
        moved: 0,
    }
}

/// The waves of rows: each that of its first net.
fn waves_of_rows<W: CyclicWave<Item = Value>>(
    alloc: Global,
    c: &Circuit,
    waves: &Waves<W>,
    rows: &[Row],
) -> Result<List<Skewed<W>>, NoMemory>
    requires fit { FitWaves c.now waves.now }
    requires inside { AreInside c.now rows.now }
    ensures { IfOk result (λ some. some ≡ row_waves c.now (waves_of waves.now) rows.now) }
{
    c.known();
    let mut some = List::new(alloc);
    for row in rows {
        some.push(waves.at(c.net_at(row.from)).copy(alloc)?)?;
    }
    Ok(some)
}

/// Whether so many slots of waves have too many runs to be drawn.
fn are_many_runs<W: CyclicWave<Item = Value>>(
    alloc: Global,
    waves: &[Skewed<W>],
    count: u32,
) -> Result<bool, NoMemory>
    requires { count < 2 ^ 31 }
    ensures { IfOk result (λ many. many ≡ are_many_runs count waves.now) }
{
    let mut runs: usize = 0;
    for wave in waves {
        runs = runs.saturating_add(count_runs(alloc, wave.wave(), count)?);
    }
    Ok(runs > MOST_RUNS)
}

/// The picture of rows of a case with their waves.
fn picture_of_rows<W: CyclicWave<Item = Value>>(
    alloc: Global,
    c: &Circuit,
    rows: &[Row],
    waves: &[Skewed<W>],
    head: CaseHead,
    marks: &[Mark],
    page: Option<u64>,
) -> Result<Bytes, NoMemory>
    requires rows { length waves.now ≡ length rows.now }
    requires few { length rows.now ≤ 8192 }
    requires marks { AreOn (length rows.now) marks.now }
    requires room { IfSome page (λ room. room < 2 ^ 32) }
    ensures { IfOk result (λ bytes. bytes ≡ picture (row_sketch c.now rows.now waves.now head
        marks.now page)) }
{
    let heading = heading_of(alloc, c, head)?;
    let labels = labels_of(alloc, c, rows)?;
    let sketch = Sketch {
        view: view_of(c),
        pitch: PITCH,
        heading: heading.as_slice(),
        labels: labels.as_slice(),
        marks,
        texts: &[],
        caption: &[],
        page,
    };
    picture_of(alloc, &sketch, waves)
}

/// The picture of rows of a case over two periods, with marks on them; `None` where there
/// is too much to draw: more than 8,192 rows or 262,144 runs. `NoMemory` comes if memory runs out.
pub fn case_picture<W: CyclicWave<Item = Value>>(
    alloc: Global,
    c: &Circuit,
    waves: &Waves<W>,
    rows: &[Row],
    head: CaseHead,
    marks: &[Mark],
    page: Option<u64>,
) -> Result<Option<Bytes>, NoMemory>
    requires fit { FitWaves c.now waves.now }
    requires inside { AreInside c.now rows.now }
    requires marks { AreOn (length rows.now) marks.now }
    requires room { IfSome page (λ room. room < 2 ^ 32) }
    ensures { IfOk result (λ drawn.
        drawn ≡ case_drawn c.now (waves_of waves.now) rows.now head marks.now page) }
{
    if rows.len() > MOST_ROWS {
        return Ok(None);
    }
    let some = waves_of_rows(alloc, c, waves, rows)?;
    if are_many_runs(alloc, some.as_slice(), view_of(c).count)? {
        return Ok(None);
    }
    let bytes = picture_of_rows(alloc, c, rows, some.as_slice(), head, marks, page)?;
    Ok(Some(bytes))
}
