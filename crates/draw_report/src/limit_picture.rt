//! The picture of a limit: the ways of its clock and of its data, the window between them, and what
//! is left.

ghost use Rattle.std.specs.Prelude.{◌≡◌, ◌^◌, ◌<◌, ◌≤◌, length, IfOk, IfSome, OnOk};
ghost use Rattle.fixpoint_engine.specs.Waves.{FitWaves};
ghost use Rattle.draw_report.specs.Caption.{AreShort};
ghost use Rattle.draw_report.specs.View.{IsView};
ghost use Rattle.draw_report.specs.Drawn.{IsPicture};
ghost use Rattle.draw_report.specs.Plan.{AreThere};

use crate::drawn::MOST_ROWS;
use crate::limit::{Left, Subjected, Ticks, net_of};
use crate::mark::{Mark, Side, Slots, Span, marks_on};
use crate::picture::picture_of;
use crate::plan::{Marked, Plan, shown_labels, shown_waves};
use crate::sketch::Sketch;
use crate::view::View;
use crate::way::{Way, number_text, tick_in};
use fixpoint_engine::Waves;
use scald_base::{Bytes, NoMemory};
use slack_rows::Word;
use step_values::Value;
use wave_core::CyclicWave;

/// From one row to the next.
const PITCH: u16 = 470;

/// The heading of a picture, the lines below it, and the room for labels of the page that it stands
/// in, if it does.
#[derive(Clone, Copy)]
pub struct Account<'a> {
    pub heading: &'a [u8],
    pub lines: &'a [Bytes],
    pub page: Option<u64>,
}

/// The rows of the clock's pin and of the data's.
#[derive(Clone, Copy)]
struct Rows {
    clock: Option<u32>,
    data: u32,
}

impl<'a> Subjected<'a> {
    /// The way of the clock, or of the end of a pulse.
    fn clock_way(self) -> Way {
        let (pin, pin_side) = if self.word().is_width() {
            (self.data_pin(), Side::Data)
        } else {
            (self.clock_pin(), Side::Clock)
        };
        Way {
            side: Side::Clock,
            at: self.least().clock,
            pin,
            pin_side,
        }
    }

    /// The way of the data, or of the begin of a pulse.
    fn data_way(self) -> Way {
        Way {
            side: Side::Data,
            at: self.least().data,
            pin: self.data_pin(),
            pin_side: Side::Data,
        }
    }

    /// Adds the rows of a way, and that of the net where it ends.
    fn add_way(self, way: Way, net: Option<u32>, plan: &mut Plan) -> Result<(), NoMemory>
        requires { AreThere (length self.sheet.circuit.now.nets) plan.old.shown }
        ensures { OnOk result (AreThere (length self.entry.sheet.circuit.now.nets) plan.new.shown) }
    {
        way.add_rows(self, plan)?;
        match net {
            Some(net) => plan.add_net(self.sheet.circuit, net),
            None => Ok(()),
        }
    }

    /// Adds the rows: the clock's, and then the data's.
    fn add_rows(self, plan: &mut Plan) -> Result<(), NoMemory>
        requires { AreThere (length self.sheet.circuit.now.nets) plan.old.shown }
        ensures { OnOk result (AreThere (length self.entry.sheet.circuit.now.nets) plan.new.shown) }
    {
        if !self.word().is_width() {
            self.add_way(self.clock_way(), self.clock_net(), plan)?;
        }
        self.add_way(self.data_way(), self.data_net(), plan)
    }

    /// The rows of its pins, each that of the pin or of its net, if there is one for the data.
    fn rows(self, plan: &Plan) -> Option<Rows> {
        let clock = match self.clock_pin() {
            Some(pin) => row_of(plan, Side::Clock, net_of(pin)),
            None => None,
        };
        let data = row_of(plan, Side::Data, self.data_net())?;
        Some(Rows { clock, data })
    }

    /// Shows the ticks of its edges, of its window, and of what is left.
    fn show_ticks(self, plan: &mut Plan)
        ensures { plan.new.shown ≡ plan.old.shown }
    {
        let edges = self.edges();
        plan.show(edges.from);
        plan.show(edges.to);
        if let Some(window) = self.window() {
            plan.show(window.from.saturating_sub(1));
            plan.show(window.to);
        }
        show_left(self.left(), plan);
        show_left(self.left_after(), plan);
    }

    /// Adds what stands in the data's row, and the edges.
    fn add_areas(self, rows: Rows, view: View, marked: &mut Marked) -> Result<(), NoMemory> {
        if let Some(window) = self.window() {
            marked
                .marks
                .push(Mark::Window(slots(view, rows.data, window)))?;
        }
        if let Some(bad) = self.bad() {
            marked.marks.push(Mark::Bad(slots(view, rows.data, bad)))?;
        }
        let Some(clock) = rows.clock else {
            return Ok(());
        };
        if !self.has_edges() {
            return Ok(());
        }
        let edges = self.edges();
        marked.marks.push(edge(view, edges.from, clock, rows.data))?;
        if edges.to != edges.from {
            marked.marks.push(edge(view, edges.to, clock, rows.data))?;
        }
        Ok(())
    }

    /// Adds the distances: the limit's, and what is left.
    fn add_distances(self, view: View, marked: &mut Marked) -> Result<(), NoMemory> {
        let edges = self.edges();
        match (self.word(), self.window()) {
            (Word::Setup | Word::Hold, Some(window)) => {
                let setup = Ticks {
                    from: window.from.saturating_sub(1),
                    to: edges.from,
                };
                let hold = Ticks {
                    from: edges.to,
                    to: window.to,
                };
                self.add_limit(view, b"setup ", setup, marked)?;
                self.add_limit(view, b"hold ", hold, marked)?;
            }
            (Word::High, _) => self.add_width(view, b"high ", marked)?,
            (Word::Low, _) => self.add_width(view, b"low ", marked)?,
            _ => {}
        }
        self.add_left(view, self.left(), marked)?;
        self.add_left(view, self.left_after(), marked)
    }

    /// Adds the distance of a limit, which is as long as it is.
    fn add_limit(
        self,
        view: View,
        front: &[u8],
        at: Ticks,
        marked: &mut Marked,
    ) -> Result<(), NoMemory> {
        let ticks = at.to.saturating_sub(at.from);
        let text = number_text(self.sheet.alloc, front, ticks)?;
        add_distance(view, at, text, false, marked)
    }

    /// Adds the least width of a pulse, from its begin on.
    fn add_width(self, view: View, front: &[u8], marked: &mut Marked) -> Result<(), NoMemory> {
        let from = self.edges().from;
        let to = from.saturating_add(i64::from(self.limit.parameter.limit));
        self.add_limit(view, front, Ticks { from, to }, marked)
    }

    /// Adds what is left, if it is a number.
    fn add_left(self, view: View, left: Option<Left>, marked: &mut Marked) -> Result<(), NoMemory> {
        let Some(Left { ticks, is_way, at }) = left else {
            return Ok(());
        };
        let mut text = number_text(self.sheet.alloc, b"slack ", ticks)?;
        if is_way {
            text.push(b'*')?;
        }
        add_distance(view, at, text, ticks < 0, marked)
    }

    /// Adds all marks.
    fn add_marks(self, plan: &Plan, view: View, marked: &mut Marked) -> Result<(), NoMemory> {
        let Some(rows) = self.rows(plan) else {
            return Ok(());
        };
        self.add_areas(rows, view, marked)?;
        if self.has_paths() {
            self.data_way().add_marks(self, plan, view, marked)?;
            self.clock_way().add_marks(self, plan, view, marked)?;
            marked.put_notes()?;
        }
        self.add_distances(view, marked)
    }

    /// Two periods.
    fn two_periods(self) -> View
        ensures { IsView result }
    {
        let header = self.sheet.circuit.header();
        header.known();
        let period = header.period();
        View {
            first: 0,
            count: 2 * u32::from(period),
            period,
            unit: header.ticks,
            moved: 0,
        }
    }

    /// The view: of what is to be shown, or of two periods if there are no paths.
    fn view<W: CyclicWave<Item = Value>>(
        self,
        waves: &Waves<W>,
        plan: &mut Plan,
    ) -> Result<View, NoMemory>
        ensures view { IfOk result IsView }
        ensures rows { OnOk result (plan.new.shown ≡ plan.old.shown) }
    {
        let all = self.two_periods();
        if !self.has_paths() {
            return Ok(all);
        }
        self.show_ticks(plan);
        self.data_way().show(self, waves, plan)?;
        self.clock_way().show(self, waves, plan)?;
        Ok(plan.view(all.period, all.unit))
    }

    /// The picture of rows of its own in a view.
    fn picture_in<W: CyclicWave<Item = Value>>(
        self,
        waves: &Waves<W>,
        plan: &Plan,
        view: View,
        account: Account,
    ) -> Result<Bytes, NoMemory>
        requires fit { FitWaves self.sheet.circuit.now waves.now }
        requires there { AreThere (length self.sheet.circuit.now.nets) plan.now.shown }
        requires rows { length plan.now.shown ≤ 8192 }
        requires view { IsView view }
        requires few { length account.lines.now ≤ 65536 }
        requires short { AreShort account.lines.now }
        requires room { IfSome account.page (λ room. room < 2 ^ 32) }
        ensures { IfOk result IsPicture }
    {
        let alloc = self.sheet.alloc;
        let shown = plan.shown.as_slice();
        let circuit = self.sheet.circuit;
        let labels = shown_labels(alloc, circuit, shown)?;
        let some = shown_waves(alloc, circuit, waves, shown)?;
        let mut marked = Marked::new(alloc);
        self.add_marks(plan, view, &mut marked)?;
        let marks = marks_on(alloc, marked.marks.as_slice(), shown.len() as u32)?;
        let sketch = Sketch {
            view,
            pitch: PITCH,
            heading: account.heading,
            labels: labels.as_slice(),
            marks: marks.as_slice(),
            texts: marked.texts.as_slice(),
            caption: account.lines,
            page: account.page,
        };
        picture_of(alloc, &sketch, some.as_slice())
    }

    /// Its picture by a plan of no rows yet, which gets its rows and the ticks to be shown.
    fn picture_by<W: CyclicWave<Item = Value>>(
        self,
        waves: &Waves<W>,
        plan: &mut Plan,
        account: Account,
    ) -> Result<Option<Bytes>, NoMemory>
        requires fit { FitWaves self.sheet.circuit.now waves.now }
        requires there { AreThere (length self.sheet.circuit.now.nets) plan.old.shown }
        requires few { length account.lines.now ≤ 65536 }
        requires short { AreShort account.lines.now }
        requires room { IfSome account.page (λ room. room < 2 ^ 32) }
        ensures { IfOk result (λ drawn. IfSome drawn IsPicture) }
    {
        self.add_rows(plan)?;
        if plan.shown.len() > MOST_ROWS {
            return Ok(None);
        }
        let view = self.view(waves, plan)?;
        let bytes = self.picture_in(waves, plan, view, account)?;
        Ok(Some(bytes))
    }

    /// Its picture in waves of its case, with its account; `None` if it has too many rows.
    pub fn picture<W: CyclicWave<Item = Value>>(
        self,
        waves: &Waves<W>,
        account: Account,
    ) -> Result<Option<Bytes>, NoMemory>
        requires fit { FitWaves self.sheet.circuit.now waves.now }
        requires few { length account.lines.now ≤ 65536 }
        requires short { AreShort account.lines.now }
        requires room { IfSome account.page (λ room. room < 2 ^ 32) }
        ensures { IfOk result (λ drawn. IfSome drawn IsPicture) }
    {
        let mut plan = Plan::new(self.sheet.alloc, self.edges().from);
        self.picture_by(waves, &mut plan, account)
    }
}

/// The row that a side's pin has, or that of its net.
fn row_of(plan: &Plan, side: Side, net: Option<u32>) -> Option<u32> {
    match plan.row_of_pin(side) {
        Some(row) => Some(row),
        None => plan.row_of_net(net?),
    }
}

/// Shows the ticks of what is left.
fn show_left(left: Option<Left>, plan: &mut Plan)
    ensures { plan.new.shown ≡ plan.old.shown }
{
    if let Some(left) = left {
        plan.show(left.at.from);
        plan.show(left.at.to);
    }
}

/// Ticks as slots of a row.
fn slots(view: View, row: u32, at: Ticks) -> Slots {
    Slots {
        row,
        from: tick_in(view, at.from),
        to: tick_in(view, at.to),
    }
}

/// The line of an edge.
fn edge(view: View, tick: i64, row: u32, other: u32) -> Mark {
    Mark::Edge {
        tick: tick_in(view, tick),
        row,
        other,
    }
}

/// Adds a distance below those before it.
fn add_distance(
    view: View,
    at: Ticks,
    text: Bytes,
    is_bad: bool,
    marked: &mut Marked,
) -> Result<(), NoMemory> {
    let line = marked.distances;
    marked.distances = line.saturating_add(1);
    let text = marked.add_text(text)?;
    marked.marks.push(Mark::Distance(Span {
        line,
        from: tick_in(view, at.from),
        to: tick_in(view, at.to),
        text,
        is_bad,
    }))
}
