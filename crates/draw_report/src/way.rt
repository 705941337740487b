//! The ways of a limit: the rows of their nets, and the changes on them with arrows between.

ghost use Rattle.std.specs.Prelude.{◌≡◌, ◌^◌, ◌<◌, length, OnOk};
ghost use Rattle.draw_report.specs.Plan.{AreThere};

use crate::limit::{Subjected, has_own_row};
use crate::mark::{Mark, Side, Spot};
use crate::plan::{Marked, Plan};
use crate::view::View;
use critical_paths::{At, Direction, Step};
use fixpoint_engine::Waves;
use flat_circuit::Pin;
use listing::{Piece, add_pieces};
use scald_base::{Bytes, NoMemory};
use std::alloc::Global;
use step_values::Value;
use wave_core::CyclicWave;

/// One side of a limit: its path with the pin that this leads to, and which side's pin that is.
/// Both ends of a pulse lead to the pin of the data.
#[derive(Clone, Copy)]
pub struct Way {
    pub side: Side,
    pub at: Option<At>,
    pub pin: Option<Pin>,
    pub pin_side: Side,
}

/// The value that a change is drawn as.
fn value_of(direction: Direction) -> Value {
    match direction {
        Direction::Rise => Value::R,
        Direction::Fall => Value::F,
        Direction::Change => Value::C,
    }
}

/// The other way round.
fn turned(direction: Direction, is_turned: bool) -> Direction {
    match (direction, is_turned) {
        (Direction::Rise, true) => Direction::Fall,
        (Direction::Fall, true) => Direction::Rise,
        (same, _) => same,
    }
}

/// A number as it is written, with its sign, after a text.
pub fn number_text(alloc: Global, front: &[u8], number: i64) -> Result<Bytes, NoMemory> {
    let sign: &[u8] = if number < 0 { b"-" } else { b"" };
    let parts = [
        Piece::Text(front),
        Piece::Text(sign),
        Piece::Number(number.unsigned_abs()),
    ];
    let mut text = Bytes::new(alloc);
    add_pieces(&mut text, &parts)?;
    Ok(text)
}

/// What stands beside a link: its tick, and the element with what it took, if one did.
fn link_text(
    of: Subjected,
    step: Step,
    tick: i64,
    is_first: bool,
    front: &[u8],
) -> Result<Bytes, NoMemory> {
    let mut text = number_text(of.sheet.alloc, front, tick)?;
    let (Some(passage), false) = (step.passage, is_first) else {
        return Ok(text);
    };
    if let Some(element) = of.sheet.circuit.driver_of(step.net) {
        let parts = [
            Piece::Text(b": "),
            Piece::Bit(element.path.as_slice(), element.bit),
            Piece::Text(b" "),
            Piece::Text(element.kind.name()),
            Piece::Text(b" +"),
            Piece::Number(passage.ticks().unsigned_abs()),
        ];
        add_pieces(&mut text, &parts)?;
    }
    Ok(text)
}

/// What stands beside a pin after its wire.
fn wire_text(of: Subjected, tick: i64, wire: u16, front: &[u8]) -> Result<Bytes, NoMemory> {
    let mut text = number_text(of.sheet.alloc, front, tick)?;
    if wire > 0 {
        let parts = [Piece::Text(b": wire "), Piece::Number(u64::from(wire))];
        add_pieces(&mut text, &parts)?;
    }
    Ok(text)
}

/// Where a change stands in a view; ticks before it stand at its begin.
fn spot(view: View, row: u32, tick: i64) -> Spot
    ensures { result.tick < 2 ^ 30 }
{
    let later = tick.saturating_add(i64::from(view.moved));
    Spot {
        row,
        tick: u32::try_from(later).unwrap_or(0).min(LAST_TICK),
    }
}

/// The last tick that is drawn.
const LAST_TICK: u32 = 1_073_741_823;

impl Way {
    /// The pin, if it has a row of its own.
    fn own_pin(self, of: Subjected) -> Option<Pin> {
        match self.pin {
            Some(pin) if has_own_row(of.sheet.circuit, pin) => Some(pin),
            _ => None,
        }
    }

    /// Adds the rows of the nets of the path, from its begin on.
    fn add_nets(self, of: Subjected, plan: &mut Plan) -> Result<(), NoMemory>
        requires { AreThere (length of.sheet.circuit.now.nets) plan.old.shown }
        ensures { OnOk result (AreThere (length of.entry.sheet.circuit.now.nets) plan.new.shown) }
    {
        let steps = of.steps(self.at)?;
        for step in steps.as_slice().iter().rev() {
            plan.add_net(of.sheet.circuit, step.net)?;
        }
        Ok(())
    }

    /// Adds the rows of the nets of the path, and of the pin.
    pub fn add_rows(self, of: Subjected, plan: &mut Plan) -> Result<(), NoMemory>
        requires { AreThere (length of.sheet.circuit.now.nets) plan.old.shown }
        ensures { OnOk result (AreThere (length of.entry.sheet.circuit.now.nets) plan.new.shown) }
    {
        self.add_nets(of, plan)?;
        match self.own_pin(of) {
            Some(pin) => plan.add_pin(of.sheet.circuit, self.pin_side, pin),
            None => Ok(()),
        }
    }

    /// Shows the ticks of the path.
    pub fn show<W: CyclicWave<Item = Value>>(
        self,
        of: Subjected,
        waves: &Waves<W>,
        plan: &mut Plan,
    ) -> Result<(), NoMemory>
        ensures { OnOk result (plan.new.shown ≡ plan.old.shown) }
    {
        let steps = of.steps(self.at)?;
        for step in steps.as_slice() {
            if (step.net as usize) < waves.len() {
                plan.show_step(waves.at(step.net), step.tick.saturating_add(of.moved));
            }
        }
        Ok(())
    }

    /// Adds a change, an arrow to it from the one before, and a note of what stands beside it.
    fn add_change(
        self,
        marked: &mut Marked,
        at: Spot,
        value: Value,
        before: Option<Spot>,
        text: Bytes,
    ) -> Result<(), NoMemory> {
        let side = self.side;
        marked.marks.push(Mark::Change { at, value, side })?;
        if let Some(from) = before {
            marked.marks.push(Mark::Arrow { from, to: at, side })?;
        }
        let text = marked.add_text(text)?;
        marked.notes.push(Mark::Note { at, text, side })
    }

    /// Adds the changes of the path, from its begin on, and gives the last.
    fn add_steps(
        self,
        of: Subjected,
        plan: &Plan,
        view: View,
        marked: &mut Marked,
        is_edge: bool,
    ) -> Result<Option<Spot>, NoMemory> {
        let steps = of.steps(self.at)?;
        let mut before = None;
        for (back, step) in steps.as_slice().iter().rev().enumerate() {
            if let Some(row) = plan.row_of_net(step.net) {
                let tick = step.tick.saturating_add(of.moved);
                let at = spot(view, row, tick);
                let is_last = back.saturating_add(1) == steps.len();
                let front: &[u8] = if is_edge && is_last { b"edge " } else { b"" };
                let text = link_text(of, *step, tick, back == 0, front)?;
                self.add_change(marked, at, value_of(step.direction), before, text)?;
                before = Some(at);
            }
        }
        Ok(before)
    }

    /// Adds the change of a pin that has a row of its own.
    fn add_pin(
        self,
        of: Subjected,
        at: At,
        pin: Pin,
        to: Spot,
        before: Option<Spot>,
        marked: &mut Marked,
    ) -> Result<(), NoMemory> {
        let steps = of.steps(Some(at))?;
        let Some(last) = steps.get(0) else {
            return Ok(());
        };
        let value = value_of(turned(last.direction, pin.inverted));
        let is_clock = self.pin_side == Side::Clock;
        let front: &[u8] = if is_clock { b"edge " } else { b"" };
        let text = wire_text(of, self.pin_tick(of, at), at.wire, front)?;
        self.add_change(marked, to, value, before, text)
    }

    /// The tick at which the pin changes.
    fn pin_tick(self, of: Subjected, at: At) -> i64 {
        at.tick
            .saturating_add(i64::from(at.wire))
            .saturating_add(of.moved)
    }

    /// Adds all changes: those of the path, and that of the pin.
    pub fn add_marks(
        self,
        of: Subjected,
        plan: &Plan,
        view: View,
        marked: &mut Marked,
    ) -> Result<(), NoMemory> {
        let own = self.own_pin(of);
        let is_edge = self.pin_side == Side::Clock && own.is_none();
        let before = self.add_steps(of, plan, view, marked, is_edge)?;
        let row = plan.row_of_pin(self.pin_side);
        let (Some(pin), Some(at), Some(row)) = (own, self.at, row) else {
            return Ok(());
        };
        let to = spot(view, row, self.pin_tick(of, at));
        self.add_pin(of, at, pin, to, before, marked)
    }
}

/// Where a tick stands in a view.
pub fn tick_in(view: View, tick: i64) -> u32
    ensures { result < 2 ^ 30 }
{
    spot(view, 0, tick).tick
}
