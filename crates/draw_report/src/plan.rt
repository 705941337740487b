//! A picture that is being put together: its rows, and the ticks that it shows.

ghost use Rattle.std.specs.Prelude.{◌≡◌, ◌++◌, ◌<◌, ◌≤◌, [], length, map, IfOk, IsTrue, OnOk};
ghost use Rattle.fixpoint_engine.specs.Waves.{FitWaves, waves_of};
ghost use Rattle.flat_circuit.specs.Instances.{TargetExists};
ghost use Rattle.listing.specs.Piece.{piece_text};
ghost use Rattle.draw_report.specs.View.{IsView};
ghost use Rattle.draw_report.specs.Plan.{AreThere, IsThere, pin_text, shown_text, shown_wave, sign_text, target_text, wire_text};

use crate::mark::{Mark, Side};
use crate::view::View;
use fixpoint_engine::{Waves, pin_wave, wire_behind};
use flat_circuit::{Circuit, Pin, Target};
use listing::{Piece, add_pieces, net_piece};
use scald_base::{Bytes, Delay, List, NoMemory};
use skew_algebra::Skewed;
use std::alloc::Global;
use step_values::Value;
use wave_core::{Cell, CyclicWave};

/// What a row shows: a net, or the pin of a side with the wave that its checker sees.
#[derive(Clone, Copy)]
pub enum Shown {
    Net(u32),
    Pin(Side, Pin),
}

/// The rows from above, and the ticks that are to be shown.
#[derive(Drop)]
pub struct Plan {
    pub shown: List<Shown>,
    pub first: i64,
    pub last: i64,
}

/// Marks with their texts, how many of them are distances, and notes that are to stand over them.
#[derive(Drop)]
pub struct Marked {
    pub marks: List<Mark>,
    pub notes: List<Mark>,
    pub texts: List<Bytes>,
    pub distances: u32,
}

// ---- labels and waves

/// What stands before the name of a net that is complemented.
fn sign(inverted: bool) -> &'static [u8]
    ensures { result.now ≡ sign_text inverted }
{
    if inverted { b"-" } else { b"" }
}

/// What a pin is on.
fn target_piece(c: &Circuit, target: Target) -> Piece<'_>
    ensures { piece_text result ≡ target_text c.now target }
{
    match target {
        Target::Net(net) => net_piece(c, net),
        Target::Constant(true) => Piece::Number(1),
        Target::Constant(false) => Piece::Number(0),
    }
}

/// Adds a wire, if there is one.
fn add_wire(label: &mut Bytes, wire: Delay) -> Result<(), NoMemory>
    ensures { OnOk result (label.new ≡ label.old ++ wire_text wire) }
{
    if wire.max == 0 {
        return Ok(());
    }
    add_pieces(
        label,
        &[
            Piece::Text(b" wire "),
            Piece::Number(u64::from(wire.min)),
            Piece::Text(b":"),
            Piece::Number(u64::from(wire.max)),
        ],
    )
}

/// Adds a pin: its net, complemented or not, and the delay of its wire.
fn add_pin_text(label: &mut Bytes, c: &Circuit, pin: Pin) -> Result<(), NoMemory>
    ensures { OnOk result (label.new ≡ label.old ++ pin_text c.now pin) }
{
    let on = target_piece(c, pin.target);
    add_pieces(label, &[Piece::Text(sign(pin.inverted)), on])?;
    add_wire(label, wire_behind(c, pin.target))
}

/// Whether there is what a pin is on.
fn is_there(c: &Circuit, target: Target) -> bool
    ensures { IsTrue result → TargetExists (length c.now.nets) target }
{
    match target {
        Target::Net(net) => net < c.net_count(),
        Target::Constant(_) => true,
    }
}

/// The label of a row.
fn label_of(alloc: Global, c: &Circuit, shown: Shown) -> Result<Bytes, NoMemory>
    ensures { IfOk result (λ label. label ≡ shown_text c.now shown) }
{
    let mut label = Bytes::new(alloc);
    match shown {
        Shown::Net(net) => add_pieces(&mut label, &[net_piece(c, net)])?,
        Shown::Pin(_, pin) => add_pin_text(&mut label, c, pin)?,
    }
    Ok(label)
}

/// The labels of rows.
pub fn shown_labels(alloc: Global, c: &Circuit, shown: &[Shown]) -> Result<List<Bytes>, NoMemory>
    ensures { IfOk result (λ labels. labels ≡ map (shown_text c.now) shown.now) }
{
    let mut labels = List::new(alloc);
    for one in shown {
        labels.push(label_of(alloc, c, *one)?)?;
    }
    Ok(labels)
}

/// The wave of a row.
fn wave_of<W: CyclicWave<Item = Value>>(
    alloc: Global,
    c: &Circuit,
    waves: &Waves<W>,
    shown: Shown,
) -> Result<Skewed<W>, NoMemory>
    requires fit { FitWaves c.now waves.now }
    requires there { IsThere (length c.now.nets) shown }
    ensures { IfOk result (λ wave. wave ≡ shown_wave c.now (waves_of waves.now) shown) }
{
    match shown {
        Shown::Net(net) => waves.at(net).copy(alloc),
        Shown::Pin(_, pin) => pin_wave(alloc, c, waves, pin),
    }
}

/// The waves of rows.
pub fn shown_waves<W: CyclicWave<Item = Value>>(
    alloc: Global,
    c: &Circuit,
    waves: &Waves<W>,
    shown: &[Shown],
) -> Result<List<Skewed<W>>, NoMemory>
    requires fit { FitWaves c.now waves.now }
    requires there { AreThere (length c.now.nets) shown.now }
    ensures { IfOk result (λ some.
        some ≡ map (shown_wave c.now (waves_of waves.now)) shown.now) }
{
    let mut some = List::new(alloc);
    for one in shown {
        some.push(wave_of(alloc, c, waves, *one)?)?;
    }
    Ok(some)
}

/// The number of a place, of which there are fewer than 4,294,967,296.
pub fn place_number(place: usize) -> u32 {
    u32::try_from(place).unwrap_or(u32::MAX)
}

// ---- where a wave may step

/// The slot of a tick of any period.
fn slot_of(tick: i64, period: u16) -> u16
    requires { 1 ≤ period }
    ensures { result < period }
{
    tick.rem_euclid(i64::from(period)) as u16
}

/// Whether a wave may step in the slot that ends at a tick of any period.
fn is_busy<W: CyclicWave<Item = Value>>(wave: &Skewed<W>, tick: i64) -> bool {
    wave.known();
    !wave.fold_at(slot_of(tick, wave.period())).quiet()
}

/// How many slots from a tick on a wave may step in, at most so many: those after it if the step is
/// 1, and those before it if the step is -1.
fn busy_from<W: CyclicWave<Item = Value>>(
    wave: &Skewed<W>,
    tick: i64,
    step: i64,
    most: u16,
) -> u16 {
    let mut at = tick;
    for count in 0..most {
        at = at.saturating_add(step);
        if !is_busy(wave, at) {
            return count;
        }
    }
    most
}

/// The least number of whole periods, in ticks, that makes a tick 0 or later.
fn periods_to_zero(tick: i64, period: u16) -> i64
    requires { 1 ≤ period }
{
    if tick >= 0 {
        return 0;
    }
    let period = i64::from(period);
    let lacks = tick.saturating_abs();
    match lacks.rem_euclid(period) {
        0 => lacks,
        past => lacks.saturating_add(period.saturating_sub(past)),
    }
}

/// The most slots of a view.
const MOST_SLOTS: u32 = 1_048_576;

/// The last slot at which a view begins.
const LAST_FIRST: u32 = 536_870_912;

/// A number that is 0 or more, and at most so many.
fn within(number: i64, most: u32) -> u32
    ensures { result ≤ most }
{
    u32::try_from(number.max(0)).unwrap_or(most).min(most)
}

impl Plan {
    /// No rows, about a tick.
    pub fn new(alloc: Global, at: i64) -> Plan
        ensures { result.shown ≡ [] }
    {
        Plan {
            shown: List::new(alloc),
            first: at,
            last: at,
        }
    }

    /// The row of a net.
    pub fn row_of_net(&self, net: u32) -> Option<u32> {
        for (place, shown) in self.shown.as_slice().iter().enumerate() {
            match shown {
                Shown::Net(of) if *of == net => return Some(place_number(place)),
                Shown::Net(_) | Shown::Pin(..) => {}
            }
        }
        None
    }

    /// The row of the pin of a side.
    pub fn row_of_pin(&self, side: Side) -> Option<u32> {
        for (place, shown) in self.shown.as_slice().iter().enumerate() {
            match shown {
                Shown::Pin(of, _) if *of == side => return Some(place_number(place)),
                Shown::Net(_) | Shown::Pin(..) => {}
            }
        }
        None
    }

    /// The row of a net, if there is such a net, and no row of it yet.
    pub fn add_net(&mut self, c: &Circuit, net: u32) -> Result<(), NoMemory>
        requires { AreThere (length c.now.nets) self.old.shown }
        ensures { OnOk result (AreThere (length c.now.nets) self.new.shown) }
    {
        if net >= c.net_count() || self.row_of_net(net).is_some() {
            return Ok(());
        }
        self.shown.push(Shown::Net(net))
    }

    /// The row of the pin of a side, if there is such a pin.
    pub fn add_pin(&mut self, c: &Circuit, side: Side, pin: Pin) -> Result<(), NoMemory>
        requires { AreThere (length c.now.nets) self.old.shown }
        ensures { OnOk result (AreThere (length c.now.nets) self.new.shown) }
    {
        if !is_there(c, pin.target) {
            return Ok(());
        }
        self.shown.push(Shown::Pin(side, pin))
    }

    /// A tick that is to be shown.
    pub fn show(&mut self, tick: i64)
        ensures { self.new.shown ≡ self.old.shown }
    {
        self.first = self.first.min(tick);
        self.last = self.last.max(tick);
    }

    /// A tick of a wave that is to be shown, with the slots beside it in which the wave may step.
    pub fn show_step<W: CyclicWave<Item = Value>>(&mut self, wave: &Skewed<W>, tick: i64)
        ensures { self.new.shown ≡ self.old.shown }
    {
        let most = wave.period() / 8;
        let before = busy_from(wave, tick, -1, most);
        let after = busy_from(wave, tick, 1, most);
        self.show(tick.saturating_sub(i64::from(before)));
        self.show(tick.saturating_add(i64::from(after)));
    }

    /// The view of the ticks that are to be shown, with room on both sides: as many periods later
    /// as make it begin at slot 0 or later.
    pub fn view(&self, period: u16, unit: u16) -> View
        requires period { 1 ≤ period }
        requires unit { 1 ≤ unit }
        ensures { IsView result }
    {
        let wide = self.last.saturating_sub(self.first);
        let lacks = (i64::from(unit) / 2).saturating_sub(wide).saturating_add(1) / 2;
        let room = (wide / 6).max(lacks).max(3);
        let begin = self.first.saturating_sub(room).saturating_add(1);
        let count = wide.saturating_add(room.saturating_mul(2));
        let moved = periods_to_zero(begin, period);
        View {
            first: within(begin.saturating_add(moved), LAST_FIRST),
            count: within(count, MOST_SLOTS).max(1),
            period,
            unit,
            moved: within(moved, LAST_FIRST),
        }
    }
}

impl Marked {
    /// No marks.
    pub fn new(alloc: Global) -> Marked {
        Marked {
            marks: List::new(alloc),
            notes: List::new(alloc),
            texts: List::new(alloc),
            distances: 0,
        }
    }

    /// Puts the notes over the marks so far.
    pub fn put_notes(&mut self) -> Result<(), NoMemory> {
        for place in 0..self.notes.len() {
            if let Some(note) = self.notes.get(place).copied() {
                self.marks.push(note)?;
            }
        }
        Ok(())
    }

    /// A text, by its number.
    pub fn add_text(&mut self, text: Bytes) -> Result<usize, NoMemory> {
        let number = self.texts.len();
        self.texts.push(text)?;
        Ok(number)
    }
}
