//! What cuts a step of an output short if rises and falls have delays of their own.

ghost use Rattle.std.specs.Prelude.{◌≡◌, ◌-◌, ◌*◌, ℤ, ◌-ℤ◌, ◌<◌, length, slice_get, IfOk, None, Some, true, if◌then◌else◌};
ghost use Rattle.std.specs.Option.{option_map};
ghost use Rattle.scald_base.specs.Time.{period};
ghost use Rattle.flat_circuit.specs.declared.split.Split.{Split};
ghost use Rattle.fixpoint_engine.specs.Waves.{waves_of};
ghost use Rattle.critical_paths.specs.Tick.{IsWithin, most_tick, slot_of};
ghost use Rattle.critical_paths.specs.Event.{is_step, turned};
ghost use Rattle.critical_paths.specs.Path.{cut as cut_of, cut_at, cut_off, cut_own, is_cut_by};
ghost use Rattle.critical_paths.specs.Views.{Sees, before_of, cut_near, event_of};

use crate::back::{Back, tight};
use crate::cause::Asked;
use crate::direction::Direction;
use crate::event::Event;
use crate::path::Passage;
use crate::view::View;
use scald_base::NoMemory;
use step_values::Value;
use wave_core::CyclicWave;

/// The other step of a net, if it cuts one short.
fn cut_by_event(is_cut: bool, late: i8, event: Event) -> Option<Back>
    ensures { result ≡ (if is_cut then Some
        (record { passage = Passage.Cut late; event = event }) else None) }
{
    if is_cut {
        let passage = Passage::Cut(late);
        Some(Back { passage, event })
    } else {
        None
    }
}

/// The tick so many ticks before one.
fn beside(tick: i64, late: i8) -> i64
    requires { IsWithin most_tick tick }
    ensures is { result ≡ tick -ℤ late }
    ensures near { IsWithin (2 * most_tick) result }
{
    tick - i64::from(late)
}

impl<'a, W: CyclicWave<Item = Value>> View<'a, W> {
    /// Whether the step that is asked for may come there, and ends at the bound of its own delay.
    fn cuts(&self, asked: Asked, net: u32) -> Result<bool, NoMemory>
        requires sees { Sees self.now.circuit.now self.now.waves.now self.now.hazards.now }
        requires is { slice_get self.now.circuit.now.instances asked.number
            ≡ Some asked.element.now }
        requires net { net < length self.now.circuit.now.nets }
        requires tick { IsWithin (2 * most_tick) asked.tick }
        requires step { is_step asked.direction ≡ true }
        ensures { let c = self.now.circuit.now in let j = asked.entry.element.now in
            (s : Split) → (after : ℤ) → j.split ≡ Some s →
            IfOk result (λ may. may ≡ is_cut_by c
            (waves_of self.now.waves.now) j asked.entry.corner s
            (cut_off net (turned j.out_inverted asked.entry.direction) after
            (slot_of (period c.header) asked.entry.tick))) }
    {
        let direction = asked.direction.turned(asked.element.out_inverted);
        if !self.permits(net, direction, asked.tick) {
            return Ok(false);
        }
        let found = self.step_arc(asked, asked.direction)?;
        let making = tight(found);
        Ok(making.is_some())
    }

    /// The other step of a net so many ticks before one, if it cuts that one short.
    fn cutter_at(
        &self,
        asked: Asked,
        event: Event,
        other: Direction,
        late: i8,
    ) -> Result<Option<Back>, NoMemory>
        requires sees { Sees self.now.circuit.now self.now.waves.now self.now.hazards.now }
        requires is { slice_get self.now.circuit.now.instances asked.number
            ≡ Some asked.element.now }
        requires net { event.net < length self.now.circuit.now.nets }
        requires tick { IsWithin most_tick event.tick }
        requires other { is_step other ≡ true }
        ensures { let c = self.now.circuit.now in let j = asked.entry.element.now in
            (s : Split) → j.split ≡ Some s →
            IfOk result (λ found. option_map (before_of (period c.header)) found
            ≡ cut_at c (waves_of self.now.waves.now) j asked.entry.corner s
            (cut_off event.net (turned j.out_inverted other) late
            (slot_of (period c.header) (event.tick -ℤ late)))) }
    {
        let tick = beside(event.tick, late);
        let cutting = asked.at(other, tick);
        let is_cut = self.cuts(cutting, event.net)?;
        let direction = other.turned(asked.element.out_inverted);
        let there = event.at(direction, tick);
        Ok(cut_by_event(is_cut, late, there))
    }

    /// What cuts a step short: the other step, at the tick or beside it.
    fn cutter_near(
        &self,
        asked: Asked,
        event: Event,
        other: Direction,
    ) -> Result<Option<Back>, NoMemory>
        requires sees { Sees self.now.circuit.now self.now.waves.now self.now.hazards.now }
        requires is { slice_get self.now.circuit.now.instances asked.number
            ≡ Some asked.element.now }
        requires net { event.net < length self.now.circuit.now.nets }
        requires tick { IsWithin most_tick event.tick }
        requires other { is_step other ≡ true }
        ensures { let c = self.now.circuit.now in let j = asked.entry.element.now in
            (s : Split) → j.split ≡ Some s →
            IfOk result (λ found. option_map (before_of (period c.header)) found
            ≡ cut_near c (waves_of self.now.waves.now) j asked.entry.corner event.net event.tick s
            (turned j.out_inverted other)) }
    {
        let here = self.cutter_at(asked, event, other, 0)?;
        if here.is_some() {
            return Ok(here);
        }
        let before = self.cutter_at(asked, event, other, 1)?;
        if before.is_some() {
            return Ok(before);
        }
        let after = self.cutter_at(asked, event, other, -1)?;
        Ok(after)
    }

    /// The same of one of two steps, if it is asked for.
    fn cutter(&self, asked: Asked, event: Event, step: Direction) -> Result<Option<Back>, NoMemory>
        requires sees { Sees self.now.circuit.now self.now.waves.now self.now.hazards.now }
        requires is { slice_get self.now.circuit.now.instances asked.number
            ≡ Some asked.element.now }
        requires net { event.net < length self.now.circuit.now.nets }
        requires tick { IsWithin most_tick event.tick }
        requires step { is_step step ≡ true }
        ensures { let c = self.now.circuit.now in
            (s : Split) → asked.entry.element.now.split ≡ Some s →
            IfOk result (λ found. option_map (before_of (period c.header)) found
            ≡ cut_own c (waves_of self.now.waves.now) asked.entry.element.now asked.entry.corner
            (event_of (period c.header) event) asked.entry.direction s step) }
    {
        if !asked.direction.has(step) {
            return Ok(None);
        }
        self.circuit.header().known();
        let other = step.turned(true);
        let found = self.cutter_near(asked, event, other)?;
        Ok(found)
    }

    /// The same of either: a fall cuts a rise short, and a rise a fall.
    pub(crate) fn cut(&self, asked: Asked, event: Event) -> Result<Option<Back>, NoMemory>
        requires sees { Sees self.now.circuit.now self.now.waves.now self.now.hazards.now }
        requires is { slice_get self.now.circuit.now.instances asked.number
            ≡ Some asked.element.now }
        requires net { event.net < length self.now.circuit.now.nets }
        requires tick { IsWithin most_tick event.tick }
        ensures { let c = self.now.circuit.now in
            (s : Split) → asked.entry.element.now.split ≡ Some s →
            IfOk result (λ found. option_map (before_of (period c.header)) found
            ≡ cut_of c (waves_of self.now.waves.now) asked.entry.element.now asked.entry.corner
            (event_of (period c.header) event) asked.entry.direction s) }
    {
        let by_fall = self.cutter(asked, event, Direction::Rise)?;
        if by_fall.is_some() {
            return Ok(by_fall);
        }
        let by_rise = self.cutter(asked, event, Direction::Fall)?;
        Ok(by_rise)
    }
}
