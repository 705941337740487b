//! One link back: from a step of an element's output to that of the net which makes it.

ghost use Rattle.std.specs.Prelude.{◌≡◌, ℕ, ◌+◌, ◌*◌, ◌<◌, ◌≤◌, length, slice_get, IfOk, None, Some, is_some, true, if◌then◌else◌};
ghost use Rattle.std.specs.Option.{option_and_then, option_map, option_or};
ghost use Rattle.scald_base.specs.Time.{period};
ghost use Rattle.flat_circuit.specs.declared.split.Split.{Split};
ghost use Rattle.fixpoint_engine.specs.Waves.{waves_of};
ghost use Rattle.critical_paths.specs.Tick.{IsWithin, most_tick, slot_of};
ghost use Rattle.critical_paths.specs.Path.{arc_in, arc_inward, asks, before as before_of_event, before_arc, cut as cut_of, if_word, inner_arc as inner_arc_of, is_bounded, is_tight};
ghost use Rattle.critical_paths.specs.Unfolded.{by_folds};
ghost use Rattle.critical_paths.specs.Views.{IsAskedOf, Sees, arc_off, arc_with_word, before_of, cause_with, delay_of_step, event_of, read_of};

use crate::cause::{Asked, Cause};
use crate::direction::Direction;
use crate::event::{Event, PinEvent, Reading, sooner};
use crate::path::{Passage, Word};
use crate::view::View;
use flat_circuit::{Instance, Pin};
use scald_base::{Delay, NoMemory};
use step_values::Value;
use wave_core::CyclicWave;

/// By what an event comes, and the event before it.
#[derive(Clone, Copy)]
pub struct Back {
    pub passage: Passage,
    pub event: Event,
}

/// A pin that makes a step, after which delay, and how surely.
#[derive(Clone, Copy)]
pub struct Arc {
    pub cause: Cause,
    pub delay: u16,
    pub word: Word,
}

/// The delay of steps of an element's own output, before its complement.
pub fn own_delay(element: &Instance, direction: Direction) -> Delay
    ensures { result ≡ delay_of_step element.now direction }
{
    match (element.split, direction) {
        (None, _) => element.delay,
        (Some(split), Direction::Rise) => split.rise,
        (Some(split), Direction::Fall) => split.fall,
        (Some(split), Direction::Change) => split.either(),
    }
}

/// The pin of an element that has this number.
pub fn pin_at(element: &Instance, number: u16) -> Option<Pin>
    ensures { result ≡ slice_get element.now.pins number }
{
    element.pins.get(usize::from(number)).copied()
}

/// How surely a pin makes a step by a delay that may be inside of its bounds.
fn word_by(is_inside: bool, word: Word) -> Word
    ensures { result ≡ (if is_inside then Word.Inside else word) }
{
    if is_inside { Word::Inside } else { word }
}

/// The pin that makes a step after a delay, which may be inside of its bounds.
fn arc_by(found: Option<(Cause, Word)>, delay: u16, is_inside: bool) -> Option<Arc>
    ensures { option_map arc_with_word result
        ≡ option_map (arc_off delay is_inside) (option_map cause_with found) }
{
    match found {
        Some((cause, word)) => Some(Arc {
            cause,
            delay,
            word: word_by(is_inside, word),
        }),
        None => None,
    }
}

/// The pin, if what makes the step ends there too.
pub(crate) fn tight(found: Option<Arc>) -> Option<Arc>
    ensures { option_map arc_with_word result ≡ if_word is_tight (option_map arc_with_word found) }
{
    match found {
        Some(arc) if matches!(arc.word, Word::Tight) => Some(arc),
        _ => None,
    }
}

/// The pin, if what ends there makes no step.
fn bounded(found: Option<Arc>) -> Option<Arc>
    ensures { option_map arc_with_word result
        ≡ if_word is_bounded (option_map arc_with_word found) }
{
    match found {
        Some(arc) if matches!(arc.word, Word::Bounded(_)) => Some(arc),
        _ => None,
    }
}

/// The first of two pins that ends there: one that makes the step, or else one that does not.
fn firm(rise: Option<Arc>, fall: Option<Arc>) -> Option<Arc>
    ensures { let r = option_map arc_with_word rise in let f = option_map arc_with_word fall in
        option_map arc_with_word result
        ≡ option_or (option_or (if_word is_tight r) (if_word is_tight f))
        (option_or (if_word is_bounded r) (if_word is_bounded f)) }
{
    let making = tight(rise).or(tight(fall));
    let bounding = bounded(rise).or(bounded(fall));
    making.or(bounding)
}

/// What an event comes by, if the event before it is read by folds.
pub fn folded(found: Option<Back>) -> Option<Back>
    ensures { (p : ℕ) →
        option_map (read_of p) result ≡ option_map by_folds (option_map (before_of p) found) }
{
    let Back { passage, event } = found?;
    Some(Back {
        passage,
        event: Event {
            reading: Reading::Folded,
            ..event
        },
    })
}

impl<'a, W: CyclicWave<Item = Value>> View<'a, W> {
    /// What makes a step after a delay so many ticks inside of its bound.
    pub fn arc_at(&self, asked: Asked, delay: Delay, by: u16) -> Result<Option<Arc>, NoMemory>
        requires sees { Sees self.now.circuit.now self.now.waves.now self.now.hazards.now }
        requires is { slice_get self.now.circuit.now.instances asked.number
            ≡ Some asked.element.now }
        requires tick { IsWithin (2 * most_tick) asked.tick }
        requires within { delay.min + by ≤ delay.max }
        ensures { let c = self.now.circuit.now in IfOk result
            (λ found. option_map arc_with_word found
            ≡ arc_inward c (waves_of self.now.waves.now) asked.entry.element.now asked.entry.corner
            asked.entry.direction (slot_of (period c.header) asked.entry.tick) delay by) }
    {
        self.circuit.header().known();
        delay.known();
        let late = asked.corner.inside(delay, by);
        let earlier = asked.earlier(asked.direction, late);
        let found = self.cause(earlier)?;
        Ok(arc_by(found, late, by > 0))
    }

    /// What makes a step after a delay, at its bound or as near to it as there is something.
    pub fn arc(&self, asked: Asked, delay: Delay) -> Result<Option<Arc>, NoMemory>
        requires sees { Sees self.now.circuit.now self.now.waves.now self.now.hazards.now }
        requires is { slice_get self.now.circuit.now.instances asked.number
            ≡ Some asked.element.now }
        requires tick { IsWithin (2 * most_tick) asked.tick }
        ensures { let c = self.now.circuit.now in IfOk result
            (λ found. option_map arc_with_word found
            ≡ arc_in c (waves_of self.now.waves.now) asked.entry.element.now asked.entry.corner
            asked.entry.direction (slot_of (period c.header) asked.entry.tick) delay) }
    {
        self.circuit.header().known();
        delay.known();
        for by in 0..self.choices(delay) {
            let found = self.arc_at(asked, delay, by)?;
            if found.is_some() {
                return Ok(found);
            }
        }
        Ok(None)
    }

    /// The event of the net behind the pin that makes a step.
    pub fn through(&self, asked: Asked, arc: Arc) -> Option<Back>
        requires sees { Sees self.now.circuit.now self.now.waves.now self.now.hazards.now }
        requires is { slice_get self.now.circuit.now.instances asked.number
            ≡ Some asked.element.now }
        requires tick { IsWithin (2 * most_tick) asked.tick }
        ensures { let c = self.now.circuit.now in option_map (before_of (period c.header)) result
            ≡ before_arc c (waves_of self.now.waves.now) asked.entry.element.now asked.entry.corner
            (slot_of (period c.header) asked.entry.tick) (arc_with_word arc) }
    {
        self.circuit.header().known();
        let pin = pin_at(asked.element, arc.cause.pin)?;
        let behind = self.behind(PinEvent {
            pin,
            direction: arc.cause.direction,
            tick: sooner(asked.tick, arc.delay),
            corner: asked.corner,
        })?;
        Some(Back {
            passage: Passage::Through {
                pin: arc.cause.pin,
                wire: behind.wire,
                delay: arc.delay,
                word: word_by(behind.is_inside, arc.word),
            },
            event: behind.event,
        })
    }

    /// The same of a pin, if there is one.
    pub fn through_some(&self, asked: Asked, found: Option<Arc>) -> Option<Back>
        requires sees { Sees self.now.circuit.now self.now.waves.now self.now.hazards.now }
        requires is { slice_get self.now.circuit.now.instances asked.number
            ≡ Some asked.element.now }
        requires tick { IsWithin (2 * most_tick) asked.tick }
        ensures { let c = self.now.circuit.now in option_map (before_of (period c.header)) result
            ≡ option_and_then (before_arc c
            (waves_of self.now.waves.now) asked.entry.element.now asked.entry.corner
            (slot_of (period c.header) asked.entry.tick)) (option_map arc_with_word found) }
    {
        self.through(asked, found?)
    }

    /// What makes steps of one of two directions at the bound of their own delay, if they are
    /// asked for.
    pub(crate) fn step_arc(&self, asked: Asked, step: Direction) -> Result<Option<Arc>, NoMemory>
        requires sees { Sees self.now.circuit.now self.now.waves.now self.now.hazards.now }
        requires is { slice_get self.now.circuit.now.instances asked.number
            ≡ Some asked.element.now }
        requires tick { IsWithin (2 * most_tick) asked.tick }
        ensures { let c = self.now.circuit.now in let j = asked.entry.element.now in
            IfOk result (λ found. option_map arc_with_word found
            ≡ (if asks asked.entry.direction step
            then arc_inward c (waves_of self.now.waves.now) j asked.entry.corner step
            (slot_of (period c.header) asked.entry.tick) (delay_of_step j step) 0
            else None)) }
    {
        if !asked.direction.has(step) {
            return Ok(None);
        }
        let delay = own_delay(asked.element, step);
        delay.known();
        let towards = asked.towards(step);
        let found = self.arc_at(towards, delay, 0)?;
        Ok(found)
    }

    /// The same inside of its bounds too.
    fn inner_step(&self, asked: Asked, step: Direction) -> Result<Option<Arc>, NoMemory>
        requires sees { Sees self.now.circuit.now self.now.waves.now self.now.hazards.now }
        requires is { slice_get self.now.circuit.now.instances asked.number
            ≡ Some asked.element.now }
        requires tick { IsWithin (2 * most_tick) asked.tick }
        ensures { let c = self.now.circuit.now in let j = asked.entry.element.now in
            IfOk result (λ found. option_map arc_with_word found
            ≡ (if asks asked.entry.direction step
            then arc_in c (waves_of self.now.waves.now) j asked.entry.corner step
            (slot_of (period c.header) asked.entry.tick) (delay_of_step j step)
            else None)) }
    {
        if !asked.direction.has(step) {
            return Ok(None);
        }
        let delay = own_delay(asked.element, step);
        let towards = asked.towards(step);
        let found = self.arc(towards, delay)?;
        Ok(found)
    }

    /// The first that makes the step inside of the bounds of one of two delays.
    fn inner_arc(&self, asked: Asked) -> Result<Option<Arc>, NoMemory>
        requires sees { Sees self.now.circuit.now self.now.waves.now self.now.hazards.now }
        requires is { slice_get self.now.circuit.now.instances asked.number
            ≡ Some asked.element.now }
        requires tick { IsWithin (2 * most_tick) asked.tick }
        ensures { let c = self.now.circuit.now in let j = asked.entry.element.now in
            let inner = inner_arc_of c (waves_of self.now.waves.now) j asked.entry.corner
            asked.entry.direction (slot_of (period c.header) asked.entry.tick) in
            (s : Split) → j.split ≡ Some s →
            IfOk result (λ found. option_map arc_with_word found
            ≡ option_or (inner s Direction.Rise) (inner s Direction.Fall)) }
    {
        let rise = self.inner_step(asked, Direction::Rise)?;
        if rise.is_some() {
            return Ok(rise);
        }
        let fall = self.inner_step(asked, Direction::Fall)?;
        Ok(fall)
    }

    /// What goes on at the bound of its delay, or else what is inside of the bounds.
    fn free(
        &self,
        asked: Asked,
        rise: Option<Arc>,
        fall: Option<Arc>,
    ) -> Result<Option<Arc>, NoMemory>
        requires sees { Sees self.now.circuit.now self.now.waves.now self.now.hazards.now }
        requires is { slice_get self.now.circuit.now.instances asked.number
            ≡ Some asked.element.now }
        requires tick { IsWithin (2 * most_tick) asked.tick }
        ensures { let c = self.now.circuit.now in let j = asked.entry.element.now in
            let inner = inner_arc_of c (waves_of self.now.waves.now) j asked.entry.corner
            asked.entry.direction (slot_of (period c.header) asked.entry.tick) in
            (s : Split) → j.split ≡ Some s →
            IfOk result (λ found. option_map arc_with_word found
            ≡ option_or (option_or (option_map arc_with_word rise) (option_map arc_with_word fall))
            (option_or (inner s Direction.Rise) (inner s Direction.Fall))) }
    {
        let found = rise.or(fall);
        if found.is_some() {
            return Ok(found);
        }
        let inner = self.inner_arc(asked)?;
        Ok(inner)
    }

    /// What ends at its bound, if there is such a thing, or else what cuts an event short, or else
    /// what goes on, or is inside of the bounds.
    fn or_else(
        &self,
        asked: Asked,
        event: Event,
        ended: Option<Back>,
        steps: (Option<Arc>, Option<Arc>),
    ) -> Result<Option<Back>, NoMemory>
        requires sees { Sees self.now.circuit.now self.now.waves.now self.now.hazards.now }
        requires is { slice_get self.now.circuit.now.instances asked.number
            ≡ Some asked.element.now }
        requires net { event.net < length self.now.circuit.now.nets }
        requires asked { IsWithin most_tick asked.tick }
        requires tick { IsWithin most_tick event.tick }
        ensures { let c = self.now.circuit.now in let ws = waves_of self.now.waves.now in
            let j = asked.entry.element.now in let corner = asked.entry.corner in
            let q = slot_of (period c.header) asked.entry.tick in
            let inner = inner_arc_of c ws j corner asked.entry.direction q in
            let noted = option_map arc_with_word in
            (s : Split) → j.split ≡ Some s →
            IfOk result (λ found. option_map (before_of (period c.header)) found
            ≡ option_or (option_map (before_of (period c.header)) ended)
            (option_or (cut_of c ws j corner (event_of (period c.header) event)
            asked.entry.direction s)
            (option_and_then (before_arc c ws j corner q)
            (option_or (option_or (noted steps.0) (noted steps.1))
            (option_or (inner s Direction.Rise) (inner s Direction.Fall)))))) }
    {
        if ended.is_some() {
            return Ok(ended);
        }
        let cut = self.cut(asked, event)?;
        if cut.is_some() {
            return Ok(cut);
        }
        let free = self.free(asked, steps.0, steps.1)?;
        let rest = self.through_some(asked, free);
        Ok(rest)
    }

    /// What makes an event through one of two delays: what ends at its bound, or else what cuts it
    /// short, or else what goes on, or is inside of the bounds.
    fn back_by_two(&self, asked: Asked, event: Event) -> Result<Option<Back>, NoMemory>
        requires sees { Sees self.now.circuit.now self.now.waves.now self.now.hazards.now }
        requires is { slice_get self.now.circuit.now.instances asked.number
            ≡ Some asked.element.now }
        requires net { event.net < length self.now.circuit.now.nets }
        requires tick { IsWithin most_tick asked.tick }
        requires event { IsAskedOf asked.tick asked.corner asked.direction asked.element.now event }
        requires two { is_some asked.element.now.split ≡ true }
        ensures { let c = self.now.circuit.now in IfOk result
            (λ found. option_map (before_of (period c.header)) found
            ≡ before_of_event c (waves_of self.now.waves.now) asked.entry.corner
            (event_of (period c.header) event)
            asked.entry.element.now) }
    {
        let rise = self.step_arc(asked, Direction::Rise)?;
        let fall = self.step_arc(asked, Direction::Fall)?;
        let firm = firm(rise, fall);
        let ended = self.through_some(asked, firm);
        let found = self.or_else(asked, event, ended, (rise, fall))?;
        Ok(found)
    }

    /// By what an event of an element's output comes, or `None` if nothing makes it.
    pub fn back(&self, asked: Asked, event: Event) -> Result<Option<Back>, NoMemory>
        requires sees { Sees self.now.circuit.now self.now.waves.now self.now.hazards.now }
        requires is { slice_get self.now.circuit.now.instances asked.number
            ≡ Some asked.element.now }
        requires net { event.net < length self.now.circuit.now.nets }
        requires tick { IsWithin most_tick asked.tick }
        requires event { IsAskedOf asked.tick asked.corner asked.direction asked.element.now event }
        ensures { let c = self.now.circuit.now in IfOk result
            (λ found. option_map (before_of (period c.header)) found
            ≡ before_of_event c (waves_of self.now.waves.now) asked.entry.corner
            (event_of (period c.header) event)
            asked.entry.element.now) }
    {
        if asked.element.split.is_some() {
            let found = self.back_by_two(asked, event)?;
            return Ok(found);
        }
        let arc = self.arc(asked, asked.element.delay)?;
        let found = self.through_some(asked, arc);
        Ok(found)
    }
}
