//! One link back from an end of a pulse, in waves whose skew is not folded in: the begin is late,
//! the end early.

ghost use Rattle.std.specs.Prelude.{◌≡◌, ◌+◌, ◌<◌, ◌≤◌, ◌*◌, ◌||◌, length, slice_get, IfOk, IfSome, None, Some, is_some, if◌then◌else◌};
ghost use Rattle.std.specs.Option.{option_and_then, option_map, option_or};
ghost use Rattle.scald_base.specs.Time.{period};
ghost use Rattle.gate_eval.specs.Hold.{first_some};
ghost use Rattle.fixpoint_engine.specs.Waves.{waves_of};
ghost use Rattle.critical_paths.specs.Path.{choices, is_tight};
ghost use Rattle.critical_paths.specs.Cause.{held_pin as held_of_all};
ghost use Rattle.critical_paths.specs.Tick.{IsWithin, most_tick, slot_of};
ghost use Rattle.critical_paths.specs.Unfolded.{before_many, end_delay as end_delay_of, end_word as end_word_of, is_moving as is_moving_pin, mover as mover_of, one_of, open_arc, open_before, open_cause, read_by, same_if_tight, with_word};
ghost use Rattle.critical_paths.specs.Views.{Sees, arc_of, arc_with_word, end_asked, read_of};

use crate::back::{Arc, Back, folded, own_delay, pin_at};
use crate::cause::{Asked, Cause, made_by};
use crate::direction::Direction;
use crate::event::{Event, Reading, sooner};
use crate::path::{Passage, Word};
use crate::view::{View, is_heard};
use fixpoint_engine::wire_behind;
use flat_circuit::{Instance, Pin, Target};
use scald_base::{Delay, NoMemory};
use step_values::Value;
use wave_core::CyclicWave;

/// The delay that an end takes: of one delay the least at both ends, of two what is asked for.
fn end_delay(element: &Instance, direction: Direction) -> Delay
    ensures { result ≡ end_delay_of element.now.delay direction element.now.split }
{
    let delay = own_delay(element, direction);
    delay.known();
    if element.split.is_some() {
        delay
    } else {
        Delay {
            min: delay.min,
            max: delay.min,
        }
    }
}

/// How it is told by a delay so many ticks inside of its bound.
fn end_word(element: &Instance, by: u16) -> Word
    ensures { result ≡ end_word_of element.now.split by }
{
    if element.split.is_none() {
        Word::Same
    } else if by > 0 {
        Word::Inside
    } else {
        Word::Tight
    }
}

/// The word of a link that ends at the bound of a delay which is the same at both ends.
fn same(word: Word) -> Word
    ensures { result ≡ (if is_tight word then Word.Same else word) }
{
    if matches!(word, Word::Tight) {
        Word::Same
    } else {
        word
    }
}

/// How it is told through one of several pins: by one delay it is the same at both ends.
fn many_word(element: &Instance, word: Word) -> Word
    ensures { result ≡ same_if_tight element.now.split word }
{
    if element.split.is_some() {
        word
    } else {
        same(word)
    }
}

/// The pin, as it is told through one of several.
fn many_arc(element: &Instance, found: Option<Arc>) -> Option<Arc>
    ensures { option_map arc_with_word result
        ≡ option_map (with_word element.now.split) (option_map arc_with_word found) }
{
    let arc = found?;
    let word = many_word(element, arc.word);
    Some(Arc { word, ..arc })
}

/// Of two directions the rise.
fn one_of(rises: bool, falls: bool) -> Option<Direction>
    ensures { result ≡ one_of rises falls }
{
    match (rises, falls) {
        (true, _) => Some(Direction::Rise),
        (false, true) => Some(Direction::Fall),
        (false, false) => None,
    }
}

/// A pin with these steps, if there are some.
fn cause_towards(pin: u16, direction: Option<Direction>) -> Option<Cause>
    ensures { result ≡ option_map (λ d. record { pin = pin; direction = d }) direction }
{
    let direction = direction?;
    Some(Cause { pin, direction })
}

/// The pin that makes a step after a delay.
fn arc_after(found: Option<Cause>, delay: u16, word: Word) -> Option<Arc>
    ensures { option_map arc_with_word result ≡ option_map (arc_of delay word) found }
{
    match found {
        Some(cause) => Some(Arc { cause, delay, word }),
        None => None,
    }
}

/// The pin of an element at a place.
fn pin_of(element: &Instance, place: usize) -> Option<Pin>
    ensures { result ≡ slice_get element.now.pins place }
{
    element.pins.get(place).copied()
}

/// The first of the pins that move, and whether there are others.
#[derive(Clone, Copy)]
struct Movers {
    first: Option<usize>,
    others: bool,
}

impl Movers {
    /// With one more.
    fn with(self, place: usize) -> Movers
        ensures first { result.first ≡ option_or self.first (Some place) }
        ensures others { result.others ≡ (self.others || is_some self.first) }
    {
        Movers {
            first: self.first.or(Some(place)),
            others: self.others || self.first.is_some(),
        }
    }

    /// The only one.
    fn only(self) -> Option<usize>
        ensures { result ≡ (if self.others then None else self.first) }
    {
        if self.others { None } else { self.first }
    }
}

impl<'a, W: CyclicWave<Item = Value>> View<'a, W> {
    /// Whether a pin is heard and moves.
    fn is_moving(&self, asked: Asked, held: Option<usize>, place: usize) -> bool
        requires sees { Sees self.now.circuit.now self.now.waves.now self.now.hazards.now }
        requires is { slice_get self.now.circuit.now.instances asked.number
            ≡ Some asked.element.now }
        requires held { held ≡ held_of_all self.now.circuit.now
            (waves_of self.now.waves.now) asked.element.now }
        ensures { result ≡ is_moving_pin self.now.circuit.now
            (waves_of self.now.waves.now) asked.entry.element.now place }
    {
        if !is_heard(asked.element, held, place) {
            return false;
        }
        match pin_of(asked.element, place) {
            Some(pin) => !self.is_steady(pin),
            None => false,
        }
    }

    /// The one pin of an element that moves, if it is one: a marked one that counts alone.
    fn mover(&self, asked: Asked, held: Option<usize>) -> Option<usize>
        requires sees { Sees self.now.circuit.now self.now.waves.now self.now.hazards.now }
        requires is { slice_get self.now.circuit.now.instances asked.number
            ≡ Some asked.element.now }
        requires held { held ≡ held_of_all self.now.circuit.now
            (waves_of self.now.waves.now) asked.element.now }
        ensures is { result ≡ mover_of self.now.circuit.now
            (waves_of self.now.waves.now) asked.entry.element.now }
        ensures within { IfSome result (λ place. place < length asked.entry.element.now.pins) }
    {
        if held.is_some() {
            return held;
        }
        let mut moving = Movers {
            first: None,
            others: false,
        };
        let pins = asked.element.pins.as_slice();
        for place in 0..pins.len() {
            if self.is_moving(asked, held, place) {
                moving = moving.with(place);
            }
        }
        moving.only()
    }

    /// What of the one pin that moves makes a step, of two directions the rise.
    fn own_cause(
        &self,
        asked: Asked,
        held: Option<usize>,
        place: usize,
    ) -> Result<Option<Cause>, NoMemory>
        requires sees { Sees self.now.circuit.now self.now.waves.now self.now.hazards.now }
        requires is { slice_get self.now.circuit.now.instances asked.number
            ≡ Some asked.element.now }
        requires held { held ≡ held_of_all self.now.circuit.now
            (waves_of self.now.waves.now) asked.element.now }
        requires place { place < length asked.element.now.pins }
        requires tick { IsWithin (4 * most_tick) asked.tick }
        ensures { let c = self.now.circuit.now in IfOk result (λ found. found
            ≡ option_map (λ d. record { pin = place; direction = d })
            (open_cause c (waves_of self.now.waves.now)
            asked.entry.element.now asked.entry.direction
            (slot_of (period c.header) asked.entry.tick) place)) }
    {
        let pins = asked.element.pins.as_slice();
        let values = self.pin_values(pins, asked.tick, Reading::Unfolded)?;
        let shown = values.as_slice();
        let made = made_by(asked, held, shown, place);
        let direction = one_of(made.0, made.1);
        Ok(cause_towards(place as u16, direction))
    }

    /// The same after a delay so many ticks inside of its bound.
    fn own_arc_at(
        &self,
        asked: Asked,
        held: Option<usize>,
        place: usize,
        delay: Delay,
        by: u16,
    ) -> Result<Option<Arc>, NoMemory>
        requires sees { Sees self.now.circuit.now self.now.waves.now self.now.hazards.now }
        requires is { slice_get self.now.circuit.now.instances asked.number
            ≡ Some asked.element.now }
        requires held { held ≡ held_of_all self.now.circuit.now
            (waves_of self.now.waves.now) asked.element.now }
        requires place { place < length asked.element.now.pins }
        requires tick { IsWithin (2 * most_tick) asked.tick }
        requires within { delay.min + by ≤ delay.max }
        ensures { let c = self.now.circuit.now in let j = asked.entry.element.now in
            IfOk result (λ found. option_map arc_with_word found
            ≡ open_arc c (waves_of self.now.waves.now) j
            (end_asked (period c.header) asked.entry delay) place by) }
    {
        self.circuit.header().known();
        delay.known();
        let late = asked.corner.inside(delay, by);
        let earlier = asked.earlier(asked.direction, late);
        let found = self.own_cause(earlier, held, place)?;
        let word = end_word(asked.element, by);
        Ok(arc_after(found, late, word))
    }

    /// The same after a delay, at its bound or as near to it as there is something.
    fn own_arc(
        &self,
        asked: Asked,
        held: Option<usize>,
        place: usize,
        delay: Delay,
    ) -> Result<Option<Arc>, NoMemory>
        requires sees { Sees self.now.circuit.now self.now.waves.now self.now.hazards.now }
        requires is { slice_get self.now.circuit.now.instances asked.number
            ≡ Some asked.element.now }
        requires held { held ≡ held_of_all self.now.circuit.now
            (waves_of self.now.waves.now) asked.element.now }
        requires place { place < length asked.element.now.pins }
        requires tick { IsWithin (2 * most_tick) asked.tick }
        ensures { let c = self.now.circuit.now in let j = asked.entry.element.now in
            IfOk result (λ found. option_map arc_with_word found
            ≡ first_some (open_arc c (waves_of self.now.waves.now) j
            (end_asked (period c.header) asked.entry delay) place) (choices delay) 0) }
    {
        self.circuit.header().known();
        delay.known();
        for by in 0..self.choices(delay) {
            let found = self.own_arc_at(asked, held, place, delay, by)?;
            if found.is_some() {
                return Ok(found);
            }
        }
        Ok(None)
    }

    /// The event behind the one pin that moves.
    fn own_back(&self, asked: Asked, found: Option<Arc>) -> Option<Back>
        requires { IsWithin (2 * most_tick) asked.tick }
        ensures { let c = self.now.circuit.now in option_map (read_of (period c.header)) result
            ≡ option_and_then (open_before c asked.entry.element.now
            (slot_of (period c.header) asked.entry.tick))
            (option_map arc_with_word found) }
    {
        self.circuit.header().known();
        let arc = found?;
        let pin = pin_at(asked.element, arc.cause.pin)?;
        match pin.target {
            Target::Constant(_) => None,
            Target::Net(net) => {
                let wire = wire_behind(self.circuit, pin.target).min;
                let first = sooner(asked.tick, arc.delay);
                let tick = sooner(first, wire);
                let direction = arc.cause.direction.turned(pin.inverted);
                Some(Back {
                    passage: Passage::Through {
                        pin: arc.cause.pin,
                        wire,
                        delay: arc.delay,
                        word: arc.word,
                    },
                    event: Event {
                        net,
                        direction,
                        tick,
                        corner: asked.corner,
                        reading: Reading::Unfolded,
                    },
                })
            }
        }
    }

    /// The link through one of several pins that move: from there on by folds.
    fn end_by_many(&self, asked: Asked, delay: Delay) -> Result<Option<Back>, NoMemory>
        requires sees { Sees self.now.circuit.now self.now.waves.now self.now.hazards.now }
        requires is { slice_get self.now.circuit.now.instances asked.number
            ≡ Some asked.element.now }
        requires tick { IsWithin (2 * most_tick) asked.tick }
        ensures { let c = self.now.circuit.now in let j = asked.entry.element.now in
            IfOk result (λ found. option_map (read_of (period c.header)) found
            ≡ before_many c (waves_of self.now.waves.now) j
            (end_asked (period c.header) asked.entry delay)) }
    {
        delay.known();
        let found = self.arc_at(asked, delay, 0)?;
        let noted = many_arc(asked.element, found);
        let back = self.through_some(asked, noted);
        Ok(folded(back))
    }

    /// By what an end of a pulse comes at an element's output, or `None` if nothing makes it.
    pub fn end_back(&self, asked: Asked) -> Result<Option<Back>, NoMemory>
        requires sees { Sees self.now.circuit.now self.now.waves.now self.now.hazards.now }
        requires is { slice_get self.now.circuit.now.instances asked.number
            ≡ Some asked.element.now }
        requires tick { IsWithin most_tick asked.tick }
        ensures { let c = self.now.circuit.now in let ws = waves_of self.now.waves.now in let j
            = asked.entry.element.now in
            IfOk result (λ found. option_map (read_of (period c.header)) found ≡ read_by c ws j
            (end_asked (period c.header) asked.entry
            (end_delay_of j.delay asked.entry.direction j.split)) (mover_of c ws j)) }
    {
        let delay = end_delay(asked.element, asked.direction);
        let held = self.held_pin(asked.number, asked.element);
        let Some(place) = self.mover(asked, held) else {
            let many = self.end_by_many(asked, delay)?;
            return Ok(many);
        };
        let found = self.own_arc(asked, held, place, delay)?;
        let back = self.own_back(asked, found);
        Ok(back)
    }
}
