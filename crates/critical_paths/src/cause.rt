//! Which pin of an element makes a step of its output the last one, or the first.

ghost use Rattle.std.specs.Prelude.{◌≡◌, ◌-◌, ◌*◌, ◌-ℤ◌, ◌<◌, ◌&&◌, not, length, slice_get, IfOk, Some, true, false, pos};
ghost use Rattle.std.specs.Option.{option_map, option_or};
ghost use Rattle.scald_base.specs.Time.{period};
ghost use Rattle.step_values.specs.Cell.{values as cells};
ghost use Rattle.step_values.specs.Steps.{has};
ghost use Rattle.skew_algebra.specs.Wave.{fold};
ghost use Rattle.fixpoint_engine.specs.Waves.{pin_wave, waves_of};
ghost use Rattle.critical_paths.specs.Tick.{IsWithin, most_tick, slot_of};
ghost use Rattle.critical_paths.specs.Event.{beside, direction_by};
ghost use Rattle.critical_paths.specs.Cause.{cause_of};
ghost use Rattle.critical_paths.specs.Views.{IsCount, IsPin, MayHold, Sees, best_of, cause_with, may_make as may_make_by, pinned, whole_of};

use crate::direction::{Corner, Direction};
use crate::event::Reading;
use crate::image::{Choice, makes};
use crate::path::Word;
use crate::view::{View, is_heard};
use flat_circuit::{Instance, Pin};
use scald_base::NoMemory;
use step_values::{Step, Value};
use wave_core::CyclicWave;

/// A step of an element's output at a tick, its delay and its complement not counted.
#[derive(Clone, Copy)]
pub struct Asked<'a> {
    pub number: u32,
    pub element: &'a Instance,
    pub direction: Direction,
    pub tick: i64,
    pub corner: Corner,
}

impl<'a> Asked<'a> {
    /// The same of another direction, so many ticks earlier.
    pub fn earlier(self, direction: Direction, ticks: u16) -> Asked<'a>
        requires { IsWithin (4 * most_tick) self.tick }
        ensures { result ≡ record {
          number = self.entry.number;
          element = self.entry.element;
          direction = direction;
          tick = self.entry.tick -ℤ pos ticks;
          corner = self.entry.corner;
        } }
    {
        Asked {
            direction,
            tick: self.tick - i64::from(ticks),
            ..self
        }
    }

    /// The same of another direction.
    pub fn towards(self, direction: Direction) -> Asked<'a>
        ensures { result ≡ record {
          number = self.entry.number;
          element = self.entry.element;
          direction = direction;
          tick = self.entry.tick;
          corner = self.entry.corner;
        } }
    {
        Asked { direction, ..self }
    }

    /// The same of another direction, at another tick.
    pub fn at(self, direction: Direction, tick: i64) -> Asked<'a>
        ensures { result ≡ record {
          number = self.entry.number;
          element = self.entry.element;
          direction = direction;
          tick = tick;
          corner = self.entry.corner;
        } }
    {
        Asked {
            direction,
            tick,
            ..self
        }
    }
}

/// A pin, and the direction of its steps.
#[derive(Clone, Copy)]
pub struct Cause {
    pub pin: u16,
    pub direction: Direction,
}

/// The first pin of each kind: all of its steps that make the output's end there; some do; a step
/// ends there that makes none; its steps make one, and may go on.
#[derive(Clone, Copy)]
struct Causes {
    whole: Option<Cause>,
    part: Option<Cause>,
    bound: Option<Cause>,
    loose: Option<Cause>,
}

/// A pin with these steps, if there are some.
fn cause_by(pin: u16, rises: bool, falls: bool) -> Option<Cause>
    ensures { result ≡ option_map (λ d. record { pin = pin; direction = d })
        (direction_by rises falls) }
{
    let direction = Direction::of(rises, falls)?;
    Some(Cause { pin, direction })
}

impl Causes {
    /// With one pin more, by which of its rises and falls make the output's step and which end
    /// there.
    fn with(self, pin: u16, made: (bool, bool), ended: (bool, bool)) -> Causes
        ensures whole { result.whole ≡ option_or self.whole (pinned pin (whole_of made ended)) }
        ensures part { result.part ≡ option_or self.part
            (pinned pin (direction_by (made.0 && ended.0) (made.1 && ended.1))) }
        ensures bound { result.bound ≡ option_or self.bound
            (pinned pin (direction_by ended.0 ended.1)) }
        ensures loose { result.loose ≡ option_or self.loose
            (pinned pin (direction_by made.0 made.1)) }
    {
        let is_whole = (!made.0 || ended.0) && (!made.1 || ended.1);
        let loose = cause_by(pin, made.0, made.1);
        Causes {
            whole: self.whole.or(if is_whole { loose } else { None }),
            part: self
                .part
                .or(cause_by(pin, made.0 && ended.0, made.1 && ended.1)),
            bound: self.bound.or(cause_by(pin, ended.0, ended.1)),
            loose: self.loose.or(loose),
        }
    }

    /// The tightest. A pin bounds only what another one makes.
    fn best(self) -> Option<(Cause, Word)>
        ensures { option_map cause_with result ≡ best_of self }
    {
        if let Some(tight) = self.whole.or(self.part) {
            return Some((tight, Word::Tight));
        }
        let loose = self.loose?;
        match self.bound {
            Some(bound) => Some((bound, Word::Bounded(loose.pin))),
            None => Some((loose, Word::Loose)),
        }
    }
}

/// Whether a pin may make a step that makes one of an element's output. Beside a pin that counts
/// alone the others stay.
fn may_make(asked: Asked, held: Option<usize>, values: &[Value], pin: usize, step: Step) -> bool
    requires pin { pin < length values.now }
    requires count { IsCount asked.element.now.kind (length values.now) }
    requires held { MayHold held asked.element.now.kind }
    ensures { result ≡ may_make_by held asked.entry.element.now.kind values.now pin
        step.before step.after asked.entry.direction }
{
    let now = values[pin];
    if !now.permits(step) {
        return false;
    }
    let kind = asked.element.kind;
    match held {
        Some(_) => {
            let values = &[now, Value::S];
            makes(
                kind,
                Choice {
                    values,
                    pin: 0,
                    step,
                },
                asked.direction,
            )
        }
        None => makes(kind, Choice { values, pin, step }, asked.direction),
    }
}

/// Which of a pin's rises and falls make a step of an element's output.
pub fn made_by(asked: Asked, held: Option<usize>, values: &[Value], pin: usize) -> (bool, bool)
    requires pin { pin < length values.now }
    requires count { IsCount asked.element.now.kind (length values.now) }
    requires held { MayHold held asked.element.now.kind }
    ensures rises { result.0 ≡ may_make_by held asked.entry.element.now.kind values.now pin
        false true asked.entry.direction }
    ensures falls { result.1 ≡ may_make_by held asked.entry.element.now.kind values.now pin
        true false asked.entry.direction }
{
    (
        may_make(asked, held, values, pin, Step::RISE),
        may_make(asked, held, values, pin, Step::FALL),
    )
}

/// Which of rises and falls are in one value, and not in the next.
fn ends(now: Value, past: Value) -> (bool, bool)
    ensures rises { result.0 ≡ (has now false true && not (has past false true)) }
    ensures falls { result.1 ≡ (has now true false && not (has past true false)) }
{
    (
        now.may_rise() && !past.may_rise(),
        now.may_fall() && !past.may_fall(),
    )
}

impl<'a, W: CyclicWave<Item = Value>> View<'a, W> {
    /// Which of a pin's rises and falls end at a tick.
    fn ended_by(&self, pin: Pin, now: Value, tick: i64, corner: Corner) -> (bool, bool)
        requires sees { Sees self.now.circuit.now self.now.waves.now self.now.hazards.now }
        requires pin { IsPin self.now.circuit.now pin }
        requires tick { IsWithin (4 * most_tick) tick }
        ensures rises { let c = self.now.circuit.now in result.0 ≡ (has now false true
            && not (has (fold cells (pin_wave c (waves_of self.now.waves.now) pin)
            (beside (period c.header) corner (slot_of (period c.header) tick))) false true)) }
        ensures falls { let c = self.now.circuit.now in result.1 ≡ (has now true false
            && not (has (fold cells (pin_wave c (waves_of self.now.waves.now) pin)
            (beside (period c.header) corner (slot_of (period c.header) tick))) true false)) }
    {
        self.circuit.header().known();
        ends(
            now,
            self.pin_value(pin, corner.beside(tick), Reading::Folded),
        )
    }

    /// The pin whose steps make a step of an element's output the last one, or the first, and how
    /// surely.
    pub fn cause(&self, asked: Asked) -> Result<Option<(Cause, Word)>, NoMemory>
        requires sees { Sees self.now.circuit.now self.now.waves.now self.now.hazards.now }
        requires is { slice_get self.now.circuit.now.instances asked.number
            ≡ Some asked.element.now }
        requires tick { IsWithin (4 * most_tick) asked.tick }
        ensures { let c = self.now.circuit.now in IfOk result (λ found. option_map cause_with found
            ≡ cause_of c (waves_of self.now.waves.now) asked.entry.element.now asked.entry.corner
            asked.entry.direction (slot_of (period c.header) asked.entry.tick)) }
    {
        let pins = asked.element.pins.as_slice();
        let held = self.held_pin(asked.number, asked.element);
        let values = self.pin_values(pins, asked.tick, Reading::Folded)?;
        let shown = values.as_slice();
        let mut found = Causes {
            whole: None,
            part: None,
            bound: None,
            loose: None,
        };
        for place in 0..pins.len() {
            if is_heard(asked.element, held, place) {
                let now = shown[place];
                let made = made_by(asked, held, shown, place);
                let ended = self.ended_by(pins[place], now, asked.tick, asked.corner);
                found = found.with(place as u16, made, ended);
            }
        }
        Ok(found.best())
    }
}
