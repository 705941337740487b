//! Arrivals: of each edge of a clock the last tick at which a net may change by it, or the first,
//! over all ways, whatever else the elements on them do.

ghost use Rattle.std.specs.Prelude.{◌≡◌, ◌==◌, ◌+◌, ◌^◌, ◌<◌, ◌≤◌, ◌++◌, ◌∷◌, [], length, slice_get, is_some, if◌then◌else◌, IfSome, OnOk, Some, false, true};
ghost use Rattle.std.specs.Option.{option_map};
ghost use Rattle.critical_paths.specs.Arrival.{pin_direction};
ghost use Rattle.critical_paths.specs.Path.{bound};
ghost use Rattle.fixpoint_engine.specs.Waves.{waves_of};
ghost use Rattle.critical_paths.specs.Tick.{IsWithin};
ghost use Rattle.critical_paths.specs.Known.{Grows, IsShort};
ghost use Rattle.critical_paths.specs.Reached.{AreDoneBehind, AreExact, Extends, IsAppended, IsFew, Stand, StaysDone, StaysKnown, arrived, behind_at, gathered, is_done, known_of, range_of, same_place, times};
ghost use Rattle.critical_paths.specs.Views.{Sees};

use crate::back::own_delay;
use crate::direction::{Corner, Direction};
use crate::event::{Reading, Stop};
use crate::gather::{AllReached, Reached, reached_at};
use crate::near::Near;
use crate::path::{Passage, Paths, Word};
use crate::view::View;
use fixpoint_engine::wire_behind;
use flat_circuit::{Circuit, Instance, Kind, Target};
use scald_base::{Delay, NoMemory};
use step_values::Value;
use wave_core::CyclicWave;

/// The steps of a net, and the end of them that is asked for, by the edges of a clock.
#[derive(Clone, Copy, PartialEq, Eq, Hash)]
pub struct Place {
    pub clock: u32,
    pub net: u32,
    pub direction: Direction,
    pub corner: Corner,
}

impl Place {
    /// Whether it is at the clock itself.
    pub(crate) fn is_at_clock(self) -> bool
        ensures { result ≡ (self.net == self.clock) }
    {
        self.net == self.clock
    }

    /// The event of its net in a slot.
    pub(crate) fn stop(self, slot: u16) -> Stop
        ensures { result ≡ record {
          net = self.net;
          direction = self.direction;
          slot = slot;
          corner = self.corner;
          reading = Reading.Folded;
        } }
    {
        Stop {
            net: self.net,
            direction: self.direction,
            slot,
            corner: self.corner,
            reading: Reading::Folded,
        }
    }
}

/// When an edge comes to a net: the tick of the ideal edge, that at the net, and the way.
#[derive(Clone, Copy)]
pub struct Arrival {
    pub ideal: i64,
    pub tick: i64,
    pub node: usize,
}

/// What is known of a place.
#[derive(Clone, Copy)]
pub(crate) enum Known {
    /// It is being worked out. Where it stays so, a way to it comes from a loop.
    Begun,
    /// Its arrivals, by where they stand among all.
    Done(usize, usize),
}

/// Which of a pin's steps count for steps of an element's own output.
fn direction_at(kind: Kind, pin: usize, wanted: Direction) -> Direction
    ensures { result ≡ pin_direction kind pin wanted }
{
    match kind {
        Kind::Buf | Kind::And | Kind::Or => wanted,
        Kind::Reg | Kind::RegRs | Kind::Latch | Kind::LatchRs if pin == 0 => Direction::Rise,
        _ => Direction::Change,
    }
}

/// The bound of a delay.
fn bound_of(corner: Corner, delay: &Delay) -> u16
    ensures { result ≡ bound corner delay.now }
{
    delay.known();
    corner.bound(*delay)
}

/// The place behind a pin that an element listens to, and by what the steps come from there.
pub(crate) fn place_behind(
    circuit: &Circuit,
    element: &Instance,
    place: Place,
    number: usize,
) -> Option<(Place, Passage)>
    ensures short { IfSome result (λ found. IsShort found.1) }
    ensures is { number < 2 ^ 16 → result ≡ behind_at circuit.now element.now place number }
{
    let pin = *element.pins.as_slice().get(number)?;
    let Target::Net(net) = pin.target else {
        return None;
    };
    if !element.kind.listens(number) {
        return None;
    }
    let own = place.direction.turned(element.out_inverted);
    let behind = Place {
        net,
        direction: direction_at(element.kind, number, own).turned(pin.inverted),
        ..place
    };
    let pin_number = u16::try_from(number).ok()?;
    let wire = wire_behind(circuit, pin.target);
    let delay = own_delay(element, own);
    let passage = Passage::Through {
        pin: pin_number,
        wire: bound_of(place.corner, &wire),
        delay: bound_of(place.corner, &delay),
        word: Word::Tight,
    };
    Some((behind, passage))
}

/// Whether there is a net of this number.
pub(crate) fn is_net<W: CyclicWave<Item = Value>>(view: &View<W>, net: u32) -> bool
    ensures within { result ≡ true → net < length view.now.circuit.now.nets }
    ensures net { net < length view.now.circuit.now.nets → result ≡ true }
{
    match view.circuit.net(net) {
        Some(_) => true,
        None => false,
    }
}

impl Paths {
    /// What is known of a place.
    pub(crate) fn known(&self, place: Place) -> Option<Known>
        ensures { result ≡ known_of self.now.known.entries place }
    {
        self.known.get(&place).copied()
    }

    /// Sets what is known of a place.
    pub(crate) fn set_known(&mut self, place: Place, known: Known) -> Result<(), NoMemory>
        ensures nodes { self.new.nodes ≡ self.old.nodes }
        ensures met { self.new.met.entries ≡ self.old.met.entries }
        ensures arrivals { self.new.arrivals ≡ self.old.arrivals }
        ensures known { OnOk result ((q : Place) → known_of self.new.known.entries q
            ≡ (if same_place place q then Some known else known_of self.old.known.entries q)) }
        ensures count { OnOk result (length self.new.known.entries
            ≡ length self.old.known.entries
            + (if is_some (known_of self.old.known.entries place) then 0 else 1)) }
        ensures small { OnOk result (length self.new.known.entries < 2 ^ 63) }
    {
        self.known.insert(place, known)?;
        // no map has more entries
        let _count = self.known.len();
        Ok(())
    }

    /// Appends an arrival and its event.
    fn append(&mut self, reached: Reached) -> Result<(), NoMemory>
        ensures nodes { OnOk result (self.new.nodes ≡ self.old.nodes ++ reached.event ∷ []) }
        ensures met { OnOk result (self.new.met.entries ≡ self.old.met.entries) }
        ensures known { self.new.known.entries ≡ self.old.known.entries }
        ensures arrivals { OnOk result (IsAppended self.old.arrivals self.new.arrivals reached
            (length self.old.nodes)) }
    {
        let number = self.nodes.len();
        self.nodes.push(reached.event)?;
        self.arrivals.push(reached.near.numbered(number))?;
        Ok(())
    }

    /// Makes arrivals known at a place.
    fn append_all(&mut self, place: Place, found: &[Reached]) -> Result<(), NoMemory>
        ensures grows { OnOk result (Grows self.old.nodes self.new.nodes) }
        ensures met { OnOk result (self.new.met.entries ≡ self.old.met.entries) }
        ensures known { OnOk result ((q : Place) → known_of self.new.known.entries q
            ≡ (if same_place place q then Some (Known.Done (length self.old.arrivals)
            (length self.old.arrivals + length found.now))
            else known_of self.old.known.entries q)) }
        ensures arrivals { OnOk result (times self.new.arrivals
            ≡ times self.old.arrivals ++ gathered found.now) }
        ensures more { OnOk result (Extends self.old.arrivals self.new.arrivals) }
        ensures stand { OnOk result (Stand self.new (length self.old.arrivals) found.now) }
        ensures count { OnOk result (length self.old.known.entries
            ≤ length self.new.known.entries) }
    {
        let from = self.arrivals.len();
        for number in 0..found.len() {
            self.append(reached_at(found, number))?;
        }
        let past = self.arrivals.len();
        self.set_known(place, Known::Done(from, past))?;
        Ok(())
    }

    /// Works a place out of those behind its pins.
    pub(crate) fn finish<W: CyclicWave<Item = Value>>(
        &mut self,
        view: &View<W>,
        place: Place,
    ) -> Result<(), NoMemory>
        requires { Sees view.now.circuit.now view.now.waves.now view.now.hazards.now }
        ensures grows { OnOk result (Grows self.old.nodes self.new.nodes) }
        ensures met { OnOk result (self.new.met.entries ≡ self.old.met.entries) }
        ensures stays { OnOk result (StaysKnown self.old.known.entries self.new.known.entries) }
        ensures exact { let c = view.now.circuit.now in let ws = waves_of view.now.waves.now in
            OnOk result (AreExact c ws self.old → AreExact c ws self.new) }
        ensures others { OnOk result ((q : Place) → same_place place q ≡ false →
            known_of self.new.known.entries q ≡ known_of self.old.known.entries q) }
        ensures more { OnOk result (Extends self.old.arrivals self.new.arrivals) }
        ensures keeps { OnOk result (StaysDone self.old.known.entries self.new.known.entries) }
        ensures done { let c = view.now.circuit.now in let ws = waves_of view.now.waves.now in
            OnOk result (AreExact c ws self.old → IsFew c ws place →
            AreDoneBehind c self.old.known.entries place →
            is_done self.new.known.entries place ≡ true) }
        ensures count { OnOk result (length self.old.known.entries
            ≤ length self.new.known.entries) }
    {
        let mut found = AllReached::new(view.alloc);
        if !self.add_all(view, place, &mut found)? {
            return Ok(());
        }
        self.append_all(place, found.as_slice())?;
        Ok(())
    }

    /// Where the arrivals that are known at a place stand among all; `None` if a way to it comes
    /// from a loop, or if it was not worked out.
    pub fn range(&self, place: Place) -> Option<(usize, usize)>
        ensures is { result ≡ range_of self.now.known.entries (length self.now.arrivals) place }
        ensures within { IfSome result (λ range. (range.0 ≤ range.1)
            × (range.1 ≤ length self.now.arrivals)) }
    {
        let Some(Known::Done(from, past)) = self.known(place) else {
            return None;
        };
        // what is done stands among all
        if from <= past && past <= self.arrivals.len() {
            Some((from, past))
        } else {
            None
        }
    }

    /// An arrival by its number, with its event.
    pub(crate) fn near_at(&self, number: usize) -> Near
        requires { number < length self.now.arrivals }
        ensures { slice_get self.now.arrivals number ≡ Some result }
    {
        self.arrivals.as_slice()[number]
    }

    /// An arrival, by where it stands among all.
    pub fn arrival(&self, number: usize) -> Arrival
        requires { number < length self.now.arrivals }
        ensures is { option_map arrived (slice_get self.now.arrivals number) ≡ Some result }
        ensures near { IsWithin (2 ^ 46) result.ideal × IsWithin (2 ^ 46) result.tick }
    {
        self.arrivals.as_slice()[number].arrival()
    }
}
