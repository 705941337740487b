//! The search for places that are not worked out: each is begun for one that needs it, and worked
//! out after those that it needs.

ghost use Rattle.std.specs.Prelude.{◌≡◌, ℕ, ◌+◌, ◌^◌, ◌<◌, ◌≤◌, ◌++◌, ◌∷◌, [], length, is_some, if◌then◌else◌, IfNone, IfSome, List, OnOk, Some, false, true};
ghost use Rattle.fixpoint_engine.specs.Waves.{waves_of};
ghost use Rattle.critical_paths.specs.Known.{Grows, Knows};
ghost use Rattle.flat_circuit.specs.Circuit.{driver as driver_of};
ghost use Rattle.flat_circuit.specs.Instances.{InstanceFits};
ghost use Rattle.critical_paths.specs.Arrival.{arrivals};
ghost use Rattle.critical_paths.specs.Reached.{AreDoneBehind, AreExact, ArePassed, Extends, IsBehind, IsFresh, IsSearch, KeepsArrivals, KnowsArrivals, StaysAs, StaysKnown, behind_at, is_done, known_of, left_to_do, same_place};
ghost use Rattle.critical_paths.specs.Views.{Sees};

use crate::arrival::{Known, Place, place_behind};
use crate::path::{Passage, Paths};
use crate::view::View;
use flat_circuit::{Circuit, Instance};
use scald_base::NoMemory;
use step_values::Value;
use wave_core::CyclicWave;

/// A place that is being worked out, and the next pin.
#[derive(Clone, Copy)]
pub(crate) struct Frame {
    pub(crate) place: Place,
    pub(crate) pin: usize,
}

/// Places that are being worked out, each for the one before it.
type Frames = Vec<Frame>;

impl Paths {
    /// Whether the arrivals at a place are worked out.
    fn has_done(&self, place: Place) -> bool
        ensures { result ≡ is_done self.now.known.entries place }
    {
        matches!(self.known(place), Some(Known::Done(_, _)))
    }

    /// The place behind a pin, if it is not worked out.
    fn open_behind(
        &self,
        circuit: &Circuit,
        element: &Instance,
        place: Place,
        number: usize,
    ) -> Option<Place>
        requires { number < 2 ^ 16 }
        ensures some { IfSome result (λ found. (is_done self.now.known.entries found ≡ false)
            × ((p : Passage) × (behind_at circuit.now element.now place number
            ≡ Some (found, p)))) }
        ensures none { IfNone result ((behind : Place × Passage) →
            behind_at circuit.now element.now place number ≡ Some behind →
            is_done self.now.known.entries behind.0 ≡ true) }
    {
        let Some((behind, _)) = place_behind(circuit, element, place, number) else {
            return None;
        };
        if self.has_done(behind) {
            return None;
        }
        Some(behind)
    }

    /// The first place behind a pin of a net's driver, from this pin on, that is not worked out,
    /// with the number of the pin.
    fn open_from(
        &self,
        circuit: &Circuit,
        element: &Instance,
        frame: Frame,
    ) -> Option<(Place, usize)>
        requires fits { InstanceFits circuit.now.header (length circuit.now.nets) element.now }
        requires driven { driver_of circuit.now frame.place.net ≡ Some element.now }
        ensures some { IfSome result (λ found. (is_done self.now.known.entries found.0 ≡ false)
            × ((p : Passage) × IsBehind circuit.now frame.place (found.0, p))
            × ArePassed circuit.now self.now.known.entries frame.place frame.pin found.1) }
        ensures none { IfNone result (ArePassed circuit.now self.now.known.entries frame.place
            frame.pin (length element.now.pins)) }
    {
        for number in frame.pin..element.pins.len() {
            if let Some(behind) = self.open_behind(circuit, element, frame.place, number) {
                return Some((behind, number));
            }
        }
        None
    }

    /// The first place behind a pin from this one on that is not worked out, with the number of the
    /// pin.
    fn next_behind<W: CyclicWave<Item = Value>>(
        &self,
        view: &View<W>,
        frame: Frame,
    ) -> Option<(Place, usize)>
        requires { Sees view.now.circuit.now view.now.waves.now view.now.hazards.now }
        ensures some { let c = view.now.circuit.now in IfSome result (λ found.
            (is_done self.now.known.entries found.0 ≡ false)
            × ((p : Passage) × IsBehind c frame.place (found.0, p))
            × ArePassed c self.now.known.entries frame.place frame.pin found.1) }
        ensures none { let c = view.now.circuit.now in IfNone result (
            ArePassed c self.now.known.entries frame.place 0 frame.pin →
            AreDoneBehind c self.now.known.entries frame.place) }
    {
        match view.driver(frame.place.net) {
            Some((_, element)) => self.open_from(view.circuit, element, frame),
            None => None,
        }
    }

    /// Begins with a place. Where that was begun before, a way comes from a loop: nothing more is
    /// worked out, and all that is begun stays so.
    #[tactic(auto, using(crate::proofs::Arriving::grows_none))]
    fn begin_at(&mut self, frames: &mut Frames, place: Place) -> Result<(), NoMemory>
        ensures grows { OnOk result (Grows self.old.nodes self.new.nodes) }
        ensures met { OnOk result (self.new.met.entries ≡ self.old.met.entries) }
        ensures known { OnOk result (is_some (known_of self.new.known.entries place) ≡ true) }
        ensures stays { OnOk result (StaysKnown self.old.known.entries self.new.known.entries) }
        ensures arrivals { self.new.arrivals ≡ self.old.arrivals }
        ensures others { OnOk result ((q : Place) (from past : ℕ) →
            known_of self.new.known.entries q ≡ Some (Known.Done from past) →
            known_of self.old.known.entries q ≡ Some (Known.Done from past)) }
        ensures again { is_some (known_of self.old.known.entries place) ≡ true →
            OnOk result ((self.new.known.entries ≡ self.old.known.entries)
            × (frames.new.items ≡ [])) }
        ensures begun { is_some (known_of self.old.known.entries place) ≡ false →
            OnOk result (((q : Place) → known_of self.new.known.entries q
            ≡ (if same_place place q then Some Known.Begun
            else known_of self.old.known.entries q))
            × (frames.new.items ≡ frames.old.items ++ record { place = place; pin = 0 } ∷ [])
            × (length self.new.known.entries ≡ length self.old.known.entries + 1)
            × (length self.new.known.entries < 2 ^ 63)) }
    {
        if self.known(place).is_some() {
            frames.clear();
            return Ok(());
        }
        self.set_known(place, Known::Begun)?;
        frames.push(Frame { place, pin: 0 })?;
        Ok(())
    }

    /// Works out a place, or begins with one that it needs.
    fn go_on<W: CyclicWave<Item = Value>>(
        &mut self,
        view: &View<W>,
        frames: &mut Frames,
        frame: Frame,
    ) -> Result<(), NoMemory>
        requires { Sees view.now.circuit.now view.now.waves.now view.now.hazards.now }
        ensures grows { OnOk result (Grows self.old.nodes self.new.nodes) }
        ensures met { OnOk result (self.new.met.entries ≡ self.old.met.entries) }
        ensures stays { OnOk result (StaysKnown self.old.known.entries self.new.known.entries) }
        ensures exact { let c = view.now.circuit.now in let ws = waves_of view.now.waves.now in
            OnOk result (AreExact c ws self.old → AreExact c ws self.new) }
        ensures search { let c = view.now.circuit.now in let ws = waves_of view.now.waves.now in
            OnOk result (AreExact c ws self.old →
            IsSearch c ws self.old.known.entries (frames.old.items ++ frame ∷ []) →
            IsSearch c ws self.new.known.entries frames.new.items) }
        ensures fresh { OnOk result ((before : List (Place × Known)) →
            IsFresh before self.old.known.entries (frames.old.items ++ frame ∷ []) →
            IsFresh before self.new.known.entries frames.new.items) }
        ensures more { OnOk result (Extends self.old.arrivals self.new.arrivals) }
        ensures count { OnOk result (left_to_do self.new.known.entries frames.new.items
            ≤ left_to_do self.old.known.entries frames.old.items) }
    {
        let Some((behind, pin)) = self.next_behind(view, frame) else {
            self.finish(view, frame.place)?;
            return Ok(());
        };
        frames.push(Frame { pin, ..frame })?;
        self.begin_at(frames, behind)?;
        Ok(())
    }

    /// Works out the arrivals at a place and at those that it needs, if that is not done.
    #[tactic(auto, using(crate::proofs::Arriving::grows_none))]
    pub fn work_out<W: CyclicWave<Item = Value>>(
        &mut self,
        view: &View<W>,
        place: Place,
    ) -> Result<(), NoMemory>
        requires { Sees view.now.circuit.now view.now.waves.now view.now.hazards.now }
        ensures knows { OnOk result (Knows view.now.circuit.now (waves_of view.now.waves.now)
            self.old.nodes self.old.met.entries →
            Knows view.now.circuit.now (waves_of view.now.waves.now)
            self.new.nodes self.new.met.entries) }
        ensures grows { OnOk result (Grows self.old.nodes self.new.nodes) }
        ensures met { OnOk result (self.new.met.entries ≡ self.old.met.entries) }
        ensures known { OnOk result (is_some (known_of self.new.known.entries place) ≡ true) }
        ensures stays { OnOk result (StaysKnown self.old.known.entries self.new.known.entries) }
        ensures exact { let c = view.now.circuit.now in let ws = waves_of view.now.waves.now in
            OnOk result (KeepsArrivals c ws self.old self.new) }
        ensures done { let c = view.now.circuit.now in let ws = waves_of view.now.waves.now in
            OnOk result (KnowsArrivals c ws self.old → place.net < length c.nets →
            is_some (arrivals c ws place.corner place.direction place.net) ≡ true →
            is_done self.new.known.entries place ≡ true) }
        ensures same { OnOk result (StaysAs self.old.known.entries self.new.known.entries) }
        ensures more { OnOk result (Extends self.old.arrivals self.new.arrivals) }
    {
        if self.known(place).is_some() {
            return Ok(());
        }
        let mut frames = Frames::new(view.alloc);
        self.begin_at(&mut frames, place)?;
        'places: loop {
            let Some(frame) = frames.pop() else {
                return Ok(());
            };
            self.go_on(view, &mut frames, frame)?;
        }
    }
}
