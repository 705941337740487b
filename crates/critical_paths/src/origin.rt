//! The event that one comes from, in its slot, as it is read.

ghost use Rattle.std.specs.Prelude.{◌≡◌, ◌<◌, length, slice_get, IfOk, Some};
ghost use Rattle.std.specs.Option.{option_map};
ghost use Rattle.scald_base.specs.Time.{period as period_of};
ghost use Rattle.fixpoint_engine.specs.Waves.{waves_of};
ghost use Rattle.critical_paths.specs.Known.{IsStop, LeadsWithin};
ghost use Rattle.critical_paths.specs.Views.{Sees, event_of, read_of};
ghost use Rattle.critical_paths.specs.Walk.{origin_of, read_at, stop_of};

use crate::back::{Back, folded};
use crate::cause::Asked;
use crate::direction::Corner;
use crate::event::{Event, Reading, Stop};
use crate::path::Origin;
use crate::view::View;
use flat_circuit::Instance;
use scald_base::NoMemory;
use step_values::Value;
use wave_core::CyclicWave;

impl<'a, W: CyclicWave<Item = Value>> View<'a, W> {
    /// An event in its slot, at an end of a region. What a change function drives is read by
    /// folds.
    pub(crate) fn stop_at(&self, corner: Corner, event: Event) -> Stop
        ensures is { let c = self.now.circuit.now in
            result ≡ stop_of c corner event.reading (event_of (period_of c.header) event) }
        ensures within { result.slot < period_of self.now.circuit.now.header }
    {
        let reading = match self.driver(event.net) {
            Some((_, element)) if element.kind.is_change() => Reading::Folded,
            _ => event.reading,
        };
        let Event {
            net,
            direction,
            tick,
            ..
        } = event;
        Stop {
            net,
            direction,
            slot: self.slot(tick),
            corner,
            reading,
        }
    }

    /// By what an event of an element's output comes, and the event before it, as it is read.
    fn read_back(
        &self,
        stop: Stop,
        number: u32,
        element: &Instance,
    ) -> Result<Option<Back>, NoMemory>
        requires sees { Sees self.now.circuit.now self.now.waves.now self.now.hazards.now }
        requires is { slice_get self.now.circuit.now.instances number ≡ Some element.now }
        requires net { stop.net < length self.now.circuit.now.nets }
        requires slot { stop.slot < period_of self.now.circuit.now.header }
        ensures { let c = self.now.circuit.now in IfOk result (λ found.
            option_map (read_of (period_of c.header)) found
            ≡ read_at c (waves_of self.now.waves.now) stop element.now stop.reading) }
    {
        let tick = i64::from(stop.slot);
        let asked = Asked {
            number,
            element,
            direction: stop.direction.turned(element.out_inverted),
            tick,
            corner: stop.corner,
        };
        match stop.reading {
            Reading::Folded => {
                let event = Event {
                    net: stop.net,
                    direction: stop.direction,
                    tick,
                    corner: stop.corner,
                    reading: Reading::Folded,
                };
                let found = self.back(asked, event)?;
                Ok(folded(found))
            }
            Reading::Unfolded => {
                let ended = self.end_back(asked)?;
                Ok(ended)
            }
        }
    }

    /// From what an event comes.
    pub(crate) fn origin(&self, stop: Stop) -> Result<Origin, NoMemory>
        requires sees { Sees self.now.circuit.now self.now.waves.now self.now.hazards.now }
        requires stop { IsStop self.now.circuit.now stop.corner stop }
        ensures is { IfOk result (λ o. o ≡ origin_of self.now.circuit.now (waves_of
            self.now.waves.now) stop) }
        ensures within { IfOk result (LeadsWithin self.now.circuit.now stop.corner) }
    {
        let Some((number, element)) = self.driver(stop.net) else {
            return Ok(Origin::Input);
        };
        let Some(back) = self.read_back(stop, number, element)? else {
            return Ok(Origin::Level);
        };
        let earlier = self.stop_at(stop.corner, back.event);
        Ok(Origin::Earlier(back.passage, earlier))
    }
}
