//! The ideal edges that changes of clocks come from.

ghost use Rattle.std.specs.Prelude.{◌≡◌, ◌<◌, ◌-ℤ◌, pos, IfSome};
ghost use Rattle.scald_base.specs.Time.{period as period_of};
ghost use Rattle.critical_paths.specs.Launch.{is_edge, offset, offset_at, offset_if_edge};
ghost use Rattle.critical_paths.specs.Tick.{IsWithin, most_tick, slot_of};
ghost use Rattle.critical_paths.specs.Known.{IsNear};

use crate::direction::{Corner, Direction};
use crate::event::{Reading, Stop};
use crate::view::View;
use assertion_syntax::ideal;
use scald_base::{AssertSpec, ClockSpec};
use step_values::{StepSet, Value};
use wave_core::CyclicWave;

/// How long after its edge a step of a clock comes that may come so many ticks early or late.
fn shift(corner: Corner, early: u16, late: u16) -> i64
    ensures is { result ≡ offset corner early late }
    ensures near { IsNear 65535 result }
{
    match corner {
        Corner::Late => i64::from(late),
        Corner::Early => 0 - i64::from(early),
    }
}

/// The tick of the edge that a step in a slot comes so many ticks after.
fn edge_tick(slot: u16, after: i64) -> i64
    requires { IsNear 65535 after }
    ensures is { result ≡ pos slot -ℤ after }
    ensures near { IsWithin most_tick result }
{
    i64::from(slot) - after
}

impl<'a, W: CyclicWave<Item = Value>> View<'a, W> {
    /// Whether an ideal clock makes a step in the slot of a tick.
    fn is_edge(&self, clock: &ClockSpec, direction: Direction, tick: i64) -> bool
        requires { IsWithin most_tick tick }
        ensures { let h = self.now.circuit.now.header in
            result ≡ is_edge h clock.now direction (slot_of (period_of h) tick) }
    {
        let h = self.circuit.header();
        let before = ideal(clock, h, self.slot(tick - 1));
        let after = ideal(clock, h, self.slot(tick));
        direction.is_among(StepSet::one_if(true, before, after))
    }

    /// How long after its ideal edge a step of a clock comes, if there is such an edge.
    fn offset_if_edge(
        &self,
        clock: &ClockSpec,
        skew: (u16, u16),
        corner: Corner,
        stop: Stop,
    ) -> Option<i64>
        requires { stop.slot < period_of self.now.circuit.now.header }
        ensures is { result ≡ offset_if_edge self.now.circuit.now.header corner stop.direction
            stop.slot clock.now skew }
        ensures near { IfSome result (IsNear 65535) }
    {
        let (early, late) = clock.skew.unwrap_or(skew);
        let after = shift(corner, early, late);
        if self.is_edge(clock, stop.direction, edge_tick(stop.slot, after)) {
            Some(after)
        } else {
            None
        }
    }

    /// How long after its ideal edge an event of an undriven net comes, in ticks, if there is
    /// one. A clock that moves as a whole is as early as it may be at both ends of a pulse.
    pub fn offset(&self, stop: Stop) -> Option<i64>
        requires { stop.slot < period_of self.now.circuit.now.header }
        ensures is { result ≡ offset_at self.now.circuit.now stop }
        ensures near { IfSome result (IsNear 65535) }
    {
        let h = self.circuit.header();
        match self.circuit.net(stop.net)?.spec.or(&AssertSpec::None) {
            AssertSpec::Precision(clock) => {
                let corner = match stop.reading {
                    Reading::Unfolded => Corner::Early,
                    Reading::Folded => stop.corner,
                };
                self.offset_if_edge(clock, h.pskew, corner, stop)
            }
            AssertSpec::Clock(clock) => self.offset_if_edge(clock, h.cskew, stop.corner, stop),
            AssertSpec::None | AssertSpec::Stable(_) => None,
        }
    }
}
