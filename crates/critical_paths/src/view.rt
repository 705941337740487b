//! What nets and pins may do at a tick, by the settled waves of a case.

ghost use Rattle.std.specs.Prelude.{◌≡◌, ◌+◌, ◌*◌, ◌<◌, ◌≤◌, ◌+ℤ◌, pos, length, min, slice_get, IfNone, IfSome, IfOk, None, Some, if◌then◌else◌};
ghost use Rattle.std.specs.List.{All};
ghost use Rattle.std.specs.Option.{option_map};
ghost use Rattle.scald_base.specs.Time.{period as period_of};
ghost use Rattle.step_values.specs.Cell.{values};
ghost use Rattle.skew_algebra.specs.Wave.{is_steady as is_all_steady, moved};
ghost use Rattle.flat_circuit.specs.Circuit.{driver as driver_of, driver_at};
ghost use Rattle.fixpoint_engine.specs.Waves.{marked_pin as marked_of, pin_wave, target_wave, waves_of};
ghost use Rattle.critical_paths.specs.Tick.{IsWithin, most_tick, slot_of};
ghost use Rattle.critical_paths.specs.Event.{turned};
ghost use Rattle.critical_paths.specs.Cause.{held_pin as held_of_all, is_heard_by};
ghost use Rattle.critical_paths.specs.Path.{choices as choices_of, is_event};
ghost use Rattle.critical_paths.specs.Views.{IsPin, Sees, behind as behind_pin, hidden, pins_shown, reach_of, shown, target_shown};

use crate::direction::Direction;
use crate::event::{Event, PinEvent, Reading, sooner};
// a set of numbers: here of instances
use fixpoint_engine::{NetSet as InstanceSet, Waves, wire_behind};
use flat_circuit::{Circuit, Instance, Pin, Target};
use scald_base::{Delay, List, NoMemory};
use std::alloc::Global;
use std::cmp::min;
use step_values::Value;
use wave_core::{Cell, CyclicWave, joined_from};

/// The settled waves of a case of a circuit, and the instances whose mark has a hazard in them.
#[derive(Drop)]
pub struct View<'a, W: CyclicWave<Item = Value>> {
    pub alloc: Global,
    pub circuit: &'a Circuit,
    pub waves: &'a Waves<'a, W>,
    pub hazards: &'a InstanceSet,
}

/// An event of the net behind a pin, the ticks of the wire, and whether these are inside of its
/// bounds.
#[derive(Clone, Copy)]
pub struct Behind {
    pub event: Event,
    pub wire: u16,
    pub is_inside: bool,
}

/// By how many ticks more than its wire's least delay a net's step may show at a pin.
fn reach(reading: Reading, skew: u16, wire: Delay, period: u16) -> u16
    requires skew { skew < 4096 }
    requires period { 0 < period }
    ensures is { result ≡ reach_of reading skew wire period }
    ensures within { result < period }
{
    match reading {
        Reading::Unfolded => 0,
        Reading::Folded => min(skew + (wire.max - wire.min), period - 1),
    }
}

/// What a constant may do.
fn constant(one: bool) -> Value
    ensures { result ≡ (if one then Value.One else Value.Zero) }
{
    if one { Value::One } else { Value::Zero }
}

impl<'a, W: CyclicWave<Item = Value>> View<'a, W> {
    /// How many slots there are.
    pub fn period(&self) -> u16
        ensures is { result ≡ period_of self.now.circuit.now.header }
        ensures shortest { 2 ≤ result }
        ensures longest { result ≤ 4096 }
    {
        self.circuit.header().period()
    }

    /// The slot of a tick of any period.
    pub fn slot(&self, tick: i64) -> u16
        ensures is { result ≡ slot_of (period_of self.now.circuit.now.header) tick }
        ensures within { result < period_of self.now.circuit.now.header }
    {
        tick.rem_euclid(i64::from(self.period())) as u16
    }

    /// How many ticks inside of its bound a delay is tried: a whole period tells all.
    pub fn choices(&self, delay: Delay) -> u16
        requires ordered { delay.min ≤ delay.max }
        requires short { delay.max < 65535 }
        ensures { result ≡ min (choices_of delay) (period_of self.now.circuit.now.header) }
    {
        min(delay.max - delay.min + 1, self.period())
    }

    /// Whether a net may make the step of an event at its tick, however late its wave comes.
    pub fn permits(&self, net: u32, direction: Direction, tick: i64) -> bool
        requires sees { Sees self.now.circuit.now self.now.waves.now self.now.hazards.now }
        requires net { net < length self.now.circuit.now.nets }
        ensures { let c = self.now.circuit.now in
            result ≡ is_event c (waves_of self.now.waves.now) (record {
              net = net;
              direction = direction;
              slot = slot_of (period_of c.header) tick;
            }) }
    {
        direction.is_in(self.waves.at(net).fold_at(self.slot(tick)))
    }

    /// What a net may do at a pin at a tick, by the bounds of its wire.
    fn net_value(&self, net: u32, wire: Delay, tick: i64, reading: Reading) -> Value
        requires sees { Sees self.now.circuit.now self.now.waves.now self.now.hazards.now }
        requires net { net < length self.now.circuit.now.nets }
        requires tick { IsWithin (8 * most_tick) tick }
        ensures { result ≡ shown reading (moved values (waves_of self.now.waves.now net) wire)
            (slot_of (period_of self.now.circuit.now.header) tick) }
    {
        let wave = self.waves.at(net);
        let back = reach(reading, wave.skew(), wire, self.period());
        let first = tick - i64::from(wire.min) - i64::from(back);
        joined_from(wave.wave(), self.slot(first), back + 1)
    }

    /// What a pin may do at a tick, before its complement.
    fn target_value(&self, pin: Pin, tick: i64, reading: Reading) -> Value
        requires sees { Sees self.now.circuit.now self.now.waves.now self.now.hazards.now }
        requires pin { IsPin self.now.circuit.now pin }
        requires tick { IsWithin (8 * most_tick) tick }
        ensures { let c = self.now.circuit.now in
            result ≡ shown reading (target_shown c (waves_of self.now.waves.now) pin.target)
            (slot_of (period_of c.header) tick) }
    {
        match pin.target {
            Target::Constant(one) => {
                self.circuit.header().known();
                constant(one)
            }
            Target::Net(net) => {
                self.net_value(net, wire_behind(self.circuit, pin.target), tick, reading)
            }
        }
    }

    /// What a pin may do at a tick.
    pub fn pin_value(&self, pin: Pin, tick: i64, reading: Reading) -> Value
        requires sees { Sees self.now.circuit.now self.now.waves.now self.now.hazards.now }
        requires pin { IsPin self.now.circuit.now pin }
        requires tick { IsWithin (8 * most_tick) tick }
        ensures { let c = self.now.circuit.now in
            result ≡ shown reading (pin_wave c (waves_of self.now.waves.now) pin)
            (slot_of (period_of c.header) tick) }
    {
        self.circuit.header().known();
        let value = self.target_value(pin, tick, reading);
        if pin.inverted { value.flip() } else { value }
    }

    /// What each pin may do at a tick.
    pub fn pin_values(
        &self,
        pins: &[Pin],
        tick: i64,
        reading: Reading,
    ) -> Result<List<Value>, NoMemory>
        requires sees { Sees self.now.circuit.now self.now.waves.now self.now.hazards.now }
        requires pins { All (IsPin self.now.circuit.now) pins.now }
        requires tick { IsWithin (8 * most_tick) tick }
        ensures { let c = self.now.circuit.now in IfOk result (λ found.
            found ≡ pins_shown c (waves_of self.now.waves.now) pins.now reading
            (slot_of (period_of c.header) tick)) }
    {
        let mut values = List::with_room(self.alloc, pins.len())?;
        for pin in pins {
            values.push(self.pin_value(*pin, tick, reading))?;
        }
        Ok(values)
    }

    /// Whether a pin never changes.
    pub fn is_steady(&self, pin: Pin) -> bool
        requires sees { Sees self.now.circuit.now self.now.waves.now self.now.hazards.now }
        requires pin { IsPin self.now.circuit.now pin }
        ensures { let c = self.now.circuit.now in
            result ≡ is_all_steady values
            (target_wave c.header (waves_of self.now.waves.now) pin.target).cells }
    {
        match pin.target {
            Target::Net(net) => self.waves.at(net).is_steady(),
            Target::Constant(_) => true,
        }
    }

    /// The event that shows at a pin as this one, by the wire's bound or as near to it as there is
    /// one.
    pub fn behind(&self, at: PinEvent) -> Option<Behind>
        requires sees { Sees self.now.circuit.now self.now.waves.now self.now.hazards.now }
        requires pin { IsPin self.now.circuit.now at.pin }
        requires tick { IsWithin (4 * most_tick) at.tick }
        ensures is { let c = self.now.circuit.now in
            option_map (hidden (period_of c.header)) result
            ≡ behind_pin c (waves_of self.now.waves.now) at.corner
            (slot_of (period_of c.header) at.tick) (turned at.pin.inverted at.direction)
            at.pin.target }
        ensures net { IfSome result (λ b. b.event.net < length self.now.circuit.now.nets) }
        ensures corner { IfSome result (λ b. b.event.corner ≡ at.corner) }
        ensures reading { IfSome result (λ b. b.event.reading ≡ Reading.Folded) }
        ensures tick { IfSome result (λ b. b.event.tick +ℤ pos b.wire ≡ at.tick) }
    {
        let Target::Net(net) = at.pin.target else {
            return None;
        };
        self.circuit.header().known();
        let direction = at.direction.turned(at.pin.inverted);
        let delay = wire_behind(self.circuit, at.pin.target);
        for by in 0..self.choices(delay) {
            let wire = at.corner.inside(delay, by);
            let tick = sooner(at.tick, wire);
            if self.permits(net, direction, tick) {
                return Some(Behind {
                    event: Event {
                        net,
                        direction,
                        tick,
                        corner: at.corner,
                        reading: Reading::Folded,
                    },
                    wire,
                    is_inside: by > 0,
                });
            }
        }
        None
    }

    /// The instance that drives a net, and its number.
    pub fn driver(&self, net: u32) -> Option<(u32, &'a Instance)>
        ensures number { let c = self.now.circuit.now in
            IfSome result (λ found. driver_at c.nets net ≡ Some found.0) }
        ensures found { let c = self.now.circuit.now in
            IfSome result (λ found. slice_get c.instances found.0 ≡ Some found.1.now) }
        ensures none { IfNone result (driver_of self.now.circuit.now net ≡ None) }
    {
        let number = self.circuit.net(net)?.driver?;
        Some((number, self.circuit.instance(number)?))
    }

    /// The pin that alone counts: a marked one beside which nothing changes while it lets it
    /// through.
    pub fn held_pin(&self, number: u32, element: &Instance) -> Option<usize>
        requires sees { Sees self.now.circuit.now self.now.waves.now self.now.hazards.now }
        requires is { slice_get self.now.circuit.now.instances number ≡ Some element.now }
        ensures { let c = self.now.circuit.now in
            result ≡ held_of_all c (waves_of self.now.waves.now) element.now }
    {
        let marked = marked_pin(element)?;
        if self.hazards.has(number) {
            None
        } else {
            Some(marked)
        }
    }
}

/// The pin of an element that is marked.
fn marked_pin(element: &Instance) -> Option<usize>
    ensures { result ≡ marked_of element.now }
{
    element.pins.as_slice().iter().position(|pin| pin.hold)
}

/// Whether an element listens to a pin, if one may count alone.
pub fn is_heard(element: &Instance, held: Option<usize>, place: usize) -> bool
    ensures { result ≡ is_heard_by held element.now.kind place }
{
    match held {
        Some(marked) => place == marked,
        None => element.kind.listens(place),
    }
}
