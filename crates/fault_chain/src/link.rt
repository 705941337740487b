//! One link after another.

ghost use Rattle.std.specs.Prelude.{◌≡◌, ◌<◌, ◌≤◌, IfSome, length};
ghost use Rattle.scald_base.specs.Clock.{back};
ghost use Rattle.flat_circuit.specs.Instances.{InstanceFits, TargetExists};
ghost use Rattle.fixpoint_engine.specs.Waves.{FitWaves, waves_of};
ghost use Rattle.fault_chain.specs.Chain.{first_back, link_at_net, link_at_pin, link_back, next_link, through};

use crate::chain::Link;
use fixpoint_engine::Waves;
use flat_circuit::{Circuit, Instance, Target};
use scald_base::Delay;
use step_values::Value;
use wave_core::{Cell, CyclicWave};

/// The slot so many ticks before another, round a period.
fn slot_back(period: u16, slot: u16, late: u16) -> u16
    requires period { 0 < period }
    requires longest { period ≤ 4096 }
    ensures is { result ≡ back period slot late }
    ensures within { result < period }
{
    (slot % period + (period - late % period)) % period
}

/// What a net may do so many ticks before a slot.
fn link_back<W: CyclicWave<Item = Value>>(
    c: &Circuit,
    waves: &Waves<W>,
    net: u32,
    slot: u16,
    late: u16,
) -> Link
    requires exists { net < length c.now.nets }
    requires fit { FitWaves c.now waves.now }
    ensures { result ≡ link_back c.now (waves_of waves.now) net slot late }
{
    c.header().known();
    let at = slot_back(c.header().period(), slot, late);
    let wave = waves.at(net);
    Link {
        net,
        slot: at,
        value: wave.fold_at(at),
    }
}

/// The latest change of a net that may show in a slot, late by a delay within these bounds. A net
/// that never changes is not looked at slot by slot.
fn first_back<W: CyclicWave<Item = Value>>(
    c: &Circuit,
    waves: &Waves<W>,
    net: u32,
    slot: u16,
    least: u16,
    greatest: u16,
) -> Option<Link>
    requires exists { net < length c.now.nets }
    requires bounds { least ≤ greatest }
    requires small { greatest ≤ 8190 }
    requires fit { FitWaves c.now waves.now }
    ensures is { result ≡ first_back c.now (waves_of waves.now) net slot
        (record { min = least; max = greatest }) }
    ensures net { IfSome result (λ link. link.net < length c.now.nets) }
{
    c.header().known();
    if waves.at(net).is_steady() {
        return None;
    }
    for late in least..greatest + 1 {
        let link = link_back(c, waves, net, slot, late);
        if !link.value.quiet() {
            return Some(link);
        }
    }
    None
}

/// The latest change of a pin's net that may show in a slot, late by the wire and then by a delay
/// within these bounds. A constant has none.
fn through<W: CyclicWave<Item = Value>>(
    c: &Circuit,
    waves: &Waves<W>,
    slot: u16,
    delay: Delay,
    target: Target,
) -> Option<Link>
    requires exists { TargetExists (length c.now.nets) target }
    requires fit { FitWaves c.now waves.now }
    ensures is { result ≡ through c.now (waves_of waves.now) slot delay target }
    ensures net { IfSome result (λ link. link.net < length c.now.nets) }
{
    match target {
        Target::Constant(_) => None,
        Target::Net(net) => match c.net(net) {
            None => None,
            Some(found) => {
                let wire = found.wire;
                first_back(
                    c,
                    waves,
                    net,
                    slot,
                    wire.min + delay.min,
                    wire.max + delay.max,
                )
            }
        },
    }
}

/// The change that shows in a slot of an element's output: that of the first pin that the element
/// listens to and that has one.
pub fn next_link<W: CyclicWave<Item = Value>>(
    c: &Circuit,
    waves: &Waves<W>,
    element: &Instance,
    slot: u16,
) -> Option<Link>
    requires fits { InstanceFits c.now.header (length c.now.nets) element.now }
    requires fit { FitWaves c.now waves.now }
    ensures is { result ≡ next_link c.now (waves_of waves.now) element.now slot }
    ensures net { IfSome result (λ link. link.net < length c.now.nets) }
{
    let pins = element.pins.as_slice();
    for place in 0..pins.len() {
        if element.kind.listens(place) {
            let link = through(c, waves, slot, element.delay, pins[place].target);
            if link.is_some() {
                return link;
            }
        }
    }
    None
}

/// The change that shows in a slot of a pin of an instance; `None` if there is no such pin too.
pub fn link_at_pin<W: CyclicWave<Item = Value>>(
    c: &Circuit,
    waves: &Waves<W>,
    instance: u32,
    place: u16,
    slot: u16,
) -> Option<Link>
    requires fit { FitWaves c.now waves.now }
    ensures is { result ≡ link_at_pin c.now (waves_of waves.now) instance place slot }
    ensures net { IfSome result (λ link. link.net < length c.now.nets) }
{
    c.known();
    match c.instance(instance) {
        None => None,
        Some(found) => match found.pins.get(usize::from(place)) {
            None => None,
            Some(pin) => through(c, waves, slot, Delay { min: 0, max: 0 }, pin.target),
        },
    }
}

/// What a net does in a slot, whether it may change there or not; `None` if there is no such
/// net.
pub fn link_at_net<W: CyclicWave<Item = Value>>(
    c: &Circuit,
    waves: &Waves<W>,
    net: u32,
    slot: u16,
) -> Option<Link>
    requires fit { FitWaves c.now waves.now }
    ensures is { result ≡ link_at_net c.now (waves_of waves.now) net slot }
    ensures net { IfSome result (λ link. link.net < length c.now.nets) }
{
    match c.net(net) {
        None => None,
        Some(_) => Some(link_back(c, waves, net, slot, 0)),
    }
}
