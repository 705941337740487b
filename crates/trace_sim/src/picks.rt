//! The delays that are drawn at an instance.

ghost use Rattle.std.specs.Prelude.{◌≡◌, ℕ, List, IfOk, OnOk, length, map};
ghost use Rattle.std.specs.List.{All};
ghost use Rattle.flat_circuit.specs.declared.instance.Pin.{Pin as OnePin};
ghost use Rattle.flat_circuit.specs.Instances.{PinExists, TargetExists};
ghost use Rattle.flat_circuit.specs.Split.{two_delays};
ghost use Rattle.flat_circuit.specs.Run.{DelaysFit, WireFits, WiresFit, Within};
ghost use Rattle.trace_sim.specs.Choice.{IsOneDelay, PickFits, chosen};
ghost use Rattle.trace_sim.specs.Draw.{draw_each, draw_from};
ghost use Rattle.trace_sim.specs.Drawn.{ArePicks, delays_of, draw_delays, draw_one, draw_pick, draw_wire, wires_of};

use crate::words::draw_from;
use crate::{DelayPicks, WirePicks};
use element_kinds::{Form, Kind};
use flat_circuit::{Circuit, Instance, Pin, Split, Target};
use rand_core::Rng;
use scald_base::{Delay, NoMemory};
use std::alloc::Global;
use vector_names::Indices;

fn draw_within<R: Rng>(rng: &mut R, bounds: Delay) -> u16
    ensures is { (result, R.stream rng.new) ≡ draw_from bounds.min bounds.max (R.stream rng.old) }
    ensures within { Within bounds result }
{
    bounds.known();
    draw_from(rng, u32::from(bounds.min), u32::from(bounds.max)) as u16
}

fn draw_one<R: Rng>(rng: &mut R, bounds: Delay) -> (u16, u16)
    ensures is { (result, R.stream rng.new) ≡ draw_one bounds (R.stream rng.old) }
    ensures within { Within bounds result.0 }
    ensures same { result.0 ≡ result.1 }
{
    let one = draw_within(rng, bounds);
    (one, one)
}

/// The rise and the fall delay of an instance; one delay is both.
pub(crate) fn draw_delays<R: Rng>(
    rng: &mut R,
    kind: Kind,
    bounds: Delay,
    split: Option<Split>,
) -> (u16, u16)
    ensures is { (result, R.stream rng.new) ≡ draw_delays kind bounds split (R.stream rng.old) }
    ensures within { (wires : List ℕ) → DelaysFit kind bounds split (chosen result wires) }
    ensures one { IsOneDelay kind split result }
{
    match split {
        None => match kind.form() {
            Form::Gate => draw_one(rng, bounds),
            Form::Change => (0, 0),
            Form::Register(_) => draw_one(rng, bounds),
            Form::Latch(_) => draw_one(rng, bounds),
            Form::Checker(_) => (0, 0),
        },
        Some(split) => {
            let rise = draw_within(rng, split.rise);
            let fall = draw_within(rng, split.fall);
            (rise, fall)
        }
    }
}

fn draw_wire<R: Rng>(rng: &mut R, c: &Circuit, target: Target) -> u16
    requires { TargetExists (length c.now.nets) target }
    ensures is { (result, R.stream rng.new) ≡ draw_wire c.now.nets target (R.stream rng.old) }
    ensures within { WireFits c.now.nets target result }
{
    match target {
        Target::Constant(_) => 0,
        Target::Net(n) => match c.net(n) {
            None => 0,
            Some(net) => draw_within(rng, net.wire),
        },
    }
}

/// The delays of the wires to these pins.
pub(crate) fn draw_wires<R: Rng>(
    alloc: Global,
    rng: &mut R,
    c: &Circuit,
    pins: &[Pin],
) -> Result<Indices, NoMemory>
    requires { All (PinExists (length c.now.nets)) pins.now }
    ensures is { IfOk result (λ wires. (wires, R.stream rng.new)
        ≡ draw_each (λ (p : OnePin). draw_wire c.now.nets p.target) pins.now (R.stream rng.old)) }
    ensures within { IfOk result (λ wires. WiresFit c.now.nets pins.now wires) }
{
    let mut wires = Indices::new(alloc);
    for pin in pins {
        wires.push(draw_wire(rng, c, pin.target))?;
    }
    Ok(wires)
}

fn draw_pick<R: Rng>(
    alloc: Global,
    rng: &mut R,
    c: &Circuit,
    i: &Instance,
) -> Result<((u16, u16), Indices), NoMemory>
    requires { All (PinExists (length c.now.nets)) i.now.pins }
    ensures is { IfOk result (λ pick. (pick, R.stream rng.new)
        ≡ draw_pick c.now.nets i.now (R.stream rng.old)) }
    ensures fits { IfOk result (λ pick. PickFits c.now i.now pick.0 pick.1) }
{
    let delays = draw_delays(rng, i.kind, i.delay, two_delays(i.kind, i.split));
    let wires = draw_wires(alloc, rng, c, i.pins.as_slice())?;
    Ok((delays, wires))
}

/// The delays at all instances, and those of the wires to their pins.
pub(crate) fn draw_picks<R: Rng>(
    alloc: Global,
    rng: &mut R,
    c: &Circuit,
) -> Result<(DelayPicks, WirePicks), NoMemory>
    ensures delays { IfOk result (λ picks. picks.0
        ≡ map delays_of (draw_each (draw_pick c.now.nets) c.now.instances (R.stream rng.old)).0) }
    ensures wires { IfOk result (λ picks. picks.1
        ≡ map wires_of (draw_each (draw_pick c.now.nets) c.now.instances (R.stream rng.old)).0) }
    ensures rest { OnOk result (R.stream rng.new
        ≡ (draw_each (draw_pick c.now.nets) c.now.instances (R.stream rng.old)).1) }
    ensures fit { IfOk result (λ picks. ArePicks c.now (length c.now.instances) picks.0 picks.1) }
{
    c.known();
    let mut delays = DelayPicks::new(alloc);
    let mut wires = WirePicks::new(alloc);
    for k in 0..c.instance_count() {
        let (pick, row) = draw_pick(alloc, rng, c, c.instance(k).unwrap())?;
        delays.push(pick)?;
        wires.push(row)?;
    }
    Ok((delays, wires))
}

fn two_delays(kind: Kind, split: Option<Split>) -> Option<Split>
    ensures { result ≡ two_delays kind split }
{
    if kind.may_split() { split } else { None }
}
