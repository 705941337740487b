//! Marks whose rule holds in a case, and nets that pass something on.

ghost use Rattle.std.specs.Prelude.{◌≡◌, ◌<◌, IfOk, length, slice_get, slice_set};
ghost use Rattle.flat_circuit.specs.Instances.{InstanceFits};
ghost use Rattle.fixpoint_engine.specs.Waves.{FitWaves, marked_pin as marked, waves_of};
ghost use Rattle.drawing_notes.specs.Doubts.{ArePassable};
ghost use Rattle.drawing_notes.specs.Parts.{together};
ghost use Rattle.drawing_notes.specs.Passing.{AreHeld, is_passable as spec_is_passable, keeps_at, keeps_mark as spec_keeps_mark};
ghost use Rattle.drawing_notes.specs.Paths.{is_looped};

use crate::loop_notes::part_at;
use crate::loops::Part;
// a set of numbers: here of instances too
use fixpoint_engine::{NetSet, NetSet as InstanceSet, Waves, waves_at_pins};
use flat_circuit::{Circuit, Instance};
use gate_eval::hold_fault;
use scald_base::NoMemory;
use std::alloc::Global;
use step_values::Value;
use wave_core::CyclicWave;

/// Puts a number into a set, or takes it out.
pub(crate) fn put(set: &mut NetSet, number: u32, inside: bool)
    requires { number < length set.old }
    ensures { set.new ≡ slice_set set.old number inside }
{
    if inside {
        set.add(number);
    } else {
        set.remove(number);
    }
}

/// Which pin is marked.
pub(crate) fn marked_pin(instance: &Instance) -> Option<usize>
    ensures { result ≡ marked instance.now }
{
    instance.pins.as_slice().iter().position(|pin| pin.hold)
}

/// Whether a pin is marked, and the rule of the mark holds.
fn keeps_mark<W: CyclicWave<Item = Value>>(
    alloc: Global,
    c: &Circuit,
    waves: &Waves<W>,
    instance: &Instance,
) -> Result<bool, NoMemory>
    requires fits { InstanceFits c.now.header (length c.now.nets) instance.now }
    requires fit { FitWaves c.now waves.now }
    ensures { IfOk result (λ keeps.
        keeps ≡ spec_keeps_mark c.now (waves_of waves.now) instance.now) }
{
    if marked_pin(instance).is_none() {
        return Ok(false);
    }
    c.header().known();
    let pins = waves_at_pins(alloc, c, waves, instance.pins.as_slice())?;
    Ok(hold_fault(instance.kind, &pins).is_none())
}

/// The same of the instance of a number.
fn keeps_mark_at<W: CyclicWave<Item = Value>>(
    alloc: Global,
    c: &Circuit,
    waves: &Waves<W>,
    number: u32,
) -> Result<bool, NoMemory>
    requires fit { FitWaves c.now waves.now }
    ensures { IfOk result (λ keeps.
        keeps ≡ keeps_at c.now (waves_of waves.now) (slice_get c.now.instances number)) }
{
    c.known();
    match c.instance(number) {
        Some(instance) => keeps_mark(alloc, c, waves, instance),
        None => Ok(false),
    }
}

/// The instances with a mark whose rule holds.
pub(crate) fn held<W: CyclicWave<Item = Value>>(
    alloc: Global,
    c: &Circuit,
    waves: &Waves<W>,
) -> Result<InstanceSet, NoMemory>
    requires { FitWaves c.now waves.now }
    ensures { IfOk result (AreHeld c.now (waves_of waves.now)) }
{
    let mut set = InstanceSet::new(alloc, c.instance_count())?;
    for number in 0..c.instance_count() {
        let keeps = keeps_mark_at(alloc, c, waves, number)?;
        put(&mut set, number, keeps);
    }
    Ok(set)
}

/// Whether a net passes something on: it is on no loop, and may change.
fn is_passable<W: CyclicWave<Item = Value>>(
    c: &Circuit,
    parts: &[Part],
    waves: &Waves<W>,
    net: u32,
) -> bool
    requires exists { net < length c.now.nets }
    requires fit { FitWaves c.now waves.now }
    ensures { result ≡ spec_is_passable c.now (is_looped (together parts.now)) (waves_of waves.now)
        net }
{
    if part_at(parts, net).is_some() {
        return false;
    }
    !waves.at(net).is_steady()
}

/// All nets that do.
pub(crate) fn passable<W: CyclicWave<Item = Value>>(
    alloc: Global,
    c: &Circuit,
    parts: &[Part],
    waves: &Waves<W>,
) -> Result<NetSet, NoMemory>
    requires { FitWaves c.now waves.now }
    ensures { IfOk result (ArePassable c.now (is_looped (together parts.now))
        (waves_of waves.now)) }
{
    let mut set = NetSet::new(alloc, c.net_count())?;
    for net in 0..c.net_count() {
        let passes = is_passable(c, parts, waves, net);
        put(&mut set, net, passes);
    }
    Ok(set)
}
