//! What is known of waves that were checked before, and is still so.

ghost use Rattle.std.specs.Prelude.{◌≡◌, ◌<◌, ◌↔◌, IsTrue, IfSome, Some, length, slice_get};
ghost use Rattle.std.specs.List.{All};
ghost use Rattle.flat_circuit.specs.Instances.{PinExists};
ghost use Rattle.fixpoint_engine.specs.Waves.{FitWaves, waves_of};
ghost use Rattle.fixpoint_engine.specs.SameWaves.{IsSameAt};
ghost use Rattle.point_check.specs.Faults.{instance_fault as fault_of_instance, net_fault as fault_of_net};
ghost use Rattle.point_check.specs.Known.{AreChecked};

use crate::known::PointFaults;
use fixpoint_engine::{Waves, has_one_wave, has_one_wave_at};
use flat_circuit::{Circuit, Fault, Instance, Pin};
use step_values::Value;
use wave_core::CyclicWave;

/// Waves of all nets that were checked before, and the fault of each instance and of each net in
/// them.
#[derive(Drop)]
pub struct Before<'a, W: CyclicWave<Item = Value>> {
    pub waves: &'a Waves<'a, W>,
    pub known: &'a PointFaults,
}

/// Whether what each of these pins is on has one wave in both.
fn have_one_wave_at<W: CyclicWave<Item = Value>>(
    c: &Circuit,
    before: &Waves<W>,
    waves: &Waves<W>,
    pins: &[Pin],
) -> bool
    requires exist { All (PinExists (length c.now.nets)) pins.now }
    requires before { FitWaves c.now before.now }
    requires fit { FitWaves c.now waves.now }
    ensures { IsTrue result ↔ All (IsSameAt (waves_of before.now) (waves_of waves.now)) pins.now }
{
    for pin in pins {
        if !has_one_wave_at(c, before, waves, *pin) {
            return false;
        }
    }
    true
}

/// The fault that the instance of a number had before, if it has the same waves at its pins: it
/// has the same fault then.
pub fn instance_before<W: CyclicWave<Item = Value>>(
    c: &Circuit,
    before: &Before<W>,
    waves: &Waves<W>,
    number: u32,
    instance: &Instance,
) -> Option<Option<Fault>>
    requires at { Some instance.now ≡ slice_get c.now.instances number }
    requires before { AreChecked c.now before.now.waves.now before.now.known.now }
    requires fit { FitWaves c.now waves.now }
    ensures { IfSome result (λ found. found ≡ fault_of_instance c.now (waves_of waves.now) number) }
{
    c.known();
    let pins = instance.pins.as_slice();
    if !have_one_wave_at(c, before.waves, waves, pins) {
        return None;
    }
    let known = before.known.instances.as_slice();
    Some(known[number as usize])
}

/// The fault that the net of a number had before, if it has the same wave: it has the same fault
/// then.
pub fn net_before<W: CyclicWave<Item = Value>>(
    c: &Circuit,
    before: &Before<W>,
    waves: &Waves<W>,
    number: u32,
) -> Option<Option<Fault>>
    requires exists { number < length c.now.nets }
    requires before { AreChecked c.now before.now.waves.now before.now.known.now }
    requires fit { FitWaves c.now waves.now }
    ensures { IfSome result (λ found. found ≡ fault_of_net c.now (waves_of waves.now) number) }
{
    if !has_one_wave(c, before.waves, waves, number) {
        return None;
    }
    let known = before.known.nets.as_slice();
    Some(known[number as usize])
}
