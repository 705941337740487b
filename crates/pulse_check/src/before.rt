//! What is known of waves that were checked before, and is still so.

ghost use Rattle.std.specs.Prelude.{◌≡◌, IsTrue, IfSome, Some, length, slice_get, true};
ghost use Rattle.flat_circuit.specs.Instances.{InstanceFits};
ghost use Rattle.fixpoint_engine.specs.Waves.{FitWaves, waves_of};
ghost use Rattle.element_kinds.specs.Kinds.{checks_pulses};
ghost use Rattle.pulse_check.specs.Faults.{instance_faults, pin_of};
ghost use Rattle.pulse_check.specs.Known.{AreChecked};

use crate::known::PulseFaults;
use fixpoint_engine::{Waves, has_one_wave_at};
use flat_circuit::{Circuit, Faults, Instance};
use step_values::Value;
use wave_core::CyclicWave;

/// Waves of all nets that were checked before, and the faults of each instance in them.
#[derive(Drop)]
pub struct Before<'a, W: CyclicWave<Item = Value>> {
    pub waves: &'a Waves<'a, W>,
    pub known: &'a PulseFaults,
}

/// Whether the pin of a checker is on one wave in both: what the pin shows is the same then.
fn is_checked_as_before<W: CyclicWave<Item = Value>>(
    c: &Circuit,
    before: &Waves<W>,
    waves: &Waves<W>,
    checker: &Instance,
) -> bool
    requires checker { checks_pulses checker.now.kind ≡ true }
    requires fits { InstanceFits c.now.header (length c.now.nets) checker.now }
    requires before { FitWaves c.now before.now }
    requires fit { FitWaves c.now waves.now }
    ensures { IsTrue result →
        pin_of c.now (waves_of before.now) checker.now
        ≡ pin_of c.now (waves_of waves.now) checker.now }
{
    let pins = checker.pins.as_slice();
    has_one_wave_at(c, before, waves, pins[0])
}

/// The faults that the checker of a number had before, if its pin is on the same wave: it has
/// the same faults then.
pub fn faults_before<'a, W: CyclicWave<Item = Value>>(
    c: &Circuit,
    before: &'a Before<'a, W>,
    waves: &Waves<W>,
    number: u32,
    checker: &Instance,
) -> Option<&'a Faults>
    requires checker { checks_pulses checker.now.kind ≡ true }
    requires at { Some checker.now ≡ slice_get c.now.instances number }
    requires before { AreChecked c.now before.now.waves.now before.now.known.now }
    requires fit { FitWaves c.now waves.now }
    ensures { IfSome result (λ found.
        found.now ≡ instance_faults c.now (waves_of waves.now) number) }
{
    c.known();
    if !is_checked_as_before(c, before.waves, waves, checker) {
        return None;
    }
    let known = before.known.as_slice();
    Some(&known[number as usize])
}
