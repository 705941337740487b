//! The faults of a whole circuit.

ghost use Rattle.std.specs.Prelude.{◌≡◌, ◌++◌, IfOk, IfSome, OnOk, length, map};
ghost use Rattle.std.specs.List.{range_with_len};
ghost use Rattle.fixpoint_engine.specs.Waves.{FitWaves, waves_of};
ghost use Rattle.pulse_check.specs.Faults.{instance_faults, width_faults};
ghost use Rattle.pulse_check.specs.Known.{AreChecked};
ghost use Rattle.pulse_check.specs.Sound.{KeepsWidths};

use crate::before::{Before, faults_before};
use crate::checker::add_checker_faults;
use crate::known::PulseFaults;
use fixpoint_engine::Waves;
use flat_circuit::{Circuit, Faults, append_faults};
use scald_base::NoMemory;
use std::alloc::Global;
use step_values::Value;
use wave_core::CyclicWave;

/// Appends the faults of the instance of a number. Most instances are no checkers of pulses, and
/// are asked no more than that. If the faults are known from before, the instance is not checked
/// again.
#[inline(always)]
pub fn add_faults<W: CyclicWave<Item = Value>>(
    faults: &mut Faults,
    alloc: Global,
    c: &Circuit,
    before: &Option<Before<W>>,
    waves: &Waves<W>,
    number: u32,
) -> Result<(), NoMemory>
    requires before { IfSome before.now (λ b. AreChecked c.now b.waves.now b.known.now) }
    requires fit { FitWaves c.now waves.now }
    ensures { OnOk result (faults.new
        ≡ faults.old ++ instance_faults c.now (waves_of waves.now) number) }
{
    c.known();
    let Some(instance) = c.instance(number) else {
        return Ok(());
    };
    if !instance.kind.checks_pulses() {
        return Ok(());
    }
    if let Some(before) = before {
        if let Some(found) = faults_before(c, before, waves, number, instance) {
            return append_faults(faults, found);
        }
    }
    add_checker_faults(faults, alloc, c, waves, number, instance)
}

/// The faults of all checkers, in the order of the report.
fn all_faults<W: CyclicWave<Item = Value>>(
    alloc: Global,
    c: &Circuit,
    before: &Option<Before<W>>,
    waves: &Waves<W>,
) -> Result<Faults, NoMemory>
    requires before { IfSome before.now (λ b. AreChecked c.now b.waves.now b.known.now) }
    requires fit { FitWaves c.now waves.now }
    ensures faults { IfOk result (λ faults. faults ≡ width_faults c.now (waves_of waves.now)) }
    ensures sound { IfOk result (KeepsWidths c.now (waves_of waves.now)) }
{
    c.known();
    c.header().known();
    let mut faults = Faults::new(alloc);
    for number in 0..c.instance_count() {
        add_faults(&mut faults, alloc, c, before, waves, number)?;
    }
    Ok(faults)
}

/// The faults that these settled waves of all nets show: pulses that may be narrower than a checker
/// asks for, by the order of expansion, of each checker that of its high pulses and then that of
/// its low ones. What the waves permit from a tick on has no narrow pulse from there on, if the
/// answer has no fault of it.
pub fn check_pulses<W: CyclicWave<Item = Value>>(
    alloc: Global,
    c: &Circuit,
    waves: &Waves<W>,
) -> Result<Faults, NoMemory>
    requires { FitWaves c.now waves.now }
    ensures faults { IfOk result (λ faults. faults ≡ width_faults c.now (waves_of waves.now)) }
    ensures sound { IfOk result (KeepsWidths c.now (waves_of waves.now)) }
{
    all_faults(alloc, c, &None, waves)
}

/// What [`check_pulses`] answers for these waves, if the faults of each instance in others are
/// known. A checker whose pin is on the same wave in both does not measure it again.
pub fn check_pulses_again<W: CyclicWave<Item = Value>>(
    alloc: Global,
    c: &Circuit,
    before: &Waves<W>,
    known: &PulseFaults,
    waves: &Waves<W>,
) -> Result<Faults, NoMemory>
    requires before { FitWaves c.now before.now }
    requires known { known.now ≡ map (instance_faults c.now (waves_of before.now))
        (range_with_len 0 (length c.now.instances)) }
    requires fit { FitWaves c.now waves.now }
    ensures faults { IfOk result (λ faults. faults ≡ width_faults c.now (waves_of waves.now)) }
    ensures sound { IfOk result (KeepsWidths c.now (waves_of waves.now)) }
{
    let before = Before {
        waves: before,
        known,
    };
    all_faults(alloc, c, &Some(before), waves)
}
