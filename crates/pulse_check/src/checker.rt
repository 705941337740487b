//! A checker of pulses.

ghost use Rattle.std.specs.Prelude.{◌≡◌, ◌≤◌, ◌++◌, IfOk, OnOk, length, slice_get, true};
ghost use Rattle.scald_base.specs.Time.{period};
ghost use Rattle.flat_circuit.specs.Instances.{InstanceFits};
ghost use Rattle.fixpoint_engine.specs.Waves.{FitWaves, waves_of};
ghost use Rattle.element_kinds.specs.Kinds.{checks_pulses};
ghost use Rattle.pulse_check.specs.Faults.{IsPulseChecker, faults_by_kind, limited_fault_at, pin_of, width_fault as fault_of_wave};

use crate::pulse::first_narrow;
use fixpoint_engine::{Waves, pin_wave};
use flat_circuit::{Circuit, Fault, Faults, Instance};
use scald_base::NoMemory;
use skew_algebra::Skewed;
use std::alloc::Global;
use step_values::Value;
use wave_core::CyclicWave;

/// The fault of a checker by the wave at its pin.
fn fault_in<W: CyclicWave<Item = Value>>(
    wave: &Skewed<W>,
    instance: u32,
    high: bool,
    width: u16,
) -> Option<Fault>
    requires { width ≤ length wave.now.cells }
    ensures { result ≡ fault_of_wave (length wave.now.cells) instance wave.now high width }
{
    match first_narrow(wave.wave(), high, width) {
        None => None,
        Some((from, width)) => Some(Fault::Width {
            instance,
            high,
            from,
            width,
        }),
    }
}

/// The wave at a checker's pin.
pub fn checked_wave<W: CyclicWave<Item = Value>>(
    alloc: Global,
    c: &Circuit,
    waves: &Waves<W>,
    checker: &Instance,
) -> Result<Skewed<W>, NoMemory>
    requires checker { checks_pulses checker.now.kind ≡ true }
    requires fits { InstanceFits c.now.header (length c.now.nets) checker.now }
    requires fit { FitWaves c.now waves.now }
    ensures wave { IfOk result (λ s. s ≡ pin_of c.now (waves_of waves.now) checker.now) }
    ensures sized { IfOk result (λ s. length s.cells ≡ period c.now.header) }
{
    let pins = checker.pins.as_slice();
    pin_wave(alloc, c, waves, pins[0])
}

/// The fault that a `MIN_PULSE_CHK` has of its high pulses, or of its low ones, with this least
/// width, in slots, in place of its own: the first slot in which a narrower pulse may begin, and
/// the least width of such a pulse. `None` exactly if there is none.
pub fn width_fault<W: CyclicWave<Item = Value>>(
    alloc: Global,
    c: &Circuit,
    waves: &Waves<W>,
    instance: u32,
    high: bool,
    width: u16,
) -> Result<Option<Fault>, NoMemory>
    requires checker { IsPulseChecker (slice_get c.now.instances instance) }
    requires limit { width ≤ period c.now.header }
    requires fit { FitWaves c.now waves.now }
    ensures { IfOk result (λ found.
        found ≡ limited_fault_at c.now (waves_of waves.now) instance high width) }
{
    c.known();
    match c.instance(instance) {
        None => unreachable!(),
        Some(checker) => {
            let wave = checked_wave(alloc, c, waves, checker)?;
            Ok(fault_in(&wave, instance, high, width))
        }
    }
}

/// Appends the faults of a checker: that of its high pulses, and then that of its low ones.
pub fn add_checker_faults<W: CyclicWave<Item = Value>>(
    faults: &mut Faults,
    alloc: Global,
    c: &Circuit,
    waves: &Waves<W>,
    number: u32,
    checker: &Instance,
) -> Result<(), NoMemory>
    requires checker { checks_pulses checker.now.kind ≡ true }
    requires fits { InstanceFits c.now.header (length c.now.nets) checker.now }
    requires fit { FitWaves c.now waves.now }
    ensures { OnOk result
        (faults.new ≡ faults.old ++ faults_by_kind checker.now.kind c.now
        (waves_of waves.now) number checker.now) }
{
    let wave = checked_wave(alloc, c, waves, checker)?;
    if let Some(fault) = fault_in(&wave, number, true, checker.limits.high()) {
        faults.push(fault)?;
    }
    if let Some(fault) = fault_in(&wave, number, false, checker.limits.low()) {
        faults.push(fault)?;
    }
    Ok(())
}
