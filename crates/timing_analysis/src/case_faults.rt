//! The faults of a case.

ghost use Rattle.std.specs.Prelude.{◌≡◌, ◌+◌, ◌++◌, ◌≤◌, ℕ, List, IfOk, OnOk, length};
ghost use Rattle.fixpoint_engine.specs.Waves.{FitWaves, waves_of};
ghost use Rattle.fixpoint_engine.specs.Reach.{reach};
ghost use Rattle.flat_circuit.specs.declared.case.CaseValue.{CaseValue};
ghost use Rattle.case_analysis.specs.Case.{PermitCase};
ghost use Rattle.case_analysis.specs.Tick.{tick};
ghost use Rattle.timing_analysis.specs.Case.{faults_of};
ghost use Rattle.timing_analysis.specs.Known.{IsKnown};
ghost use Rattle.timing_analysis.specs.Promise.{KeepsFaultless};

use fixpoint_engine::Waves;
use flat_circuit::{Circuit, Faults, append_faults};
use point_check::{PointFaults, check_points, check_points_again, known_points};
use pulse_check::{PulseFaults, check_pulses, check_pulses_again, known_pulses};
use scald_base::NoMemory;
use std::alloc::Global;
use step_values::Value;
use wave_core::CyclicWave;

/// The faults of each instance and of each net in some waves, by their numbers.
#[derive(Drop)]
pub struct KnownFaults {
    pub points: PointFaults,
    pub pulses: PulseFaults,
}

/// The faults that the settled waves of all nets show: about the edges of clocks, at marked pins
/// and of assertions, and then of the widths of pulses. If the waves permit the runs of a case
/// after so many rounds of the base and of the case, what has no fault is never broken in them from
/// the tick on that is printed for these.
pub fn faults<W: CyclicWave<Item = Value>>(
    alloc: Global,
    circuit: &Circuit,
    waves: &Waves<W>,
) -> Result<Faults, NoMemory>
    requires { FitWaves circuit.now waves.now }
    ensures are { IfOk result (λ faults. faults ≡ faults_of circuit.now (waves_of waves.now)) }
    ensures few { IfOk result (λ faults. length faults ≤ 458752) }
    ensures keep { IfOk result (λ faults. (values : List CaseValue) (base rounds : ℕ) →
        PermitCase circuit.now values (base + rounds) (waves_of waves.now) →
        KeepsFaultless circuit.now values faults (tick (reach circuit.now) base rounds)) }
{
    circuit.known();
    circuit.header().known();
    let mut faults = check_points(alloc, circuit, waves)?;
    let pulses = check_pulses(alloc, circuit, waves)?;
    append_faults(&mut faults, &pulses)?;
    Ok(faults)
}

/// The faults of each instance and of each net that the settled waves of all nets show.
pub fn known_faults<W: CyclicWave<Item = Value>>(
    alloc: Global,
    circuit: &Circuit,
    waves: &Waves<W>,
) -> Result<KnownFaults, NoMemory>
    requires { FitWaves circuit.now waves.now }
    ensures { IfOk result (IsKnown circuit.now (waves_of waves.now)) }
{
    let points = known_points(alloc, circuit, waves)?;
    let pulses = known_pulses(alloc, circuit, waves)?;
    Ok(KnownFaults { points, pulses })
}

/// What [`faults`] answers for these waves, if the faults of each instance and of each net in
/// others are known. What has the same waves in both is not checked again.
pub fn faults_again<W: CyclicWave<Item = Value>>(
    alloc: Global,
    circuit: &Circuit,
    before: &Waves<W>,
    known: &KnownFaults,
    waves: &Waves<W>,
) -> Result<Faults, NoMemory>
    requires before { FitWaves circuit.now before.now }
    requires known { IsKnown circuit.now (waves_of before.now) known.now }
    requires fit { FitWaves circuit.now waves.now }
    ensures are { IfOk result (λ faults. faults ≡ faults_of circuit.now (waves_of waves.now)) }
    ensures few { IfOk result (λ faults. length faults ≤ 458752) }
    ensures keep { IfOk result (λ faults. (values : List CaseValue) (base rounds : ℕ) →
        PermitCase circuit.now values (base + rounds) (waves_of waves.now) →
        KeepsFaultless circuit.now values faults (tick (reach circuit.now) base rounds)) }
{
    circuit.known();
    circuit.header().known();
    let mut faults = check_points_again(alloc, circuit, before, &known.points, waves)?;
    let pulses = check_pulses_again(alloc, circuit, before, &known.pulses, waves)?;
    append_faults(&mut faults, &pulses)?;
    Ok(faults)
}
