//! The checkers that hold an input against the edges of a clock.

ghost use Rattle.std.specs.Prelude.{◌≡◌, ◌+◌, ◌≤◌, IfOk, length, slice_get, true};
ghost use Rattle.scald_base.specs.Time.{period};
ghost use Rattle.flat_circuit.specs.Instances.{InstanceFits, PinExists};
ghost use Rattle.flat_circuit.specs.Limits.{hold_of, setup_of};
ghost use Rattle.fixpoint_engine.specs.Waves.{FitWaves, waves_of, pin_wave as wave_shown};
ghost use Rattle.point_check.specs.Point.{checker_fault as fault_of_checker};
ghost use Rattle.element_kinds.specs.Kinds.{checks_points};
ghost use Rattle.point_check.specs.Faults.{IsPointChecker, limited_fault as fault_with, limited_fault_at};

use crate::edges::first_fault;
use crate::folds::LastFold;
use crate::last_check::Constraint;
use crate::recent::Recent;
use fixpoint_engine::{Waves, pin_wave};
use flat_circuit::{Circuit, Fault, Instance, Limits};
use scald_base::NoMemory;
use skew_algebra::Skewed;
use std::alloc::Global;
use step_values::Value;
use wave_core::CyclicWave;

/// The fault of a checker by the waves at its clock and its input.
fn fault_between<W: CyclicWave<Item = Value>>(
    alloc: Global,
    clocks: &mut LastFold<W>,
    asked: Constraint,
    clock: &Skewed<W>,
    input: &Skewed<W>,
) -> Result<Option<Fault>, NoMemory>
    requires limits { setup_of asked.limits + hold_of asked.limits ≤ length clock.now.cells }
    requires periods { length input.now.cells ≡ length clock.now.cells }
    ensures { IfOk result (λ found. found ≡ fault_of_checker asked.kind (length clock.now.cells)
        asked.instance clock.now input.now asked.limits) }
{
    clock.known();
    input.known();
    if input.is_steady() {
        return Ok(None);
    }
    let clock_folds = clocks.of(alloc, clock)?;
    let input_folds = input.folded(alloc)?;
    Ok(first_fault(
        asked.kind,
        asked.instance,
        &clock_folds,
        &input_folds,
        asked.limits,
    ))
}

/// The fault of a checker.
fn checker_fault<W: CyclicWave<Item = Value>>(
    alloc: Global,
    clocks: &mut LastFold<W>,
    c: &Circuit,
    waves: &Waves<W>,
    asked: Constraint,
) -> Result<Option<Fault>, NoMemory>
    requires clock { PinExists (length c.now.nets) asked.clock }
    requires input { PinExists (length c.now.nets) asked.input }
    requires limits { setup_of asked.limits + hold_of asked.limits ≤ period c.now.header }
    requires fit { FitWaves c.now waves.now }
    ensures { let ws = waves_of waves.now in
        IfOk result (λ found. found ≡ fault_of_checker asked.kind (period c.now.header)
        asked.instance (wave_shown c.now ws asked.clock) (wave_shown c.now ws asked.input)
        asked.limits) }
{
    let clock_wave = pin_wave(alloc, c, waves, asked.clock)?;
    let input_wave = pin_wave(alloc, c, waves, asked.input)?;
    let found = fault_between(alloc, clocks, asked, &clock_wave, &input_wave)?;
    Ok(found)
}

/// The fault of a checker, which is not worked out if the last one asked the same of the same
/// waves.
fn fault_once<W: CyclicWave<Item = Value>>(
    alloc: Global,
    recent: &mut Recent<W>,
    c: &Circuit,
    waves: &Waves<W>,
    asked: Constraint,
) -> Result<Option<Fault>, NoMemory>
    requires clock { PinExists (length c.now.nets) asked.clock }
    requires input { PinExists (length c.now.nets) asked.input }
    requires limits { setup_of asked.limits + hold_of asked.limits ≤ period c.now.header }
    requires fit { FitWaves c.now waves.now }
    ensures { let ws = waves_of waves.now in
        IfOk result (λ found. found ≡ fault_of_checker asked.kind (period c.now.header)
        asked.instance (wave_shown c.now ws asked.clock) (wave_shown c.now ws asked.input)
        asked.limits) }
{
    if let Some(found) = recent.check.found(c, waves, asked) {
        return Ok(found);
    }
    let found = checker_fault(alloc, &mut recent.clock, c, waves, asked)?;
    recent.check.keep(alloc, c, waves, asked, found)?;
    Ok(found)
}

/// The fault of a checker with these limits.
pub fn limited_fault<W: CyclicWave<Item = Value>>(
    alloc: Global,
    recent: &mut Recent<W>,
    c: &Circuit,
    waves: &Waves<W>,
    number: u32,
    checker: &Instance,
    limits: Limits,
) -> Result<Option<Fault>, NoMemory>
    requires checker { checks_points checker.now.kind ≡ true }
    requires fits { InstanceFits c.now.header (length c.now.nets) checker.now }
    requires limits { setup_of limits + hold_of limits ≤ period c.now.header }
    requires fit { FitWaves c.now waves.now }
    ensures { let ws = waves_of waves.now in
        IfOk result (λ found. found ≡ fault_with c.now ws number checker.now limits) }
{
    let pins = checker.pins.as_slice();
    let asked = Constraint {
        kind: checker.kind,
        instance: number,
        limits,
        clock: pins[0],
        input: pins[1],
    };
    let found = fault_once(alloc, recent, c, waves, asked)?;
    Ok(found)
}

/// The fault that a `SETUP_HOLD_CHK` or a `SETUP_RISE_HOLD_FALL_CHK` has with these setup and hold
/// times, in ticks, in place of its own: that of the first slot of its clock at which the clock may
/// rise while its input may change in the edge's window, and the first such change. `None` exactly
/// if there is none.
pub fn point_fault<W: CyclicWave<Item = Value>>(
    alloc: Global,
    c: &Circuit,
    waves: &Waves<W>,
    instance: u32,
    limits: Limits,
) -> Result<Option<Fault>, NoMemory>
    requires checker { IsPointChecker (slice_get c.now.instances instance) }
    requires limits { setup_of limits + hold_of limits ≤ period c.now.header }
    requires fit { FitWaves c.now waves.now }
    ensures { let ws = waves_of waves.now in
        IfOk result (λ found. found ≡ limited_fault_at c.now ws instance limits) }
{
    c.known();
    match c.instance(instance) {
        None => unreachable!(),
        Some(checker) => {
            let recent = &mut Recent::new();
            let found = limited_fault(alloc, recent, c, waves, instance, checker, limits)?;
            Ok(found)
        }
    }
}
