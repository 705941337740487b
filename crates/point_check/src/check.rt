//! The faults of a whole circuit.

ghost use Rattle.std.specs.Prelude.{◌≡◌, ◌++◌, ◌||◌, IfOk, IfSome, OnOk, is_some, length, Some, filter_map};
ghost use Rattle.std.specs.List.{range_with_len};
ghost use Rattle.std.specs.Option.{option_to_list};
ghost use Rattle.element_kinds.specs.Kinds.{checks_points};
ghost use Rattle.flat_circuit.specs.Instances.{InstanceFits};
ghost use Rattle.flat_circuit.specs.Kind.{PinsFit};
ghost use Rattle.fixpoint_engine.specs.Waves.{marked_pin as marked, FitWaves, waves_of};
ghost use Rattle.flat_circuit.specs.Name.{net_at};
ghost use Rattle.point_check.specs.Faults.{fault_by_kind, instance_fault as fault_of_instance, net_fault as fault_of_net, point_faults};
ghost use Rattle.point_check.specs.Known.{AreChecked, AreKnown};
ghost use Rattle.point_check.specs.Sound.{KeepsConstraints};

use crate::assertion::{assertion_fault, is_held};
use crate::before::{Before, instance_before, net_before};
use crate::checker::limited_fault;
use crate::known::PointFaults;
use crate::mark::{mark_fault, marked_pin};
use crate::recent::Recent;
use fixpoint_engine::Waves;
use flat_circuit::{Circuit, Fault, Faults, Instance};
use scald_base::{AssertSpec, NoMemory};
use std::alloc::Global;
use step_values::Value;
use wave_core::CyclicWave;

/// Whether an instance has something to check: it is a checker of points, or a pin of it is marked.
/// Pins are read only if the kind may have a mark.
fn is_watched(instance: &Instance) -> bool
    requires { PinsFit instance.now.kind instance.now.pins }
    ensures { result ≡ (checks_points instance.now.kind || is_some (marked instance.now)) }
{
    if instance.kind.checks_points() {
        return true;
    }
    instance.kind.may_be_marked() && marked_pin(instance).is_some()
}

/// The fault of an instance, if it has one.
fn fault_by_kind<W: CyclicWave<Item = Value>>(
    alloc: Global,
    recent: &mut Recent<W>,
    c: &Circuit,
    waves: &Waves<W>,
    number: u32,
    instance: &Instance,
) -> Result<Option<Fault>, NoMemory>
    requires fits { InstanceFits c.now.header (length c.now.nets) instance.now }
    requires fit { FitWaves c.now waves.now }
    ensures { IfOk result (λ found.
        found ≡ fault_by_kind instance.now.kind c.now (waves_of waves.now) number instance.now) }
{
    if instance.kind.checks_points() {
        limited_fault(alloc, recent, c, waves, number, instance, instance.limits)
    } else if instance.kind.may_be_marked() {
        mark_fault(alloc, c, waves, number, instance)
    } else {
        Ok(None)
    }
}

/// The fault of the instance of a number, if it has one. Most instances have nothing to check, and
/// are asked no more than that. If the fault is known from before, the instance is not checked
/// again.
#[inline(always)]
pub fn instance_fault<W: CyclicWave<Item = Value>>(
    alloc: Global,
    recent: &mut Recent<W>,
    c: &Circuit,
    before: &Option<Before<W>>,
    waves: &Waves<W>,
    number: u32,
) -> Result<Option<Fault>, NoMemory>
    requires before { IfSome before.now (λ b. AreChecked c.now b.waves.now b.known.now) }
    requires fit { FitWaves c.now waves.now }
    ensures { IfOk result (λ found. found ≡ fault_of_instance c.now (waves_of waves.now) number) }
{
    c.known();
    let Some(instance) = c.instance(number) else {
        return Ok(None);
    };
    if !is_watched(instance) {
        return Ok(None);
    }
    if let Some(before) = before {
        if let Some(found) = instance_before(c, before, waves, number, instance) {
            return Ok(found);
        }
    }
    let found = fault_by_kind(alloc, recent, c, waves, number, instance)?;
    Ok(found)
}

/// The fault of the net of a number, if something drives it, its name asserts something and it has
/// one. If it is known from before it is not checked again.
#[inline(always)]
pub fn net_fault<W: CyclicWave<Item = Value>>(
    alloc: Global,
    c: &Circuit,
    before: &Option<Before<W>>,
    waves: &Waves<W>,
    number: u32,
) -> Result<Option<Fault>, NoMemory>
    requires before { IfSome before.now (λ b. AreChecked c.now b.waves.now b.known.now) }
    requires fit { FitWaves c.now waves.now }
    ensures { IfOk result (λ found. found ≡ fault_of_net c.now (waves_of waves.now) number) }
{
    c.known();
    let Some(net) = c.net(number) else {
        return Ok(None);
    };
    if !is_held(net) {
        return Ok(None);
    }
    if let Some(before) = before {
        if let Some(found) = net_before(c, before, waves, number) {
            return Ok(found);
        }
    }
    let spec = net.spec.or(&AssertSpec::None);
    let found = assertion_fault(alloc, c.header(), spec, number, waves.at(number))?;
    Ok(found)
}

/// Appends a fault, if there is one.
fn add(faults: &mut Faults, found: Option<Fault>) -> Result<(), NoMemory>
    ensures { OnOk result (faults.new ≡ faults.old ++ option_to_list found) }
{
    match found {
        Some(fault) => faults.push(fault),
        None => Ok(()),
    }
}

/// The faults of instances, in the order of expansion.
fn instance_faults<W: CyclicWave<Item = Value>>(
    alloc: Global,
    c: &Circuit,
    before: &Option<Before<W>>,
    waves: &Waves<W>,
) -> Result<Faults, NoMemory>
    requires before { IfSome before.now (λ b. AreChecked c.now b.waves.now b.known.now) }
    requires fit { FitWaves c.now waves.now }
    ensures { IfOk result (λ faults.
        faults ≡ filter_map (fault_of_instance c.now (waves_of waves.now))
        (range_with_len 0 (length c.now.instances))) }
{
    let mut faults = Faults::new(alloc);
    let mut recent = Recent::new();
    for number in 0..c.instance_count() {
        let found = instance_fault(alloc, &mut recent, c, before, waves, number)?;
        add(&mut faults, found)?;
    }
    Ok(faults)
}

/// Appends the faults of nets, in name order.
fn add_net_faults<W: CyclicWave<Item = Value>>(
    faults: &mut Faults,
    alloc: Global,
    c: &Circuit,
    before: &Option<Before<W>>,
    waves: &Waves<W>,
) -> Result<(), NoMemory>
    requires before { IfSome before.now (λ b. AreChecked c.now b.waves.now b.known.now) }
    requires fit { FitWaves c.now waves.now }
    ensures { OnOk result
        (faults.new ≡ faults.old ++ filter_map
        (fault_of_net c.now (waves_of waves.now)) c.now.order) }
{
    c.known();
    for place in 0..c.net_count() {
        let found = net_fault(alloc, c, before, waves, c.net_at(place))?;
        add(faults, found)?;
    }
    Ok(())
}

/// The faults of all instances and nets, in the order of the report.
fn all_faults<W: CyclicWave<Item = Value>>(
    alloc: Global,
    c: &Circuit,
    before: &Option<Before<W>>,
    waves: &Waves<W>,
) -> Result<Faults, NoMemory>
    requires before { IfSome before.now (λ b. AreChecked c.now b.waves.now b.known.now) }
    requires fit { FitWaves c.now waves.now }
    ensures faults { IfOk result (λ faults. faults ≡ point_faults c.now (waves_of waves.now)) }
    ensures sound { IfOk result (KeepsConstraints c.now (waves_of waves.now)) }
{
    c.known();
    c.header().known();
    let mut faults = instance_faults(alloc, c, before, waves)?;
    add_net_faults(&mut faults, alloc, c, before, waves)?;
    Ok(faults)
}

/// The faults that these settled waves of all nets show: of setup and hold, of rise and fall and of
/// marked pins by the order of expansion, and then of assertions by the order of names. What the
/// waves permit from a tick on breaks no constraint of an instance, and no assertion of a driven
/// net, from there on, if the answer has no fault of it.
pub fn check_points<W: CyclicWave<Item = Value>>(
    alloc: Global,
    c: &Circuit,
    waves: &Waves<W>,
) -> Result<Faults, NoMemory>
    requires { FitWaves c.now waves.now }
    ensures faults { IfOk result (λ faults. faults ≡ point_faults c.now (waves_of waves.now)) }
    ensures sound { IfOk result (KeepsConstraints c.now (waves_of waves.now)) }
{
    all_faults(alloc, c, &None, waves)
}

/// What [`check_points`] answers for these waves, if the fault of each instance and of each net
/// in others is known. What has the same waves in both is not checked again.
pub fn check_points_again<W: CyclicWave<Item = Value>>(
    alloc: Global,
    c: &Circuit,
    before: &Waves<W>,
    known: &PointFaults,
    waves: &Waves<W>,
) -> Result<Faults, NoMemory>
    requires before { FitWaves c.now before.now }
    requires known { AreKnown c.now (waves_of before.now) known.now }
    requires fit { FitWaves c.now waves.now }
    ensures faults { IfOk result (λ faults. faults ≡ point_faults c.now (waves_of waves.now)) }
    ensures sound { IfOk result (KeepsConstraints c.now (waves_of waves.now)) }
{
    let before = Before {
        waves: before,
        known,
    };
    all_faults(alloc, c, &Some(before), waves)
}
