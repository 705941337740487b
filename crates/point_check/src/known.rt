//! What each instance and each net has for a fault, by its number.

ghost use Rattle.std.specs.Prelude.{◌≡◌, IfOk, length, map};
ghost use Rattle.std.specs.List.{range_with_len};
ghost use Rattle.fixpoint_engine.specs.Waves.{FitWaves, waves_of};
ghost use Rattle.point_check.specs.Faults.{instance_fault as fault_of_instance, net_fault as fault_of_net};
ghost use Rattle.point_check.specs.Known.{AreKnown};

use crate::check::{instance_fault, net_fault};
use crate::recent::Recent;
use fixpoint_engine::Waves;
use flat_circuit::{Circuit, Fault};
use scald_base::{List, NoMemory};
use std::alloc::Global;
use step_values::Value;
use wave_core::CyclicWave;

/// The fault of each instance and of each net in some waves, by their numbers, or `None` if it
/// has none.
#[derive(Drop)]
pub struct PointFaults {
    pub instances: List<Option<Fault>>,
    pub nets: List<Option<Fault>>,
}

/// The fault of each instance in these waves.
fn known_instances<W: CyclicWave<Item = Value>>(
    alloc: Global,
    c: &Circuit,
    waves: &Waves<W>,
) -> Result<List<Option<Fault>>, NoMemory>
    requires { FitWaves c.now waves.now }
    ensures { IfOk result (λ known.
        known ≡ map (fault_of_instance c.now (waves_of waves.now))
        (range_with_len 0 (length c.now.instances))) }
{
    let mut known = List::new(alloc);
    let mut recent = Recent::new();
    for number in 0..c.instance_count() {
        let found = instance_fault(alloc, &mut recent, c, &None, waves, number)?;
        known.push(found)?;
    }
    Ok(known)
}

/// The fault of each net in these waves.
fn known_nets<W: CyclicWave<Item = Value>>(
    alloc: Global,
    c: &Circuit,
    waves: &Waves<W>,
) -> Result<List<Option<Fault>>, NoMemory>
    requires { FitWaves c.now waves.now }
    ensures { IfOk result (λ known.
        known ≡ map (fault_of_net c.now (waves_of waves.now))
        (range_with_len 0 (length c.now.nets))) }
{
    let mut known = List::new(alloc);
    for number in 0..c.net_count() {
        let found = net_fault(alloc, c, &None, waves, number)?;
        known.push(found)?;
    }
    Ok(known)
}

/// The fault of each instance and of each net that these settled waves of all nets show.
pub fn known_points<W: CyclicWave<Item = Value>>(
    alloc: Global,
    c: &Circuit,
    waves: &Waves<W>,
) -> Result<PointFaults, NoMemory>
    requires { FitWaves c.now waves.now }
    ensures { IfOk result (AreKnown c.now (waves_of waves.now)) }
{
    let instances = known_instances(alloc, c, waves)?;
    let nets = known_nets(alloc, c, waves)?;
    Ok(PointFaults { instances, nets })
}
