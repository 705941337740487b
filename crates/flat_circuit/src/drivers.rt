//! The driver of each net, or the first output that is taken.

ghost use Rattle.std.specs.Prelude.{◌≡◌, ◌<◌, ◌^◌, length, replicate, None, IfOk, MatchResult};
ghost use Rattle.std.specs.List.{All};
ghost use Rattle.flat_circuit.specs.Instances.{InstanceExists, OutExists};
ghost use Rattle.flat_circuit.specs.Steps.{DrivenTo, Took, StopsAtTaken};

use crate::instance::Instance;
use scald_base::{NoMemory, RefusalKind, Stop};
use std::alloc::Global;
use vector_names::Target;

/// The driver of each of so many nets. `TwoDrivers` comes at the first instance whose output is a
/// constant, or a net that an earlier one drives.
pub(crate) fn drivers(
    alloc: Global,
    instances: &[Instance],
    nets: usize,
) -> Result<Vec<Option<u32>>, Stop>
    requires within { All (InstanceExists nets) instances.now }
    requires few { length instances.now < 2 ^ 32 }
    ensures { MatchResult result (λ drivers.
        DrivenTo instances.now nets (length instances.now) drivers.items)
        (StopsAtTaken instances.now) }
{
    let mut drivers = undriven(alloc, nets)?;
    for k in 0..instances.len() {
        if !take_output(&mut drivers, instances[k].out, k as u32) {
            return Err(Stop::refused(RefusalKind::TwoDrivers, instances[k].place));
        }
    }
    Ok(drivers)
}

fn undriven(alloc: Global, nets: usize) -> Result<Vec<Option<u32>>, NoMemory>
    ensures { IfOk result (λ drivers. drivers.items ≡ replicate nets None) }
{
    let drivers = vec![in alloc; None; nets]?;
    Ok(drivers)
}

// Instance k takes its output, or cannot.
fn take_output(drivers: &mut Vec<Option<u32>>, out: Option<Target>, k: u32) -> bool
    requires { OutExists (length drivers.old.items) out }
    ensures { Took drivers.old.items drivers.new.items k out result }
{
    match out {
        None => true,
        Some(Target::Constant(_)) => false,
        Some(Target::Net(i)) => {
            if drivers[i as usize].is_some() {
                return false;
            }
            drivers[i as usize] = Some(k);
            true
        }
    }
}
