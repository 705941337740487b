//! What each instance has for faults, by its number.

ghost use Rattle.std.specs.Prelude.{◌≡◌, IfOk, length, map};
ghost use Rattle.std.specs.List.{range_with_len};
ghost use Rattle.fixpoint_engine.specs.Waves.{FitWaves, waves_of};
ghost use Rattle.pulse_check.specs.Faults.{instance_faults};

use crate::check::add_faults;
use fixpoint_engine::Waves;
use flat_circuit::{Circuit, Faults};
use scald_base::{List, NoMemory};
use std::alloc::Global;
use step_values::Value;
use wave_core::CyclicWave;

/// The faults of each instance in some waves, by its number. Those without a fault take no memory
/// of their own.
pub type PulseFaults = List<Faults>;

/// The faults of each instance that these settled waves of all nets show.
pub fn known_pulses<W: CyclicWave<Item = Value>>(
    alloc: Global,
    c: &Circuit,
    waves: &Waves<W>,
) -> Result<PulseFaults, NoMemory>
    requires { FitWaves c.now waves.now }
    ensures { IfOk result (λ known.
        known ≡ map (instance_faults c.now (waves_of waves.now))
        (range_with_len 0 (length c.now.instances))) }
{
    let mut known = PulseFaults::new(alloc);
    for number in 0..c.instance_count() {
        let mut faults = Faults::new(alloc);
        add_faults(&mut faults, alloc, c, &None, waves, number)?;
        known.push(faults)?;
    }
    Ok(known)
}
