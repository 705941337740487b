//! Hazards of marked pins.

ghost use Rattle.std.specs.Prelude.{◌≡◌, IfOk, length};
ghost use Rattle.flat_circuit.specs.Instances.{InstanceFits};
ghost use Rattle.fixpoint_engine.specs.Waves.{marked_pin as marked, FitWaves, waves_of};
ghost use Rattle.point_check.specs.Faults.{mark_fault as fault_of_mark};

use fixpoint_engine::{Waves, waves_at_pins};
use flat_circuit::{Circuit, Fault, Instance};
use gate_eval::hold_fault;
use scald_base::NoMemory;
use std::alloc::Global;
use step_values::Value;
use wave_core::CyclicWave;

/// Which pin is marked.
pub fn marked_pin(gate: &Instance) -> Option<usize>
    ensures { result ≡ marked gate.now }
{
    gate.pins.as_slice().iter().position(|pin| pin.hold)
}

/// The hazard of a gate, if a pin of it is marked: another pin may change while the marked one
/// lets it through.
pub fn mark_fault<W: CyclicWave<Item = Value>>(
    alloc: Global,
    c: &Circuit,
    waves: &Waves<W>,
    number: u32,
    gate: &Instance,
) -> Result<Option<Fault>, NoMemory>
    requires fits { InstanceFits c.now.header (length c.now.nets) gate.now }
    requires fit { FitWaves c.now waves.now }
    ensures { let ws = waves_of waves.now in
        IfOk result (λ found. found ≡ fault_of_mark c.now ws number gate.now) }
{
    if marked_pin(gate).is_none() {
        return Ok(None);
    }
    c.header().known();
    let pins = waves_at_pins(alloc, c, waves, gate.pins.as_slice())?;
    match hold_fault(gate.kind, &pins) {
        None => Ok(None),
        Some(found) => Ok(Some(Fault::Hazard {
            instance: number,
            slot: found.0,
            pin: found.1,
        })),
    }
}
