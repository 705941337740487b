//! The pins that an element listens to.

ghost use Rattle.std.specs.Prelude.{◌≡◌, map, IfOk};
ghost use Rattle.storage_eval.specs.Storage.{listening};

use flat_circuit::Kind;
use gate_eval::PinWave;
use scald_base::NoMemory;
use std::alloc::Global;
use step_values::Value;
use wave_core::CyclicWave;

/// The waves at the pins that listen, in their order.
pub fn listening<W: CyclicWave<Item = Value>>(
    alloc: Global,
    kind: Kind,
    pins: &[PinWave<W>],
) -> Result<Vec<PinWave<W>>, NoMemory>
    ensures { IfOk result (λ heard.
        map (λ p. p.wave) heard.items ≡ listening kind (map (λ p. p.wave) pins.now)) }
{
    let mut heard = Vec::with_capacity(alloc, pins.len())?;
    for (place, pin) in pins.iter().enumerate() {
        if kind.listens(place) {
            let wave = pin.wave.copy(alloc)?;
            heard.push(PinWave::new(wave, false))?;
        }
    }
    Ok(heard)
}
