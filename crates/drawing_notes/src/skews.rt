//! The greatest skew of each net over the cases.

ghost use Rattle.std.specs.Prelude.{◌≡◌, length};
ghost use Rattle.fixpoint_engine.specs.Waves.{FitWaves};
ghost use Rattle.drawing_notes.specs.Common.{AreRaised, skew_at as spec_skew_at};

use fixpoint_engine::Waves;
use flat_circuit::Circuit;
use step_values::Value;
use wave_core::CyclicWave;

/// Raises the greatest skew of each net, by its number, to that of its wave in one case more. Skews
/// are in ticks.
pub(crate) fn add_skews<W: CyclicWave<Item = Value>>(
    c: &Circuit,
    waves: &Waves<W>,
    skews: &mut [u16],
)
    requires fit { FitWaves c.now waves.now }
    requires long { length skews.old ≡ length c.now.nets }
    ensures { AreRaised waves.now skews.old skews.new }
{
    for net in 0..c.net_count() {
        let skew = waves.at(net).skew();
        skews[net as usize] = skews[net as usize].max(skew);
    }
}

/// The greatest skew of a net. Past the last net it is 0.
pub(crate) fn skew_at(skews: &[u16], net: u32) -> u16
    ensures { result ≡ spec_skew_at skews.now net }
{
    match skews.get(net as usize) {
        Some(skew) => *skew,
        None => 0,
    }
}
