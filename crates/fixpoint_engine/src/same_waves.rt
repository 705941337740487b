//! Where two lists of waves have one wave.

ghost use Rattle.std.specs.Prelude.{◌≡◌, ◌<◌, ◌↔◌, IsTrue, length};
ghost use Rattle.flat_circuit.specs.Instances.{PinExists};
ghost use Rattle.fixpoint_engine.specs.SameWaves.{IsSameAt};
ghost use Rattle.fixpoint_engine.specs.Waves.{FitWaves, waves_of};

use crate::Waves;
use flat_circuit::{Circuit, Pin, Target};
use step_values::Value;
use wave_core::CyclicWave;

/// Whether a net has one wave in both.
pub fn has_one_wave<W: CyclicWave<Item = Value>>(
    c: &Circuit,
    before: &Waves<W>,
    waves: &Waves<W>,
    net: u32,
) -> bool
    requires exists { net < length c.now.nets }
    requires before { FitWaves c.now before.now }
    requires fit { FitWaves c.now waves.now }
    ensures { IsTrue result ↔ (waves_of before.now net ≡ waves_of waves.now net) }
{
    before.at(net).same(waves.at(net))
}

/// Whether what a pin is on has one wave in both. The pin shows the same wave then, after the wire
/// and the complement that are its own.
pub fn has_one_wave_at<W: CyclicWave<Item = Value>>(
    c: &Circuit,
    before: &Waves<W>,
    waves: &Waves<W>,
    pin: Pin,
) -> bool
    requires exists { PinExists (length c.now.nets) pin }
    requires before { FitWaves c.now before.now }
    requires fit { FitWaves c.now waves.now }
    ensures { IsTrue result ↔ IsSameAt (waves_of before.now) (waves_of waves.now) pin }
{
    match pin.target {
        Target::Net(net) => has_one_wave(c, before, waves, net),
        Target::Constant(_) => true,
    }
}
