//! What an instance makes of the waves of all nets.

ghost use Rattle.std.specs.Prelude.{◌≡◌, ◌<◌, IfOk, None, count_by, length, map, true};
ghost use Rattle.std.specs.List.{position};
ghost use Rattle.element_kinds.specs.Kinds.{has_output};
ghost use Rattle.flat_circuit.specs.Instances.{InstanceFits};
ghost use Rattle.flat_circuit.specs.Split.{SplitFits};
ghost use Rattle.gate_eval.specs.Instance.{CountsFit};
ghost use Rattle.gate_eval.specs.Meeting.{HaveOnePeriod};
ghost use Rattle.fixpoint_engine.specs.Table.{AreKnown, Grows, IsNumber, waves_at};
ghost use Rattle.fixpoint_engine.specs.Waves.{FitWaves, waves_of};
ghost use Rattle.fixpoint_engine.specs.Key.{AreConstants};
ghost use Rattle.fixpoint_engine.specs.Value.{instance_wave, made_by};
ghost use Rattle.flat_circuit.specs.Circuit.{driver};
ghost use Rattle.fixpoint_engine.specs.Rounds.{evaluated};

use crate::key::{Constants, Store, key_of};
use crate::{Waves, waves_at_pins};
use flat_circuit::{Circuit, Instance, Kind, Split};
use gate_eval::{PinWaves, eval_gate, eval_split};
use scald_base::{Delay, NoMemory};
use skew_algebra::Skewed;
use std::alloc::Global;
use step_values::Value;
use storage_eval::eval_storage;
use wave_core::CyclicWave;

/// What a kind with an output and one delay makes of the waves at its pins.
fn made_by_one<W: CyclicWave<Item = Value>>(
    alloc: Global,
    kind: Kind,
    pins: &PinWaves<W>,
    d: Delay,
) -> Result<Skewed<W>, NoMemory>
    requires makes { has_output kind ≡ true }
    requires pins { CountsFit kind (length pins.now) (count_by (λ p. p.hold) pins.now) }
    requires periods { HaveOnePeriod (map (λ p. p.wave) pins.now) }
    ensures { IfOk result (λ s.
        s ≡ made_by kind (map (λ p. p.wave) pins.now) (position (λ p. p.hold) pins.now) d None) }
{
    match kind {
        Kind::Reg | Kind::RegRs | Kind::Latch | Kind::LatchRs => {
            eval_storage(alloc, kind, pins, d)
        }
        _ => eval_gate(alloc, kind, pins, d),
    }
}

/// What a kind with an output makes of the waves at its pins, with one delay or with two.
fn made_by<W: CyclicWave<Item = Value>>(
    alloc: Global,
    kind: Kind,
    pins: &PinWaves<W>,
    d: Delay,
    split: Option<Split>,
) -> Result<Skewed<W>, NoMemory>
    requires makes { has_output kind ≡ true }
    requires split { SplitFits kind d split }
    requires pins { CountsFit kind (length pins.now) (count_by (λ p. p.hold) pins.now) }
    requires periods { HaveOnePeriod (map (λ p. p.wave) pins.now) }
    ensures { IfOk result (λ s.
        s ≡ made_by kind (map (λ p. p.wave) pins.now) (position (λ p. p.hold) pins.now) d split) }
{
    match split {
        Some(s) => eval_split(alloc, kind, pins, s),
        None => made_by_one(alloc, kind, pins, d),
    }
}

/// What an instance makes of the waves of all nets: the wave of its output's net.
fn instance_wave<W: CyclicWave<Item = Value>>(
    alloc: Global,
    c: &Circuit,
    waves: &Waves<W>,
    instance: &Instance,
) -> Result<Skewed<W>, NoMemory>
    requires makes { has_output instance.now.kind ≡ true }
    requires fits { InstanceFits c.now.header (length c.now.nets) instance.now }
    requires fit { FitWaves c.now waves.now }
    ensures { IfOk result (λ s. s ≡ instance_wave c.now (waves_of waves.now) instance.now) }
{
    c.header().known();
    let pins = waves_at_pins(alloc, c, waves, instance.pins.as_slice())?;
    let wave = made_by(alloc, instance.kind, &pins, instance.delay, instance.split)?;
    if instance.out_inverted {
        let turned = wave.flipped(alloc)?;
        turned.known();
        Ok(turned)
    } else {
        wave.known();
        Ok(wave)
    }
}

/// The number of what an instance makes, if the nets have the waves of these numbers. It is made
/// only if it was not before. A copy of the wave is kept, since a copy takes no more room than
/// it needs.
fn number_made<W: CyclicWave<Item = Value>>(
    alloc: Global,
    c: &Circuit,
    store: &mut Store<W>,
    constants: Constants,
    numbers: &[u32],
    instance: &Instance,
) -> Result<u32, NoMemory>
    requires makes { has_output instance.now.kind ≡ true }
    requires fits { InstanceFits c.now.header (length c.now.nets) instance.now }
    requires known { AreKnown store.old numbers.now }
    requires fit { FitWaves c.now (waves_at store.old numbers.now) }
    requires constants { AreConstants c.now.header store.old constants }
    ensures grows { Grows store.old store.new }
    ensures is { let ws = waves_of (waves_at store.old numbers.now) in
        IfOk result (IsNumber store.new (instance_wave c.now ws instance.now)) }
{
    let key = key_of(alloc, c, store, constants, numbers, instance)?;
    if let Some(number) = store.find(&key) {
        return Ok(number);
    }
    let waves = Waves::new(store.waves(), numbers);
    let made = instance_wave(alloc, c, &waves, instance)?;
    let wave = made.copy(alloc)?;
    let words = key.words();
    store.remember(key, words, wave)
}

/// The number of a net's value: of what its driver makes, or of the wave that it has if nothing
/// drives it.
pub fn evaluated<W: CyclicWave<Item = Value>>(
    alloc: Global,
    c: &Circuit,
    store: &mut Store<W>,
    constants: Constants,
    numbers: &[u32],
    net: u32,
) -> Result<u32, NoMemory>
    requires exists { net < length c.now.nets }
    requires known { AreKnown store.old numbers.now }
    requires fit { FitWaves c.now (waves_at store.old numbers.now) }
    requires constants { AreConstants c.now.header store.old constants }
    ensures grows { Grows store.old store.new }
    ensures is { let ws = waves_of (waves_at store.old numbers.now) in
        IfOk result (IsNumber store.new (evaluated c.now ws net)) }
{
    c.known();
    match c.driver_of(net) {
        Some(driver) => number_made(alloc, c, store, constants, numbers, driver),
        None => Ok(numbers[net as usize]),
    }
}
