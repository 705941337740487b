//! The waves at the pins of an instance.

ghost use Rattle.std.specs.Prelude.{◌≡◌, ◌<◌, IfOk, IsTrue, false, length, map};
ghost use Rattle.std.specs.List.{All};
ghost use Rattle.flat_circuit.specs.Circuit.{wire_at};
ghost use Rattle.pin_waves.specs.Pin.{pin_wave as pin_of};
ghost use Rattle.flat_circuit.specs.Instances.{PinExists};
ghost use Rattle.fixpoint_engine.specs.Waves.{pin_wave as wave_shown, FitWaves, target_wire, waves_of};

use crate::Waves;
use flat_circuit::{Circuit, Pin, Target};
use gate_eval::{PinWave, PinWaves};
use pin_waves::{constant_wave, pin_wave as wave_behind};
use scald_base::{Delay, List, NoMemory};
use skew_algebra::Skewed;
use std::alloc::Global;
use step_values::Value;
use wave_core::CyclicWave;

/// The bounds of a net's wire; a net that does not exist has a wire without delay.
fn wire_of(c: &Circuit, net: u32) -> Delay
    ensures { result ≡ wire_at c.now.nets net }
{
    match c.net(net) {
        Some(found) => found.wire,
        None => Delay { min: 0, max: 0 },
    }
}

/// The bounds of the wire that leads to a pin from what it is on; none leads from a constant.
pub fn wire_behind(c: &Circuit, target: Target) -> Delay
    ensures { result ≡ target_wire c.now.nets target }
{
    match target {
        Target::Net(net) => wire_of(c, net),
        Target::Constant(_) => Delay { min: 0, max: 0 },
    }
}

/// Whether the bounds leave no delay.
fn has_no_delay(wire: Delay) -> bool
    ensures least { IsTrue result → wire.min ≡ 0 }
    ensures greatest { IsTrue result → wire.max ≡ 0 }
{
    if wire.min != 0 {
        return false;
    }
    wire.max == 0
}

/// The wave of a net after its wire. Without a delay it is the net's own, which is in normal form
/// already.
fn late_wave<W: CyclicWave<Item = Value>>(
    alloc: Global,
    wave: &Skewed<W>,
    wire: Delay,
) -> Result<Skewed<W>, NoMemory>
    ensures { IfOk result (λ s. s ≡ pin_of wave.now wire false) }
{
    wave.known();
    if has_no_delay(wire) {
        return wave.copy(alloc);
    }
    wave_behind(alloc, wave, wire, false)
}

/// The wave that a pin on a net shows.
fn net_wave<W: CyclicWave<Item = Value>>(
    alloc: Global,
    wave: &Skewed<W>,
    wire: Delay,
    inverted: bool,
) -> Result<Skewed<W>, NoMemory>
    ensures { IfOk result (λ s. s ≡ pin_of wave.now wire inverted) }
{
    if inverted {
        wave_behind(alloc, wave, wire, true)
    } else {
        late_wave(alloc, wave, wire)
    }
}

/// The wave that a pin shows.
pub fn pin_wave<W: CyclicWave<Item = Value>>(
    alloc: Global,
    c: &Circuit,
    waves: &Waves<W>,
    pin: Pin,
) -> Result<Skewed<W>, NoMemory>
    requires exists { PinExists (length c.now.nets) pin }
    requires fit { FitWaves c.now waves.now }
    ensures { IfOk result (λ s. s ≡ wave_shown c.now (waves_of waves.now) pin) }
{
    match pin.target {
        Target::Net(net) => net_wave(alloc, waves.at(net), wire_of(c, net), pin.inverted),
        Target::Constant(one) => {
            let wave: Skewed<W> = constant_wave(alloc, c.header(), one)?;
            wave_behind(alloc, &wave, Delay { min: 0, max: 0 }, pin.inverted)
        }
    }
}

/// The waves at pins, in their order.
pub fn waves_at_pins<W: CyclicWave<Item = Value>>(
    alloc: Global,
    c: &Circuit,
    waves: &Waves<W>,
    pins: &[Pin],
) -> Result<PinWaves<W>, NoMemory>
    requires exist { All (PinExists (length c.now.nets)) pins.now }
    requires fit { FitWaves c.now waves.now }
    ensures waves { IfOk result (λ shown.
        map (λ p. p.wave) shown ≡ map (wave_shown c.now (waves_of waves.now)) pins.now) }
    ensures marks { IfOk result (λ shown. map (λ p. p.hold) shown ≡ map (λ p. p.hold) pins.now) }
{
    let mut shown = List::with_room(alloc, pins.len())?;
    for pin in pins {
        let wave = pin_wave(alloc, c, waves, *pin)?;
        shown.push(PinWave::new(wave, pin.hold))?;
    }
    Ok(shown)
}
