//! The wave of a gate's or a change function's output.

ghost use Rattle.std.specs.Prelude.{◌≡◌, ◌<◌, IfOk, Some, count_by, length, map, position, true};
ghost use Rattle.step_values.specs.declared.value.Value.TheVariants.{S};
ghost use Rattle.step_values.specs.Cell.{values};
ghost use Rattle.skew_algebra.specs.Wave.{moved, skewed};
ghost use Rattle.gate_eval.specs.Meeting.{HaveOnePeriod, meeting};
ghost use Rattle.gate_eval.specs.Gates.{passed_on};
ghost use Rattle.gate_eval.specs.Hold.{hazard};
ghost use Rattle.element_kinds.specs.Kinds.{may_split};
ghost use Rattle.gate_eval.specs.Instance.{CountsFit, IsSound, MarkFits, gate_image, gate_wave, held_wave, image_by, is_gate};

use crate::change::change_wave;
use crate::hold::{is_held, marked_pin};
use crate::image::{FromLeft, OfEight, OfFour, OfTwo, PassedOn};
use crate::meeting::{
    Image, Made, by_folds, by_slots, folded_waves, kept_skew, late, met, met_at_once,
};
use crate::pin_wave::{PinWave, PinWaves};
use flat_circuit::Kind;
use scald_base::{Delay, NoMemory};
use skew_algebra::Skewed;
use std::alloc::Global;
use step_values::{Value, and2, or2, xor2};
use wave_core::CyclicWave;

/// What passes of a pin's wave while the other pins stay as they are.
fn passing<W: CyclicWave<Item = Value>, I: Image>(
    alloc: Global,
    image: &I,
    pin: &Skewed<W>,
) -> Result<Made<W>, NoMemory>
    ensures made { IfOk result (λ m.
        skewed (W.cells m.wave) m.skew ≡ held_wave (I.value_of image.now) pin.now) }
    ensures short { IfOk result (λ m. m.skew < 4096) }
{
    pin.known();
    let made = pin.wave().map(alloc, |v| image.value(&[v, Value::S]))?;
    Ok(Made {
        wave: made,
        skew: pin.skew(),
    })
}

/// What an AND or OR with a marked pin makes of its pins' waves, before its delay. Each pin is
/// folded once.
fn marked_gate<W: CyclicWave<Item = Value>, I: Image>(
    alloc: Global,
    kind: Kind,
    image: &I,
    pins: &[PinWave<W>],
    marked: usize,
) -> Result<Made<W>, NoMemory>
    requires marked { marked < length pins.now }
    requires periods { HaveOnePeriod (map (λ p. p.wave) pins.now) }
    ensures made { let waves = map (λ p. p.wave) pins.now in
        IfOk result (λ m. skewed (W.cells m.wave) m.skew
        ≡ image_by (I.value_of image.now) waves (Some marked) (hazard kind waves (Some marked))) }
    ensures short { IfOk result (λ m. m.skew < 4096) }
{
    let folds = folded_waves(alloc, pins)?;
    if is_held(kind, &folds, marked, pins[marked].wave.period()) {
        return passing(alloc, image, &pins[marked].wave);
    }
    match kept_skew(pins) {
        Some(skew) => by_slots(alloc, image, pins, skew),
        None => by_folds(alloc, image, pins, &folds),
    }
}

/// What an AND or OR makes of its pins' waves, before its delay.
fn markable_gate<W: CyclicWave<Item = Value>, I: Image>(
    alloc: Global,
    kind: Kind,
    image: &I,
    pins: &[PinWave<W>],
) -> Result<Made<W>, NoMemory>
    requires some { 0 < length pins.now }
    requires periods { HaveOnePeriod (map (λ p. p.wave) pins.now) }
    ensures made { let waves = map (λ p. p.wave) pins.now in
        IfOk result (λ m. skewed (W.cells m.wave) m.skew ≡ image_by (I.value_of image.now)
        waves (position (λ p. p.hold) pins.now)
        (hazard kind waves (position (λ p. p.hold) pins.now))) }
    ensures short { IfOk result (λ m. m.skew < 4096) }
{
    match marked_pin(pins) {
        Some(marked) => marked_gate(alloc, kind, image, pins, marked),
        None => met_at_once(alloc, image, pins),
    }
}

/// What a gate makes of these pins' waves, before its delay.
pub fn at_once<W: CyclicWave<Item = Value>>(
    alloc: Global,
    kind: Kind,
    pins: &[PinWave<W>],
) -> Result<Made<W>, NoMemory>
    requires gate { may_split kind ≡ true }
    requires some { 0 < length pins.now }
    requires mark { MarkFits kind (position (λ p. p.hold) pins.now) (length pins.now) }
    requires periods { HaveOnePeriod (map (λ p. p.wave) pins.now) }
    ensures made { IfOk result (λ m. skewed (W.cells m.wave) m.skew
        ≡ gate_image kind (map (λ p. p.wave) pins.now) (position (λ p. p.hold) pins.now)) }
    ensures short { IfOk result (λ m. m.skew < 4096) }
{
    match kind {
        Kind::Buf => met_at_once(alloc, &PassedOn, pins),
        Kind::And => markable_gate(alloc, kind, &FromLeft { table: and2() }, pins),
        Kind::Or => markable_gate(alloc, kind, &FromLeft { table: or2() }, pins),
        Kind::Xor => met_at_once(alloc, &FromLeft { table: xor2() }, pins),
        Kind::Mux2 => met_at_once(alloc, &OfTwo, pins),
        Kind::Mux4 => met_at_once(alloc, &OfFour, pins),
        Kind::Mux8 => met_at_once(alloc, &OfEight, pins),
        _ => unreachable!(),
    }
}

/// What a gate makes of these pins' waves, late by its delay.
fn delayed<W: CyclicWave<Item = Value>>(
    alloc: Global,
    kind: Kind,
    pins: &[PinWave<W>],
    d: Delay,
) -> Result<Skewed<W>, NoMemory>
    requires gate { may_split kind ≡ true }
    requires some { 0 < length pins.now }
    requires mark { MarkFits kind (position (λ p. p.hold) pins.now) (length pins.now) }
    requires periods { HaveOnePeriod (map (λ p. p.wave) pins.now) }
    ensures { IfOk result (λ s.
        s ≡ gate_wave kind (map (λ p. p.wave) pins.now) (position (λ p. p.hold) pins.now) d) }
{
    let made = at_once(alloc, kind, pins)?;
    late(alloc, &made.wave, made.skew, d)
}

/// What a buffer makes of its only pin's wave: the same, late by its delay.
fn passed<W: CyclicWave<Item = Value>>(
    alloc: Global,
    pins: &[PinWave<W>],
    d: Delay,
) -> Result<Skewed<W>, NoMemory>
    requires { length pins.now ≡ 1 }
    ensures { IfOk result (λ s.
        s ≡ moved values (meeting values passed_on (map (λ p. p.wave) pins.now)) d) }
{
    pins[0].wave.moved(alloc, d)
}

/// What a buffer makes of its pins' waves.
fn buffered<W: CyclicWave<Item = Value>>(
    alloc: Global,
    pins: &[PinWave<W>],
    d: Delay,
) -> Result<Skewed<W>, NoMemory>
    requires some { 0 < length pins.now }
    requires periods { HaveOnePeriod (map (λ p. p.wave) pins.now) }
    ensures { IfOk result (λ s.
        s ≡ moved values (meeting values passed_on (map (λ p. p.wave) pins.now)) d) }
{
    if pins.len() == 1 {
        passed(alloc, pins, d)
    } else {
        met(alloc, &PassedOn, pins, d)
    }
}

/// What a gate or change function makes of these pins' waves.
fn evaluated<W: CyclicWave<Item = Value>>(
    alloc: Global,
    kind: Kind,
    pins: &[PinWave<W>],
    d: Delay,
) -> Result<Skewed<W>, NoMemory>
    requires gate { is_gate kind ≡ true }
    requires some { 0 < length pins.now }
    requires mark { MarkFits kind (position (λ p. p.hold) pins.now) (length pins.now) }
    requires periods { HaveOnePeriod (map (λ p. p.wave) pins.now) }
    ensures { IfOk result (λ s.
        s ≡ gate_wave kind (map (λ p. p.wave) pins.now) (position (λ p. p.hold) pins.now) d) }
{
    match kind {
        Kind::Buf => buffered(alloc, pins, d),
        Kind::Chg => change_wave(alloc, pins, d),
        _ => delayed(alloc, kind, pins, d),
    }
}

/// The wave of the output of a gate or change function, before the output's complement, from the
/// waves of its pins and the bounds of its delay, in ticks. It fails only if memory runs out.
pub fn eval_gate<W: CyclicWave<Item = Value>>(
    alloc: Global,
    kind: Kind,
    pins: &PinWaves<W>,
    d: Delay,
) -> Result<Skewed<W>, NoMemory>
    requires gate { is_gate kind ≡ true }
    requires pins { CountsFit kind (length pins.now) (count_by (λ p. p.hold) pins.now) }
    requires periods { HaveOnePeriod (map (λ p. p.wave) pins.now) }
    ensures wave { IfOk result (λ s.
        s ≡ gate_wave kind (map (λ p. p.wave) pins.now) (position (λ p. p.hold) pins.now) d) }
    ensures sound { IfOk result (λ s. IsSound kind d (map (λ p. p.wave) pins.now) s) }
{
    evaluated(alloc, kind, pins.as_slice(), d)
}
