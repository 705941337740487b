//! Evaluates a register or latch.

ghost use Rattle.std.specs.Prelude.{◌≡◌, List, true, length, map, count_by, IfOk};
ghost use Rattle.step_values.specs.declared.value.Value.{Value};
ghost use Rattle.flat_circuit.specs.Kind.{pin_counts};
ghost use Rattle.gate_eval.specs.Meeting.{HaveOnePeriod};
ghost use Rattle.storage_eval.specs.Storage.{is_storage, storage_value};
ghost use Rattle.gate_eval.specs.Instance.{CountsFit, IsSound};
ghost use Rattle.storage_eval.specs.Instance.{storage_wave};

use crate::element::{LatchRs, OfTwo, Register, RegisterRs};
use crate::pins::listening;
use flat_circuit::Kind;
use gate_eval::{Image, PinWave, PinWaves, met};
use scald_base::{Delay, NoMemory};
use skew_algebra::Skewed;
use std::alloc::Global;
use step_values::{Value, latch};
use wave_core::CyclicWave;

/// What an element makes of the waves at its listening pins, late by its delay, if `image` gives
/// the value that its kind makes of theirs.
fn element_wave<W: CyclicWave<Item = Value>, I: Image>(
    alloc: Global,
    kind: Kind,
    image: &I,
    pins: &[PinWave<W>],
    d: Delay,
) -> Result<Skewed<W>, NoMemory>
    requires stores { is_storage kind ≡ true }
    requires pins { length pins.now ≡ (pin_counts kind).0 }
    requires periods { HaveOnePeriod (map (λ p. p.wave) pins.now) }
    requires value { (found : List Value) → I.value_of image.now found ≡ storage_value kind found }
    ensures wave { IfOk result (λ s. s ≡ storage_wave kind (map (λ p. p.wave) pins.now) d) }
    ensures sound { IfOk result (λ s. IsSound kind d (map (λ p. p.wave) pins.now) s) }
{
    let heard = listening(alloc, kind, pins)?;
    met(alloc, image, &heard, d)
}

/// The wave of the output of a register or latch, before the output's complement, from the waves of
/// its pins and the bounds of its delay, in ticks. It fails only if memory runs out.
pub fn eval_storage<W: CyclicWave<Item = Value>>(
    alloc: Global,
    kind: Kind,
    pins: &PinWaves<W>,
    d: Delay,
) -> Result<Skewed<W>, NoMemory>
    requires stores { is_storage kind ≡ true }
    requires pins { CountsFit kind (length pins.now) (count_by (λ p. p.hold) pins.now) }
    requires periods { HaveOnePeriod (map (λ p. p.wave) pins.now) }
    ensures wave { IfOk result (λ s. s ≡ storage_wave kind (map (λ p. p.wave) pins.now) d) }
    ensures sound { IfOk result (λ s. IsSound kind d (map (λ p. p.wave) pins.now) s) }
{
    let pins = pins.as_slice();
    match kind {
        Kind::Reg => element_wave(alloc, kind, &Register, pins, d),
        Kind::RegRs => element_wave(alloc, kind, &RegisterRs, pins, d),
        Kind::Latch => element_wave(alloc, kind, &OfTwo { table: latch() }, pins, d),
        _ => element_wave(alloc, kind, &LatchRs, pins, d),
    }
}
