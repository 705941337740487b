//! The mark `!H`: at an AND or OR, the other pins are to stay as they are while the marked one lets
//! them through.

ghost use Rattle.std.specs.Prelude.{◌≡◌, ◌<◌, ◌≤◌, ℕ, All, IfNone, IfSome, count_by, is_none, length, map, position};
ghost use Rattle.step_values.specs.Cell.{same, values};
ghost use Rattle.skew_algebra.specs.Wave.{cell_at, fold};
ghost use Rattle.gate_eval.specs.Meeting.{HaveOnePeriod, folds_in};
ghost use Rattle.gate_eval.specs.Hold.{KeepsMark, disturber, first_some, hazard, is_closed as closed, staying};
ghost use Rattle.gate_eval.specs.Instance.{CountsFit};

use crate::meeting::next_change;
use crate::pin_wave::{PinWave, PinWaves};
use flat_circuit::Kind;
use skew_algebra::Skewed;
use std::cmp::min;
use step_values::Value;
use wave_core::{Cell, CyclicWave};

/// Whether a value is that of a pin which stays at this bit.
fn stays_at(bit: bool, v: Value) -> bool
    ensures { result ≡ same v (staying bit) }
{
    if bit {
        v == Value::One
    } else {
        v == Value::Zero
    }
}

/// Whether the other pins do not matter while a pin has this value: 0 at an AND, 1 at an OR.
fn is_closed(kind: Kind, v: Value) -> bool
    ensures { result ≡ closed kind v }
{
    match kind.closes() {
        None => false,
        Some(bit) => stays_at(bit, v),
    }
}

/// Which pin is marked.
pub fn marked_pin<W: CyclicWave<Item = Value>>(pins: &[PinWave<W>]) -> Option<usize>
    ensures place { result ≡ position (λ p. p.hold) pins.now }
    ensures within { IfSome result (λ i. i < length pins.now) }
{
    pins.iter().position(|pin| pin.hold)
}

/// By the folds of all pins: the first pin that may change in a slot while the marked one lets it
/// through.
fn disturber_among<W: CyclicWave<Item = Value>>(
    kind: Kind,
    folds: &[W],
    marked: usize,
    slot: u16,
) -> Option<usize>
    requires marked { marked < length folds.now }
    requires slot { All (λ w. slot < length (W.cells w)) folds.now }
    ensures { result ≡ disturber kind marked
        (map (λ w. cell_at values (W.cells w) slot) folds.now) }
{
    if is_closed(kind, folds[marked].at(slot)) {
        return None;
    }
    for (pin, fold) in folds.iter().enumerate() {
        if pin != marked && !fold.at(slot).quiet() {
            return Some(pin);
        }
    }
    None
}

/// Whether no pin but the marked one may change while that one lets it through, by the folds of
/// all.
pub fn is_held<W: CyclicWave<Item = Value>>(
    kind: Kind,
    folds: &[W],
    marked: usize,
    period: u16,
) -> bool
    requires marked { marked < length folds.now }
    requires period { All (λ w. length (W.cells w) ≡ period) folds.now }
    ensures { result ≡ is_none (first_some (λ slot.
        disturber kind marked (map (λ w. cell_at values (W.cells w) slot) folds.now)) period 0) }
{
    let mut slot = 0;
    'changes: while slot < period {
        if disturber_among(kind, folds, marked, slot).is_some() {
            return false;
        }
        slot = next_change(folds, slot, period);
    }
    true
}

/// The first pin that may change in a slot while the marked one lets it through.
fn disturber_at<W: CyclicWave<Item = Value>>(
    kind: Kind,
    pins: &[PinWave<W>],
    marked: usize,
    slot: u16,
) -> Option<usize>
    requires marked { marked < length pins.now }
    requires slot { All (λ p. slot < length p.wave.cells) pins.now }
    ensures first { result ≡ disturber kind marked
        (folds_in values (map (λ p. p.wave) pins.now) slot) }
    ensures within { IfSome result (λ i. i < length pins.now) }
{
    if is_closed(kind, pins[marked].wave.fold_at(slot)) {
        return None;
    }
    for (place, pin) in pins.iter().enumerate() {
        if place != marked && !pin.wave.fold_at(slot).quiet() {
            return Some(place);
        }
    }
    None
}

/// A slot after this one, before which each slot may hold what this one may, however late the wave
/// comes: up to it no change comes into what is folded, and none leaves it.
fn same_fold_until<W: CyclicWave<Item = Value>>(wave: &Skewed<W>, slot: u16) -> u16
    requires { slot < length wave.now.cells }
    ensures behind { slot < result }
    ensures same { (p : ℕ) → slot ≤ p → p < result →
        fold values wave.now p ≡ fold values wave.now slot }
{
    wave.known();
    let period = wave.period();
    let cells = wave.wave();
    let first = (slot + (period - wave.skew())) % period;
    let coming = cells.same_until(slot);
    let leaving = cells.same_until(first);
    min(coming, slot + (leaving - first))
}

/// A slot after this one, before which each pin may hold in each slot what it may in this one, or
/// the period.
fn next_fold_change<W: CyclicWave<Item = Value>>(pins: &[PinWave<W>], slot: u16, period: u16) -> u16
    requires slot { slot < period }
    requires pins { All (λ p. length p.wave.cells ≡ period) pins.now }
    ensures behind { slot < result }
    ensures within { result ≤ period }
    ensures same { let waves = map (λ p. p.wave) pins.now in
        (p : ℕ) → slot ≤ p → p < result → folds_in values waves p ≡ folds_in values waves slot }
{
    let mut next = period;
    for pin in pins {
        let end = min(next, same_fold_until(&pin.wave, slot));
        next = end;
    }
    next
}

/// The hazard among these pins.
fn hazard_among<W: CyclicWave<Item = Value>>(kind: Kind, pins: &[PinWave<W>]) -> Option<(u16, u16)>
    requires few { length pins.now ≤ 4096 }
    requires periods { HaveOnePeriod (map (λ p. p.wave) pins.now) }
    ensures { result ≡ hazard kind (map (λ p. p.wave) pins.now) (position (λ p. p.hold) pins.now) }
{
    let marked = marked_pin(pins)?;
    let period = pins[marked].wave.period();
    let mut slot = 0;
    'changes: while slot < period {
        if let Some(pin) = disturber_at(kind, pins, marked, slot) {
            return Some((slot, pin as u16));
        }
        slot = next_fold_change(pins, slot, period);
    }
    None
}

/// The hazard of a marked pin: the first slot in which it lets the others through and another pin
/// may change, and the first such pin there, from 0. `None` if no pin is marked, and if there
/// is no such slot.
pub fn hold_fault<W: CyclicWave<Item = Value>>(kind: Kind, pins: &PinWaves<W>) -> Option<(u16, u16)>
    requires pins { CountsFit kind (length pins.now) (count_by (λ p. p.hold) pins.now) }
    requires periods { HaveOnePeriod (map (λ p. p.wave) pins.now) }
    ensures first { result ≡ hazard kind (map (λ p. p.wave) pins.now)
        (position (λ p. p.hold) pins.now) }
    ensures sound { IfNone result (KeepsMark kind (map (λ p. p.wave) pins.now)
        (position (λ p. p.hold) pins.now)) }
{
    hazard_among(kind, pins.as_slice())
}
