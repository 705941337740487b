//! What an element makes of its pins' waves, slot by slot.

ghost use Rattle.std.specs.Prelude.{◌≡◌, ◌-◌, ◌<◌, ◌≤◌, ◌++◌, ℕ, List, [], ◌∷◌, All, Option, map, length, replicate, zip, IfOk, IfSome, OnOk};
ghost use Rattle.wave_core.specs.Slots.{IsPeriod, slots};
ghost use Rattle.step_values.specs.declared.value.Value.{Value};
ghost use Rattle.step_values.specs.Cell.{values};
ghost use Rattle.skew_algebra.specs.Wave.{skewed, cell_at, folded, moved};
ghost use Rattle.gate_eval.specs.Meeting.{HaveOnePeriod, cells_in, folds_in, kept_skew as kept, meeting, movers, period_of};

use crate::pin_wave::PinWave;
use scald_base::{Delay, NoMemory};
use skew_algebra::Skewed;
use std::alloc::Global;
use std::cmp::min;
use step_values::Value;
use wave_core::CyclicWave;

/// What a kind of element makes of one value for each of its pins.
pub trait Image {
    /// The value that covers its image.
    ghost value_of: { Self → List Value → Value };

    /// The value that it makes of these.
    fn value(&self, found: &[Value]) -> Value
        ensures { result ≡ value_of self.now found.now };
}

/// What an element makes of its pins' waves before its delay: a wave, and the most ticks by which
/// the whole of it may be late. It need not be in normal form.
#[derive(Drop)]
pub struct Made<W: CyclicWave> {
    pub wave: W,
    pub skew: u16,
}

/// A wave that is not in normal form, late by a delay within the bounds.
pub fn late<W: CyclicWave<Item = Value>>(
    alloc: Global,
    wave: &W,
    skew: u16,
    d: Delay,
) -> Result<Skewed<W>, NoMemory>
    requires { skew < 4096 }
    ensures { IfOk result (λ s. s ≡ moved values (skewed (W.cells wave.now) skew) d) }
{
    let turned = wave.rotate(alloc, d.min)?;
    Skewed::normal(alloc, turned, skew + (d.max - d.min))
}

/// The skew that is kept beside the slots: that of the one pin that moves. `None` if more move.
pub fn kept_skew<W: CyclicWave<Item = Value>>(pins: &[PinWave<W>]) -> Option<u16>
    ensures kept { result ≡ kept (movers values (map (λ p. p.wave) pins.now)) }
    ensures short { IfSome result (λ skew. skew < 4096) }
{
    let mut moves = false;
    let mut skew = 0;
    for pin in pins {
        if !pin.wave.is_steady() {
            if moves {
                return None;
            }
            moves = true;
            skew = pin.wave.skew();
        }
    }
    Some(skew)
}

/// The waves at the pins, without their skews.
fn own_waves<W: CyclicWave<Item = Value>>(
    alloc: Global,
    pins: &[PinWave<W>],
) -> Result<Vec<W>, NoMemory>
    ensures { IfOk result (λ ws. map (λ w. W.cells w) ws.items ≡ map (λ p. p.wave.cells) pins.now) }
{
    let mut waves = Vec::with_capacity(alloc, pins.len())?;
    for pin in pins {
        waves.push(pin.wave.wave().copy(alloc)?)?;
    }
    Ok(waves)
}

/// The waves at the pins, each with its skew folded in.
pub fn folded_waves<W: CyclicWave<Item = Value>>(
    alloc: Global,
    pins: &[PinWave<W>],
) -> Result<Vec<W>, NoMemory>
    ensures { IfOk result (λ ws.
        map (λ w. W.cells w) ws.items ≡ map (λ p. folded values p.wave) pins.now) }
{
    let mut waves = Vec::with_capacity(alloc, pins.len())?;
    for pin in pins {
        waves.push(pin.wave.folded(alloc)?)?;
    }
    Ok(waves)
}

/// Puts the values that the waves have in a slot in place of what was found before.
fn read_slot<W: CyclicWave<Item = Value>>(
    found: &mut Vec<Value>,
    waves: &[W],
    slot: u16,
) -> Result<(), NoMemory>
    requires { All (λ w. slot < length (W.cells w)) waves.now }
    ensures { OnOk result (found.new.items ≡ map (λ w. cell_at values (W.cells w) slot) waves.now) }
{
    found.clear();
    for wave in waves {
        found.push(wave.at(slot))?;
    }
    Ok(())
}

/// The first slot after this one in which some wave has another value, or the period.
pub fn next_change<W: CyclicWave<Item = Value>>(waves: &[W], slot: u16, period: u16) -> u16
    requires slot { slot < period }
    requires waves { All (λ w. length (W.cells w) ≡ period) waves.now }
    ensures behind { slot < result }
    ensures within { result ≤ period }
    ensures same { (p : ℕ) → slot ≤ p → p < result →
        map (λ w. cell_at values (W.cells w) p) waves.now
        ≡ map (λ w. cell_at values (W.cells w) slot) waves.now }
{
    let mut next = period;
    for wave in waves {
        let end = min(next, wave.same_until(slot));
        next = end;
    }
    next
}

/// Appends so many slots of a value.
fn push_slots(cells: &mut Vec<Value>, value: Value, count: u16) -> Result<(), NoMemory>
    ensures { OnOk result (cells.new.items ≡ cells.old.items ++ replicate count value) }
{
    for _slot in 0..count {
        cells.push(value)?;
    }
    Ok(())
}

/// What an element of one pin makes of the wave there, from change to change.
fn imaged_alone<W: CyclicWave<Item = Value>, I: Image>(
    alloc: Global,
    image: &I,
    only: &W,
) -> Result<W, NoMemory>
    ensures { IfOk result (λ w.
        W.cells w ≡ map (λ v. I.value_of image.now (v ∷ [])) (W.cells only.now)) }
{
    only.map(alloc, |v| image.value(&[v]))
}

/// What an element of two pins makes of the waves there, from change to change.
fn imaged_both<W: CyclicWave<Item = Value>, I: Image>(
    alloc: Global,
    image: &I,
    one: &W,
    other: &W,
) -> Result<W, NoMemory>
    requires { length (W.cells one.now) ≡ length (W.cells other.now) }
    ensures { IfOk result (λ w.
        W.cells w ≡ map (λ q. I.value_of image.now (q.0 ∷ q.1 ∷ []))
        (zip (W.cells one.now) (W.cells other.now))) }
{
    one.zip(alloc, other, |v, u| image.value(&[v, u]))
}

/// What an element of any number of pins makes of the waves there, from change to change.
fn imaged_slots<W: CyclicWave<Item = Value>, I: Image>(
    alloc: Global,
    image: &I,
    waves: &[W],
    period: u16,
) -> Result<W, NoMemory>
    requires period { IsPeriod period }
    requires waves { All (λ w. length (W.cells w) ≡ period) waves.now }
    ensures { IfOk result (λ w.
        W.cells w ≡ slots period (λ p.
        I.value_of image.now (map (λ u. cell_at values (W.cells u) p) waves.now))) }
{
    let mut cells = Vec::with_capacity(alloc, period as usize)?;
    let mut found = Vec::with_capacity(alloc, waves.len())?;
    let mut slot = 0;
    'changes: while slot < period {
        read_slot(&mut found, waves, slot)?;
        let made = image.value(&found);
        let next = next_change(waves, slot, period);
        push_slots(&mut cells, made, next - slot)?;
        slot = next;
    }
    W::from_slots(alloc, &cells)
}

/// What an element makes of the waves in each slot of the period.
fn imaged<W: CyclicWave<Item = Value>, I: Image>(
    alloc: Global,
    image: &I,
    waves: &[W],
    period: u16,
) -> Result<W, NoMemory>
    requires period { IsPeriod period }
    requires waves { All (λ w. length (W.cells w) ≡ period) waves.now }
    ensures { IfOk result (λ w.
        W.cells w ≡ slots period (λ p.
        I.value_of image.now (map (λ u. cell_at values (W.cells u) p) waves.now))) }
{
    match waves {
        [only] => imaged_alone(alloc, image, only),
        [one, other] => imaged_both(alloc, image, one, other),
        _ => imaged_slots(alloc, image, waves, period),
    }
}

/// What an element makes of its pins' waves, without their skews. Those of one pin or two are not
/// copied.
fn imaged_own<W: CyclicWave<Item = Value>, I: Image>(
    alloc: Global,
    image: &I,
    pins: &[PinWave<W>],
    period: u16,
) -> Result<W, NoMemory>
    requires period { period ≡ period_of (map (λ p. p.wave) pins.now) }
    requires long { IsPeriod period }
    requires periods { HaveOnePeriod (map (λ p. p.wave) pins.now) }
    ensures { let waves = map (λ p. p.wave) pins.now in
        IfOk result (λ w. W.cells w
        ≡ slots (period_of waves) (λ p. I.value_of image.now (cells_in values waves p))) }
{
    match pins {
        [only] => imaged_alone(alloc, image, only.wave.wave()),
        [one, other] => imaged_both(alloc, image, one.wave.wave(), other.wave.wave()),
        _ => {
            let waves = own_waves(alloc, pins)?;
            imaged_slots(alloc, image, &waves, period)
        }
    }
}

/// What an element makes of its pins' waves slot by slot, with one skew for all of them.
pub fn by_slots<W: CyclicWave<Item = Value>, I: Image>(
    alloc: Global,
    image: &I,
    pins: &[PinWave<W>],
    skew: u16,
) -> Result<Made<W>, NoMemory>
    requires some { 0 < length pins.now }
    requires periods { HaveOnePeriod (map (λ p. p.wave) pins.now) }
    ensures made { let waves = map (λ p. p.wave) pins.now in
        IfOk result (λ m. skewed (W.cells m.wave) m.skew
        ≡ skewed (slots (period_of waves) (λ p.
        I.value_of image.now (cells_in values waves p))) skew) }
    ensures skew { IfOk result (λ m. m.skew ≡ skew) }
{
    let made = imaged_own(alloc, image, pins, pins[0].wave.period())?;
    Ok(Made { wave: made, skew })
}

/// What an element makes of its pins' folds.
pub fn by_folds<W: CyclicWave<Item = Value>, I: Image>(
    alloc: Global,
    image: &I,
    pins: &[PinWave<W>],
    folds: &[W],
) -> Result<Made<W>, NoMemory>
    requires some { 0 < length pins.now }
    requires periods { HaveOnePeriod (map (λ p. p.wave) pins.now) }
    requires folds { map (λ w. W.cells w) folds.now ≡ map (λ p. folded values p.wave) pins.now }
    ensures made { let waves = map (λ p. p.wave) pins.now in
        IfOk result (λ m. skewed (W.cells m.wave) m.skew
        ≡ skewed (slots (period_of waves) (λ p.
        I.value_of image.now (folds_in values waves p))) 0) }
    ensures skew { IfOk result (λ m. m.skew ≡ 0) }
{
    let made = imaged(alloc, image, folds, pins[0].wave.period())?;
    Ok(Made {
        wave: made,
        skew: 0,
    })
}

/// What an element makes of its pins' waves before its delay: with the skew of the pin that moves,
/// if at most one does, and else of the folds.
pub fn met_at_once<W: CyclicWave<Item = Value>, I: Image>(
    alloc: Global,
    image: &I,
    pins: &[PinWave<W>],
) -> Result<Made<W>, NoMemory>
    requires some { 0 < length pins.now }
    requires periods { HaveOnePeriod (map (λ p. p.wave) pins.now) }
    ensures made { IfOk result (λ m.
        skewed (W.cells m.wave) m.skew
        ≡ meeting values (I.value_of image.now) (map (λ p. p.wave) pins.now)) }
    ensures short { IfOk result (λ m. m.skew < 4096) }
{
    match kept_skew(pins) {
        Some(skew) => by_slots(alloc, image, pins, skew),
        None => {
            let folds = folded_waves(alloc, pins)?;
            by_folds(alloc, image, pins, &folds)
        }
    }
}

/// The same, late by the element's delay.
pub fn met<W: CyclicWave<Item = Value>, I: Image>(
    alloc: Global,
    image: &I,
    pins: &[PinWave<W>],
    d: Delay,
) -> Result<Skewed<W>, NoMemory>
    requires some { 0 < length pins.now }
    requires periods { HaveOnePeriod (map (λ p. p.wave) pins.now) }
    ensures { IfOk result (λ s.
        s ≡ moved values (meeting values (I.value_of image.now) (map (λ p. p.wave) pins.now)) d) }
{
    let made = met_at_once(alloc, image, pins)?;
    late(alloc, &made.wave, made.skew, d)
}
