//! The waves of nets that nothing drives.

ghost use Rattle.std.specs.Prelude.{◌≡◌, ◌-◌, ◌+◌, ◌<◌, ℕ, IfOk, if◌then◌else◌, length, min as least};
ghost use Rattle.scald_base.specs.Time.{period};
ghost use Rattle.step_values.specs.Cell.{values};
ghost use Rattle.step_values.specs.declared.value.Value.TheVariants.{One, Zero};
ghost use Rattle.skew_algebra.specs.Permits.{Permits};
ghost use Rattle.skew_algebra.specs.Wave.{folded, normal};
ghost use Rattle.pin_waves.specs.Interface.{clock_wave, constant_wave, interface_wave, precision_wave, skewed_clock, stable_wave, wide_wave, PermitsAsserted};

use crate::ideal_clock::clock_slots;
use crate::stable_spans::stable_slots;
use scald_base::{AssertSpec, ClockSpec, Header, NoMemory, Spans};
use skew_algebra::Skewed;
use std::alloc::Global;
use std::cmp::min;
use step_values::Value;
use wave_core::CyclicWave;

/// By how many ticks a clock may be later than at its earliest. One tick less than a period is
/// enough: then it may stand at any place.
fn lateness(h: &Header, skew: (u16, u16)) -> u16
    ensures is { result ≡ least (skew.0 + skew.1) (period h.now - 1) }
    ensures less { result < period h.now }
{
    let (early, late) = skew;
    min(
        u32::from(early) + u32::from(late),
        u32::from(h.period() - 1),
    ) as u16
}

/// The cells of a clock at its earliest.
fn early_clock<W: CyclicWave<Item = Value>>(
    alloc: Global,
    clock: &ClockSpec,
    h: &Header,
    skew: (u16, u16),
) -> Result<W, NoMemory>
    ensures cells { IfOk result (λ w. W.cells w ≡ (skewed_clock h.now clock.now skew).cells) }
    ensures sized { IfOk result (λ w. length (W.cells w) ≡ period h.now) }
{
    h.known();
    let cells = clock_slots(alloc, clock, h, skew.0)?;
    W::from_slots(alloc, &cells)
}

/// The wave of a clock that comes early or late as a whole.
fn precision_wave<W: CyclicWave<Item = Value>>(
    alloc: Global,
    clock: &ClockSpec,
    h: &Header,
) -> Result<Skewed<W>, NoMemory>
    ensures { IfOk result (λ s. s ≡ normal values (precision_wave h.now clock.now)) }
{
    let skew = clock.skew.unwrap_or(h.pskew);
    let wave = early_clock(alloc, clock, h, skew)?;
    Skewed::normal(alloc, wave, lateness(h, skew))
}

/// The wave of a clock whose edges come early or late each by itself.
fn clock_wave<W: CyclicWave<Item = Value>>(
    alloc: Global,
    clock: &ClockSpec,
    h: &Header,
) -> Result<Skewed<W>, NoMemory>
    ensures { IfOk result (λ s. s ≡ normal values (clock_wave h.now clock.now)) }
{
    let skew = clock.skew.unwrap_or(h.cskew);
    let wave: W = early_clock(alloc, clock, h, skew)?;
    let wave = wave.fold(alloc, lateness(h, skew))?;
    Skewed::normal(alloc, wave, 0)
}

/// The wave of a net that is still inside these intervals.
fn stable_wave<W: CyclicWave<Item = Value>>(
    alloc: Global,
    spans: &Spans,
    h: &Header,
) -> Result<Skewed<W>, NoMemory>
    ensures { IfOk result (λ s. s ≡ normal values (stable_wave h.now spans.now)) }
{
    h.known();
    let cells = stable_slots(alloc, spans, h)?;
    let wave = W::from_slots(alloc, &cells)?;
    Skewed::normal(alloc, wave, 0)
}

/// The wave of an assertion.
fn asserted_wave<W: CyclicWave<Item = Value>>(
    alloc: Global,
    spec: &AssertSpec,
    h: &Header,
) -> Result<Skewed<W>, NoMemory>
    ensures { IfOk result (λ s. s ≡ interface_wave h.now spec.now) }
{
    match spec {
        AssertSpec::None => stable_wave(alloc, &Spans::new(alloc), h),
        AssertSpec::Precision(clock) => precision_wave(alloc, clock, h),
        AssertSpec::Clock(clock) => clock_wave(alloc, clock, h),
        AssertSpec::Stable(spans) => stable_wave(alloc, spans, h),
    }
}

/// The wave of a net that nothing drives, by its assertion: it permits each net that keeps the
/// assertion from tick 1 on, and its fold is the wide wave. Without an assertion the net is
/// constant, and its wave S in all slots.
pub fn interface_wave<W: CyclicWave<Item = Value>>(
    alloc: Global,
    spec: &AssertSpec,
    h: &Header,
) -> Result<Skewed<W>, NoMemory>
    ensures wave { IfOk result (λ s. s ≡ interface_wave h.now spec.now) }
    ensures permits { IfOk result (λ s. PermitsAsserted h.now spec.now s) }
    ensures wide { IfOk result (λ s. folded values s ≡ wide_wave h.now spec.now) }
    ensures sized { IfOk result (λ s. length s.cells ≡ period h.now) }
{
    h.known();
    asserted_wave(alloc, spec, h)
}

/// What each slot may hold of a net with the assertion, driven or not: the fold of the wave that
/// [`interface_wave`] gives.
pub fn wide_wave<W: CyclicWave<Item = Value>>(
    alloc: Global,
    spec: &AssertSpec,
    h: &Header,
) -> Result<W, NoMemory>
    ensures wave { IfOk result (λ w. W.cells w ≡ wide_wave h.now spec.now) }
    ensures sized { IfOk result (λ w. length (W.cells w) ≡ period h.now) }
{
    let wave: Skewed<W> = interface_wave(alloc, spec, h)?;
    wave.folded(alloc)
}

/// The value of a net that is 1 for ever if `one` holds, and else 0.
fn level(one: bool) -> Value
    ensures { result ≡ (if one then One else Zero) }
{
    if one { Value::One } else { Value::Zero }
}

/// The wave of a net that is 1 for ever if `one` holds, and else 0.
pub fn constant_wave<W: CyclicWave<Item = Value>>(
    alloc: Global,
    h: &Header,
    one: bool,
) -> Result<Skewed<W>, NoMemory>
    ensures wave { IfOk result (λ s. s ≡ constant_wave h.now one) }
    ensures permits { IfOk result (λ s. (n v : ℕ) → Permits values s n (λ t. one) v) }
    ensures sized { IfOk result (λ s. length s.cells ≡ period h.now) }
{
    let wave = W::uniform(alloc, h.period(), level(one))?;
    Ok(Skewed::new(wave, 0))
}
