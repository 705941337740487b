//! What a change function makes of its pins' waves.

ghost use Rattle.std.specs.Prelude.{◌≡◌, ◌<◌, IfOk, length, map, zip};
ghost use Rattle.wave_core.specs.Slots.{slots};
ghost use Rattle.step_values.specs.declared.value.Value.TheVariants.{S};
ghost use Rattle.step_values.specs.Cell.{values};
ghost use Rattle.step_values.specs.Steps.{join};
ghost use Rattle.skew_algebra.specs.Wave.{normal, skewed};
ghost use Rattle.gate_eval.specs.Meeting.{HaveOnePeriod, period_of};
ghost use Rattle.gate_eval.specs.Change.{change_wave as change};
ghost use Rattle.gate_eval.specs.Window.{Counts, change_of as change_value, found_at, seen_at, window as window_at};

use crate::pin_wave::PinWave;
use scald_base::{Delay, NoMemory};
use skew_algebra::Skewed;
use std::alloc::Global;
use std::cmp::min;
use step_values::Value;
use wave_core::{Cell, CyclicWave};

/// What a wave of this skew may hold in the slots `d.max` to `d.min` before each slot.
pub fn window<W: CyclicWave<Item = Value>>(
    alloc: Global,
    wave: &W,
    skew: u16,
    d: Delay,
) -> Result<W, NoMemory>
    requires { skew < 4096 }
    ensures { IfOk result (λ w.
        W.cells w ≡ slots (length (W.cells wave.now))
        (window_at (skewed (W.cells wave.now) skew) d)) }
{
    let turned = wave.rotate(alloc, d.min)?;
    let back = min(skew + (d.max - d.min), wave.period() - 1);
    turned.fold(alloc, back)
}

/// What either wave may hold in each slot.
fn joined<W: CyclicWave<Item = Value>>(alloc: Global, one: &W, other: &W) -> Result<W, NoMemory>
    requires { length (W.cells one.now) ≡ length (W.cells other.now) }
    ensures { IfOk result (λ w.
        W.cells w ≡ map (λ q. join q.0 q.1) (zip (W.cells one.now) (W.cells other.now))) }
{
    one.zip(alloc, other, |v, w| v.join(w))
}

/// What is seen of some pins, in two parts. Pins side by side mostly have one skew, as the bits of
/// a vector do, and then one window serves them all.
#[derive(Drop)]
struct Gathered<W: CyclicWave> {
    /// What the windows of the first pins may hold.
    seen: W,
    /// The waves of the last pins joined, which all have `skew`.
    last: W,
    skew: u16,
}

impl<W: CyclicWave<Item = Value>> Gathered<W> {
    /// What is seen of one pin.
    fn first(alloc: Global, pin: &Skewed<W>) -> Result<Gathered<W>, NoMemory>
        ensures seen { IfOk result (λ g. W.cells g.seen ≡ slots (length pin.now.cells) (λ p. S)) }
        ensures last { IfOk result (λ g. skewed (W.cells g.last) g.skew ≡ pin.now) }
        ensures short { IfOk result (λ g. g.skew < 4096) }
    {
        pin.known();
        let seen = W::uniform(alloc, pin.period(), Value::S)?;
        let last = pin.wave().copy(alloc)?;
        Ok(Gathered {
            seen,
            last,
            skew: pin.skew(),
        })
    }

    /// What is seen of all pins so far.
    fn all(&self, alloc: Global, d: Delay) -> Result<W, NoMemory>
        requires one { length (W.cells self.now.seen) ≡ length (W.cells self.now.last) }
        requires short { self.now.skew < 4096 }
        ensures { IfOk result (λ w. W.cells w ≡ slots (length (W.cells self.now.seen))
            (found_at (W.cells self.now.seen) (skewed (W.cells self.now.last) self.now.skew) d)) }
    {
        let window = window(alloc, &self.last, self.skew, d)?;
        joined(alloc, &self.seen, &window)
    }

    /// Counts one pin more in.
    fn counted(self, alloc: Global, pin: &Skewed<W>, d: Delay) -> Result<Gathered<W>, NoMemory>
        requires one { length (W.cells self.seen) ≡ length (W.cells self.last) }
        requires pin { length (W.cells self.last) ≡ length pin.now.cells }
        requires short { self.skew < 4096 }
        ensures { IfOk result (λ g. Counts pin.now d (W.cells self.seen)
            (skewed (W.cells self.last) self.skew) (W.cells g.seen)
            (skewed (W.cells g.last) g.skew)) }
    {
        pin.known();
        let cells = pin.wave();
        let skew = pin.skew();
        if skew != self.skew {
            let seen = self.all(alloc, d)?;
            let last = cells.copy(alloc)?;
            return Ok(Gathered { seen, last, skew });
        }
        if self.last.equal(cells) {
            return Ok(self);
        }
        let last = joined(alloc, &self.last, cells)?;
        Ok(Gathered {
            seen: self.seen,
            last,
            skew,
        })
    }
}

/// What some pin may hold in the slots `d.max` to `d.min` before each slot.
fn seen<W: CyclicWave<Item = Value>>(
    alloc: Global,
    pins: &[PinWave<W>],
    d: Delay,
) -> Result<W, NoMemory>
    requires some { 0 < length pins.now }
    requires periods { HaveOnePeriod (map (λ p. p.wave) pins.now) }
    ensures { let waves = map (λ p. p.wave) pins.now in
        IfOk result (λ w. W.cells w ≡ slots (period_of waves) (seen_at waves d)) }
{
    let mut gathered = Gathered::first(alloc, &pins[0].wave)?;
    for place in 1..pins.len() {
        gathered = gathered.counted(alloc, &pins[place].wave, d)?;
    }
    gathered.all(alloc, d)
}

/// How the output may change if the pins may hold this.
fn change_of(v: Value) -> Value
    ensures { result ≡ change_value v }
{
    if v.quiet() {
        Value::S
    } else if v.is_unknown() {
        Value::U
    } else {
        Value::C
    }
}

/// That in each slot.
fn changes<W: CyclicWave<Item = Value>>(alloc: Global, seen: &W) -> Result<W, NoMemory>
    ensures { IfOk result (λ w. W.cells w ≡ map change_value (W.cells seen.now)) }
{
    seen.map(alloc, |v| change_of(v))
}

/// What a change function makes of its pins' waves: its delay is counted in, and it has no skew.
pub fn change_wave<W: CyclicWave<Item = Value>>(
    alloc: Global,
    pins: &[PinWave<W>],
    d: Delay,
) -> Result<Skewed<W>, NoMemory>
    requires some { 0 < length pins.now }
    requires periods { HaveOnePeriod (map (λ p. p.wave) pins.now) }
    ensures { IfOk result (λ s. s ≡ normal values (change (map (λ p. p.wave) pins.now) d)) }
{
    let seen = seen(alloc, pins, d)?;
    let changes = changes(alloc, &seen)?;
    Skewed::normal(alloc, changes, 0)
}
