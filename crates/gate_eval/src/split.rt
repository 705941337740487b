//! The wave of the output of a gate that has two delays.

ghost use Rattle.std.specs.Prelude.{◌≡◌, ◌<◌, IfOk, count_by, length, map, position, true, zip};
ghost use Rattle.wave_core.specs.Slots.{slots};
ghost use Rattle.step_values.specs.Steps.{cover_of};
ghost use Rattle.element_kinds.specs.Kinds.{may_split};
ghost use Rattle.gate_eval.specs.Meeting.{HaveOnePeriod};
ghost use Rattle.gate_eval.specs.Instance.{CountsFit, MarkFits};
ghost use Rattle.gate_eval.specs.Split.{IsSplitSound, SomeBitIsLeft, ends_in as ends, split_value, split_wave};
ghost use Rattle.gate_eval.specs.SplitWindow.{bits_at, both_end, edges, edges_after, edges_from, output_of, own_bits, resting, slow_fall_bits, slow_rise_bits};

use crate::change::window;
use crate::gate::at_once;
use crate::pin_wave::{PinWave, PinWaves};
use flat_circuit::{Kind, Split};
use scald_base::NoMemory;
use skew_algebra::Skewed;
use std::alloc::Global;
use step_values::{Step, StepSet, Value, cover};
use wave_core::CyclicWave;

/// Whether a value permits a step that ends in this bit.
fn ends_in(bit: bool, v: Value) -> bool
    ensures { result ≡ ends bit v }
{
    v.permits(Step {
        before: false,
        after: bit,
    }) || v.permits(Step {
        before: true,
        after: bit,
    })
}

/// The least value that permits the steps that are named true: U if all are, and something is
/// unknown. If none is, which no wave brings about, it is 1.
fn covering(low: bool, rises: bool, falls: bool, high: bool, unknown: bool) -> Value
    ensures { result ≡ cover_of low rises falls high unknown }
{
    cover(StepSet::of(low, rises, falls, high), unknown)
}

/// The value of an output that stays at one of the bits that it may be at, or U if it may be at
/// both and something is unknown. If it may be at none, which no wave brings about, it is 1.
fn resting(low: bool, high: bool, unknown: bool) -> Value
    ensures { result ≡ resting low high unknown }
{
    match (low, high) {
        (true, true) if unknown => Value::U,
        (true, true) => Value::S,
        (true, false) => Value::Zero,
        (false, _) => Value::One,
    }
}

/// The bits that the output may be at, by what the slots may hold from the greatest to the least of
/// both delays before.
fn own_bits(either: Value) -> Value
    ensures { result ≡ own_bits either }
{
    let (low, high) = (ends_in(false, either), ends_in(true, either));
    resting(low, high, either.is_unknown())
}

/// 1 if both what the rise delay reaches and what the fall delay reaches may end in a bit, and 0
/// if not.
fn both_end(bit: bool, rise: Value, fall: Value) -> Value
    ensures { result ≡ both_end bit rise fall }
{
    if ends_in(bit, rise) && ends_in(bit, fall) {
        Value::One
    } else {
        Value::Zero
    }
}

/// The bits that the output may be at if the rise delay is never the shorter one: it comes to 1
/// only if both windows end in 1.
fn slow_rise_bits(either: Value, both: Value) -> Value
    ensures { result ≡ slow_rise_bits either both }
{
    let (low, high) = (ends_in(false, either), ends_in(true, both));
    resting(low, high, either.is_unknown())
}

/// Those if the fall delay is never the shorter one: it comes to 0 only if both end in 0.
fn slow_fall_bits(either: Value, both: Value) -> Value
    ensures { result ≡ slow_fall_bits either both }
{
    let (low, high) = (ends_in(true, both), ends_in(true, either));
    resting(low, high, either.is_unknown())
}

/// What may stay at either bit, and may rise and may fall if that is said.
fn edges(rises: bool, falls: bool) -> Value
    ensures { result ≡ edges rises falls }
{
    covering(true, rises, falls, true, false)
}

/// The edges that may come: a rise after the rise delay, and a fall after the fall delay.
fn edges_after(rise: Value, fall: Value) -> Value
    ensures { result ≡ edges_after rise fall }
{
    edges(rise.may_rise(), fall.may_fall())
}

/// Those that the bits of the slot before leave: the output rises from 0, and falls from 1.
fn edges_from(before: Value, after: Value) -> Value
    ensures { result ≡ edges_from before after }
{
    let rises = ends_in(false, before) && after.may_rise();
    let falls = ends_in(true, before) && after.may_fall();
    edges(rises, falls)
}

/// What the output may do, by the bits that it may be at and the edges that may lead to them.
fn output(bits: Value, edges: Value) -> Value
    ensures { result ≡ output_of bits edges }
{
    let (low, high) = (ends_in(false, bits), ends_in(true, bits));
    let rises = high && edges.may_rise();
    let falls = low && edges.may_fall();
    covering(low, rises, falls, high, bits.is_unknown())
}

/// In each slot, whether both windows may end in a bit.
fn both_ends<W: CyclicWave<Item = Value>>(
    alloc: Global,
    bit: bool,
    rise: &W,
    fall: &W,
) -> Result<W, NoMemory>
    requires { length (W.cells rise.now) ≡ length (W.cells fall.now) }
    ensures { IfOk result (λ w.
        W.cells w ≡ map (λ q. both_end bit q.0 q.1) (zip (W.cells rise.now) (W.cells fall.now))) }
{
    rise.zip(alloc, fall, |v, w| both_end(bit, v, w))
}

/// In each slot, the bits that the output may be at.
fn bits<W: CyclicWave<Item = Value>>(
    alloc: Global,
    s: &Split,
    either: &W,
    rise: &W,
    fall: &W,
) -> Result<W, NoMemory>
    requires rise { length (W.cells rise.now) ≡ length (W.cells either.now) }
    requires fall { length (W.cells fall.now) ≡ length (W.cells either.now) }
    ensures { IfOk result (λ w. W.cells w ≡ slots (length (W.cells either.now))
        (bits_at s.now (W.cells either.now) (W.cells rise.now) (W.cells fall.now))) }
{
    if s.fall.max <= s.rise.min {
        let both = both_ends(alloc, true, rise, fall)?;
        return either.zip(alloc, &both, |v, w| slow_rise_bits(v, w));
    }
    if s.rise.max <= s.fall.min {
        let both = both_ends(alloc, false, rise, fall)?;
        return either.zip(alloc, &both, |v, w| slow_fall_bits(v, w));
    }
    either.map(alloc, |v| own_bits(v))
}

/// In each slot, the edges that may come after the delays.
fn all_edges<W: CyclicWave<Item = Value>>(alloc: Global, rise: &W, fall: &W) -> Result<W, NoMemory>
    requires { length (W.cells rise.now) ≡ length (W.cells fall.now) }
    ensures { IfOk result (λ w.
        W.cells w ≡ map (λ q. edges_after q.0 q.1) (zip (W.cells rise.now) (W.cells fall.now))) }
{
    rise.zip(alloc, fall, |v, w| edges_after(v, w))
}

/// In each slot, those that the bits of the slot before leave.
fn edges_left<W: CyclicWave<Item = Value>>(
    alloc: Global,
    before: &W,
    after: &W,
) -> Result<W, NoMemory>
    requires { length (W.cells before.now) ≡ length (W.cells after.now) }
    ensures { IfOk result (λ w.
        W.cells w ≡ map (λ q. edges_from q.0 q.1) (zip (W.cells before.now) (W.cells after.now))) }
{
    before.zip(alloc, after, |v, w| edges_from(v, w))
}

/// In each slot, what the output may do.
fn outputs<W: CyclicWave<Item = Value>>(alloc: Global, bits: &W, edges: &W) -> Result<W, NoMemory>
    requires { length (W.cells bits.now) ≡ length (W.cells edges.now) }
    ensures { IfOk result (λ w.
        W.cells w ≡ map (λ q. output_of q.0 q.1) (zip (W.cells bits.now) (W.cells edges.now))) }
{
    bits.zip(alloc, edges, |v, w| output(v, w))
}

/// The cells of the image of a gate's pins, late by the gate's two delays. Each wave here is made
/// of others from change to change.
fn late_by_two<W: CyclicWave<Item = Value>>(
    alloc: Global,
    wave: &W,
    s: &Split,
) -> Result<W, NoMemory>
    ensures { IfOk result (λ w.
        W.cells w ≡ slots (length (W.cells wave.now)) (split_value s.now (W.cells wave.now))) }
{
    s.rise.known();
    s.fall.known();
    let either = window(alloc, wave, 0, s.either())?;
    let rise = window(alloc, wave, 0, s.rise)?;
    let fall = window(alloc, wave, 0, s.fall)?;
    let bits = bits(alloc, s, &either, &rise, &fall)?;
    let before = bits.rotate(alloc, 1)?;
    let edges = all_edges(alloc, &rise, &fall)?;
    let left = edges_left(alloc, &before, &edges)?;
    outputs(alloc, &bits, &left)
}

/// The wave of the output of a gate with two delays.
fn evaluated<W: CyclicWave<Item = Value>>(
    alloc: Global,
    kind: Kind,
    pins: &[PinWave<W>],
    s: &Split,
) -> Result<Skewed<W>, NoMemory>
    requires kind { may_split kind ≡ true }
    requires some { 0 < length pins.now }
    requires mark { MarkFits kind (position (λ p. p.hold) pins.now) (length pins.now) }
    requires periods { HaveOnePeriod (map (λ p. p.wave) pins.now) }
    ensures { IfOk result (λ r.
        r ≡ split_wave kind (map (λ p. p.wave) pins.now) (position (λ p. p.hold) pins.now) s.now) }
{
    let made = at_once(alloc, kind, pins)?;
    let late = late_by_two(alloc, &made.wave, s)?;
    Skewed::normal(alloc, late, made.skew)
}

/// The wave of the output of a gate with two delays, before the output's complement, from the waves
/// of its pins and the bounds of its delays, in ticks. It fails only if memory runs out.
pub fn eval_split<W: CyclicWave<Item = Value>>(
    alloc: Global,
    kind: Kind,
    pins: &PinWaves<W>,
    s: Split,
) -> Result<Skewed<W>, NoMemory>
    requires kind { may_split kind ≡ true }
    requires pins { CountsFit kind (length pins.now) (count_by (λ p. p.hold) pins.now) }
    requires periods { HaveOnePeriod (map (λ p. p.wave) pins.now) }
    ensures wave { IfOk result (λ r.
        r ≡ split_wave kind (map (λ p. p.wave) pins.now) (position (λ p. p.hold) pins.now) s) }
    ensures sound { IfOk result (λ r. IsSplitSound kind s (map (λ p. p.wave) pins.now) r) }
{
    evaluated(alloc, kind, pins.as_slice(), &s)
}

/// In every slot the output of a gate with two delays may be 0 or 1, whatever the image is, so its
/// value there covers some step.
pub fn some_bit_is_left()
    ensures { SomeBitIsLeft }
{}
