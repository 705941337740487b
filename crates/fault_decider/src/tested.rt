//! Whether ticks are those of a break.

ghost use Rattle.std.specs.Prelude.{◌≡◌, ◌+◌, ◌-◌, ◌≤◌, ℕ, List, IfOk, IsTrue, false, length};
ghost use Rattle.scald_base.specs.Time.{period};
ghost use Rattle.step_values.specs.Steps.{has};
ghost use Rattle.pin_waves.specs.Interface.{wide_wave as wide_cells};
ghost use Rattle.element_kinds.specs.Kinds.{checks_pulses, closes_of, form_of};
ghost use Rattle.trace_sim.specs.Choice.{choices_of, chosen};
ghost use Rattle.trace_sim.specs.Simulated.{bit_of, run_of};
ghost use Rattle.flat_circuit.specs.Limits.{hold_of, setup_of};
ghost use Rattle.point_check.specs.Break.{Asserts, wide_at, HasMark, IsMarkBreak, IsRiseFallBreak, IsSetupHoldBreak};
ghost use Rattle.pulse_check.specs.Break.{IsWidthBreak};
ghost use Rattle.narrowing.specs.Break.{IsAtNet, IsBreakAt, IsFormBreak, IsPulseBreak};
ghost use Rattle.flat_circuit.specs.Run.{Choice as Chosen};

use crate::row::bit_in;
use element_kinds::{Check, Form};
use flat_circuit::{Circuit, Instance};
use narrowing::{Constraint, Named};
use pin_waves::wide_wave;
use run_search::{changes, counts, is_pulse, leaves, rises};
use scald_base::{AssertSpec, Header, NoMemory};
use std::alloc::Global;
use step_values::{Step, Value};
use trace_sim::{Choice, Levels};
use wave_core::{CyclicWave, SlotWave};

/// Whether an input changes after the setup time before one tick begins, and before the hold time
/// after another ends.
fn is_near(i: &Instance, first: u32, last: u32, change: u32) -> bool
    ensures not_before { IsTrue result → first + 1 ≤ change + setup_of i.now.limits }
    ensures not_after { IsTrue result → change ≤ last + hold_of i.now.limits }
{
    u64::from(first) + 1 <= u64::from(change) + u64::from(i.limits.setup())
        && u64::from(change) <= u64::from(last) + u64::from(i.limits.hold())
}

/// Whether the clock of a checker rises at one tick and its input changes at the other, too near to
/// that.
#[tactic(auto, using(crate::proofs::Breaking::edge_break))]
fn is_edge_break(
    i: &Instance,
    wires: &[u16],
    from: u32,
    ticks: u32,
    bits: &[Levels],
    rise: u32,
    change: u32,
) -> bool
    ensures { (choices : List Chosen) (pick : ℕ × ℕ) → IsTrue result →
        IsSetupHoldBreak (run_of ticks choices bits.now) i.now (chosen pick wires.now)
        from rise change }
{
    if !counts(wires, 0, from, ticks, rise) || !counts(wires, 1, from, ticks, change) {
        return false;
    }
    if !rises(bits, i, wires, 0, rise) || !changes(bits, i, wires, 1, change) {
        return false;
    }
    is_near(i, rise, rise, change)
}

/// The same of a clock that rises at one tick and next falls at another.
#[tactic(auto, using(crate::proofs::Breaking::high_break))]
fn is_high_break(
    i: &Instance,
    wires: &[u16],
    from: u32,
    ticks: u32,
    bits: &[Levels],
    rise: u32,
    fall: u32,
    change: u32,
) -> bool
    ensures { (choices : List Chosen) (pick : ℕ × ℕ) → IsTrue result →
        IsRiseFallBreak (run_of ticks choices bits.now) i.now (chosen pick wires.now)
        from rise fall change }
{
    counts(wires, 0, from, ticks, rise)
        && counts(wires, 0, from, ticks, fall)
        && counts(wires, 1, from, ticks, change)
        && is_pulse(bits, i, wires, true, rise, fall)
        && changes(bits, i, wires, 1, change)
        && is_near(i, rise, fall, change)
}

/// Whether a pulse of a checker's pin at a level is narrower than it asks for.
#[tactic(auto, using(crate::proofs::Breaking::width_break))]
fn is_width_break(
    i: &Instance,
    wires: &[u16],
    from: u32,
    ticks: u32,
    bits: &[Levels],
    high: bool,
    start: u32,
    end: u32,
) -> bool
    ensures { (choices : List Chosen) (pick : ℕ × ℕ) → IsTrue result →
        IsWidthBreak (run_of ticks choices bits.now) i.now (chosen pick wires.now)
        high from start end }
{
    let width = if high {
        i.limits.high()
    } else {
        i.limits.low()
    };
    counts(wires, 0, from, ticks, start)
        && counts(wires, 0, from, ticks, end)
        && is_pulse(bits, i, wires, high, start, end)
        && u64::from(end) < u64::from(start) + u64::from(width)
}

/// Whether a pin is marked.
fn is_marked(i: &Instance, pin: u16) -> bool
    ensures { IsTrue result → HasMark i.now pin }
{
    match i.pins.get(pin as usize) {
        None => false,
        Some(pin) => pin.hold,
    }
}

/// Whether a pin changes at a tick while the marked one lets it through.
#[tactic(auto, using(crate::proofs::Breaking::mark_break))]
fn is_mark_break(
    i: &Instance,
    wires: &[u16],
    closed: bool,
    from: u32,
    ticks: u32,
    bits: &[Levels],
    tick: u32,
    marked: u16,
    pin: u16,
) -> bool
    ensures { (choices : List Chosen) (pick : ℕ × ℕ) → IsTrue result →
        IsMarkBreak (run_of ticks choices bits.now) i.now (chosen pick wires.now)
        closed from marked pin tick }
{
    is_marked(i, marked)
        && (pin as usize) < i.pins.len()
        && pin != marked
        && counts(wires, marked, from, ticks, tick)
        && counts(wires, pin, from, ticks, tick)
        && leaves(bits, i, wires, marked, closed, tick)
        && changes(bits, i, wires, pin, tick)
}

/// Whether ticks are those of a break of an instance that is no width.
fn is_form_break(
    i: &Instance,
    wires: &[u16],
    from: u32,
    ticks: u32,
    bits: &[Levels],
    named: Named,
) -> bool
    ensures { (choices : List Chosen) (pick : ℕ × ℕ) → IsTrue result →
        IsFormBreak (form_of i.now.kind) (closes_of i.now.kind)
        (run_of ticks choices bits.now) i.now (chosen pick wires.now) from named }
{
    match named {
        Named::Edge { rise, change } => match i.kind.form() {
            Form::Checker(Check::SetupHold) => {
                is_edge_break(i, wires, from, ticks, bits, rise, change)
            }
            _ => false,
        },
        Named::High { rise, fall, change } => match i.kind.form() {
            Form::Checker(Check::RiseFall) => {
                is_high_break(i, wires, from, ticks, bits, rise, fall, change)
            }
            _ => false,
        },
        Named::Mark { tick, marked, pin } => match (i.kind.form(), i.kind.closes()) {
            (Form::Gate, Some(closed)) => {
                is_mark_break(i, wires, closed, from, ticks, bits, tick, marked, pin)
            }
            _ => false,
        },
        Named::Pulse { .. } => false,
        Named::Step(_) => false,
    }
}

/// The same of a width.
fn is_pulse_break(
    i: &Instance,
    wires: &[u16],
    high: bool,
    from: u32,
    ticks: u32,
    bits: &[Levels],
    named: Named,
) -> bool
    ensures { (choices : List Chosen) (pick : ℕ × ℕ) → IsTrue result →
        IsPulseBreak (checks_pulses i.now.kind) high
        (run_of ticks choices bits.now) i.now (chosen pick wires.now) from named }
{
    let Named::Pulse { start, end } = named else {
        return false;
    };
    if i.kind.checks_pulses() {
        is_width_break(i, wires, from, ticks, bits, high, start, end)
    } else {
        false
    }
}

/// The bit of a net at a tick.
fn bit_at(bits: &[Levels], net: u32, t: u32) -> bool
    ensures { result ≡ bit_of bits.now net t }
{
    match bits.get(net as usize) {
        None => false,
        Some(row) => bit_in(row.as_slice(), t),
    }
}

/// Whether a name of this assertion asserts something.
fn asserts(spec: &AssertSpec) -> bool
    ensures { IsTrue result → Asserts spec.now }
{
    match spec {
        AssertSpec::None => false,
        AssertSpec::Precision(_) => true,
        AssertSpec::Clock(_) => true,
        AssertSpec::Stable(_) => true,
    }
}

/// Whether the wide wave of an assertion lacks a step in the slot of a tick.
fn lacks<W: CyclicWave<Item = Value>>(
    h: &Header,
    spec: &AssertSpec,
    wide: &W,
    t: u32,
    before: bool,
    after: bool,
) -> bool
    requires wide { W.cells wide.now ≡ wide_cells h.now spec.now }
    requires sized { length (W.cells wide.now) ≡ period h.now }
    ensures { IsTrue result → has (wide_at h.now spec.now t) before after ≡ false }
{
    let _ = spec;
    !wide
        .at((t % u32::from(h.period())) as u16)
        .permits(Step { before, after })
}

/// Whether the bits of a net step at a tick as its assertion does not have it.
fn lacks_step(
    alloc: Global,
    h: &Header,
    spec: &AssertSpec,
    bits: &[Levels],
    net: u32,
    tick: u32,
) -> Result<bool, NoMemory>
    requires { 1 ≤ tick }
    ensures { IfOk result (λ is. IsTrue is → has (wide_at h.now spec.now tick)
        (bit_of bits.now net (tick - 1)) (bit_of bits.now net tick) ≡ false) }
{
    let wide: SlotWave<Value> = wide_wave(alloc, spec, h)?;
    let before = bit_at(bits, net, tick - 1);
    let after = bit_at(bits, net, tick);
    Ok(lacks(h, spec, &wide, tick, before, after))
}

/// Whether a driven net steps at a tick as its assertion does not have it.
#[tactic(auto, using(crate::proofs::Breaking::step_break))]
fn is_step_break(
    alloc: Global,
    c: &Circuit,
    net: u32,
    from: u32,
    ticks: u32,
    bits: &[Levels],
    tick: u32,
) -> Result<bool, NoMemory>
    ensures { (choices : List Chosen) → IfOk result (λ is. IsTrue is →
        IsAtNet c.now (run_of ticks choices bits.now) net from tick) }
{
    let Some(found) = c.net(net) else {
        return Ok(false);
    };
    let Some(_driver) = found.driver else {
        return Ok(false);
    };
    let nothing = AssertSpec::None;
    let spec = found.spec.or(&nothing);
    if !asserts(spec) || tick < from || tick < 1 || tick >= ticks {
        return Ok(false);
    }
    lacks_step(alloc, c.header(), spec, bits, net, tick)
}

/// Whether ticks are those of a break of the constraint, all of them from a given one on, in the
/// run that has these delays of wires and these bits.
pub fn is_break(
    alloc: Global,
    c: &Circuit,
    choice: &Choice,
    ticks: u32,
    bits: &[Levels],
    x: Constraint,
    from: u32,
    named: Named,
) -> Result<bool, NoMemory>
    ensures { IfOk result (λ is. IsTrue is →
        IsBreakAt c.now (run_of ticks (choices_of choice.now) bits.now) x from named) }
{
    match x {
        Constraint::Instance(k) => Ok(is_at_instance(c, choice, ticks, bits, k, from, named)),
        Constraint::Pulse { instance, high } => {
            Ok(is_at_pulse(c, choice, ticks, bits, instance, high, from, named))
        }
        Constraint::Net(net) => match named {
            Named::Step(tick) => is_step_break(alloc, c, net, from, ticks, bits, tick),
            _ => Ok(false),
        },
    }
}

/// The same of what an instance asks for beside widths.
fn is_at_instance(
    c: &Circuit,
    choice: &Choice,
    ticks: u32,
    bits: &[Levels],
    k: u32,
    from: u32,
    named: Named,
) -> bool
    ensures { IsTrue result →
        IsBreakAt c.now (run_of ticks (choices_of choice.now) bits.now) (Constraint.Instance k)
        from named }
{
    match c.instance(k) {
        None => false,
        Some(i) => match choice.at(k as usize) {
            None => false,
            Some((_, wires)) => is_form_break(i, wires, from, ticks, bits, named),
        },
    }
}

/// The same of a width.
fn is_at_pulse(
    c: &Circuit,
    choice: &Choice,
    ticks: u32,
    bits: &[Levels],
    k: u32,
    high: bool,
    from: u32,
    named: Named,
) -> bool
    ensures { IsTrue result →
        IsBreakAt c.now (run_of ticks (choices_of choice.now) bits.now)
        (Constraint.Pulse k high) from named }
{
    match c.instance(k) {
        None => false,
        Some(i) => match choice.at(k as usize) {
            None => false,
            Some((_, wires)) => is_pulse_break(i, wires, high, from, ticks, bits, named),
        },
    }
}
