//! A run, made tick by tick.

ghost use Rattle.std.specs.Prelude.{◌≡◌, ◌-◌, ◌<◌, ◌^◌, ℕ, [], length, is_some, slice_index_or, IfOk, OnOk};
ghost use Rattle.element_kinds.specs.Equation.{latched as latched_bit, registered as registered_bit};
ghost use Rattle.element_kinds.specs.Kinds.{form_of};
ghost use Rattle.flat_circuit.specs.Circuit.{driver_at};
ghost use Rattle.flat_circuit.specs.Run.{out_signal, pin_signals};
ghost use Rattle.trace_sim.specs.Choice.{ChoiceFits, chosen, choices_of};
ghost use Rattle.trace_sim.specs.Simulated.{IsSimulated, bit_of};
ghost use Rattle.trace_sim.specs.Making.{AreRows, begun, begun_row, evaluated, fixed, fixed_in, forced_by, pass as passed, row_in, seen, stored as stored_bit, written};

use crate::asked::is_asked;
use crate::choice::{Choice, Levels, Traces};
use crate::levels::{copied, nth_pin, put, through, turned};
use crate::order::evaluation_order;
use crate::rows::{count_tick, is_held};
use element_kinds::Form;
use flat_circuit::{Circuit, Instance, Pin, Target};
use scald_base::{List, NoMemory};
use std::alloc::Global;

/// The run of this choice: with these delays, these inputs, and the free bits if no equation
/// fixes a bit. The choice fits the circuit: there are delays within their bounds for each instance
/// and each pin, and a bit for each net and tick. Takes a time linear in pins times ticks.
pub fn simulate(alloc: Global, c: &Circuit, choice: &Choice, ticks: u32) -> Result<Traces, NoMemory>
    requires { ChoiceFits c.now choice.now ticks }
    ensures { IfOk result (λ traces. IsSimulated c.now choice.now ticks traces) }
{
    c.known();
    let order = evaluation_order(alloc, c)?;
    let mut bits = begin(alloc, c, choice)?;
    let mut rows = vec![in alloc; 0; c.instance_count() as usize]?;
    for t in 0..ticks as usize {
        pass(alloc, c, choice, &order, &rows, t, &mut bits)?;
        count_tick(alloc, c, choice, t, &bits, &mut rows)?;
    }
    traces(alloc, &bits)
}

// The inputs and the free bits.
fn begin(alloc: Global, c: &Circuit, choice: &Choice) -> Result<Vec<Levels>, NoMemory>
    ensures { IfOk result (λ bits. bits.items ≡ begun c.now choice.now) }
{
    let mut bits = Vec::new(alloc);
    for n in 0..c.net_count() {
        bits.push(begin_row(alloc, c, choice, n)?)?;
    }
    Ok(bits)
}

fn begin_row(alloc: Global, c: &Circuit, choice: &Choice, n: u32) -> Result<Levels, NoMemory>
    ensures { IfOk result (λ row. row ≡ begun_row c.now choice.now n) }
{
    if is_driven(c, n) {
        row_of(alloc, &choice.free, n)
    } else {
        row_of(alloc, &choice.inputs, n)
    }
}

fn is_driven(c: &Circuit, n: u32) -> bool
    ensures { result ≡ is_some (driver_at c.now.nets n) }
{
    match c.net(n) {
        None => false,
        Some(net) => net.driver.is_some(),
    }
}

fn row_of(alloc: Global, traces: &Traces, n: u32) -> Result<Levels, NoMemory>
    ensures { IfOk result (λ row. row ≡ slice_index_or traces.now n []) }
{
    match traces.get(n as usize) {
        None => Ok(List::new(alloc)),
        Some(row) => copied(alloc, row),
    }
}

fn traces(alloc: Global, bits: &[Levels]) -> Result<Traces, NoMemory>
    ensures { IfOk result (λ traces. traces ≡ bits.now) }
{
    let mut traces = List::new(alloc);
    for row in bits {
        traces.push(copied(alloc, row)?)?;
    }
    Ok(traces)
}

// One tick.
fn pass(
    alloc: Global,
    c: &Circuit,
    choice: &Choice,
    order: &[usize],
    rows: &[usize],
    t: usize,
    bits: &mut [Levels],
) -> Result<(), NoMemory>
    requires short { t < 2 ^ 32 }
    requires long { length rows.now ≡ length c.now.instances }
    requires rows { AreRows c.now (choices_of choice.now) bits.old rows.now t }
    ensures made { OnOk result ((ticks : ℕ) → bits.new
        ≡ passed c.now ticks (choices_of choice.now) t order.now bits.old) }
    ensures rows { OnOk result (AreRows c.now (choices_of choice.now) bits.new rows.now t) }
{
    for k in order {
        evaluate(alloc, c, choice, *k, rows, t, bits)?;
    }
    Ok(())
}

// One instance at one tick.
fn evaluate(
    alloc: Global,
    c: &Circuit,
    choice: &Choice,
    k: usize,
    rows: &[usize],
    t: usize,
    bits: &mut [Levels],
) -> Result<(), NoMemory>
    requires short { t < 2 ^ 32 }
    requires long { length rows.now ≡ length c.now.instances }
    requires rows { AreRows c.now (choices_of choice.now) bits.old rows.now t }
    ensures made { OnOk result ((ticks : ℕ) → bits.new
        ≡ evaluated c.now ticks (choices_of choice.now) t k bits.old) }
    ensures before { OnOk result ((n v : ℕ) → v < t → bit_of bits.new n v ≡ bit_of bits.old n v) }
{
    if k < c.instance_count() as usize {
        match c.instance(k as u32) {
            None => {}
            Some(i) => match choice.at(k) {
                None => {}
                Some((delays, wires)) => {
                    let bit = fixed_bit(alloc, i, delays, wires, rows[k], t, bits)?;
                    write(i.out, i.out_inverted, t, bit, bits);
                }
            },
        }
    }
    Ok(())
}

fn write(out: Option<Target>, inverted: bool, t: usize, bit: Option<bool>, bits: &mut [Levels])
    ensures is { bits.new ≡ written bits.old out inverted t bit }
    ensures before { (n v : ℕ) → v < t → bit_of bits.new n v ≡ bit_of bits.old n v }
{
    match out {
        None => {}
        Some(Target::Constant(_)) => {}
        Some(Target::Net(n)) => match bit {
            None => {}
            Some(bit) => put(bits, n, t, turned(inverted, bit)),
        },
    }
}

/// The bit that the equation fixes, if it is asked and fixes one.
pub(crate) fn fixed_bit(
    alloc: Global,
    i: &Instance,
    delays: (u16, u16),
    wires: &[u16],
    row: usize,
    t: usize,
    bits: &[Levels],
) -> Result<Option<bool>, NoMemory>
    requires short { t < 2 ^ 32 }
    requires row { row ≡ row_in (seen bits.now) i.now (chosen delays wires.now) t }
    ensures { IfOk result (λ bit. bit
        ≡ fixed_in (seen bits.now) i.now (chosen delays wires.now) t) }
{
    if is_asked(i.kind.form(), i.delay, delays, wires, t) {
        by_form(alloc, i, delays, wires, row, t, bits)
    } else {
        Ok(None)
    }
}

/// The output at a tick, complemented back if it is marked.
pub(crate) fn old_output(out: Option<Target>, inverted: bool, t: usize, bits: &[Levels]) -> bool
    ensures { result ≡ out_signal (seen bits.now) out inverted t }
{
    match out {
        None => false,
        Some(target) => turned(inverted, through(bits, target, 0, t)),
    }
}

// The bit that the equation fixes at a tick at which it is asked, if it fixes one.
fn by_form(
    alloc: Global,
    i: &Instance,
    delays: (u16, u16),
    wires: &[u16],
    row: usize,
    t: usize,
    bits: &[Levels],
) -> Result<Option<bool>, NoMemory>
    requires short { t < 2 ^ 32 }
    requires row { row ≡ row_in (seen bits.now) i.now (chosen delays wires.now) t }
    ensures { IfOk result (λ bit. bit ≡ fixed (form_of i.now.kind) i.now.kind i.now.delay
        (chosen delays wires.now) (pin_signals (seen bits.now) i.now.pins wires.now)
        (out_signal (seen bits.now) i.now.out i.now.out_inverted (t - 1)) t) }
{
    let pins = i.pins.as_slice();
    let s = t.saturating_sub(delays.0 as usize);
    let old = old_output(i.out, i.out_inverted, t.saturating_sub(1), bits);
    match i.kind.form() {
        Form::Gate => {
            let held = is_held(alloc, i, delays, wires, t, row, bits)?;
            Ok(Some(turned(delays.0 < delays.1, held)))
        }
        Form::Change => {
            if is_held(alloc, i, delays, wires, t, row, bits)? {
                Ok(Some(old))
            } else {
                Ok(None)
            }
        }
        Form::Register(forced) => {
            let bit = registered(bits, pins, wires, s, old);
            Ok(stored(bits, pins, wires, s, forced, bit))
        }
        Form::Latch(forced) => {
            let bit = latched(bits, pins, wires, s, old);
            Ok(stored(bits, pins, wires, s, forced, bit))
        }
        Form::Checker(_) => Ok(None),
    }
}

fn registered(bits: &[Levels], pins: &[Pin], wires: &[u16], s: usize, old: bool) -> bool
    ensures { result ≡ registered_bit (pin_signals (seen bits.now) pins.now wires.now) s old }
{
    if !nth_pin(bits, pins, wires, 0, s.saturating_sub(1)) && nth_pin(bits, pins, wires, 0, s) {
        nth_pin(bits, pins, wires, 1, s)
    } else {
        old
    }
}

fn latched(bits: &[Levels], pins: &[Pin], wires: &[u16], s: usize, old: bool) -> bool
    ensures { result ≡ latched_bit (pin_signals (seen bits.now) pins.now wires.now) s old }
{
    if nth_pin(bits, pins, wires, 0, s) {
        nth_pin(bits, pins, wires, 1, s)
    } else {
        old
    }
}

// What a set and a reset make of the bit, if there are such pins.
fn stored(
    bits: &[Levels],
    pins: &[Pin],
    wires: &[u16],
    s: usize,
    forced: bool,
    bit: bool,
) -> Option<bool>
    ensures { result ≡ stored_bit forced (pin_signals (seen bits.now) pins.now wires.now) s bit }
{
    if forced {
        set_or_reset(
            nth_pin(bits, pins, wires, 2, s),
            nth_pin(bits, pins, wires, 3, s),
            bit,
        )
    } else {
        Some(bit)
    }
}

fn set_or_reset(set: bool, reset: bool, bit: bool) -> Option<bool>
    ensures { result ≡ forced_by set reset bit }
{
    if set {
        if reset { None } else { Some(true) }
    } else if reset {
        Some(false)
    } else {
        Some(bit)
    }
}
