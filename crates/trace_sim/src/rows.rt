//! Ticks in a row: for how long a gate's own bit was what it waits for, or no pin of a change
//! function stepped. Kept from tick to tick, so a tick is looked at once however far back a delay
//! reaches.

ghost use Rattle.std.specs.Prelude.{◌≡◌, ℕ, ◌+◌, ◌-◌, ◌<◌, ◌^◌, List, length, IfOk, OnOk, Some, slice_get};
ghost use Rattle.element_kinds.specs.Kinds.{form_of};
ghost use Rattle.flat_circuit.specs.declared.instance.Instance.{Instance as Element};
ghost use Rattle.flat_circuit.specs.Run.{pin_signals, Choice as Chosen};
ghost use Rattle.trace_sim.specs.Choice.{chosen, choices_of};
ghost use Rattle.trace_sim.specs.Making.{AreRows, far_in, held_through, near_in, passes as passes_at, row_in, seen};

use crate::asked::are_shown;
use crate::choice::{Choice, Levels};
use crate::gates::gate;
use crate::levels::{all_stay, pin_bits, turned};
use element_kinds::Form;
use flat_circuit::{Circuit, Instance};
use scald_base::{Delay, NoMemory};
use std::alloc::Global;
use std::cmp::{max, min};

// How many ticks before an instance looks at its pins, at the latest.
fn near(form: Form, bounds: Delay, delays: (u16, u16)) -> u16
    ensures small { result < 2 ^ 16 }
    ensures is { (wires : List ℕ) → result ≡ near_in form bounds (chosen delays wires) }
{
    match form {
        Form::Gate => min(delays.0, delays.1),
        Form::Change => bounds.min,
        Form::Register(_) => delays.0,
        Form::Latch(_) => delays.0,
        Form::Checker(_) => delays.0,
    }
}

// And at the earliest.
fn far(form: Form, bounds: Delay, delays: (u16, u16)) -> u16
    ensures { (wires : List ℕ) → result ≡ far_in form bounds (chosen delays wires) }
{
    match form {
        Form::Gate => max(delays.0, delays.1),
        Form::Change => bounds.max,
        Form::Register(_) => delays.0,
        Form::Latch(_) => delays.0,
        Form::Checker(_) => delays.0,
    }
}

// Whether the instance sees at tick u what it waits for.
fn passes(
    alloc: Global,
    form: Form,
    i: &Instance,
    delays: (u16, u16),
    wires: &[u16],
    u: usize,
    bits: &[Levels],
) -> Result<bool, NoMemory>
    ensures { IfOk result (λ bit. bit
        ≡ passes_at form i.now.kind (chosen delays wires.now)
        (pin_signals (seen bits.now) i.now.pins wires.now) u) }
{
    let pins = i.pins.as_slice();
    match form {
        Form::Gate => {
            if are_shown(0, wires, u) {
                let shown = pin_bits(alloc, bits, pins, wires, u)?;
                Ok(turned(delays.0 < delays.1, gate(i.kind, &shown)))
            } else {
                Ok(false)
            }
        }
        Form::Change => Ok(are_shown(1, wires, u) && all_stay(bits, pins, wires, u)),
        Form::Register(_) => Ok(false),
        Form::Latch(_) => Ok(false),
        Form::Checker(_) => Ok(false),
    }
}

// How many ticks in a row the instance sees what it waits for, tick t taken in, if so many were
// before.
fn row_at(
    alloc: Global,
    i: &Instance,
    delays: (u16, u16),
    wires: &[u16],
    t: usize,
    before: usize,
    bits: &[Levels],
) -> Result<usize, NoMemory>
    requires short { t < 2 ^ 32 }
    requires before { before ≡ row_in (seen bits.now) i.now (chosen delays wires.now) t }
    ensures { IfOk result (λ row. row
        ≡ row_in (seen bits.now) i.now (chosen delays wires.now) (t + 1)) }
{
    let form = i.kind.form();
    let near = near(form, i.delay, delays) as usize;
    if t < near {
        Ok(0)
    } else if passes(alloc, form, i, delays, wires, t - near, bits)? {
        Ok(before + 1)
    } else {
        Ok(0)
    }
}

/// Whether the instance saw what it waits for at each tick that it looks at from tick t.
pub(crate) fn is_held(
    alloc: Global,
    i: &Instance,
    delays: (u16, u16),
    wires: &[u16],
    t: usize,
    before: usize,
    bits: &[Levels],
) -> Result<bool, NoMemory>
    requires short { t < 2 ^ 32 }
    requires before { before ≡ row_in (seen bits.now) i.now (chosen delays wires.now) t }
    ensures { IfOk result (λ held.
        let choice = chosen delays wires.now in let form = form_of i.now.kind in held
        ≡ held_through (passes_at form i.now.kind choice
        (pin_signals (seen bits.now) i.now.pins wires.now))
        (near_in form i.now.delay choice) (far_in form i.now.delay choice) t) }
{
    let row = row_at(alloc, i, delays, wires, t, before, bits)?;
    let form = i.kind.form();
    let near = near(form, i.delay, delays) as usize;
    let far = far(form, i.delay, delays) as usize;
    Ok(far < row + near)
}

// The count of one instance, tick t taken in.
fn counted(
    alloc: Global,
    c: &Circuit,
    choice: &Choice,
    k: u32,
    t: usize,
    before: usize,
    bits: &[Levels],
) -> Result<usize, NoMemory>
    requires short { t < 2 ^ 32 }
    requires before { (i : Element) (at : Chosen) → slice_get c.now.instances k ≡ Some i →
        slice_get (choices_of choice.now) k ≡ Some at → before ≡ row_in (seen bits.now) i at t }
    ensures { IfOk result (λ row. (i : Element) (at : Chosen) →
        slice_get c.now.instances k ≡ Some i →
        slice_get (choices_of choice.now) k ≡ Some at → row ≡ row_in (seen bits.now) i at (t + 1)) }
{
    match c.instance(k) {
        None => Ok(0),
        Some(i) => match choice.at(k as usize) {
            None => Ok(0),
            Some((delays, wires)) => row_at(alloc, i, delays, wires, t, before, bits),
        },
    }
}

/// Takes tick t into the counts of all instances.
pub(crate) fn count_tick(
    alloc: Global,
    c: &Circuit,
    choice: &Choice,
    t: usize,
    bits: &[Levels],
    rows: &mut [usize],
) -> Result<(), NoMemory>
    requires short { t < 2 ^ 32 }
    requires long { length rows.old ≡ length c.now.instances }
    requires rows { AreRows c.now (choices_of choice.now) bits.now rows.old t }
    ensures long { OnOk result (length rows.new ≡ length c.now.instances) }
    ensures rows { OnOk result (AreRows c.now (choices_of choice.now) bits.now rows.new (t + 1)) }
{
    for k in 0..c.instance_count() {
        rows[k as usize] = counted(alloc, c, choice, k, t, rows[k as usize], bits)?;
    }
    Ok(())
}
