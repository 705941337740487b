//! Which nets are clocks.

ghost use Rattle.std.specs.Prelude.{◌≡◌, ◌<◌, ◌||◌, ◌↔◌, ℕ, IfOk, length, slice_get, slice_index_or, slice_set, true, false};
ghost use Rattle.draw_report.specs.Row.{are_clocks, asserts_clock, asserts_in, has_clock, is_clocked_by};

use element_kinds::Form;
use flat_circuit::{Circuit, Instance, Target};
use scald_base::{AssertSpec, List, NoMemory};
use std::alloc::Global;

/// Whether the first pin of a form is a clock, an enable or a pulse that is measured.
fn has_clock(form: Form) -> bool
    ensures { result ≡ has_clock form }
{
    match form {
        Form::Gate | Form::Change => false,
        Form::Register(_) | Form::Latch(_) | Form::Checker(_) => true,
    }
}

/// The net of the clock pin of an instance, if it has one.
fn clock_of(instance: &Instance) -> Option<u32>
    ensures { (net : ℕ) → (result ≡ Some net) ↔ (is_clocked_by net instance.now ≡ true) }
{
    if !has_clock(instance.kind.form()) {
        return None;
    }
    match instance.pins.as_slice() {
        [pin, ..] => match pin.target {
            Target::Net(net) => Some(net),
            Target::Constant(_) => None,
        },
        [] => None,
    }
}

/// Whether an assertion is that of a clock.
fn asserts_clock(spec: &AssertSpec) -> bool
    ensures { result ≡ asserts_clock spec.now }
{
    matches!(spec, AssertSpec::Precision(_) | AssertSpec::Clock(_))
}

/// Whether the net of a number asserts a clock.
fn asserts_in(c: &Circuit, number: u32) -> bool
    ensures { result ≡ asserts_in (slice_get c.now.nets number) }
{
    match c.net(number) {
        Some(net) => asserts_clock(net.spec.or(&AssertSpec::None)),
        None => false,
    }
}

/// Of each net by its number whether it asserts a clock.
fn asserted(alloc: Global, c: &Circuit) -> Result<List<bool>, NoMemory>
    ensures long { IfOk result (λ clocks. length clocks ≡ length c.now.nets) }
    ensures each { IfOk result (λ clocks. (n : ℕ) → n < length c.now.nets →
        slice_index_or clocks n false ≡ asserts_in (slice_get c.now.nets n)) }
{
    let mut clocks = List::new(alloc);
    for number in 0..c.net_count() {
        clocks.push(asserts_in(c, number))?;
    }
    Ok(clocks)
}

/// One net more is a clock.
fn add_clock(clocks: &mut List<bool>, net: u32)
    ensures { clocks.new ≡ slice_set clocks.old net true }
{
    let place = net as usize;
    if place < clocks.len() {
        clocks.set(place, true);
    }
}

/// One instance more, whose clock is one.
fn add_clock_of(clocks: &mut List<bool>, instance: &Instance)
    ensures long { length clocks.new ≡ length clocks.old }
    ensures each { (n : ℕ) → n < length clocks.old → slice_index_or clocks.new n false
        ≡ (slice_index_or clocks.old n false || is_clocked_by n instance.now) }
{
    if let Some(net) = clock_of(instance) {
        add_clock(clocks, net);
    }
}

/// Of each net by its number whether it is a clock: it asserts one, or it is on the clock or the
/// enable of a storage element or of a checker, or on a pin whose pulses are measured.
pub fn clocks(alloc: Global, c: &Circuit) -> Result<List<bool>, NoMemory>
    ensures { IfOk result (λ clocks. clocks ≡ are_clocks c.now) }
{
    let mut clocks = asserted(alloc, c)?;
    for number in 0..c.instance_count() {
        if let Some(instance) = c.instance(number) {
            add_clock_of(&mut clocks, instance);
        }
    }
    Ok(clocks)
}
