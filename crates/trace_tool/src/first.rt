//! The first break of a run.

ghost use Rattle.std.specs.Prelude.{◌≡◌, IfOk, MatchOption, slice_get};
ghost use Rattle.element_kinds.specs.Kinds.{closes_of, form_of};
ghost use Rattle.trace_sim.specs.Choice.{choices_of};
ghost use Rattle.trace_sim.specs.Simulated.{run_of};
ghost use Rattle.trace_tool.specs.Break.{BreaksFirst, BreaksNever};
ghost use Rattle.trace_tool.specs.Pass.{ElementEnds, FindsFirst, FormEnds, HasSoonest, InstanceEnds, sooner_of};

use crate::assertion::net_end;
use crate::element::Element;
use crate::mark::mark_end;
use crate::pulse::pulse_end;
use crate::window::window_end;
use element_kinds::{Check, Form};
use flat_circuit::{Circuit, Instance};
use scald_base::NoMemory;
use std::alloc::Global;
use trace_sim::{Choice, Levels};

// The first tick, from one on, up to which what an instance asks for is broken.
fn form_end(i: &Instance, wires: &[u16], from: u32, ticks: u32, bits: &[Levels]) -> Option<u32>
    ensures { FindsFirst
        (FormEnds (form_of i.now.kind) (closes_of i.now.kind) bits.now i.now wires.now from)
        ticks result }
{
    match i.kind.form() {
        Form::Gate => match i.kind.closes() {
            None => None,
            Some(closed) => mark_end(i, wires, closed, from, ticks, bits),
        },
        Form::Change => None,
        Form::Register(_) => None,
        Form::Latch(_) => None,
        Form::Checker(check) => match check {
            Check::SetupHold => window_end(check, i, wires, from, ticks, bits),
            Check::RiseFall => window_end(check, i, wires, from, ticks, bits),
            Check::MinPulse => pulse_end(i, wires, from, ticks, bits),
        },
    }
}

fn instance_end(
    c: &Circuit,
    choice: &Choice,
    k: u32,
    from: u32,
    ticks: u32,
    bits: &[Levels],
) -> Option<u32>
    ensures { FindsFirst (InstanceEnds c.now (choices_of choice.now) bits.now k from) ticks result }
{
    match c.instance(k) {
        None => None,
        Some(i) => match choice.at(k as usize) {
            None => None,
            Some((_, wires)) => form_end(i, wires, from, ticks, bits),
        },
    }
}

// The least tick that is the greatest of a break of an element.
fn element_end(
    alloc: Global,
    c: &Circuit,
    choice: &Choice,
    e: Element,
    from: u32,
    ticks: u32,
    bits: &[Levels],
) -> Result<Option<u32>, NoMemory>
    ensures { IfOk result
        (HasSoonest c.now (run_of ticks (choices_of choice.now) bits.now) from e) }
{
    match e {
        Element::Instance(k) => Ok(instance_end(c, choice, k, from, ticks, bits)),
        Element::Net(place) => match c.by_name(place) {
            None => Ok(None),
            Some(number) => net_end(alloc, c, number, from, ticks, bits),
        },
    }
}

// The break that ends sooner, or the earlier one if both end with one tick.
fn sooner(best: Option<(Element, u32)>, e: Element, end: Option<u32>) -> Option<(Element, u32)>
    ensures { result ≡ sooner_of best e end }
{
    match (best, end) {
        (best, None) => best,
        (None, Some(last)) => Some((e, last)),
        (Some(best), Some(last)) => {
            if last < best.1 {
                Some((e, last))
            } else {
                Some(best)
            }
        }
    }
}

/// The first break whose ticks all lie from a given one on, and its greatest tick: the one whose
/// greatest tick is least, and of these that of the first element, instances by their numbers and
/// then nets in name order. `None` comes exactly if nothing is broken from there on. Of the
/// choice the delays of wires alone count. Takes a time linear in pins times ticks.
pub fn first_break(
    alloc: Global,
    c: &Circuit,
    choice: &Choice,
    ticks: u32,
    bits: &[Levels],
    from: u32,
) -> Result<Option<(Element, u32)>, NoMemory>
    ensures { IfOk result (λ found. let run = run_of ticks (choices_of choice.now) bits.now in
        MatchOption found (BreaksNever c.now run from) (λ b. BreaksFirst c.now run from b.1 b.0)) }
{
    c.known();
    let mut best = None;
    for k in 0..c.instance_count() {
        let e = Element::Instance(k);
        let end = element_end(alloc, c, choice, e, from, ticks, bits)?;
        best = sooner(best, e, end);
    }
    for place in 0..c.net_count() {
        let e = Element::Net(place);
        let end = element_end(alloc, c, choice, e, from, ticks, bits)?;
        best = sooner(best, e, end);
    }
    Ok(best)
}
