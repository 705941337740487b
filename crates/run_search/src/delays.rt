//! Delays at their ends.

use crate::corner::{Corner, clock_place};
use element_kinds::Form;
use fixpoint_engine::NetSet;
use flat_circuit::{Circuit, Instance, Pin, Target};
use narrowing::{Constraint, instance_of};
use rand_core::Rng;
use scald_base::{Delay, NoMemory};
use std::alloc::Global;
use trace_sim::{DelayPicks, WirePicks};
use vector_names::Indices;

/// One end of bounds.
fn end_of(bounds: Delay, late: bool) -> u16 {
    if late { bounds.max } else { bounds.min }
}

/// Whether what an instance drives leads to the clock.
fn leads(i: &Instance, clock: &NetSet) -> bool {
    match i.out {
        Some(Target::Net(net)) => clock.has(net),
        _ => false,
    }
}

/// The delays of an instance.
fn picked<R: Rng>(rng: &mut R, corner: Corner, i: &Instance, leads: bool) -> (u16, u16) {
    if let Some(split) = i.split {
        if i.kind.may_split() {
            let rise = end_of(split.rise, corner.is_late(rng, leads));
            let fall = end_of(split.fall, corner.is_late(rng, leads));
            return (rise, fall);
        }
    }
    match i.kind.form() {
        Form::Gate | Form::Register(_) | Form::Latch(_) => {
            let delay = end_of(i.delay, corner.is_late(rng, leads));
            (delay, delay)
        }
        Form::Change | Form::Checker(_) => (0, 0),
    }
}

/// The delay of the wire to a pin.
fn wire<R: Rng>(rng: &mut R, corner: Corner, c: &Circuit, pin: Pin, leads: bool) -> u16 {
    let Target::Net(net) = pin.target else {
        return 0;
    };
    match c.net(net) {
        None => 0,
        Some(found) => end_of(found.wire, corner.is_late(rng, leads)),
    }
}

/// The delays of the wires to the pins of an instance, of which the one at a place, if any, is a
/// clock.
fn wires<R: Rng>(
    alloc: Global,
    rng: &mut R,
    corner: Corner,
    c: &Circuit,
    i: &Instance,
    leads: bool,
    clock: Option<usize>,
) -> Result<Indices, NoMemory> {
    let mut wires = Indices::new(alloc);
    for (place, pin) in i.pins.as_slice().iter().enumerate() {
        let leads = leads || clock == Some(place);
        wires.push(wire(rng, corner, c, *pin, leads))?;
    }
    Ok(wires)
}

/// The delays at all instances, and those of the wires to their pins, in a corner.
pub fn delays<R: Rng>(
    alloc: Global,
    rng: &mut R,
    corner: Corner,
    c: &Circuit,
    x: Constraint,
    clock: &NetSet,
) -> Result<(DelayPicks, WirePicks), NoMemory> {
    let mut delays = DelayPicks::new(alloc);
    let mut all_wires = WirePicks::new(alloc);
    for k in 0..c.instance_count() {
        if let Some(i) = c.instance(k) {
            let leads = leads(i, clock);
            let own_clock = if instance_of(x) == Some(k) {
                Some(clock_place(i))
            } else {
                None
            };
            delays.push(picked(rng, corner, i, leads))?;
            all_wires.push(wires(alloc, rng, corner, c, i, leads, own_clock)?)?;
        }
    }
    Ok((delays, all_wires))
}
