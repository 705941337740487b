//! The search for ticks of a break. What it finds is tried by `is_break`; nothing is promised of
//! it.

use crate::pins::{changes, counts, leaves, rises, shows};
use element_kinds::{Check, Form};
use flat_circuit::{Circuit, Instance};
use narrowing::{Constraint, Named};
use pin_waves::wide_wave;
use scald_base::{AssertSpec, Header, NoMemory};
use std::alloc::Global;
use step_values::{Step, Value};
use trace_sim::{Choice, Levels};
use wave_core::{CyclicWave, SlotWave};

/// Whether an input changes after the setup time before an edge begins.
fn is_late(i: &Instance, edge: u32, change: Option<u32>) -> Option<u32> {
    let change = change?;
    if u64::from(edge) < u64::from(change) + u64::from(i.limits.setup()) {
        Some(change)
    } else {
        None
    }
}

/// Whether an input changes before the hold time after an edge ends.
fn is_early(i: &Instance, edge: u32, change: u32) -> bool {
    u64::from(change) <= u64::from(edge) + u64::from(i.limits.hold())
}

/// The first break about the rises of a clock. What matters before a tick are the last rise and the
/// last change of the input.
fn find_edge(i: &Instance, wires: &[u16], from: u32, ticks: u32, bits: &[Levels]) -> Option<Named> {
    let mut last_rise = None;
    let mut last_change = None;
    for t in from..ticks {
        if counts(wires, 1, from, ticks, t) && changes(bits, i, wires, 1, t) {
            last_change = Some(t);
            if let Some(rise) = last_rise {
                if is_early(i, rise, t) {
                    return Some(Named::Edge { rise, change: t });
                }
            }
        }
        if counts(wires, 0, from, ticks, t) && rises(bits, i, wires, 0, t) {
            last_rise = Some(t);
            if let Some(change) = is_late(i, t, last_change) {
                return Some(Named::Edge { rise: t, change });
            }
        }
    }
    None
}

/// The first break about a clock that rises and next falls.
fn find_high(i: &Instance, wires: &[u16], from: u32, ticks: u32, bits: &[Levels]) -> Option<Named> {
    let mut rise = None;
    let mut last_high = None;
    let mut last_change = None;
    for t in from..ticks {
        if counts(wires, 1, from, ticks, t) && changes(bits, i, wires, 1, t) {
            last_change = Some(t);
            if let Some((rise, fall)) = last_high {
                if is_early(i, fall, t) {
                    return Some(Named::High {
                        rise,
                        fall,
                        change: t,
                    });
                }
            }
        }
        if counts(wires, 0, from, ticks, t) && changes(bits, i, wires, 0, t) {
            if shows(bits, i, wires, 0, t) {
                rise = Some(t);
            } else if let Some(rise) = rise {
                last_high = Some((rise, t));
                if let Some(change) = is_late(i, rise, last_change) {
                    return Some(Named::High {
                        rise,
                        fall: t,
                        change,
                    });
                }
            }
        }
    }
    None
}

/// The first pulse at a level that is narrower than a checker asks for.
fn find_pulse(
    i: &Instance,
    wires: &[u16],
    high: bool,
    from: u32,
    ticks: u32,
    bits: &[Levels],
) -> Option<Named> {
    let width = if high {
        i.limits.high()
    } else {
        i.limits.low()
    };
    let mut start = None;
    for t in from..ticks {
        if counts(wires, 0, from, ticks, t) && changes(bits, i, wires, 0, t) {
            if shows(bits, i, wires, 0, t) == high {
                start = Some(t);
            } else if let Some(start) = start {
                if u64::from(t) < u64::from(start) + u64::from(width) {
                    return Some(Named::Pulse { start, end: t });
                }
            }
        }
    }
    None
}

/// The place of the marked pin.
fn marked_pin(i: &Instance) -> Option<u16> {
    for place in 0..i.pins.len() {
        if let Some(pin) = i.pins.get(place) {
            if pin.hold {
                return u16::try_from(place).ok();
            }
        }
    }
    None
}

/// A pin other than the marked one that changes at a tick.
fn changing_pin(
    i: &Instance,
    wires: &[u16],
    marked: u16,
    from: u32,
    ticks: u32,
    bits: &[Levels],
    t: u32,
) -> Option<u16> {
    let pins = u16::try_from(i.pins.len()).ok()?;
    for pin in 0..pins {
        if pin != marked && counts(wires, pin, from, ticks, t) && changes(bits, i, wires, pin, t) {
            return Some(pin);
        }
    }
    None
}

/// The first tick at which a pin changes while the marked one lets it through.
fn find_mark(i: &Instance, wires: &[u16], from: u32, ticks: u32, bits: &[Levels]) -> Option<Named> {
    let closed = i.kind.closes()?;
    let marked = marked_pin(i)?;
    for t in from..ticks {
        if counts(wires, marked, from, ticks, t) && leaves(bits, i, wires, marked, closed, t) {
            if let Some(pin) = changing_pin(i, wires, marked, from, ticks, bits, t) {
                return Some(Named::Mark {
                    tick: t,
                    marked,
                    pin,
                });
            }
        }
    }
    None
}

/// The first step of a net that its assertion does not have.
fn find_step(
    alloc: Global,
    h: &Header,
    spec: &AssertSpec,
    row: &Levels,
    from: u32,
    ticks: u32,
) -> Result<Option<Named>, NoMemory> {
    let wide: SlotWave<Value> = wide_wave(alloc, spec, h)?;
    let mut before = None;
    for t in 0..ticks {
        let Some(after) = row.get(t as usize) else {
            return Ok(None);
        };
        if let Some(before) = before {
            let step = Step {
                before,
                after: *after,
            };
            if from <= t && !wide.at((t % u32::from(h.period())) as u16).permits(step) {
                return Ok(Some(Named::Step(t)));
            }
        }
        before = Some(*after);
    }
    Ok(None)
}

/// The first break of what an instance asks for beside widths.
fn find_in(i: &Instance, wires: &[u16], from: u32, ticks: u32, bits: &[Levels]) -> Option<Named> {
    match i.kind.form() {
        Form::Gate => find_mark(i, wires, from, ticks, bits),
        Form::Checker(Check::SetupHold) => find_edge(i, wires, from, ticks, bits),
        Form::Checker(Check::RiseFall) => find_high(i, wires, from, ticks, bits),
        _ => None,
    }
}

/// The instance of a number, with the delays of the wires to its pins.
fn find_at<'a>(c: &'a Circuit, choice: &'a Choice, k: u32) -> Option<(&'a Instance, &'a [u16])> {
    let i = c.instance(k)?;
    let (_, wires) = choice.at(k as usize)?;
    Some((i, wires))
}

/// The ticks of a break of the constraint, all of them from a given one on, if one is found in the
/// run that has these delays of wires and these bits: of those that end first, mostly.
pub fn find_break(
    alloc: Global,
    c: &Circuit,
    choice: &Choice,
    ticks: u32,
    bits: &[Levels],
    x: Constraint,
    from: u32,
) -> Result<Option<Named>, NoMemory> {
    match x {
        Constraint::Instance(k) => Ok(match find_at(c, choice, k) {
            None => None,
            Some((i, wires)) => find_in(i, wires, from, ticks, bits),
        }),
        Constraint::Pulse { instance, high } => Ok(match find_at(c, choice, instance) {
            None => None,
            Some((i, wires)) => find_pulse(i, wires, high, from, ticks, bits),
        }),
        Constraint::Net(net) => {
            let (Some(found), Some(row)) = (c.net(net), bits.get(net as usize)) else {
                return Ok(None);
            };
            let nothing = AssertSpec::None;
            find_step(alloc, c.header(), found.spec.or(&nothing), row, from, ticks)
        }
    }
}
