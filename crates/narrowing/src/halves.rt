//! Two halves of a narrowing that are worth a try. They guide the choice of splits, and nothing is
//! promised of them.

use crate::cone::{Through, nets_behind, nets_of};
use crate::constraint::Constraint;
use crate::fits::{has_delay, may_be_set};
use crate::offset::bounds_left;
use crate::part::{Part, offset_in, same_thing};
use flat_circuit::{CaseValue, Circuit, Instance};
use scald_base::{AssertSpec, Delay, NoMemory};
use std::alloc::Global;

/// The parts of a lower and of an upper half.
#[derive(Clone, Copy, PartialEq, Eq, Debug)]
pub struct Halves {
    pub lower: Part,
    pub upper: Part,
}

/// The most splits of each sort that are tried at a node.
const MOST: usize = 12;

/// The two bits of a net, unless a part has it at one of them.
fn bits_of(net: u32, parts: &[Part]) -> Option<Halves> {
    for part in parts {
        if let Part::Constant { net: set, .. } = part {
            if *set == net {
                return None;
            }
        }
    }
    Some(Halves {
        lower: Part::Constant { net, one: false },
        upper: Part::Constant { net, one: true },
    })
}

/// The middle of bounds, if they are more than one number.
fn middle(least: u16, greatest: u16) -> Option<u16> {
    if least < greatest {
        Some(least + (greatest - least) / 2)
    } else {
        None
    }
}

/// Which delay of an instance: the one that it has, or one of two.
#[derive(Clone, Copy, PartialEq, Eq, Debug)]
enum Sort {
    One,
    Rise,
    Fall,
}

/// A part of a delay of an instance.
fn part_of(sort: Sort, instance: u32, least: u16, greatest: u16) -> Part {
    match sort {
        Sort::One => Part::Delay {
            instance,
            least,
            greatest,
        },
        Sort::Rise => Part::Rise {
            instance,
            least,
            greatest,
        },
        Sort::Fall => Part::Fall {
            instance,
            least,
            greatest,
        },
    }
}

/// The bounds in a part that is of a delay or of an offset.
fn bounds_in(part: Part) -> Option<(u16, u16)> {
    match part {
        Part::Constant { .. } => None,
        Part::Delay {
            least,
            greatest,
            ..
        } => Some((least, greatest)),
        Part::Rise {
            least,
            greatest,
            ..
        } => Some((least, greatest)),
        Part::Fall {
            least,
            greatest,
            ..
        } => Some((least, greatest)),
        Part::Offset {
            least,
            greatest,
            ..
        } => Some((least, greatest)),
    }
}

/// The bounds that parts give the thing of a part, or else those that it has itself.
fn given(own: Part, parts: &[Part]) -> Option<(u16, u16)> {
    for part in parts {
        if same_thing(own, *part) {
            return bounds_in(*part);
        }
    }
    bounds_in(own)
}

/// The halves of a delay.
fn delay_halves(sort: Sort, instance: u32, own: Delay, parts: &[Part]) -> Option<Halves> {
    let own = part_of(sort, instance, own.min, own.max);
    let (least, greatest) = given(own, parts)?;
    let last = middle(least, greatest)?;
    Some(Halves {
        lower: part_of(sort, instance, least, last),
        upper: part_of(sort, instance, last.saturating_add(1), greatest),
    })
}

/// The halves of the offset of a clock that nothing drives.
fn offset_halves(c: &Circuit, net: u32, parts: &[Part]) -> Option<Halves> {
    let found = c.net(net)?;
    let nothing = AssertSpec::None;
    let AssertSpec::Precision(clock) = found.spec.or(&nothing) else {
        return None;
    };
    if found.driver.is_some() {
        return None;
    }
    let (least, greatest) = bounds_left(c.header(), clock, offset_in(net, parts));
    let least = u16::try_from(least).ok()?;
    let greatest = u16::try_from(greatest).ok()?;
    let last = middle(least, greatest)?;
    Some(Halves {
        lower: Part::Offset {
            net,
            least,
            greatest: last,
        },
        upper: Part::Offset {
            net,
            least: last.saturating_add(1),
            greatest,
        },
    })
}

fn push_some(tries: &mut Vec<Halves>, halves: Option<Halves>) -> Result<(), NoMemory> {
    if let Some(halves) = halves {
        tries.push(halves)?;
    }
    Ok(())
}

/// Adds the halves of the delays of an instance.
fn add_delays(
    tries: &mut Vec<Halves>,
    instance: u32,
    i: &Instance,
    parts: &[Part],
) -> Result<(), NoMemory> {
    if !has_delay(i.kind) {
        return Ok(());
    }
    match i.split {
        None => push_some(tries, delay_halves(Sort::One, instance, i.delay, parts)),
        Some(split) => {
            push_some(tries, delay_halves(Sort::Rise, instance, split.rise, parts))?;
            push_some(tries, delay_halves(Sort::Fall, instance, split.fall, parts))
        }
    }
}

/// Adds the splits of constant nets of a cone.
fn add_nets(
    tries: &mut Vec<Halves>,
    c: &Circuit,
    values: &[CaseValue],
    nets: &[u32],
    parts: &[Part],
) -> Result<(), NoMemory> {
    let most = tries.len().saturating_add(MOST);
    for net in nets {
        if tries.len() < most && may_be_set(c, values, *net) {
            push_some(tries, bits_of(*net, parts))?;
        }
    }
    Ok(())
}

/// Adds the splits of delays of the drivers in a cone.
fn add_drivers(
    tries: &mut Vec<Halves>,
    c: &Circuit,
    nets: &[u32],
    parts: &[Part],
) -> Result<(), NoMemory> {
    let most = tries.len().saturating_add(MOST);
    for net in nets {
        if tries.len() < most {
            if let Some(found) = c.net(*net) {
                if let Some(driver) = found.driver {
                    if let Some(i) = c.instance(driver) {
                        add_delays(tries, driver, i, parts)?;
                    }
                }
            }
        }
    }
    Ok(())
}

/// Adds the splits of the offsets of clocks in a cone.
fn add_clocks(
    tries: &mut Vec<Halves>,
    c: &Circuit,
    nets: &[u32],
    parts: &[Part],
) -> Result<(), NoMemory> {
    let most = tries.len().saturating_add(MOST);
    for net in nets {
        if tries.len() < most {
            push_some(tries, offset_halves(c, *net, parts))?;
        }
    }
    Ok(())
}

/// The nets on which a constraint depends through pins that elements listen to, the nearest first.
fn heard_nets(alloc: Global, c: &Circuit, x: Constraint) -> Result<Vec<u32>, NoMemory> {
    let first = nets_of(alloc, c, x)?;
    nets_behind(alloc, c, &first, Through::ListeningPins)
}

/// The splits of a narrowing that are worth a try: of the constant nets, of the delays and of the
/// offsets on which the constraint depends, the nearest first.
pub fn tries(
    alloc: Global,
    c: &Circuit,
    values: &[CaseValue],
    x: Constraint,
    parts: &[Part],
) -> Result<Vec<Halves>, NoMemory> {
    let nets = heard_nets(alloc, c, x)?;
    let mut tries = Vec::new(alloc);
    add_nets(&mut tries, c, values, &nets, parts)?;
    add_drivers(&mut tries, c, &nets, parts)?;
    add_clocks(&mut tries, c, &nets, parts)?;
    Ok(tries)
}
