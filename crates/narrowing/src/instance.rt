//! One instance, narrowed.

ghost use Rattle.std.specs.Prelude.{◌≡◌, ℕ, IfOk, IfSome, IsTrue};
ghost use Rattle.scald_base.specs.Time.{Header as Said};
ghost use Rattle.flat_circuit.specs.Instances.{InstanceFits};
ghost use Rattle.narrowing.specs.Narrowed.{by_part, by_parts, with_fall, with_rise, with_split};
ghost use Rattle.narrowing.specs.Part.{between};

use crate::part::Part;
use flat_circuit::{Instance, Pin, Pins, Split, Text};
use scald_base::{Delay, NoMemory};
use std::alloc::Global;

/// The most ticks of a delay.
const LONGEST: u16 = 4095;

fn copied_pins(alloc: Global, pins: &[Pin]) -> Result<Pins, NoMemory>
    ensures { IfOk result (λ copy. copy ≡ pins.now) }
{
    let mut copy = Pins::with_room(alloc, pins.len())?;
    for pin in pins {
        copy.push(*pin)?;
    }
    Ok(copy)
}

/// A copy.
fn copied(alloc: Global, i: &Instance) -> Result<Instance, NoMemory>
    ensures { IfOk result (λ copy. copy ≡ i.now) }
{
    let path = Text::of(alloc, i.path.as_slice())?;
    let pins = copied_pins(alloc, i.pins.as_slice())?;
    Ok(Instance {
        path,
        pins,
        out: i.out,
        place: i.place,
        split: i.split,
        delay: i.delay,
        limits: i.limits,
        bit: i.bit,
        kind: i.kind,
        out_inverted: i.out_inverted,
    })
}

/// These bounds, if they are those of a delay.
fn bounds(least: u16, greatest: u16) -> Option<Delay>
    ensures { IfSome result (λ d. d ≡ between least greatest) }
{
    if least <= greatest && greatest <= LONGEST {
        Some(Delay {
            min: least,
            max: greatest,
        })
    } else {
        None
    }
}

/// Sets the bounds of the one delay, if there is one.
#[tactic(auto, using(crate::proofs::Fitting::delay_fits))]
fn set_delay(i: &mut Instance, least: u16, greatest: u16) -> bool
    ensures is { IsTrue result → i.new ≡ record i.old { delay = between least greatest } }
    ensures fits { (h : Said) (nets : ℕ) → InstanceFits h nets i.old → IsTrue result →
        InstanceFits h nets i.new }
{
    if i.split.is_some() {
        return false;
    }
    match bounds(least, greatest) {
        None => false,
        Some(delay) => {
            i.delay = delay;
            true
        }
    }
}

/// Sets the bounds of both delays.
fn set_split(i: &mut Instance, split: Split)
    ensures { i.new ≡ with_split i.old split }
{
    i.delay = split.either();
    i.split = Some(split);
}

#[tactic(auto, using(crate::proofs::Fitting::split_fits))]
fn set_rise(i: &mut Instance, least: u16, greatest: u16) -> bool
    ensures is { IsTrue result → i.new ≡ with_rise i.old i.old.split (between least greatest) }
    ensures fits { (h : Said) (nets : ℕ) → InstanceFits h nets i.old → IsTrue result →
        InstanceFits h nets i.new }
{
    let Some(split) = i.split else {
        return false;
    };
    let Some(rise) = bounds(least, greatest) else {
        return false;
    };
    let narrowed = Split {
        rise,
        fall: split.fall,
    };
    set_split(i, narrowed);
    true
}

#[tactic(auto, using(crate::proofs::Fitting::split_fits))]
fn set_fall(i: &mut Instance, least: u16, greatest: u16) -> bool
    ensures is { IsTrue result → i.new ≡ with_fall i.old i.old.split (between least greatest) }
    ensures fits { (h : Said) (nets : ℕ) → InstanceFits h nets i.old → IsTrue result →
        InstanceFits h nets i.new }
{
    let Some(split) = i.split else {
        return false;
    };
    let Some(fall) = bounds(least, greatest) else {
        return false;
    };
    let narrowed = Split {
        rise: split.rise,
        fall,
    };
    set_split(i, narrowed);
    true
}

/// Narrows instance k by a part, if the part is of it; `false` if its delays are not those that
/// the part is of.
fn narrow_by(i: &mut Instance, k: u32, part: Part) -> bool
    ensures is { IsTrue result → i.new ≡ by_part k i.old part }
    ensures fits { (h : Said) (nets : ℕ) → InstanceFits h nets i.old → IsTrue result →
        InstanceFits h nets i.new }
{
    match part {
        Part::Constant { .. } => true,
        Part::Offset { .. } => true,
        Part::Delay {
            instance,
            least,
            greatest,
        } => {
            if instance == k {
                set_delay(i, least, greatest)
            } else {
                true
            }
        }
        Part::Rise {
            instance,
            least,
            greatest,
        } => {
            if instance == k {
                set_rise(i, least, greatest)
            } else {
                true
            }
        }
        Part::Fall {
            instance,
            least,
            greatest,
        } => {
            if instance == k {
                set_fall(i, least, greatest)
            } else {
                true
            }
        }
    }
}

/// Instance k with the bounds of the parts that are of it, or `None` if a part is of delays that
/// it has not.
pub fn narrowed_instance(
    alloc: Global,
    i: &Instance,
    k: u32,
    parts: &[Part],
) -> Result<Option<Instance>, NoMemory>
    ensures is { IfOk result (λ found. IfSome found (λ j. j ≡ by_parts k i.now parts.now)) }
    ensures fits { IfOk result (λ found. IfSome found (λ j. (h : Said) (nets : ℕ) →
        InstanceFits h nets i.now → InstanceFits h nets j)) }
{
    let mut narrowed = copied(alloc, i)?;
    for part in parts {
        let fits = narrow_by(&mut narrowed, k, *part);
        if !fits {
            return Ok(None);
        }
    }
    Ok(Some(narrowed))
}
