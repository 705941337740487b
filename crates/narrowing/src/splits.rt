//! Whether two parts are the halves of a narrowing.

ghost use Rattle.std.specs.Prelude.{◌≡◌, List, false, IfOk, IfSome, IsTrue, Some, slice_get};
ghost use Rattle.flat_circuit.specs.declared.case.CaseValue.{CaseValue as OneValue};
ghost use Rattle.std.specs.List.{All};
ghost use Rattle.flat_circuit.specs.declared.split.Split.{Split as Both};
ghost use Rattle.narrowing.specs.Narrowed.{narrowed};
ghost use Rattle.narrowing.specs.Part.{HasOneDelay, same_thing};
ghost use Rattle.narrowing.specs.Tree.{AreBits, AreHalves, IsSplit, SplitsTwo};

use crate::fits::{has_delay, may_be_set};
use crate::halves::Halves;
use crate::instance::narrowed_instance;
use crate::offset::are_offsets;
use crate::part::{Late, Part, same_thing};
use flat_circuit::{CaseValue, Circuit, Instance};
use scald_base::{Delay, NoMemory};
use std::alloc::Global;

/// Whether no part is of the thing of this one.
fn is_unset(parts: &[Part], part: Part) -> bool
    ensures { IsTrue result → All (λ q. same_thing part q ≡ false) parts.now }
{
    for other in parts {
        if same_thing(part, *other) {
            return false;
        }
    }
    true
}

/// Whether these are the halves of bounds.
fn are_halves(bounds: Delay, least: u16, last: u16, first: u16, greatest: u16) -> bool
    ensures { IsTrue result → AreHalves bounds least last first greatest }
{
    least == bounds.min
        && least <= last
        && u32::from(first) == u32::from(last) + 1
        && last < greatest
        && greatest == bounds.max
}

/// Instance k of the narrowed circuit.
fn instance_at(
    alloc: Global,
    c: &Circuit,
    k: u32,
    parts: &[Part],
) -> Result<Option<Instance>, NoMemory>
    ensures { IfOk result (λ found. IfSome found (λ j.
        slice_get (narrowed c.now parts.now).instances k ≡ Some j)) }
{
    match c.instance(k) {
        None => Ok(None),
        Some(i) => narrowed_instance(alloc, i, k, parts),
    }
}

/// Whether these are the halves of the one delay of an instance.
fn halves_one(i: &Instance, least: u16, last: u16, first: u16, greatest: u16) -> bool
    ensures has { IsTrue result → HasOneDelay i.now least greatest }
    ensures halves { IsTrue result → AreHalves i.now.delay least last first greatest }
{
    has_delay(i.kind) && i.split.is_none() && are_halves(i.delay, least, last, first, greatest)
}

fn halves_rise(i: &Instance, least: u16, last: u16, first: u16, greatest: u16) -> bool
    ensures { IsTrue result → SplitsTwo i.now (λ (s : Both). s.rise) least last first greatest }
{
    match i.split {
        None => false,
        Some(split) => {
            i.kind.may_split() && are_halves(split.rise, least, last, first, greatest)
        }
    }
}

fn halves_fall(i: &Instance, least: u16, last: u16, first: u16, greatest: u16) -> bool
    ensures { IsTrue result → SplitsTwo i.now (λ (s : Both). s.fall) least last first greatest }
{
    match i.split {
        None => false,
        Some(split) => {
            i.kind.may_split() && are_halves(split.fall, least, last, first, greatest)
        }
    }
}

/// Whether two parts are the two bits of a net that no part is of.
fn are_bits(
    c: &Circuit,
    values: &[CaseValue],
    parts: &[Part],
    net: u32,
    one: bool,
    other: u32,
    next: bool,
) -> bool
    ensures { IsTrue result → AreBits c.now values.now parts.now net other one next }
{
    net == other
        && !one
        && next
        && may_be_set(c, values, net)
        && is_unset(parts, Part::Constant { net, one })
}

/// Whether a part is the upper half of the one delay of an instance, whose lower half is given.
#[tactic(auto, using(crate::proofs::Splitting::split_one))]
fn splits_one(
    alloc: Global,
    c: &Circuit,
    parts: &[Part],
    instance: u32,
    least: u16,
    last: u16,
    upper: Part,
) -> Result<bool, NoMemory>
    ensures { (values : List OneValue) → IfOk result (λ is. IsTrue is →
        IsSplit c.now values parts.now (Part.Delay instance least last) upper) }
{
    let Part::Delay {
        instance: other,
        least: first,
        greatest,
    } = upper
    else {
        return Ok(false);
    };
    if other != instance {
        return Ok(false);
    }
    match instance_at(alloc, c, instance, parts)? {
        None => Ok(false),
        Some(j) => Ok(halves_one(&j, least, last, first, greatest)),
    }
}

/// The same of its rise delay.
#[tactic(auto, using(crate::proofs::Splitting::split_rise))]
fn splits_rise(
    alloc: Global,
    c: &Circuit,
    parts: &[Part],
    instance: u32,
    least: u16,
    last: u16,
    upper: Part,
) -> Result<bool, NoMemory>
    ensures { (values : List OneValue) → IfOk result (λ is. IsTrue is →
        IsSplit c.now values parts.now (Part.Rise instance least last) upper) }
{
    let Part::Rise {
        instance: other,
        least: first,
        greatest,
    } = upper
    else {
        return Ok(false);
    };
    if other != instance {
        return Ok(false);
    }
    match instance_at(alloc, c, instance, parts)? {
        None => Ok(false),
        Some(j) => Ok(halves_rise(&j, least, last, first, greatest)),
    }
}

/// The same of its fall delay.
#[tactic(auto, using(crate::proofs::Splitting::split_fall))]
fn splits_fall(
    alloc: Global,
    c: &Circuit,
    parts: &[Part],
    instance: u32,
    least: u16,
    last: u16,
    upper: Part,
) -> Result<bool, NoMemory>
    ensures { (values : List OneValue) → IfOk result (λ is. IsTrue is →
        IsSplit c.now values parts.now (Part.Fall instance least last) upper) }
{
    let Part::Fall {
        instance: other,
        least: first,
        greatest,
    } = upper
    else {
        return Ok(false);
    };
    if other != instance {
        return Ok(false);
    }
    match instance_at(alloc, c, instance, parts)? {
        None => Ok(false),
        Some(j) => Ok(halves_fall(&j, least, last, first, greatest)),
    }
}

/// Whether a part is the upper half of the offset of a clock, whose lower half is given.
fn splits_offset(c: &Circuit, parts: &[Part], net: u32, lower: Late, upper: Part) -> bool
    ensures { (values : List OneValue) → IsTrue result →
        IsSplit c.now values parts.now (Part.Offset net lower.min lower.max) upper }
{
    let Part::Offset {
        net: other,
        least,
        greatest,
    } = upper
    else {
        return false;
    };
    let above = Late {
        min: least,
        max: greatest,
    };
    other == net && are_offsets(c, parts, net, lower, above)
}

/// Whether a part is the other bit of a net.
fn splits_net(
    c: &Circuit,
    values: &[CaseValue],
    parts: &[Part],
    net: u32,
    one: bool,
    upper: Part,
) -> bool
    ensures { IsTrue result →
        IsSplit c.now values.now parts.now (Part.Constant net one) upper }
{
    match upper {
        Part::Constant {
            net: other,
            one: next,
        } => are_bits(c, values, parts, net, one, other, next),
        _ => false,
    }
}

/// Whether two parts are the halves of a narrowing, split at one thing.
pub fn is_split(
    alloc: Global,
    c: &Circuit,
    values: &[CaseValue],
    parts: &[Part],
    halves: Halves,
) -> Result<bool, NoMemory>
    ensures { IfOk result (λ is. IsTrue is →
        IsSplit c.now values.now parts.now halves.lower halves.upper) }
{
    let upper = halves.upper;
    match halves.lower {
        Part::Constant { net, one } => Ok(splits_net(c, values, parts, net, one, upper)),
        Part::Delay {
            instance,
            least,
            greatest,
        } => splits_one(alloc, c, parts, instance, least, greatest, upper),
        Part::Rise {
            instance,
            least,
            greatest,
        } => splits_rise(alloc, c, parts, instance, least, greatest, upper),
        Part::Fall {
            instance,
            least,
            greatest,
        } => splits_fall(alloc, c, parts, instance, least, greatest, upper),
        Part::Offset {
            net,
            least,
            greatest,
        } => {
            let lower = Late {
                min: least,
                max: greatest,
            };
            Ok(splits_offset(c, parts, net, lower, upper))
        }
    }
}
