//! Whether a circuit has a part in a case.

ghost use Rattle.std.specs.Prelude.{◌≡◌, IsTrue};
ghost use Rattle.case_analysis.specs.Case.{is_set};
ghost use Rattle.narrowing.specs.Part.{AreWithin, HasDelay, HasOffset, HasOneDelay, IsConstantBy, MayBeSet, OfInstance, PartFits};
ghost use Rattle.element_kinds.specs.Kinds.{form_of};

use crate::moved::most_late;
use crate::part::Part;
use element_kinds::{Form, Kind};
use flat_circuit::{CaseValue, Circuit};
use scald_base::{AssertSpec, Delay};

/// Whether a net of this assertion is constant if nothing drives it.
fn is_constant_by(spec: &AssertSpec) -> bool
    ensures { IsTrue result → IsConstantBy spec.now }
{
    match spec {
        AssertSpec::None => true,
        AssertSpec::Stable(spans) => match spans.as_slice() {
            [] => true,
            _ => false,
        },
        AssertSpec::Precision(_) => false,
        AssertSpec::Clock(_) => false,
    }
}

/// Whether the case sets a net.
pub fn is_set(values: &[CaseValue], net: u32) -> bool
    ensures { result ≡ is_set values.now net }
{
    for value in values {
        if value.net == net {
            return true;
        }
    }
    false
}

/// Whether nothing drives the net, it is constant, and the case does not set it.
pub fn may_be_set(c: &Circuit, values: &[CaseValue], net: u32) -> bool
    ensures { IsTrue result → MayBeSet c.now values.now net }
{
    match c.net(net) {
        None => false,
        Some(found) => {
            found.driver.is_none()
                && is_constant_by(found.spec.or(&AssertSpec::None))
                && !is_set(values, net)
        }
    }
}

/// Whether an instance of this kind has a delay that is constant in a run.
pub fn has_delay(kind: Kind) -> bool
    ensures { IsTrue result → HasDelay (form_of kind) }
{
    match kind.form() {
        Form::Gate => true,
        Form::Change => false,
        Form::Register(_) => true,
        Form::Latch(_) => true,
        Form::Checker(_) => false,
    }
}

fn is_within(outer: Delay, least: u16, greatest: u16) -> bool
    ensures { IsTrue result → AreWithin outer least greatest }
{
    outer.min <= least && least <= greatest && greatest <= outer.max
}

/// Whether a net is a `.P` clock that nothing drives, and may come later than at its earliest by
/// all numbers within bounds.
fn has_offset(c: &Circuit, net: u32, least: u16, greatest: u16) -> bool
    ensures { IsTrue result → HasOffset c.now net least greatest }
{
    let Some(found) = c.net(net) else {
        return false;
    };
    let nothing = AssertSpec::None;
    match found.spec.or(&nothing) {
        AssertSpec::Precision(clock) => {
            found.driver.is_none()
                && least <= greatest
                && u32::from(greatest) <= most_late(c.header(), clock)
        }
        _ => false,
    }
}

/// Whether an instance has one delay, whose bounds hold these.
fn one_delay_fits(c: &Circuit, instance: u32, least: u16, greatest: u16) -> bool
    ensures { IsTrue result → OfInstance c.now instance (λ j. HasOneDelay j least greatest) }
{
    match c.instance(instance) {
        None => false,
        Some(i) => { has_delay(i.kind) && i.split.is_none() && is_within(i.delay, least, greatest) }
    }
}

/// Whether the circuit has the part in a case.
pub fn part_fits(c: &Circuit, values: &[CaseValue], part: Part) -> bool
    ensures { IsTrue result → PartFits c.now values.now part }
{
    match part {
        Part::Constant { net, one: _ } => may_be_set(c, values, net),
        Part::Delay {
            instance,
            least,
            greatest,
        } => one_delay_fits(c, instance, least, greatest),
        Part::Rise {
            instance,
            least,
            greatest,
        } => match c.instance(instance) {
            None => false,
            Some(i) => match i.split {
                None => false,
                Some(split) => i.kind.may_split() && is_within(split.rise, least, greatest),
            },
        },
        Part::Fall {
            instance,
            least,
            greatest,
        } => match c.instance(instance) {
            None => false,
            Some(i) => match i.split {
                None => false,
                Some(split) => i.kind.may_split() && is_within(split.fall, least, greatest),
            },
        },
        Part::Offset {
            net,
            least,
            greatest,
        } => has_offset(c, net, least, greatest),
    }
}
