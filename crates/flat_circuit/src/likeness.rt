//! Whether nets, and the instances that drive them, are alike.

ghost use Rattle.std.specs.Prelude.{◌≡◌, MatchBool};
ghost use Rattle.std.specs.Option.{option_copied};
ghost use Rattle.std.specs.List.{AllZip};
ghost use Rattle.flat_circuit.specs.Alike.{CasesAlike, DriversAlike, InstancesAlike, NetsAlike, PinsAlike, TargetsAlike, class_of, instance_of, value_in};

use crate::{Case, CaseValue, Circuit, Instance, Net, Pin, Target, is_same_assertion};
use scald_base::AssertSpec;

/// The class of the net of a number; past the last it is 0.
pub fn class_of(classes: &[u32], net: u32) -> u32
    ensures { result ≡ class_of classes.now net }
{
    classes.get(net as usize).copied().unwrap_or(0)
}

fn are_targets_alike(classes: &[u32], a: Target, b: Target) -> bool
    ensures { MatchBool result (TargetsAlike classes.now a b) (¬ (TargetsAlike classes.now a b)) }
{
    match a {
        Target::Net(i) => match b {
            Target::Net(j) => class_of(classes, i) == class_of(classes, j),
            Target::Constant(_) => false,
        },
        Target::Constant(one) => match b {
            Target::Net(_) => false,
            Target::Constant(other) => one == other,
        },
    }
}

fn are_pins_alike(classes: &[u32], pin: Pin, other: Pin) -> bool
    ensures { MatchBool result (PinsAlike classes.now pin other)
        (¬ (PinsAlike classes.now pin other)) }
{
    pin.inverted == other.inverted
        && pin.hold == other.hold
        && are_targets_alike(classes, pin.target, other.target)
}

fn are_all_pins_alike(classes: &[u32], a: &[Pin], b: &[Pin]) -> bool
    ensures { MatchBool result (AllZip (PinsAlike classes.now) a.now b.now)
        (¬ (AllZip (PinsAlike classes.now) a.now b.now)) }
{
    if a.len() != b.len() {
        return false;
    }
    for place in 0..a.len() {
        if !are_pins_alike(classes, a[place], b[place]) {
            return false;
        }
    }
    true
}

fn are_instances_alike(classes: &[u32], a: &Instance, b: &Instance) -> bool
    ensures { MatchBool result (InstancesAlike classes.now a.now b.now)
        (¬ (InstancesAlike classes.now a.now b.now)) }
{
    a.kind == b.kind
        && a.delay == b.delay
        && a.split == b.split
        && a.out_inverted == b.out_inverted
        && are_all_pins_alike(classes, a.pins.as_slice(), b.pins.as_slice())
}

fn driver<'a>(c: &'a Circuit, number: Option<u32>) -> Option<&'a Instance>
    ensures { option_copied result ≡ instance_of c.now number }
{
    match number {
        Some(k) => c.instance(k),
        None => None,
    }
}

fn are_drivers_alike(classes: &[u32], a: Option<&Instance>, b: Option<&Instance>) -> bool
    ensures { MatchBool result (DriversAlike classes.now (option_copied a.entry)
        (option_copied b.entry))
        (¬ (DriversAlike classes.now (option_copied a.entry) (option_copied b.entry))) }
{
    match a {
        None => b.is_none(),
        Some(a) => match b {
            None => false,
            Some(b) => are_instances_alike(classes, a, b),
        },
    }
}

/// The value that a case gives a net: the last, if it has several.
pub fn value_in(values: &[CaseValue], net: u32) -> Option<bool>
    ensures { result ≡ value_in values.now net }
{
    let mut found = None;
    for value in values {
        if value.net == net {
            found = Some(value.one);
        }
    }
    found
}

fn are_cases_alike(cases: &[Case], net: u32, other: u32) -> bool
    ensures { MatchBool result (CasesAlike cases.now net other)
        (¬ (CasesAlike cases.now net other)) }
{
    for case in cases {
        if value_in(case.as_slice(), net) != value_in(case.as_slice(), other) {
            return false;
        }
    }
    true
}

/// Whether two nets of a circuit, which have these numbers, are alike.
pub fn are_nets_alike(
    c: &Circuit,
    cases: &[Case],
    classes: &[u32],
    number: u32,
    other: u32,
    net: &Net,
    other_net: &Net,
) -> bool
    ensures { MatchBool result
        (NetsAlike c.now cases.now classes.now number other net.now other_net.now)
        (¬ (NetsAlike c.now cases.now classes.now number other net.now other_net.now)) }
{
    net.wire == other_net.wire
        && is_same_assertion(
            net.spec.or(&AssertSpec::None),
            other_net.spec.or(&AssertSpec::None),
        )
        && are_drivers_alike(classes, driver(c, net.driver), driver(c, other_net.driver))
        && are_cases_alike(cases, number, other)
}
