//! Whether classes may stand for their nets.

ghost use Rattle.std.specs.Prelude.{◌≡◌, [], MatchBool, Some, length, slice_get};
ghost use Rattle.flat_circuit.specs.Stable.{AreAlikeAt, AreAlikeBefore, AreNumbersOfNets, IsStable};

use crate::case_values::are_cases_as_their_numbers;
use crate::class_map::ClassMap;
use crate::likeness::{are_nets_alike, class_of};
use crate::{Case, CaseList, Circuit};

/// Whether the nets of two numbers are alike, if there are such nets.
fn are_alike(c: &Circuit, cases: &[Case], classes: &[u32], number: u32, other: u32) -> bool
    ensures { MatchBool result (AreAlikeAt c.now cases.now classes.now number other)
        (¬ (AreAlikeAt c.now cases.now classes.now number other)) }
{
    match c.net(number) {
        None => true,
        Some(net) => match c.net(other) {
            None => true,
            Some(other_net) => { are_nets_alike(c, cases, classes, number, other, net, other_net) }
        },
    }
}

/// Whether the number of a class is that of one of its nets.
fn is_number_of_net(classes: &[u32], number: u32) -> bool
    ensures { MatchBool result (slice_get classes.now number ≡ Some number)
        (¬ (slice_get classes.now number ≡ Some number)) }
{
    match classes.get(number as usize) {
        Some(found) => *found == number,
        None => false,
    }
}

/// Whether each class has the number of one of its nets, as those that `classes` gives.
fn are_numbers_of_nets(classes: &[u32]) -> bool
    ensures { MatchBool result (AreNumbersOfNets classes.now) (¬ (AreNumbersOfNets classes.now)) }
{
    for number in classes {
        if !is_number_of_net(classes, *number) {
            return false;
        }
    }
    true
}

/// Whether each net is as the net of its class's number, the cases left aside.
fn are_nets_as_their_numbers(c: &Circuit, classes: &[u32]) -> bool
    requires one_each { length classes.now ≡ length c.now.nets }
    requires numbers { AreNumbersOfNets classes.now }
    ensures { MatchBool result (IsStable c.now [] classes.now) (¬ (IsStable c.now [] classes.now)) }
{
    for net in 0..c.net_count() {
        if !are_alike(c, &[], classes, net, class_of(classes, net)) {
            return false;
        }
    }
    true
}

/// Whether each net is as the net of its class's number.
fn are_as_their_numbers(c: &Circuit, cases: &[Case], classes: &[u32]) -> bool
    requires one_each { length classes.now ≡ length c.now.nets }
    requires numbers { AreNumbersOfNets classes.now }
    ensures { MatchBool result (IsStable c.now cases.now classes.now)
        (¬ (IsStable c.now cases.now classes.now)) }
{
    if !are_nets_as_their_numbers(c, classes) {
        return false;
    }
    are_cases_as_their_numbers(c, classes, cases)
}

/// Whether a net is as each net of its class before it.
fn is_as_those_before(c: &Circuit, cases: &[Case], classes: &[u32], net: u32) -> bool
    ensures { MatchBool result (AreAlikeBefore c.now cases.now classes.now net)
        (¬ (AreAlikeBefore c.now cases.now classes.now net)) }
{
    for other in 0..net {
        if class_of(classes, net) == class_of(classes, other)
            && !are_alike(c, cases, classes, net, other)
        {
            return false;
        }
    }
    true
}

/// Whether any two nets of one class are alike, whatever the classes' numbers are.
fn are_alike_in_pairs(c: &Circuit, cases: &[Case], classes: &[u32]) -> bool
    ensures { MatchBool result (IsStable c.now cases.now classes.now)
        (¬ (IsStable c.now cases.now classes.now)) }
{
    for net in 0..c.net_count() {
        if !is_as_those_before(c, cases, classes, net) {
            return false;
        }
    }
    true
}

/// Whether nets of one class are indistinguishable, in the circuit and in each case: they then have
/// one wave in every round. It needs no allocation. If each class has the number of one of its
/// nets, it looks at each net once, and once for each case; else at all pairs of nets.
pub fn stable(c: &Circuit, cases: &CaseList, numbers: &ClassMap) -> bool
    requires { length numbers.now ≡ length c.now.nets }
    ensures { MatchBool result (IsStable c.now cases.now numbers.now)
        (¬ (IsStable c.now cases.now numbers.now)) }
{
    let cases = cases.as_slice();
    let classes = numbers.as_slice();
    if are_numbers_of_nets(classes) {
        are_as_their_numbers(c, cases, classes)
    } else {
        are_alike_in_pairs(c, cases, classes)
    }
}
