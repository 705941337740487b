//! Whether the cases tell a net from the net of its class's number. The values of a case stand in a
//! table, so each case costs its entries and the nets, and not one times the other.

ghost use Rattle.std.specs.Prelude.{◌≡◌, ◌<◌, ◌==◌, ℕ, MatchBool, None, Some, if◌then◌else◌, length, slice_index_or};
ghost use Rattle.std.specs.List.{All};
ghost use Rattle.flat_circuit.specs.Instances.{most_bits};
ghost use Rattle.flat_circuit.specs.Alike.{class_of, value_in};
ghost use Rattle.flat_circuit.specs.Stable.{AreNumbersOfNets, IsAsNumbersIn};
ghost use Rattle.flat_circuit.specs.Table.{said};

use crate::likeness::class_of;
use crate::{Case, CaseValue, Circuit};

/// As many nets as a circuit may have.
const NETS: usize = 65_536;

/// What a case says of each net: a byte, since so large a table is to lie on the stack.
type Table = [u8; NETS];

/// The byte that says this value.
fn byte_of(one: bool) -> u8
    ensures { said result ≡ Some one }
{
    if one { 2 } else { 1 }
}

/// What a byte says.
fn said(byte: u8) -> Option<bool>
    ensures { result ≡ said byte }
{
    match byte {
        0 => None,
        1 => Some(false),
        _ => Some(true),
    }
}

/// Says the value of a net, if a circuit may have this net.
fn say(table: &mut Table, net: u32, one: bool)
    ensures { (i : ℕ) → i < most_bits →
        said (slice_index_or table.new i 0)
        ≡ (if net == i then Some one else said (slice_index_or table.old i 0)) }
{
    let place = net as usize;
    if place < NETS {
        table[place] = byte_of(one);
    }
}

/// Says the values that a case gives.
fn say_all(table: &mut Table, case: &[CaseValue])
    requires { (i : ℕ) → i < most_bits → said (slice_index_or table.old i 0) ≡ None }
    ensures { (i : ℕ) → i < most_bits → said (slice_index_or table.new i 0) ≡ value_in case.now i }
{
    for value in case {
        say(table, value.net, value.one);
    }
}

/// The value of a net.
fn value_at(table: &Table, net: u32) -> Option<bool>
    ensures { result ≡ said (slice_index_or table.now net 0) }
{
    said(table.get(net as usize).copied().unwrap_or(0))
}

/// Whether a net has the value of the net of its class's number.
fn has_value_of_number(table: &Table, classes: &[u32], net: u32) -> bool
    ensures { MatchBool result
        (said (slice_index_or table.now net 0)
        ≡ said (slice_index_or table.now (class_of classes.now net) 0))
        (¬ (said (slice_index_or table.now net 0)
        ≡ said (slice_index_or table.now (class_of classes.now net) 0))) }
{
    value_at(table, net) == value_at(table, class_of(classes, net))
}

/// Whether a case gives each net the value that it gives the net of its class's number.
fn is_as_numbers_in(c: &Circuit, classes: &[u32], case: &[CaseValue]) -> bool
    requires one_each { length classes.now ≡ length c.now.nets }
    requires numbers { AreNumbersOfNets classes.now }
    ensures { MatchBool result (IsAsNumbersIn (length c.now.nets) classes.now case.now)
        (¬ (IsAsNumbersIn (length c.now.nets) classes.now case.now)) }
{
    c.known();
    let mut table = [0; NETS];
    say_all(&mut table, case);
    for net in 0..c.net_count() {
        if !has_value_of_number(&table, classes, net) {
            return false;
        }
    }
    true
}

/// Whether each case gives each net the value that it gives the net of its class's number.
pub fn are_cases_as_their_numbers(c: &Circuit, classes: &[u32], cases: &[Case]) -> bool
    requires one_each { length classes.now ≡ length c.now.nets }
    requires numbers { AreNumbersOfNets classes.now }
    ensures { MatchBool result (All (IsAsNumbersIn (length c.now.nets) classes.now) cases.now)
        (¬ (All (IsAsNumbersIn (length c.now.nets) classes.now) cases.now)) }
{
    for case in cases {
        if !is_as_numbers_in(c, classes, case.as_slice()) {
            return false;
        }
    }
    true
}
