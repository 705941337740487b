//! Global nets: a net of a global name is one net in all sections where it stands.

ghost use Rattle.std.specs.Prelude.{◌≡◌, ◌&&◌, ◌^◌, ◌<◌, nat_lt, Bool, count_by, is_some, length, option_copied};
ghost use Rattle.std.specs.List.{list_any};
ghost use Rattle.flat_circuit.specs.declared.net.Net.{Net as FlatNet};
ghost use Rattle.flat_circuit.specs.Circuit.{net_name};
ghost use Rattle.section_compose.specs.Globals.{crosses, crosses_into, has_name, is_driven, is_driven_in, is_global, stands_in};
ghost use Rattle.section_compose.specs.Rules.{circuits};
ghost use Rattle.section_compose.specs.Tests.{passes};

use crate::section::Section;
use flat_circuit::{Circuit, Net};

/// Whether the net's name begins with a slash.
pub(crate) fn is_global(net: &Net) -> bool
    ensures { result ≡ is_global net.now }
{
    match net.name.as_slice().first() {
        Some(byte) => *byte == b'/',
        None => false,
    }
}

/// Whether an instance of its own section drives the net.
pub(crate) fn is_driven(net: &Net) -> bool
    ensures { result ≡ is_driven net.now }
{
    net.driver.is_some()
}

/// The net of the same name in a section.
pub(crate) fn same_net<'a>(circuit: &'a Circuit, net: &Net) -> Option<&'a Net>
    ensures stands { is_some (option_copied result) ≡ stands_in (net_name net.now) circuit.now }
    ensures tells { (test : FlatNet → Bool) → passes test (option_copied result)
        ≡ list_any (λ other. has_name (net_name net.now) other && test other) circuit.now.nets }
{
    circuit.known();
    match circuit.find(net.name.as_slice(), net.bit) {
        Some(number) => circuit.net(number),
        None => None,
    }
}

/// Whether the net of this name stands in a section.
fn stands_in(circuit: &Circuit, net: &Net) -> bool
    ensures { result ≡ stands_in (net_name net.now) circuit.now }
{
    same_net(circuit, net).is_some()
}

/// Whether a section drives the net of this name.
fn is_driven_in(circuit: &Circuit, net: &Net) -> bool
    ensures { result ≡ is_driven_in (net_name net.now) circuit.now }
{
    match same_net(circuit, net) {
        Some(other) => is_driven(other),
        None => false,
    }
}

/// Whether one of the sections drives the net of this name.
pub(crate) fn is_driven_in_one(sections: &[Section], net: &Net) -> bool
    ensures { result ≡ list_any (is_driven_in (net_name net.now)) (circuits sections.now) }
{
    for s in 0..sections.len() {
        if is_driven_in(&sections[s].circuit, net) {
            return true;
        }
    }
    false
}

/// Whether the net of this name stands in two sections or more.
fn stands_in_two(sections: &[Section], net: &Net) -> bool
    ensures { result ≡ nat_lt 1 (count_by (stands_in (net_name net.now)) (circuits sections.now)) }
{
    let mut count: usize = 0;
    for s in 0..sections.len() {
        if stands_in(&sections[s].circuit, net) {
            count += 1;
        }
    }
    1 < count
}

/// Whether the net crosses: it is global, one section drives it, and it stands in another.
pub fn crosses(sections: &[Section], net: &Net) -> bool
    ensures { result ≡ crosses (circuits sections.now) net.now }
{
    is_global(net) && is_driven_in_one(sections, net) && stands_in_two(sections, net)
}

/// Whether it crosses into a section that does not drive it.
pub fn crosses_into(sections: &[Section], net: &Net) -> bool
    ensures { result ≡ crosses_into (circuits sections.now) net.now }
{
    !is_driven(net) && crosses(sections, net)
}
