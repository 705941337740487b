//! The first fault of the ports of a module, and of what several parts of a netlist have. Each
//! function gives that of one part.

ghost use Rattle.std.specs.Prelude.{◌≡◌, codes, map};
ghost use Rattle.netlist_import.specs.Fault as spec;
ghost use Rattle.netlist_import.specs.Netlist.{members_in};
ghost use Rattle.netlist_import.specs.Placed.{field, member_of, placed_of};

use crate::bits::bit_of;
use crate::fault::{FaultKind, Found, earlier, fault_at};
use crate::module::direction_of;
use crate::value::{Json, Member, array_of, field_in, number_of, object_of, text_of};

/// The most bits of a port or of a connection.
pub(crate) const WIDEST: usize = 256;

/// How many bits a net may have.
const MOST_BITS: usize = 65_536;

fn bit_fault(value: &Json) -> Found
    ensures { result ≡ spec.bit_fault (placed_of value.now) }
{
    match bit_of(value) {
        Some(_) => None,
        None => fault_at(FaultKind::NoNetlist, value),
    }
}

/// The bits of a port, a connection or a net.
#[tactic(auto, unfolding(crate::specs::Fault::each))]
pub(crate) fn bits_fault(values: &[Json]) -> Found
    ensures { result ≡ spec.each spec.bit_fault (map placed_of values.now) }
{
    for value in values {
        let found = bit_fault(value);
        if found.is_some() {
            return found;
        }
    }
    None
}

/// The bits of a port of a module.
fn port_bits_fault(value: &Json) -> Found
    ensures { result ≡ spec.port_bits_fault (placed_of value.now) }
{
    let Some(values) = array_of(value) else {
        return fault_at(FaultKind::NoNetlist, value);
    };
    if values.len() > WIDEST {
        return fault_at(FaultKind::TooWide, value);
    }
    bits_fault(values)
}

/// The bits of a vector that may have so many.
#[tactic(auto, unfolding(crate::specs::Fault::limited))]
fn limited_fault(values: &[Json], most: usize) -> Found
    ensures { result ≡ spec.limited most (map placed_of values.now) }
{
    let mut left = most;
    for value in values {
        if left == 0 {
            return fault_at(FaultKind::NoNetlist, value);
        }
        left -= 1;
        let found = bit_fault(value);
        if found.is_some() {
            return found;
        }
    }
    None
}

/// The bits of a net.
pub(crate) fn net_bits_fault(value: &Json) -> Found
    ensures { result ≡ spec.in_array spec.net_bits_fault (placed_of value.now) }
{
    let Some(values) = array_of(value) else {
        return fault_at(FaultKind::NoNetlist, value);
    };
    limited_fault(values, MOST_BITS)
}

/// A value that has to name a direction.
pub(crate) fn direction_fault(value: &Json) -> Found
    ensures { result ≡ spec.direction_fault (placed_of value.now) }
{
    if text_of(value).is_none() {
        return fault_at(FaultKind::NoNetlist, value);
    }
    match direction_of(value) {
        Some(_) => None,
        None => fault_at(FaultKind::BadDirection, value),
    }
}

/// The direction of a port of a module.
fn port_direction_fault(port: &Json) -> Found
    ensures { result ≡ spec.direction_fault_in (placed_of port.now)
        (field (codes "direction") (members_in (placed_of port.now))) }
{
    match field_in(port, b"direction") {
        Some(value) => direction_fault(value),
        None => fault_at(FaultKind::BadDirection, port),
    }
}

fn port_fault(member: &Member) -> Found
    ensures { result ≡ spec.port_fault (member_of member.now) }
{
    let port = &member.1;
    if object_of(port).is_none() {
        return fault_at(FaultKind::NoNetlist, port);
    }
    let bits = match field_in(port, b"bits") {
        Some(value) => port_bits_fault(value),
        None => fault_at(FaultKind::NoNetlist, port),
    };
    earlier(port_direction_fault(port), bits)
}

/// The ports of a module, one after another.
#[tactic(auto, unfolding(crate::specs::Fault::each))]
fn each_port_fault(ports: &[Member]) -> Found
    ensures { result ≡ spec.each spec.port_fault (map member_of ports.now) }
{
    for port in ports {
        let found = port_fault(port);
        if found.is_some() {
            return found;
        }
    }
    None
}

/// The ports of a module.
pub(crate) fn ports_fault(whole: &Json) -> Found
    ensures { result ≡ spec.needed (codes "ports") spec.ports_fault (placed_of whole.now)
        (members_in (placed_of whole.now)) }
{
    let Some(value) = field_in(whole, b"ports") else {
        return fault_at(FaultKind::NoNetlist, whole);
    };
    let Some(ports) = object_of(value) else {
        return fault_at(FaultKind::NoNetlist, value);
    };
    each_port_fault(ports)
}

pub(crate) fn hidden_fault(value: &Json) -> Found
    ensures { result ≡ spec.hidden_fault (members_in (placed_of value.now)) }
{
    match field_in(value, b"hide_name") {
        Some(number) => match number_of(number) {
            Some(_) => None,
            None => fault_at(FaultKind::NoNetlist, number),
        },
        None => None,
    }
}

/// A member that has to be an object if it is there.
pub(crate) fn object_fault(value: &Json, name: &[u8]) -> Found
    ensures { result ≡ spec.if_there spec.object_fault
        (field name.now (members_in (placed_of value.now))) }
{
    match field_in(value, name) {
        Some(part) => match object_of(part) {
            Some(_) => None,
            None => fault_at(FaultKind::NoNetlist, part),
        },
        None => None,
    }
}
