//! The first fault of a value that should be a netlist. Each function gives that of one part.

ghost use Rattle.std.specs.Prelude.{◌≡◌, map};
ghost use Rattle.netlist_import.specs.Fault as spec;
ghost use Rattle.netlist_import.specs.Netlist.{members_in};
ghost use Rattle.netlist_import.specs.Placed.{member_of, placed_of};

use crate::cell_faults::cells_fault;
use crate::fault::{FaultKind, Found, earlier, fault_at};
use crate::module::is_black_box;
use crate::port_faults::{hidden_fault, net_bits_fault, object_fault, ports_fault};
use crate::types::Types;
use crate::value::{Json, Member, field_in, object_of};

fn net_fault(member: &Member) -> Found
    ensures { result ≡ spec.net_fault (member_of member.now) }
{
    let net = &member.1;
    if object_of(net).is_none() {
        return fault_at(FaultKind::NoNetlist, net);
    }
    let bits = match field_in(net, b"bits") {
        Some(value) => net_bits_fault(value),
        None => fault_at(FaultKind::NoNetlist, net),
    };
    earlier(hidden_fault(net), bits)
}

/// The nets of a module, one after another.
#[tactic(auto, unfolding(crate::specs::Fault::each))]
fn each_net_fault(nets: &[Member]) -> Found
    ensures { result ≡ spec.each spec.net_fault (map member_of nets.now) }
{
    for net in nets {
        let found = net_fault(net);
        if found.is_some() {
            return found;
        }
    }
    None
}

/// The nets of a module, which may be missing.
fn nets_fault(whole: &Json) -> Found
    ensures { result ≡ spec.nets_fault (members_in (placed_of whole.now)) }
{
    let Some(value) = field_in(whole, b"netnames") else {
        return None;
    };
    let Some(nets) = object_of(value) else {
        return fault_at(FaultKind::NoNetlist, value);
    };
    each_net_fault(nets)
}

/// The parts of a module that is written.
fn written_fault(types: &Types, whole: &Json) -> Found
    ensures { result ≡ spec.written_fault types.now (placed_of whole.now)
        (members_in (placed_of whole.now)) }
{
    let inside = earlier(cells_fault(types, whole), nets_fault(whole));
    earlier(ports_fault(whole), inside)
}

fn module_fault(types: &Types, member: &Member) -> Found
    ensures { result ≡ spec.module_fault types.now (member_of member.now) }
{
    let whole = &member.1;
    if object_of(whole).is_none() {
        return fault_at(FaultKind::NoNetlist, whole);
    }
    if !is_black_box(whole) {
        return earlier(
            object_fault(whole, b"attributes"),
            written_fault(types, whole),
        );
    }
    if types.is_used(member.0.as_bytes()) {
        return ports_fault(whole);
    }
    None
}

/// The modules, one after another.
#[tactic(auto, unfolding(crate::specs::Fault::each))]
fn each_module_fault(types: &Types, modules: &[Member]) -> Found
    ensures { result ≡ spec.each (spec.module_fault types.now) (map member_of modules.now) }
{
    for module in modules {
        let found = module_fault(types, module);
        if found.is_some() {
            return found;
        }
    }
    None
}

/// The first fault of a value that has these modules.
pub(crate) fn netlist_fault(types: &Types, whole: &Json) -> Found
    ensures { result ≡ spec.netlist_fault types.now (placed_of whole.now) }
{
    if object_of(whole).is_none() {
        return fault_at(FaultKind::NoNetlist, whole);
    }
    let Some(value) = field_in(whole, b"modules") else {
        return fault_at(FaultKind::NoNetlist, whole);
    };
    let Some(modules) = object_of(value) else {
        return fault_at(FaultKind::NoNetlist, value);
    };
    each_module_fault(types, modules)
}
