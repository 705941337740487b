//! Whether a circuit has the nets of another, as parts narrow them.

ghost use Rattle.std.specs.Prelude.{◌≡◌, IfOk, IsTrue, slice_get};
ghost use Rattle.narrowing.specs.Narrowed.{narrowed_nets};

use crate::net::spec_in;
use crate::part::Part;
use flat_circuit::{Circuit, Net, is_same_assertion};
use scald_base::{AssertSpec, NoMemory, same_bytes};
use std::alloc::Global;

/// Whether a net is another with this assertion.
fn is_same_net(a: &Net, b: &Net, spec: &AssertSpec) -> bool
    ensures { IsTrue result → a.now ≡ record b.now { spec = spec.now } }
{
    a.bit == b.bit
        && a.driver == b.driver
        && a.wire.min == b.wire.min
        && a.wire.max == b.wire.max
        && same_bytes(a.name.as_slice(), b.name.as_slice())
        && is_same_assertion(a.spec.or(&AssertSpec::None), spec)
}

fn is_narrowed_at(
    alloc: Global,
    a: &Circuit,
    b: &Circuit,
    net: u32,
    parts: &[Part],
) -> Result<bool, NoMemory>
    ensures { IfOk result (λ is. IsTrue is → slice_get a.now.nets net
        ≡ slice_get (narrowed_nets b.now.header parts.now 0 b.now.nets) net) }
{
    let (Some(one), Some(other)) = (a.net(net), b.net(net)) else {
        return Ok(false);
    };
    match spec_in(alloc, b.header(), other, net, parts)? {
        None => Ok(false),
        Some(spec) => Ok(is_same_net(one, other, &spec)),
    }
}

/// Whether the nets of a circuit are those of another, as parts narrow them.
#[tactic(auto, using(crate::proofs::SameLists::same_lists, crate::proofs::Nets::narrowed_nets_long))]
pub fn has_narrowed_nets(
    alloc: Global,
    a: &Circuit,
    b: &Circuit,
    parts: &[Part],
) -> Result<bool, NoMemory>
    ensures { IfOk result (λ is. IsTrue is →
        a.now.nets ≡ narrowed_nets b.now.header parts.now 0 b.now.nets) }
{
    if a.net_count() != b.net_count() {
        return Ok(false);
    }
    for net in 0..a.net_count() {
        if !is_narrowed_at(alloc, a, b, net, parts)? {
            return Ok(false);
        }
    }
    Ok(true)
}

/// Whether the nets of both circuits are in the same order.
#[tactic(auto, using(crate::proofs::SameLists::same_order))]
pub fn has_order_of(a: &Circuit, b: &Circuit) -> bool
    ensures { IsTrue result → a.now.order ≡ b.now.order }
{
    a.known();
    b.known();
    if a.net_count() != b.net_count() {
        return false;
    }
    for place in 0..a.net_count() {
        if a.by_name(place) != b.by_name(place) {
            return false;
        }
    }
    true
}
