//! One net, narrowed: what is asserted of it.

ghost use Rattle.std.specs.Prelude.{◌≡◌, IfOk, IfSome};
ghost use Rattle.narrowing.specs.Narrowed.{if_undriven, narrowed_net, offset_in};

use crate::moved::{fine_spec, moved_spec};
use crate::part::{Late, Part, offset_in};
use flat_circuit::Net;
use scald_base::{AssertSpec, Header, NoMemory};
use std::alloc::Global;

/// The bounds that parts give the offset of a net, if nothing drives it.
fn own_offset(net: &Net, number: u32, parts: &[Part]) -> Option<Late>
    ensures { result ≡ if_undriven net.now.driver (offset_in number parts.now) }
{
    match net.driver {
        Some(_) => None,
        None => offset_in(number, parts),
    }
}

/// What is asserted of the net of a number in the narrowed circuit; `None` if a tick of it is
/// past the numbers of the machine.
pub fn spec_in(
    alloc: Global,
    h: &Header,
    net: &Net,
    number: u32,
    parts: &[Part],
) -> Result<Option<AssertSpec>, NoMemory>
    ensures { IfOk result (λ found. IfSome found (λ spec.
        spec ≡ (narrowed_net h.now parts.now number net.now).spec)) }
{
    let nothing = AssertSpec::None;
    let spec = net.spec.or(&nothing);
    match own_offset(net, number, parts) {
        None => fine_spec(alloc, h, spec),
        Some(late) => moved_spec(alloc, h, spec, late),
    }
}
