//! The nets and instances of a circuit, and the cases of a list, that are known to be there.

ghost use Rattle.std.specs.Prelude.{◌≡◌, ◌<◌, length, slice_get};
ghost use Rattle.case_analysis.specs.Case.{case_at};

use flat_circuit::{Case, CaseList, Circuit, Instance, Net};

/// The net of a number.
pub fn net_of(c: &Circuit, net: u32) -> &Net
    requires { net < length c.now.nets }
    ensures { slice_get c.now.nets net ≡ Some result.now }
{
    match c.net(net) {
        Some(found) => found,
        None => unreachable!(),
    }
}

/// The instance of a number.
pub fn instance_of(c: &Circuit, instance: u32) -> &Instance
    requires { instance < length c.now.instances }
    ensures { slice_get c.now.instances instance ≡ Some result.now }
{
    match c.instance(instance) {
        Some(found) => found,
        None => unreachable!(),
    }
}

/// The case of a number from 0 that is known to be there.
pub fn case_at(cases: &CaseList, number: u32) -> &Case
    requires { number < length cases.now }
    ensures { result.now ≡ case_at cases.now number }
{
    match cases.get(number as usize) {
        Some(case) => case,
        None => unreachable!(),
    }
}
