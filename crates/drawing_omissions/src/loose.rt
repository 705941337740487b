//! Nets that nothing determines though a pin is on them.

ghost use Rattle.std.specs.Prelude.{◌≡◌, ◌<◌, ◌||◌, ◌++◌, ◌∷◌, [], if◌then◌else◌, ℕ, List, IfOk, OnOk, length, not, slice_get};
ghost use Rattle.flat_circuit.specs.declared.case.CaseValue.{CaseValue};
ghost use Rattle.std.specs.List.{All};
ghost use Rattle.fixpoint_engine.specs.Settled.{marked_in};
ghost use Rattle.drawing_omissions.specs.Read.{AreRead};
ghost use Rattle.drawing_omissions.specs.Same.{AreWithin};
ghost use Rattle.drawing_omissions.specs.Loose.{AreSet, is_free as spec_is_free, is_given as spec_is_given, is_loose as spec_is_loose, loose_nets as spec_loose_nets, name_of as spec_name_of, sets};

use crate::read::read_nets;
use fixpoint_engine::NetSet;
use flat_circuit::{Case, CaseList, CaseValue, Circuit};
use scald_base::{AssertSpec, NoMemory};
use std::alloc::Global;

/// Puts the nets of a case into a set.
fn mark_case(set: &mut NetSet, values: &[CaseValue])
    requires { All (λ v. v.net < length set.old) values.now }
    ensures long { length set.new ≡ length set.old }
    ensures marks { (i : ℕ) → marked_in set.new i ≡ (marked_in set.old i || sets i values.now) }
{
    for value in values {
        set.add(value.net);
    }
}

/// The nets that the cases set.
pub(crate) fn set_nets(alloc: Global, c: &Circuit, cases: &[Case]) -> Result<NetSet, NoMemory>
    requires { AreWithin (length c.now.nets) cases.now }
    ensures { IfOk result (AreSet cases.now) }
{
    let mut set = NetSet::new(alloc, c.net_count())?;
    for case in cases {
        mark_case(&mut set, case.as_slice());
    }
    Ok(set)
}

/// Whether the net is neither driven nor asserted.
fn is_free(c: &Circuit, net: u32) -> bool
    ensures { result ≡ spec_is_free (slice_get c.now.nets net) }
{
    match c.net(net) {
        Some(found) => found.driver.is_none()
            && matches!(found.spec.or(&AssertSpec::None), AssertSpec::None),
        None => false,
    }
}

/// Whether the net is driven, asserted or among those that cases set.
pub(crate) fn is_given(c: &Circuit, set: &NetSet, net: u32) -> bool
    ensures is { result ≡ (not (spec_is_free (slice_get c.now.nets net)) || marked_in set.now net) }
    ensures given { (cases : List (List CaseValue)) → AreSet cases set.now →
        result ≡ spec_is_given c.now cases net }
{
    !is_free(c, net) || set.has(net)
}

/// Whether nothing determines the net though a pin is on it, by what cases set and what is read.
fn is_loose(c: &Circuit, set: &NetSet, read: &NetSet, net: u32) -> bool
    requires { AreRead c.now.instances read.now }
    ensures { (cases : List (List CaseValue)) → AreSet cases set.now →
        result ≡ spec_is_loose c.now cases net }
{
    !is_given(c, set, net) && read.has(net)
}

/// Appends a net, if it counts.
fn add_if(nets: &mut Vec<u32>, counts: bool, net: u32) -> Result<(), NoMemory>
    ensures { OnOk result (nets.new.items ≡ nets.old.items
        ++ (if counts then net ∷ [] else [])) }
{
    if counts {
        nets.push(net)?;
    }
    Ok(())
}

/// The nets that nothing determines though a pin is on them, in name order.
pub(crate) fn loose_nets(alloc: Global, c: &Circuit, set: &NetSet) -> Result<Vec<u32>, NoMemory>
    ensures { IfOk result (λ nets. (cases : List (List CaseValue)) → AreSet cases set.now →
        nets.items ≡ spec_loose_nets c.now cases) }
{
    c.known();
    let read = read_nets(alloc, c)?;
    let mut nets = Vec::new(alloc);
    for place in 0..c.net_count() {
        let net = c.net_at(place);
        add_if(&mut nets, is_loose(c, set, &read, net), net)?;
    }
    Ok(nets)
}

/// The name of a net, path and base; none if there is no such net.
pub(crate) fn name_of(c: &Circuit, net: u32) -> &[u8]
    ensures { result.now ≡ spec_name_of c.now net }
{
    match c.net(net) {
        Some(found) => found.name.as_slice(),
        None => &[],
    }
}
