//! The nets that a case may reach, which cases that set the same nets have in common.

ghost use Rattle.std.specs.Prelude.{◌≡◌, ℕ, IfOk, IfSome, IsTrue, length};
ghost use Rattle.std.specs.List.{All};
ghost use Rattle.fixpoint_engine.specs.Settled.{marked_in};
ghost use Rattle.case_analysis.specs.Case.{NetsExist, case_active};
ghost use Rattle.case_analysis.specs.Reached.{AreReached, nets_set};

use crate::cones::cone;
use crate::parts::net_of;
use fixpoint_engine::NetSet;
use flat_circuit::{Case, CaseList, CaseValue, Circuit};
use scald_base::NoMemory;
use std::alloc::Global;

/// The nets that a case may reach.
#[derive(Drop)]
pub struct Reached {
    /// All of them.
    pub cone: NetSet,
    /// Those that are driven.
    pub active: NetSet,
}

/// The driven nets of a cone.
fn driven_in(alloc: Global, c: &Circuit, cone: &NetSet) -> Result<NetSet, NoMemory>
    ensures each_net { IfOk result (λ set. length set ≡ length c.now.nets) }
    ensures is { IfOk result (λ set.
        (i : ℕ) → marked_in set i ≡ case_active c.now (marked_in cone.now) i) }
{
    let mut active = NetSet::new(alloc, c.net_count())?;
    for net in 0..c.net_count() {
        if cone.has(net) && net_of(c, net).driver.is_some() {
            active.add(net);
        }
    }
    Ok(active)
}

/// The nets that a case reaches.
fn reach_of(alloc: Global, c: &Circuit, case: &Case) -> Result<Reached, NoMemory>
    requires { NetsExist c.now case.now }
    ensures { IfOk result (AreReached c.now case.now) }
{
    let cone = cone(alloc, c, case)?;
    let active = driven_in(alloc, c, &cone)?;
    Ok(Reached { cone, active })
}

/// Whether two cases set the same nets, in the same order.
fn sets_the_same(one: &[CaseValue], other: &[CaseValue]) -> bool
    ensures { IsTrue result → nets_set one.now ≡ nets_set other.now }
{
    if one.len() != other.len() {
        return false;
    }
    for place in 0..one.len() {
        if one[place].net != other[place].net {
            return false;
        }
    }
    true
}

/// Whether each case sets the nets that this one sets.
fn all_set_the_same(first: &Case, cases: &[Case]) -> bool
    ensures { IsTrue result → All (λ case. nets_set first.now ≡ nets_set case) cases.now }
{
    for case in cases {
        if !sets_the_same(first.as_slice(), case.as_slice()) {
            return false;
        }
    }
    true
}

/// The nets that each of the cases reaches, if all set the same nets.
pub fn shared_reach(
    alloc: Global,
    c: &Circuit,
    cases: &CaseList,
) -> Result<Option<Reached>, NoMemory>
    requires { All (NetsExist c.now) cases.now }
    ensures { IfOk result (λ shared.
        All (λ case. IfSome shared (AreReached c.now case)) cases.now) }
{
    match cases.get(0) {
        Some(first) if all_set_the_same(first, cases.as_slice()) => {
            let reached = reach_of(alloc, c, first)?;
            Ok(Some(reached))
        }
        _ => Ok(None),
    }
}

/// The nets that a case reaches: a copy of what all cases share, if that is known.
pub fn own_reach(
    alloc: Global,
    c: &Circuit,
    case: &Case,
    shared: &Option<Reached>,
) -> Result<Reached, NoMemory>
    requires exist { NetsExist c.now case.now }
    requires shared { IfSome shared.now (AreReached c.now case.now) }
    ensures { IfOk result (AreReached c.now case.now) }
{
    match shared {
        Some(known) => {
            let cone = known.cone.copy(alloc)?;
            let active = known.active.copy(alloc)?;
            Ok(Reached { cone, active })
        }
        None => reach_of(alloc, c, case),
    }
}
