//! A tree of narrowings that refutes a constraint.

ghost use Rattle.std.specs.Prelude.{◌≡◌, ◌++◌, ◌∷◌, [], IfOk, IfSome, OnOk};
ghost use Rattle.std.specs.List.{All};
ghost use Rattle.case_analysis.specs.Case.{NetsExist};
ghost use Rattle.narrowing.specs.Leaf.{NeverBreaksIn};
ghost use Rattle.narrowing.specs.Part.{PartFits};
ghost use Rattle.narrowing.specs.Tree.{IsRefuted, IsSplit, greatest_of};

use crate::constraint::Constraint;
use crate::fits::part_fits;
use crate::halves::Halves;
use crate::leaf::{Leaf, evaluate};
use crate::part::{Part, Parts};
use crate::split::{best_split, cost_of, half, spend};
use crate::splits::is_split;
use flat_circuit::{Case, Circuit};
use scald_base::{List, NoMemory};
use std::alloc::Global;
use std::cmp::max;

/// A constraint is not broken from a tick on in any run of a case.
#[derive(Drop, Debug)]
pub struct Refutation {
    /// The greatest of the leaves' printed ticks.
    pub tick: u64,
    /// The narrowings at the leaves, the lower half first.
    pub leaves: List<Parts>,
}

/// How far a search for a tree has come.
#[derive(Drop)]
struct Progress {
    /// The steps that it may still take.
    budget: u64,
    /// The narrowings at the leaves that it found, the lower half first.
    leaves: List<Parts>,
}

/// The most splits on the way to a leaf.
const DEEPEST: u8 = 40;

/// The split of a narrowing, if one is found.
fn split_of(
    alloc: Global,
    c: &Circuit,
    values: &Case,
    x: Constraint,
    parts: &[Part],
    budget: &mut u64,
) -> Result<Option<Halves>, NoMemory>
    requires exist { NetsExist c.now values.now }
    requires fit { All (PartFits c.now values.now) parts.now }
    ensures split { IfOk result (λ found. IfSome found (λ halves.
        IsSplit c.now values.now parts.now halves.lower halves.upper)) }
    ensures lower { IfOk result (λ found. IfSome found (λ halves.
        PartFits c.now values.now halves.lower)) }
    ensures upper { IfOk result (λ found. IfSome found (λ halves.
        PartFits c.now values.now halves.upper)) }
{
    let Some(halves) = best_split(alloc, c, values, x, parts, budget)? else {
        return Ok(None);
    };
    if is_split(alloc, c, values.as_slice(), parts, halves)?
        && part_fits(c, values.as_slice(), halves.lower)
        && part_fits(c, values.as_slice(), halves.upper)
    {
        Ok(Some(halves))
    } else {
        Ok(None)
    }
}

/// Puts a leaf at the end.
fn add_leaf(alloc: Global, found: &mut List<Parts>, parts: &[Part]) -> Result<(), NoMemory>
    ensures { OnOk result (found.new ≡ found.old ++ parts.now ∷ []) }
{
    let leaf = Parts::from_slice(alloc, parts)?;
    found.push(leaf)
}

/// The greatest of two ticks, if there are both.
fn greatest(low: Option<u64>, high: Option<u64>) -> Option<u64>
    ensures { result ≡ greatest_of low high }
{
    match (low, high) {
        (Some(low), Some(high)) => Some(max(low, high)),
        _ => None,
    }
}

/// The greatest printed tick of the leaves under a narrowing, if a tree is found; these leaves are
/// appended.
fn refute_in(
    alloc: Global,
    c: &Circuit,
    values: &Case,
    x: Constraint,
    parts: &[Part],
    depth: u8,
    progress: &mut Progress,
) -> Result<Option<u64>, NoMemory>
    requires exist { NetsExist c.now values.now }
    requires fit { All (PartFits c.now values.now) parts.now }
    ensures tree { IfOk result (λ tick. IfSome tick (λ tick.
        IsRefuted c.now values.now x parts.now tick progress.old.leaves progress.new.leaves)) }
    ensures never { IfOk result (λ tick. IfSome tick
        (NeverBreaksIn c.now values.now parts.now x)) }
{
    if !spend(&mut progress.budget, cost_of(c)) {
        return Ok(None);
    }
    let leaf = evaluate(alloc, c, values, x, parts)?;
    match leaf {
        Leaf::Free(tick) => {
            add_leaf(alloc, &mut progress.leaves, parts)?;
            return Ok(Some(tick));
        }
        Leaf::Faulty(_) => {}
        Leaf::Unsettled => return Ok(None),
    }
    if depth == 0 {
        return Ok(None);
    }
    let split = split_of(alloc, c, values, x, parts, &mut progress.budget)?;
    let Some(halves) = split else {
        return Ok(None);
    };
    let next = depth - 1;
    let lower = half(alloc, c, values, parts, halves.lower)?;
    let low = refute_in(alloc, c, values, x, lower.as_slice(), next, progress)?;
    if low.is_none() {
        return Ok(None);
    }
    let upper = half(alloc, c, values, parts, halves.upper)?;
    let high = refute_in(alloc, c, values, x, upper.as_slice(), next, progress)?;
    Ok(greatest(low, high))
}

/// A tree of narrowings of a case in whose leaves the constraint has no fault, if one is found
/// within the budget, which is counted in steps and of which what is spent is taken. No run of the
/// case, whose inputs keep their assertions, then breaks the constraint from the tick on.
pub fn refute(
    alloc: Global,
    c: &Circuit,
    values: &Case,
    x: Constraint,
    budget: &mut u64,
) -> Result<Option<Refutation>, NoMemory>
    requires { NetsExist c.now values.now }
    ensures tree { IfOk result (λ found. IfSome found (λ r.
        IsRefuted c.now values.now x [] r.tick [] r.leaves)) }
    ensures never { IfOk result (λ found. IfSome found (λ r.
        NeverBreaksIn c.now values.now [] x r.tick)) }
{
    let mut progress = Progress {
        budget: *budget,
        leaves: List::new(alloc),
    };
    let tick = refute_in(alloc, c, values, x, &[], DEEPEST, &mut progress)?;
    let Progress {
        budget: left,
        leaves,
    } = progress;
    *budget = left;
    match tick {
        None => Ok(None),
        Some(tick) => Ok(Some(Refutation { tick, leaves })),
    }
}
