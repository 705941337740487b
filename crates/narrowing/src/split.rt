//! The split of a narrowing: the best of those that are worth a try.

ghost use Rattle.std.specs.Prelude.{◌≡◌, IfOk};
ghost use Rattle.std.specs.List.{All};
ghost use Rattle.case_analysis.specs.Case.{NetsExist};
ghost use Rattle.narrowing.specs.Part.{PartFits, with_part};

use crate::constraint::Constraint;
use crate::fits::part_fits;
use crate::halves::{Halves, tries};
use crate::leaf::{Leaf, evaluate};
use crate::part::{Part, Parts, with_part};
use flat_circuit::{Case, Circuit};
use scald_base::NoMemory;
use std::alloc::Global;
use std::cmp::max;

/// Takes a cost out of a budget; `false` if it is spent.
pub fn spend(budget: &mut u64, cost: u64) -> bool {
    if *budget < cost {
        *budget = 0;
        return false;
    }
    *budget -= cost;
    true
}

/// What an evaluation of a circuit costs, in steps.
pub fn cost_of(c: &Circuit) -> u64 {
    64 + u64::from(c.net_count()) + u64::from(c.instance_count())
}

/// A narrowing with a part that fits.
#[tactic(auto, using(crate::proofs::Covering::half_fits))]
pub fn half(
    alloc: Global,
    c: &Circuit,
    values: &Case,
    parts: &[Part],
    part: Part,
) -> Result<Parts, NoMemory>
    requires fit { All (PartFits c.now values.now) parts.now }
    requires fits { PartFits c.now values.now part }
    ensures is { IfOk result (λ half. half ≡ with_part parts.now part) }
    ensures fit { IfOk result (λ half. All (PartFits c.now values.now) half) }
{
    let _ = c;
    let _ = values;
    with_part(alloc, parts, part)
}

/// What one half leaves open: nothing if it has no fault, and `None` if it does not settle.
fn doubt_in(
    alloc: Global,
    c: &Circuit,
    values: &Case,
    x: Constraint,
    parts: &[Part],
    part: Part,
) -> Result<Option<u64>, NoMemory>
    requires exist { NetsExist c.now values.now }
    requires fit { All (PartFits c.now values.now) parts.now }
{
    if !part_fits(c, values.as_slice(), part) {
        return Ok(None);
    }
    let narrowed = half(alloc, c, values, parts, part)?;
    match evaluate(alloc, c, values, x, narrowed.as_slice())? {
        Leaf::Free(_) => Ok(Some(0)),
        Leaf::Faulty(doubt) => Ok(Some(doubt.saturating_add(1))),
        Leaf::Unsettled => Ok(None),
    }
}

/// What two halves leave open.
#[derive(Clone, Copy, PartialEq, Eq, Debug)]
struct Open {
    greater: u64,
    sum: u64,
}

impl Open {
    fn is_less_than(self, other: Self) -> bool {
        self.greater < other.greater || self.greater == other.greater && self.sum < other.sum
    }
}

/// What both halves leave open, if both settle.
fn doubt_of(
    alloc: Global,
    c: &Circuit,
    values: &Case,
    x: Constraint,
    parts: &[Part],
    halves: Halves,
) -> Result<Option<Open>, NoMemory>
    requires exist { NetsExist c.now values.now }
    requires fit { All (PartFits c.now values.now) parts.now }
{
    let Some(lower) = doubt_in(alloc, c, values, x, parts, halves.lower)? else {
        return Ok(None);
    };
    let Some(upper) = doubt_in(alloc, c, values, x, parts, halves.upper)? else {
        return Ok(None);
    };
    Ok(Some(Open {
        greater: max(lower, upper),
        sum: lower.saturating_add(upper),
    }))
}

/// The split that leaves least open, of those that are worth a try and that the budget allows. A
/// split without a fault in either half is taken at once.
pub fn best_split(
    alloc: Global,
    c: &Circuit,
    values: &Case,
    x: Constraint,
    parts: &[Part],
    budget: &mut u64,
) -> Result<Option<Halves>, NoMemory>
    requires exist { NetsExist c.now values.now }
    requires fit { All (PartFits c.now values.now) parts.now }
{
    let mut best: Option<(Open, Halves)> = None;
    let cost = cost_of(c).saturating_mul(2);
    let list = tries(alloc, c, values.as_slice(), x, parts)?;
    for halves in &list {
        if !spend(budget, cost) {
            return Ok(None);
        }
        if let Some(open) = doubt_of(alloc, c, values, x, parts, *halves)? {
            if open.greater == 0 {
                return Ok(Some(*halves));
            }
            let is_better = match best {
                None => true,
                Some((least, _)) => open.is_less_than(least),
            };
            if is_better {
                best = Some((open, *halves));
            }
        }
    }
    match best {
        None => Ok(None),
        Some((_, halves)) => Ok(Some(halves)),
    }
}
