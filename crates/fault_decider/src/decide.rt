//! One fault decided.

ghost use Rattle.std.specs.Prelude.{IfOk, IfSome, IsTrue};
ghost use Rattle.run_clauses.specs.Refuting.{NeverBreaksFrom};
ghost use Rattle.window_law.specs.Window.{IsShort};
ghost use Rattle.case_analysis.specs.Case.{NetsExist};
ghost use Rattle.fault_decider.specs.Verdict.{IsShownBy, IsVerdict};

use crate::showing::{Showing, shown_by};
use crate::verdict::Verdict;
use case_analysis::reach;
use element_kinds::{Check, Form};
use flat_circuit::{Case, Circuit};
use narrowing::{Constraint, instance_of, refute};
use run_clauses::{Budget, refute_window};
use run_search::find_run;
use scald_base::NoMemory;
use std::alloc::Global;
use std::cmp::{max, min};

/// The most bits of a trace.
const MOST_BITS: u64 = 4_000_000;

/// The most ticks of a run here.
const MOST_TICKS: u64 = 1_048_576;

/// The steps of a search for a run, and of one for a refutation, at effort 1.
const RUN_STEPS: u64 = 20_000_000;

const SPLIT_STEPS: u64 = 400_000;

/// How many periods of a run are looked through, from the printed tick on.
const PERIODS: u64 = 8;

/// The sum of the limits of a constraint.
fn limits_of(c: &Circuit, x: Constraint) -> u64 {
    match instance_of(x) {
        None => 0,
        Some(k) => match c.instance(k) {
            None => 0,
            Some(i) => {
                let limits = i.limits;
                u64::from(limits.setup())
                    + u64::from(limits.hold())
                    + u64::from(limits.high())
                    + u64::from(limits.low())
            }
        },
    }
}

/// How many ticks a run has in which a break is looked for: some periods from the printed tick on,
/// as far as the bits of a trace allow. None if they allow no tick from there on.
fn ticks_for(c: &Circuit, x: Constraint, printed: u64) -> Option<u32> {
    let nets = max(u64::from(c.net_count()), 1);
    let most = min(MOST_TICKS, MOST_BITS / nets);
    if most <= printed {
        return None;
    }
    let period = u64::from(c.header().period());
    let wanted = printed
        .saturating_add(PERIODS * period)
        .saturating_add(limits_of(c, x));
    u32::try_from(min(wanted, most)).ok()
}

/// How many tries a number of steps allows, at most so many.
fn tries_for(c: &Circuit, ticks: u32, steps: u64, most: u64) -> u16 {
    let nets = u64::from(c.net_count()) + u64::from(c.instance_count());
    let cost = max(nets, 1).saturating_mul(u64::from(ticks).saturating_mul(4));
    match u16::try_from(min(steps / max(cost, 1), most)) {
        Ok(tries) => max(tries, 6),
        Err(_) => u16::MAX,
    }
}

/// A run that shows the fault, if one is found in these tries.
fn show(
    alloc: Global,
    c: &Circuit,
    values: &Case,
    x: Constraint,
    from: u32,
    ticks: u32,
    first: u64,
    tries: u16,
) -> Result<Option<Showing>, NoMemory>
    ensures { IfOk result (λ found. IfSome found (IsShownBy c.now values.now x from)) }
{
    match find_run(alloc, c, values, x, from, ticks, first, tries)? {
        None => Ok(None),
        Some(found) => shown_by(alloc, c, values, x, from, found),
    }
}

/// The same from a printed tick on.
fn show_from(
    alloc: Global,
    c: &Circuit,
    values: &Case,
    x: Constraint,
    printed: u64,
    first: u64,
    steps: u64,
    most: u64,
) -> Result<Option<Showing>, NoMemory>
    ensures { IfOk result (λ found. IfSome found (IsShownBy c.now values.now x printed)) }
{
    let Some(ticks) = ticks_for(c, x, printed) else {
        return Ok(None);
    };
    let Ok(from) = u32::try_from(printed) else {
        return Ok(None);
    };
    let tries = tries_for(c, ticks, steps, most);
    show(alloc, c, values, x, from, ticks, first, tries)
}

/// The most facts of which clauses speak, and the steps of a search for a refutation by them, at
/// effort 1.
const FACTS: u64 = 200_000;

const CLAUSE_STEPS: u64 = 20_000_000;

/// Whether clauses of a window are made of breaks of the constraint.
fn is_of_window(c: &Circuit, x: Constraint) -> bool
    ensures { IsTrue result → IsShort c.now x }
{
    match x {
        Constraint::Instance(k) => match c.instance(k) {
            None => true,
            Some(i) => !matches!(i.kind.form(), Form::Checker(Check::RiseFall)),
        },
        _ => true,
    }
}

/// Whether clauses of a window refute the constraint from its printed tick on.
fn refuted_by_window(
    alloc: Global,
    c: &Circuit,
    values: &Case,
    x: Constraint,
    printed: u64,
    effort: u64,
) -> Result<bool, NoMemory>
    ensures { IfOk result (λ yes. IsTrue yes → NeverBreaksFrom c.now values.now x printed) }
{
    let Ok(from) = u32::try_from(printed) else {
        return Ok(false);
    };
    if from < reach(c) || !is_of_window(c, x) {
        return Ok(false);
    }
    let budget = Budget {
        facts: FACTS.saturating_mul(effort) as usize,
        steps: CLAUSE_STEPS.saturating_mul(effort),
    };
    refute_window(alloc, c, values.as_slice(), x, from, budget)
}

/// The tries that come before a refutation is looked for.
const FIRST_TRIES: u64 = 48;

/// What is said of a fault of this constraint in a case, whose printed tick is given: first some
/// tries for a run, then a refutation by narrowings, then one by the clauses of a window, and last
/// more tries.
#[tactic(auto, using(crate::proofs::Refuting::refuted_verdict))]
pub fn decide(
    alloc: Global,
    c: &Circuit,
    values: &Case,
    x: Constraint,
    printed: u64,
    effort: u32,
) -> Result<Verdict, NoMemory>
    requires { NetsExist c.now values.now }
    ensures { IfOk result (IsVerdict c.now values.now x printed) }
{
    let effort = u64::from(effort);
    let steps = RUN_STEPS.saturating_mul(effort);
    let shown = show_from(alloc, c, values, x, printed, 0, steps, FIRST_TRIES)?;
    if let Some(showing) = shown {
        return Ok(Verdict::Shown(showing));
    }
    let mut budget = SPLIT_STEPS.saturating_mul(effort);
    if let Some(refutation) = refute(alloc, c, values, x, &mut budget)? {
        return Ok(Verdict::Refuted {
            from: max(printed, refutation.tick),
            leaves: refutation.leaves,
        });
    }
    if refuted_by_window(alloc, c, values, x, printed, effort)? {
        return Ok(Verdict::Window { from: printed });
    }
    let most = effort.saturating_mul(400);
    let shown = show_from(alloc, c, values, x, printed, FIRST_TRIES, steps, most)?;
    match shown {
        Some(showing) => Ok(Verdict::Shown(showing)),
        None => Ok(Verdict::Open),
    }
}
