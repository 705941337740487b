//! A constraint refuted by clauses.

ghost use Rattle.std.specs.Prelude.{◌≤◌, IfOk, IsTrue};
ghost use Rattle.fixpoint_engine.specs.Reach.{reach};
ghost use Rattle.run_clauses.specs.Refuting.{NeverBreaksFrom};
ghost use Rattle.window_law.specs.Window.{IsShort};

use crate::broken::add_break;
use crate::encode::explain_all;
use crate::formula::Formula;
use flat_circuit::{CaseValue, Circuit};
use narrowing::Constraint;
use scald_base::NoMemory;
use std::alloc::Global;

/// How much may be done.
#[derive(Clone, Copy, PartialEq, Eq, Debug)]
pub struct Budget {
    /// The most facts that are explained: of those past them nothing is known.
    pub facts: usize,
    /// The steps of the search, as `clause_search` counts them.
    pub steps: u64,
}

/// Whether no run of a case, of any length, breaks the constraint from its printed tick on, found
/// by clauses within a budget. `false` says nothing.
pub fn refute_window(
    alloc: Global,
    c: &Circuit,
    values: &[CaseValue],
    x: Constraint,
    printed: u32,
    budget: Budget,
) -> Result<bool, NoMemory>
    requires far { reach c.now ≤ printed }
    requires short { IsShort c.now x }
    ensures { IfOk result (λ yes. IsTrue yes → NeverBreaksFrom c.now values.now x printed) }
{
    c.header().known();
    let mut formula = Formula::new(alloc);
    let mut some = Vec::new(alloc);
    if !add_break(&mut formula, &mut some, alloc, c, x, printed)? {
        return Ok(false);
    }
    explain_all(&mut formula, &mut some, c, values, budget.facts)?;
    formula.is_refuted(alloc, budget.steps)
}
