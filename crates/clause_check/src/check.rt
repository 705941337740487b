//! A whole refutation.

ghost use Rattle.std.specs.Prelude.{◌≡◌, IsTrue, IfOk, All};
ghost use Rattle.clause_check.specs.Clauses.{Refuted};

use crate::given::Given;
use crate::propagation::follows;
use crate::rows::Clauses;
use crate::steps::Steps;
use scald_base::NoMemory;
use std::alloc::Global;

/// Whether the steps refute the clauses: each lemma follows from the clauses and the lemmas before
/// it, and one has no literals. `false` says nothing of the clauses. The lemmas are put after the
/// clauses, which are taken for that. `NoMemory` if there is no room for a lemma, or for the table
/// of the variables.
pub fn refutes(alloc: Global, mut clauses: Clauses, steps: &Steps) -> Result<bool, NoMemory>
    ensures { IfOk result (λ yes. IsTrue yes → Refuted clauses) }
{
    let mut given = nothing_given(alloc, clauses.variables())?;
    take_steps(&mut clauses, steps, &mut given)
}

/// A table for so many variables, none of which was given a bit.
fn nothing_given(alloc: Global, variables: usize) -> Result<Vec<Given>, NoMemory>
    ensures { IfOk result (λ given. All (λ g. g.step ≡ 0) given.items) }
{
    let never = Given {
        step: 0,
        value: false,
    };
    Ok(Vec::from_elem(alloc, never, variables)?)
}

/// Takes one step after another, and appends the lemma of each, until one has no literals.
fn take_steps(clauses: &mut Clauses, steps: &Steps, given: &mut [Given]) -> Result<bool, NoMemory>
    requires { All (λ g. g.step ≡ 0) given.old }
    ensures { IfOk result (λ yes. IsTrue yes → Refuted clauses.old) }
{
    for i in 0..steps.lemmas.len() {
        let (Some(lemma), Some(hints)) = (steps.lemmas.get(i), steps.hints.get(i)) else {
            return Ok(false);
        };
        if !follows(clauses, lemma, hints, given, i + 1) {
            return Ok(false);
        }
        if lemma.is_empty() {
            return Ok(true);
        }
        clauses.push(lemma)?;
    }
    Ok(false)
}
