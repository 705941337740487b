//! One step: that a lemma follows, by the clauses that its hints name.

ghost use Rattle.std.specs.Prelude.{◌≡◌, ◌<◌, ◌≤◌, [], IsTrue, All};
ghost use Rattle.clause_check.specs.Clauses.{Follows};
ghost use Rattle.clause_check.specs.Propagation.{Leaves, Supposes};

use crate::given::{Given, give, is_false};
use crate::literal::Literal;
use crate::rows::Clauses;

/// What is left of a clause without its false literals.
#[derive(Clone, Copy)]
pub(crate) enum Rest {
    Nothing,
    One(Literal),
    More,
}

/// What is left of the clause in this step.
fn rest_of(clause: &[Literal], given: &[Given], step: usize) -> Rest
    ensures { Leaves given.now step clause.now result }
{
    let mut rest = Rest::Nothing;
    for literal in clause {
        if !is_false(*literal, given, step) {
            match rest {
                Rest::Nothing => rest = Rest::One(*literal),
                Rest::One(other) if other == *literal => {}
                _ => return Rest::More,
            }
        }
    }
    rest
}

/// Supposes in this step that no literal of the lemma holds.
#[tactic(auto, using(crate::proofs::Supposed::suppose_literal, crate::proofs::Supposed::steps_given, crate::proofs::Supposed::suppose_nothing))]
fn suppose_false(lemma: &[Literal], given: &mut [Given], step: usize)
    requires { All (λ g. g.step < step) given.old }
    ensures steps { All (λ g. g.step ≤ step) given.new }
    ensures supposes { Supposes [] lemma.now given.new step }
{
    for literal in lemma {
        give(given, literal.negated(), step);
    }
}

/// Whether the lemma is found to follow from the clauses: if each of its literals is supposed
/// false, each clause that a hint names has one literal left, which then has to hold, until one has
/// none left.
#[tactic(auto, using(crate::proofs::Supposed::suppose_unit, crate::proofs::Supposed::steps_given, crate::proofs::Supposed::suppose_among, crate::proofs::Supposed::follows_at_conflict))]
pub(crate) fn follows(
    clauses: &Clauses,
    lemma: &[Literal],
    hints: &[usize],
    given: &mut [Given],
    step: usize,
) -> bool
    requires { All (λ g. g.step < step) given.old }
    ensures steps { All (λ g. g.step ≤ step) given.new }
    ensures follows { IsTrue result → Follows clauses.now lemma.now }
{
    suppose_false(lemma, given, step);
    for hint in hints {
        let Some(clause) = clauses.get(*hint) else {
            return false;
        };
        match rest_of(clause, given, step) {
            Rest::Nothing => return true,
            Rest::One(literal) => give(given, literal, step),
            Rest::More => return false,
        }
    }
    false
}
