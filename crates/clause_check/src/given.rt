//! The bits that variables were given in a step.

ghost use Rattle.std.specs.Prelude.{◌≡◌, slice_set};
ghost use Rattle.clause_check.specs.Propagation.{falsified};

use crate::literal::Literal;

/// The bit that a variable was given last, and in which step. So nothing is wiped between steps.
#[derive(Clone, Copy)]
pub(crate) struct Given {
    /// The step's number, from 1. 0: the variable was never given one.
    pub(crate) step: usize,
    pub(crate) value: bool,
}

/// Whether the literal's variable was given the other bit in this step.
pub(crate) fn is_false(literal: Literal, given: &[Given], step: usize) -> bool
    ensures { result ≡ falsified given.now step literal }
{
    match given.get(literal.variable as usize) {
        Some(g) => g.step == step && g.value != literal.value,
        None => false,
    }
}

/// Gives the literal's variable the bit at which it holds. A variable past the table stays unknown.
#[tactic(auto, using(std::proofs::lemmas::List::set_past))]
pub(crate) fn give(given: &mut [Given], literal: Literal, step: usize)
    ensures { given.new ≡
        slice_set given.old literal.variable (record { step = step; value = literal.value }) }
{
    let i = literal.variable as usize;
    if i < given.len() {
        given[i] = Given {
            step,
            value: literal.value,
        };
    }
}
