//! What a search found, after its answer was tried.

use clause_check::{Clauses, refutes};
use clause_search::{Answer, search};
use scald_base::NoMemory;
use std::alloc::Global;

/// What an answer is worth.
#[derive(Clone, Copy, PartialEq, Eq, Debug)]
pub enum Verdict {
    /// An assignment that makes every clause hold.
    Satisfied,
    /// Steps that the checker accepts.
    Refuted,
    /// Another assignment, or other steps.
    Wrong,
    /// Nothing was found within the budget.
    OutOfBudget,
}

/// Whether each clause has a literal that holds.
pub fn all_hold(clauses: &Clauses, bits: &[bool]) -> bool {
    for i in 0..clauses.len() {
        let Some(clause) = clauses.get(i) else {
            return false;
        };
        let is_so = clause.iter().any(|literal| match bits.get(literal.variable as usize) {
            Some(bit) => *bit == literal.value,
            None => false,
        });
        if !is_so {
            return false;
        }
    }
    true
}

/// Searches, and tries the answer.
pub fn try_answer(alloc: Global, clauses: Clauses, budget: u64) -> Result<Verdict, NoMemory> {
    match search(alloc, &clauses, budget)? {
        Answer::Satisfied(bits) => Ok(if all_hold(&clauses, &bits) {
            Verdict::Satisfied
        } else {
            Verdict::Wrong
        }),
        Answer::Refuted(steps) => Ok(if refutes(alloc, clauses, &steps)? {
            Verdict::Refuted
        } else {
            Verdict::Wrong
        }),
        Answer::OutOfBudget => Ok(Verdict::OutOfBudget),
    }
}
