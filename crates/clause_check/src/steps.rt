//! The steps of a refutation.

ghost use Rattle.std.specs.Prelude.{◌≡◌, [], ◌∷◌, ◌++◌, OnOk};

use crate::literal::Literal;
use crate::rows::{Clauses, Hints};
use scald_base::NoMemory;
use std::alloc::Global;

/// The steps of a refutation, each a lemma with its hints. The last lemma has no literals.
#[derive(Drop)]
pub struct Steps {
    /// The lemma of each step.
    pub lemmas: Clauses,
    /// The hints of each step. A clause has its number from 0, and the lemmas go on after the last
    /// clause.
    pub hints: Hints,
}

impl Steps {
    /// No steps. It needs no allocation yet.
    pub fn new(alloc: Global) -> Steps
        ensures { result ≡ record { lemmas = []; hints = [] } }
    {
        Steps {
            lemmas: Clauses::new(alloc),
            hints: Hints::new(alloc),
        }
    }

    /// Appends a step. If memory runs out its lemma may be there without hints.
    pub fn push(&mut self, lemma: &[Literal], hints: &[usize]) -> Result<(), NoMemory>
        ensures { OnOk result (self.new ≡ record {
          lemmas = self.old.lemmas ++ lemma.now ∷ [];
          hints = self.old.hints ++ hints.now ∷ [];
        }) }
    {
        self.lemmas.push(lemma)?;
        self.hints.push(hints)
    }
}
