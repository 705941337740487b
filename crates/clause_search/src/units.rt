//! Literals that hold for good: each gets a lemma of its own, which hints can name.

use crate::store::Store;
use crate::trail::Trail;
use clause_check::{Literal, Steps};
use scald_base::NoMemory;
use std::alloc::Global;

/// The lemmas so far, and how far the trail's literals have theirs.
#[derive(Drop)]
pub(crate) struct Units {
    /// How many literals at the trail's start have their own lemma.
    done: usize,
    hints: Vec<usize>,
}

impl Units {
    pub(crate) fn new(alloc: Global) -> Units {
        Units {
            done: 0,
            hints: Vec::new(alloc),
        }
    }

    /// Takes a step for each literal that holds for good and has no lemma. `next` is the number of
    /// the next lemma.
    pub(crate) fn settle(
        &mut self,
        store: &Store,
        trail: &mut Trail,
        steps: &mut Steps,
        next: &mut usize,
    ) -> Result<(), NoMemory> {
        let end = trail.end_of_units();
        for i in self.done..end {
            let Some(literal) = trail.literals.get(i).copied() else {
                break;
            };
            let state = trail.state(literal.variable);
            if let (None, Some(place)) = (state.unit, state.reason) {
                self.gather(store, trail, place, Some(literal))?;
                steps.push(&[literal], &self.hints)?;
                trail.set_unit(literal.variable, *next);
                *next = next.saturating_add(1);
            }
        }
        self.done = end;
        Ok(())
    }

    /// Takes the last step, by a clause whose literals are all false for good.
    pub(crate) fn refute(
        &mut self,
        store: &Store,
        trail: &Trail,
        steps: &mut Steps,
        place: usize,
    ) -> Result<(), NoMemory> {
        self.gather(store, trail, place, None)?;
        steps.push(&[], &self.hints)
    }

    /// Makes the hints by which a clause has no literal left but this: those of the others, and the
    /// clause.
    fn gather(
        &mut self,
        store: &Store,
        trail: &Trail,
        place: usize,
        left: Option<Literal>,
    ) -> Result<(), NoMemory> {
        self.hints.clear();
        for literal in store.literals_of(place) {
            if left != Some(*literal) {
                if let Some(unit) = trail.state(literal.variable).unit {
                    self.hints.push(unit)?;
                }
            }
        }
        self.hints.push(store.number_of(place))?;
        Ok(())
    }
}
