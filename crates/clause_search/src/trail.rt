//! The bits that variables have, in the order in which they were given.

use crate::order::Order;
use clause_check::Literal;
use scald_base::NoMemory;
use std::alloc::Global;

/// What is known of a variable.
#[derive(Clone, Copy)]
pub(crate) struct State {
    /// Its bit, while it has one.
    pub(crate) bit: Option<bool>,
    /// The bit that it had last.
    pub(crate) last_bit: bool,
    /// How many decisions had been made when it was given its bit.
    pub(crate) level: usize,
    /// Its place on the trail.
    pub(crate) place: usize,
    /// The clause by which it was given its bit, by its place in the store. None: by decision.
    pub(crate) reason: Option<usize>,
    /// The number of the clause or lemma that has its literal alone, if it was given its bit for
    /// good.
    pub(crate) unit: Option<usize>,
    /// Whether the analysis of a conflict met it.
    pub(crate) is_met: bool,
}

/// A variable that was never given a bit.
pub(crate) const UNKNOWN: State = State {
    bit: None,
    last_bit: false,
    level: 0,
    place: 0,
    reason: None,
    unit: None,
    is_met: false,
};

/// The literals that hold, as they came.
#[derive(Drop)]
pub(crate) struct Trail {
    pub(crate) states: Vec<State>,
    pub(crate) literals: Vec<Literal>,
    /// Where each decision stands.
    decisions: Vec<usize>,
    /// The first literal whose clauses were not visited yet.
    next: usize,
}

impl Trail {
    pub(crate) fn new(alloc: Global) -> Trail {
        Trail {
            states: Vec::new(alloc),
            literals: Vec::new(alloc),
            decisions: Vec::new(alloc),
            next: 0,
        }
    }

    /// How many decisions stand.
    pub(crate) fn level(&self) -> usize {
        self.decisions.len()
    }

    /// Where the first decision stands, or the trail's end. What is before it holds for good.
    pub(crate) fn end_of_units(&self) -> usize {
        match self.decisions.first() {
            Some(place) => *place,
            None => self.literals.len(),
        }
    }

    pub(crate) fn state(&self, variable: u32) -> State {
        match self.states.get(variable as usize) {
            Some(state) => *state,
            None => UNKNOWN,
        }
    }

    pub(crate) fn is_free(&self, variable: u32) -> bool {
        self.state(variable).bit.is_none()
    }

    /// Whether the literal holds, or `None` while its variable has no bit.
    pub(crate) fn value(&self, literal: Literal) -> Option<bool> {
        let bit = self.state(literal.variable).bit?;
        Some(bit == literal.value)
    }

    /// Marks a variable as met, and says whether it was.
    fn was_met(&mut self, variable: u32) -> bool {
        match self.states.get_mut(variable as usize) {
            None => false,
            Some(state) => {
                let before = state.is_met;
                state.is_met = true;
                before
            }
        }
    }

    /// Puts each literal of a clause at the end once, and says whether one is there with its
    /// negation, so that the clause always holds.
    pub(crate) fn put_once(
        &mut self,
        clause: &[Literal],
        once: &mut Vec<Literal>,
    ) -> Result<bool, NoMemory> {
        let mut always = false;
        for literal in clause {
            if !self.was_met(literal.variable) {
                once.push(*literal)?;
            } else if !once.contains(literal) {
                always = true;
            }
        }
        for literal in once.iter() {
            if let Some(state) = self.states.get_mut(literal.variable as usize) {
                state.is_met = false;
            }
        }
        Ok(always)
    }

    /// Makes a literal hold, by the clause at this place.
    pub(crate) fn assign(
        &mut self,
        literal: Literal,
        reason: Option<usize>,
    ) -> Result<(), NoMemory> {
        let level = self.level();
        let place = self.literals.len();
        self.literals.push(literal)?;
        if let Some(state) = self.states.get_mut(literal.variable as usize) {
            state.bit = Some(literal.value);
            state.last_bit = literal.value;
            state.level = level;
            state.place = place;
            state.reason = reason;
        }
        Ok(())
    }

    /// Makes a literal hold for good, by the clause of this number.
    pub(crate) fn assign_unit(&mut self, literal: Literal, unit: usize) -> Result<(), NoMemory> {
        self.assign(literal, None)?;
        self.set_unit(literal.variable, unit);
        Ok(())
    }

    /// Notes the number of the clause that has the variable's literal alone.
    pub(crate) fn set_unit(&mut self, variable: u32, unit: usize) {
        if let Some(state) = self.states.get_mut(variable as usize) {
            state.unit = Some(unit);
        }
    }

    /// Makes a literal hold by decision.
    pub(crate) fn decide(&mut self, literal: Literal) -> Result<(), NoMemory> {
        self.decisions.push(self.literals.len())?;
        self.assign(literal, None)
    }

    /// The next literal whose clauses are to be visited.
    pub(crate) fn next_literal(&mut self) -> Option<Literal> {
        let literal = *self.literals.get(self.next)?;
        self.next = self.next.saturating_add(1);
        Some(literal)
    }

    /// Takes back every decision after so many, and what came of them.
    pub(crate) fn back_to(&mut self, level: usize, order: &mut Order) {
        let Some(start) = self.decisions.get(level).copied() else {
            return;
        };
        for i in start..self.literals.len() {
            if let Some(literal) = self.literals.get(i) {
                order.release(literal.variable);
                if let Some(state) = self.states.get_mut(literal.variable as usize) {
                    state.bit = None;
                }
            }
        }
        self.literals.truncate(start);
        self.decisions.truncate(level);
        self.next = start;
    }

    /// The place of the last literal before this place whose variable was met.
    pub(crate) fn last_met(&self, end: usize) -> Option<usize> {
        for i in (0..end).rev() {
            let literal = self.literals.get(i)?;
            if self.state(literal.variable).is_met {
                return Some(i);
            }
        }
        None
    }
}
