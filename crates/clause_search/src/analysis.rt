//! What a conflict teaches: a lemma with one literal of the last level, and the hints that show it.

use crate::order::Order;
use crate::store::Store;
use crate::trail::Trail;
use clause_check::Literal;
use scald_base::NoMemory;
use std::alloc::Global;

/// What is made of a conflict. The lists are kept from one to the next.
#[derive(Drop)]
pub(crate) struct Analysis {
    /// The lemma, with its literal of the last level first, and one of the next lower level second.
    pub(crate) lemma: Vec<Literal>,
    pub(crate) hints: Vec<usize>,
    /// How many levels the lemma's literals are on.
    pub(crate) levels: usize,
    /// The numbers of the clauses that were resolved, from the conflict back.
    chain: Vec<usize>,
    /// The places on the trail of the literals that the others imply.
    implied: Vec<usize>,
    /// The variables that were met, with their stamps in the order.
    met: Vec<(u64, u32)>,
    level_list: Vec<usize>,
}

impl Analysis {
    pub(crate) fn new(alloc: Global) -> Analysis {
        Analysis {
            lemma: Vec::new(alloc),
            hints: Vec::new(alloc),
            levels: 0,
            chain: Vec::new(alloc),
            implied: Vec::new(alloc),
            met: Vec::new(alloc),
            level_list: Vec::new(alloc),
        }
    }

    /// Makes the lemma and its hints of a conflict in a clause, and moves the variables that were
    /// met in the order. Each literal that holds for good has its own lemma.
    pub(crate) fn learn(
        &mut self,
        store: &Store,
        trail: &mut Trail,
        order: &mut Order,
        conflict: usize,
    ) -> Result<(), NoMemory> {
        self.lemma.clear();
        self.hints.clear();
        self.chain.clear();
        self.implied.clear();
        self.met.clear();
        self.resolve(store, trail, order, conflict)?;
        self.drop_implied(store, trail, order)?;
        self.gather(store, trail)?;
        self.count_levels(trail)?;
        self.put_highest_second(trail);
        self.forget(trail, order);
        Ok(())
    }

    /// Resolves back along the trail until one literal of the last level is left.
    fn resolve(
        &mut self,
        store: &Store,
        trail: &mut Trail,
        order: &Order,
        conflict: usize,
    ) -> Result<(), NoMemory> {
        let mut clause = conflict;
        let mut open = 0_usize;
        let mut end = trail.literals.len();
        for _ in 0..trail.literals.len() {
            open = open.saturating_add(self.meet_all(store, trail, order, clause)?);
            let Some(place) = trail.last_met(end) else {
                break;
            };
            let Some(literal) = trail.literals.get(place).copied() else {
                break;
            };
            end = place;
            open = open.saturating_sub(1);
            if open == 0 {
                self.lemma.push(literal.negated())?;
                let last = self.lemma.len().saturating_sub(1);
                if last < self.lemma.len() {
                    self.lemma.swap(0, last);
                }
                break;
            }
            let Some(reason) = trail.state(literal.variable).reason else {
                break;
            };
            clause = reason;
        }
        Ok(())
    }

    /// Meets the variables of a clause, and says how many of the last level were new.
    fn meet_all(
        &mut self,
        store: &Store,
        trail: &mut Trail,
        order: &Order,
        place: usize,
    ) -> Result<usize, NoMemory> {
        self.chain.push(store.number_of(place))?;
        let mut open = 0_usize;
        for literal in store.literals_of(place) {
            let state = trail.state(literal.variable);
            if self.meet(trail, order, *literal)? && state.level > 0 {
                if state.level == trail.level() {
                    open = open.saturating_add(1);
                } else {
                    self.lemma.push(*literal)?;
                }
            }
        }
        Ok(open)
    }

    /// Meets the variable of a literal, and says whether it is new. One that has its bit for good
    /// gives a hint.
    fn meet(
        &mut self,
        trail: &mut Trail,
        order: &Order,
        literal: Literal,
    ) -> Result<bool, NoMemory> {
        let variable = literal.variable;
        let Some(state) = trail.states.get_mut(variable as usize) else {
            return Ok(false);
        };
        if state.is_met {
            return Ok(false);
        }
        state.is_met = true;
        if let Some(unit) = state.unit {
            self.hints.push(unit)?;
        }
        self.met.push((order.stamp_of(variable), variable))?;
        Ok(true)
    }

    /// Removes each literal whose reason has no other literals than those of the lemma.
    fn drop_implied(
        &mut self,
        store: &Store,
        trail: &mut Trail,
        order: &Order,
    ) -> Result<(), NoMemory> {
        let mut kept = 1_usize;
        for i in 1..self.lemma.len() {
            let Some(literal) = self.lemma.get(i).copied() else {
                break;
            };
            let state = trail.state(literal.variable);
            match state.reason {
                Some(reason) if is_implied(store, trail, reason) => {
                    self.implied.push(state.place)?;
                    for other in store.literals_of(reason) {
                        self.meet(trail, order, *other)?;
                    }
                }
                _ => {
                    if let Some(to) = self.lemma.get_mut(kept) {
                        *to = literal;
                    }
                    kept = kept.saturating_add(1);
                }
            }
        }
        self.lemma.truncate(kept);
        Ok(())
    }

    /// Puts the hints together: the clauses become unit from the trail's start to the conflict.
    fn gather(&mut self, store: &Store, trail: &Trail) -> Result<(), NoMemory> {
        self.implied.sort_unstable();
        for place in &self.implied {
            if let Some(literal) = trail.literals.get(*place) {
                if let Some(reason) = trail.state(literal.variable).reason {
                    self.hints.push(store.number_of(reason))?;
                }
            }
        }
        for number in self.chain.iter().rev() {
            self.hints.push(*number)?;
        }
        Ok(())
    }

    fn count_levels(&mut self, trail: &Trail) -> Result<(), NoMemory> {
        self.level_list.clear();
        for literal in &self.lemma {
            self.level_list.push(trail.state(literal.variable).level)?;
        }
        self.level_list.sort_unstable();
        self.level_list.dedup();
        self.levels = self.level_list.len();
        Ok(())
    }

    /// Puts a literal of the highest level but the last second.
    fn put_highest_second(&mut self, trail: &Trail) {
        let mut highest = 0;
        for i in 1..self.lemma.len() {
            let Some(literal) = self.lemma.get(i).copied() else {
                break;
            };
            let level = trail.state(literal.variable).level;
            if level > highest {
                highest = level;
                self.lemma.swap(1, i);
            }
        }
    }

    /// Forgets which variables were met, and moves those that were to the end of the order, as they
    /// stood.
    fn forget(&mut self, trail: &mut Trail, order: &mut Order) {
        self.met.sort_unstable();
        for (_, variable) in &self.met {
            if let Some(state) = trail.states.get_mut(*variable as usize) {
                state.is_met = false;
                if state.level > 0 {
                    order.bump(*variable);
                }
            }
        }
    }
}

/// Whether each literal of the clause but one was met, or is false for good.
fn is_implied(store: &Store, trail: &Trail, place: usize) -> bool {
    store.literals_of(place).iter().all(|literal| {
        let state = trail.state(literal.variable);
        state.is_met || state.level == 0
    })
}
