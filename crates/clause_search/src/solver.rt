//! The search as a whole.

use crate::analysis::Analysis;
use crate::order::Order;
use crate::propagation::visit;
use crate::reduction::Reduction;
use crate::restarts::Restarts;
use crate::store::Store;
use crate::trail::{Trail, UNKNOWN};
use crate::units::Units;
use clause_check::{Clauses, Literal, Steps};
use scald_base::NoMemory;
use std::alloc::Global;

/// What a search finds.
#[derive(Drop)]
pub enum Answer {
    /// A bit for each variable, which makes every clause hold.
    Satisfied(Vec<bool>),
    /// Steps that refute the clauses.
    Refuted(Steps),
    /// The budget was used up first.
    OutOfBudget,
}

/// What ends the search.
#[derive(Clone, Copy)]
enum End {
    Satisfied,
    Refuted,
    OutOfBudget,
}

/// Searches for an assignment of the clauses' variables, or for a refutation. A literal that
/// becomes false costs one unit of the budget, and so do a decision and a restart. `NoMemory` if
/// memory runs out.
pub fn search(alloc: Global, clauses: &Clauses, budget: u64) -> Result<Answer, NoMemory> {
    let mut bits = Vec::new(alloc);
    let mut steps = Steps::new(alloc);
    match search_into(alloc, clauses, budget, &mut bits, &mut steps)? {
        End::Satisfied => Ok(Answer::Satisfied(bits)),
        End::Refuted => Ok(Answer::Refuted(steps)),
        End::OutOfBudget => Ok(Answer::OutOfBudget),
    }
}

/// Searches, and leaves the assignment or the steps in these lists.
fn search_into(
    alloc: Global,
    clauses: &Clauses,
    budget: u64,
    bits: &mut Vec<bool>,
    steps: &mut Steps,
) -> Result<End, NoMemory> {
    let mut solver = Solver::new(alloc, clauses.len());
    let end = solver.solve(clauses, budget, steps)?;
    for state in &solver.trail.states {
        bits.push(state.last_bit)?;
    }
    Ok(end)
}

/// A search under way.
#[derive(Drop)]
struct Solver {
    store: Store,
    trail: Trail,
    order: Order,
    units: Units,
    analysis: Analysis,
    restarts: Restarts,
    reduction: Reduction,
    /// The number of the next lemma.
    next_lemma: usize,
}

impl Solver {
    fn new(alloc: Global, next_lemma: usize) -> Solver {
        Solver {
            store: Store::new(alloc),
            trail: Trail::new(alloc),
            order: Order::new(alloc),
            units: Units::new(alloc),
            analysis: Analysis::new(alloc),
            restarts: Restarts::new(),
            reduction: Reduction::new(alloc),
            next_lemma,
        }
    }

    fn solve(
        &mut self,
        clauses: &Clauses,
        budget: u64,
        steps: &mut Steps,
    ) -> Result<End, NoMemory> {
        self.add_variables(clauses.variables())?;
        for number in 0..clauses.len() {
            if let Some(clause) = clauses.get(number) {
                if self.add_clause(clause, number, steps)? {
                    return Ok(End::Refuted);
                }
            }
        }
        self.run(budget, steps)
    }

    fn add_variables(&mut self, variables: usize) -> Result<(), NoMemory> {
        for variable in 0..variables {
            if let Ok(variable) = u32::try_from(variable) {
                self.trail.states.push(UNKNOWN)?;
                self.store.add_variable()?;
                self.order.add(variable)?;
            }
        }
        Ok(())
    }

    /// Takes in a clause that was given. It says whether no literal of it can hold.
    fn add_clause(
        &mut self,
        clause: &[Literal],
        number: usize,
        steps: &mut Steps,
    ) -> Result<bool, NoMemory> {
        let literals = &mut self.analysis.lemma;
        literals.clear();
        if self.trail.put_once(clause, literals)? {
            return Ok(false);
        }
        match literals.as_slice() {
            [] => {
                steps.push(&[], &[number])?;
                Ok(true)
            }
            [only] => {
                let only = *only;
                self.add_unit(only, number, steps)
            }
            _ => {
                self.store.add(literals, number, 0)?;
                Ok(false)
            }
        }
    }

    /// Takes in a clause of one literal. It says whether the literal is false.
    fn add_unit(
        &mut self,
        literal: Literal,
        number: usize,
        steps: &mut Steps,
    ) -> Result<bool, NoMemory> {
        match self.trail.value(literal) {
            Some(true) => Ok(false),
            Some(false) => {
                let other = self.trail.state(literal.variable).unit.unwrap_or(number);
                steps.push(&[], &[other, number])?;
                Ok(true)
            }
            None => {
                self.trail.assign_unit(literal, number)?;
                Ok(false)
            }
        }
    }

    /// Goes on until the clauses are refuted, or every variable has a bit.
    fn run(&mut self, budget: u64, steps: &mut Steps) -> Result<End, NoMemory> {
        for _ in 0..budget {
            match self.trail.next_literal() {
                Some(literal) => {
                    let conflict = visit(&mut self.store, &mut self.trail, literal.negated())?;
                    if let Some(place) = conflict {
                        if self.meet_conflict(place, steps)? {
                            return Ok(End::Refuted);
                        }
                    }
                }
                None => {
                    if self.go_on(steps)? {
                        return Ok(End::Satisfied);
                    }
                }
            }
        }
        Ok(End::OutOfBudget)
    }

    /// Learns from a conflict, or takes the last step if no decision stands. It says whether it
    /// did.
    fn meet_conflict(&mut self, place: usize, steps: &mut Steps) -> Result<bool, NoMemory> {
        self.settle(steps)?;
        if self.trail.level() == 0 {
            self.units.refute(&self.store, &self.trail, steps, place)?;
            return Ok(true);
        }
        self.analysis
            .learn(&self.store, &mut self.trail, &mut self.order, place)?;
        self.add_lemma(steps)?;
        self.restarts.count();
        self.reduction.count();
        Ok(false)
    }

    /// Gives each literal that holds for good a lemma of its own.
    fn settle(&mut self, steps: &mut Steps) -> Result<(), NoMemory> {
        self.units
            .settle(&self.store, &mut self.trail, steps, &mut self.next_lemma)
    }

    /// Takes in the lemma of the last conflict, goes back to where its first literal follows, and
    /// makes it hold.
    fn add_lemma(&mut self, steps: &mut Steps) -> Result<(), NoMemory> {
        let lemma = &self.analysis.lemma;
        let number = self.next_lemma;
        steps.push(lemma, &self.analysis.hints)?;
        self.next_lemma = number.saturating_add(1);
        match lemma.as_slice() {
            [] => Ok(()),
            [only] => {
                self.trail.back_to(0, &mut self.order);
                self.trail.assign_unit(*only, number)
            }
            [first, second, ..] => {
                let level = self.trail.state(second.variable).level;
                self.trail.back_to(level, &mut self.order);
                let place = self.store.add(lemma, number, self.analysis.levels)?;
                self.trail.assign(*first, Some(place))
            }
        }
    }

    /// Begins again if that is due, and else decides a variable. It says whether none was left.
    fn go_on(&mut self, steps: &mut Steps) -> Result<bool, NoMemory> {
        if self.restarts.is_due() {
            self.trail.back_to(0, &mut self.order);
            self.settle(steps)?;
            self.reduction.reduce(&mut self.store)?;
            return Ok(false);
        }
        let Some(variable) = self.order.last_free(&self.trail) else {
            return Ok(true);
        };
        let value = self.trail.state(variable).last_bit;
        self.trail.decide(Literal { variable, value })?;
        Ok(false)
    }
}
