//! Clauses that speak of facts.

ghost use Rattle.std.specs.Prelude.{◌≡◌, ◌++◌, ◌∷◌, [], IfOk, IsTrue, OnOk, Some, slice_get};
ghost use Rattle.std.specs.List.{All};
ghost use Rattle.run_clauses.specs.Clauses.{AreRefuted};
ghost use Rattle.run_clauses.specs.Formula.{Begins, Speaks, clause_by};

use crate::fact::{Fact, Said};
use clause_check::{Clauses, Literal, refutes};
use clause_search::{Answer, search};
use indexmap::IndexMap;
use scald_base::NoMemory;
use std::alloc::Global;
use std::marker::Model;

/// Clauses, which contracts see as lists of what is said of facts. Inside, a fact has a number,
/// that of its place in a list: what the map finds is looked up there again, so that nothing rests
/// on it.
#[derive(Drop)]
pub struct Formula {
    facts: Vec<Fact>,
    numbers: IndexMap<Fact, u32>,
    clauses: Clauses,
    /// The literals of the clause that is put together.
    literals: Vec<Literal>,
}

impl Model for Formula {
    ghost use Rattle.std.specs.Prelude.{List, ◌<◌, length};
    ghost use Rattle.std.specs.List.{All};
    ghost use Rattle.run_clauses.specs.declared.fact.Said.{Said};
    ghost use Rattle.run_clauses.specs.Formula.{clauses_by, SpeakWithin};

    ghost Value = { List (List Said) };

    ghost view = { λ f. clauses_by f.facts.items f.clauses };

    ghost invariant = { λ f. SpeakWithin f.facts.items f.clauses };
}

impl Formula {
    /// No clauses. It needs no allocation yet.
    pub fn new(alloc: Global) -> Formula
        ensures { result ≡ [] }
    {
        Formula {
            facts: Vec::new(alloc),
            numbers: IndexMap::new(alloc),
            clauses: Clauses::new(alloc),
            literals: Vec::new(alloc),
        }
    }

    /// The fact of which so many others were spoken before. No promise is made of it.
    pub fn fact(&self, number: usize) -> Option<Fact> {
        self.facts.get(number).copied()
    }

    /// Appends a clause: that something of what is said is so.
    #[tactic(auto, using(crate::proofs::Numbered::clause_pushed))]
    pub fn push(&mut self, clause: &[Said]) -> Result<(), NoMemory>
        ensures { OnOk result (self.new ≡ self.old ++ clause.now ∷ []) }
    {
        put_literals(
            &mut self.facts,
            &mut self.numbers,
            &mut self.literals,
            clause,
        )?;
        self.clauses.push(&self.literals)
    }

    /// Whether steps that refute the clauses are found within a budget, and checked.
    #[tactic(auto, using(crate::proofs::Numbered::refuted_said))]
    pub fn is_refuted(self, alloc: Global, budget: u64) -> Result<bool, NoMemory>
        ensures { IfOk result (λ yes. IsTrue yes → AreRefuted self) }
    {
        let Formula {
            facts: _,
            numbers: _,
            clauses,
            literals: _,
        } = self;
        match search(alloc, &clauses, budget)? {
            Answer::Refuted(steps) => refutes(alloc, clauses, &steps),
            Answer::Satisfied(_) => Ok(false),
            Answer::OutOfBudget => Ok(false),
        }
    }
}

/// The number of a fact, which a new one gets now.
fn number_of(
    facts: &mut Vec<Fact>,
    numbers: &mut IndexMap<Fact, u32>,
    fact: Fact,
) -> Result<u32, NoMemory>
    ensures is { IfOk result (λ n. slice_get facts.new.items n ≡ Some fact) }
    ensures more { Begins facts.old.items facts.new.items }
{
    if let Some(number) = numbers.get(&fact).copied() {
        if let Some(found) = facts.get(number as usize) {
            if *found == fact {
                return Ok(number);
            }
        }
    }
    let Ok(number) = u32::try_from(facts.len()) else {
        return Err(NoMemory);
    };
    numbers.insert(fact, number)?;
    facts.push(fact)?;
    Ok(number)
}

/// Makes the literals of a clause, in place of those that are there.
fn put_literals(
    facts: &mut Vec<Fact>,
    numbers: &mut IndexMap<Fact, u32>,
    literals: &mut Vec<Literal>,
    clause: &[Said],
) -> Result<(), NoMemory>
    ensures more { Begins facts.old.items facts.new.items }
    ensures within { OnOk result (All (Speaks facts.new.items) literals.new.items) }
    ensures said { OnOk result (clause_by facts.new.items literals.new.items ≡ clause.now) }
{
    literals.clear();
    for said in clause {
        let variable = number_of(facts, numbers, said.fact)?;
        let value = said.holds;
        literals.push(Literal { variable, value })?;
    }
    Ok(())
}
