//! Clauses and steps as rows write them.

use clause_check::{Clauses, Literal, Steps};
use scald_base::NoMemory;
use std::alloc::Global;

/// A clause as a row writes it.
pub type Written = &'static [i32];

/// A step as a row writes it: a lemma and its hints.
pub type WrittenStep = (Written, &'static [usize]);

/// The literal that a number other than 0 writes.
pub fn literal(number: i32) -> Literal {
    Literal {
        variable: number.unsigned_abs().saturating_sub(1),
        value: number > 0,
    }
}

/// Appends a clause that is written in numbers.
pub fn push(alloc: Global, clauses: &mut Clauses, written: &[i32]) -> Result<(), NoMemory> {
    let mut clause = Vec::new(alloc);
    for number in written {
        clause.push(literal(*number))?;
    }
    clauses.push(&clause)
}

/// The clauses that are written so.
pub fn clauses_of(alloc: Global, written: &[Written]) -> Result<Clauses, NoMemory> {
    let mut clauses = Clauses::new(alloc);
    for clause in written {
        push(alloc, &mut clauses, clause)?;
    }
    Ok(clauses)
}

/// The steps that are written so.
pub fn steps_of(alloc: Global, written: &[WrittenStep]) -> Result<Steps, NoMemory> {
    let mut steps = Steps::new(alloc);
    for (lemma, hints) in written {
        push(alloc, &mut steps.lemmas, lemma)?;
        steps.hints.push(hints)?;
    }
    Ok(steps)
}
