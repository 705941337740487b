//! Clauses of three literals that are drawn from a seed: few variables, of which every
//! assignment is tried, and many, for which either answer is right if it is shown.

use crate::clause_verdict::{Verdict, all_hold, try_answer};
use crate::rows::expect_eq;
use clause_check::{Clauses, Literal};
use scald_base::NoMemory;
use std::alloc::Global;

/// Numbers drawn one after another.
#[derive(Drop)]
struct Draw {
    state: u64,
}

impl Draw {
    /// A number below this one, which is not 0.
    fn below(&mut self, end: u32) -> u32 {
        self.state = self
            .state
            .wrapping_mul(6_364_136_223_846_793_005)
            .wrapping_add(1_442_695_040_888_963_407);
        let high = (self.state >> 33) as u32;
        high.checked_rem(end).unwrap_or(0)
    }
}

/// So many clauses of three literals over so many variables.
fn drawn(alloc: Global, seed: u64, variables: u32, count: u32) -> Result<Clauses, NoMemory> {
    let mut draw = Draw { state: seed };
    let mut clauses = Clauses::new(alloc);
    for _ in 0..count {
        let mut clause = Vec::new(alloc);
        for _ in 0..3 {
            clause.push(Literal {
                variable: draw.below(variables),
                value: draw.below(2) == 1,
            })?;
        }
        clauses.push(&clause)?;
    }
    Ok(clauses)
}

/// Whether one of all assignments to this many variables makes every clause hold.
fn can_hold(alloc: Global, clauses: &Clauses, variables: u32) -> Result<bool, NoMemory> {
    for number in 0..1_u32.wrapping_shl(variables) {
        let mut bits = Vec::new(alloc);
        for x in 0..variables {
            bits.push(number.wrapping_shr(x) & 1 == 1)?;
        }
        if all_hold(clauses, &bits) {
            return Ok(true);
        }
    }
    Ok(false)
}

/// What a search has to find, by trying every assignment.
fn wanted(alloc: Global, seed: u64) -> Result<Verdict, NoMemory> {
    let clauses = drawn(alloc, seed, 8, 34)?;
    Ok(if can_hold(alloc, &clauses, 8)? {
        Verdict::Satisfied
    } else {
        Verdict::Refuted
    })
}

fn found(alloc: Global, seed: u64, variables: u32, count: u32) -> Result<Verdict, NoMemory> {
    try_answer(alloc, drawn(alloc, seed, variables, count)?, 1_000_000)
}

#[test]
fn few_variables(rt: HostRuntime) {
    for seed in 1..41 {
        let came = found(rt.alloc(), seed, 8, 34);
        expect_eq(&rt, "few variables", &came, &wanted(rt.alloc(), seed));
    }
}

/// Variables and clauses: as many as can hold about every other time.
const MANY: [(u32, u32); 3] = [(50, 215), (75, 320), (100, 426)];

/// Whether a search shows its answer, whichever it is.
fn is_shown(alloc: Global, seed: u64, variables: u32, count: u32) -> Result<bool, NoMemory> {
    let came = found(alloc, seed, variables, count)?;
    Ok(came == Verdict::Satisfied || came == Verdict::Refuted)
}

#[test]
fn many_variables(rt: HostRuntime) {
    for (variables, count) in &MANY {
        for seed in 1..6 {
            let came = is_shown(rt.alloc(), seed, *variables, *count);
            expect_eq(&rt, "many variables", &came, &Ok(true));
        }
    }
}

/// Twice as many clauses as mostly hold.
#[test]
fn far_too_many_clauses(rt: HostRuntime) {
    for seed in 1..6 {
        let came = found(rt.alloc(), seed, 60, 600);
        expect_eq(
            &rt,
            "600 clauses of 60 variables",
            &came,
            &Ok(Verdict::Refuted),
        );
    }
}
