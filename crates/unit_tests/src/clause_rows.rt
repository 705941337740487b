//! A few clauses, worked out on paper.

use crate::clause_forms::{Written, clauses_of};
use crate::clause_verdict::{Verdict, try_answer};
use crate::rows::expect_eq;
use scald_base::NoMemory;
use std::alloc::Global;

/// The name of a row, its clauses and what a search finds.
type Row = (&'static str, &'static [Written], Verdict);

const ROWS: [Row; 14] = [
    ("no clauses", &[], Verdict::Satisfied),
    ("an empty clause", &[&[]], Verdict::Refuted),
    ("an empty clause last", &[&[1], &[]], Verdict::Refuted),
    ("a unit", &[&[1]], Verdict::Satisfied),
    ("a negated unit", &[&[-3]], Verdict::Satisfied),
    ("a unit and its contrary", &[&[1], &[-1]], Verdict::Refuted),
    ("a unit twice", &[&[2], &[2]], Verdict::Satisfied),
    ("a literal twice", &[&[1, 1], &[-1, -1]], Verdict::Refuted),
    (
        "a clause that always holds",
        &[&[1, -1], &[-1]],
        Verdict::Satisfied,
    ),
    (
        "each of two bits",
        &[&[1, 2], &[1, -2], &[-1, 2], &[-1, -2]],
        Verdict::Refuted,
    ),
    (
        "three of them",
        &[&[1, 2], &[1, -2], &[-1, 2]],
        Verdict::Satisfied,
    ),
    (
        "a chain of units",
        &[&[-1, 2], &[-2, 3], &[-3, 4], &[1], &[-4]],
        Verdict::Refuted,
    ),
    (
        "a chain that begins nowhere",
        &[&[-1, 2], &[-2, 3], &[-3, 4], &[-4]],
        Verdict::Satisfied,
    ),
    (
        "units before the clauses that they shorten",
        &[&[-1], &[-2], &[1, 2, 3], &[1, 2, -3, 4], &[2, -4, 1]],
        Verdict::Refuted,
    ),
];

fn found(alloc: Global, written: &[Written], budget: u64) -> Result<Verdict, NoMemory> {
    try_answer(alloc, clauses_of(alloc, written)?, budget)
}

#[test]
fn small(rt: HostRuntime) {
    for (name, written, want) in &ROWS {
        expect_eq(&rt, name, &found(rt.alloc(), written, 1000), &Ok(*want));
    }
}

#[test]
fn budget(rt: HostRuntime) {
    let came = found(rt.alloc(), &[&[1, 2], &[-1, 2]], 1);
    expect_eq(&rt, "a budget of 1", &came, &Ok(Verdict::OutOfBudget));
}
