//! Steps that the checker accepts, and steps that it refuses.

use crate::clause_forms::{Written, WrittenStep, clauses_of, steps_of};
use crate::rows::expect_eq;
use clause_check::refutes;
use scald_base::NoMemory;
use std::alloc::Global;

/// Each of the four pairs of bits breaks one. They are clauses 0 to 3, and the lemmas 4 and on.
const PAIRS: [Written; 4] = [&[1, 2], &[1, -2], &[-1, 2], &[-1, -2]];

/// The same but for the last, so that an assignment is left.
const THREE: [Written; 3] = [&[1, 2], &[1, -2], &[-1, 2]];

/// The name of a row, its clauses, its steps and whether they are accepted.
type Row = (
    &'static str,
    &'static [Written],
    &'static [WrittenStep],
    bool,
);

const ROWS: [Row; 22] = [
    ("right", &PAIRS, &[(&[1], &[0, 1]), (&[], &[4, 2, 3])], true),
    (
        "another lemma",
        &PAIRS,
        &[(&[-2], &[1, 3]), (&[], &[4, 0, 2])],
        true,
    ),
    (
        "hints after the conflict",
        &PAIRS,
        &[(&[1], &[0, 1, 9]), (&[], &[4, 2, 3, 9])],
        true,
    ),
    (
        "a hint twice",
        &PAIRS,
        &[(&[1], &[0, 0, 1]), (&[], &[4, 2, 3])],
        true,
    ),
    (
        "a literal twice",
        &PAIRS,
        &[(&[1, 1], &[0, 1]), (&[], &[4, 2, 3])],
        true,
    ),
    (
        "steps after the last",
        &PAIRS,
        &[(&[1], &[0, 1]), (&[], &[4, 2, 3]), (&[7], &[])],
        true,
    ),
    ("an empty clause", &[&[]], &[(&[], &[0])], true),
    ("no steps", &PAIRS, &[], false),
    ("no empty lemma", &PAIRS, &[(&[1], &[0, 1])], false),
    ("no hints", &PAIRS, &[(&[1], &[]), (&[], &[4, 2, 3])], false),
    (
        "a hint too few",
        &PAIRS,
        &[(&[1], &[0]), (&[], &[4, 2, 3])],
        false,
    ),
    (
        "the last hint missing",
        &PAIRS,
        &[(&[1], &[0, 1]), (&[], &[4, 2])],
        false,
    ),
    (
        "the wrong order",
        &PAIRS,
        &[(&[1], &[0, 1]), (&[], &[2, 4, 3])],
        false,
    ),
    (
        "no such clause",
        &PAIRS,
        &[(&[1], &[9, 0, 1]), (&[], &[4, 2, 3])],
        false,
    ),
    (
        "the lemma itself",
        &PAIRS,
        &[(&[1], &[4]), (&[], &[4, 2, 3])],
        false,
    ),
    (
        "a later lemma",
        &PAIRS,
        &[(&[1], &[5]), (&[], &[4, 2, 3])],
        false,
    ),
    ("two literals left", &PAIRS, &[(&[], &[0, 1, 2, 3])], false),
    (
        "another literal",
        &PAIRS,
        &[(&[2], &[0, 1]), (&[], &[4, 2, 3])],
        false,
    ),
    (
        "the negated lemma",
        &PAIRS,
        &[(&[-1], &[0, 1]), (&[], &[4, 0, 1])],
        false,
    ),
    (
        "a variable that no clause has",
        &PAIRS,
        &[(&[9], &[0, 1]), (&[], &[4, 2, 3])],
        false,
    ),
    (
        "clauses that can hold",
        &THREE,
        &[(&[1], &[0, 1]), (&[], &[3, 2, 2])],
        false,
    ),
    ("no clauses", &[], &[(&[], &[])], false),
];

fn accepted(alloc: Global, clauses: &[Written], steps: &[WrittenStep]) -> Result<bool, NoMemory> {
    let steps = steps_of(alloc, steps)?;
    refutes(alloc, clauses_of(alloc, clauses)?, &steps)
}

#[test]
fn steps(rt: HostRuntime) {
    for (name, clauses, steps, want) in &ROWS {
        let came = accepted(rt.alloc(), clauses, steps);
        expect_eq(&rt, name, &came, &Ok(*want));
    }
}

/// A lemma without a row of hints is refused.
fn without_hints(alloc: Global) -> Result<bool, NoMemory> {
    let mut steps = steps_of(alloc, &[(&[1], &[0, 1])])?;
    steps.lemmas.push(&[])?;
    refutes(alloc, clauses_of(alloc, &PAIRS)?, &steps)
}

#[test]
fn no_row_of_hints(rt: HostRuntime) {
    expect_eq(
        &rt,
        "no row of hints",
        &without_hints(rt.alloc()),
        &Ok(false),
    );
}
