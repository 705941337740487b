//! Clauses that are hard for their size, and that are known to be refuted or not.

use crate::clause_forms::push;
use crate::clause_verdict::{Verdict, try_answer};
use crate::rows::expect_eq;
use clause_check::Clauses;
use scald_base::NoMemory;
use std::alloc::Global;

/// Each of some pigeons is in one of the holes, and no hole has two. Pigeon p in hole h is variable
/// p * holes + h + 1.
fn pigeons(alloc: Global, pigeons: i32, holes: i32) -> Result<Clauses, NoMemory> {
    let at = |p: i32, h: i32| p.wrapping_mul(holes).wrapping_add(h).wrapping_add(1);
    let mut clauses = Clauses::new(alloc);
    for p in 0..pigeons {
        let mut somewhere = Vec::new(alloc);
        for h in 0..holes {
            somewhere.push(at(p, h))?;
        }
        push(alloc, &mut clauses, &somewhere)?;
    }
    for h in 0..holes {
        for p in 0..pigeons {
            for q in 0..p {
                let both = [at(p, h).wrapping_neg(), at(q, h).wrapping_neg()];
                push(alloc, &mut clauses, &both)?;
            }
        }
    }
    Ok(clauses)
}

/// Says that c is 1 exactly if one of a and b is.
fn parity(
    alloc: Global,
    clauses: &mut Clauses,
    (a, b, c): (i32, i32, i32),
) -> Result<(), NoMemory> {
    let (not_a, not_b, not_c) = (a.wrapping_neg(), b.wrapping_neg(), c.wrapping_neg());
    push(alloc, clauses, &[a, b, not_c])?;
    push(alloc, clauses, &[not_a, not_b, not_c])?;
    push(alloc, clauses, &[a, not_b, c])?;
    push(alloc, clauses, &[not_a, b, c])
}

/// The parity of bits 1 to n, summed up from the first and from the last, is the same, or with
/// `differ` is not.
fn two_sums(alloc: Global, n: i32, differ: bool) -> Result<Clauses, NoMemory> {
    let mut clauses = Clauses::new(alloc);
    let up = |i: i32| n.wrapping_add(i);
    let down = |i: i32| n.wrapping_mul(2).wrapping_add(i);
    push(alloc, &mut clauses, &[up(1), -1])?;
    push(alloc, &mut clauses, &[up(1).wrapping_neg(), 1])?;
    push(alloc, &mut clauses, &[down(1), n.wrapping_neg()])?;
    push(alloc, &mut clauses, &[down(1).wrapping_neg(), n])?;
    for i in 2..n.wrapping_add(1) {
        let before = i.wrapping_sub(1);
        let from_end = n.wrapping_sub(before);
        parity(alloc, &mut clauses, (up(before), i, up(i)))?;
        parity(alloc, &mut clauses, (down(before), from_end, down(i)))?;
    }
    let (first, second) = (up(n), down(n));
    let other = if differ {
        second.wrapping_neg()
    } else {
        second
    };
    push(alloc, &mut clauses, &[first, other.wrapping_neg()])?;
    push(alloc, &mut clauses, &[first.wrapping_neg(), other])?;
    Ok(clauses)
}

/// Each bit of a circle differs from the next.
fn circle(alloc: Global, n: i32) -> Result<Clauses, NoMemory> {
    let mut clauses = Clauses::new(alloc);
    for i in 1..n.wrapping_add(1) {
        let next = if i == n { 1 } else { i.wrapping_add(1) };
        push(alloc, &mut clauses, &[i, next])?;
        push(
            alloc,
            &mut clauses,
            &[i.wrapping_neg(), next.wrapping_neg()],
        )?;
    }
    Ok(clauses)
}

/// Which clauses a row has.
#[derive(Clone, Copy)]
enum Family {
    Pigeons(i32, i32),
    Sums(i32, bool),
    Circle(i32),
}

/// The name of a row, its clauses and what a search finds.
type Row = (&'static str, Family, Verdict);

const ROWS: [Row; 12] = [
    (
        "4 pigeons in 4 holes",
        Family::Pigeons(4, 4),
        Verdict::Satisfied,
    ),
    (
        "5 pigeons in 4 holes",
        Family::Pigeons(5, 4),
        Verdict::Refuted,
    ),
    (
        "6 pigeons in 5 holes",
        Family::Pigeons(6, 5),
        Verdict::Refuted,
    ),
    (
        "7 pigeons in 6 holes",
        Family::Pigeons(7, 6),
        Verdict::Refuted,
    ),
    (
        "8 pigeons in 8 holes",
        Family::Pigeons(8, 8),
        Verdict::Satisfied,
    ),
    (
        "two sums of 4 bits",
        Family::Sums(4, true),
        Verdict::Refuted,
    ),
    (
        "two sums of 8 bits",
        Family::Sums(8, true),
        Verdict::Refuted,
    ),
    (
        "two sums of 12 bits",
        Family::Sums(12, true),
        Verdict::Refuted,
    ),
    (
        "equal sums of 12 bits",
        Family::Sums(12, false),
        Verdict::Satisfied,
    ),
    ("an odd circle", Family::Circle(99), Verdict::Refuted),
    ("an even circle", Family::Circle(100), Verdict::Satisfied),
    ("a long odd circle", Family::Circle(2001), Verdict::Refuted),
];

fn clauses_of(alloc: Global, family: Family) -> Result<Clauses, NoMemory> {
    match family {
        Family::Pigeons(p, h) => pigeons(alloc, p, h),
        Family::Sums(n, differ) => two_sums(alloc, n, differ),
        Family::Circle(n) => circle(alloc, n),
    }
}

fn found(alloc: Global, family: Family) -> Result<Verdict, NoMemory> {
    try_answer(alloc, clauses_of(alloc, family)?, 1_000_000)
}

#[test]
fn families(rt: HostRuntime) {
    for (name, family, want) in &ROWS {
        expect_eq(&rt, name, &found(rt.alloc(), *family), &Ok(*want));
    }
}
