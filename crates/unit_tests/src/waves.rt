//! Waves over cells that say no more than whether a net may change, turned and folded on paper.

use crate::cells::{M, S, Slot, expect_slots};
use crate::rows::expect;
use std::process::Abort;
use wave_core::{CyclicWave, SlotWave};

/// The wave of these slots.
fn of_slots(rt: &(impl Abort + AllocGlobal), slots: &[Slot]) -> SlotWave<Slot> {
    assert!(rt; 2 <= slots.len() && slots.len() <= 4096);
    SlotWave::from_slots(rt.alloc(), slots).expect(rt, "a wave")
}

/// By how many slots a wave of five is turned, and what comes.
const TURNS: [(u16, [Slot; 5]); 6] = [
    (0, [M, M, S, S, S]),
    (1, [S, M, M, S, S]),
    (2, [S, S, M, M, S]),
    (4, [M, S, S, S, M]),
    (5, [M, M, S, S, S]),
    (4096, [S, M, M, S, S]),
];

/// Looks at each slot of a wave that is turned.
fn expect_turned(
    rt: &(impl Abort + AllocGlobal),
    name: &str,
    wave: &SlotWave<Slot>,
    by: u16,
    want: &[Slot],
) {
    let turned = wave.rotate(rt.alloc(), by).expect(rt, name);
    expect_slots(rt, name, &turned, want);
}

/// Each turn of a wave of five slots.
#[test]
fn rotations(rt: HostRuntime) {
    let five = of_slots(&rt, &[M, M, S, S, S]);
    for (by, want) in &TURNS {
        expect_turned(&rt, "of five", &five, *by, want);
    }
}

/// Turns of a wave of two slots.
#[test]
fn short_rotations(rt: HostRuntime) {
    let two = of_slots(&rt, &[M, S]);
    expect_turned(&rt, "of two", &two, 1, &[S, M]);
    expect_turned(&rt, "of two, back again", &two, 2, &[M, S]);
}

/// How many slots longer the change of a wave of seven lasts, and what comes.
const FOLDS: [(u16, [Slot; 7]); 6] = [
    (0, [S, S, S, S, M, S, S]),
    (1, [S, S, S, S, M, M, S]),
    (2, [S, S, S, S, M, M, M]),
    (3, [M, S, S, S, M, M, M]),
    (5, [M, M, M, S, M, M, M]),
    (6, [M, M, M, M, M, M, M]),
];

/// Looks at each slot of a wave that is folded.
fn expect_folded(
    rt: &(impl Abort + AllocGlobal),
    name: &str,
    wave: &SlotWave<Slot>,
    back: u16,
    want: &[Slot],
) {
    assert!(rt; back < wave.period());
    let folded = wave.fold(rt.alloc(), back).expect(rt, name);
    expect_slots(rt, name, &folded, want);
}

/// Each fold of a wave of seven slots with one change, which lasts so many slots longer.
#[test]
fn folds(rt: HostRuntime) {
    let seven = of_slots(&rt, &[S, S, S, S, M, S, S]);
    for (back, want) in &FOLDS {
        expect_folded(&rt, "of seven", &seven, *back, want);
    }
}

/// Folds of a wave of two slots.
#[test]
fn short_folds(rt: HostRuntime) {
    let two = of_slots(&rt, &[M, S]);
    expect_folded(&rt, "of two", &two, 1, &[M, M]);
    expect_folded(&rt, "of two, none", &two, 0, &[M, S]);
}

/// Looks at a map of a wave, and at a copy of it.
fn expect_copies(rt: &(impl Abort + AllocGlobal), one: &SlotWave<Slot>) {
    let mapped = one
        .map(rt.alloc(), |c| if c == S { M } else { S })
        .expect(rt, "mapped");
    expect_slots(rt, "mapped", &mapped, &[S, S, M, M]);
    let same = one.copy(rt.alloc()).expect(rt, "a copy");
    expect(rt, "the same", one.equal(&same));
}

/// Looks at a wave beside another: their pairs in order, and that they are not equal.
fn expect_pairs(rt: &(impl Abort + AllocGlobal), one: &SlotWave<Slot>) {
    let other = of_slots(rt, &[M, S, M, S]);
    expect(rt, "another", !one.equal(&other));
    assert!(rt; one.period() == other.period());
    let less = one
        .zip(rt.alloc(), &other, |c, d| if d == S { c } else { S })
        .expect(rt, "pairs");
    expect_slots(rt, "in order", &less, &[S, M, S, S]);
}

/// Maps, pairs, copies and compares.
#[test]
fn others(rt: HostRuntime) {
    let one = of_slots(&rt, &[M, M, S, S]);
    expect_copies(&rt, &one);
    expect_pairs(&rt, &one);
}

#[test]
fn a_uniform_wave(rt: HostRuntime) {
    let uniform: SlotWave<Slot> = SlotWave::uniform(rt.alloc(), 3, M).expect(&rt, "uniform");
    expect_slots(&rt, "uniform", &uniform, &[M, M, M]);
}
