//! Tables of values, worked out on paper from the steps that each permits.

use crate::rows::{expect, expect_eq, expect_list, expect_of};
use std::process::Abort;
use step_values::{
    Step, StepSet, Table, Value, and2, cover, latch, latch_rs, look2, look3, look4, mux2, or2, reg,
    reg_rs, steps, xor2,
};
use wave_core::Cell;

const LETTERS: [(Value, u8); 7] = [
    (Value::Zero, b'0'),
    (Value::One, b'1'),
    (Value::S, b'S'),
    (Value::C, b'C'),
    (Value::R, b'R'),
    (Value::F, b'F'),
    (Value::U, b'U'),
];

#[test]
fn letters(rt: HostRuntime) {
    for (value, letter) in &LETTERS {
        expect_of(&rt, "the letter", value, &value.letter(), letter);
    }
}

/// A value, and whether it permits 00, 01, 10 and 11.
type StepRow = (Value, bool, bool, bool, bool);

const STEPS: [StepRow; 7] = [
    (Value::Zero, true, false, false, false),
    (Value::One, false, false, false, true),
    (Value::S, true, false, false, true),
    (Value::R, true, true, false, true),
    (Value::F, true, false, true, true),
    (Value::C, true, true, true, true),
    (Value::U, true, true, true, true),
];

/// Looks at the steps of a row's value.
fn has_steps(rt: &impl Abort, (value, low, rises, falls, high): StepRow) {
    let set = StepSet::of(low, rises, falls, high);
    expect_of(rt, "the steps", &value, &steps(value), &set);
    expect_of(rt, "a rise", &value, &value.may_rise(), &rises);
    expect_of(rt, "a fall", &value, &value.may_fall(), &falls);
    expect_of(rt, "quiet", &value, &value.quiet(), &(!rises && !falls));
}

#[test]
fn steps_of_values(rt: HostRuntime) {
    for row in &STEPS {
        has_steps(&rt, *row);
    }
}

/// A set that has a step, with its cover if no argument was unknown, and if one was.
type CoverRow = (bool, bool, bool, bool, Value, Value);

const COVERS: [CoverRow; 15] = [
    (true, false, false, false, Value::Zero, Value::Zero),
    (false, false, false, true, Value::One, Value::One),
    (true, false, false, true, Value::S, Value::S),
    (false, true, false, false, Value::R, Value::R),
    (true, true, false, false, Value::R, Value::R),
    (false, true, false, true, Value::R, Value::R),
    (true, true, false, true, Value::R, Value::R),
    (false, false, true, false, Value::F, Value::F),
    (true, false, true, false, Value::F, Value::F),
    (false, false, true, true, Value::F, Value::F),
    (true, false, true, true, Value::F, Value::F),
    (false, true, true, false, Value::C, Value::C),
    (true, true, true, false, Value::C, Value::C),
    (false, true, true, true, Value::C, Value::C),
    (true, true, true, true, Value::C, Value::U),
];

/// Looks at the covers of a row's set.
fn is_covered(rt: &impl Abort, (low, rises, falls, high, known, unknown): CoverRow) {
    let set = StepSet::of(low, rises, falls, high);
    assert!(rt; !set.is_empty());
    expect_of(rt, "the cover", &set, &cover(set, false), &known);
    expect_of(rt, "the cover beside U", &set, &cover(set, true), &unknown);
}

#[test]
fn covers(rt: HostRuntime) {
    for row in &COVERS {
        is_covered(&rt, *row);
    }
}

/// Looks at a step that the first value permits, and the second does not.
fn tells(rt: &impl Abort, name: &str, step: Step, one: Value, other: Value) {
    expect_eq(
        rt,
        name,
        &(one.permits(step), other.permits(step)),
        &(true, false),
    );
}

/// What the names of the four steps stand for.
#[test]
fn named_steps(rt: HostRuntime) {
    tells(&rt, "LOW", Step::LOW, Value::Zero, Value::One);
    tells(&rt, "RISE", Step::RISE, Value::R, Value::F);
    tells(&rt, "FALL", Step::FALL, Value::F, Value::R);
    tells(&rt, "HIGH", Step::HIGH, Value::One, Value::Zero);
}

const JOINS: [(Value, Value, Value); 17] = [
    (Value::Zero, Value::Zero, Value::Zero),
    (Value::Zero, Value::One, Value::S),
    (Value::S, Value::One, Value::S),
    (Value::R, Value::Zero, Value::R),
    (Value::R, Value::One, Value::R),
    (Value::R, Value::S, Value::R),
    (Value::F, Value::Zero, Value::F),
    (Value::F, Value::One, Value::F),
    (Value::F, Value::S, Value::F),
    (Value::R, Value::F, Value::C),
    (Value::C, Value::Zero, Value::C),
    (Value::C, Value::R, Value::C),
    (Value::U, Value::Zero, Value::U),
    (Value::U, Value::S, Value::U),
    (Value::U, Value::F, Value::U),
    (Value::U, Value::C, Value::U),
    (Value::U, Value::U, Value::U),
];

/// Looks at the join of two values, both ways.
fn is_join(rt: &impl Abort, (one, other, joined): (Value, Value, Value)) {
    expect_of(rt, "the join", &(one, other), &one.join(other), &joined);
    expect_of(rt, "the join", &(other, one), &other.join(one), &joined);
}

#[test]
fn joins(rt: HostRuntime) {
    for row in &JOINS {
        is_join(&rt, *row);
    }
}

#[test]
fn bytes_and_flips(rt: HostRuntime) {
    let rises = steps(Value::R).bits();
    expect_eq(&rt, "the bits of R", &rises, &(1 + 2 + 8));
    let none = StepSet::of(false, false, false, false);
    expect(&rt, "no step", none.is_empty());
    expect(&rt, "F falls", steps(Value::F).contains(true, false));
    expect(&rt, "U is unknown", Value::U.is_unknown());
    expect(&rt, "C is known", !Value::C.is_unknown());
    expect_eq(&rt, "R flipped", &Value::R.flip(), &Value::F);
    expect_eq(&rt, "0 flipped", &Value::Zero.flip(), &Value::One);
    expect_eq(&rt, "S flipped", &Value::S.flip(), &Value::S);
}

/// The values in the order of the rows and columns below.
const ORDER: [Value; 7] = [
    Value::Zero,
    Value::One,
    Value::S,
    Value::R,
    Value::F,
    Value::C,
    Value::U,
];

/// The letters of the entries of one first value.
fn letters_of(table: &Table<49>, first: Value) -> [u8; 7] {
    [
        look2(table, first, Value::Zero).letter(),
        look2(table, first, Value::One).letter(),
        look2(table, first, Value::S).letter(),
        look2(table, first, Value::R).letter(),
        look2(table, first, Value::F).letter(),
        look2(table, first, Value::C).letter(),
        look2(table, first, Value::U).letter(),
    ]
}

/// Looks at each entry: a row for each first value, and a letter for each second one.
fn expect_rows(rt: &impl Abort, name: &str, table: &Table<49>, rows: &[u8; 56]) {
    for (row, first) in ORDER.iter().enumerate() {
        let letters = rows.get(8 * row..8 * row + 7).unwrap_or(b"");
        expect_list(rt, name, &letters_of(table, *first), letters);
    }
}

#[test]
fn ands(rt: HostRuntime) {
    let rows = b"0000000 01SRFCU 0SSRFCU 0RRRCCU 0FFCFCU 0CCCCCU 0UUUUUU ";
    expect_rows(&rt, "AND", &and2(), rows);
}

#[test]
fn ors(rt: HostRuntime) {
    let rows = b"01SRFCU 1111111 S1SRFCU R1RRCCU F1FCFCU C1CCCCU U1UUUUU ";
    expect_rows(&rt, "OR", &or2(), rows);
}

#[test]
fn exclusive_ors(rt: HostRuntime) {
    let rows = b"01SRFCU 10SFRCU SSSCCCU RFCCCCU FRCCCCU CCCCCCU UUUUUUU ";
    expect_rows(&rt, "XOR", &xor2(), rows);
}

#[test]
fn latches(rt: HostRuntime) {
    let rows = b"SSSSSSS 01SRFCU SSSRFCU FRCCCCU SSSRFCU FRCCCCU FRUUUUU ";
    expect_rows(&rt, "LATCH", &latch(), rows);
}

/// A register by its clock.
#[test]
fn registers(rt: HostRuntime) {
    let letters = b"SSSCSCU";
    for (clock, letter) in ORDER.iter().zip(letters) {
        expect_of(&rt, "REG", clock, &reg(*clock).letter(), letter);
    }
}

/// Three arguments of a table, and the entry.
type EntryRow = (Value, Value, Value, Value);

const MULTIPLEXERS: [EntryRow; 6] = [
    (Value::S, Value::Zero, Value::One, Value::S),
    (Value::R, Value::Zero, Value::One, Value::R),
    (Value::F, Value::Zero, Value::One, Value::F),
    (Value::R, Value::S, Value::S, Value::C),
    (Value::U, Value::One, Value::One, Value::One),
    (Value::Zero, Value::C, Value::U, Value::U),
];

/// A clock, a set and a reset.
const REGISTERS: [EntryRow; 4] = [
    (Value::Zero, Value::One, Value::Zero, Value::One),
    (Value::Zero, Value::Zero, Value::R, Value::F),
    (Value::R, Value::Zero, Value::Zero, Value::C),
    (Value::Zero, Value::One, Value::One, Value::C),
];

/// Looks at these entries.
fn expect_entries(rt: &impl Abort, name: &str, table: &Table<343>, rows: &[EntryRow]) {
    for (a, b, c, want) in rows {
        expect_of(rt, name, &(*a, *b, *c), &look3(table, *a, *b, *c), want);
    }
}

#[test]
fn multiplexers(rt: HostRuntime) {
    expect_entries(&rt, "MUX2", &mux2(), &MULTIPLEXERS);
}

#[test]
fn registers_with_set_and_reset(rt: HostRuntime) {
    expect_entries(&rt, "REG RS", &reg_rs(), &REGISTERS);
}

#[test]
fn latches_with_set_and_reset(rt: HostRuntime) {
    let table = latch_rs();
    let risen = look4(&table, Value::Zero, Value::S, Value::R, Value::Zero);
    expect_eq(&rt, "its set rises", &risen, &Value::R);
    let followed = look4(&table, Value::One, Value::Zero, Value::Zero, Value::Zero);
    expect_eq(&rt, "open", &followed, &Value::Zero);
}
