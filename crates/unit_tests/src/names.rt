//! Tables of names, of the assertions that fit a header, and of what they say at each tick.

use crate::rows::{expect, expect_eq, expect_list};
use assertion_syntax::{NameEnd, NameFault, SignalName, fits, ideal, quiet, read_name, write_name};
use scald_base::{AssertSpec, Bytes, ClockSpec, Delay, Header, Spans};
use std::process::Abort;

const BASE_64: &str = "ABCDEFGHIJKLMNOPQRSTUVWXYZabcdefghijklmnopqrstuvwxyz0123456789_#";

/// Eight units of fifty ticks, with no skew of its own.
fn plain() -> Header {
    Header {
        units: 8,
        ticks: 50,
        wire: Delay { min: 0, max: 0 },
        pskew: (0, 0),
        cskew: (0, 0),
    }
}

/// The same, if edges come up to 25 ticks early and late.
fn skewed() -> Header {
    Header {
        units: 8,
        ticks: 50,
        wire: Delay { min: 0, max: 0 },
        pskew: (0, 0),
        cskew: (25, 25),
    }
}

/// Whether the text is of a name, whose text is then this one again.
fn is_name(rt: &(impl Abort + AllocGlobal), text: &str) -> bool {
    match read_name(rt.alloc(), text.as_bytes()) {
        Ok(name) => is_written_so(rt, &name, text),
        Err(end) => {
            expect_eq(rt, text, &end, &NameEnd::BadName);
            false
        }
    }
}

/// Whether this is the text of the name.
fn is_written_so(rt: &(impl Abort + AllocGlobal), name: &SignalName, text: &str) -> bool {
    let mut written = Bytes::new(rt.alloc());
    write_name(rt.alloc(), name, &mut written).expect(rt, text);
    written.as_slice() == text.as_bytes()
}

const NAMES: [&str; 13] = [
    "A",
    "A B",
    "a_#$ 9",
    BASE_64,
    "/A",
    "A .S",
    "/A B .S0-2,4-6",
    "CK .P2-3L",
    "CK .P2-3(1,1)L",
    "CK .C2-3(25,25)",
    "CK .P0-8(4095,4095)L",
    "CK .P4096-0",
    "CK .C3-3",
];

const OTHER_TEXTS: [&str; 36] = [
    "",
    " A",
    "A ",
    "A  B",
    "ABCDEFGHIJKLMNOPQRSTUVWXYZabcdefghijklmnopqrstuvwxyz0123456789_#$",
    "/",
    "//A",
    "A/B",
    "A-B",
    ".S",
    " .S",
    "A.S",
    "A  .S",
    "A .S ",
    "A .S0-2,",
    "A .S,0-2",
    "A .S0",
    "A .S0-2L",
    "A .S0-2(1,1)",
    "CK .P",
    "CK .C",
    "CK .PL",
    "CK .Q2-3",
    "CK .P2-3LL",
    "CK .P2-3L(1,1)",
    "CK .P2-3()",
    "CK .P2-3(1)",
    "CK .P2-3(1,1",
    "CK .P02-3",
    "CK .P2-03",
    "CK .P2-3(00,1)",
    "CK .P4097-0",
    "CK .P0-10000",
    "CK .P0-8(4096,0)",
    "CK .P0-8(0,4096)",
    "CK .P2-3 .S",
];

/// Whether each of these texts is of a name.
fn are_names(rt: &(impl Abort + AllocGlobal), texts: &[&str], want: bool) {
    for text in texts {
        expect_eq(rt, text, &is_name(rt, text), &want);
    }
}

#[test]
fn names_are_read_and_written_back(rt: HostRuntime) {
    are_names(&rt, &NAMES, true);
}

#[test]
fn other_texts_are_no_names(rt: HostRuntime) {
    are_names(&rt, &OTHER_TEXTS, false);
}

/// The name of which this is the text.
fn named(rt: &(impl Abort + AllocGlobal), text: &str) -> SignalName {
    read_name(rt.alloc(), text.as_bytes()).expect(rt, text)
}

/// What each part of the row's clock is.
fn expect_clock(rt: &impl Abort, spec: &AssertSpec) {
    let AssertSpec::Clock(clock) = spec else {
        return expect(rt, "it is a clock", false);
    };
    let second = clock.spans.get(1).map(|span| (span.lo, span.hi));
    expect_eq(rt, "its intervals", &clock.spans.len(), &2);
    expect_eq(rt, "the second of them", &second, &Some((6, 5)));
    expect_eq(rt, "its skew", &clock.skew, &Some((7, 9)));
    expect(rt, "low", clock.low);
}

#[test]
fn each_part_of_a_name_is_read(rt: HostRuntime) {
    let name = named(&rt, "/CK 1 .C2-3,6-5(7,9)L");
    expect(&rt, "global", name.global);
    expect_list(&rt, "its base", name.base.as_slice(), b"CK 1");
    expect_clock(&rt, &name.spec);
}

const OK: Result<(), NameFault> = Ok(());

const BAD: Result<(), NameFault> = Err(NameFault::BadName);

const OVERLAP: Result<(), NameFault> = Err(NameFault::EdgesOverlap);

/// A name, whether it fits the plain header, and whether the skewed one.
type FitRow = (&'static str, Result<(), NameFault>, Result<(), NameFault>);

const FITS: [FitRow; 19] = [
    ("A", OK, OK),
    ("CK .P2-3L", OK, OK),
    ("CK .P2-3(400,400)", OK, OK),
    ("CK .C2-3", OK, OVERLAP),
    ("CK .C2-3(5,5)", OK, OK),
    ("CK .C2-3(25,24)", OK, OK),
    ("CK .C2-3(25,25)", OVERLAP, OVERLAP),
    ("CK .C3-2(50,0)", OVERLAP, OVERLAP),
    ("CK .C0-4(100,99)", OK, OK),
    ("CK .C0-4(100,100)", OVERLAP, OVERLAP),
    ("CK .C2-3(400,400)", OVERLAP, OVERLAP),
    ("CK .C0-8(400,400)", OK, OK),
    ("CK .C2-3,3-3(25,25)", BAD, BAD),
    ("CK .P3-3", BAD, BAD),
    ("CK .P8-1", BAD, BAD),
    ("CK .P0-9", BAD, BAD),
    ("A .S", OK, OK),
    ("A .S7-0,0-8", OK, OK),
    ("A .S0-8,8-0", BAD, BAD),
];

/// Looks at whether the name of a row fits each header.
fn is_fit(rt: &(impl Abort + AllocGlobal), (text, on_plain, on_skewed): FitRow) {
    let name = named(rt, text);
    let fit = (fits(&name.spec, &plain()), fits(&name.spec, &skewed()));
    expect_eq(rt, text, &fit, &(on_plain, on_skewed));
}

#[test]
fn assertions_fit_eight_units_of_fifty_ticks(rt: HostRuntime) {
    for row in &FITS {
        is_fit(&rt, *row);
    }
}

/// A clock, and whether it is 1 at the ticks 99, 100, 149, 150 and 399.
type ClockRow = (&'static str, [bool; 5]);

const CLOCKS: [ClockRow; 4] = [
    ("CK .P2-3", [false, true, true, false, false]),
    ("CK .P2-3L", [true, false, false, true, true]),
    ("CK .C3-2", [true, false, false, true, true]),
    ("CK .C2-3,3-8", [false, true, true, true, true]),
];

/// What a clock is at these ticks.
fn levels(clock: &ClockSpec) -> [bool; 5] {
    let h = plain();
    [
        ideal(clock, &h, 99),
        ideal(clock, &h, 100),
        ideal(clock, &h, 149),
        ideal(clock, &h, 150),
        ideal(clock, &h, 399),
    ]
}

/// Looks at the levels of a row's clock.
fn has_levels(rt: &(impl Abort + AllocGlobal), (text, wanted): ClockRow) {
    let name = named(rt, text);
    match &name.spec {
        AssertSpec::Precision(clock) | AssertSpec::Clock(clock) => {
            expect_eq(rt, text, &levels(clock), &wanted);
        }
        _ => expect(rt, text, false),
    }
}

#[test]
fn clocks_are_one_in_their_units(rt: HostRuntime) {
    for row in &CLOCKS {
        has_levels(&rt, *row);
    }
}

/// A stable signal, and whether it is quiet in the slots 0, 1, 99, 100, 101 and 399.
type StableRow = (&'static str, [bool; 6]);

const STABLE: [StableRow; 5] = [
    ("A .S", [true, true, true, true, true, true]),
    ("A .S0-2", [false, true, true, false, false, false]),
    ("A .S0-2,2-8", [false, true, true, false, true, true]),
    ("A .S0-8", [false, true, true, true, true, true]),
    ("A .S6-2", [true, true, true, false, false, true]),
];

/// Whether a signal with these intervals is quiet in these slots.
fn quiet_slots(spans: &Spans) -> [bool; 6] {
    let h = plain();
    [
        quiet(spans, &h, 0),
        quiet(spans, &h, 1),
        quiet(spans, &h, 99),
        quiet(spans, &h, 100),
        quiet(spans, &h, 101),
        quiet(spans, &h, 399),
    ]
}

/// Looks at the quiet slots of a row's signal.
fn is_quiet(rt: &(impl Abort + AllocGlobal), (text, wanted): StableRow) {
    let name = named(rt, text);
    match &name.spec {
        AssertSpec::Stable(spans) => expect_eq(rt, text, &quiet_slots(spans), &wanted),
        _ => expect(rt, text, false),
    }
}

#[test]
fn stable_signals_are_quiet_inside_their_intervals(rt: HostRuntime) {
    for row in &STABLE {
        is_quiet(&rt, *row);
    }
}
