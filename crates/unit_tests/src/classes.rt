//! Two gates side by side that differ in one thing, and what the classes of their nets are then;
//! and the classes of whole drawings.

use crate::rows::{expect, expect_eq, expect_list};
use flat_circuit::{ClassMap, classes, stable};
use scald_base::Bytes;
use std::process::Abort;
use timing_analysis::{Drawn, read_circuit};

/// Two nets that nothing drives and two that gates drive, numbered by their bits, and the first of
/// the gates.
const FIRST: &[u8] = br#"WIRE 0:2;
DRAWING GATES;
WIRE "X"<0:3> 0:2;
g1 : AND [1:2] ("X"<0>) -> ("X"<2>);
"#;

const END: &[u8] = b"END;\n";

/// A second gate that is as the first.
const PLAIN: &[u8] = br#"g2 : AND [1:2] ("X"<0>) -> ("X"<3>);"#;

/// The same with its delay written twice, for rises and for falls.
const SPLIT: &[u8] = br#"g2 : AND [1:2, 1:2] ("X"<0>) -> ("X"<3>);"#;

const SLOWER: &[u8] = br#"g2 : AND [1:3] ("X"<0>) -> ("X"<3>);"#;

const ON_SECOND: &[u8] = br#"g2 : AND [1:2] ("X"<1>) -> ("X"<3>);"#;

/// No case, one in which the undriven nets are alike, and one in which they are not.
const NO_CASE: &[u8] = b"";

const ALIKE: &[u8] = br#"CASE "X"<0>=0, "X"<1>=0;"#;

const UNLIKE: &[u8] = br#"CASE "X"<0>=0, "X"<1>=1;"#;

/// The name of a row, its second gate, its case, a number for each net, and whether these are
/// stable classes.
type StableRow = (&'static str, &'static [u8], &'static [u8], [u32; 4], bool);

/// Gates in one class that differ in one thing; and then classes of gates on different nets, and of
/// nets to which a case gives the same value, or another.
const GATES: [StableRow; 16] = [
    ("nothing", PLAIN, NO_CASE, [0, 0, 2, 2], true),
    ("delay", SLOWER, NO_CASE, [0, 0, 2, 2], false),
    ("two delays", SPLIT, NO_CASE, [0, 0, 2, 2], false),
    (
        "kind",
        br#"g2 : OR [1:2] ("X"<0>) -> ("X"<3>);"#,
        NO_CASE,
        [0, 0, 2, 2],
        false,
    ),
    (
        "complement",
        br#"g2 : AND [1:2] (-"X"<0>) -> ("X"<3>);"#,
        NO_CASE,
        [0, 0, 2, 2],
        false,
    ),
    (
        "mark",
        br#"g2 : AND [1:2] ("X"<0> !H) -> ("X"<3>);"#,
        NO_CASE,
        [0, 0, 2, 2],
        false,
    ),
    (
        "output",
        br#"g2 : AND [1:2] ("X"<0>) -> (-"X"<3>);"#,
        NO_CASE,
        [0, 0, 2, 2],
        false,
    ),
    ("net", ON_SECOND, NO_CASE, [0, 0, 2, 2], true),
    (
        "nets of two classes",
        ON_SECOND,
        NO_CASE,
        [0, 1, 2, 2],
        false,
    ),
    ("each by itself", ON_SECOND, NO_CASE, [0, 1, 2, 3], true),
    ("driven and not", ON_SECOND, NO_CASE, [0, 0, 0, 3], false),
    ("other numbers", ON_SECOND, NO_CASE, [9, 9, 7, 7], true),
    (
        "other numbers, two classes",
        ON_SECOND,
        NO_CASE,
        [9, 8, 7, 7],
        false,
    ),
    ("alike in the case", PLAIN, ALIKE, [0, 0, 2, 2], true),
    ("unlike in the case", PLAIN, UNLIKE, [0, 0, 2, 2], false),
    (
        "unlike, and in two classes",
        PLAIN,
        UNLIKE,
        [0, 1, 2, 2],
        true,
    ),
];

/// The name of a row, its second gate, its case, and the fewest classes.
type FewestRow = (&'static str, &'static [u8], &'static [u8], [u32; 4]);

const FEWEST: [FewestRow; 6] = [
    ("nothing differs", PLAIN, NO_CASE, [0, 0, 2, 2]),
    ("the delay differs", SLOWER, NO_CASE, [0, 0, 2, 3]),
    ("one has two delays", SPLIT, NO_CASE, [0, 0, 2, 3]),
    ("the net differs", ON_SECOND, NO_CASE, [0, 0, 2, 2]),
    ("the nets are unlike", PLAIN, UNLIKE, [0, 1, 2, 2]),
    (
        "the gates' nets are unlike",
        ON_SECOND,
        UNLIKE,
        [0, 1, 2, 3],
    ),
];

/// The name of a row, what follows the head of its drawing, a number for each net, and whether
/// these are stable classes.
type DrawingRow = (&'static str, &'static [u8], &'static [u32], bool);

/// Two buffers from a clock, whose nets are numbered CK, X, Y.
const BUFFERS: [DrawingRow; 5] = [
    (
        "one delay",
        br#"DRAWING BUFFERS;
b1 : BUF [1:2] ("CK .P2-3") -> ("X");
b2 : BUF [1:2] ("CK") -> ("Y");
END;
"#,
        &[0, 1, 1],
        true,
    ),
    (
        "another delay",
        br#"DRAWING BUFFERS;
b1 : BUF [1:2] ("CK .P2-3") -> ("X");
b2 : BUF [1:3] ("CK") -> ("Y");
END;
"#,
        &[0, 1, 1],
        false,
    ),
    (
        "the same two delays",
        br#"DRAWING BUFFERS;
b1 : BUF [1:4, 2:3] ("CK .P2-3") -> ("X");
b2 : BUF [1:4, 2:3] ("CK") -> ("Y");
END;
"#,
        &[0, 1, 1],
        true,
    ),
    (
        "another fall delay, within the rise delay",
        br#"DRAWING BUFFERS;
b1 : BUF [1:4, 2:3] ("CK .P2-3") -> ("X");
b2 : BUF [1:4, 2:4] ("CK") -> ("Y");
END;
"#,
        &[0, 1, 1],
        false,
    ),
    (
        "rise and fall exchanged",
        br#"DRAWING BUFFERS;
b1 : BUF [1:2, 3:4] ("CK .P2-3") -> ("X");
b2 : BUF [3:4, 1:2] ("CK") -> ("Y");
END;
"#,
        &[0, 1, 1],
        false,
    ),
];

/// Three sections of eight bits in a chain, as `bench 3` has them. The 57 nets are numbered as the
/// text names them: Q0, D1, the clock CK, Q1, D2, Q2, D3 and Q3.
const SECTIONS: &[u8] = br#"WIRE 0:2;
DRAWING BENCH;
g1 : CHG [20:60] ("Q0 .S4-3"<0:7>) -> ("D1"<0:7>);
c1 : SETUP_HOLD_CHK {SETUP=20, HOLD=5} ("CK .P2-3", "D1"<0:7>);
r1 : REG [5:10] ("CK .P2-3", "D1"<0:7>) -> ("Q1"<0:7>);
g2 : CHG [20:60] ("Q1"<0:7>) -> ("D2"<0:7>);
c2 : SETUP_HOLD_CHK {SETUP=20, HOLD=5} ("CK .P2-3", "D2"<0:7>);
r2 : REG [5:10] ("CK .P2-3", "D2"<0:7>) -> ("Q2"<0:7>);
g3 : CHG [20:60] ("Q2"<0:7>) -> ("D3"<0:7>);
c3 : SETUP_HOLD_CHK {SETUP=20, HOLD=5} ("CK .P2-3", "D3"<0:7>);
r3 : REG [5:10] ("CK .P2-3", "D3"<0:7>) -> ("Q3"<0:7>);
END;
"#;

/// The eight groups of these nets, each by the number of its first net.
const GROUPS: [u32; 57] = [
    0, 0, 0, 0, 0, 0, 0, 0, 8, 8, 8, 8, 8, 8, 8, 8, 16, 17, 17, 17, 17, 17, 17, 17, 17, 25, 25, 25,
    25, 25, 25, 25, 25, 33, 33, 33, 33, 33, 33, 33, 33, 41, 41, 41, 41, 41, 41, 41, 41, 49, 49, 49,
    49, 49, 49, 49, 49,
];

/// The first two lines of a drawing in a period of 8 units of 50 ticks.
const HEAD: &[u8] = b"SCALD 1;\nCLOCK 8 x 50;\n";

/// The circuit of the drawing in these pieces, and its cases.
fn drawn(rt: &(impl Abort + AllocGlobal), name: &str, pieces: &[&[u8]]) -> Drawn {
    let mut text = Bytes::new(rt.alloc());
    for piece in pieces {
        text.extend(piece).expect(rt, name);
    }
    assert!(rt; text.len() < 4096);
    read_circuit(rt.alloc(), text.as_slice()).expect(rt, name)
}

/// Whether there is a number for each net, and the classes are stable.
fn are_stable(drawn: &Drawn, classes: &ClassMap) -> bool {
    classes.len() == drawn.circuit.net_count() as usize
        && stable(&drawn.circuit, &drawn.cases, classes)
}

/// Looks at whether the classes of these numbers are stable.
fn expect_stable(
    rt: &(impl Abort + AllocGlobal),
    name: &str,
    pieces: &[&[u8]],
    numbers: &[u32],
    want: bool,
) {
    let mut classes = ClassMap::new(rt.alloc());
    for number in numbers {
        classes.push(*number).expect(rt, name);
    }
    let drawn = drawn(rt, name, pieces);
    expect_eq(rt, name, &are_stable(&drawn, &classes), &want);
}

#[test]
fn stable_classes(rt: HostRuntime) {
    for (name, second, case, numbers, want) in &GATES {
        expect_stable(&rt, name, &[HEAD, FIRST, second, END, case], numbers, *want);
    }
    for (name, drawing, numbers, want) in &BUFFERS {
        expect_stable(&rt, name, &[HEAD, drawing], numbers, *want);
    }
}

/// Looks at the classes that are made: they have these numbers, and are stable.
fn expect_made(rt: &(impl Abort + AllocGlobal), name: &str, pieces: &[&[u8]], numbers: &[u32]) {
    let drawn = drawn(rt, name, pieces);
    let made = classes(rt.alloc(), &drawn.circuit, &drawn.cases).expect(rt, name);
    expect_list(rt, name, made.as_slice(), numbers);
    expect(rt, name, are_stable(&drawn, &made));
}

#[test]
fn the_fewest_classes(rt: HostRuntime) {
    for (name, second, case, numbers) in &FEWEST {
        expect_made(&rt, name, &[HEAD, FIRST, second, END, case], numbers);
    }
    expect_made(&rt, "three sections", &[HEAD, SECTIONS], &GROUPS);
}
