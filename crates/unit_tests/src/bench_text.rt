//! Drawings of 1, 3 and 200 sections, whose lengths, first lines and last lines were worked out
//! from the format.

use crate::rows::{expect, expect_eq};
use design_gen::generate;
use std::process::Abort;

const FIRST: &[u8] = b"SCALD 1;\n\
    CLOCK 8 x 50;\n\
    WIRE 0:2;\n\
    DRAWING BENCH;\n\
    g1 : CHG [20:60] (\"Q0 .S4-3\"<0:7>) -> (\"D1\"<0:7>);\n";

/// The name of a row, the sections, the length of the drawing, and its last lines.
type Row = (&'static str, u16, usize, &'static [u8]);

const DRAWINGS: [Row; 3] = [
    (
        "one section",
        1,
        224,
        b"\nr1 : REG [5:10] (\"CK .P2-3\", \"D1\"<0:7>) -> (\"Q1\"<0:7>);\nEND;\n",
    ),
    (
        "three sections",
        3,
        554,
        b"\nr3 : REG [5:10] (\"CK .P2-3\", \"D3\"<0:7>) -> (\"Q3\"<0:7>);\nEND;\n",
    ),
    (
        "the most sections",
        200,
        35_393,
        b"\nr200 : REG [5:10] (\"CK .P2-3\", \"D200\"<0:7>) -> (\"Q200\"<0:7>);\nEND;\n",
    ),
];

/// Looks at the drawing of a row.
fn is_drawn(rt: &(impl Abort + AllocGlobal), (name, sections, length, last): Row) {
    let drawing = generate(rt.alloc(), sections).expect(rt, name);
    let text = drawing.as_slice();
    expect_eq(rt, name, &text.len(), &length);
    expect(rt, name, text.starts_with(FIRST));
    expect(rt, name, text.ends_with(last));
}

#[test]
fn sizes(rt: HostRuntime) {
    for row in &DRAWINGS {
        is_drawn(&rt, *row);
    }
}
