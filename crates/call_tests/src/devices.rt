//! Verifying the first drawing over devices that fail, that fill up, and that never fail.

ghost use Rattle.std.specs.Prelude.{◌≤◌};

use crate::rows::{expect, expect_eq};
use scald_base::{Bytes, Calls, CountSink, MemorySink, MemorySource, SureSource};
use scald_tool::{Omissions, Outcome, Words, tool_main};
use std::process::Abort;

/// The first drawing, which has 106 bytes.
const FIRST: &[u8] = br#"SCALD 1;
CLOCK 8 x 50;
DRAWING ROW;
c1 : SETUP_HOLD_CHK {SETUP=20, HOLD=10} ("CK .P2-3", "D .S1-4");
END;
"#;

/// Its report, which has 157.
const FIRST_REPORT: &[u8] = b"SCALD 1 PERIOD 400
NETS 2 INSTANCES 0 CHECKS 1
CASE 0 BASE 0 ROUNDS 0 T 1
WAVE CK<0> SKEW 0 0:100 R:1 1:49 F:1 0:249
WAVE D<0> SKEW 0 C:51 S:149 C:200
CLEAN
";

/// How many bytes a device moves in a call, which of its calls fails, and how many bytes it has
/// room for.
#[derive(Clone, Copy)]
struct Device {
    piece: u32,
    failing: Option<u32>,
    room: u32,
}

const SURE: Device = Device {
    piece: 4096,
    failing: None,
    room: 4096,
};

/// How a call ends: its outcome, how many bytes are left to read, and how many are written.
type End = (Outcome, usize, usize);

/// This word alone.
pub fn one_word(rt: &(impl Abort + AllocGlobal), word: &[u8]) -> Words {
    let mut words = Words::new(rt.alloc());
    let word = Bytes::of(rt.alloc(), word).expect(rt, "a word");
    words.push(word).expect(rt, "the words");
    words
}

/// The calls of a device that fail: this one, or none.
pub fn calls_of(rt: &(impl Abort + AllocGlobal), failing: Option<u32>) -> Calls {
    let mut calls = Calls::new(rt.alloc());
    if let Some(number) = failing {
        calls.push(number).expect(rt, "the calls");
    }
    calls
}

/// The first drawing in a device.
fn source_of(rt: &(impl Abort + AllocGlobal), from: Device) -> MemorySource
    requires { 1 ≤ from.piece }
{
    let text = Bytes::of(rt.alloc(), FIRST).expect(rt, "the text");
    MemorySource::new(text, from.piece, calls_of(rt, from.failing))
}

/// A device for the report.
fn sink_of(rt: &(impl Abort + AllocGlobal), to: Device) -> MemorySink
    requires { 1 ≤ to.piece }
{
    let failing = calls_of(rt, to.failing);
    MemorySink::new(rt.alloc(), to.room, to.piece, failing).expect(rt, "the room")
}

/// The call over these devices ends so, and writes a front of the report.
fn ends(
    rt: &(impl Abort + AllocGlobal),
    name: &str,
    source: &mut MemorySource,
    sink: &mut MemorySink,
    want: End,
) {
    let outcome = tool_main(
        rt.alloc(),
        &one_word(rt, b"verify"),
        source,
        sink,
        &mut Omissions::unasked(),
    );
    let came = (outcome, source.left().len(), sink.taken().len());
    expect_eq(rt, name, &came, &want);
    expect(rt, name, FIRST_REPORT.starts_with(sink.taken()));
}

/// A drawing of 106 bytes is six pieces of 16 and a shorter one, and the eighth call finds the end.
#[test]
fn reads_that_fail(rt: HostRuntime) {
    for call in 0..8 {
        let from = Device {
            piece: 16,
            failing: Some(call),
            room: 0,
        };
        let left = 106_usize.saturating_sub(16 * call as usize);
        let end = (Outcome::ReadFault, left, 0);
        ends(
            &rt,
            "a read fails",
            &mut source_of(&rt, from),
            &mut sink_of(&rt, SURE),
            end,
        );
    }
}

#[test]
fn writes_that_fail(rt: HostRuntime) {
    for call in 0..5 {
        let to = Device {
            piece: 32,
            failing: Some(call),
            room: 4096,
        };
        let end = (Outcome::WriteFault, 0, 32 * call as usize);
        ends(
            &rt,
            "a write fails",
            &mut source_of(&rt, SURE),
            &mut sink_of(&rt, to),
            end,
        );
    }
}

/// Into room that is enough, and into too little.
#[test]
fn a_sink_with_room(rt: HostRuntime) {
    for (room, outcome, taken) in [(4096, Outcome::Clean, 157), (100, Outcome::WriteFault, 100)] {
        let to = Device {
            piece: 32,
            failing: None,
            room,
        };
        let end = (outcome, 0, taken);
        ends(
            &rt,
            "room",
            &mut source_of(&rt, SURE),
            &mut sink_of(&rt, to),
            end,
        );
    }
}

#[test]
fn devices_that_never_fail(rt: HostRuntime) {
    let text = Bytes::of(rt.alloc(), FIRST).expect(&rt, "the text");
    let mut source = SureSource::new(text);
    let mut sink = CountSink::new();
    let outcome = tool_main(
        rt.alloc(),
        &one_word(&rt, b"verify"),
        &mut source,
        &mut sink,
        &mut Omissions::unasked(),
    );
    let came = (outcome, source.left().len(), sink.length());
    expect_eq(&rt, "no failure", &came, &(Outcome::Clean, 0, 157));
}
