//! Whole transfers over devices in memory and over the standard library's.

use crate::rows::{expect_eq, expect_list};
use scald_base::{
    Bytes, Calls, CountSink, List, MemorySink, MemorySource, ReadEnd, StdSink, StdSource,
    SureSource, WriteFault, read_all, write_all,
};
use std::process::Abort;

const TEXT: &[u8] = b"abcdefghijklmnopqrstuvwxyz";

/// Looks at what came of reading.
fn expect_bytes(
    rt: &impl Abort,
    name: &str,
    came: Result<Bytes, ReadEnd>,
    want: Result<&[u8], ReadEnd>,
) {
    match came {
        Ok(bytes) => expect_eq(rt, name, &Ok(bytes.as_slice()), &want),
        Err(end) => expect_eq(rt, name, &Err(end), &want),
    }
}

/// These calls.
fn calls_of(rt: &(impl Abort + AllocGlobal), calls: &[u32]) -> Calls {
    let mut list = List::new(rt.alloc());
    for call in calls {
        list.push(*call).expect(rt, "the calls");
    }
    list
}

/// The text.
fn text(rt: &(impl Abort + AllocGlobal)) -> Bytes {
    Bytes::of(rt.alloc(), TEXT).expect(rt, "the text")
}

/// The name of a row, how many bytes a call gives, which calls fail, how many bytes may come, what
/// comes of reading them all, and what is left.
type ReadRow = (
    &'static str,
    u16,
    &'static [u32],
    u16,
    Result<&'static [u8], ReadEnd>,
    &'static [u8],
);

const ALL: Result<&[u8], ReadEnd> = Ok(TEXT);

const LONG: Result<&[u8], ReadEnd> = Err(ReadEnd::TooLong);

const FAULT: Result<&[u8], ReadEnd> = Err(ReadEnd::ReadFault);

const READS: [ReadRow; 9] = [
    ("in one call", 4096, &[], 100, ALL, b""),
    ("a byte a call", 1, &[], 100, ALL, b""),
    ("in pieces of 16", 16, &[], 100, ALL, b""),
    ("the limit is met", 7, &[], 26, ALL, b""),
    ("one past the limit", 7, &[], 25, LONG, b""),
    ("far past it", 4096, &[], 9, LONG, b"klmnopqrstuvwxyz"),
    ("the first call fails", 4096, &[0], 100, FAULT, TEXT),
    ("the third fails", 8, &[7, 2], 100, FAULT, b"qrstuvwxyz"),
    ("at the end", 26, &[1], 100, FAULT, b""),
];

/// Reads the text as a row says.
fn is_read(rt: &(impl Abort + AllocGlobal), (name, piece, failing, limit, want, left): ReadRow) {
    let piece = u32::from(piece).max(1);
    let mut source = MemorySource::new(text(rt), piece, calls_of(rt, failing));
    let came = read_all(rt.alloc(), &mut source, u32::from(limit));
    expect_bytes(rt, name, came, want);
    expect_list(rt, name, source.left(), left);
}

#[test]
fn reads(rt: HostRuntime) {
    for row in &READS {
        is_read(&rt, *row);
    }
}

/// The name of a row, how much room there is, how many bytes a call takes, which calls fail, what
/// comes of writing ten bytes, and what is taken.
type WriteRow = (
    &'static str,
    u16,
    u16,
    &'static [u32],
    Result<(), WriteFault>,
    &'static [u8],
);

const FULL: Result<(), WriteFault> = Err(WriteFault);

const WRITES: [WriteRow; 5] = [
    ("in one call", 10, 100, &[], Ok(()), b"abcdefghij"),
    ("a byte a call", 30, 1, &[], Ok(()), b"abcdefghij"),
    ("room for nine", 9, 4, &[], FULL, b"abcdefghi"),
    ("no room", 0, 4, &[], FULL, b""),
    ("the second call fails", 30, 4, &[1], FULL, b"abcd"),
];

/// Writes ten bytes as a row says.
fn is_written(
    rt: &(impl Abort + AllocGlobal),
    (name, room, piece, failing, want, taken): WriteRow,
) {
    let failing = calls_of(rt, failing);
    let piece = u32::from(piece).max(1);
    let mut sink = MemorySink::new(rt.alloc(), u32::from(room), piece, failing).expect(rt, name);
    let came = write_all(&mut sink, b"abcdefghij");
    expect_eq(rt, name, &came, &want);
    expect_list(rt, name, sink.taken(), taken);
}

#[test]
fn writes(rt: HostRuntime) {
    for row in &WRITES {
        is_written(&rt, *row);
    }
}

#[test]
fn reads_a_standard_reader(rt: HostRuntime) {
    let mut source = StdSource::new(TEXT);
    let came = read_all(rt.alloc(), &mut source, 26);
    expect_bytes(&rt, "up to its end", came, Ok(TEXT));
}

#[test]
fn writes_to_a_standard_writer(rt: HostRuntime) {
    let mut out = Vec::new(rt.alloc());
    let mut sink = StdSink::new(&mut out);
    let came = write_all(&mut sink, TEXT);
    expect_eq(&rt, "the outcome", &came, &Ok(()));
    expect_list(&rt, "what is written", out.as_slice(), TEXT);
}

#[test]
fn reads_a_sure_source(rt: HostRuntime) {
    let mut source = SureSource::new(text(&rt));
    let came = read_all(rt.alloc(), &mut source, 26);
    expect_bytes(&rt, "up to its end", came, Ok(TEXT));
    expect_list(&rt, "nothing is left", source.left(), b"");
}

#[test]
fn counts_what_is_written(rt: HostRuntime) {
    let mut sink = CountSink::new();
    let came = (write_all(&mut sink, TEXT), write_all(&mut sink, b"abc"));
    expect_eq(&rt, "the outcomes", &came, &(Ok(()), Ok(())));
    expect_eq(&rt, "the bytes", &sink.length(), &29);
}
