//! Sources and sinks over a standard reader and writer that do at each call what a row says.
//!
//! A source asks its reader once a call, and a sink its writer: for pieces and rooms of all sizes a
//! row says what comes of it, and what the stream was asked for.

use crate::rows::{expect, expect_eq, expect_of};
use scald_base::{
    Bytes, Failed, ReadEnd, Sink, Source, StdSink, StdSource, WriteFault, read_all, write_all,
};
use std::io::{Error, ErrorKind, Read, Result as IoResult, Write};
use std::process::Abort;

/// The sizes of rooms and pieces: none, few, about sixteen, and about where a read or a pipe ends.
const SIZES: [usize; 12] = [
    0, 1, 2, 15, 16, 17, 4095, 4096, 4097, 65_535, 65_536, 65_537,
];

/// A reader or a writer with a script, of which each byte says what comes of one call: a digit that
/// it moves so many bytes at most, `!` that it is interrupted, `?` that it is full, and `*` that it
/// moves a piece. After its script it moves a piece at each call.
#[derive(Drop)]
struct Stream<'s, 't> {
    script: &'s [u8],
    piece: usize,
    /// What is left to be read, or is to be written.
    left: &'t [u8],
    /// Each piece was as long as what was left to be written, and what was taken was of it.
    is_whole: bool,
    calls: usize,
    /// How much the first calls asked for, and then 0.
    asked: [usize; 5],
}

impl<'s, 't> Stream<'s, 't> {
    fn new(script: &'s [u8], piece: usize, left: &'t [u8]) -> Stream<'s, 't> {
        Stream {
            script,
            piece,
            left,
            is_whole: true,
            calls: 0,
            asked: [0; 5],
        }
    }

    /// Counts a call that asks for so much, and says how many bytes it moves at most.
    fn call(&mut self, asked: usize) -> IoResult<usize> {
        let sign = self.script.get(self.calls).copied().unwrap_or(b'*');
        if let Some(place) = self.asked.get_mut(self.calls) {
            *place = asked;
        }
        self.calls = self.calls.saturating_add(1);
        match sign {
            b'!' => Err(Error::from(ErrorKind::Interrupted)),
            b'?' => Err(Error::from(ErrorKind::StorageFull)),
            b'*' => Ok(self.piece.min(asked).min(self.left.len())),
            digit => {
                let most = usize::from(digit.saturating_sub(b'0'));
                Ok(most.min(asked).min(self.left.len()))
            }
        }
    }
}

impl Read for Stream<'_, '_> {
    /// The byte after those that it gives is changed too, as a standard reader may do.
    fn read(&mut self, buf: &mut [u8]) -> IoResult<usize> {
        let count = self.call(buf.len())?.min(buf.len()).min(self.left.len());
        buf[..count].copy_from_slice(&self.left[..count]);
        if let Some(next) = buf.get_mut(count) {
            *next = b'#';
        }
        self.left = &self.left[count..];
        Ok(count)
    }
}

impl Write for Stream<'_, '_> {
    fn write(&mut self, buf: &[u8]) -> IoResult<usize> {
        self.is_whole = self.is_whole && buf.len() == self.left.len();
        let count = self.call(buf.len())?.min(buf.len()).min(self.left.len());
        self.is_whole = self.is_whole && buf[..count] == self.left[..count];
        self.left = &self.left[count..];
        Ok(count)
    }

    fn flush(&mut self) -> IoResult<()> {
        Ok(())
    }
}

/// So many bytes, of which neighbours differ.
fn text_of(rt: &(impl Abort + AllocGlobal), length: usize) -> Vec<u8> {
    let mut text = Vec::new(rt.alloc());
    for number in 0..length {
        text.push((number % 251) as u8).expect(rt, "the text");
    }
    text
}

/// One call of a source, whose reader does this at its first call and gives all at the next.
fn read_once(
    rt: &(impl Abort + AllocGlobal),
    text: &[u8],
    size: usize,
    script: &[u8],
    want: Result<usize, Failed>,
) {
    let mut room = vec![in rt.alloc(); b'.'; size].expect(rt, "the room");
    let mut reader = Stream::new(script, usize::MAX, text);
    let came = StdSource::new(&mut reader).read(&mut room);
    let made = (came, reader.calls, reader.asked[0]);
    expect_of(rt, "a room of", &size, &made, &(want, 1, size.min(4096)));
    let count = want.unwrap_or(0);
    let is_front = room.get(..count) == text.get(..count);
    expect_of(rt, "the bytes in a room of", &size, &is_front, &true);
    let mut rest = room.iter().skip(count);
    let is_kept = rest.all(|byte| *byte == b'.');
    expect_of(rt, "the rest of a room of", &size, &is_kept, &true);
}

/// Rooms of one size.
fn read_sizes(rt: &(impl Abort + AllocGlobal), text: &[u8], size: usize) {
    read_once(rt, text, size, b"*", Ok(size.min(4096)));
    read_once(rt, text, size, b"1", Ok(size.min(1)));
    read_once(rt, text, size, b"0", Ok(0));
    read_once(rt, text, size, b"!", Err(Failed))
}

#[test]
fn each_read_asks_the_reader_once(rt: HostRuntime) {
    let text = text_of(&rt, 65_537);
    for size in &SIZES {
        read_sizes(&rt, &text, *size);
    }
}

/// One call of a sink, whose writer does this at its first call and takes all at the next.
fn write_once(rt: &impl Abort, text: &[u8], script: &[u8], want: Result<usize, Failed>) {
    let size = text.len();
    let mut writer = Stream::new(script, usize::MAX, text);
    let came = StdSink::new(&mut writer).write(text);
    let left = size.saturating_sub(want.unwrap_or(0));
    let made = (came, writer.calls, writer.asked[0], writer.left.len());
    expect_of(rt, "a piece of", &size, &made, &(want, 1, size, left));
    expect_of(
        rt,
        "the bytes of a piece of",
        &size,
        &writer.is_whole,
        &true,
    );
}

/// Pieces of one size.
fn write_sizes(rt: &(impl Abort + AllocGlobal), size: usize) {
    let text = text_of(&rt, size);
    write_once(rt, &text, b"*", Ok(size));
    write_once(rt, &text, b"1", Ok(size.min(1)));
    // Of some bytes a writer takes one at least.
    let none = if size == 0 { Ok(0) } else { Err(Failed) };
    write_once(rt, &text, b"0", none);
    write_once(rt, &text, b"!", Err(Failed));
}

#[test]
fn each_write_asks_the_writer_once(rt: HostRuntime) {
    for size in &SIZES {
        write_sizes(&rt, *size);
    }
}

/// What comes of three calls.
type Three = [Result<usize, Failed>; 3];

const NO: Result<usize, Failed> = Err(Failed);

/// What a stream does at three calls, and what comes of three reads and of three writes.
type CallRow = (&'static str, Three, Three);

const CALLS: [CallRow; 6] = [
    ("!33", [NO, Ok(3), Ok(3)], [NO, Ok(3), Ok(3)]),
    ("?!3", [NO, NO, Ok(3)], [NO, NO, Ok(3)]),
    ("3?5", [Ok(3), NO, Ok(5)], [Ok(3), NO, Ok(5)]),
    ("38?", [Ok(3), Ok(8), NO], [Ok(3), Ok(8), NO]),
    ("030", [Ok(0), Ok(3), Ok(0)], [NO, Ok(3), NO]),
    ("003", [Ok(0), Ok(0), Ok(3)], [NO, NO, Ok(3)]),
];

/// Three reads from one source.
fn read_thrice(source: &mut impl Source) -> Three {
    let mut room = [0; 8];
    [
        source.read(&mut room),
        source.read(&mut room),
        source.read(&mut room),
    ]
}

/// Three writes to one sink.
fn write_thrice(sink: &mut impl Sink) -> Three {
    let text = b"12345678";
    [sink.write(text), sink.write(text), sink.write(text)]
}

/// Looks at the calls of a row.
fn has_calls(rt: &impl Abort, text: &[u8], (script, reads, writes): CallRow) {
    let mut reader = Stream::new(script.as_bytes(), 0, text);
    expect_eq(
        rt,
        script,
        &read_thrice(&mut StdSource::new(&mut reader)),
        &reads,
    );
    let mut writer = Stream::new(script.as_bytes(), 0, text);
    expect_eq(
        rt,
        script,
        &write_thrice(&mut StdSink::new(&mut writer)),
        &writes,
    );
    expect_eq(rt, script, &(reader.calls, writer.calls), &(3, 3));
}

#[test]
fn each_call_goes_by_itself(rt: HostRuntime) {
    let text = text_of(&rt, 100);
    for row in &CALLS {
        has_calls(&rt, &text, *row);
    }
}

/// How many calls there were of which the table says for how much they asked.
fn calls_of(asked: [usize; 5]) -> usize {
    asked.iter().filter(|size| **size > 0).count()
}

const FAULT: Result<usize, ReadEnd> = Err(ReadEnd::ReadFault);

const LONG: Result<usize, ReadEnd> = Err(ReadEnd::TooLong);

/// Of nine bytes: the name of a row, the script, the limit, how many are read or why none, for how
/// much each call asks, and how many are left.
type ReadRow = (
    &'static str,
    &'static str,
    u16,
    Result<usize, ReadEnd>,
    [usize; 5],
    usize,
);

const READS: [ReadRow; 12] = [
    ("at once", "", 50, Ok(9), [51, 42, 0, 0, 0], 0),
    ("in pieces", "125", 50, Ok(9), [51, 50, 48, 43, 42], 0),
    ("failed at first", "!", 50, FAULT, [51, 0, 0, 0, 0], 9),
    ("failed within", "3!", 50, FAULT, [51, 48, 0, 0, 0], 6),
    ("failed at the end", "9?", 50, FAULT, [51, 42, 0, 0, 0], 0),
    ("none at first", "0", 50, Ok(0), [51, 0, 0, 0, 0], 9),
    ("none within", "30", 50, Ok(3), [51, 48, 0, 0, 0], 6),
    ("at the limit", "", 9, Ok(9), [10, 1, 0, 0, 0], 0),
    ("one past it", "", 8, LONG, [9, 0, 0, 0, 0], 0),
    ("far past it", "", 3, LONG, [4, 0, 0, 0, 0], 5),
    ("past it at last", "3", 3, LONG, [4, 1, 0, 0, 0], 5),
    ("failed at the limit", "8!", 8, FAULT, [9, 1, 0, 0, 0], 1),
];

/// Looks at the front of a text that was read.
fn expect_front(
    rt: &impl Abort,
    name: &str,
    text: &[u8],
    came: Result<Bytes, ReadEnd>,
    want: Result<usize, ReadEnd>,
) {
    match came {
        Ok(bytes) => {
            expect_eq(rt, name, &Ok(bytes.len()), &want);
            expect(rt, name, text.starts_with(bytes.as_slice()));
        }
        Err(end) => expect_eq(rt, name, &Err(end), &want),
    }
}

/// Reads the text as a row says.
fn is_read(
    rt: &(impl Abort + AllocGlobal),
    text: &[u8],
    (name, script, limit, want, asked, left): ReadRow,
) {
    let mut reader = Stream::new(script.as_bytes(), usize::MAX, text);
    let came = read_all(
        rt.alloc(),
        &mut StdSource::new(&mut reader),
        u32::from(limit),
    );
    expect_front(rt, name, text, came, want);
    let made = (reader.asked, reader.calls, reader.left.len());
    expect_eq(rt, name, &made, &(asked, calls_of(asked), left));
}

#[test]
fn whole_texts_are_read_to_the_first_end(rt: HostRuntime) {
    let text = text_of(&rt, 9);
    for row in &READS {
        is_read(&rt, &text, *row);
    }
}

const FULL: Result<(), WriteFault> = Err(WriteFault);

/// The name of a row, how many bytes there are, the script, what comes of writing them, for how
/// much each call asks, and how many are left.
type WriteRow = (
    &'static str,
    usize,
    &'static str,
    Result<(), WriteFault>,
    [usize; 5],
    usize,
);

const WRITES: [WriteRow; 8] = [
    ("at once", 9, "", Ok(()), [9, 0, 0, 0, 0], 0),
    ("in pieces", 9, "123", Ok(()), [9, 8, 6, 3, 0], 0),
    ("failed at first", 9, "!", FULL, [9, 0, 0, 0, 0], 9),
    ("failed within", 9, "3!", FULL, [9, 6, 0, 0, 0], 6),
    ("failed at last", 9, "8?", FULL, [9, 1, 0, 0, 0], 1),
    ("none at first", 9, "0", FULL, [9, 0, 0, 0, 0], 9),
    ("none within", 9, "30", FULL, [9, 6, 0, 0, 0], 6),
    ("nothing to write", 0, "!!", Ok(()), [0, 0, 0, 0, 0], 0),
];

/// Writes the text of a row.
fn is_written(
    rt: &(impl Abort + AllocGlobal),
    (name, length, script, want, asked, left): WriteRow,
) {
    let text = text_of(&rt, length);
    let mut writer = Stream::new(script.as_bytes(), usize::MAX, &text);
    let came = write_all(&mut StdSink::new(&mut writer), &text);
    expect_eq(rt, name, &came, &want);
    expect(rt, name, writer.is_whole);
    let made = (writer.asked, writer.calls, writer.left.len());
    expect_eq(rt, name, &made, &(asked, calls_of(asked), left));
}

#[test]
fn whole_texts_are_written_to_the_first_failure(rt: HostRuntime) {
    for row in &WRITES {
        is_written(&rt, *row);
    }
}

/// How many bytes a stream moves in a call at most, and how many calls move 65,537 bytes: reads, of
/// up to 4,096 bytes and with the one that finds the end, and writes.
const PIECES: [(usize, usize, usize); 11] = [
    (1, 65_538, 65_537),
    (2, 32_770, 32_769),
    (15, 4_371, 4_370),
    (16, 4_098, 4_097),
    (17, 3_857, 3_856),
    (4_095, 18, 17),
    (4_096, 18, 17),
    (4_097, 18, 16),
    (65_535, 18, 2),
    (65_536, 18, 2),
    (65_537, 18, 1),
];

/// Moves the text in pieces of this size.
fn is_moved(
    rt: &(impl Abort + AllocGlobal),
    text: &[u8],
    (piece, reads, writes): (usize, usize, usize),
) {
    let mut reader = Stream::new(b"", piece, text);
    let came = read_all(rt.alloc(), &mut StdSource::new(&mut reader), 100_000);
    expect_front(rt, "the whole", text, came, Ok(65_537));
    let mut writer = Stream::new(b"", piece, text);
    let came = write_all(&mut StdSink::new(&mut writer), text);
    let made = (came, reader.calls, writer.calls, writer.left.len());
    expect_of(rt, "pieces of", &piece, &made, &(Ok(()), reads, writes, 0));
    expect_of(
        rt,
        "the bytes in pieces of",
        &piece,
        &writer.is_whole,
        &true,
    );
}

#[test]
fn pieces_of_all_sizes_make_the_whole(rt: HostRuntime) {
    let text = text_of(&rt, 65_537);
    for row in &PIECES {
        is_moved(&rt, &text, *row);
    }
}
