//! Sources and sinks over the standard library's readers and writers.

ghost use Rattle.std.specs.Prelude.{◌≡◌};
ghost use Rattle.scald_base.specs.Device.{RoseByOne};

use crate::sink::Sink;
use crate::source::{Failed, Source};
use std::io::{Read, Write};

/// How many bytes one read of a standard reader asks for at most.
const ROOM: usize = 4096;

/// A source over a standard reader. Each call asks the reader once, for 4,096 bytes at most. Each
/// error of the reader is a failure, an interruption too, and the next call asks it again.
#[derive(Drop)]
pub struct StdSource<R: Read> {
    reader: R,
    faults: u64,
}

impl<R: Read> StdSource<R> {
    /// A source of what the reader has left.
    pub fn new(reader: R) -> StdSource<R>
        ensures reader { result.reader ≡ reader }
        ensures faults { result.faults ≡ 0 }
    {
        StdSource { reader, faults: 0 }
    }
}

impl<R: Read> Source for StdSource<R> {
    ghost left = { λ s. R.remaining s.reader };

    ghost faults = { λ s. s.faults };

    ghost rises = { RoseByOne };

    // A standard reader may change the rest of its room, after what it reads, so it gets another.
    fn read(&mut self, room: &mut [u8]) -> Result<usize, Failed> {
        let mut own = [0; ROOM];
        let asked = room.len().min(ROOM);
        match self.reader.read(&mut own[..asked]) {
            Ok(count) => {
                room[..count].copy_from_slice(&own[..count]);
                Ok(count)
            }
            Err(_) => {
                self.faults = self.faults.saturating_add(1);
                Err(Failed)
            }
        }
    }
}

/// A sink over a standard writer. Each call asks the writer once, for the whole piece. Each error
/// of the writer is a failure, and so is a write that takes none of some bytes; the next call asks
/// it again.
#[derive(Drop)]
pub struct StdSink<W: Write> {
    writer: W,
    faults: u64,
}

impl<W: Write> StdSink<W> {
    /// A sink to the writer.
    pub fn new(writer: W) -> StdSink<W>
        ensures writer { result.writer ≡ writer }
        ensures faults { result.faults ≡ 0 }
    {
        StdSink { writer, faults: 0 }
    }
}

impl<W: Write> Sink for StdSink<W> {
    ghost taken = { λ s. W.contents s.writer };

    ghost faults = { λ s. s.faults };

    ghost rises = { RoseByOne };

    fn write(&mut self, piece: &[u8]) -> Result<usize, Failed> {
        match self.writer.write(piece) {
            Ok(count) if count > 0 || piece.is_empty() => Ok(count),
            _ => {
                self.faults = self.faults.saturating_add(1);
                Err(Failed)
            }
        }
    }
}
