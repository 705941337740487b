//! A source and a sink in memory, with calls that fail where a test needs it.

ghost use Rattle.std.specs.Prelude.{◌≡◌, ◌↔◌, ◌≤◌, ◌+◌, [], Some, IsTrue, IsErr, Contains, IfOk, OnErr, ◌++◌, length, take, drop};
ghost use Rattle.std.specs.Io.KnownBytes.{Keeps};
ghost use Rattle.scald_base.specs.Device.{CountsFaults, Gives, RoseByOne, Takes};
ghost use Rattle.scald_base.specs.Memory.{given_to, after_giving, after_failing_read, WriteFails, taken_of, after_taking, after_failing_write};

use crate::bytes::Bytes;
use crate::list::{Calls, NoMemory};
use crate::sink::Sink;
use crate::source::{Failed, Source};
use std::alloc::Global;
use std::marker::Model;

/// Bytes in memory, of which a call gives at most `piece`. Some calls fail.
#[derive(Drop, Debug)]
pub struct MemorySource {
    bytes: Bytes,
    given: usize,
    piece: u32,
    failing: Calls,
    calls: u64,
    faults: u64,
}

impl Model for MemorySource {
    ghost use Rattle.std.specs.Prelude.{◌≤◌, ◌<◌, length, drop};
    ghost use Rattle.scald_base.specs.Memory.{SourceState};

    ghost Value = { SourceState };

    ghost view = { λ s. record {
      left = drop s.given s.bytes;
      piece = s.piece;
      failing = s.failing;
      calls = s.calls;
      faults = s.faults;
    } };

    ghost invariant = { λ s. (s.given ≤ length s.bytes) × (0 < s.piece) };
}

impl MemorySource {
    /// A source of these bytes. Call n, from 0, fails if n is in `failing`. It needs no
    /// allocation.
    pub fn new(bytes: Bytes, piece: u32, failing: Calls) -> MemorySource
        requires { 1 ≤ piece }
        ensures { result ≡ record {
          left = bytes;
          piece = piece;
          failing = failing;
          calls = 0;
          faults = 0;
        } }
    {
        MemorySource {
            bytes,
            given: 0,
            piece,
            failing,
            calls: 0,
            faults: 0,
        }
    }

    /// What is left to read.
    pub fn left(&self) -> &[u8]
        ensures { result.now ≡ self.now.left }
    {
        &self.bytes.as_slice()[self.given..]
    }
}

/// Whether the call with this number is one of these.
fn is_among(calls: &Calls, call: u64) -> bool
    ensures { IsTrue result ↔ Contains calls.now call }
{
    calls.as_slice().iter().any(|c| u64::from(*c) == call)
}

impl Source for MemorySource {
    ghost left = { λ s. Some s.left };

    ghost faults = { λ s. s.faults };

    ghost rises = { RoseByOne };

    fn read(&mut self, room: &mut [u8]) -> Result<usize, Failed>
        ensures gives { IfOk result (λ n.
            Gives (Some self.old.left) (Some self.new.left) room.old room.new n) }
        ensures kept { OnErr result (Keeps (Some self.old.left) (Some self.new.left)) }
        ensures faults { CountsFaults self.old.faults self.new.faults result }
        ensures rises { OnErr result (RoseByOne self.old.faults self.new.faults) }
        ensures fails { IsErr result ↔ Contains self.old.failing self.old.calls }
        ensures count { IfOk result (λ n. n ≡ given_to self.old room.old) }
        ensures copied { IfOk result (λ n. room.new ≡ take n self.old.left ++ drop n room.old) }
        ensures after { IfOk result (λ n. self.new ≡ after_giving self.old n) }
        ensures untouched { OnErr result (room.new ≡ room.old) }
        ensures after_failure { OnErr result (self.new ≡ after_failing_read self.old) }
    {
        let call = self.calls;
        self.calls = call.saturating_add(1);
        if is_among(&self.failing, call) {
            self.faults = self.faults.saturating_add(1);
            return Err(Failed);
        }
        let left = &self.bytes.as_slice()[self.given..];
        let count = (self.piece as usize).min(room.len().min(left.len()));
        room[..count].copy_from_slice(&left[..count]);
        self.given += count;
        Ok(count)
    }
}

/// Room for bytes in memory, of which a call takes at most `piece`. Some calls fail.
#[derive(Drop, Debug)]
pub struct MemorySink {
    bytes: Vec<u8>,
    filled: usize,
    piece: u32,
    failing: Calls,
    calls: u64,
    faults: u64,
}

impl Model for MemorySink {
    ghost use Rattle.std.specs.Prelude.{◌≤◌, ◌<◌, length, take};
    ghost use Rattle.scald_base.specs.Memory.{SinkState};

    ghost Value = { SinkState };

    ghost view = { λ s. record {
      taken = take s.filled s.bytes.items;
      room = length s.bytes.items;
      piece = s.piece;
      failing = s.failing;
      calls = s.calls;
      faults = s.faults;
    } };

    ghost invariant = { λ s. (s.filled ≤ length s.bytes.items) × (0 < s.piece) };
}

impl MemorySink {
    /// An empty sink with room for so many bytes, for which it takes memory now. A call whose
    /// number, from 0, is in `failing` fails, and so does each that finds no room.
    pub fn new(alloc: Global, room: u32, piece: u32, failing: Calls) -> Result<MemorySink, NoMemory>
        requires { 1 ≤ piece }
        ensures { IfOk result (λ sink. sink ≡
            record {
              taken = [];
              room = room;
              piece = piece;
              failing = failing;
              calls = 0;
              faults = 0;
            }) }
    {
        Ok(MemorySink {
            bytes: vec![in alloc; 0; room as usize]?,
            filled: 0,
            piece,
            failing,
            calls: 0,
            faults: 0,
        })
    }

    /// What was taken.
    pub fn taken(&self) -> &[u8]
        ensures { result.now ≡ self.now.taken }
    {
        &self.bytes[..self.filled]
    }
}

impl Sink for MemorySink {
    ghost taken = { λ s. Some s.taken };

    ghost faults = { λ s. s.faults };

    ghost rises = { RoseByOne };

    fn write(&mut self, piece: &[u8]) -> Result<usize, Failed>
        ensures takes { IfOk result (λ n.
            Takes (Some self.old.taken) (Some self.new.taken) piece.now n) }
        ensures kept { OnErr result (Keeps (Some self.old.taken) (Some self.new.taken)) }
        ensures faults { CountsFaults self.old.faults self.new.faults result }
        ensures rises { OnErr result (RoseByOne self.old.faults self.new.faults) }
        ensures fails { IsErr result ↔ WriteFails self.old piece.now }
        ensures count { IfOk result (λ n. n ≡ taken_of self.old piece.now) }
        ensures after { IfOk result (λ n. self.new ≡ after_taking self.old piece.now n) }
        ensures after_failure { OnErr result (self.new ≡ after_failing_write self.old) }
    {
        let call = self.calls;
        self.calls = call.saturating_add(1);
        let free = self.bytes.len() - self.filled;
        if is_among(&self.failing, call) || !piece.is_empty() && free == 0 {
            self.faults = self.faults.saturating_add(1);
            return Err(Failed);
        }
        let count = (self.piece as usize).min(piece.len().min(free));
        self.bytes[self.filled..self.filled + count].copy_from_slice(&piece[..count]);
        self.filled += count;
        Ok(count)
    }
}
