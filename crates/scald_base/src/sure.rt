//! A source and a sink that never fail.

ghost use Rattle.std.specs.Prelude.{◌≡◌, ◌+◌, ◌-◌, ◌^◌, IfOk, OnErr, IsOk, Some, None, length, min, drop};
ghost use Rattle.std.specs.Io.KnownBytes.{Keeps};
ghost use Rattle.scald_base.specs.Device.{CountsFaults, Gives, Takes};

use crate::bytes::Bytes;
use crate::sink::Sink;
use crate::source::{Failed, Source};
use std::marker::Model;

/// Bytes in memory, of which a call gives as many as it has room for. No call fails.
#[derive(Drop, Debug)]
pub struct SureSource {
    bytes: Bytes,
    given: usize,
}

impl Model for SureSource {
    ghost use Rattle.std.specs.Prelude.{◌≤◌, ℕ, List, length, drop};

    ghost Value = { List ℕ };

    ghost view = { λ s. drop s.given s.bytes };

    ghost invariant = { λ s. s.given ≤ length s.bytes };
}

impl SureSource {
    /// A source of these bytes. It needs no allocation.
    pub fn new(bytes: Bytes) -> SureSource
        ensures { result ≡ bytes }
    {
        SureSource { bytes, given: 0 }
    }

    /// What is left to read.
    pub fn left(&self) -> &[u8]
        ensures { result.now ≡ self.now }
    {
        &self.bytes.as_slice()[self.given..]
    }
}

impl Source for SureSource {
    ghost left = { λ s. Some s };

    ghost faults = { λ s. 0 };

    fn read(&mut self, room: &mut [u8]) -> Result<usize, Failed>
        ensures gives { IfOk result (λ n.
            Gives (Some self.old) (Some self.new) room.old room.new n) }
        ensures kept { OnErr result (Keeps (Some self.old) (Some self.new)) }
        ensures faults { CountsFaults 0 0 result }
        ensures never_fails { IsOk result }
        ensures count { IfOk result (λ n. n ≡ min (length room.old) (length self.old)) }
    {
        let left = &self.bytes.as_slice()[self.given..];
        let count = room.len().min(left.len());
        room[..count].copy_from_slice(&left[..count]);
        self.given += count;
        Ok(count)
    }
}

/// A sink that takes every byte and keeps only how many there were. No call fails.
#[derive(Drop, Debug)]
pub struct CountSink {
    length: u64,
}

impl Model for CountSink {
    ghost use Rattle.std.specs.Prelude.{ℕ};

    ghost Value = { ℕ };

    ghost view = { λ s. s.length };
}

impl CountSink {
    /// A sink that took nothing yet. It needs no allocation.
    pub fn new() -> CountSink
        ensures { result ≡ 0 }
    {
        CountSink { length: 0 }
    }

    /// How many bytes were taken, as far as 64 bits count: it stops at their greatest number.
    pub fn length(&self) -> u64
        ensures { result ≡ self.now }
    {
        self.length
    }
}

impl Sink for CountSink {
    ghost taken = { λ s. None };

    ghost faults = { λ s. 0 };

    fn write(&mut self, piece: &[u8]) -> Result<usize, Failed>
        ensures takes { IfOk result (λ n.
            Takes None None piece.now n) }
        ensures kept { OnErr result (Keeps None None) }
        ensures faults { CountsFaults 0 0 result }
        ensures never_fails { IsOk result }
        ensures all { IfOk result (λ n. n ≡ length piece.now) }
        ensures counted { self.new ≡ min (self.old + length piece.now) (2 ^ 64 - 1) }
    {
        self.length = self.length.saturating_add(piece.len() as u64);
        Ok(piece.len())
    }
}
