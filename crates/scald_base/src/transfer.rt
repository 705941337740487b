//! Whole texts, from a source and to a sink.

ghost use Rattle.std.specs.Prelude.{◌≡◌, ◌-◌, ◌^◌, ◌<◌, ◌≤◌, IfOk, OnOk, OnErr, IsErrOf};
ghost use Rattle.std.specs.Io.KnownBytes.{Appends};
ghost use Rattle.scald_base.specs.Device.{Rose, CountsFaults, ReadsAll, ReadsFront, ReadsPast, TakesFront};

use crate::bytes::Bytes;
use crate::list::NoMemory;
use crate::sink::Sink;
use crate::source::{Failed, Source};
use std::alloc::Global;

/// Why a text was not read.
#[derive(Clone, Copy, PartialEq, Eq, Debug)]
pub enum ReadEnd {
    /// It is longer than the limit.
    TooLong,
    /// A read failed.
    ReadFault,
    /// Memory ran out.
    NoMemory,
}

impl From<NoMemory> for ReadEnd {
    ghost use Rattle.scald_base.specs.declared.transfer.ReadEnd.TheVariants.{NoMemory as OutOfMemory};

    ghost from_gives = { λ _ e. e ≡ OutOfMemory };

    fn from(_e: NoMemory) -> ReadEnd {
        ReadEnd::NoMemory
    }
}

impl From<Failed> for ReadEnd {
    ghost use Rattle.scald_base.specs.declared.transfer.ReadEnd.TheVariants.{ReadFault as OfTheDevice};

    ghost from_gives = { λ _ e. e ≡ OfTheDevice };

    fn from(_e: Failed) -> ReadEnd {
        ReadEnd::ReadFault
    }
}

/// A write failed.
#[derive(Clone, Copy, PartialEq, Eq, Debug)]
pub struct WriteFault;

impl From<Failed> for WriteFault {
    fn from(_e: Failed) -> WriteFault {
        WriteFault
    }
}

/// How many bytes one read asks for at most.
const ROOM: usize = 4096;

/// Reads to the end of input. It answers `TooLong` if more than `limit` bytes come, and reads
/// only one past them; `ReadFault` at the first read that fails, after which it reads no more; and
/// `NoMemory`. What is said of bytes is proved if the source tells them.
pub fn read_all<S: Source>(alloc: Global, source: &mut S, limit: u32) -> Result<Bytes, ReadEnd>
    requires { limit < 2 ^ 32 - 1 }
    ensures ok { IfOk result (λ bytes.
        ReadsAll (S.left source.old) (S.left source.new) limit bytes) }
    ensures too_long { IsErrOf result ReadEnd.TooLong →
        ReadsPast (S.left source.old) (S.left source.new) limit }
    ensures err { OnErr result (ReadsFront (S.left source.old) (S.left source.new) limit) }
    ensures fault { IsErrOf result ReadEnd.ReadFault →
        Rose (S.faults source.old) (S.faults source.new) }
    ensures steady { ¬ IsErrOf result ReadEnd.ReadFault →
        S.faults source.new ≡ S.faults source.old }
    ensures once { IsErrOf result ReadEnd.ReadFault →
        S.rises (S.faults source.old) (S.faults source.new) }
    ensures later { S.faults source.old ≤ S.faults source.new }
{
    let past = limit as usize + 1;
    let mut all = Bytes::new(alloc);
    let mut room = [0; ROOM];
    'more: loop {
        let missing = past - all.len();
        let asked = missing.min(ROOM);
        let count = source.read(&mut room[..asked])?;
        if count == 0 {
            return Ok(all);
        }
        if count == missing {
            return Err(ReadEnd::TooLong);
        }
        all.extend(&room[..count])?;
    }
}

/// Writes all bytes. It answers `WriteFault` at the first write that fails, after which it writes
/// no more: if the sink tells its bytes, it took a front of these, and not all.
pub fn write_all<K: Sink>(sink: &mut K, bytes: &[u8]) -> Result<(), WriteFault>
    ensures ok { OnOk result (Appends (K.taken sink.old) (K.taken sink.new) bytes.now) }
    ensures err { OnErr result (TakesFront (K.taken sink.old) (K.taken sink.new) bytes.now) }
    ensures faults { CountsFaults (K.faults sink.old) (K.faults sink.new) result }
    ensures once { OnErr result (K.rises (K.faults sink.old) (K.faults sink.new)) }
{
    let mut written = 0;
    'more: while written < bytes.len() {
        written += sink.write(&bytes[written..])?;
    }
    Ok(())
}
