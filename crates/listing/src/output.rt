//! The bytes of an answer.

ghost use Rattle.std.specs.Prelude.{◌≡◌, ◌++◌, IfOk, OnOk, OnErr};
ghost use Rattle.std.specs.Io.KnownBytes.{Appends};
ghost use Rattle.scald_base.specs.Device.{CountsFaults, TakesFront};
ghost use Rattle.listing.specs.Output.{part_of, text_of};

use scald_base::{Bytes, List, NoMemory, Sink, WriteFault, write_all};
use std::alloc::Global;
use std::marker::Model;

/// A part of some bytes: those from a place on, counted from 0, up to another.
#[derive(Clone, Copy, PartialEq, Eq, Debug)]
pub struct Part {
    pub from: usize,
    pub to: usize,
}

/// Parts, one after another.
pub type Parts = List<Part>;

/// How the bytes of an answer are kept.
#[derive(Drop, Debug)]
pub(crate) enum Form {
    /// As they are.
    Whole(Bytes),
    /// As parts of some bytes, so that what comes again is kept once.
    Parts(Bytes, Parts),
}

/// The bytes of an answer, which contracts see as the list of them.
#[derive(Drop, Debug)]
pub struct Output {
    form: Form,
}

impl Model for Output {
    ghost use Rattle.std.specs.Prelude.{List, ℕ};
    ghost use Rattle.listing.specs.Output.{bytes_in};

    ghost Value = { List ℕ };

    ghost view = { λ o. bytes_in o.form };
}

/// A part of these bytes, as far as they have it.
fn part_of(kept: &[u8], part: Part) -> &[u8]
    ensures { result.now ≡ part_of kept.now part }
{
    let behind = &kept[part.from.min(kept.len())..];
    let count = part.to.saturating_sub(part.from).min(behind.len());
    &behind[..count]
}

/// Writes parts of some bytes, as `write_all` would write all of them.
fn write_parts<K: Sink>(sink: &mut K, kept: &[u8], parts: &[Part]) -> Result<(), WriteFault>
    ensures ok { OnOk result
        (Appends (K.taken sink.old) (K.taken sink.new) (text_of kept.now parts.now)) }
    ensures err { OnErr result
        (TakesFront (K.taken sink.old) (K.taken sink.new) (text_of kept.now parts.now)) }
    ensures faults { CountsFaults (K.faults sink.old) (K.faults sink.new) result }
    ensures once { OnErr result (K.rises (K.faults sink.old) (K.faults sink.new)) }
{
    'parts: for part in parts {
        write_all(sink, part_of(kept, *part))?;
    }
    Ok(())
}

/// Puts parts of some bytes at the end of others.
fn add_parts(out: &mut Bytes, kept: &[u8], parts: &[Part]) -> Result<(), NoMemory>
    ensures { OnOk result (out.new ≡ out.old ++ text_of kept.now parts.now) }
{
    for part in parts {
        out.extend(part_of(kept, *part))?;
    }
    Ok(())
}

impl Output {
    /// These bytes.
    pub fn whole(bytes: Bytes) -> Output
        ensures { result ≡ bytes }
    {
        Output {
            form: Form::Whole(bytes),
        }
    }

    /// Parts of some bytes.
    pub fn of_parts(kept: Bytes, parts: Parts) -> Output
        ensures { result ≡ text_of kept parts }
    {
        Output {
            form: Form::Parts(kept, parts),
        }
    }

    /// Writes all bytes. It answers `WriteFault` at the first write that fails, after which it
    /// writes no more: if the sink tells its bytes, it took a front of these, and not all.
    pub fn write_to<K: Sink>(&self, sink: &mut K) -> Result<(), WriteFault>
        ensures ok { OnOk result (Appends (K.taken sink.old) (K.taken sink.new) self.now) }
        ensures err { OnErr result (TakesFront (K.taken sink.old) (K.taken sink.new) self.now) }
        ensures faults { CountsFaults (K.faults sink.old) (K.faults sink.new) result }
        ensures once { OnErr result (K.rises (K.faults sink.old) (K.faults sink.new)) }
    {
        match &self.form {
            Form::Whole(bytes) => write_all(sink, bytes.as_slice()),
            Form::Parts(kept, parts) => write_parts(sink, kept.as_slice(), parts.as_slice()),
        }
    }

    /// All bytes, one after another.
    pub fn joined(&self, alloc: Global) -> Result<Bytes, NoMemory>
        ensures { IfOk result (λ bytes. bytes ≡ self.now) }
    {
        match &self.form {
            Form::Whole(bytes) => Bytes::of(alloc, bytes.as_slice()),
            Form::Parts(kept, parts) => {
                let mut bytes = Bytes::new(alloc);
                add_parts(&mut bytes, kept.as_slice(), parts.as_slice())?;
                Ok(bytes)
            }
        }
    }
}
