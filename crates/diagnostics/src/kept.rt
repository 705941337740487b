//! A source that keeps what it gave.

ghost use Rattle.std.specs.Prelude.{◌≡◌, ◌++◌, [], None, Some, take, IfOk, IfSome, OnErr};
ghost use Rattle.std.specs.Option.{option_copied};
ghost use Rattle.std.specs.Io.KnownBytes.{Keeps};
ghost use Rattle.scald_base.specs.Device.{CountsFaults, Gives};

use scald_base::{Bytes, Failed, Source};
use std::alloc::Global;

/// A source over another that keeps the bytes that it gave, as long as there is memory for them. It
/// gives what the other gives, and fails if the other fails.
#[derive(Drop)]
pub struct KeptSource<S: Source> {
    source: S,
    kept: Option<Bytes>,
}

impl<S: Source> KeptSource<S> {
    /// A source of what another has left, which keeps nothing yet. It needs no allocation.
    pub fn new(alloc: Global, source: S) -> KeptSource<S>
        ensures source { result.source ≡ source }
        ensures kept { result.kept ≡ Some [] }
    {
        let kept = Some(Bytes::new(alloc));
        KeptSource { source, kept }
    }

    /// The bytes that were given, or `None` if memory for them ran out.
    pub fn kept(&self) -> Option<&[u8]>
        ensures { option_copied result ≡ self.now.kept }
    {
        match &self.kept {
            Some(bytes) => Some(bytes.as_slice()),
            None => None,
        }
    }
}

impl<S: Source> Source for KeptSource<S> {
    ghost left = { λ s. S.left s.source };

    ghost faults = { λ s. S.faults s.source };

    ghost rises = { S.rises };

    fn read(&mut self, room: &mut [u8]) -> Result<usize, Failed>
        ensures gives { IfOk result (λ n.
            Gives (S.left self.old.source) (S.left self.new.source) room.old room.new n) }
        ensures kept { OnErr result (Keeps (S.left self.old.source) (S.left self.new.source)) }
        ensures faults { CountsFaults (S.faults self.old.source) (S.faults self.new.source) result }
        ensures rises { OnErr result
            (S.rises (S.faults self.old.source) (S.faults self.new.source)) }
        ensures keeps { IfOk result (λ n. IfSome self.new.kept (λ all.
            IfSome self.old.kept (λ before. all ≡ before ++ take n room.new))) }
        ensures lost { self.old.kept ≡ None → self.new.kept ≡ None }
        ensures failed { OnErr result (self.new.kept ≡ self.old.kept) }
    {
        let count = self.source.read(room)?;
        if let Some(bytes) = &mut self.kept {
            if bytes.extend(&room[..count]).is_err() {
                self.kept = None;
            }
        }
        Ok(count)
    }
}
