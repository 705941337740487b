//! The whole call: bytes of several drawings in, bytes and an outcome out.

ghost use Rattle.std.specs.Prelude.{◌≡◌, IfSome};
ghost use Rattle.program_call.specs.Call.{IsCall, devices};
ghost use Rattle.section_compose.specs.Answer.{composer};
ghost use Rattle.section_compose.specs.Promise.{IsPromised, NeverBreaksJoined};

use crate::outcome::SectionsOutcome;
use crate::program::Composer;
use program_call::{Omissions, main_call};
use scald_base::{Sink, Source, Words};
use std::alloc::Global;

/// Verifies several drawings and writes the answer to the sink: the report on each, with what
/// crosses between them known by its assertion, or why there is none. Its name alone asks for it.
///
/// The source is read to its end, or to the first byte past 4,194,304, or to its first
/// fault. All of the answer is made before the first byte of it is written.
pub fn sections_main<S: Source, K: Sink>(
    alloc: Global,
    words: &Words,
    source: &mut S,
    sink: &mut K,
) -> SectionsOutcome
    // What every main call promises: of its words, of its devices, and of the bytes that it writes.
    ensures call { IsCall composer IsPromised words.now result
        (devices S.left S.faults K.taken K.faults) source.old source.new sink.old sink.new }

    // No fault, no break: in every run of the whole that the sections make, from the greatest
    // printed tick on, if each net that crosses between sections keeps its assertion up to that
    // tick.
    ensures clean { IfSome (S.left source.old) (λ text. result ≡ SectionsOutcome.Clean →
        NeverBreaksJoined text) }
{
    main_call::<Composer, S, K>(alloc, words, source, sink, &mut Omissions::unasked())
}
