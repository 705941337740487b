//! The whole call: words and bytes in, bytes and an outcome out.

ghost use Rattle.std.specs.Prelude.{◌≡◌, ℕ, List, true, IfSome, ◌⊎◌};
ghost use Rattle.scald_base.specs.Device.{Rose};
ghost use Rattle.program_call.specs.Call.{IsCall, devices};
ghost use Rattle.scald_tool.specs.Words.{are_reading, command_of};
ghost use Rattle.scald_tool.specs.Answer.{verifier};
ghost use Rattle.scald_tool.specs.Kept.{IsPromised};
ghost use Rattle.scald_tool.specs.Finished.{AsksWell, IsFinished};
ghost use Rattle.timing_analysis.specs.Promise.{FaultlessNeverBreaks, NeverBreaks};
ghost use Rattle.scald_tool.specs.Promise.{AreTold, SettlesWithoutLoops, has_report, may_answer, speaks};

use crate::verifier::Verifier;
use program_call::{Omissions, main_call};
use scald_base::{Outcome, Sink, Source, Words};
use std::alloc::Global;

/// Answers what the words ask for and writes it to the sink: the report on the drawing that the
/// source gives, or its canonical text, or that of the same circuit in the last version of the
/// language, or the numbers of the report on a generated drawing.
///
/// If the words are of a form that reads, the source is read to its end, or to the first byte
/// past 4,194,304, or to its first fault. All of the answer is made before the first byte of it is
/// written.
///
/// If a report was written, `omissions` have what the drawing leaves out, if they are asked for.
/// Nothing is promised of them.
pub fn tool_main<S: Source, K: Sink>(
    alloc: Global,
    words: &Words,
    source: &mut S,
    sink: &mut K,
    omissions: &mut Omissions,
) -> Outcome
    // What every main call promises: of its words, of its devices, and of the bytes that it writes.
    ensures call { IsCall verifier IsPromised words.now result
        (devices S.left S.faults K.taken K.faults) source.old source.new sink.old sink.new }

    // If the source tells its bytes and no device fails, a text that passes every stage that the
    // words ask for gets what they ask for.
    ensures finished { (text : List ℕ) → AreTold words.now (S.left source.old) text →
        (are_reading (command_of words.now) ≡ true →
        ¬ Rose (S.faults source.old) (S.faults source.new)) →
        ¬ Rose (K.faults sink.old) (K.faults sink.new) →
        AsksWell words.now text →
        (result ≡ Outcome.NoMemory) ⊎ IsFinished words.now text result (K.taken sink.old)
        (K.taken sink.new) }

    // No other form judges a drawing than `verify`, and it alone is never done with one. Waves
    // without loops settle if the words set no limit.
    ensures given { speaks result ≡ true → may_answer (command_of words.now) result ≡ true }
    ensures loopless { (text : List ℕ) → AreTold words.now (S.left source.old) text →
        SettlesWithoutLoops words.now text result }

    // No fault, no break: in every run of the circuit that the text draws, from the printed tick
    // on.
    ensures clean { IfSome (S.left source.old) (λ text. result ≡ Outcome.Clean → NeverBreaks text) }
    ensures faultless { IfSome (S.left source.old) (λ text. has_report result ≡ true →
        FaultlessNeverBreaks text) }
{
    main_call::<Verifier, S, K>(alloc, words, source, sink, omissions)
}
