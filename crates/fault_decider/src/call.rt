//! The whole call: words and bytes in, bytes and an outcome out.

ghost use Rattle.std.specs.Prelude.{◌≡◌, IfSome};
ghost use Rattle.program_call.specs.Call.{IsCall, devices};
ghost use Rattle.fault_decider.specs.Decided.{decider, promised_of};
ghost use Rattle.fault_decider.specs.Promise.{NeverBreaksLater};

use crate::outcome::DecideOutcome;
use crate::program::Decider;
use program_call::{Omissions, main_call};
use scald_base::{Sink, Source, Words};
use std::alloc::Global;

/// Reads a drawing and writes the lines of `verify faults`, with what is said of each fault after
/// its line: that a run shows it, that it is refuted, or that it is left open. `effort=N`
/// multiplies the budget; with `trace=I` the run of the I-th fault is written as a trace in place
/// of all that.
///
/// `Settled` comes if no fault is shown or left open: a drawing whose faults are all refuted is
/// as good as one without faults. Why a drawing is refused, or which net does not settle, is
/// written as `verify` has it. All of the answer is made before the first byte of it is written.
pub fn decide_main<S: Source, K: Sink>(
    alloc: Global,
    words: &Words,
    source: &mut S,
    sink: &mut K,
) -> DecideOutcome
    // What every main call promises: of its words, of its devices, and of the bytes that it writes.
    ensures call { IsCall decider promised_of words.now result
        (devices S.left S.faults K.taken K.faults) source.old source.new sink.old sink.new }

    // No fault shown and none left open: in every run of the circuit that the text draws nothing is
    // broken from a tick on. It is the latest that the report prints, as `call` has it.
    ensures settled { IfSome (S.left source.old) (λ text. result ≡ DecideOutcome.Settled →
        NeverBreaksLater text) }
{
    main_call::<Decider, S, K>(alloc, words, source, sink, &mut Omissions::unasked())
}
