//! The whole call: words and bytes in, bytes and an outcome out.

ghost use Rattle.program_call.specs.Call.{IsCall, devices, nothing_more};
ghost use Rattle.trace_tool.specs.Simulator.{simulator};

use crate::outcome::TraceOutcome;
use crate::simulator::Simulator;
use program_call::{Omissions, main_call};
use scald_base::{Sink, Source, Words};
use std::alloc::Global;

/// Answers what the words ask for and writes it to the sink: the trace of a run that a seed draws
/// of the circuit that the source's text draws, or what is to be said of a trace and the drawing
/// that follows it.
///
/// The source is read to its end, or to the first byte past 4,194,304 or, of a trace and a drawing,
/// past 16,777,216, or to its first fault. All of the answer is made before the first byte of it is
/// written.
pub fn trace_main<S: Source, K: Sink>(
    alloc: Global,
    words: &Words,
    source: &mut S,
    sink: &mut K,
) -> TraceOutcome
    // What every main call promises: of its words, of its devices, and of the bytes that it writes.
    ensures call { IsCall simulator nothing_more words.now result
        (devices S.left S.faults K.taken K.faults) source.old source.new sink.old sink.new }
{
    main_call::<Simulator, S, K>(alloc, words, source, sink, &mut Omissions::unasked())
}
