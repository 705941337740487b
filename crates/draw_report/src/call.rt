//! The whole call: words and bytes in, bytes and an outcome out. It is a main call as those of
//! `program_call`, but its reply needs the bytes of a word.

ghost use Rattle.std.specs.Prelude.{◌≡◌, ◌≤◌, false, length, Ok, IfOk, IfErr, IsErrOf};
ghost use Rattle.scald_base.specs.Device.{ReadsAll, ReadsFront};
ghost use Rattle.program_call.specs.Call.{EndsAsking, IsCall, devices, nothing_more};
ghost use Rattle.program_call.specs.Program.{asks};
ghost use Rattle.program_call.specs.Wordless.{most_bytes};
ghost use Rattle.draw_report.specs.Answer.{draw_program};
ghost use Rattle.draw_report.specs.Words.{IsWithin, asking, asking_of, under_of};

use crate::outcome::DrawOutcome;
use crate::reply::draw;
use crate::request::{Request, read_request, under_of};
use run_wave::RunWave;
use scald_base::{Bytes, CallEnd, ReadEnd, Sink, Source, Words, read_all};
use std::alloc::Global;
use step_values::Value;

/// The most bytes of a text.
const MOST_BYTES: u32 = 4_194_304;

/// What the words ask for and the text that is read for it, or why the call ends before its reply.
fn asked<S: Source>(
    alloc: Global,
    words: &Words,
    source: &mut S,
) -> Result<(Request, Bytes), CallEnd>
    ensures form { IfOk result (λ asked.
        asking_of words.now ≡ Ok (asking (under_of words.now) asked.0)) }
    ensures within { IfOk result (λ asked. IsWithin asked.0) }
    ensures all { IfOk result (λ asked.
        ReadsAll (S.left source.old) (S.left source.new) most_bytes asked.1) }
    ensures short { IfOk result (λ asked. length asked.1 ≤ most_bytes) }
    ensures ended { IfErr result
        (EndsAsking draw_program words.now (S.left source.old) (S.left source.new)
        (S.faults source.old) (S.faults source.new)) }
    ensures unread { asks draw_program words.now ≡ false → source.new ≡ source.old }
    ensures front { ReadsFront (S.left source.old) (S.left source.new) most_bytes }
    ensures steady { ¬ IsErrOf result CallEnd.ReadFault →
        S.faults source.new ≡ S.faults source.old }
{
    let request = match read_request(words) {
        Ok(request) => request,
        Err(i) => return Err(CallEnd::BadWords(i)),
    };
    match read_all(alloc, source, MOST_BYTES) {
        Ok(text) => Ok((request, text)),
        Err(ReadEnd::TooLong) => Err(CallEnd::TooLong),
        Err(ReadEnd::ReadFault) => Err(CallEnd::ReadFault),
        Err(ReadEnd::NoMemory) => Err(CallEnd::NoMemory),
    }
}

/// Reads a drawing and writes the picture or the page that the words ask for. The outcome is that
/// of the whole drawing, as `verify` has it; or that there is no such case, row or net, or too much
/// to draw. All of what is written is made before the first byte of it is.
pub fn draw_main<S: Source, K: Sink>(
    alloc: Global,
    words: &Words,
    source: &mut S,
    sink: &mut K,
) -> DrawOutcome
    // What every main call promises: of its words, of its devices, and of the bytes that it writes.
    ensures { IsCall draw_program nothing_more words.now result
        (devices S.left S.faults K.taken K.faults) source.old source.new sink.old sink.new }
{
    let (request, text) = match asked(alloc, words, source) {
        Ok(asked) => asked,
        Err(end) => return DrawOutcome::ended(end),
    };
    let reply = match draw::<RunWave<Value>>(alloc, text.as_slice(), request, under_of(words)) {
        Ok(reply) => reply,
        Err(_) => return DrawOutcome::ended(CallEnd::NoMemory),
    };
    match reply.bytes.write_to(sink) {
        Ok(()) => reply.outcome,
        Err(_) => DrawOutcome::ended(CallEnd::WriteFault),
    }
}
