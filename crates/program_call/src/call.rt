//! The main call of a program: words and bytes in, bytes and an outcome out.

ghost use Rattle.std.specs.Prelude.{◌≡◌, ◌≤◌, length, true, false, Ok, IfOk, IfErr, IsErr, IsErrOf};
ghost use Rattle.scald_base.specs.Device.{Rose, ReadsAll, ReadsFront, ReadsPast};
ghost use Rattle.program_call.specs.Call.{EndsAsking, IsCall, devices};
ghost use Rattle.program_call.specs.Program.{asks, most_for};

use crate::program::Program;
use drawing_omissions::Omissions;
use scald_base::{Bytes, CallEnd, ReadEnd, Sink, Source, Words, read_all};
use std::alloc::Global;

/// Answers what the words ask the program for and writes it to the sink.
///
/// If the words are of a form that reads, the source is read to its end, or to the first byte
/// past the most that the program reads, or to its first fault. All of the answer is made before
/// the first byte of it is written.
///
/// `omissions` become what the program counts (`Program::reply`).
pub fn main_call<P: Program, S: Source, K: Sink>(
    alloc: Global,
    words: &Words,
    source: &mut S,
    sink: &mut K,
    omissions: &mut Omissions,
) -> P::Outcome
    ensures { IsCall P.meaning P.promised words.now result
        (devices S.left S.faults K.taken K.faults) source.old source.new sink.old sink.new }
{
    P::laws();
    let (command, text) = match asked::<P, S>(alloc, words, source) {
        Ok(asked) => asked,
        Err(end) => return P::ended(end),
    };
    let reply = match P::reply(alloc, command, text.as_slice(), omissions) {
        Ok(reply) => reply,
        Err(_) => return P::ended(CallEnd::NoMemory),
    };
    match reply.bytes.write_to(sink) {
        Ok(()) => reply.outcome,
        Err(_) => P::ended(CallEnd::WriteFault),
    }
}

/// What the words ask for and the text that is read for it, or why the call ends before its reply.
fn asked<P: Program, S: Source>(
    alloc: Global,
    words: &Words,
    source: &mut S,
) -> Result<(P::Command, Bytes), CallEnd>
    ensures form { IfOk result (λ asked. P.meaning.command_of words.now ≡ Ok asked.0) }
    ensures within { IfOk result (λ asked. P.within asked.0) }
    ensures all { IfOk result (λ asked. P.meaning.reads asked.0 ≡ true →
        ReadsAll (S.left source.old) (S.left source.new)
        (P.meaning.most_bytes (Ok asked.0)) asked.1) }
    ensures short { IfOk result (λ asked. length asked.1 ≤ P.meaning.most_bytes (Ok asked.0)) }
    ensures ended { IfErr result
        (EndsAsking P.meaning words.now (S.left source.old) (S.left source.new)
        (S.faults source.old) (S.faults source.new)) }
    ensures unread { asks P.meaning words.now ≡ false → source.new ≡ source.old }
    ensures front { ReadsFront (S.left source.old) (S.left source.new)
        (most_for P.meaning words.now) }
    ensures steady { ¬ IsErrOf result CallEnd.ReadFault →
        S.faults source.new ≡ S.faults source.old }
{
    let command = match P::read_words(words) {
        Ok(command) => command,
        Err(i) => return Err(CallEnd::BadWords(i)),
    };
    match text_for::<P, S>(alloc, command, source) {
        Ok(text) => Ok((command, text)),
        Err(ReadEnd::TooLong) => Err(CallEnd::TooLong),
        Err(ReadEnd::ReadFault) => Err(CallEnd::ReadFault),
        Err(ReadEnd::NoMemory) => Err(CallEnd::NoMemory),
    }
}

/// All bytes of the source if the command reads them, and no bytes if it does not.
fn text_for<P: Program, S: Source>(
    alloc: Global,
    command: P::Command,
    source: &mut S,
) -> Result<Bytes, ReadEnd>
    ensures all { P.meaning.reads command ≡ true → IfOk result (λ text.
        ReadsAll (S.left source.old) (S.left source.new) (P.meaning.most_bytes (Ok command)) text) }
    ensures short { IfOk result (λ text. length text ≤ P.meaning.most_bytes (Ok command)) }
    ensures unread { P.meaning.reads command ≡ false → source.new ≡ source.old }
    ensures asked { IsErr result → P.meaning.reads command ≡ true }
    ensures too_long { IsErrOf result ReadEnd.TooLong →
        ReadsPast (S.left source.old) (S.left source.new) (P.meaning.most_bytes (Ok command)) }
    ensures front { ReadsFront (S.left source.old) (S.left source.new)
        (P.meaning.most_bytes (Ok command)) }
    ensures fault { IsErrOf result ReadEnd.ReadFault →
        Rose (S.faults source.old) (S.faults source.new) }
    ensures steady { ¬ IsErrOf result ReadEnd.ReadFault →
        S.faults source.new ≡ S.faults source.old }
{
    if P::reads(command) {
        read_all(alloc, source, P::most_bytes(command))
    } else {
        Ok(Bytes::new(alloc))
    }
}
