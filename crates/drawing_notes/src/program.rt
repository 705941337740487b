//! The whole call: words and bytes in, bytes and an outcome out.

ghost use Rattle.std.specs.Prelude.{◌≡◌, ℕ, List, ◌≤◌, length, true, IfSome};
ghost use Rattle.scald_base.specs.Device.{Rose};
ghost use Rattle.program_call.specs.Call.{IsCall, devices, nothing_more};
ghost use Rattle.program_call.specs.Program.{AreTold, asks, speaks};
ghost use Rattle.program_call.specs.Wordless.{most_bytes};
ghost use Rattle.program_call.specs.Promise.{SettlesLoopless, WritesReport, may_count};
ghost use Rattle.drawing_notes.specs.Answer.{notes_of, notes_program};

use crate::reply::Noting;
use program_call::{Omissions, Replier, Reply, Wordless, main_call, reply_to};
use run_wave::RunWave;
use scald_base::{NoMemory, Outcome, Sink, Source, Words};
use std::alloc::Global;
use step_values::Value;

/// The program of notes.
pub struct NotesProgram;

impl Replier for NotesProgram {
    ghost use Rattle.drawing_notes.specs.Answer.{Noted, own_word};

    ghost word = { own_word };

    ghost replied = { Noted };

    fn name() -> &'static [u8] {
        b"notes".as_slice()
    }

    fn reply(alloc: Global, text: &[u8]) -> Result<Reply<Outcome>, NoMemory> {
        reply_to::<Noting, RunWave<Value>>(alloc, text, (), None, &mut Omissions::unasked())
    }

    fn laws() {}
}

/// Reads a drawing and writes what it does not say: a line for each note, kind by kind, and how
/// many there are. Its name alone asks for it.
///
/// `Clean` comes if the drawing is accepted, its waves settle and there is no note, and `Faulty`
/// with the number of notes if there are some. Why a drawing is refused, or which net does not
/// settle, is written as `verify` has it. All of the answer is made before the first byte of it is
/// written.
pub fn notes_main<S: Source, K: Sink>(
    alloc: Global,
    words: &Words,
    source: &mut S,
    sink: &mut K,
) -> Outcome
    // What every main call promises: of its words, of its devices, and of the bytes that it writes.
    ensures call { IsCall notes_program nothing_more words.now result
        (devices S.left S.faults K.taken K.faults) source.old source.new sink.old sink.new }

    // If the source tells its bytes and no device fails, a text whose circuit and cases settle gets
    // its notes.
    ensures finished { IfSome (S.left source.old) (λ text. asks notes_program words.now ≡ true →
        length text ≤ most_bytes → ¬ Rose (S.faults source.old) (S.faults source.new) →
        ¬ Rose (K.faults sink.old) (K.faults sink.new) →
        WritesReport notes_of text result (K.taken sink.old) (K.taken sink.new)) }

    // Which outcomes speak of a text, whichever it is. Waves without loops settle.
    ensures given { speaks notes_program result ≡ true → may_count result ≡ true }
    ensures loopless { (text : List ℕ) → AreTold notes_program words.now (S.left source.old) text →
        SettlesLoopless text result }
{
    main_call::<Wordless<NotesProgram>, S, K>(alloc, words, source, sink, &mut Omissions::unasked())
}
