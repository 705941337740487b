//! The whole call: words and bytes in, bytes and an outcome out.

ghost use Rattle.std.specs.Prelude.{◌≡◌, ℕ, List, ◌≤◌, length, true, IfSome};
ghost use Rattle.scald_base.specs.Device.{Rose};
ghost use Rattle.program_call.specs.Call.{IsCall, devices, nothing_more};
ghost use Rattle.program_call.specs.Program.{AreTold, asks, speaks};
ghost use Rattle.program_call.specs.Wordless.{most_bytes};
ghost use Rattle.program_call.specs.Promise.{SettlesLoopless, WritesReport};
ghost use Rattle.margin_report.specs.Answer.{margins, margins_of};
ghost use Rattle.margin_report.specs.Laws.{FittingIsMonotone, MarginsAreTrue};
ghost use Rattle.margin_report.specs.Promise.{may_answer};
ghost use Rattle.margin_report.specs.Tried.{TriedAsWritten};

use crate::reporter::Margins;
use program_call::{Omissions, Replier, Reply, Wordless, main_call, reply_to};
use run_wave::RunWave;
use scald_base::{NoMemory, Outcome, Sink, Source, Words};
use std::alloc::Global;
use step_values::Value;

/// The program of margins.
pub struct MarginProgram;

impl Replier for MarginProgram {
    ghost use Rattle.std.specs.Prelude.{None};
    ghost use Rattle.program_call.specs.Answer.{Evaluated};
    ghost use Rattle.margin_report.specs.Answer.{margins_of, own_word};

    ghost word = { own_word };

    ghost replied = { Evaluated margins_of None };

    fn name() -> &'static [u8] {
        b"margins".as_slice()
    }

    fn reply(alloc: Global, text: &[u8]) -> Result<Reply<Outcome>, NoMemory> {
        reply_to::<Margins, RunWave<Value>>(alloc, text, (), None, &mut Omissions::unasked())
    }

    fn laws() {}
}

/// Reads a drawing and writes by how much more each of its checkers may ask for: a line for each
/// parameter of each bit of a checker, in the order of expansion. Its name alone asks for it.
///
/// `Done` comes if the drawing is accepted and its waves settle, whether there are faults or
/// not. Why a drawing is refused, or which net does not settle, is written as `verify` has it. All
/// of the answer is made before the first byte of it is written.
pub fn margin_main<S: Source, K: Sink>(
    alloc: Global,
    words: &Words,
    source: &mut S,
    sink: &mut K,
) -> Outcome
    // What every main call promises: of its words, of its devices, and of the bytes that it writes.
    ensures call { IsCall margins nothing_more words.now result
        (devices S.left S.faults K.taken K.faults) source.old source.new sink.old sink.new }

    // If the source tells its bytes and no device fails, a text whose circuit and cases settle gets
    // its margins.
    ensures finished { IfSome (S.left source.old) (λ text. asks margins words.now ≡ true →
        length text ≤ most_bytes → ¬ Rose (S.faults source.old) (S.faults source.new) →
        ¬ Rose (K.faults sink.old) (K.faults sink.new) →
        WritesReport margins_of text result (K.taken sink.old) (K.taken sink.new)) }

    // Which outcomes speak of a text, whichever it is. Waves without loops settle.
    ensures given { speaks margins result ≡ true → may_answer result ≡ true }
    ensures loopless { (text : List ℕ) → AreTold margins words.now (S.left source.old) text →
        SettlesLoopless text result }

    // A value is tried as if it were written; if one does not fit, no greater one does; and a
    // margin is what its line says.
    ensures as_written { TriedAsWritten }
    ensures monotone { FittingIsMonotone }
    ensures margins_true { MarginsAreTrue }
{
    main_call::<Wordless<MarginProgram>, S, K>(
        alloc,
        words,
        source,
        sink,
        &mut Omissions::unasked(),
    )
}
