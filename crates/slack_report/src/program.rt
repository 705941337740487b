//! The whole call: words and bytes in, bytes and an outcome out.

ghost use Rattle.std.specs.Prelude.{◌≡◌, ℕ, List, true, IfSome};
ghost use Rattle.scald_base.specs.Device.{Rose};
ghost use Rattle.timing_analysis.specs.Promise.{NeverBreaks};
ghost use Rattle.program_call.specs.Call.{IsCall, devices};
ghost use Rattle.program_call.specs.Program.{AreTold, speaks};
ghost use Rattle.program_call.specs.Promise.{may_count};
ghost use Rattle.slack_report.specs.Answer.{slack_program};
ghost use Rattle.slack_report.specs.Promise.{EndsByLimits, NeverBreaksIfMet, SettlesUnlimited};

use crate::reporter::{Paragraphs, Table};
use crate::request::{Part, Request, read_request};
use program_call::{Omissions, Program, Reply, main_call, reply_to};
use run_wave::RunWave;
use scald_base::{CallEnd, NoMemory, Outcome, Sink, Source, Words};
use std::alloc::Global;
use step_values::Value;

/// The most bytes of a text.
const MOST_BYTES: u32 = 4_194_304;

/// The program of the table and of the paragraphs.
pub struct SlackProgram;

impl Program for SlackProgram {
    ghost use Rattle.slack_report.specs.Answer.{slack_program};
    ghost use Rattle.slack_report.specs.Promise.{NeverBreaksIfMet};
    ghost use Rattle.slack_report.specs.Words.{IsWithin};

    type Command = Request;

    type Outcome = Outcome;

    ghost meaning = { slack_program };

    ghost within = { IsWithin };

    ghost promised = { NeverBreaksIfMet };

    fn read_words(words: &Words) -> Result<Request, u32> {
        read_request(words)
    }

    fn reads(_request: Request) -> bool {
        true
    }

    fn most_bytes(_request: Request) -> u32 {
        MOST_BYTES
    }

    fn reply(
        alloc: Global,
        request: Request,
        text: &[u8],
        omissions: &mut Omissions,
    ) -> Result<Reply<Outcome>, NoMemory> {
        let Request {
            part,
            worst,
            rounds,
        } = request;
        match part {
            Part::Table => reply_to::<Table, RunWave<Value>>(alloc, text, worst, rounds, omissions),
            Part::Paragraphs => {
                reply_to::<Paragraphs, RunWave<Value>>(alloc, text, worst, rounds, omissions)
            }
        }
    }

    fn ended(end: CallEnd) -> Outcome {
        Outcome::ended(end)
    }

    fn laws() {}
}

/// Reads a drawing and writes by how much its limits are met: with the word `slack` a table of all,
/// the worst first, with `explain` paragraphs on the worst, with the changes that come to them.
/// `worst=N` asks for at least N rows of the table, or for the paragraphs of the first N;
/// `rounds=N` sets the limit of rounds.
///
/// `Clean` comes if all limits are met, that is, if `verify` finds no fault, and else
/// `Faulty` with the number of those that are broken. Why a drawing is refused, or which net does
/// not settle, is written as `verify` has it. All of the answer is made before the first byte of it
/// is written.
pub fn slack_main<S: Source, K: Sink>(
    alloc: Global,
    words: &Words,
    source: &mut S,
    sink: &mut K,
) -> Outcome
    // What every main call promises: of its words, of its devices, and of the bytes that it writes.
    ensures call { IsCall slack_program NeverBreaksIfMet words.now result
        (devices S.left S.faults K.taken K.faults) source.old source.new sink.old sink.new }

    // If the source gives its bytes and no device fails, a text whose circuit and cases settle has
    // the outcome of its limits: `Faulty` exactly if `verify` finds a fault.
    ensures finished { (text : List ℕ) → AreTold slack_program words.now (S.left source.old) text →
        ¬ Rose (S.faults source.old) (S.faults source.new) →
        ¬ Rose (K.faults sink.old) (K.faults sink.new) → EndsByLimits words.now text result }

    // Which outcomes speak of a text, whichever it is. Waves without loops settle if the words set
    // no limit.
    ensures given { speaks slack_program result ≡ true → may_count result ≡ true }
    ensures loopless { (text : List ℕ) → AreTold slack_program words.now (S.left source.old) text →
        SettlesUnlimited words.now text result }

    // No limit broken, no break: in every run of the circuit that the text draws, from the tick on
    // that `verify` prints.
    ensures clean { IfSome (S.left source.old) (λ text. result ≡ Outcome.Clean → NeverBreaks text) }
{
    main_call::<SlackProgram, S, K>(alloc, words, source, sink, &mut Omissions::unasked())
}
