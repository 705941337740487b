//! The whole call: words and bytes in, bytes and an outcome out.

ghost use Rattle.std.specs.Prelude.{◌≡◌, ℕ, List, ◌≤◌, length, true, IfSome};
ghost use Rattle.scald_base.specs.Device.{Rose};
ghost use Rattle.program_call.specs.Call.{IsCall, devices, nothing_more};
ghost use Rattle.program_call.specs.Program.{AreTold, asks, speaks};
ghost use Rattle.program_call.specs.Wordless.{most_bytes};
ghost use Rattle.program_call.specs.Promise.{SettlesLoopless, WritesReport, may_count};
ghost use Rattle.fault_chain.specs.Answer.{chains, chains_of};
ghost use Rattle.fault_chain.specs.Laws.{ChainsAreWhole, DrawnChainsAreWhole};

use crate::reporter::Chains;
use program_call::{Omissions, Replier, Reply, Wordless, main_call, reply_to};
use run_wave::RunWave;
use scald_base::{NoMemory, Outcome, Sink, Source, Words};
use std::alloc::Global;
use step_values::Value;

/// The program of chains.
pub struct ChainProgram;

impl Replier for ChainProgram {
    ghost use Rattle.std.specs.Prelude.{None};
    ghost use Rattle.program_call.specs.Answer.{Evaluated};
    ghost use Rattle.fault_chain.specs.Answer.{chains_of, own_word};

    ghost word = { own_word };

    ghost replied = { Evaluated chains_of None };

    fn name() -> &'static [u8] {
        b"chains".as_slice()
    }

    fn reply(alloc: Global, text: &[u8]) -> Result<Reply<Outcome>, NoMemory> {
        reply_to::<Chains, RunWave<Value>>(alloc, text, (), None, &mut Omissions::unasked())
    }

    fn laws() {}
}

/// Reads a drawing and explains its faults: for each case each fault, and below it the chain of
/// changes that ends in it, back to where it comes from. Its name alone asks for it.
///
/// `Clean` and `Faulty` come as from `verify`, by the number of faults over all cases. Why a
/// drawing is refused, or which net does not settle, is written as `verify` has it. All of the
/// answer is made before the first byte of it is written.
pub fn chain_main<S: Source, K: Sink>(
    alloc: Global,
    words: &Words,
    source: &mut S,
    sink: &mut K,
) -> Outcome
    // What every main call promises: of its words, of its devices, and of the bytes that it writes.
    ensures call { IsCall chains nothing_more words.now result
        (devices S.left S.faults K.taken K.faults) source.old source.new sink.old sink.new }

    // If the source tells its bytes and no device fails, a text whose circuit and cases settle gets
    // its chains.
    ensures finished { IfSome (S.left source.old) (λ text. asks chains words.now ≡ true →
        length text ≤ most_bytes → ¬ Rose (S.faults source.old) (S.faults source.new) →
        ¬ Rose (K.faults sink.old) (K.faults sink.new) →
        WritesReport chains_of text result (K.taken sink.old) (K.taken sink.new)) }

    // Which outcomes speak of a text, whichever it is. Waves without loops settle.
    ensures given { speaks chains result ≡ true → may_count result ≡ true }
    ensures loopless { (text : List ℕ) → AreTold chains words.now (S.left source.old) text →
        SettlesLoopless text result }

    // The chain of each fault of a settled case is whole: if the delays of a circuit are in their
    // bounds, and so in each circuit that a text draws.
    ensures chains_whole { ChainsAreWhole }
    ensures drawn_whole { DrawnChainsAreWhole }
{
    main_call::<Wordless<ChainProgram>, S, K>(alloc, words, source, sink, &mut Omissions::unasked())
}
