//! The verifier as a program: what its main call reads and answers.

use crate::bench::bench;
use crate::format::format;
use crate::report::Report;
use crate::upgrade::upgrade_text;
use crate::words::{Command, read_words};
use program_call::{Omissions, Program, Reply, reply_to};
use run_wave::RunWave;
use scald_base::{CallEnd, NoMemory, Outcome, Words};
use std::alloc::Global;
use step_values::Value;

/// The most bytes of a text.
const MOST_BYTES: u32 = 4_194_304;

/// The verifier.
pub struct Verifier;

impl Program for Verifier {
    ghost use Rattle.scald_tool.specs.Answer.{verifier};
    ghost use Rattle.scald_tool.specs.Kept.{IsPromised};
    ghost use Rattle.scald_tool.specs.Words.{IsWithin};

    type Command = Command;

    type Outcome = Outcome;

    ghost meaning = { verifier };

    ghost within = { IsWithin };

    ghost promised = { IsPromised };

    fn read_words(words: &Words) -> Result<Command, u32> {
        read_words(words)
    }

    fn reads(command: Command) -> bool {
        command.reads()
    }

    fn most_bytes(_command: Command) -> u32 {
        MOST_BYTES
    }

    fn reply(
        alloc: Global,
        command: Command,
        text: &[u8],
        omissions: &mut Omissions,
    ) -> Result<Reply<Outcome>, NoMemory> {
        match command {
            Command::Verify { mode, rounds } => {
                reply_to::<Report, RunWave<Value>>(alloc, text, mode, rounds, omissions)
            }
            Command::Format => format(alloc, text),
            Command::Upgrade => upgrade_text(alloc, text),
            Command::Bench(sections) => bench(alloc, sections),
        }
    }

    fn ended(end: CallEnd) -> Outcome {
        Outcome::ended(end)
    }

    fn laws() {}
}
