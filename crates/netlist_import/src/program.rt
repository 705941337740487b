//! The import as a program: what its main call reads and answers.

use crate::answer::answer;
use crate::forms::{Command, read_words};
use crate::outcome::ImportOutcome;
use program_call::{Omissions, Program, Reply};
use scald_base::{CallEnd, NoMemory, Words};
use std::alloc::Global;

/// The most bytes of a text.
const MOST_BYTES: u32 = 67_108_864;

/// The import of a netlist.
pub struct Importer;

impl Program for Importer {
    ghost use Rattle.netlist_import.specs.Answer.{importer};

    type Command = Command;

    type Outcome = ImportOutcome;

    ghost meaning = { importer };

    fn read_words(words: &Words) -> Result<Command, u32> {
        read_words(words)
    }

    fn reads(_command: Command) -> bool {
        true
    }

    fn most_bytes(_command: Command) -> u32 {
        MOST_BYTES
    }

    fn reply(
        alloc: Global,
        command: Command,
        text: &[u8],
        _omissions: &mut Omissions,
    ) -> Result<Reply<ImportOutcome>, NoMemory> {
        answer(alloc, command, text)
    }

    fn ended(end: CallEnd) -> ImportOutcome {
        ImportOutcome::Ended(end)
    }

    fn laws() {}
}
