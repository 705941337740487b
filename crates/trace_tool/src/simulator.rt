//! The simulator as a program: what its main call reads and answers.

use crate::drawn::run;
use crate::judged::judge;
use crate::outcome::TraceOutcome;
use crate::words::{Command, read_words};
use program_call::{Omissions, Program, Reply};
use scald_base::{CallEnd, NoMemory, Words};
use std::alloc::Global;

/// The most bytes of a drawing.
const MOST_DRAWN: u32 = 4_194_304;

/// The most bytes of a trace and a drawing.
const MOST_JUDGED: u32 = 16_777_216;

/// The simulator.
pub struct Simulator;

impl Program for Simulator {
    ghost use Rattle.trace_tool.specs.Simulator.{simulator};
    ghost use Rattle.trace_tool.specs.Words.{IsWithin};

    type Command = Command;

    type Outcome = TraceOutcome;

    ghost meaning = { simulator };

    ghost within = { IsWithin };

    fn read_words(words: &Words) -> Result<Command, u32> {
        read_words(words)
    }

    fn reads(_command: Command) -> bool {
        true
    }

    fn most_bytes(command: Command) -> u32 {
        match command {
            Command::Run(_) => MOST_DRAWN,
            Command::Judge(_) => MOST_JUDGED,
        }
    }

    fn reply(
        alloc: Global,
        command: Command,
        text: &[u8],
        _omissions: &mut Omissions,
    ) -> Result<Reply<TraceOutcome>, NoMemory> {
        match command {
            Command::Run(asked) => run(alloc, text, asked),
            Command::Judge(trial) => judge(alloc, text, trial),
        }
    }

    fn ended(end: CallEnd) -> TraceOutcome {
        TraceOutcome::Ended(end)
    }

    fn laws() {}
}
