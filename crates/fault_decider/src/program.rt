//! Decisions as a program: what its main call reads and answers.

use crate::outcome::DecideOutcome;
use crate::text::decide_text;
use crate::words::{Request, read_request};
use program_call::{Omissions, Program, Reply};
use scald_base::{CallEnd, NoMemory, Words};
use std::alloc::Global;

/// The most bytes of a text.
const MOST_BYTES: u32 = 4_194_304;

/// The program that decides faults.
pub struct Decider;

impl Program for Decider {
    ghost use Rattle.fault_decider.specs.Decided.{decider, promised_of};
    ghost use Rattle.fault_decider.specs.Words.{IsWithin};

    type Command = Request;

    type Outcome = DecideOutcome;

    ghost meaning = { decider };

    ghost within = { IsWithin };

    ghost promised = { promised_of };

    fn read_words(words: &Words) -> Result<Request, u32> {
        read_request(words)
    }

    fn reads(_request: Request) -> bool {
        true
    }

    fn most_bytes(_request: Request) -> u32 {
        MOST_BYTES
    }

    fn reply(
        alloc: Global,
        request: Request,
        text: &[u8],
        _omissions: &mut Omissions,
    ) -> Result<Reply<DecideOutcome>, NoMemory> {
        decide_text(alloc, text, request)
    }

    fn ended(end: CallEnd) -> DecideOutcome {
        DecideOutcome::Ended(end)
    }

    fn laws() {}
}
