//! The composer of sections as a program: what its main call reads and answers.

use crate::answer::answer;
use crate::outcome::SectionsOutcome;
use program_call::{Omissions, Program, Reply, Request, read_name};
use scald_base::{CallEnd, NoMemory, Words};
use std::alloc::Global;

/// The most bytes of a text, with all of its sections.
const MOST_BYTES: u32 = 4_194_304;

/// The composer of sections.
pub struct Composer;

impl Program for Composer {
    ghost use Rattle.section_compose.specs.Answer.{composer};
    ghost use Rattle.section_compose.specs.Promise.{IsPromised};

    type Command = Request;

    type Outcome = SectionsOutcome;

    ghost meaning = { composer };

    ghost promised = { IsPromised };

    fn read_words(words: &Words) -> Result<Request, u32> {
        read_name(b"sections".as_slice(), words)
    }

    fn reads(_request: Request) -> bool {
        true
    }

    fn most_bytes(_request: Request) -> u32 {
        MOST_BYTES
    }

    fn reply(
        alloc: Global,
        _request: Request,
        text: &[u8],
        _omissions: &mut Omissions,
    ) -> Result<Reply<SectionsOutcome>, NoMemory> {
        answer(alloc, text)
    }

    fn ended(end: CallEnd) -> SectionsOutcome {
        SectionsOutcome::Ended(end)
    }

    fn laws() {}
}
