//! A program that is asked for by its name alone, and replies to the text that it reads.

ghost use Rattle.std.specs.Prelude.{◌≡◌, ◌≤◌, ℕ, List, IfOk, length};
ghost use Rattle.program_call.specs.Program.{IsLawful};
ghost use Rattle.program_call.specs.Wordless.{Replying, most_bytes, wordless};

use crate::words::{Request, read_name};
use crate::{Program, Reply};
use drawing_omissions::Omissions;
use scald_base::{CallEnd, NoMemory, Outcome, Words};
use std::alloc::Global;
use std::marker::PhantomData;

/// The most bytes of a text.
const MOST_BYTES: u32 = 4_194_304;

/// What replies to a text.
pub trait Replier {
    /// The word that asks for it.
    ghost word: { List ℕ };

    /// The outcomes and the bytes that are replied to a text.
    ghost replied: { Replying };

    /// The word that asks for it.
    fn name() -> &'static [u8]
        ensures { result.now ≡ word };

    /// The reply to a text.
    fn reply(alloc: Global, text: &[u8]) -> Result<Reply<Outcome>, NoMemory>
        requires short { length text.now ≤ most_bytes }
        ensures { IfOk result (λ reply. replied text.now reply.outcome reply.bytes) };

    /// A text has one reply, which is no end of a call. It does nothing.
    fn laws()
        ensures { IsLawful (wordless word replied) };
}

/// The program that the name of `R` asks for, and which replies as `R` does to the text that it
/// reads.
pub struct Wordless<R: Replier> {
    replier: PhantomData<R>,
}

impl<R: Replier> Program for Wordless<R> {
    ghost use Rattle.program_call.specs.Wordless.{wordless};

    type Command = Request;

    type Outcome = Outcome;

    ghost meaning = { wordless R.word R.replied };

    fn read_words(words: &Words) -> Result<Request, u32> {
        read_name(R::name(), words)
    }

    fn reads(_request: Request) -> bool {
        true
    }

    fn most_bytes(_request: Request) -> u32 {
        MOST_BYTES
    }

    fn reply(
        alloc: Global,
        _request: Request,
        text: &[u8],
        _omissions: &mut Omissions,
    ) -> Result<Reply<Outcome>, NoMemory> {
        R::reply(alloc, text)
    }

    fn ended(end: CallEnd) -> Outcome {
        Outcome::ended(end)
    }

    fn laws() {
        R::laws()
    }
}
