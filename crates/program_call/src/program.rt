//! What a program is to its main call.

ghost use Rattle.std.specs.Prelude.{◌≡◌, ◌≤◌, ◌<◌, ◌-◌, ◌^◌, ℕ, List, Ok, IfOk, length};
ghost use Rattle.program_call.specs.Program.{IsLawful, Meaning};

use crate::reply::Reply;
use drawing_omissions::Omissions;
use scald_base::{CallEnd, NoMemory, Words};
use std::alloc::Global;

/// A program that answers to its words and to a text. `main_call` reads the text, and writes the
/// answer once all of it is made.
pub trait Program {
    /// What words of a form ask for.
    type Command: Copy;

    /// How a call ends.
    type Outcome: Copy;

    /// What the words ask for, which of them read, and what is answered to a text.
    ghost meaning: { Meaning Self.Command Self.Outcome };

    /// What is known of a command that words ask for.
    ghost within: { Self.Command → Type 0 } = { λ command. Unit {0} };

    /// What is promised of a text whose reply has this outcome, beside the outcome and the bytes.
    ghost promised: { Self.Command → List ℕ → Self.Outcome → Type 0 } = { λ command text o.
        Unit {0} };

    /// What the words ask for. If they are unrecognised, `Err` is the number of the first with
    /// which no form continues, from 0, or the count of words if one is missing.
    fn read_words(words: &Words) -> Result<Self::Command, u32>
        ensures is { result ≡ meaning.command_of words.now }
        ensures within { IfOk result within };

    /// Whether the source is read.
    fn reads(command: Self::Command) -> bool
        ensures { result ≡ meaning.reads command };

    /// The most bytes of a text.
    fn most_bytes(command: Self::Command) -> u32
        ensures is { result ≡ meaning.most_bytes (Ok command) }
        ensures bounded { result < 2 ^ 32 - 1 };

    /// The reply to a text, which is empty if the source is not read. A program that verifies
    /// counts in `omissions` what the drawing leaves out. Nothing is promised of them.
    fn reply(
        alloc: Global,
        command: Self::Command,
        text: &[u8],
        omissions: &mut Omissions,
    ) -> Result<Reply<Self::Outcome>, NoMemory>
        requires within { within command }
        requires short { length text.now ≤ meaning.most_bytes (Ok command) }
        ensures is { IfOk result (λ reply.
            meaning.Replied command text.now reply.outcome reply.bytes) }
        ensures promised { IfOk result (λ reply. promised command text.now reply.outcome) };

    /// The outcome of a call that has this end.
    fn ended(end: CallEnd) -> Self::Outcome
        ensures { result ≡ meaning.ended end };

    /// What holds of the program's answers. It does nothing.
    fn laws()
        ensures { IsLawful meaning };
}
