//! The words that the program is called with.

ghost use Rattle.std.specs.Prelude.{◌≡◌, ◌<◌, IfOk};
ghost use Rattle.scald_tool.specs.Words.{IsWithin, alone, behind_bench, behind_mode, behind_verify, command_of, mode_of, reads};

use listing::Mode;
use program_call::{number_in, rounds_of};
use scald_base::{Bytes, Words};

/// The most sections that a generated drawing may have.
const MOST_SECTIONS: u32 = 200;

/// What the program is asked for.
#[derive(Clone, Copy, PartialEq, Eq, Debug)]
pub enum Command {
    /// `verify`: the report on a drawing, whole or in part, and how many rounds there may be if
    /// that is asked for, 1 to 10,000,000.
    Verify { mode: Mode, rounds: Option<u32> },
    /// `format`: the canonical text of a drawing.
    Format,
    /// `upgrade`: the canonical text of a drawing in the last version of the language.
    Upgrade,
    /// `bench`: the numbers of the report on the generated drawing of so many sections, 1 to 200.
    /// It reads nothing.
    Bench(u16),
}

impl Command {
    /// Whether the source is read.
    pub fn reads(self) -> bool
        ensures { result ≡ reads self }
    {
        !matches!(self, Command::Bench(_))
    }
}

/// What the words ask for. If they are unrecognised, `Err` is the number of the first with which
/// no form continues, from 0, or the count of words if one is missing.
pub fn read_words(words: &Words) -> Result<Command, u32>
    ensures is { result ≡ command_of words.now }
    ensures within { IfOk result IsWithin }
{
    let [first, others @ ..] = words.as_slice() else {
        return Err(0);
    };
    if first.as_slice() == b"verify".as_slice() {
        behind_verify(others)
    } else if first.as_slice() == b"format".as_slice() {
        alone(Command::Format, 1, others)
    } else if first.as_slice() == b"upgrade".as_slice() {
        alone(Command::Upgrade, 1, others)
    } else if first.as_slice() == b"bench".as_slice() {
        behind_bench(others)
    } else {
        Err(0)
    }
}

/// The command, if no word follows those that ask for it. Such a word would have this number.
fn alone(command: Command, place: u32, others: &[Bytes]) -> Result<Command, u32>
    requires { IsWithin command }
    ensures is { result ≡ alone command place others.now }
    ensures within { IfOk result IsWithin }
{
    if others.is_empty() {
        Ok(command)
    } else {
        Err(place)
    }
}

/// What the words after `verify` ask for.
fn behind_verify(words: &[Bytes]) -> Result<Command, u32>
    ensures is { result ≡ behind_verify words.now }
    ensures within { IfOk result IsWithin }
{
    let [first, others @ ..] = words else {
        return behind_mode(Mode::Full, 1, words);
    };
    match mode_of(first.as_slice()) {
        Some(mode) => behind_mode(mode, 2, others),
        None => behind_mode(Mode::Full, 1, words),
    }
}

/// What the words from this number on ask for, if the mode is known.
fn behind_mode(mode: Mode, place: u32, words: &[Bytes]) -> Result<Command, u32>
    requires { place < 3 }
    ensures is { result ≡ behind_mode mode place words.now }
    ensures within { IfOk result IsWithin }
{
    let [first, others @ ..] = words else {
        return Ok(Command::Verify { mode, rounds: None });
    };
    match rounds_of(first.as_slice()) {
        Some(limit) => {
            let rounds = Some(limit);
            alone(Command::Verify { mode, rounds }, place + 1, others)
        }
        None => Err(place),
    }
}

/// What the words after `bench` ask for.
fn behind_bench(words: &[Bytes]) -> Result<Command, u32>
    ensures is { result ≡ behind_bench words.now }
    ensures within { IfOk result IsWithin }
{
    let [first, others @ ..] = words else {
        return Err(1);
    };
    match number_in(MOST_SECTIONS, first.as_slice()) {
        Some(sections) => alone(Command::Bench(sections as u16), 2, others),
        None => Err(1),
    }
}

/// The mode that a word asks for.
fn mode_of(word: &[u8]) -> Option<Mode>
    ensures { result ≡ mode_of word.now }
{
    if word == b"waves".as_slice() {
        Some(Mode::Waves)
    } else if word == b"faults".as_slice() {
        Some(Mode::Faults)
    } else {
        None
    }
}
