//! The words that the simulator is called with.

ghost use Rattle.std.specs.Prelude.{◌≡◌, ◌-◌, ◌^◌, ◌≤◌, IfOk, IfSome, min};
ghost use Rattle.scald_lex.specs.Bytes.{value_of};
ghost use Rattle.trace_tool.specs.declared.extent.Extent.TheVariants.{Long};
ghost use Rattle.trace_tool.specs.Extent.{most_ticks};
ghost use Rattle.trace_tool.specs.Words.{IsWithin, alone, after_case, after_judge, after_run, after_seed, after_ticks, at_end, case_of, command_of, extent_asked, extent_of, is_long, number_in, tick_asked};

use crate::TickLength;
use crate::asked::{Asked, Format, Trial};
use crate::extent::Extent;
use itoa::Buffer;
use scald_base::{Bytes, Words};

/// The most cases of a drawing.
const MOST_CASES: u64 = 256;

/// What the simulator is asked for.
#[derive(Clone, Copy, PartialEq, Eq, Debug)]
pub enum Command {
    /// `run` and `vcd`: a run.
    Run(Asked),
    /// `judge`: what is to be said of a trace.
    Judge(Trial),
}

/// What the words ask for. If they are unrecognised, `Err` is the number of the first with which
/// no form continues, from 0, or the count of words if one is missing.
pub fn read_words(words: &Words) -> Result<Command, u32>
    ensures is { result ≡ command_of words.now }
    ensures within { IfOk result IsWithin }
{
    let [first, others @ ..] = words.as_slice() else {
        return Err(0);
    };
    if first.as_slice() == b"run".as_slice() {
        after_run(Format::Trace, others)
    } else if first.as_slice() == b"vcd".as_slice() {
        after_run(Format::Dump(TickLength::NANOSECOND), others)
    } else if first.as_slice() == b"judge".as_slice() {
        after_judge(others)
    } else {
        Err(0)
    }
}

/// The command, if no word follows those that ask for it. Such a word would have this number.
fn alone(command: Command, place: u32, others: &[Bytes]) -> Result<Command, u32>
    requires { IsWithin command }
    ensures is { result ≡ alone command place others.now }
    ensures within { IfOk result IsWithin }
{
    if others.is_empty() {
        Ok(command)
    } else {
        Err(place)
    }
}

/// Whether the word asks for a long run.
fn is_long(word: &[u8]) -> bool
    ensures { result ≡ is_long word.now }
{
    word == b"long".as_slice()
}

/// How long a run may be, by the last word.
fn extent_of(words: &[Bytes]) -> Extent
    ensures { result ≡ extent_of words.now }
{
    match words.last() {
        None => Extent::Short,
        Some(word) => {
            if is_long(word.as_slice()) {
                Extent::Long
            } else {
                Extent::Short
            }
        }
    }
}

/// The command, if after the words that ask for it, from this place on, there is nothing or `long`.
fn at_end(command: Command, place: u32, words: &[Bytes]) -> Result<Command, u32>
    requires within { IsWithin command }
    requires few { place ≤ 4 }
    ensures is { result ≡ at_end command place words.now }
    ensures within { IfOk result IsWithin }
{
    let [first, others @ ..] = words else {
        return Ok(command);
    };
    if is_long(first.as_slice()) {
        alone(command, place + 1, others)
    } else {
        Err(place)
    }
}

/// How long a run may be that is written so: no dump is long.
fn extent_asked(format: Format, words: &[Bytes]) -> Extent
    ensures { result ≡ extent_asked format words.now }
{
    match format {
        Format::Trace => extent_of(words),
        Format::Dump(_) => Extent::Short,
    }
}

/// What the words after `run` or `vcd` ask for.
fn after_run(format: Format, words: &[Bytes]) -> Result<Command, u32>
    ensures is { result ≡ after_run format words.now }
    ensures within { IfOk result IsWithin }
{
    let [first, others @ ..] = words else {
        return Err(1);
    };
    let most = extent_asked(format, others).most_ticks();
    match number_in(1, u64::from(most), first.as_slice()) {
        Some(ticks) => after_ticks(format, ticks as u32, others),
        None => Err(1),
    }
}

/// What the words after the number of ticks ask for.
fn after_ticks(format: Format, ticks: u32, words: &[Bytes]) -> Result<Command, u32>
    requires { (1 ≤ ticks) × (ticks ≤ most_ticks Long) }
    ensures is { result ≡ after_ticks format ticks words.now }
    ensures within { IfOk result IsWithin }
{
    let [first, others @ ..] = words else {
        return Err(2);
    };
    match number_in(0, u64::MAX, first.as_slice()) {
        Some(seed) => after_seed(format, ticks, seed, others),
        None => Err(2),
    }
}

/// What the words after the seed ask for.
fn after_seed(format: Format, ticks: u32, seed: u64, words: &[Bytes]) -> Result<Command, u32>
    requires { (1 ≤ ticks) × (ticks ≤ most_ticks Long) }
    ensures is { result ≡ after_seed format ticks seed words.now }
    ensures within { IfOk result IsWithin }
{
    let mut asked = Asked {
        ticks,
        seed,
        case: None,
        format,
    };
    let [first, others @ ..] = words else {
        return Ok(Command::Run(asked));
    };
    match case_of(first.as_slice()) {
        Some(case) => {
            asked.case = Some(case as u16);
            after_case(asked, 4, others)
        }
        None => after_case(asked, 3, words),
    }
}

/// What the words after the case ask for, of which the first has this number: a trace may be long,
/// and a dump may have the length of its ticks.
fn after_case(asked: Asked, place: u32, words: &[Bytes]) -> Result<Command, u32>
    requires within { IsWithin (Command.Run asked) }
    requires few { place ≤ 4 }
    ensures is { result ≡ after_case asked place words.now }
    ensures within { IfOk result IsWithin }
{
    let [first, others @ ..] = words else {
        return Ok(Command::Run(asked));
    };
    match asked.format {
        Format::Trace => at_end(Command::Run(asked), place, words),
        Format::Dump(_) => match tick_asked(first.as_slice()) {
            Some(tick) => {
                let format = Format::Dump(tick);
                alone(Command::Run(Asked { format, ..asked }), place + 1, others)
            }
            None => Err(place),
        },
    }
}

/// The length of a tick that a word asks for.
fn tick_asked(word: &[u8]) -> Option<TickLength>
    ensures { result ≡ tick_asked word.now }
{
    match word.strip_prefix(b"tick=") {
        Some(text) => TickLength::of(text),
        None => None,
    }
}

/// What the words after `judge` ask for.
fn after_judge(words: &[Bytes]) -> Result<Command, u32>
    ensures is { result ≡ after_judge words.now }
    ensures within { IfOk result IsWithin }
{
    let [first, others @ ..] = words else {
        return Err(1);
    };
    let extent = extent_of(others);
    match number_in(0, u64::from(extent.most_ticks()), first.as_slice()) {
        Some(from) => {
            let from = from as u32;
            at_end(Command::Judge(Trial { from, extent }), 2, others)
        }
        None => Err(1),
    }
}

/// The case that a word asks for.
fn case_of(word: &[u8]) -> Option<u64>
    ensures is { result ≡ case_of word.now }
    ensures within { IfSome result (λ case. (1 ≤ case) × (case ≤ 256)) }
{
    match word.strip_prefix(b"case=") {
        Some(digits) => number_in(1, MOST_CASES, digits),
        None => None,
    }
}

/// The number of these bounds whose decimal text this is.
#[tactic(auto, unfolding(crate::specs::Words::number_in))]
pub(crate) fn number_in(least: u64, most: u64, digits: &[u8]) -> Option<u64>
    ensures is { result ≡ number_in least most digits.now }
    ensures within { IfSome result (λ number. (least ≤ number) × (number ≤ most)) }
{
    let value = value(digits);
    if u128::from(least) <= value && value <= u128::from(most) {
        let number = value as u64;
        if Buffer::new().format(number).as_bytes() == digits {
            return Some(number);
        }
    }
    None
}

/// The value of digits, or the greatest number of 128 bits if it is greater.
fn value(digits: &[u8]) -> u128
    ensures { result ≡ min (value_of digits.now) (2 ^ 128 - 1) }
{
    let mut value: u128 = 0;
    for digit in digits {
        value = value
            .saturating_mul(10)
            .saturating_add(u128::from(digit.saturating_sub(b'0')));
    }
    value
}
