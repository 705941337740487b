//! The words of both programs.

ghost use Rattle.std.specs.Prelude.{◌≡◌, ◌<◌, ◌≤◌, IfOk, IfSome};
ghost use Rattle.slack_report.specs.Words.{IsWithin, after_name, after_worst, alone, part_of, request_of, worst_of};

use program_call::{number_in, rounds_of};
use scald_base::{Bytes, Words};

/// The most rows that may be asked for.
const MOST_ROWS: u32 = 65_536;

/// Which part of the answer is wanted.
#[derive(Clone, Copy)]
pub enum Part {
    /// The table.
    Table,
    /// The paragraphs.
    Paragraphs,
}

/// What is asked for: which part, how many rows, 1 to 65,536, and how many rounds there may be, 1
/// to 10,000,000, if that is said.
#[derive(Clone, Copy)]
pub struct Request {
    pub part: Part,
    pub worst: Option<u32>,
    pub rounds: Option<u32>,
}

/// The part that a name asks for.
fn part_of(name: &[u8]) -> Option<Part>
    ensures { result ≡ part_of name.now }
{
    if name == b"slack".as_slice() {
        Some(Part::Table)
    } else if name == b"explain".as_slice() {
        Some(Part::Paragraphs)
    } else {
        None
    }
}

/// How many rows a word asks for, if it is `worst=N`.
fn worst_of(word: &[u8]) -> Option<u32>
    ensures is { result ≡ worst_of word.now }
    ensures within { IfSome result (λ rows. (1 ≤ rows) × (rows ≤ 65536)) }
{
    match word.strip_prefix(b"worst=") {
        Some(digits) => number_in(MOST_ROWS, digits),
        None => None,
    }
}

/// The request, if no word follows those that make it. Such a word would have this number.
fn alone(request: Request, place: u32, others: &[Bytes]) -> Result<Request, u32>
    requires { IsWithin request }
    ensures is { result ≡ alone request place others.now }
    ensures within { IfOk result IsWithin }
{
    if others.is_empty() {
        Ok(request)
    } else {
        Err(place)
    }
}

/// What is asked for by the words from this number on, if it is known how many rows are asked
/// for.
fn after_worst(part: Part, worst: Option<u32>, place: u32, words: &[Bytes]) -> Result<Request, u32>
    requires worst { IfSome worst (λ rows. (1 ≤ rows) × (rows ≤ 65536)) }
    requires place { place < 3 }
    ensures is { result ≡ after_worst part worst place words.now }
    ensures within { IfOk result IsWithin }
{
    let [first, others @ ..] = words else {
        return Ok(Request {
            part,
            worst,
            rounds: None,
        });
    };
    match rounds_of(first.as_slice()) {
        Some(limit) => {
            let rounds = Some(limit);
            let request = Request {
                part,
                worst,
                rounds,
            };
            alone(request, place + 1, others)
        }
        None => Err(place),
    }
}

/// What is asked for by the words after the name.
fn after_name(part: Part, words: &[Bytes]) -> Result<Request, u32>
    ensures is { result ≡ after_name part words.now }
    ensures within { IfOk result IsWithin }
{
    let [first, others @ ..] = words else {
        return after_worst(part, None, 1, words);
    };
    match worst_of(first.as_slice()) {
        Some(rows) => after_worst(part, Some(rows), 2, others),
        None => after_worst(part, None, 1, words),
    }
}

/// What the words ask for: a name, and then `worst=N` and `rounds=N`, of which each may be left
/// out. `Err` is the number of the first with which no form goes on, from 0.
pub fn read_request(words: &Words) -> Result<Request, u32>
    ensures is { result ≡ request_of words.now }
    ensures within { IfOk result IsWithin }
{
    let [first, others @ ..] = words.as_slice() else {
        return Err(0);
    };
    match part_of(first.as_slice()) {
        Some(part) => after_name(part, others),
        None => Err(0),
    }
}
