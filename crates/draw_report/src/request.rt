//! The words of `draw`.

ghost use Rattle.std.specs.Prelude.{◌≡◌, ◌≤◌, IfOk, IfSome};
ghost use Rattle.std.specs.Option.{option_copied};
ghost use Rattle.draw_report.specs.Words.{IsNumbered, IsWithin, after_asked, after_name, after_shown, alone, asked_of, case_of, page_of, path_of, request_of, row_of, takes_path, under_of};

use crate::asked::{Among, Asked, Limits, Shows, Wanted};
use program_call::{number_in, rounds_of};
use scald_base::{Bytes, Words};

/// The highest number of a case.
const MOST_CASES: u32 = 256;

/// The highest number of a row.
const MOST_ROWS: u32 = 65_536;

/// What is asked for, and how many rounds there may be, 1 to 10,000,000, if that is said.
#[derive(Clone, Copy)]
pub struct Request {
    pub asked: Asked,
    pub rounds: Option<u32>,
}

/// The case that a word asks for, if it is `case=K`.
fn case_of(word: &[u8]) -> Option<Asked>
    ensures is { result ≡ case_of word.now }
    ensures within { IfSome result IsNumbered }
{
    match word.strip_prefix(b"case=") {
        Some(b"0") => Some(Asked::Case(0)),
        Some(digits) => Some(Asked::Case(number_in(MOST_CASES, digits)?)),
        None => None,
    }
}

/// The row that a word asks for, if it is `worst=N` or `N`.
fn row_of(word: &[u8]) -> Option<Asked>
    ensures is { result ≡ row_of word.now }
    ensures within { IfSome result IsNumbered }
{
    let (among, digits) = match word.strip_prefix(b"worst=") {
        Some(digits) => (Among::All, digits),
        None => (Among::Broken, word),
    };
    let number = number_in(MOST_ROWS, digits)?;
    Some(Asked::Limits(Limits::Row(Wanted { among, number })))
}

/// The page that a word asks for, if it is `faults` or `waves`.
fn page_of(word: &[u8]) -> Option<Asked>
    ensures is { result ≡ page_of word.now }
    ensures within { IfSome result IsNumbered }
{
    if word == b"faults".as_slice() {
        Some(Asked::Limits(Limits::Page(Shows::Faults)))
    } else if word == b"waves".as_slice() {
        Some(Asked::Limits(Limits::Page(Shows::Waves)))
    } else {
        None
    }
}

/// What a word asks for.
fn asked_of(word: &[u8]) -> Option<Asked>
    ensures is { result ≡ asked_of word.now }
    ensures within { IfSome result IsNumbered }
{
    if let Some(asked) = page_of(word) {
        return Some(asked);
    }
    match case_of(word) {
        Some(asked) => Some(asked),
        None => row_of(word),
    }
}

/// The request, if no word follows those that make it; the first that did would have this number.
fn alone(request: Request, place: u32, others: &[Bytes]) -> Result<Request, u32>
    requires { IsWithin request }
    ensures is { result ≡ alone request place others.now }
    ensures within { IfOk result IsWithin }
{
    if others.is_empty() {
        Ok(request)
    } else {
        Err(place)
    }
}

/// What is asked for by the words after what is drawn, the first of which has this number.
fn after_asked(asked: Asked, place: u32, words: &[Bytes]) -> Result<Request, u32>
    requires asked { IsNumbered asked }
    requires place { place ≤ 3 }
    ensures is { result ≡ after_asked asked place words.now }
    ensures within { IfOk result IsWithin }
{
    let [first, others @ ..] = words else {
        return Ok(Request {
            asked,
            rounds: None,
        });
    };
    match rounds_of(first.as_slice()) {
        Some(limit) => {
            let rounds = Some(limit);
            alone(Request { asked, rounds }, place + 1, others)
        }
        None => Err(place),
    }
}

/// The path of a word, if it is `under=PATH`.
fn path_of(word: &[u8]) -> Option<&[u8]>
    ensures { option_copied result ≡ path_of word.now }
{
    word.strip_prefix(b"under=")
}

/// Whether a word is a path that may follow what is asked for.
fn takes_path(asked: Asked, word: &[u8]) -> bool
    ensures { result ≡ takes_path asked word.now }
{
    match asked {
        Asked::Limits(Limits::Page(Shows::Waves)) => path_of(word).is_some(),
        Asked::Limits(Limits::Page(Shows::All | Shows::Faults) | Limits::Row(_)) | Asked::Case(_) =>
            false,
    }
}

/// What is asked for by the words after what is drawn, of which the first may be a path.
fn after_shown(asked: Asked, words: &[Bytes]) -> Result<Request, u32>
    requires { IsNumbered asked }
    ensures is { result ≡ after_shown asked words.now }
    ensures within { IfOk result IsWithin }
{
    if let [first, others @ ..] = words {
        if takes_path(asked, first.as_slice()) {
            return after_asked(asked, 3, others);
        }
    }
    after_asked(asked, 2, words)
}

/// What is asked for by the words after the name: a whole page if they do not say what.
fn after_name(words: &[Bytes]) -> Result<Request, u32>
    ensures is { result ≡ after_name words.now }
    ensures within { IfOk result IsWithin }
{
    if let [first, others @ ..] = words {
        if let Some(asked) = asked_of(first.as_slice()) {
            return after_shown(asked, others);
        }
    }
    after_asked(Asked::Limits(Limits::Page(Shows::All)), 1, words)
}

/// What the words ask for: `draw` with `faults`, `waves`, `case=K`, `N` or `worst=N` or none of
/// them, after `waves` with `under=PATH` or without it, and then `rounds=N` if that is set. `Err`
/// is the number of the first with which no form goes on, from 0.
pub fn read_request(words: &Words) -> Result<Request, u32>
    ensures is { result ≡ request_of words.now }
    ensures within { IfOk result IsWithin }
{
    let [first, others @ ..] = words.as_slice() else {
        return Err(0);
    };
    if first.as_slice() == b"draw".as_slice() {
        after_name(others)
    } else {
        Err(0)
    }
}

/// The path that the words of a form ask for, if they do: only nets below it are to be shown.
pub fn under_of(words: &Words) -> Option<&[u8]>
    ensures { option_copied result ≡ under_of words.now }
{
    let [_, shown, first, ..] = words.as_slice() else {
        return None;
    };
    if shown.as_slice() == b"waves".as_slice() {
        path_of(first.as_slice())
    } else {
        None
    }
}
