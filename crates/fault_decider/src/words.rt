//! The words that ask for decisions.

ghost use Rattle.std.specs.Prelude.{◌≡◌, ◌≤◌, IfOk, IfSome};
ghost use Rattle.program_call.specs.Numbers.{number_in as number_among};
ghost use Rattle.fault_decider.specs.Words.{IsWithin, after_effort, after_name, alone, effort_of, most_faults, request_of, trace_of};

use program_call::number_in;
use scald_base::{Bytes, Words};

/// The most by which the budget may be multiplied.
const MOST_EFFORT: u32 = 1000;

/// What is asked for.
#[derive(Clone, Copy, PartialEq, Eq, Debug)]
pub struct Request {
    /// By how much the budget is multiplied: 1 to 1,000.
    pub effort: u32,
    /// Which fault's run is wanted as a trace, counted from 1 over all cases. Without one the
    /// report is written.
    pub trace: Option<u32>,
}

/// The N of `effort=N`.
fn effort_of(word: &[u8]) -> Option<u32>
    ensures is { result ≡ effort_of word.now }
    ensures within { IfSome result (λ effort. (1 ≤ effort) × (effort ≤ 1000)) }
{
    match word.strip_prefix(b"effort=") {
        Some(digits) => number_in(MOST_EFFORT, digits),
        None => None,
    }
}

/// A number from 1 to 4,294,967,295 by its decimal text.
#[tactic(auto, using(crate::proofs::Greatest::number_greatest, crate::proofs::Greatest::number_fewer))]
fn trace_number(digits: &[u8]) -> Option<u32>
    ensures is { result ≡ number_among most_faults digits.now }
    ensures within { IfSome result (λ trace. 1 ≤ trace) }
{
    if digits == b"4294967295".as_slice() {
        Some(u32::MAX)
    } else {
        number_in(u32::MAX - 1, digits)
    }
}

/// The I of `trace=I`.
fn trace_of(word: &[u8]) -> Option<u32>
    ensures is { result ≡ trace_of word.now }
    ensures within { IfSome result (λ trace. 1 ≤ trace) }
{
    match word.strip_prefix(b"trace=") {
        Some(digits) => trace_number(digits),
        None => None,
    }
}

/// The request, if no word follows those that make it. Such a word would have this number.
fn alone(request: Request, place: u32, others: &[Bytes]) -> Result<Request, u32>
    requires { IsWithin request }
    ensures is { result ≡ alone request place others.now }
    ensures within { IfOk result IsWithin }
{
    if others.is_empty() {
        Ok(request)
    } else {
        Err(place)
    }
}

/// What is asked for by the words from this number on, if the effort is known.
fn after_effort(effort: u32, place: u32, words: &[Bytes]) -> Result<Request, u32>
    requires effort { (1 ≤ effort) × (effort ≤ 1000) }
    requires place { place ≤ 2 }
    ensures is { result ≡ after_effort effort place words.now }
    ensures within { IfOk result IsWithin }
{
    let [first, others @ ..] = words else {
        return Ok(Request {
            effort,
            trace: None,
        });
    };
    match trace_of(first.as_slice()) {
        None => Err(place),
        Some(trace) => {
            let trace = Some(trace);
            alone(Request { effort, trace }, place + 1, others)
        }
    }
}

/// What is asked for by the words after the name.
fn after_name(words: &[Bytes]) -> Result<Request, u32>
    ensures is { result ≡ after_name words.now }
    ensures within { IfOk result IsWithin }
{
    let [first, others @ ..] = words else {
        return after_effort(1, 1, words);
    };
    match effort_of(first.as_slice()) {
        Some(effort) => after_effort(effort, 2, others),
        None => after_effort(1, 1, words),
    }
}

/// What the words ask for: `decide`, and then `effort=N` and `trace=I`, of which each may be left
/// out. `Err` is the number of the first with which no form goes on, from 0.
pub fn read_request(words: &Words) -> Result<Request, u32>
    ensures is { result ≡ request_of words.now }
    ensures within { IfOk result IsWithin }
{
    let [first, others @ ..] = words.as_slice() else {
        return Err(0);
    };
    if first.as_slice() == b"decide".as_slice() {
        after_name(others)
    } else {
        Err(0)
    }
}
