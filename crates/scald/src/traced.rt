//! What the program says on standard error if the simulator ends without an answer.

ghost use Rattle.std.specs.Prelude.{◌≡◌};
ghost use Rattle.scald.specs.Said.{IsDrawingIn, asks_to_judge};

use crate::said::{say, say_end, say_lines, say_refusal};
use diagnostics::{Lines, Part};
use scald_base::Words;
use std::alloc::Global;
use std::io::Eprint;
use trace_tool::{TraceOutcome, split_trace};

/// What is said if more bytes came than are read.
const TOO_LONG: &str =
    "scald: the drawing has more than 4194304 bytes, or with a trace more than 16777216";

/// What is said if the run is too big.
const TOO_BIG: &str = "scald: the run would have more than 4000000 bits";

/// Which line of a trace is wrong, from 1, or that none ends it if the number is 0.
fn explain_line(alloc: Global, number: u32) -> Lines {
    let mut out = Lines::new(alloc);
    if number == 0 {
        out.line(&[Part::Text(b"scald: no line END TRACE ends the trace")]);
    } else {
        out.line(&[
            Part::Text(b"scald: line "),
            Part::Number(u64::from(number)),
            Part::Text(b" is not a valid line of a trace of the drawing"),
        ]);
    }
    out
}

/// How many cases there are.
pub fn explain_cases(alloc: Global, count: u32) -> Lines {
    let mut out = Lines::new(alloc);
    out.line(&[
        Part::Text(b"scald: the drawing has no such case: it has "),
        Part::Number(u64::from(count)),
    ]);
    out
}

/// Whether the first word is `judge`.
fn asks_to_judge(words: &Words) -> bool
    ensures { result ≡ asks_to_judge words.now }
{
    let [first, ..] = words.as_slice() else {
        return false;
    };
    first.as_slice() == b"judge".as_slice()
}

/// The drawing in a text: what follows the trace if a trace is judged, and else all of it.
fn drawing_of<'a>(words: &Words, text: &'a [u8]) -> &'a [u8]
    ensures { IsDrawingIn (asks_to_judge words.now) text.now result.now }
{
    if !asks_to_judge(words) {
        return text;
    }
    match split_trace(text) {
        Some((_, drawing)) => drawing,
        None => text,
    }
}

/// Says why the simulator has no answer, if it has none: `text` is what was read, if that was
/// kept.
pub fn say_trace(
    rt: &(impl Eprint + AllocGlobal),
    words: &Words,
    text: Option<&[u8]>,
    outcome: &TraceOutcome,
) {
    match outcome {
        TraceOutcome::Ended(end) => say_end(rt, words, *end, TOO_LONG),
        TraceOutcome::Refused(refusal) => {
            if let Some(text) = text {
                say_refusal(rt, Some(drawing_of(words, text)), *refusal);
            }
        }
        TraceOutcome::BadTrace(number) => say_lines(rt, &explain_line(rt.alloc(), *number)),
        TraceOutcome::NoCase(count) => say_lines(rt, &explain_cases(rt.alloc(), *count)),
        TraceOutcome::TooBig => say(rt, TOO_BIG),
        TraceOutcome::Done | TraceOutcome::Broken | TraceOutcome::NotRun => {}
    }
}
