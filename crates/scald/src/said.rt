//! What the program says on standard error: why it ends without an answer to the drawing, and
//! beside an answer which nets cross between sections, how many nets are taken as constant, and how
//! many notes there are. The status says what matters, so nothing is promised of these lines.

use crate::named::Answer;
use crate::traced::{explain_cases, say_trace};
use diagnostics::{
    Lines, Part, explain_notes, explain_refusal, explain_section, explain_undriven, explain_words,
    part, sets_limit,
};
use draw_report::DrawOutcome;
use fault_decider::DecideOutcome;
use netlist_import::ImportOutcome;
use scald_base::{CallEnd, Outcome, Refusal, Words};
use scald_tool::Omissions;
use section_compose::{SectionsOutcome, explain_broken, list_crossings, piece_of_section};
use std::alloc::Global;
use std::io::Eprint;

/// The forms of words that the program knows.
const FORMS: &str = "usage:
    scald verify [waves|faults] [rounds=N] <DRAWING    whether the drawing keeps its constraints, with its waves and faults
    scald notes <DRAWING                               likely omissions
    scald format <DRAWING                              the drawing in its canonical form
    scald upgrade <DRAWING                             the drawing in version 2 of the language
    scald slack [worst=N] [rounds=N] <DRAWING          by how many ticks each limit is met or missed, the worst first
    scald explain [worst=N] [rounds=N] <DRAWING        the changes that come to the worst of them, and their sums
    scald margins <DRAWING                             by how much more each checker may ask for
    scald chains <DRAWING                              where each fault comes from
    scald sections <DRAWINGS                           verify of drawings with a line ===== between them, each by itself and joined
    scald decide [effort=N] [trace=I] <DRAWING         each fault shown by a run, or refuted; the run of the I-th as a trace
    scald run T SEED [case=K] [long] <DRAWING          a run of T ticks that a seed draws, 1 to 4096, or with long 1048576, as a trace
    scald vcd T SEED [case=K] [tick=1ns] <DRAWING      the same run as a value change dump, for a wave viewer
    scald judge F [long] <TRACE-AND-DRAWING            whether the trace is a run, and what breaks in it from tick F on
    scald draw [faults|waves] [rounds=N] <DRAWING      a page of the broken limits and of the waves of all cases, or of one of both
    scald draw waves under=PATH [rounds=N] <DRAWING    a page of the waves of the nets whose names begin with PATH
    scald draw case=K [rounds=N] <DRAWING              the waves of a case as a picture; K is 0 if no case is listed
    scald draw N|worst=N [rounds=N] <DRAWING           the N-th limit that is broken, or the N-th of all, as a picture
    scald import [cells] <NETLIST                      macros of a netlist that yosys wrote as JSON, or of its kinds of cells, to fill in
    scald bench N                                      what is found in a made drawing of N sections, 1 to 200";

/// What is said if memory ran out.
pub const NO_MEMORY: &str = "scald: there is not enough memory";

/// What is said if reading failed.
const UNREAD: &str = "scald: standard input could not be read";

/// What is said if writing failed.
const UNWRITTEN: &str = "scald: standard output could not be written";

/// What is said if the waves do not settle, and the words set no limit.
const UNSETTLED: &str =
    "scald: the net that is named still changes after the last round: a loop leads to it
    rounds=N with a greater N, of at most 10000000, allows more rounds";

/// What is said if the waves do not settle in the rounds that are asked for.
const UNSETTLED_WITHIN: &str =
    "scald: the net that is named still changes after the rounds that rounds=N allows
    a greater N, of at most 10000000, allows more rounds";

/// What is said if the waves of a section do not settle.
const UNSETTLED_SECTION: &str =
    "scald: the net that is named still changes after the last round: a loop leads to it
    verify of that section alone takes rounds=N, which allows more rounds";

/// What is said if more bytes came than a drawing or sections may have.
const TOO_LONG: &str = "scald: the drawing has more than 4194304 bytes";

/// What is said if no net is below the path that is asked for.
const NO_NET: &str = "scald: no net has a name that begins so";

/// What is said if there is too much to draw.
const TOO_MUCH: &str = "scald: there are more than 8192 rows or 262144 runs to draw";

/// What is said if more bytes came than a netlist may have.
const TOO_LONG_NETLIST: &str = "scald: the netlist has more than 67108864 bytes";

/// What is said if there is no run of a fault to write.
const NO_RUN: &str = "scald: there is no such fault, or no run that shows it was found";

/// What is said if there are too few or too many sections.
const BAD_COUNT: &str = "scald: there should be 2 to 64 sections, with a line ===== between them";

/// Says why there is no answer. The status says it too, so it does not matter if standard error
/// fails.
pub fn say(rt: &impl Eprint, why: &str) {
    let _ = rt.eprintln(why);
}

/// Says lines that help.
pub fn say_lines(rt: &impl Eprint, lines: &Lines) {
    let _ = rt.eprint(lines.as_str());
}

/// Says what is wrong with a text that is refused, if it was kept.
pub fn say_refusal(rt: &(impl Eprint + AllocGlobal), text: Option<&[u8]>, refusal: Refusal) {
    if let Some(text) = text {
        say_lines(rt, &explain_refusal(rt.alloc(), text, refusal));
    }
}

/// Says how many nets have neither a driver nor an assertion, and how many notes there are, if
/// there are some.
pub fn say_omissions(rt: &(impl Eprint + AllocGlobal), omissions: &Omissions) {
    say_lines(rt, &explain_undriven(rt.alloc(), omissions.undriven));
    say_lines(rt, &explain_notes(rt.alloc(), omissions.notes));
}

/// Says what is wrong with the words, and which forms there are. `number` is that of the first with
/// which no form continues, from 0, or the count of words if one is missing.
fn say_words(rt: &(impl Eprint + AllocGlobal), words: &Words, number: u32) {
    say_lines(rt, &explain_words(rt.alloc(), words, number));
    say(rt, FORMS);
}

/// Says why a call ended without its whole answer: `too_long` if more bytes came than it reads.
pub fn say_end(rt: &(impl Eprint + AllocGlobal), words: &Words, end: CallEnd, too_long: &str) {
    match end {
        CallEnd::BadWords(number) => say_words(rt, words, number),
        CallEnd::TooLong => say(rt, too_long),
        CallEnd::ReadFault => say(rt, UNREAD),
        CallEnd::WriteFault => say(rt, UNWRITTEN),
        CallEnd::NoMemory => say(rt, NO_MEMORY),
    }
}

/// Says why there is no answer to the drawing, if there is none.
fn say_outcome(
    rt: &(impl Eprint + AllocGlobal),
    words: &Words,
    text: Option<&[u8]>,
    outcome: &Outcome,
) {
    match outcome {
        Outcome::BadWords(number) => say_words(rt, words, *number),
        Outcome::TooLong => say(rt, TOO_LONG),
        Outcome::ReadFault => say(rt, UNREAD),
        Outcome::WriteFault => say(rt, UNWRITTEN),
        Outcome::NoMemory => say(rt, NO_MEMORY),
        Outcome::Refused(refusal) => say_refusal(rt, text, *refusal),
        Outcome::Unsettled { .. } if sets_limit(words) => say(rt, UNSETTLED_WITHIN),
        Outcome::Unsettled { .. } => say(rt, UNSETTLED),
        Outcome::Clean | Outcome::Faulty(_) | Outcome::Done => {}
    }
}

/// Says why there are no macros, if the call ended before they were written. If the netlist is
/// refused, the answer says why.
fn say_netlist(rt: &(impl Eprint + AllocGlobal), words: &Words, outcome: &ImportOutcome) {
    match outcome {
        ImportOutcome::Ended(end) => say_end(rt, words, *end, TOO_LONG_NETLIST),
        ImportOutcome::Done | ImportOutcome::Refused(_) => {}
    }
}

/// Says what is wrong with a section, counted from 1.
fn say_section(rt: &(impl Eprint + AllocGlobal), text: &[u8], section: u32, refusal: Refusal) {
    if let Some(piece) = piece_of_section(rt.alloc(), text, section) {
        let lines = part(text, piece.from, piece.to);
        say_lines(
            rt,
            &explain_section(rt.alloc(), text, piece.from, lines, section),
        );
        say_lines(rt, &explain_refusal(rt.alloc(), lines, refusal));
    }
}

/// Says why there is no answer to sections, if there is none, or else which nets cross between
/// them; of their text, if it was kept.
fn say_sections(
    rt: &(impl Eprint + AllocGlobal),
    words: &Words,
    text: Option<&[u8]>,
    outcome: &SectionsOutcome,
) {
    match (outcome, text) {
        (SectionsOutcome::Ended(end), _) => say_end(rt, words, *end, TOO_LONG),
        (SectionsOutcome::BadCount(_), _) => say(rt, BAD_COUNT),
        (SectionsOutcome::Unsettled { .. }, _) => say(rt, UNSETTLED_SECTION),
        (SectionsOutcome::Refused { section, refusal }, Some(text)) => {
            say_section(rt, text, *section, *refusal)
        }
        (SectionsOutcome::BadSection { .. }, Some(text)) => {
            say_lines(rt, &explain_broken(rt.alloc(), text))
        }
        (SectionsOutcome::Clean | SectionsOutcome::Faulty(_), Some(text)) => {
            say_lines(rt, &list_crossings(rt.alloc(), text))
        }
        (_, None) => {}
    }
}

/// How many limits there are that could be drawn.
fn explain_rows(alloc: Global, count: u32) -> Lines {
    let mut out = Lines::new(alloc);
    out.line(&[
        Part::Text(b"scald: there is no such limit: the last to draw is "),
        Part::Number(u64::from(count)),
    ]);
    out
}

/// Says why there is no picture, if there is none.
fn say_picture(
    rt: &(impl Eprint + AllocGlobal),
    words: &Words,
    text: Option<&[u8]>,
    outcome: &DrawOutcome,
) {
    match outcome {
        DrawOutcome::Drawing(outcome) | DrawOutcome::Limits(outcome) => {
            say_outcome(rt, words, text, outcome)
        }
        DrawOutcome::NoCase(count) => say_lines(rt, &explain_cases(rt.alloc(), *count)),
        DrawOutcome::NoRow(count) => say_lines(rt, &explain_rows(rt.alloc(), *count)),
        DrawOutcome::NoNet => say(rt, NO_NET),
        DrawOutcome::TooMuch => say(rt, TOO_MUCH),
    }
}

/// Says why there is no answer of the faults of a drawing, if there is none.
fn say_faults(
    rt: &(impl Eprint + AllocGlobal),
    words: &Words,
    text: Option<&[u8]>,
    outcome: &DecideOutcome,
) {
    match outcome {
        DecideOutcome::Ended(end) => say_end(rt, words, *end, TOO_LONG),
        DecideOutcome::Refused(refusal) => say_refusal(rt, text, *refusal),
        DecideOutcome::Unsettled { .. } => say(rt, UNSETTLED),
        DecideOutcome::NoRun => say(rt, NO_RUN),
        DecideOutcome::Settled | DecideOutcome::Faulty | DecideOutcome::Done => {}
    }
}

/// Says why there is no answer, if there is none: `text` is what was read, if that was kept.
pub fn say_answer(
    rt: &(impl Eprint + AllocGlobal),
    words: &Words,
    text: Option<&[u8]>,
    answer: &Answer,
) {
    match answer {
        Answer::Drawing(outcome) => say_outcome(rt, words, text, outcome),
        Answer::Sections(outcome) => say_sections(rt, words, text, outcome),
        Answer::Faults(outcome) => say_faults(rt, words, text, outcome),
        Answer::Run(outcome) => say_trace(rt, words, text, outcome),
        Answer::Picture(outcome) => say_picture(rt, words, text, outcome),
        Answer::Netlist(outcome) => say_netlist(rt, words, outcome),
    }
}
