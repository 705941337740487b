//! The timing verifier as a program: it reads a drawing, or several, from standard input and writes
//! the report to standard output. Its words are its arguments, and it ends with the status of the
//! outcome. If there is no answer to the drawing, standard error says why, and what may help;
//! standard output has the answer alone.
//!
//! The first word names a main call: `notes` is `drawing_notes::notes_main`, `margins` is
//! `margin_report::margin_main`, `chains` is `fault_chain::chain_main`, `slack` and `explain`
//! are `slack_report::slack_main`, `sections` is `section_compose::sections_main`, `decide` is
//! `fault_decider::decide_main`, `run`, `vcd` and `judge` are `trace_tool::trace_main`, `draw`
//! is `draw_report::draw_main`, `import` is `netlist_import::import_main`, and all other words
//! are those of `scald_tool::tool_main`. The contract of each says what its answer means.
#![tactic(auto)]

ghost use Rattle.std.specs.Prelude.{◌≡◌};
ghost use Rattle.std.specs.Process.{exit_status};
ghost use Rattle.program_call.specs.Call.{devices};
ghost use Rattle.scald.specs.Named.{EndsWith, status_of};
ghost use Rattle.scald.specs.Said.{unstarted_status};

mod named;
mod said;
mod traced;
mod unstarted;

use diagnostics::KeptSource;
use named::{Answer, answer_to};
use said::{say, say_answer, say_omissions};
use scald_base::{Outcome, Sink, Source, StdSink, StdSource};
use scald_tool::{Omissions, Words, words_of};
use std::io::Eprint;
use std::process::ExitCode;
use std::rt::Env;
use std::{env, io};
use unstarted::Unstarted;

/// The words of the program's arguments, as the system gives them.
fn words(rt: &(impl Env + AllocGlobal)) -> Result<Words, Unstarted> {
    Ok(words_of(rt.alloc(), env::args(rt)?)?)
}

/// Says why there are no words, and gives the status of that.
fn end_unstarted(rt: &impl Eprint, cause: Unstarted) -> ExitCode
    ensures { exit_status result ≡ unstarted_status cause }
{
    say(rt, cause.why());
    ExitCode::from(cause.status())
}

/// Says why there is no answer, if there is none, or else what the drawing leaves out, and gives
/// the status of the outcome.
fn end(
    rt: &(impl Eprint + AllocGlobal),
    words: &Words,
    text: Option<&[u8]>,
    answer: &Answer,
    omissions: &Omissions,
) -> ExitCode
    ensures { exit_status result ≡ status_of answer.now }
{
    say_answer(rt, words, text, answer);
    if let Answer::Drawing(Outcome::Clean | Outcome::Faulty(_)) = answer {
        say_omissions(rt, omissions);
    }
    ExitCode::from(answer.status())
}

/// Answers these words over any source and any sink, and gives the status of the outcome.
fn answered<S: Source, K: Sink>(
    rt: &(impl Eprint + AllocGlobal),
    words: &Words,
    source: &mut KeptSource<S>,
    sink: &mut K,
) -> ExitCode
    ensures { EndsWith (exit_status result) words.now
        (devices ⟦<KeptSource<S> as Source>⟧.left ⟦<KeptSource<S> as Source>⟧.faults
        K.taken K.faults) source.old source.new sink.old sink.new }
{
    let mut omissions = Omissions::asked();
    let answer = answer_to(rt.alloc(), words, source, sink, &mut omissions);
    end(rt, words, source.kept(), &answer, &omissions)
}

// No clause says that the words are the process' arguments and the devices its standard streams:
// std's contracts name neither.
fn main(rt: HostRuntime) -> ExitCode {
    let words = match words(&rt) {
        Ok(words) => words,
        Err(cause) => return end_unstarted(&rt, cause),
    };
    let mut source = KeptSource::new(rt.alloc(), StdSource::new(rt.reader()));
    let mut sink = StdSink::new(io::writer(&rt));
    answered(&rt, &words, &mut source, &mut sink)
}
