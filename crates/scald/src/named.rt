//! The main call that the first word names.

ghost use Rattle.std.specs.Prelude.{◌≡◌, ℕ, List, IfSome, true};
ghost use Rattle.fault_decider.specs.Promise.{NeverBreaksLater};
ghost use Rattle.program_call.specs.Call.{devices};
ghost use Rattle.scald.specs.Named.{IsAnswerOf, call_of, status_of};
ghost use Rattle.scald_tool.specs.Promise.{has_report};
ghost use Rattle.section_compose.specs.Promise.{NeverBreaksJoined};
ghost use Rattle.timing_analysis.specs.Promise.{FaultlessNeverBreaks, NeverBreaks};

use draw_report::{DrawOutcome, draw_main, draw_status};
use drawing_notes::notes_main;
use fault_chain::chain_main;
use fault_decider::{DecideOutcome, decide_main, decide_status};
use margin_report::margin_main;
use netlist_import::{ImportOutcome, import_main, import_status};
use scald_base::{Outcome, Sink, Source, Words};
use scald_tool::{Omissions, status, tool_main};
use section_compose::{SectionsOutcome, sections_main, sections_status};
use slack_report::slack_main;
use std::alloc::Global;
use trace_tool::{TraceOutcome, trace_main, trace_status};

/// A main call.
#[derive(Clone, Copy, PartialEq, Eq, Debug)]
pub enum Call {
    /// That of the verifier.
    Tool,
    /// That of the notes.
    Notes,
    /// That of the margins.
    Margins,
    /// That of the chains.
    Chains,
    /// That of the slacks.
    Slacks,
    /// That of sections.
    Sections,
    /// That of decisions.
    Decisions,
    /// That of the simulator.
    Simulator,
    /// That of pictures.
    Pictures,
    /// That of the import of netlists.
    Importer,
}

/// What a main call answers: to one drawing, to several, of its faults, of a run, by a picture, or to
/// a netlist.
#[derive(Clone, Copy)]
pub enum Answer {
    Drawing(Outcome),
    Sections(SectionsOutcome),
    Faults(DecideOutcome),
    Run(TraceOutcome),
    Picture(DrawOutcome),
    Netlist(ImportOutcome),
}

impl Answer {
    /// The status of its outcome.
    pub fn status(&self) -> u8
        ensures { result ≡ status_of self.now }
    {
        match self {
            Answer::Drawing(outcome) => status(outcome),
            Answer::Sections(outcome) => sections_status(outcome),
            Answer::Faults(outcome) => decide_status(outcome),
            Answer::Run(outcome) => trace_status(outcome),
            Answer::Picture(outcome) => draw_status(outcome),
            Answer::Netlist(outcome) => import_status(outcome),
        }
    }
}

/// The main call that the first word names, or that of the verifier if it names none or there is
/// none.
fn call_of(words: &Words) -> Call
    ensures { result ≡ call_of words.now }
{
    let [first, ..] = words.as_slice() else {
        return Call::Tool;
    };
    if first.as_slice() == b"notes".as_slice() {
        Call::Notes
    } else if first.as_slice() == b"margins".as_slice() {
        Call::Margins
    } else if first.as_slice() == b"chains".as_slice() {
        Call::Chains
    } else if first.as_slice() == b"slack".as_slice() {
        Call::Slacks
    } else if first.as_slice() == b"explain".as_slice() {
        Call::Slacks
    } else if first.as_slice() == b"sections".as_slice() {
        Call::Sections
    } else if first.as_slice() == b"decide".as_slice() {
        Call::Decisions
    } else if first.as_slice() == b"run".as_slice() {
        Call::Simulator
    } else if first.as_slice() == b"vcd".as_slice() {
        Call::Simulator
    } else if first.as_slice() == b"judge".as_slice() {
        Call::Simulator
    } else if first.as_slice() == b"draw".as_slice() {
        Call::Pictures
    } else if first.as_slice() == b"import".as_slice() {
        Call::Importer
    } else {
        Call::Tool
    }
}

/// The answer of the main call that the first word names, to all words. `omissions` are as
/// `tool_main` counts them.
pub fn answer_to<S: Source, K: Sink>(
    alloc: Global,
    words: &Words,
    source: &mut S,
    sink: &mut K,
    omissions: &mut Omissions,
) -> Answer
    ensures call { IsAnswerOf (call_of words.now) words.now result
        (devices S.left S.faults K.taken K.faults) source.old source.new sink.old sink.new }

    // No fault, no break: in every run of the circuit that the text draws, from the printed tick
    // on.
    ensures clean { IfSome (S.left source.old) (λ text. call_of words.now ≡ Call.Tool →
        result ≡ Answer.Drawing Outcome.Clean → NeverBreaks text) }
    ensures faultless { IfSome (S.left source.old) (λ text. (o : Outcome) →
        call_of words.now ≡ Call.Tool → result ≡ Answer.Drawing o → has_report o ≡ true →
        FaultlessNeverBreaks text) }

    // The same of `slack` and `explain`, if no limit is broken.
    ensures met { IfSome (S.left source.old) (λ text. call_of words.now ≡ Call.Slacks →
        result ≡ Answer.Drawing Outcome.Clean → NeverBreaks text) }

    // The same of `decide` from a later tick on, if every fault is refuted.
    ensures decided { IfSome (S.left source.old) (λ text. call_of words.now ≡ Call.Decisions →
        result ≡ Answer.Faults DecideOutcome.Settled → NeverBreaksLater text) }

    // The same of the whole that sections make.
    ensures joined { IfSome (S.left source.old) (λ text. call_of words.now ≡ Call.Sections →
        result ≡ Answer.Sections SectionsOutcome.Clean → NeverBreaksJoined text) }
{
    match call_of(words) {
        Call::Tool => Answer::Drawing(tool_main(alloc, words, source, sink, omissions)),
        Call::Notes => Answer::Drawing(notes_main(alloc, words, source, sink)),
        Call::Margins => Answer::Drawing(margin_main(alloc, words, source, sink)),
        Call::Chains => Answer::Drawing(chain_main(alloc, words, source, sink)),
        Call::Slacks => Answer::Drawing(slack_main(alloc, words, source, sink)),
        Call::Sections => Answer::Sections(sections_main(alloc, words, source, sink)),
        Call::Decisions => Answer::Faults(decide_main(alloc, words, source, sink)),
        Call::Simulator => Answer::Run(trace_main(alloc, words, source, sink)),
        Call::Pictures => Answer::Picture(draw_main(alloc, words, source, sink)),
        Call::Importer => Answer::Netlist(import_main(alloc, words, source, sink)),
    }
}
