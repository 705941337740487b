//! An answer while it is made: its lines, and how many faults are in it.

ghost use Rattle.std.specs.Prelude.{◌≡◌, ◌+◌, ◌++◌, ◌∷◌, ℕ, [], List, IfOk, OnOk, None, Some, false};
ghost use Rattle.std.specs.List.{All};
ghost use Rattle.flat_circuit.specs.Circuit.{Circuit as Flat};
ghost use Rattle.timing_analysis.specs.Case.{Case as CaseOf};
ghost use Rattle.timing_analysis.specs.Promise.{IsKept};
ghost use Rattle.fault_decider.specs.declared.verdict.Verdict.{Verdict as VerdictOf};
ghost use Rattle.fault_decider.specs.Decided.{Concluded, end_line, outcome_of};
ghost use Rattle.fault_decider.specs.Reporting.{AreCounted, Holds, IsReport, IsSought};

use crate::outcome::DecideOutcome;
use crate::verdict::Verdict;
use crate::words::Request;
use flat_circuit::Circuit;
use listing::{Output, Piece, add_line, begin_report};
use program_call::Reply;
use scald_base::{Bytes, NoMemory};
use std::alloc::Global;

/// How many faults were shown, refuted and left open.
#[derive(Clone, Copy, PartialEq, Eq, Debug)]
pub struct Counts {
    pub shown: u32,
    pub refuted: u32,
    pub left_open: u32,
}

/// One more. Memory runs out before a number does.
pub fn one_more(count: u32) -> Result<u32, NoMemory>
    ensures { IfOk result (λ n. n ≡ count + 1) }
{
    match count.checked_add(1) {
        Some(n) => Ok(n),
        None => Err(NoMemory),
    }
}

impl Counts {
    /// Counts one more.
    #[tactic(auto, using(crate::proofs::Telling::counted_more))]
    pub fn count(&mut self, verdict: &Verdict) -> Result<(), NoMemory>
        ensures { OnOk result ((vs : List VerdictOf) → AreCounted self.old vs →
            AreCounted self.new (vs ++ verdict.now ∷ [])) }
    {
        match verdict {
            Verdict::Shown(_) => self.shown = one_more(self.shown)?,
            Verdict::Refuted { .. } => self.refuted = one_more(self.refuted)?,
            Verdict::Window { .. } => self.refuted = one_more(self.refuted)?,
            Verdict::Open => self.left_open = one_more(self.left_open)?,
        }
        Ok(())
    }

    fn all(&self) -> u64
        ensures { result ≡ self.now.shown + self.now.refuted + self.now.left_open }
    {
        u64::from(self.shown) + u64::from(self.refuted) + u64::from(self.left_open)
    }
}

/// The answer so far: the lines of a report, or the trace that is wanted.
#[derive(Drop)]
pub struct Answer {
    pub bytes: Bytes,
    pub counts: Counts,
    /// How many faults were passed, if a trace is wanted.
    pub faults: u32,
    /// The trace that was wanted is written.
    pub is_traced: bool,
}

/// What is asked of a drawing.
#[derive(Clone, Copy)]
pub struct Question {
    pub request: Request,
    pub version: u8,
}

/// The last line: how many faults there are, and what was said of them.
#[tactic(auto, using(crate::proofs::Ends::end_clean, crate::proofs::Ends::end_counted))]
fn add_end(out: &mut Bytes, counts: Counts) -> Result<(), NoMemory>
    ensures { OnOk result ((vs : List VerdictOf) → AreCounted counts vs →
        out.new ≡ out.old ++ end_line vs) }
{
    if counts.all() == 0 {
        return add_line(out, &[Piece::Text(b"CLEAN")]);
    }
    add_line(
        out,
        &[
            Piece::Text(b"FAULTS "),
            Piece::Number(counts.all()),
            Piece::Text(b" SHOWN "),
            Piece::Number(u64::from(counts.shown)),
            Piece::Text(b" REFUTED "),
            Piece::Number(u64::from(counts.refuted)),
            Piece::Text(b" OPEN "),
            Piece::Number(u64::from(counts.left_open)),
        ],
    )
}

/// How a report ends.
#[tactic(auto, using(crate::proofs::Ends::outcome_counted))]
fn verdict_of(counts: Counts) -> DecideOutcome
    ensures { (vs : List VerdictOf) → AreCounted counts vs → result ≡ outcome_of vs }
{
    if counts.shown == 0 && counts.left_open == 0 {
        DecideOutcome::Settled
    } else {
        DecideOutcome::Faulty
    }
}

/// A report, whole.
#[tactic(auto, using(crate::proofs::Ends::concluded_report))]
fn ended_report(answer: Answer) -> Result<Reply<DecideOutcome>, NoMemory>
    ensures { IfOk result (λ reply. (version : ℕ) (c : Flat) (base : ℕ) (cases : List CaseOf) →
        IsReport version c base answer cases → All (IsKept c base) cases →
        Concluded version c base cases None reply.outcome reply.bytes) }
{
    let Answer {
        mut bytes,
        counts,
        faults: _,
        is_traced: _,
    } = answer;
    add_end(&mut bytes, counts)?;
    Ok(Reply {
        outcome: verdict_of(counts),
        bytes: Output::whole(bytes),
    })
}

/// A trace, if there is one.
fn ended_trace(answer: Answer) -> Reply<DecideOutcome>
    ensures { (version : ℕ) (c : Flat) (base i : ℕ) (cases : List CaseOf) →
        IsSought c base i answer cases →
        Concluded version c base cases (Some i) result.outcome result.bytes }
{
    let Answer {
        bytes,
        counts: _,
        faults: _,
        is_traced,
    } = answer;
    let bytes = Output::whole(bytes);
    if is_traced {
        Reply {
            outcome: DecideOutcome::Done,
            bytes,
        }
    } else {
        Reply {
            outcome: DecideOutcome::NoRun,
            bytes,
        }
    }
}

/// The answer, whole.
pub fn ended(answer: Answer, question: Question) -> Result<Reply<DecideOutcome>, NoMemory>
    ensures { IfOk result (λ reply. (c : Flat) (base : ℕ) (cases : List CaseOf) →
        Holds question.request.trace question.version c base answer cases →
        All (IsKept c base) cases →
        Concluded question.version c base cases question.request.trace reply.outcome reply.bytes) }
{
    match question.request.trace {
        None => ended_report(answer),
        Some(_) => Ok(ended_trace(answer)),
    }
}

/// An answer in which these bytes stand before any case.
fn empty(bytes: Bytes) -> Answer
    ensures bytes { result.bytes ≡ bytes }
    ensures counts { AreCounted result.counts [] }
    ensures faults { result.faults ≡ 0 }
    ensures none { result.is_traced ≡ false }
{
    Answer {
        bytes,
        counts: Counts {
            shown: 0,
            refuted: 0,
            left_open: 0,
        },
        faults: 0,
        is_traced: false,
    }
}

/// An answer of no cases.
#[tactic(auto, using(crate::proofs::Telling::report_none, crate::proofs::Seeking::seek_none))]
pub fn begun(alloc: Global, c: &Circuit, question: Question) -> Result<Answer, NoMemory>
    ensures { IfOk result (λ answer. (base : ℕ) →
        Holds question.request.trace question.version c.now base answer []) }
{
    let mut bytes = Bytes::new(alloc);
    match question.request.trace {
        None => {
            begin_report(c, question.version, &mut bytes)?;
            Ok(empty(bytes))
        }
        Some(_) => Ok(empty(bytes)),
    }
}
