//! What is replied of the cases of a circuit, one after the other.

ghost use Rattle.std.specs.Prelude.{◌≡◌, ◌≤◌, ◌++◌, ◌∷◌, ℕ, [], List, IfErr, IfOk, OnOk};
ghost use Rattle.case_analysis.specs.Case.{NetsExist};
ghost use Rattle.step_values.specs.declared.value.Value.{Value as Step};
ghost use Rattle.skew_algebra.specs.Wave.{Wave};
ghost use Rattle.fixpoint_engine.specs.Table.{AreKnown, waves_at};
ghost use Rattle.fixpoint_engine.specs.Waves.{FitWaves};
ghost use Rattle.listing.specs.Case.{case_line};
ghost use Rattle.timing_analysis.specs.Case.{Listed, listed_cases, numbered};
ghost use Rattle.timing_analysis.specs.Ended.{EndsEarly};
ghost use Rattle.timing_analysis.specs.Settled.{IsBaseIn, IsCaseIn};
ghost use Rattle.timing_analysis.specs.Subject.{IsSubject};
ghost use Rattle.program_call.specs.Reporter.{OfCases};
ghost use Rattle.fault_decider.specs.Reporting.{Holds, IsReplied, IsReport, IsSought};

use crate::answer::{Answer, Question, begun, ended};
use crate::outcome::DecideOutcome;
use crate::told::{add_faults, seek_traces};
use fixpoint_engine::{EngineEnd, Store, Waves};
use flat_circuit::{Case, Circuit, Faults};
use listing::{CaseHead, Mode, write_case};
use program_call::Reply;
use run_wave::RunWave;
use scald_base::{Bytes, NoMemory};
use std::alloc::Global;
use step_values::Value;
use timing_analysis::{SettledBase, SettledCase, Subject};

/// The line of a case.
fn add_head(
    out: &mut Bytes,
    alloc: Global,
    c: &Circuit,
    head: CaseHead,
    waves: &Waves<RunWave<Value>>,
) -> Result<(), NoMemory>
    requires { FitWaves c.now waves.now }
    ensures { OnOk result (out.new
        ≡ out.old ++ case_line head.number head.base head.rounds head.tick) }
{
    let none = Faults::new(alloc);
    write_case(c, head, waves, &none, Mode::Faults, out)
}

/// The line of one case more, and its faults. The store has its waves.
fn add_told_case(
    answer: &mut Answer,
    alloc: Global,
    c: &Circuit,
    values: &Case,
    base: u32,
    store: &Store<RunWave<Value>>,
    case: &SettledCase,
    question: Question,
) -> Result<(), NoMemory>
    requires exist { NetsExist c.now values.now }
    requires known { AreKnown store.now case.now.settled.numbers }
    requires fit { FitWaves c.now (waves_at store.now case.now.settled.numbers) }
    ensures { OnOk result ((limit : ℕ) (before : List Listed) (listed : Listed) →
        listed.values ≡ values.now →
        IsCaseIn c.now limit base listed store.now case.now →
        OfCases c.now limit base before (IsReport question.version c.now base answer.old) →
        OfCases c.now limit base (before ++ listed ∷ [])
        (IsReport question.version c.now base answer.new)) }
{
    let head = CaseHead {
        number: case.number,
        base,
        rounds: case.settled.rounds,
        tick: case.tick,
    };
    let waves = Waves::new(store.waves(), case.settled.numbers.as_slice());
    add_head(&mut answer.bytes, alloc, c, head, &waves)?;
    let faults = case.faults.as_slice();
    add_faults(answer, alloc, c, values, faults, case.tick, question)
}

/// The trace that is wanted, if one case more has it. The table has the case's waves.
fn seek_case(
    answer: &mut Answer,
    alloc: Global,
    c: &Circuit,
    values: &Case,
    case: &SettledCase,
    question: Question,
    wanted: u32,
) -> Result<(), NoMemory>
    requires { NetsExist c.now values.now }
    ensures { OnOk result ((limit base : ℕ) (before : List Listed) (listed : Listed)
        (table : List (Wave Step)) → listed.values ≡ values.now →
        IsCaseIn c.now limit base listed table case.now →
        OfCases c.now limit base before (IsSought c.now base wanted answer.old) →
        OfCases c.now limit base (before ++ listed ∷ [])
        (IsSought c.now base wanted answer.new)) }
{
    let faults = case.faults.as_slice();
    seek_traces(
        answer, alloc, c, values, faults, case.tick, question, wanted,
    )
}

/// One case more, whose waves the store has.
fn add_case(
    answer: &mut Answer,
    alloc: Global,
    c: &Circuit,
    values: &Case,
    base: u32,
    store: &Store<RunWave<Value>>,
    case: &SettledCase,
    question: Question,
) -> Result<(), NoMemory>
    requires exist { NetsExist c.now values.now }
    requires known { AreKnown store.now case.now.settled.numbers }
    requires fit { FitWaves c.now (waves_at store.now case.now.settled.numbers) }
    ensures { OnOk result ((limit : ℕ) (before : List Listed) (listed : Listed) →
        listed.values ≡ values.now →
        IsCaseIn c.now limit base listed store.now case.now →
        OfCases c.now limit base before
        (Holds question.request.trace question.version c.now base answer.old) →
        OfCases c.now limit base (before ++ listed ∷ [])
        (Holds question.request.trace question.version c.now base answer.new)) }
{
    match question.request.trace {
        None => add_told_case(answer, alloc, c, values, base, store, case, question),
        Some(wanted) => seek_case(answer, alloc, c, values, case, question, wanted),
    }
}

/// The one case of a circuit for which none is listed, and nothing if some are.
fn add_only_case(
    answer: &mut Answer,
    alloc: Global,
    subject: &Subject,
    limit: u32,
    settled: SettledBase<RunWave<Value>>,
    question: Question,
) -> Result<(), NoMemory>
    requires is { IsSubject subject.now }
    requires few { limit ≤ 10000000 }
    requires settled { IsBaseIn subject.now.circuit limit settled.base.rounds settled.store
        settled.base.numbers settled.known }
    ensures { OnOk result (OfCases subject.now.circuit limit settled.base.rounds
        (numbered 1 subject.now.cases)
        (Holds question.request.trace question.version subject.now.circuit settled.base.rounds
        answer.old) →
        OfCases subject.now.circuit limit settled.base.rounds (listed_cases subject.now.cases)
        (Holds question.request.trace question.version subject.now.circuit settled.base.rounds
        answer.new)) }
{
    if !subject.cases.is_empty() {
        return Ok(());
    }
    let c = &subject.circuit;
    let base = settled.base.rounds;
    let none = Case::new(alloc);
    let (store, case) = settled.only_case(alloc, subject, limit)?;
    add_case(answer, alloc, c, &none, base, &store, &case, question)
}

/// What is replied of a circuit and its cases; or the end of the base or of the first case that
/// never settles within so many rounds.
pub fn report(
    alloc: Global,
    subject: &Subject,
    limit: u32,
    question: Question,
) -> Result<Reply<DecideOutcome>, EngineEnd>
    requires is { IsSubject subject.now }
    requires few { limit ≤ 10000000 }
    ensures replied { IfOk result (λ reply. IsReplied question.request.trace question.version
        subject.now.circuit subject.now.cases limit reply.outcome reply.bytes) }
    ensures ended { IfErr result (EndsEarly subject.now.circuit subject.now.cases limit) }
{
    let c = &subject.circuit;
    let mut settled = subject.base::<RunWave<Value>>(alloc, limit)?;
    let base = settled.base.rounds;
    let mut answer = begun(alloc, c, question)?;
    for place in 0..subject.cases.len() as u32 {
        let case = subject.case(alloc, &mut settled, place, limit)?;
        let Some(values) = subject.cases.get(place as usize) else {
            return Err(EngineEnd::NoMemory);
        };
        add_case(
            &mut answer,
            alloc,
            c,
            values,
            base,
            &settled.store,
            &case,
            question,
        )?;
    }
    add_only_case(&mut answer, alloc, subject, limit, settled, question)?;
    Ok(ended(answer, question)?)
}
