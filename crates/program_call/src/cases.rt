//! What is reported of the cases of a circuit, one after the other.

ghost use Rattle.std.specs.Prelude.{◌≡◌, ◌+◌, ◌++◌, ◌≤◌, ◌<◌, ◌∷◌, ℕ, [], List, length};
ghost use Rattle.std.specs.Prelude.{IfErr, IfOk, OnOk};
ghost use Rattle.fixpoint_engine.specs.Table.{AreKnown, waves_at};
ghost use Rattle.fixpoint_engine.specs.Waves.{FitWaves};
ghost use Rattle.timing_analysis.specs.Case.{Case, Listed, listed_cases, numbered};
ghost use Rattle.timing_analysis.specs.Ended.{EndsEarly};
ghost use Rattle.timing_analysis.specs.Settled.{IsBaseIn, IsCaseIn};
ghost use Rattle.timing_analysis.specs.Subject.{IsSubject};
ghost use Rattle.program_call.specs.Reporter.{IsReported, OfCases};

use crate::Reply;
use crate::reporter::Reporter;
use fixpoint_engine::{EngineEnd, Store, Waves};
use flat_circuit::Circuit;
use scald_base::{NoMemory, Outcome};
use std::alloc::Global;
use step_values::Value;
use timing_analysis::{SettledBase, SettledCase, Subject};
use wave_core::CyclicWave;

/// Reports one case more, whose waves the store has.
fn add_case<R: Reporter, W: CyclicWave<Item = Value>>(
    alloc: Global,
    circuit: &Circuit,
    place: u32,
    store: &Store<W>,
    case: &SettledCase,
    reporter: &mut R,
) -> Result<(), NoMemory>
    requires place { place < 256 }
    requires ready { R.ready reporter.old circuit.now place }
    requires known { AreKnown store.now case.now.settled.numbers }
    requires fit { FitWaves circuit.now (waves_at store.now case.now.settled.numbers) }
    requires few { length case.now.faults ≤ 458752 }
    ensures ready { OnOk result (R.ready reporter.new circuit.now (place + 1)) }
    ensures holds { OnOk result ((asked : R.Asked) (kept : R.Kept) (limit base : ℕ)
        (before : List Listed) (listed : Listed) →
        IsCaseIn circuit.now limit base listed store.now case.now →
        OfCases circuit.now limit base before
        (λ (cases : List Case). R.holds reporter.old asked kept circuit.now base cases) →
        OfCases circuit.now limit base (before ++ listed ∷ [])
        (λ (cases : List Case). R.holds reporter.new asked kept circuit.now base cases)) }
{
    let waves = Waves::new(store.waves(), case.settled.numbers.as_slice());
    reporter.add_case(alloc, circuit, place, case, &waves)
}

/// Reports the one case of a circuit for which none is listed, and nothing if some are.
fn add_only_case<R: Reporter, W: CyclicWave<Item = Value>>(
    alloc: Global,
    subject: &Subject,
    limit: u32,
    settled_base: SettledBase<W>,
    reporter: &mut R,
) -> Result<(), NoMemory>
    requires is { IsSubject subject.now }
    requires few { limit ≤ 10000000 }
    requires settled { IsBaseIn subject.now.circuit limit
        settled_base.base.rounds settled_base.store settled_base.base.numbers settled_base.known }
    requires ready { R.ready reporter.old subject.now.circuit (length subject.now.cases) }
    ensures ready { OnOk result ((cases : ℕ) × R.ready reporter.new subject.now.circuit cases) }
    ensures holds { OnOk result ((asked : R.Asked) (kept : R.Kept) →
        OfCases subject.now.circuit limit settled_base.base.rounds (numbered 1 subject.now.cases)
        (λ (cases : List Case). R.holds reporter.old asked kept subject.now.circuit
        settled_base.base.rounds cases) →
        OfCases subject.now.circuit limit settled_base.base.rounds (listed_cases subject.now.cases)
        (λ (cases : List Case). R.holds reporter.new asked kept subject.now.circuit
        settled_base.base.rounds cases)) }
{
    if !subject.cases.is_empty() {
        return Ok(());
    }
    let (store, case) = settled_base.only_case(alloc, subject, limit)?;
    add_case(alloc, &subject.circuit, 0, &store, &case, reporter)
}

/// What is reported of a circuit and its cases, or the end of the base or of the first case that
/// never settles within so many rounds.
pub(crate) fn report_cases<R: Reporter, W: CyclicWave<Item = Value>>(
    alloc: Global,
    subject: &Subject,
    asked: R::Asked,
    kept: R::Kept,
    limit: u32,
) -> Result<Reply<Outcome>, EngineEnd>
    requires is { IsSubject subject.now }
    requires few { limit ≤ 10000000 }
    ensures reported { IfOk result (λ reply. IsReported (R.reports asked kept)
        subject.now.circuit subject.now.cases limit reply.outcome reply.bytes) }
    ensures ended { IfErr result (EndsEarly subject.now.circuit subject.now.cases limit) }
{
    let mut settled_base = subject.base::<W>(alloc, limit)?;
    let mut reporter = R::begin(
        alloc,
        asked,
        kept,
        &subject.circuit,
        settled_base.base.rounds,
    )?;
    for place in 0..subject.cases.len() as u32 {
        let case = subject.case(alloc, &mut settled_base, place, limit)?;
        add_case(
            alloc,
            &subject.circuit,
            place,
            &settled_base.store,
            &case,
            &mut reporter,
        )?;
    }
    add_only_case(alloc, subject, limit, settled_base, &mut reporter)?;
    Ok(reporter.end(alloc, &subject.circuit)?)
}
