//! The slacks of a circuit over its cases.

ghost use Rattle.std.specs.Prelude.{◌≡◌, ◌+◌, ◌++◌, ◌^◌, ◌<◌, ◌≤◌, ◌∷◌, [], List, IfOk, IfErr, OnOk, length};
ghost use Rattle.fixpoint_engine.specs.Table.{AreKnown, waves_at};
ghost use Rattle.fixpoint_engine.specs.Waves.{FitWaves, waves_of};
ghost use Rattle.timing_analysis.specs.Case.{Case, numbered};
ghost use Rattle.timing_analysis.specs.Ended.{EndsEarly};
ghost use Rattle.timing_analysis.specs.Settled.{IsBaseIn};
ghost use Rattle.timing_analysis.specs.Subject.{IsSubject};
ghost use Rattle.slack_report.specs.Answer.{AreRows};
ghost use Rattle.slack_rows.specs.Limit.{Case as Numbered};
ghost use Rattle.program_call.specs.Reporter.{OfCases};
ghost use Rattle.draw_report.specs.Drawn.{IsCollected};

use crate::asked::Job;
use fixpoint_engine::{EngineEnd, Store, Waves};
use flat_circuit::Circuit;
use scald_base::NoMemory;
use slack_report::{add_case, no_rows};
use slack_rows::Rows;
use std::alloc::Global;
use step_values::Value;
use timing_analysis::{SettledBase, SettledCase};
use wave_core::CyclicWave;

/// The slacks over the cases so far, and how many faults these have.
#[derive(Drop)]
pub struct Collected {
    pub rows: Rows,
    pub faults: u32,
}

/// The waves of a settled case.
pub fn waves_in<'a, W: CyclicWave<Item = Value>>(
    store: &'a Store<W>,
    case: &'a SettledCase,
) -> Waves<'a, W>
    requires { AreKnown store.now case.now.settled.numbers }
    ensures { result ≡ waves_at store.now case.now.settled.numbers }
{
    Waves::new(store.waves(), case.settled.numbers.as_slice())
}

/// One settled case more.
pub fn add_settled<W: CyclicWave<Item = Value>>(
    collected: &mut Collected,
    alloc: Global,
    circuit: &Circuit,
    store: &Store<W>,
    case: &SettledCase,
) -> Result<(), NoMemory>
    requires room { collected.old.faults + length case.now.faults < 2 ^ 32 }
    requires known { AreKnown store.now case.now.settled.numbers }
    requires fit { FitWaves circuit.now (waves_at store.now case.now.settled.numbers) }
    requires ready { (cases : List Numbered) × AreRows circuit.now cases collected.old.rows }
    ensures count { OnOk result
        (collected.new.faults ≡ collected.old.faults + length case.now.faults) }
    ensures rows { OnOk result ((cases : List Numbered) →
        AreRows circuit.now cases collected.old.rows → AreRows circuit.now (cases ++ record {
          number = case.now.number;
          waves = waves_of (waves_at store.now case.now.settled.numbers);
        } ∷ []) collected.new.rows) }
{
    collected.faults += case.faults.len() as u32;
    let waves = waves_in(store, case);
    add_case(&mut collected.rows, alloc, circuit, case.number, &waves)
}

/// Nothing yet.
pub fn no_case(alloc: Global, circuit: &Circuit) -> Result<Collected, NoMemory>
    ensures { IfOk result (λ collected. IsCollected collected circuit.now []) }
{
    let rows = no_rows(alloc, circuit)?;
    Ok(Collected { rows, faults: 0 })
}

/// Adds all cases that are listed, from a base that settled.
pub fn add_cases<W: CyclicWave<Item = Value>>(
    job: Job,
    base: &mut SettledBase<W>,
    collected: &mut Collected,
) -> Result<(), EngineEnd>
    requires is { IsSubject job.subject.now }
    requires few { job.limit ≤ 10000000 }
    requires none { IsCollected collected.old job.subject.now.circuit [] }
    requires settled { IsBaseIn job.subject.now.circuit job.limit base.old.base.rounds
        base.old.store base.old.base.numbers base.old.known }
    ensures kept { OnOk result (IsBaseIn job.entry.subject.now.circuit job.entry.limit
        base.new.base.rounds base.new.store base.new.base.numbers base.new.known) }
    ensures collected { OnOk result (OfCases job.entry.subject.now.circuit
        job.entry.limit base.old.base.rounds (numbered 1 job.entry.subject.now.cases)
        (λ (cases : List Case). IsCollected collected.new job.entry.subject.now.circuit cases)) }
    ensures ended { IfErr result
        (EndsEarly job.entry.subject.now.circuit job.entry.subject.now.cases job.entry.limit) }
{
    let subject = job.subject;
    for place in 0..subject.cases.len() as u32 {
        let case = subject.case(job.alloc, base, place, job.limit)?;
        add_settled(collected, job.alloc, &subject.circuit, &base.store, &case)?;
    }
    Ok(())
}
