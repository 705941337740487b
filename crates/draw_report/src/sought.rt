//! The picture of the waves of a case, while the cases come.

ghost use Rattle.std.specs.Prelude.{◌≡◌, ◌+◌, ◌*◌, ◌^◌, ◌<◌, ◌≤◌, ◌==◌, List, IfOk, IfErr, OnOk, length};
ghost use Rattle.fixpoint_engine.specs.Table.{AreKnown, waves_at};
ghost use Rattle.fixpoint_engine.specs.Waves.{FitWaves, waves_of};
ghost use Rattle.timing_analysis.specs.Case.{Case, listed_cases, numbered};
ghost use Rattle.timing_analysis.specs.Ended.{EndsEarly};
ghost use Rattle.timing_analysis.specs.Settled.{IsBaseIn};
ghost use Rattle.timing_analysis.specs.Subject.{IsSubject};
ghost use Rattle.program_call.specs.Reporter.{OfCases};
ghost use Rattle.draw_report.specs.Case.{IsFoundIn, IsSought, found_on, is_nothing, next_found, number_of, settled_head};

use crate::case::{CaseHead, case_picture};
use crate::row::case_rows;
use fixpoint_engine::{EngineEnd, Store, Waves};
use flat_circuit::Circuit;
use scald_base::{Bytes, NoMemory};
use std::alloc::Global;
use step_values::Value;
use timing_analysis::{SettledBase, SettledCase, Subject};
use wave_core::CyclicWave;

/// What was found of the case that is asked for.
#[derive(Drop)]
pub enum Found {
    /// It has not come yet.
    Nothing,
    /// There is too much to draw.
    Much,
    /// Its picture.
    Picture(Bytes),
}

impl Found {
    /// Whether it has not come yet.
    fn is_nothing(&self) -> bool
        ensures { result ≡ is_nothing self.now }
    {
        matches!(self, Found::Nothing)
    }
}

/// What is asked for while the cases come: what was found, and how many faults there are so far.
#[derive(Drop)]
pub struct Sought {
    pub found: Found,
    pub faults: u32,
}

/// The number of a case, if one is listed.
pub fn number_of(number: u32) -> Option<u32>
    ensures { result ≡ number_of number }
{
    if number == 0 { None } else { Some(number) }
}

/// The picture of a case, unless there is too much to draw.
fn picture_of<W: CyclicWave<Item = Value>>(
    alloc: Global,
    circuit: &Circuit,
    waves: &Waves<W>,
    head: CaseHead,
) -> Result<Found, NoMemory>
    requires { FitWaves circuit.now waves.now }
    ensures { IfOk result (λ found. found ≡ found_on circuit.now (waves_of waves.now) head) }
{
    let rows = case_rows(alloc, circuit, waves)?;
    match case_picture(alloc, circuit, waves, rows.as_slice(), head, &[], None)? {
        Some(bytes) => Ok(Found::Picture(bytes)),
        None => Ok(Found::Much),
    }
}

/// One case more, which is drawn if it is asked for and none was before.
fn add_case<W: CyclicWave<Item = Value>>(
    sought: &mut Sought,
    alloc: Global,
    circuit: &Circuit,
    asked: u32,
    store: &Store<W>,
    case: &SettledCase,
) -> Result<(), NoMemory>
    requires room { sought.old.faults + length case.now.faults < 2 ^ 32 }
    requires known { AreKnown store.now case.now.settled.numbers }
    requires fit { FitWaves circuit.now (waves_at store.now case.now.settled.numbers) }
    ensures count { OnOk result
        (sought.new.faults ≡ sought.old.faults + length case.now.faults) }
    ensures found { OnOk result (sought.new.found ≡ next_found sought.old.found
        (case.now.number == asked) (found_on circuit.now
        (waves_of (waves_at store.now case.now.settled.numbers))
        (settled_head case.now.number case.now.tick))) }
{
    sought.faults += case.faults.len() as u32;
    if case.number == asked && sought.found.is_nothing() {
        let head = CaseHead {
            number: number_of(case.number),
            tick: case.tick,
        };
        let waves = Waves::new(store.waves(), case.settled.numbers.as_slice());
        sought.found = picture_of(alloc, circuit, &waves, head)?;
    }
    Ok(())
}

/// The one case of a circuit for which none is listed, and nothing more if some are.
fn add_only_case<W: CyclicWave<Item = Value>>(
    alloc: Global,
    subject: &Subject,
    asked: u32,
    limit: u32,
    base: SettledBase<W>,
    sought: &mut Sought,
) -> Result<(), NoMemory>
    requires is { IsSubject subject.now }
    requires few { limit ≤ 10000000 }
    requires settled { IsBaseIn subject.now.circuit limit base.base.rounds base.store
        base.base.numbers base.known }
    requires room { sought.old.faults ≤ 458752 * length subject.now.cases }
    ensures { OnOk result (OfCases subject.now.circuit limit base.base.rounds
        (numbered 1 subject.now.cases)
        (λ (cases : List Case).
        IsSought sought.old asked subject.now.circuit base.base.rounds cases) →
        OfCases subject.now.circuit limit base.base.rounds (listed_cases subject.now.cases)
        (λ (cases : List Case).
        IsSought sought.new asked subject.now.circuit base.base.rounds cases)) }
{
    if !subject.cases.is_empty() {
        return Ok(());
    }
    let (store, case) = base.only_case(alloc, subject, limit)?;
    add_case(sought, alloc, &subject.circuit, asked, &store, &case)
}

/// What was sought over all cases of a circuit, or the end of the base or of the first case that
/// never settles within so many rounds.
pub fn seek<W: CyclicWave<Item = Value>>(
    alloc: Global,
    subject: &Subject,
    asked: u32,
    limit: u32,
) -> Result<Sought, EngineEnd>
    requires is { IsSubject subject.now }
    requires few { limit ≤ 10000000 }
    ensures found { IfOk result (λ sought.
        IsFoundIn sought asked subject.now.circuit subject.now.cases limit) }
    ensures ended { IfErr result (EndsEarly subject.now.circuit subject.now.cases limit) }
{
    let mut base = subject.base::<W>(alloc, limit)?;
    let mut sought = Sought {
        found: Found::Nothing,
        faults: 0,
    };
    for place in 0..subject.cases.len() as u32 {
        let case = subject.case(alloc, &mut base, place, limit)?;
        add_case(
            &mut sought,
            alloc,
            &subject.circuit,
            asked,
            &base.store,
            &case,
        )?;
    }
    add_only_case(alloc, subject, asked, limit, base, &mut sought)?;
    Ok(sought)
}
