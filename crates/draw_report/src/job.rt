//! From a circuit to what is drawn of its limits.

ghost use Rattle.std.specs.Prelude.{◌≡◌, ◌^◌, ◌<◌, ◌≤◌, [], IfOk, IfErr, OnOk, length};
ghost use Rattle.fixpoint_engine.specs.Table.{AreKnown, waves_at};
ghost use Rattle.fixpoint_engine.specs.Waves.{FitWaves};
ghost use Rattle.timing_analysis.specs.Ended.{EndsEarly};
ghost use Rattle.timing_analysis.specs.Settled.{IsBaseIn};
ghost use Rattle.timing_analysis.specs.Subject.{IsSubject};
ghost use Rattle.draw_report.specs.Drawn.{AreDrawn, IsCollected, IsDrawn, IsPageDrawn, IsRowDrawn, IsToldOf};
ghost use Rattle.draw_report.specs.Words.{IsRow};

use crate::asked::{Job, Limits, Wanted};
use crate::collected::{Collected, add_cases, add_settled, no_case, waves_in};
use crate::drawn::{Drawn, draw_row};
use crate::pictures::Pictures;
use crate::sheets::Sheets;
use fixpoint_engine::{EngineEnd, Store, Waves};
use scald_base::NoMemory;
use slack_report::{Row, Sheet, grouped};
use slack_rows::Rows;
use step_values::Value;
use timing_analysis::{SettledBase, SettledCase};
use wave_core::CyclicWave;

/// What was drawn, and how many faults there are over all cases.
#[derive(Drop)]
pub struct Told {
    pub drawn: Drawn,
    pub faults: u32,
}

/// What is told of slacks.
fn sheet_of<'a>(job: Job<'a>, rows: &'a Rows) -> Sheet<'a>
    ensures { result.circuit.now ≡ job.entry.subject.now.circuit }
{
    Sheet {
        alloc: job.alloc,
        circuit: &job.subject.circuit,
        rows,
        names: job.names,
    }
}

// ---- of a circuit that lists cases: those that are drawn settle once more

/// A case at a place, which settled before.
fn settle_again<W: CyclicWave<Item = Value>>(
    job: Job,
    base: &mut SettledBase<W>,
    place: u32,
) -> Result<SettledCase, NoMemory>
    requires is { IsSubject job.subject.now }
    requires few { job.limit ≤ 10000000 }
    requires inside { place < length job.subject.now.cases }
    requires settled { IsBaseIn job.subject.now.circuit job.limit base.old.base.rounds
        base.old.store base.old.base.numbers base.old.known }
    ensures kept { OnOk result (IsBaseIn job.entry.subject.now.circuit job.entry.limit
        base.new.base.rounds base.new.store base.new.base.numbers base.new.known) }
    ensures known { IfOk result (λ case. AreKnown base.new.store case.settled.numbers) }
    ensures fit { IfOk result (λ case. FitWaves job.entry.subject.now.circuit
        (waves_at base.new.store case.settled.numbers)) }
{
    match job.subject.case(job.alloc, base, place, job.limit) {
        Ok(case) => Ok(case),
        // It settled before, so only memory is wanting.
        Err(_) => Err(NoMemory),
    }
}

/// A row, in the first case in which it has its least slack.
fn draw_row_again<W: CyclicWave<Item = Value>>(
    job: Job,
    base: &mut SettledBase<W>,
    sheet: Sheet,
    number: u32,
    row: &Row,
) -> Result<Drawn, NoMemory>
    requires is { IsSubject job.subject.now }
    requires few { job.limit ≤ 10000000 }
    requires some { 0 < length job.subject.now.cases }
    requires circuit { sheet.circuit.now ≡ job.subject.now.circuit }
    requires settled { IsBaseIn job.subject.now.circuit job.limit base.old.base.rounds
        base.old.store base.old.base.numbers base.old.known }
    ensures { IfOk result (IsRowDrawn number) }
{
    let last = job.subject.cases.len() - 1;
    let place = row.first.least.case.min(last) as u32;
    let case = settle_again(job, base, place)?;
    let waves = waves_in(&base.store, &case);
    draw_row(sheet, job.drawing, number, row, &waves)
}

/// The row that is asked for.
fn draw_wanted_again<W: CyclicWave<Item = Value>>(
    job: Job,
    base: &mut SettledBase<W>,
    sheet: Sheet,
    rows: &[Row],
    wanted: Wanted,
) -> Result<Drawn, NoMemory>
    requires is { IsSubject job.subject.now }
    requires few { job.limit ≤ 10000000 }
    requires some { 0 < length job.subject.now.cases }
    requires circuit { sheet.circuit.now ≡ job.subject.now.circuit }
    requires wanted { 1 ≤ wanted.number }
    requires settled { IsBaseIn job.subject.now.circuit job.limit base.old.base.rounds
        base.old.store base.old.base.numbers base.old.known }
    ensures { IfOk result (IsRowDrawn wanted.number) }
{
    match wanted.row(rows) {
        Ok(row) => draw_row_again(job, base, sheet, wanted.number, row),
        Err(count) => Ok(Drawn::NoRow(count)),
    }
}

/// A case of a page.
fn add_case_again<W: CyclicWave<Item = Value>>(
    job: Job,
    base: &mut SettledBase<W>,
    sheets: Sheets,
    place: u32,
    pictures: &mut Pictures,
) -> Result<(), NoMemory>
    requires is { IsSubject job.subject.now }
    requires few { job.limit ≤ 10000000 }
    requires inside { place < length job.subject.now.cases }
    requires circuit { sheets.sheet.circuit.now ≡ job.subject.now.circuit }
    requires drawn { AreDrawn pictures.old }
    requires settled { IsBaseIn job.subject.now.circuit job.limit
        base.old.base.rounds base.old.store base.old.base.numbers base.old.known }
    ensures settled { OnOk result (IsBaseIn job.entry.subject.now.circuit job.entry.limit
        base.new.base.rounds base.new.store base.new.base.numbers base.new.known) }
    ensures drawn { OnOk result (AreDrawn pictures.new) }
{
    let case = settle_again(job, base, place)?;
    let waves = waves_in(&base.store, &case);
    sheets.add_case(&waves, &case, pictures)
}

/// A page with the pictures of all cases.
fn fill_page_again<W: CyclicWave<Item = Value>>(
    job: Job,
    base: &mut SettledBase<W>,
    sheets: Sheets,
    faults: u32,
    pictures: &mut Pictures,
) -> Result<Drawn, NoMemory>
    requires is { IsSubject job.subject.now }
    requires few { job.limit ≤ 10000000 }
    requires circuit { sheets.sheet.circuit.now ≡ job.subject.now.circuit }
    requires drawn { AreDrawn pictures.old }
    requires settled { IsBaseIn job.subject.now.circuit job.limit
        base.old.base.rounds base.old.store base.old.base.numbers base.old.known }
    ensures { IfOk result IsPageDrawn }
{
    for place in 0..job.subject.cases.len() as u32 {
        add_case_again(job, base, sheets, place, pictures)?;
    }
    sheets.page(faults, pictures)
}

/// A page.
fn draw_page_again<W: CyclicWave<Item = Value>>(
    job: Job,
    base: &mut SettledBase<W>,
    sheets: Sheets,
    faults: u32,
) -> Result<Drawn, NoMemory>
    requires is { IsSubject job.subject.now }
    requires few { job.limit ≤ 10000000 }
    requires circuit { sheets.sheet.circuit.now ≡ job.subject.now.circuit }
    requires settled { IsBaseIn job.subject.now.circuit job.limit
        base.old.base.rounds base.old.store base.old.base.numbers base.old.known }
    ensures { IfOk result IsPageDrawn }
{
    let mut pictures = sheets.no_pictures::<W>()?;
    fill_page_again(job, base, sheets, faults, &mut pictures)
}

/// What is asked for of slacks over all cases.
fn draw_again<W: CyclicWave<Item = Value>>(
    job: Job,
    limits: Limits,
    base: &mut SettledBase<W>,
    collected: &Collected,
) -> Result<Drawn, NoMemory>
    requires is { IsSubject job.subject.now }
    requires few { job.limit ≤ 10000000 }
    requires asked { IsRow limits }
    requires some { 0 < length job.subject.now.cases }
    requires settled { IsBaseIn job.subject.now.circuit job.limit base.old.base.rounds
        base.old.store base.old.base.numbers base.old.known }
    ensures { IfOk result (IsDrawn limits) }
{
    let sheet = sheet_of(job, &collected.rows);
    let rows = grouped(sheet)?;
    match limits {
        Limits::Page(shows) => {
            let sheets = Sheets::new(job.drawing, sheet, rows.as_slice(), shows, job.under);
            draw_page_again(job, base, sheets, collected.faults)
        }
        Limits::Row(wanted) => draw_wanted_again(job, base, sheet, rows.as_slice(), wanted),
    }
}

/// What is asked for of a circuit that lists cases.
fn draw_listed<W: CyclicWave<Item = Value>>(
    job: Job,
    limits: Limits,
    base: &mut SettledBase<W>,
    collected: &mut Collected,
) -> Result<Told, EngineEnd>
    requires is { IsSubject job.subject.now }
    requires few { job.limit ≤ 10000000 }
    requires asked { IsRow limits }
    requires some { 0 < length job.subject.now.cases }
    requires none { IsCollected collected.old job.subject.now.circuit [] }
    requires settled { IsBaseIn job.subject.now.circuit job.limit base.old.base.rounds
        base.old.store base.old.base.numbers base.old.known }
    ensures told { IfOk result (λ told. IsToldOf limits job.entry.subject.now.circuit
        job.entry.subject.now.cases job.entry.limit told) }
    ensures ended { IfErr result
        (EndsEarly job.entry.subject.now.circuit job.entry.subject.now.cases job.entry.limit) }
{
    add_cases(job, base, collected)?;
    let drawn = draw_again(job, limits, base, collected)?;
    Ok(Told {
        drawn,
        faults: collected.faults,
    })
}

// ---- of a circuit that lists none

/// The row that is asked for, in the waves of the only case.
fn draw_wanted<W: CyclicWave<Item = Value>>(
    job: Job,
    sheet: Sheet,
    rows: &[Row],
    wanted: Wanted,
    waves: &Waves<W>,
) -> Result<Drawn, NoMemory>
    requires fit { FitWaves sheet.circuit.now waves.now }
    requires wanted { 1 ≤ wanted.number }
    ensures { IfOk result (IsRowDrawn wanted.number) }
{
    match wanted.row(rows) {
        Ok(row) => draw_row(sheet, job.drawing, wanted.number, row, waves),
        Err(count) => Ok(Drawn::NoRow(count)),
    }
}

/// A page with the pictures of the only case, which has so many faults.
fn fill_page<W: CyclicWave<Item = Value>>(
    sheets: Sheets,
    waves: &Waves<W>,
    case: &SettledCase,
    faults: u32,
    pictures: &mut Pictures,
) -> Result<Drawn, NoMemory>
    requires fit { FitWaves sheets.sheet.circuit.now waves.now }
    requires drawn { AreDrawn pictures.old }
    ensures { IfOk result IsPageDrawn }
{
    sheets.add_case(waves, case, pictures)?;
    sheets.page(faults, pictures)
}

/// A page of the only case, which has so many faults.
fn draw_page<W: CyclicWave<Item = Value>>(
    sheets: Sheets,
    waves: &Waves<W>,
    case: &SettledCase,
    faults: u32,
) -> Result<Drawn, NoMemory>
    requires { FitWaves sheets.sheet.circuit.now waves.now }
    ensures { IfOk result IsPageDrawn }
{
    let mut pictures = sheets.no_pictures::<W>()?;
    fill_page(sheets, waves, case, faults, &mut pictures)
}

/// What is asked for of the slacks of the only case.
fn draw_in<W: CyclicWave<Item = Value>>(
    job: Job,
    limits: Limits,
    waves: &Waves<W>,
    case: &SettledCase,
    collected: &Collected,
) -> Result<Drawn, NoMemory>
    requires fit { FitWaves job.subject.now.circuit waves.now }
    requires asked { IsRow limits }
    ensures { IfOk result (IsDrawn limits) }
{
    let sheet = sheet_of(job, &collected.rows);
    let rows = grouped(sheet)?;
    match limits {
        Limits::Page(shows) => {
            let sheets = Sheets::new(job.drawing, sheet, rows.as_slice(), shows, job.under);
            draw_page(sheets, waves, case, collected.faults)
        }
        Limits::Row(wanted) => draw_wanted(job, sheet, rows.as_slice(), wanted, waves),
    }
}

/// What is asked for of a circuit that lists no case.
fn draw_only<W: CyclicWave<Item = Value>>(
    job: Job,
    limits: Limits,
    store: &Store<W>,
    case: &SettledCase,
    collected: &mut Collected,
) -> Result<Told, NoMemory>
    requires none { IsCollected collected.old job.subject.now.circuit [] }
    requires known { AreKnown store.now case.now.settled.numbers }
    requires fit { FitWaves job.subject.now.circuit
        (waves_at store.now case.now.settled.numbers) }
    requires room { length case.now.faults < 2 ^ 32 }
    requires asked { IsRow limits }
    ensures drawn { IfOk result (λ told. IsDrawn limits told.drawn) }
    ensures faults { IfOk result (λ told. told.faults ≡ length case.now.faults) }
{
    add_settled(collected, job.alloc, &job.subject.circuit, store, case)?;
    let waves = waves_in(store, case);
    let drawn = draw_in(job, limits, &waves, case, collected)?;
    Ok(Told {
        drawn,
        faults: collected.faults,
    })
}

/// The same from a base that settled.
fn draw_unlisted<W: CyclicWave<Item = Value>>(
    job: Job,
    limits: Limits,
    base: SettledBase<W>,
    collected: &mut Collected,
) -> Result<Told, NoMemory>
    requires is { IsSubject job.subject.now }
    requires few { job.limit ≤ 10000000 }
    requires unlisted { length job.subject.now.cases ≡ 0 }
    requires asked { IsRow limits }
    requires none { IsCollected collected.old job.subject.now.circuit [] }
    requires settled { IsBaseIn job.subject.now.circuit job.limit base.base.rounds base.store
        base.base.numbers base.known }
    ensures { IfOk result (λ told. IsToldOf limits job.entry.subject.now.circuit
        job.entry.subject.now.cases job.entry.limit told) }
{
    let (store, case) = base.only_case(job.alloc, job.subject, job.limit)?;
    draw_only(job, limits, &store, &case, collected)
}

/// What is asked for of a circuit, with the slacks of its cases collected on the way.
fn draw_collecting<W: CyclicWave<Item = Value>>(
    job: Job,
    limits: Limits,
    collected: &mut Collected,
) -> Result<Told, EngineEnd>
    requires is { IsSubject job.subject.now }
    requires few { job.limit ≤ 10000000 }
    requires asked { IsRow limits }
    requires none { IsCollected collected.old job.subject.now.circuit [] }
    ensures told { IfOk result (λ told. IsToldOf limits job.entry.subject.now.circuit
        job.entry.subject.now.cases job.entry.limit told) }
    ensures ended { IfErr result
        (EndsEarly job.entry.subject.now.circuit job.entry.subject.now.cases job.entry.limit) }
{
    let mut base = match job.subject.base::<W>(job.alloc, job.limit) {
        Ok(base) => base,
        Err(end) => return Err(end),
    };
    if !job.subject.cases.is_empty() {
        return draw_listed(job, limits, &mut base, collected);
    }
    match draw_unlisted(job, limits, base, collected) {
        Ok(told) => Ok(told),
        Err(NoMemory) => Err(EngineEnd::NoMemory),
    }
}

/// What is asked for, or the end of the base or of a case that never settles.
pub fn draw_limits<W: CyclicWave<Item = Value>>(job: Job, limits: Limits) -> Result<Told, EngineEnd>
    requires is { IsSubject job.subject.now }
    requires few { job.limit ≤ 10000000 }
    requires asked { IsRow limits }
    ensures told { IfOk result (λ told. IsToldOf limits job.entry.subject.now.circuit
        job.entry.subject.now.cases job.entry.limit told) }
    ensures ended { IfErr result
        (EndsEarly job.entry.subject.now.circuit job.entry.subject.now.cases job.entry.limit) }
{
    let mut collected = no_case(job.alloc, &job.subject.circuit)?;
    draw_collecting::<W>(job, limits, &mut collected)
}
