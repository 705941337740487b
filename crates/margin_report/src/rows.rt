//! The margins of all checkers, over more and more cases.

ghost use Rattle.std.specs.Prelude.{◌≡◌, ◌<◌, ◌++◌, ◌∷◌, [], List, IfOk, OnOk, Some, length, slice_get};
ghost use Rattle.std.specs.List.{All};
ghost use Rattle.flat_circuit.specs.Instances.{InstanceFits};
ghost use Rattle.fixpoint_engine.specs.Waves.{FitWaves, waves_of};
ghost use Rattle.scald_base.specs.Time.{period};
ghost use Rattle.timing_analysis.specs.Case.{Case};
ghost use Rattle.margin_report.specs.Margin.{AreWithin, IsAskedBy, IsBelow, margin as margin_over, parameters_in, spare as most_more};
ghost use Rattle.margin_report.specs.Report.{IsRow, rows as rows_over, rows_in};

use crate::margin::{Margin, Parameter, Row};
use crate::search::{fault_with, spare, stop_before};
use element_kinds::Check;
use fixpoint_engine::Waves;
use flat_circuit::{Circuit, Instance};
use scald_base::{List, NoMemory};
use std::alloc::Global;
use step_values::Value;
use wave_core::CyclicWave;

/// Margins, in the order of their lines.
pub type Rows = List<Row>;

/// The parameters of a checker, by what it checks; of what is no checker none.
fn parameters(check: Option<Check>) -> &'static [Parameter]
    ensures { result.now ≡ parameters_in check }
{
    match check {
        None => &[],
        Some(Check::SetupHold | Check::RiseFall) => &[Parameter::Setup, Parameter::Hold],
        Some(Check::MinPulse) => &[Parameter::High, Parameter::Low],
    }
}

/// Appends the margins of an instance over no case.
fn add_rows(rows: &mut Rows, c: &Circuit, number: u32, instance: &Instance) -> Result<(), NoMemory>
    requires there { slice_get c.now.instances number ≡ Some instance.now }
    requires fits { InstanceFits c.now.header (length c.now.nets) instance.now }
    requires rows { All (IsRow c.now) rows.old }
    ensures rows { OnOk result (All (IsRow c.now) rows.new) }
    ensures are { OnOk result (rows.new ≡ rows.old ++ rows_in c.now [] number (Some instance.now)) }
{
    let period = c.header().period();
    for parameter in parameters(instance.kind.check()) {
        rows.push(Row {
            instance: number,
            parameter: *parameter,
            margin: Margin::Limit(spare(period, instance.limits, *parameter)),
        })?;
    }
    Ok(())
}

/// The margins of all checkers over no case: each parameter may be as great as may be written.
pub fn unbounded(alloc: Global, c: &Circuit) -> Result<Rows, NoMemory>
    ensures rows { IfOk result (All (IsRow c.now)) }
    ensures are { IfOk result (λ found. found ≡ rows_over c.now []) }
{
    c.known();
    let mut found = Rows::new(alloc);
    for number in 0..c.instance_count() {
        if let Some(instance) = c.instance(number) {
            add_rows(&mut found, c, number, instance)?;
        }
    }
    Ok(found)
}

/// A margin over one case more. Most cases leave a margin as it is, which one check shows.
fn lowered<W: CyclicWave<Item = Value>>(
    alloc: Global,
    c: &Circuit,
    case: u32,
    waves: &Waves<W>,
    checker: &Instance,
    row: Row,
) -> Result<Margin, NoMemory>
    requires there { slice_get c.now.instances row.instance ≡ Some checker.now }
    requires asked { IsAskedBy checker.now row.parameter }
    requires within { AreWithin (period c.now.header) checker.now.limits row.parameter }
    requires below { IsBelow row.margin
        (most_more (period c.now.header) checker.now.limits row.parameter) }
    requires fit { FitWaves c.now waves.now }
    ensures below { IfOk result (λ m.
        IsBelow m (most_more (period c.now.header) checker.now.limits row.parameter)) }
    ensures is { IfOk result (λ m. (cases : List Case) (one : Case) →
        one.listed.number ≡ case → one.waves ≡ waves_of waves.now →
        row.margin ≡ margin_over c.now cases row.instance checker.now row.parameter →
        m ≡ margin_over c.now (cases ++ one ∷ []) row.instance checker.now row.parameter) }
{
    c.header().known();
    let Some(more) = row.margin.more() else {
        return Ok(row.margin);
    };
    let Some(found) = fault_with(alloc, c, waves, row, checker, more)? else {
        return Ok(row.margin);
    };
    if fault_with(alloc, c, waves, row, checker, 0)?.is_some() {
        return Ok(Margin::Fault);
    }
    let (more, fault) = stop_before(alloc, c, waves, row, checker, more, found)?;
    Ok(Margin::Next { more, case, fault })
}

/// All margins over one case more.
pub fn lower<W: CyclicWave<Item = Value>>(
    rows: &mut Rows,
    alloc: Global,
    c: &Circuit,
    case: u32,
    waves: &Waves<W>,
) -> Result<(), NoMemory>
    requires rows { All (IsRow c.now) rows.old }
    requires fit { FitWaves c.now waves.now }
    ensures rows { OnOk result (All (IsRow c.now) rows.new) }
    ensures are { OnOk result ((cases : List Case) (one : Case) →
        one.listed.number ≡ case → one.waves ≡ waves_of waves.now →
        rows.old ≡ rows_over c.now cases → rows.new ≡ rows_over c.now (cases ++ one ∷ [])) }
{
    c.known();
    for place in 0..rows.len() {
        let row = rows.as_slice()[place];
        if let Some(checker) = c.instance(row.instance) {
            let margin = lowered(alloc, c, case, waves, checker, row)?;
            rows.set(
                place,
                Row {
                    instance: row.instance,
                    parameter: row.parameter,
                    margin,
                },
            );
        }
    }
    Ok(())
}
