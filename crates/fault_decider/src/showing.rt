//! A run that shows a fault: judged here, whoever found it.

ghost use Rattle.std.specs.Prelude.{◌≡◌, ◌+◌, ◌<◌, ℕ, IfOk, IfSome, IsTrue, MatchBool, List, false, length, slice_index_or};
ghost use Rattle.case_analysis.specs.Case.{IsInCase};
ghost use Rattle.flat_circuit.specs.Run.{Choice as Chosen, IsRun};
ghost use Rattle.trace_sim.specs.Choice.{choices_of};
ghost use Rattle.trace_sim.specs.Simulated.{bit_of, run_of};
ghost use Rattle.run_search.specs.Found.{run_found};
ghost use Rattle.narrowing.specs.Named.{last_of};
ghost use Rattle.fault_decider.specs.Showing.{showing_of};
ghost use Rattle.fault_decider.specs.Verdict.{CanBeJudged, IsShownBy, ShowsBreak};

use crate::tested::is_break;
use flat_circuit::{Case, CaseValue, Circuit};
use narrowing::{Constraint, Named};
use run_search::Found;
use scald_base::{Bytes, NoMemory};
use std::alloc::Global;
use trace_sim::{Choice, Levels};
use trace_tool::{Extent, Trace, first_stray, write_trace};

/// A run as a trace, and the ticks of a break in it.
#[derive(Drop)]
pub struct Showing {
    pub trace: Trace,
    pub named: Named,
}

/// Whether a row has one bit alone at so many ticks.
fn is_constant(row: &[bool], one: bool, ticks: u32) -> bool
    ensures { IsTrue result → (t : ℕ) → t < ticks → slice_index_or row.now t false ≡ one }
{
    for t in 0..ticks {
        if row.get(t as usize) != Some(&one) {
            return false;
        }
    }
    true
}

/// Whether the net of a case's value keeps it.
fn keeps(value: CaseValue, ticks: u32, bits: &[Levels]) -> bool
    ensures { IsTrue result → (t : ℕ) → t < ticks → bit_of bits.now value.net t ≡ value.one }
{
    match bits.get(value.net as usize) {
        None => false,
        Some(row) => is_constant(row.as_slice(), value.one, ticks),
    }
}

/// Whether each net of a case keeps its value.
fn is_in_case(values: &[CaseValue], ticks: u32, bits: &[Levels]) -> bool
    ensures { (choices : List Chosen) → IsTrue result →
        IsInCase values.now (run_of ticks choices bits.now) }
{
    for value in values {
        if !keeps(*value, ticks, bits) {
            return false;
        }
    }
    true
}

/// The most bits of a trace.
const MOST_BITS: u64 = 4_000_000;

/// The most bytes of a trace: with those of any drawing they are no more than `judge` reads.
const MOST_BYTES: usize = 12_582_912;

/// Whether `judge` can take a trace, with any drawing before which it stands.
fn can_be_judged(alloc: Global, c: &Circuit, trace: &Trace) -> Result<bool, NoMemory>
    ensures { IfOk result (λ can. MatchBool can (CanBeJudged c.now trace.now)
        (¬ (CanBeJudged c.now trace.now))) }
{
    if Extent::Long.most_ticks() < trace.ticks {
        return Ok(false);
    }
    if MOST_BITS < u64::from(c.net_count()) * u64::from(trace.ticks) {
        return Ok(false);
    }
    let mut bytes = Bytes::new(alloc);
    write_trace(c, trace, &mut bytes)?;
    if MOST_BYTES < bytes.len() {
        return Ok(false);
    }
    Ok(true)
}

/// Whether a run meets the interface, is in the case, and breaks the constraint at the ticks that
/// are named, all of them from one on.
#[tactic(auto, using(crate::proofs::Judged::run_traces))]
fn is_shown(
    alloc: Global,
    c: &Circuit,
    values: &[CaseValue],
    x: Constraint,
    from: u32,
    choice: &Choice,
    ticks: u32,
    bits: &[Levels],
    named: Named,
) -> Result<bool, NoMemory>
    requires is_run { IsRun c.now (run_of ticks (choices_of choice.now) bits.now) }
    requires long { ticks ≡ last_of named + 1 }
    ensures { IfOk result (λ is. IsTrue is →
        ShowsBreak c.now values.now x from (showing_of choice.now ticks bits.now named)) }
{
    match first_stray(c, ticks, bits) {
        Some(_) => Ok(false),
        None => {
            if is_in_case(values, ticks, bits) {
                is_break(alloc, c, choice, ticks, bits, x, from, named)
            } else {
                Ok(false)
            }
        }
    }
}

/// The run that was found, if its inputs keep their assertions, it is in the case, has as many ticks
/// as the break needs, can be judged, and breaks the constraint at the ticks that are named, all of
/// them from one on.
pub fn shown_by(
    alloc: Global,
    c: &Circuit,
    values: &Case,
    x: Constraint,
    from: u32,
    found: Found,
) -> Result<Option<Showing>, NoMemory>
    requires { IsRun c.now (run_found found) }
    ensures { IfOk result (λ showing. IfSome showing (IsShownBy c.now values.now x from)) }
{
    let Found {
        choice,
        ticks,
        bits,
        named,
    } = found;
    if u64::from(ticks) != u64::from(named.last()) + 1 {
        return Ok(None);
    }
    let values = values.as_slice();
    if !is_shown(
        alloc,
        c,
        values,
        x,
        from,
        &choice,
        ticks,
        bits.as_slice(),
        named,
    )? {
        return Ok(None);
    }
    let trace = Trace {
        ticks,
        delays: choice.delays,
        wires: choice.wires,
        bits,
    };
    if can_be_judged(alloc, c, &trace)? {
        Ok(Some(Showing { trace, named }))
    } else {
        Ok(None)
    }
}
