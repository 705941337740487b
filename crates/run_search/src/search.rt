//! Tries, one after another.

ghost use Rattle.std.specs.Prelude.{◌≡◌, IfOk, IfSome, map, take};
ghost use Rattle.flat_circuit.specs.Run.{IsRun};
ghost use Rattle.trace_sim.specs.Choice.{ChoiceFits, choices_of};
ghost use Rattle.trace_sim.specs.Simulated.{run_of};
ghost use Rattle.run_search.specs.Found.{run_found};

use crate::attempt::{Length, attempt};
use crate::corner::clock_nets;
use crate::finding::find_break;
use fixpoint_engine::NetSet;
use flat_circuit::{Case, Circuit};
use narrowing::{Constraint, Named};
use scald_base::NoMemory;
use std::alloc::Global;
use trace_sim::{Choice, Levels, Traces, choice_fits, simulate};

/// A run, with the ticks of a break in it.
#[derive(Drop)]
pub struct Found {
    /// What it is made from: inputs and free bits may go on past its end.
    pub choice: Choice,
    /// How many ticks it has: as many as the break needs.
    pub ticks: u32,
    pub bits: Traces,
    pub named: Named,
}

/// The first so many bits.
fn front(row: &[bool], ticks: usize) -> &[bool]
    ensures { result.now ≡ take ticks row.now }
{
    if ticks < row.len() {
        &row[..ticks]
    } else {
        row
    }
}

/// The first so many bits of each net.
fn fronts(alloc: Global, rows: &[Levels], ticks: usize) -> Result<Traces, NoMemory>
    ensures { IfOk result (λ fronts. fronts ≡ map (take ticks) rows.now) }
{
    let mut fronts = Traces::new(alloc);
    for row in rows {
        fronts.push(Levels::from_slice(alloc, front(row.as_slice(), ticks))?)?;
    }
    Ok(fronts)
}

/// A run up to its break.
#[derive(Drop)]
struct Cut {
    ticks: u32,
    bits: Traces,
    named: Named,
}

/// The run of a choice, up to the last tick of a break in it, if one is found.
fn cut_at_break(
    alloc: Global,
    c: &Circuit,
    x: Constraint,
    from: u32,
    choice: &Choice,
    ticks: u32,
) -> Result<Option<Cut>, NoMemory>
    requires { ChoiceFits c.now choice.now ticks }
    ensures { IfOk result (λ found. IfSome found (λ b.
        IsRun c.now (run_of b.ticks (choices_of choice.now) b.bits))) }
{
    let bits = simulate(alloc, c, choice, ticks)?;
    let Some(named) = find_break(alloc, c, choice, ticks, bits.as_slice(), x, from)? else {
        return Ok(None);
    };
    let last = named.last();
    if ticks <= last {
        return Ok(None);
    }
    let ticks = last + 1;
    let bits = fronts(alloc, bits.as_slice(), ticks as usize)?;
    Ok(Some(Cut { ticks, bits, named }))
}

/// What one try finds.
fn try_once(
    alloc: Global,
    c: &Circuit,
    case: &Case,
    x: Constraint,
    from: u32,
    clock: &NetSet,
    length: Length,
) -> Result<Option<Found>, NoMemory>
    ensures { IfOk result (λ found. IfSome found (λ f. IsRun c.now (run_found f))) }
{
    let choice = attempt(alloc, c, case, x, clock, length)?;
    if !choice_fits(c, &choice, length.ticks) {
        return Ok(None);
    }
    match cut_at_break(alloc, c, x, from, &choice, length.ticks)? {
        None => Ok(None),
        Some(Cut { ticks, bits, named }) => Ok(Some(Found {
            choice,
            ticks,
            bits,
            named,
        })),
    }
}

/// A run of the circuit, of at most so many ticks, in which the constraint seems to be broken at
/// ticks from one on, if one is found in so many tries from a number on. It seems to be in the case
/// and to keep its inputs' assertions, too.
pub fn find_run(
    alloc: Global,
    c: &Circuit,
    case: &Case,
    x: Constraint,
    from: u32,
    ticks: u32,
    first: u64,
    tries: u16,
) -> Result<Option<Found>, NoMemory>
    ensures { IfOk result (λ found. IfSome found (λ f. IsRun c.now (run_found f))) }
{
    let clock = clock_nets(alloc, c, x)?;
    for number in 0..tries {
        let length = Length {
            ticks,
            number: first.saturating_add(u64::from(number)),
        };
        let found = try_once(alloc, c, case, x, from, &clock, length)?;
        if found.is_some() {
            return Ok(found);
        }
    }
    Ok(None)
}
