//! From a text to a run that is drawn of its circuit.

ghost use Rattle.std.specs.Prelude.{◌≡◌, ◌-◌, ◌^◌, ◌<◌, ◌≤◌, IfErr, IfOk, IfSome, length};
ghost use Rattle.std.specs.List.{All};
ghost use Rattle.scald_base.specs.declared.refusal.Refusal.{Refusal};
ghost use Rattle.case_analysis.specs.Listed.{IsListed};
ghost use Rattle.timing_analysis.specs.Drawn.{IsTextRefused};
ghost use Rattle.trace_tool.specs.Ran.{IsNamed, IsTraced, Ran, RanIn, RanOn, written};

use crate::asked::{Asked, Format};
use crate::outcome::TraceOutcome;
use crate::replies::{refused, silent};
use crate::{Trace, write_dump, write_trace};
use flat_circuit::{Case, CaseList, Circuit};
use listing::Output;
use macro_expander::expanded;
use program_call::Reply;
use scald_base::{Bytes, NoMemory, Stop};
use std::alloc::Global;
use timing_analysis::{Drawn, circuit_of, read_text};
use trace_sim::{draw, simulate};

/// The most bits of a run that is written.
const MOST_BITS: u64 = 4_000_000;

/// The run of so many ticks that a seed draws of the circuit of a text, in the case of a number
/// from 1 if one is asked for, as a trace or as a dump; or why the text is refused, that there
/// is no such case, or that the run would have more than 4,000,000 bits.
pub fn run(alloc: Global, text: &[u8], asked: Asked) -> Result<Reply<TraceOutcome>, NoMemory>
    requires short { length text.now < 2 ^ 32 - 1 }
    requires from_one { IfSome asked.case (λ k. 1 ≤ k) }
    ensures { IfOk result (λ reply. Ran asked text.now reply.outcome reply.bytes) }
{
    match read_named(alloc, text) {
        Ok(named) => run_on(
            alloc,
            named.name.as_slice(),
            &named.drawn.circuit,
            &named.drawn.cases,
            asked,
        ),
        Err(Stop::Refused(refusal)) => refused(alloc, refusal),
        Err(Stop::NoMemory) => Err(NoMemory),
    }
}

/// The circuit and the cases of a drawing, and its name.
#[derive(Drop)]
struct Named {
    name: Bytes,
    drawn: Drawn,
}

/// What a text draws, and the name of its drawing.
fn read_named(alloc: Global, text: &[u8]) -> Result<Named, Stop>
    requires { length text.now < 2 ^ 32 - 1 }
    ensures drawn { IfOk result (λ named.
        IsNamed text.now named.name named.drawn.circuit named.drawn.cases) }
    ensures listed { IfOk result (λ named. All (IsListed named.drawn.circuit) named.drawn.cases) }
    ensures few { IfOk result (λ named. length named.drawn.cases ≤ 256) }
    ensures refused { IfErr result (λ stop. (r : Refusal) → stop ≡ Stop.Refused r →
        IsTextRefused text.now r) }
{
    let drawing = match read_text(alloc, text) {
        Ok(drawing) => drawing,
        Err(stop) => return Err(stop),
    };
    let expansion = match expanded(alloc, &drawing) {
        Ok(expansion) => expansion,
        Err(stop) => return Err(stop),
    };
    // (no `?` before the tree goes into its circuit: there all of it would be dropped here)
    let copied = Bytes::of(alloc, drawing.name.as_slice());
    match circuit_of(alloc, drawing, expansion) {
        Ok(drawn) => match copied {
            Ok(name) => Ok(Named { name, drawn }),
            Err(NoMemory) => Err(Stop::NoMemory),
        },
        Err(stop) => Err(stop),
    }
}

/// The reply to the circuit of a drawing of this name, and the cases that are listed of it.
fn run_on(
    alloc: Global,
    name: &[u8],
    c: &Circuit,
    cases: &CaseList,
    asked: Asked,
) -> Result<Reply<TraceOutcome>, NoMemory>
    requires listed { All (IsListed c.now) cases.now }
    requires few { length cases.now ≤ 256 }
    requires from_one { IfSome asked.case (λ k. 1 ≤ k) }
    ensures { IfOk result (λ reply.
        RanOn asked name.now c.now cases.now reply.outcome reply.bytes) }
{
    match asked.case {
        None => run_in(alloc, name, c, &Case::new(alloc), asked),
        Some(k) => match cases.get(k as usize - 1) {
            None => Ok(silent(alloc, TraceOutcome::NoCase(cases.len() as u32))),
            Some(values) => run_in(alloc, name, c, values, asked),
        },
    }
}

/// The reply in a case.
fn run_in(
    alloc: Global,
    name: &[u8],
    c: &Circuit,
    values: &Case,
    asked: Asked,
) -> Result<Reply<TraceOutcome>, NoMemory>
    requires { IsListed c.now values.now }
    ensures { IfOk result (λ reply.
        RanIn asked name.now c.now values.now reply.outcome reply.bytes) }
{
    let ticks = asked.ticks;
    if u64::from(c.net_count()) * u64::from(ticks) > MOST_BITS {
        return Ok(silent(alloc, TraceOutcome::TooBig));
    }
    let trace = traced(alloc, c, values, ticks, asked.seed)?;
    let bytes = written(alloc, name, c, &trace, asked.format)?;
    Ok(Reply {
        outcome: TraceOutcome::Done,
        bytes: Output::whole(bytes),
    })
}

/// A trace as it is asked for.
fn written(
    alloc: Global,
    name: &[u8],
    c: &Circuit,
    trace: &Trace,
    format: Format,
) -> Result<Bytes, NoMemory>
    ensures { IfOk result (λ bytes. bytes ≡ written format name.now c.now trace.now) }
{
    match format {
        Format::Trace => {
            let mut bytes = Bytes::new(alloc);
            write_trace(c, trace, &mut bytes)?;
            Ok(bytes)
        }
        Format::Dump(tick) => write_dump(alloc, c, name, tick, &trace.bits, trace.ticks),
    }
}

/// The trace of the run that a seed draws in a case.
fn traced(
    alloc: Global,
    c: &Circuit,
    values: &Case,
    ticks: u32,
    seed: u64,
) -> Result<Trace, NoMemory>
    requires { IsListed c.now values.now }
    ensures { IfOk result (λ trace. IsTraced c.now values.now ticks seed trace) }
{
    c.known();
    c.header().known();
    let choice = draw(alloc, c, values, ticks, seed)?;
    let bits = simulate(alloc, c, &choice, ticks)?;
    Ok(Trace {
        ticks,
        delays: choice.delays,
        wires: choice.wires,
        bits,
    })
}
