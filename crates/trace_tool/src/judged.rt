//! From a text to what is to be said of the trace in it.

ghost use Rattle.std.specs.Prelude.{◌≡◌, ◌-◌, ◌^◌, ◌<◌, IfOk, length};
ghost use Rattle.flat_circuit.specs.Run.{IsRun};
ghost use Rattle.trace_sim.specs.Choice.{AreTraces, choices_of};
ghost use Rattle.trace_sim.specs.Simulated.{run_of};
ghost use Rattle.trace_tool.specs.Reading.{IsEnded, IsTrace};
ghost use Rattle.trace_tool.specs.Scan.{lines_of};
ghost use Rattle.trace_tool.specs.Judged.{Judged, JudgedOn, Verdict, run_in};

use crate::asked::Trial;
use crate::outcome::TraceOutcome;
use crate::replies::{refused, silent};
use crate::verdict::{add_break, add_inputs, add_no_run, add_run, outcome_of};
use crate::{Trace, TraceFault, first_break, first_stray, read_trace, split_trace};
use flat_circuit::Circuit;
use listing::Output;
use program_call::Reply;
use scald_base::{Bytes, NoMemory, Stop};
use std::alloc::Global;
use timing_analysis::read_circuit;
use trace_sim::{Choice, Levels, Traces, first_failure};

/// What is to be said of the trace with which a text begins, with breaks from a tick on: whether it
/// is a run of the circuit that the rest of the text draws, whether its inputs keep their
/// assertions, and what breaks first; or why the drawing is refused, or which line of the trace is
/// wrong.
pub fn judge(alloc: Global, text: &[u8], trial: Trial) -> Result<Reply<TraceOutcome>, NoMemory>
    requires { length text.now < 2 ^ 32 - 1 }
    ensures { IfOk result (λ reply. Judged trial text.now reply.outcome reply.bytes) }
{
    let Some((lines, drawing)) = split_trace(text) else {
        return Ok(silent(alloc, TraceOutcome::BadTrace(0)));
    };
    match read_circuit(alloc, drawing) {
        Ok(drawn) => judge_lines(alloc, &drawn.circuit, lines, trial),
        Err(Stop::Refused(refusal)) => refused(alloc, refusal),
        Err(Stop::NoMemory) => Err(NoMemory),
    }
}

/// The reply to the lines of a trace, on a circuit.
fn judge_lines(
    alloc: Global,
    c: &Circuit,
    lines: &[u8],
    trial: Trial,
) -> Result<Reply<TraceOutcome>, NoMemory>
    requires { IsEnded (lines_of lines.now) }
    ensures { IfOk result (λ reply.
        JudgedOn c.now (lines_of lines.now) trial reply.outcome reply.bytes) }
{
    match read_trace(alloc, trial.extent, c, lines) {
        Ok(trace) => judge_trace(alloc, c, trace, trial),
        Err(TraceFault::WrongLine(i)) => Ok(silent(alloc, TraceOutcome::BadTrace(i))),
        Err(TraceFault::NoMemory) => Err(NoMemory),
    }
}

/// The verdict on a trace.
fn judge_trace(
    alloc: Global,
    c: &Circuit,
    trace: Trace,
    trial: Trial,
) -> Result<Reply<TraceOutcome>, NoMemory>
    requires { IsTrace trial.extent c.now trace }
    ensures { IfOk result (λ reply. Verdict c.now (run_in trace) trial.from reply.outcome reply.bytes) }
{
    c.known();
    let choice = Choice {
        delays: trace.delays,
        wires: trace.wires,
        inputs: Traces::new(alloc),
        free: Traces::new(alloc),
    };
    let bits = trace.bits.as_slice();
    match first_failure(alloc, c, &choice, trace.ticks, bits)? {
        Some((tick, net)) => {
            let mut bytes = Bytes::new(alloc);
            add_no_run(&mut bytes, c, tick, net)?;
            Ok(Reply {
                outcome: TraceOutcome::NotRun,
                bytes: Output::whole(bytes),
            })
        }
        None => judge_run(alloc, c, &choice, trace.ticks, bits, trial.from),
    }
}

/// The verdict on a run.
fn judge_run(
    alloc: Global,
    c: &Circuit,
    choice: &Choice,
    ticks: u32,
    bits: &[Levels],
    from: u32,
) -> Result<Reply<TraceOutcome>, NoMemory>
    requires is_run { IsRun c.now (run_of ticks (choices_of choice.now) bits.now) }
    requires long { AreTraces (length c.now.nets) ticks bits.now }
    ensures { IfOk result (λ reply.
        Verdict c.now (run_of ticks (choices_of choice.now) bits.now) from reply.outcome
        reply.bytes) }
{
    let stray = first_stray(c, ticks, bits);
    let found = first_break(alloc, c, choice, ticks, bits, from)?;
    let mut bytes = Bytes::new(alloc);
    add_run(&mut bytes)?;
    add_inputs(&mut bytes, c, stray)?;
    add_break(&mut bytes, c, found)?;
    Ok(Reply {
        outcome: outcome_of(found),
        bytes: Output::whole(bytes),
    })
}
