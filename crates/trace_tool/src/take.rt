//! A trace, read line by line.

ghost use Rattle.std.specs.Prelude.{◌≡◌, ◌<◌, length, IfOk, MatchBool, MatchResult};
ghost use Rattle.flat_circuit.specs.Circuit.{Circuit as Flat};
ghost use Rattle.trace_tool.specs.declared.extent.Extent.{Extent as Length};
ghost use Rattle.trace_tool.specs.declared.line.Line.TheVariants.{Bits, Delays, Head};
ghost use Rattle.trace_tool.specs.Reading.{IsEnded, IsReadAs};
ghost use Rattle.trace_tool.specs.Scan.{lines_of};
ghost use Rattle.trace_tool.specs.Taking.{AreLong, IsFault, IsLineOf, IsRefused, IsTaken};

use crate::extent::Extent;
use crate::line::{Line, line_at, line_count};
use crate::read::{read_bits, read_delays, read_head};
use crate::split::next_line;
use crate::trace::{Trace, TraceFault};
use flat_circuit::Circuit;
use scald_base::{List, NoMemory};
use std::alloc::Global;
use trace_sim::{DelayPicks, Traces, WirePicks};

/// Takes what a line says into a trace; `false` exactly if the line is wrong.
fn take_line(
    alloc: Global,
    extent: Extent,
    c: &Circuit,
    of: Line,
    line: &[u8],
    trace: &mut Trace,
) -> Result<bool, NoMemory>
    requires of_circuit { IsLineOf c.now of }
    requires long { AreLong c.now trace.old }
    ensures { IfOk result (λ right. MatchBool right
        (IsTaken extent c.now trace.old trace.new of line.now) (IsRefused extent c.now trace.old of line.now)) }
{
    match of {
        Line::Head => Ok(take_head(extent, line, trace)),
        Line::Delays(k) => take_delays(alloc, c, k, line, trace),
        Line::Bits(net) => take_bits(alloc, c, net, line, trace),
        Line::End => Ok(line == b"END TRACE".as_slice()),
    }
}

fn take_head(extent: Extent, line: &[u8], trace: &mut Trace) -> bool
    ensures { (c : Flat) → AreLong c trace.old → MatchBool result
        (IsTaken extent c trace.old trace.new Head line.now)
        (IsRefused extent c trace.old Head line.now) }
{
    match read_head(extent, line) {
        None => false,
        Some(ticks) => {
            trace.ticks = ticks;
            true
        }
    }
}

fn take_delays(
    alloc: Global,
    c: &Circuit,
    k: u32,
    line: &[u8],
    trace: &mut Trace,
) -> Result<bool, NoMemory>
    requires inside { k < length c.now.instances }
    requires long { AreLong c.now trace.old }
    ensures { (e : Length) → IfOk result (λ right. MatchBool right
        (IsTaken e c.now trace.old trace.new (Delays k) line.now)
        (IsRefused e c.now trace.old (Delays k) line.now)) }
{
    let Some(i) = c.instance(k) else {
        return Ok(false);
    };
    match read_delays(alloc, c, i, line)? {
        None => Ok(false),
        Some((pick, wires)) => {
            trace.delays.set(k as usize, pick);
            trace.wires.set(k as usize, wires);
            Ok(true)
        }
    }
}

fn take_bits(
    alloc: Global,
    c: &Circuit,
    net: u32,
    line: &[u8],
    trace: &mut Trace,
) -> Result<bool, NoMemory>
    requires inside { net < length c.now.nets }
    requires long { AreLong c.now trace.old }
    ensures { (e : Length) → IfOk result (λ right. MatchBool right
        (IsTaken e c.now trace.old trace.new (Bits net) line.now)
        (IsRefused e c.now trace.old (Bits net) line.now)) }
{
    match read_bits(alloc, c, net, trace.ticks, line)? {
        None => Ok(false),
        Some(row) => {
            trace.bits.set(net as usize, row);
            Ok(true)
        }
    }
}

fn no_picks(alloc: Global, count: usize) -> Result<DelayPicks, NoMemory>
    ensures { IfOk result (λ picks. length picks ≡ count) }
{
    let mut picks = List::new(alloc);
    'picks: while picks.len() < count {
        picks.push((0, 0))?;
    }
    Ok(picks)
}

fn no_wires(alloc: Global, count: usize) -> Result<WirePicks, NoMemory>
    ensures { IfOk result (λ wires. length wires ≡ count) }
{
    let mut wires = List::new(alloc);
    'wires: while wires.len() < count {
        wires.push(List::new(alloc))?;
    }
    Ok(wires)
}

fn no_bits(alloc: Global, count: usize) -> Result<Traces, NoMemory>
    ensures { IfOk result (λ bits. length bits ≡ count) }
{
    let mut bits = List::new(alloc);
    'bits: while bits.len() < count {
        bits.push(List::new(alloc))?;
    }
    Ok(bits)
}

/// A trace without ticks, of which no line was read.
fn begun(alloc: Global, c: &Circuit) -> Result<Trace, NoMemory>
    ensures { IfOk result (λ trace. AreLong c.now trace) }
{
    let instances = c.instance_count() as usize;
    Ok(Trace {
        ticks: 0,
        delays: no_picks(alloc, instances)?,
        wires: no_wires(alloc, instances)?,
        bits: no_bits(alloc, c.net_count() as usize)?,
    })
}

/// The trace of the circuit, which may be so long, whose lines these are: those of `split_trace`. If
/// they are not, the first line that lacks the form, the name or the bounds of its place.
pub fn read_trace(
    alloc: Global,
    extent: Extent,
    c: &Circuit,
    lines: &[u8],
) -> Result<Trace, TraceFault>
    requires { IsEnded (lines_of lines.now) }
    ensures { MatchResult result (IsReadAs extent c.now (lines_of lines.now))
        (IsFault extent c.now (lines_of lines.now)) }
{
    c.known();
    let mut trace = begun(alloc, c)?;
    let mut rest = lines;
    for place in 0..line_count(c) {
        match line_at(c, place) {
            None => {}
            Some(of) => match next_line(rest) {
                None => return Err(TraceFault::WrongLine(place + 1)),
                Some((line, after)) => {
                    if !take_line(alloc, extent, c, of, line, &mut trace)? {
                        return Err(TraceFault::WrongLine(place + 1));
                    }
                    rest = after;
                }
            },
        }
    }
    match next_line(rest) {
        None => Ok(trace),
        Some(_) => Err(TraceFault::WrongLine(line_count(c) + 1)),
    }
}
