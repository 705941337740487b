//! The steps that lead to a break, in the order of ticks.
//!
//! Each function puts its lines at the end of the bytes. Its one error is that memory ran out.

ghost use Rattle.std.specs.Prelude.{◌≡◌, ◌-◌, ◌++◌, OnOk, false, slice_index_or};
ghost use Rattle.fixpoint_engine.specs.Settled.{marked_in};
ghost use Rattle.trace_tool.specs.Trace.{row_at};
ghost use Rattle.fault_decider.specs.Choices.{step_line, step_of_net, steps_text, tick_text};

use crate::row::bit_in;
use fixpoint_engine::NetSet;
use flat_circuit::Circuit;
use listing::{Piece, add_line, net_piece};
use scald_base::{Bytes, NoMemory};
use std::cmp::max;
use trace_tool::Trace;

/// The bit of a net at a tick.
fn bit_at(trace: &Trace, net: u32, t: u32) -> bool
    ensures { result ≡ slice_index_or (row_at trace.now net) t false }
{
    bit_in(trace.row(net), t)
}

/// The step of a net at a tick, if it steps.
fn add_step(out: &mut Bytes, c: &Circuit, trace: &Trace, t: u32, net: u32) -> Result<(), NoMemory>
    ensures { OnOk result (out.new ≡ out.old ++ step_line c.now trace.now t net) }
{
    let after = bit_at(trace, net, t);
    if bit_at(trace, net, t.saturating_sub(1)) == after {
        return Ok(());
    }
    let word: &[u8] = if after { b" RISES AT " } else { b" FALLS AT " };
    add_line(
        out,
        &[
            Piece::Text(b"  NET "),
            net_piece(c, net),
            Piece::Text(word),
            Piece::Number(u64::from(t)),
        ],
    )
}

/// The step of a net at a tick, if it is one of the cone and steps.
fn add_step_of(
    out: &mut Bytes,
    c: &Circuit,
    trace: &Trace,
    cone: &NetSet,
    t: u32,
    net: u32,
) -> Result<(), NoMemory>
    ensures { OnOk result (out.new
        ≡ out.old ++ step_of_net c.now trace.now (marked_in cone.now) t net) }
{
    if cone.has(net) {
        add_step(out, c, trace, t, net)
    } else {
        Ok(())
    }
}

/// The steps of the nets of the cone at a tick, in the order of names.
fn add_tick(
    out: &mut Bytes,
    c: &Circuit,
    trace: &Trace,
    cone: &NetSet,
    t: u32,
) -> Result<(), NoMemory>
    ensures { OnOk result (out.new
        ≡ out.old ++ tick_text c.now trace.now (marked_in cone.now) t) }
{
    c.known();
    for place in 0..c.net_count() {
        add_step_of(out, c, trace, cone, t, c.net_at(place))?;
    }
    Ok(())
}

/// The steps of the nets of the cone in the period that ends with a tick.
pub fn add_steps(
    out: &mut Bytes,
    c: &Circuit,
    trace: &Trace,
    cone: &NetSet,
    last: u32,
) -> Result<(), NoMemory>
    ensures { OnOk result (out.new
        ≡ out.old ++ steps_text c.now trace.now (marked_in cone.now) last) }
{
    let end = u64::from(last) + 1;
    let period = u64::from(c.header().period());
    let first = max(1, end.saturating_sub(period));
    for t in first..end {
        add_tick(out, c, trace, cone, t as u32)?;
    }
    Ok(())
}
