//! The constant inputs of a run.
//!
//! Each function puts its lines at the end of the bytes. Its one error is that memory ran out.

ghost use Rattle.std.specs.Prelude.{◌≡◌, ◌++◌, OnOk, false};
ghost use Rattle.fixpoint_engine.specs.Settled.{marked_in};
ghost use Rattle.fault_decider.specs.Choices.{input_of_net, inputs_text, is_constant_by as constant_by};

use crate::row::bit_in;
use fixpoint_engine::NetSet;
use flat_circuit::{CaseValue, Circuit};
use listing::{Piece, add_line, net_piece};
use narrowing::is_set;
use scald_base::{AssertSpec, Bytes, NoMemory};
use trace_tool::Trace;

/// Whether a net of this assertion is constant if nothing drives it, and the case may set it.
fn is_constant_by(spec: &AssertSpec, set: bool) -> bool
    ensures { result ≡ constant_by set spec.now }
{
    match spec {
        AssertSpec::None => true,
        AssertSpec::Stable(spans) => match spans.as_slice() {
            [] => true,
            _ => set,
        },
        AssertSpec::Precision(_) => false,
        AssertSpec::Clock(_) => false,
    }
}

/// The line of a net, if it is a constant input of the cone.
fn add_input_of(
    out: &mut Bytes,
    c: &Circuit,
    values: &[CaseValue],
    trace: &Trace,
    cone: &NetSet,
    net: u32,
) -> Result<(), NoMemory>
    ensures { OnOk result (out.new
        ≡ out.old ++ input_of_net c.now values.now trace.now (marked_in cone.now) net) }
{
    let Some(found) = c.net(net) else {
        return Ok(());
    };
    let nothing = AssertSpec::None;
    let set = is_set(values, net);
    if !(cone.has(net)
        && (found.driver.is_none() && is_constant_by(found.spec.or(&nothing), set)))
    {
        return Ok(());
    }
    let bit: &[u8] = if bit_in(trace.row(net), 0) {
        b"1"
    } else {
        b"0"
    };
    add_line(
        out,
        &[
            Piece::Text(b"  INPUT "),
            net_piece(c, net),
            Piece::Text(b" = "),
            Piece::Text(bit),
        ],
    )
}

/// The constant inputs of the cone, in the order of names.
pub fn add_inputs(
    out: &mut Bytes,
    c: &Circuit,
    trace: &Trace,
    cone: &NetSet,
    values: &[CaseValue],
) -> Result<(), NoMemory>
    ensures { OnOk result (out.new
        ≡ out.old ++ inputs_text c.now values.now trace.now (marked_in cone.now)) }
{
    c.known();
    for place in 0..c.net_count() {
        add_input_of(out, c, values, trace, cone, c.net_at(place))?;
    }
    Ok(())
}
