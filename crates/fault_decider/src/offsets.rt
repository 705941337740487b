//! The offsets of clocks in a run. A clock that comes in one way only has no line.
//!
//! Each function puts its lines at the end of the bytes. Its one error is that memory ran out.

ghost use Rattle.std.specs.Prelude.{◌≡◌, ◌++◌, OnOk};
ghost use Rattle.scald_base.specs.declared.assertion.AssertSpec.TheVariants.{Precision};
ghost use Rattle.fixpoint_engine.specs.Settled.{marked_in};
ghost use Rattle.fault_decider.specs.Choices.{is_shifted as has_shift, is_shifted_at, offset_by, offset_line, offset_of as offset_in, offset_of_net, offsets_text};

use crate::row::bit_in;
use assertion_syntax::ideal;
use fixpoint_engine::NetSet;
use flat_circuit::Circuit;
use listing::{Piece, add_line, net_piece};
use scald_base::{AssertSpec, Bytes, ClockSpec, Header, NoMemory};
use trace_sim::{skew_of, slot_back};
use trace_tool::Trace;

/// Whether the bit of a row at a tick is that of the ideal clock, so much later than its earliest.
fn is_shifted_at(clock: &ClockSpec, h: &Header, early: u16, row: &[bool], by: u32, t: u32) -> bool
    ensures { result ≡ is_shifted_at h.now clock.now early row.now by t }
{
    let late = slot_back(h, t as usize + early as usize, by as usize);
    bit_in(row, t) == ideal(clock, h, late)
}

/// Whether a row is the ideal clock, so much later than its earliest.
fn is_shifted(clock: &ClockSpec, h: &Header, early: u16, ticks: u32, row: &[bool], by: u32) -> bool
    ensures { result ≡ has_shift h.now clock.now early ticks row.now by }
{
    for t in 0..ticks {
        if !is_shifted_at(clock, h, early, row, by, t) {
            return false;
        }
    }
    true
}

/// By how much later than its earliest a clock came, at the least.
fn offset_of(
    clock: &ClockSpec,
    h: &Header,
    skew: (u16, u16),
    ticks: u32,
    row: &[bool],
) -> Option<u32>
    ensures { result ≡ offset_in h.now clock.now skew ticks row.now }
{
    let most = u32::from(skew.0) + u32::from(skew.1);
    for by in 0..most + 1 {
        if is_shifted(clock, h, skew.0, ticks, row, by) {
            return Some(by);
        }
    }
    None
}

/// The line of a clock that came so much later than its earliest.
fn add_offset(
    out: &mut Bytes,
    c: &Circuit,
    net: u32,
    skew: (u16, u16),
    by: Option<u32>,
) -> Result<(), NoMemory>
    ensures { OnOk result (out.new ≡ out.old ++ offset_line c.now net skew by) }
{
    let (early, late) = skew;
    let Some(by) = by else {
        return Ok(());
    };
    let early = u32::from(early);
    if early + u32::from(late) == 0 {
        return Ok(());
    }
    let sign: &[u8] = if by < early { b"-" } else { b"" };
    let offset = if by < early { early - by } else { by - early };
    let least: &[u8] = if 0 < early { b"-" } else { b"" };
    add_line(
        out,
        &[
            Piece::Text(b"  OFFSET "),
            net_piece(c, net),
            Piece::Text(b" "),
            Piece::Text(sign),
            Piece::Number(u64::from(offset)),
            Piece::Text(b" OF "),
            Piece::Text(least),
            Piece::Number(u64::from(early)),
            Piece::Text(b":"),
            Piece::Number(u64::from(late)),
        ],
    )
}

/// The line of the offset of a clock that nothing drives.
fn add_own_offset(
    out: &mut Bytes,
    c: &Circuit,
    trace: &Trace,
    net: u32,
    clock: &ClockSpec,
) -> Result<(), NoMemory>
    ensures { OnOk result (out.new
        ≡ out.old ++ offset_by c.now trace.now net (Precision clock.now)) }
{
    let skew = skew_of(clock, c.header().pskew);
    let by = offset_of(clock, c.header(), skew, trace.ticks, trace.row(net));
    add_offset(out, c, net, skew, by)
}

/// The line of the offset of a net, if it is a clock of the cone that nothing drives.
fn add_offset_of(
    out: &mut Bytes,
    c: &Circuit,
    trace: &Trace,
    cone: &NetSet,
    net: u32,
) -> Result<(), NoMemory>
    ensures { OnOk result (out.new
        ≡ out.old ++ offset_of_net c.now trace.now (marked_in cone.now) net) }
{
    let Some(found) = c.net(net) else {
        return Ok(());
    };
    if !(cone.has(net) && found.driver.is_none()) {
        return Ok(());
    }
    let nothing = AssertSpec::None;
    match found.spec.or(&nothing) {
        AssertSpec::Precision(clock) => add_own_offset(out, c, trace, net, clock),
        AssertSpec::None => Ok(()),
        AssertSpec::Clock(_) => Ok(()),
        AssertSpec::Stable(_) => Ok(()),
    }
}

/// The offsets of the clocks of the cone, in the order of names.
pub fn add_offsets(
    out: &mut Bytes,
    c: &Circuit,
    trace: &Trace,
    cone: &NetSet,
) -> Result<(), NoMemory>
    ensures { OnOk result (out.new
        ≡ out.old ++ offsets_text c.now trace.now (marked_in cone.now)) }
{
    c.known();
    for place in 0..c.net_count() {
        add_offset_of(out, c, trace, cone, c.net_at(place))?;
    }
    Ok(())
}
