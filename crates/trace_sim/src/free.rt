//! What is drawn of nets: how much later a clock comes, and free bits.

ghost use Rattle.std.specs.Prelude.{◌≡◌, ℕ, IfOk, slice_get};
ghost use Rattle.std.specs.List.{range_with_len};
ghost use Rattle.trace_sim.specs.Draw.{draw_bits, draw_each};
ghost use Rattle.trace_sim.specs.Drawn.{draw_offset, draw_shift};

use crate::clock::skew_of;
use crate::words::{draw_bit, draw_from};
use crate::{Levels, Traces};
use flat_circuit::Circuit;
use rand_core::Rng;
use scald_base::{AssertSpec, Header, List, NoMemory};
use std::alloc::Global;

fn draw_shift<R: Rng>(rng: &mut R, h: &Header, spec: &AssertSpec) -> u32
    ensures { (result, R.stream rng.new) ≡ draw_shift h.now spec.now (R.stream rng.old) }
{
    match spec {
        AssertSpec::Precision(clock) => {
            let (early, late) = skew_of(clock, h.pskew);
            draw_from(rng, 0, u32::from(early) + u32::from(late))
        }
        _ => 0,
    }
}

fn draw_offset<R: Rng>(rng: &mut R, c: &Circuit, net: u32) -> u32
    ensures { (result, R.stream rng.new)
        ≡ draw_offset c.now.header (slice_get c.now.nets net) (R.stream rng.old) }
{
    match c.net(net) {
        None => 0,
        Some(found) => match found.driver {
            None => draw_shift(rng, c.header(), found.spec.or(&AssertSpec::None)),
            Some(_) => 0,
        },
    }
}

/// For each net in name order how much later it comes than its earliest.
pub(crate) fn draw_offsets<R: Rng>(
    alloc: Global,
    rng: &mut R,
    c: &Circuit,
) -> Result<List<u32>, NoMemory>
    ensures { IfOk result (λ shifts. (shifts, R.stream rng.new)
        ≡ draw_each (λ (n : ℕ). draw_offset c.now.header (slice_get c.now.nets n)) c.now.order
        (R.stream rng.old)) }
{
    c.known();
    let mut shifts = List::new(alloc);
    for place in 0..c.net_count() {
        shifts.push(draw_offset(rng, c, c.net_at(place)))?;
    }
    Ok(shifts)
}

/// A bit for each of so many ticks.
pub(crate) fn draw_bits<R: Rng>(alloc: Global, rng: &mut R, ticks: u32) -> Result<Levels, NoMemory>
    ensures { IfOk result (λ bits. (bits, R.stream rng.new) ≡ draw_bits ticks (R.stream rng.old)) }
{
    let mut bits = Levels::new(alloc);
    for _ in 0..ticks {
        bits.push(draw_bit(rng))?;
    }
    Ok(bits)
}

/// For each net in name order a bit for each of so many ticks.
pub(crate) fn draw_rows<R: Rng>(
    alloc: Global,
    rng: &mut R,
    c: &Circuit,
    ticks: u32,
) -> Result<Traces, NoMemory>
    ensures { IfOk result (λ rows. (rows, R.stream rng.new)
        ≡ draw_each (λ (n : ℕ). draw_bits ticks) c.now.order (R.stream rng.old)) }
{
    c.known();
    let mut rows = Traces::new(alloc);
    for _ in 0..c.net_count() {
        rows.push(draw_bits(alloc, rng, ticks)?)?;
    }
    Ok(rows)
}
