//! The choice of the run that a seed draws.

ghost use Rattle.std.specs.Prelude.{◌≡◌, ◌<◌, ◌≤◌, ◌^◌, ℕ, IfOk, length, slice_index_or};
ghost use Rattle.std.specs.List.{All};
ghost use Rattle.flat_circuit.specs.Alike.{value_in};
ghost use Rattle.trace_sim.specs.Input.{AreGiven, IsDrawn, given_row};
ghost use Rattle.trace_sim.specs.Choice.{ChoiceFits};

use crate::free::{draw_offsets, draw_rows};
use crate::picks::draw_picks;
use crate::{Choice, Levels, Traces, input};
use flat_circuit::{Case, CaseValue, Circuit};
use rand_core::SeedableRng;
use rand_pcg::Lcg128Xsl64;
use scald_base::NoMemory;
use std::alloc::Global;

/// The choice of the run of so many ticks that a seed draws: delays, the bits of the nets that
/// nothing drives, and free bits. The nets of the case, which nothing drives, keep its values.
pub fn draw(
    alloc: Global,
    c: &Circuit,
    case: &Case,
    ticks: u32,
    seed: u64,
) -> Result<Choice, NoMemory>
    ensures is { IfOk result (λ choice. IsDrawn c.now case.now ticks seed choice) }
    ensures fits { IfOk result (λ choice. ChoiceFits c.now choice ticks) }
{
    c.known();
    let mut rng = Lcg128Xsl64::seed_from_u64(seed);
    let (delays, wires) = draw_picks(alloc, &mut rng, c)?;
    let shifts = draw_offsets(alloc, &mut rng, c)?;
    let rows = draw_rows(alloc, &mut rng, c, ticks)?;
    let inputs = given(alloc, c, case, ticks, shifts.as_slice(), rows.as_slice())?;
    let free = given(alloc, c, case, ticks, shifts.as_slice(), rows.as_slice())?;
    Ok(Choice {
        delays,
        wires,
        inputs,
        free,
    })
}

// The rows of the nets, by their numbers.
fn given(
    alloc: Global,
    c: &Circuit,
    case: &Case,
    ticks: u32,
    shifts: &[u32],
    free: &[Levels],
) -> Result<Traces, NoMemory>
    ensures { IfOk result (λ rows. AreGiven c.now case.now ticks shifts.now free.now rows) }
{
    c.known();
    let mut rows = empty_rows(alloc, c)?;
    for place in 0..c.net_count() {
        let row = row_at(alloc, c, case, ticks, shifts, free, place)?;
        rows.set(c.net_at(place) as usize, row);
    }
    Ok(rows)
}

fn empty_rows(alloc: Global, c: &Circuit) -> Result<Traces, NoMemory>
    ensures { IfOk result (λ rows. length rows ≡ length c.now.nets) }
{
    let mut rows = Traces::new(alloc);
    for _ in 0..c.net_count() {
        rows.push(Levels::new(alloc))?;
    }
    Ok(rows)
}

// The row of the net at a place in name order.
fn row_at(
    alloc: Global,
    c: &Circuit,
    case: &Case,
    ticks: u32,
    shifts: &[u32],
    free: &[Levels],
    place: u32,
) -> Result<Levels, NoMemory>
    requires { place < length c.now.order }
    ensures { IfOk result (λ row. row ≡ given_row c.now case.now ticks shifts.now free.now place) }
{
    c.known();
    let net = c.net_at(place);
    let value = value_in(case.as_slice(), net);
    let by = shift_at(shifts, place);
    let found = c.net(net).unwrap();
    match free.get(place as usize) {
        Some(bits) => input::given_row(alloc, c.header(), value, found, by, bits.as_slice(), ticks),
        None => input::given_row(alloc, c.header(), value, found, by, &[], ticks),
    }
}

fn shift_at(shifts: &[u32], place: u32) -> u32
    ensures { result ≡ slice_index_or shifts.now place 0 }
{
    match shifts.get(place as usize) {
        Some(shift) => *shift,
        None => 0,
    }
}

// The value that the case gives a net: the last, if it has several.
fn value_in(values: &[CaseValue], net: u32) -> Option<bool>
    ensures { result ≡ value_in values.now net }
{
    let mut found = None;
    for value in values {
        if value.net == net {
            found = Some(value.one);
        }
    }
    found
}
