//! One try: a choice of delays, inputs and free bits.

use crate::corner::Corner;
use crate::delays::delays;
use crate::inputs::{constant, free_row, input_row, value_in};
use fixpoint_engine::NetSet;
use flat_circuit::{Case, Circuit};
use narrowing::Constraint;
use rand_core::{Rng, SeedableRng};
use rand_pcg::Lcg128Xsl64;
use scald_base::NoMemory;
use std::alloc::Global;
use trace_sim::{Choice, Levels, Traces};

/// What is alike in all tries.
#[derive(Clone, Copy, Debug)]
pub struct Length {
    pub ticks: u32,
    /// The number of the try.
    pub number: u64,
}

impl Length {
    /// Whether inputs and free bits change seldom.
    fn is_calm(self) -> bool {
        self.number % 16 < 12
    }
}

/// The bits of a net that nothing drives; of another none matter.
fn given_row<R: Rng>(
    alloc: Global,
    rng: &mut R,
    corner: Corner,
    c: &Circuit,
    case: &Case,
    clock: &NetSet,
    net: u32,
    length: Length,
) -> Result<Levels, NoMemory> {
    let Some(found) = c.net(net) else {
        return constant(alloc, false, length.ticks);
    };
    if found.driver.is_some() {
        return constant(alloc, false, length.ticks);
    }
    let value = value_in(case.as_slice(), net);
    let leads = clock.has(net);
    let late = corner.is_late(rng, leads);
    input_row(
        alloc,
        rng,
        c.header(),
        found,
        value,
        late,
        length.ticks,
        length.is_calm(),
    )
}

/// The bits of all nets that nothing drives.
fn given_rows<R: Rng>(
    alloc: Global,
    rng: &mut R,
    corner: Corner,
    c: &Circuit,
    case: &Case,
    clock: &NetSet,
    length: Length,
) -> Result<Traces, NoMemory> {
    let mut rows = Traces::new(alloc);
    for net in 0..c.net_count() {
        rows.push(given_row(alloc, rng, corner, c, case, clock, net, length)?)?;
    }
    Ok(rows)
}

/// The bits of driven nets where no equation fixes them; of another none matter.
fn free_rows<R: Rng>(
    alloc: Global,
    rng: &mut R,
    c: &Circuit,
    length: Length,
) -> Result<Traces, NoMemory> {
    let mut rows = Traces::new(alloc);
    for net in 0..c.net_count() {
        let row = if c.driver_of(net).is_some() {
            free_row(alloc, rng, length.ticks, length.is_calm())?
        } else {
            constant(alloc, false, length.ticks)?
        };
        rows.push(row)?;
    }
    Ok(rows)
}

/// The choice of a try. `clock` marks the nets that lead to the clock of the constraint.
pub fn attempt(
    alloc: Global,
    c: &Circuit,
    case: &Case,
    x: Constraint,
    clock: &NetSet,
    length: Length,
) -> Result<Choice, NoMemory> {
    let mut rng = Lcg128Xsl64::seed_from_u64(length.number);
    let corner = Corner::of(length.number);
    let (delays, wires) = delays(alloc, &mut rng, corner, c, x, clock)?;
    let inputs = given_rows(alloc, &mut rng, corner, c, case, clock, length)?;
    let free = free_rows(alloc, &mut rng, c, length)?;
    Ok(Choice {
        delays,
        wires,
        inputs,
        free,
    })
}
