//! Corners: which delays are long and which clocks come late in a try.

use crate::chance::{coin, seldom};
use fixpoint_engine::NetSet;
use flat_circuit::{Circuit, Instance, Target};
use narrowing::{Constraint, Through, cone_behind, instance_of};
use rand_core::Rng;
use scald_base::NoMemory;
use std::alloc::Global;

/// What a try makes late.
#[derive(Clone, Copy, PartialEq, Eq, Debug)]
pub enum Corner {
    /// All but what leads to the clock.
    Data,
    /// What leads to the clock alone.
    Clock,
    /// By chance.
    Chance,
    /// As `Data`, and by chance the other way.
    NearData,
    /// As `Clock`, and by chance the other way.
    NearClock,
}

impl Corner {
    /// The corner of a try.
    pub fn of(number: u64) -> Corner {
        match number % 6 {
            0 => Corner::Data,
            1 => Corner::Clock,
            3 => Corner::NearData,
            4 => Corner::NearClock,
            _ => Corner::Chance,
        }
    }

    /// Whether a delay or a clock is at its greater end.
    pub fn is_late<R: Rng>(self, rng: &mut R, leads_to_clock: bool) -> bool {
        match self {
            Corner::Data => !leads_to_clock,
            Corner::Clock => leads_to_clock,
            Corner::Chance => coin(rng),
            Corner::NearData => leads_to_clock == seldom(rng, 4),
            Corner::NearClock => leads_to_clock != seldom(rng, 4),
        }
    }
}

/// The place of the marked pin of an element, or else the first place: that of a checker's clock.
pub fn clock_place(i: &Instance) -> usize {
    for place in 0..i.pins.len() {
        if let Some(pin) = i.pins.get(place) {
            if pin.hold {
                return place;
            }
        }
    }
    0
}

/// The net of the pin of a constraint that is its clock.
fn clock_net(c: &Circuit, x: Constraint) -> Option<u32> {
    let i = c.instance(instance_of(x)?)?;
    let pin = i.pins.get(clock_place(i))?;
    match pin.target {
        Target::Net(net) => Some(net),
        Target::Constant(_) => None,
    }
}

/// Which nets lead to the clock of a constraint, whichever pins they come to on the way.
pub fn clock_nets(alloc: Global, c: &Circuit, x: Constraint) -> Result<NetSet, NoMemory> {
    match clock_net(c, x) {
        None => NetSet::new(alloc, c.net_count()),
        Some(net) => cone_behind(alloc, c, &[net], Through::EachPin),
    }
}
