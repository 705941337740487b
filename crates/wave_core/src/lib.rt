//! Waves over one period of the clock: a cell for each slot, which is the set of steps that a
//! net may make in it. Slots are counted round the period, so slot 0 follows the last.
//!
//! The layers above are generic over `CyclicWave`: its calls turn, map, join and compare waves of
//! any cells that meet the laws of `Cell`. `specs/Cell` says what a cell means, and `specs/Slots`
//! what each call makes of a wave's list of cells. `SlotWave` keeps that list as it is.
#![tactic(auto)]

mod cell;
mod cyclic_wave;
mod joined;
mod search;
mod slot_wave;

pub use cell::Cell;
pub use cyclic_wave::CyclicWave;
pub use joined::joined_from;
pub use search::first_where;
pub use slot_wave::SlotWave;
