//! Runs of a circuit, made tick by tick, without waves.
//!
//! The layer above calls [`simulate`], which makes the run of a `Choice`: delays, wires' delays,
//! inputs and free bits. [`draw`] draws a choice by the words of a generator, [`choice_fits`] says
//! whether a choice has what `simulate` asks of it, [`first_failure`] judges bits that anyone
//! wrote, and [`nth_pin`] reads what a pin shows of them. `specs/Choice` says which choices a
//! circuit has, `specs/Simulated` where the bits of their runs come from, `specs/Drawn` and
//! `specs/Input` what a seed draws, and `specs/Failure` what is no run. [`laws`] has that each
//! choice has one run, and [`draw_laws`] that inputs that are drawn keep their assertions.
//!
//! Within a tick an instance without delay reads what others drive at that very tick, so `order`
//! finds one order of the instances for every choice of delays (`specs/Order`).
#![tactic(auto)]

// runs that are made
mod asked;
mod choice;
mod fitting;
mod gates;
pub mod laws;
mod levels;
mod making;
mod order;
mod rows;

// bits that are judged
mod failure;

// choices that a seed draws
mod clock;
pub mod draw_laws;
mod free;
mod input;
mod picks;
mod seed;
mod words;

pub use choice::{Choice, DelayPicks, Levels, Traces, WirePicks};
pub use clock::{skew_of, slot_back};
pub use failure::first_failure;
pub use fitting::{choice_fits, pick_fits};
pub use levels::nth_pin;
pub use making::simulate;
pub use seed::draw;
