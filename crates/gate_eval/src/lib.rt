//! What gates and change functions make of the waves at their pins, and the mark `!H` at a pin of
//! an AND or OR.
//!
//! The layer above calls [`eval_gate`] for the wave of an element's output, before its complement,
//! [`eval_split`] for that of a gate with two delays, and [`hold_fault`] for the hazard of a marked
//! pin; [`met`] does the same as [`eval_gate`] for an [`Image`] of another crate. `specs/Instance`
//! says which wave comes and what it permits: `specs/Meeting` if several waves meet, `specs/Gates`
//! what a gate makes of values, `specs/Hold` the mark and its rule, `specs/Change` the change
//! function, `specs/Split` two delays, by `specs/SplitWindow`.
#![tactic(auto)]

// pins
mod pin_wave;

// where waves meet
mod meeting;

// what a gate makes of values
mod image;

// the mark
mod hold;

// the change function
mod change;

// all of them
mod gate;

// gates with two delays
mod split;

pub use gate::eval_gate;
pub use hold::hold_fault;
pub use meeting::{Image, met};
pub use pin_wave::{PinWave, PinWaves};
pub use split::{eval_split, some_bit_is_left};
