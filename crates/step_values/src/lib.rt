//! The seven values of a net at a slot of the period, and the steps that each permits.
//!
//! A step is the bit before and the bit after. As a `Cell` a value is joined and complemented in
//! waves; the evaluators above look up what a gate or a storage element makes of its arguments, by
//! `look2` to `look4` in the tables `and2` to `latch_rs`, or work out one entry, by `mux2_value` to
//! `latch_rs_value`, if few are wanted. `specs/Steps` says what a value permits,
//! `specs/Image` what each element makes of values, and `specs/Laws` what holds of all values.
#![tactic(auto)]

// values, and sets of steps
mod covering;
mod step_set;
mod value;

// values as the cells of waves
mod cell;
mod laws;

// what an element makes of its arguments
mod choices;
mod gate_image;
mod rule;
mod storage_image;

// the same as tables
mod table;
mod tables;

pub use covering::{cover, steps};
pub use gate_image::mux2_value;
pub use laws::{
    cover_is_least, cover_is_unknown, cover_permits, cover_returns, flip_complements,
    join_is_least, join_is_orderless, join_permits, quiet_keeps,
};
pub use step_set::{Step, StepSet};
pub use storage_image::{latch_rs_value, reg, reg_rs_value};
pub use table::{Table, look2, look3, look4};
pub use tables::{and2, latch, latch_rs, mux2, or2, reg_rs, xor2};
pub use value::Value;
