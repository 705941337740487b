//! What registers and latches make of the waves at their pins.
//!
//! The rounds above call `eval_storage`, which answers the wave of an element's output, late by the
//! element's delay and before its complement. `specs/Storage` says what an element makes of a value
//! for each pin that listens, and `specs/Instance` what it makes of their waves.
#![tactic(auto)]

mod element;
mod pins;
mod storage;

pub use storage::eval_storage;
