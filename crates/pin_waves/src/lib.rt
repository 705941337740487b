//! The waves that evaluation begins with: of nets that nothing drives, by what their names assert,
//! and of the pins that nets lead to.
//!
//! The layer above takes [`interface_wave`] for each undriven net and [`pin_wave`] for each pin;
//! checks hold a driven net against [`wide_wave`]. `specs/Meets` says what an assertion asks of a
//! net, `specs/Laws` what holds of each, `specs/Interface` what wave a net has by it, and
//! `specs/Pin` what a pin makes of a net's wave.
#![tactic(auto)]

// what an assertion says of each slot
mod ideal_clock;
mod stable_spans;

// the waves
mod interface;
mod pin;

// what holds of all of them
mod laws;

pub use interface::{constant_wave, interface_wave, wide_wave};
pub use laws::{
    front_keeps, ideal_keeps_clock, ideal_keeps_precision, next_period_keeps, rest_keeps,
};
pub use pin::pin_wave;
