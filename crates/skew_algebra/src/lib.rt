//! Waves with a skew: a wave over one period, and the most ticks by which the whole of it may come
//! late. A skew is kept beside the slots, and not spread over them, for as long as it can be, since
//! a pulse that is late as a whole is no shorter.
//!
//! The layers above move a wave by a delay's bounds, complement it and fold its skew. `specs/Wave`
//! says what each call gives, and `specs/Permits` what a wave permits a net to do, which each call
//! keeps.
#![tactic(auto)]

mod scan;
mod skewed;

pub use skewed::Skewed;
