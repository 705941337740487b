//! The drawing of a datapath of any number of registers in a chain, which is always the same for
//! the same number: what the verifier's speed is measured on.
//!
//! The layer above verifies what [`generate`] gives. `specs/Datapath` says its text line by line,
//! over `specs/Text`.
#![tactic(auto)]

mod datapath;
mod piece;

pub use datapath::generate;
