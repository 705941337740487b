//! Bits of vectors: what a connection's terms stand for, bit by bit.
//!
//! The layer above reads a range by `bits_of`, joins terms by `concat`, complements them by
//! `complement`, and brings a connection to its width by `spread`. `specs/Bits` says which numbers
//! and bits they give.
#![tactic(auto)]

mod bits;
mod fault;
mod range;

pub use bits::{BitRef, Bits, Target, complement, concat, spread};
pub use fault::VectorFault;
pub use range::{Indices, bits_of};
