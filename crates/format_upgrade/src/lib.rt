//! Drawings of older versions of the language, carried over to the last one.
//!
//! The layer above calls [`upgrade`]. `specs/Upgraded` says which text that gives: the canonical
//! text of the drawing in version 2, the selects of its multiplexers in the order that version has.
//! `specs/Upgrade` says what the text draws: the same flat circuit and the same cases, which
//! `specs/SameCircuit` spells out. [`copy_drawing`] gives a plain copy.
#![tactic(auto)]

mod copy;
mod tree;
mod turned;
mod upgraded;

pub use upgraded::{copy_drawing, upgrade};
