//! From the tree of a drawing to its circuit.
//!
//! The layer above calls `expand`, or `expanded` and then `finish`. `specs/Flat` says what the flat
//! circuit of a drawing is, by whole names, with each refusal and its place; `specs/Stands` what a
//! circuit is that stands for it, and `specs/Cases` what the cases of a drawing are. Inside, nets
//! have numbers, and `specs/Numbered` says what the numbers stand for while a circuit grows.
//! `circuit` begins and ends an expansion, `statement` goes down the statements and the bodies of
//! macros and FORs, and the other modules are the steps on the way: constants, the bits of names,
//! terms and connections, the use of a primitive, the scope of a macro's body and of a FOR's turn,
//! WIRE. Those that give scopes, and the values of ranges, parameters, delays and limits, are
//! public, for another walk over the statements that `expand` goes down. [`laws`] has where a
//! drawing is refused.
#![tactic(auto)]

mod circuit;
mod connection;
pub mod constants;
mod expansion;
pub mod formal;
mod instance_bits;
pub mod laws;
pub mod library;
pub mod list;
mod macro_use;
pub mod parameter;
mod places;
pub mod primitive;
mod primitive_use;
pub mod range;
pub mod scope;
mod statement;
mod term;
pub mod turn;
mod wire;

pub use circuit::{DEEPEST, expand, expanded};
pub use expansion::Expansion;
