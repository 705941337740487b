//! Where the faults of a drawing come from: for each fault the chain of changes that ends in it.
//!
//! The program calls [`chain_main`], the main call of `program_call` for the program
//! [`ChainProgram`]. `specs/Chain` says which links a chain has and how it ends, `specs/Report`
//! which lines there are, and `specs/Laws` what holds of every chain.
#![tactic(auto)]

// chains
mod chain;
mod follow;
mod link;

// what goes out
mod lines;
mod program;
mod reporter;

// beside the call
pub mod laws;

pub use chain::{Chain, End, Link, Links};
pub use follow::chain_of;
pub use program::{ChainProgram, chain_main};
