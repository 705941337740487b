//! What a drawing leaves out, as far as its tree, its circuit and its cases tell it without waves:
//! names that nothing determines, names that are spread, FORs that have no turn, and cases.
//!
//! Each kind of note has a file of `specs/` that says which notes of it there are, in the words of
//! its line, and a call that appends exactly its lines to [`Notes`] and counts them: [`add_names`]
//! (PART and NEAR), [`add_spread`], [`add_empty`] and [`add_cases`]. `drawing_notes` writes them
//! between its own. [`spreads`] goes down the statements as the expansion does, and finds the names
//! that are spread and the FORs that are reached (`specs/Spreads`, `specs/Widths`);
//! [`case_values`] has what the cases give to nets (`specs/CaseBits`).
//!
//! [`Omissions`] are numbers of what is left out, for the line that stands beside a verdict.
//!
//! [`firsts_same`] finds which cases stand twice (`specs/Same`), and [`is_open`] whether some bits
//! of the nets that they name are in none (`specs/Open`).
//!
//! [`is_alike`], [`is_even`] and [`is_uneven`] say of two names whether they are one slip of the
//! hand apart (`specs/Slip`, `specs/Alike`). A [`Table`] has names, each under a number, and gives
//! of another name the numbers of all names that may be near to it, without looking at the others:
//! names that are near have a key in common (`specs/Keys`). A [`Sieve`] rules out most names that
//! are near to none of its own at a small part of that cost; nothing is promised of it.
#![tactic(auto)]

// names that are near
mod alike;
mod keys;
mod sieve;
mod slip;
mod table;

// what the cases cover
mod held;
mod named;
mod open;
mod parts;
mod same;

// lines
mod notes;

// names that nothing determines, and cases
mod case_bits;
mod case_notes;
mod loose;
mod names;
mod near;
mod part;
mod read;

// what is found while a drawing is expanded
mod body;
mod fors;
mod spread;
mod spread_notes;
mod walk;
mod width;

// numbers alone
mod omissions;

pub use alike::{is_alike, is_even, is_uneven};
pub use case_bits::{CaseBit, CaseBits, case_values, written_cases};
pub use case_notes::add_cases;
pub use fors::{add_empty, for_places};
pub use names::add_names;
pub use near::Near;
pub use notes::Notes;
pub use omissions::Omissions;
pub use open::is_open;
pub use read::read_nets;
pub use same::firsts_same;
pub use sieve::Sieve;
pub use spread::{Finding, Findings, Reached, Spread};
pub use spread_notes::add_spread;
pub use table::Table;
pub use walk::spreads;
