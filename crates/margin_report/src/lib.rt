//! How much more the checkers of a drawing may ask for before a case has a fault.
//!
//! The program calls [`margin_main`], the main call of `program_call` for the program
//! [`MarginProgram`]. `specs/Margin` says which values of a parameter fit and what its margin is,
//! `specs/Report` which lines there are, and `specs/Laws` what holds of every margin.
#![tactic(auto)]

// margins, case by case
mod margin;
mod rows;
mod search;

// what goes out
mod lines;
mod program;
mod reporter;

// beside the call
pub mod laws;

pub use margin::{Margin, Parameter, Row};
pub use program::{MarginProgram, margin_main};
pub use rows::Rows;
