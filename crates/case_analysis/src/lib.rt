//! The base of a circuit: the settled waves of rounds that begin with the inputs alone, and nothing
//! known of any net that is driven; and the tick from which on they permit every run.
//!
//! The layer above calls [`base`] for the waves, and [`reach`] and [`tick`] for that tick.
//! `specs/Base` says which runs the waves permit, and `specs/Tick` from which tick on checks may
//! rely on them.
//!
//! [`check_cases`] gives the cases that a drawing lists, and [`case_waves`] the waves of one, from
//! those of the base (`specs/Listed`, `Case`).
#![tactic(auto)]

mod base_rounds;
mod case_list;
mod case_rounds;
mod cones;
mod parts;
mod printed_tick;
mod reached;

pub use base_rounds::{base, default_limit, driven_nets, start_numbers};
pub use case_list::check_cases;
pub use case_rounds::{AllCases, case_waves};
pub use cones::cone;
pub use parts::case_at;
pub use printed_tick::{reach, tick};
pub use reached::{Reached, shared_reach};
