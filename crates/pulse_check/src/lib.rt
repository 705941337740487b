//! Pulses that may be narrower than a checker asks for.
//!
//! The layer above calls [`check_pulses`] for the faults of all checkers in the settled waves,
//! [`check_pulses_again`] for those in further waves, if [`known_pulses`] were worked out once,
//! and [`width_fault`] for what a checker finds with another width. [`first_narrow`] looks at one
//! wave. `specs/Pulse` says which pulses a wave may have, `specs/Faults` which faults come, in
//! which order, `specs/Break` what a narrow pulse of a run is, and `specs/Sound` that there is none
//! if there is no fault.
#![tactic(auto)]

// one checker
mod checker;
mod pulse;

// all of them, and what is known of them from before
mod before;
mod check;
mod known;

pub use check::{check_pulses, check_pulses_again};
pub use checker::width_fault;
pub use known::{PulseFaults, known_pulses};
pub use pulse::first_narrow;
