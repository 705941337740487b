//! Faults at the points of a circuit where something is to stay as it is: an input about the edges
//! of a clock, the pins beside a marked one, and a driven net that is held to what its name
//! asserts.
//!
//! The layer above calls [`check_points`] for the faults of all settled waves,
//! [`check_points_again`] for those of further waves, if [`known_points`] were worked out once, and
//! [`point_fault`] for what a checker finds with other limits. [`first_low`] and [`last_fall`] say
//! how long a clock is high. `specs/Faults` says which faults come, in which order: `specs/Point`
//! those of checkers, over the windows of `specs/Window`, `specs/Assertion` those of nets.
//! `specs/Break` says what a run breaks, and `specs/Sound` that nothing breaks if there is no
//! fault.
#![tactic(auto)]

// an input about the edges of a clock
mod edges;
mod folds;
mod last_check;
mod recent;
mod window;

// checkers, marked pins and assertions
mod assertion;
mod checker;
mod mark;

// all of them, and what is known of them from before
mod before;
mod check;
mod known;

pub use check::{check_points, check_points_again};
pub use checker::point_fault;
pub use edges::{first_low, last_fall};
pub use known::{PointFaults, known_points};
