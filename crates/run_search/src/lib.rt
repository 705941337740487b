//! A search for a run in which one constraint is broken. What it finds is a run of the circuit;
//! that its inputs keep their assertions, that it is in the case and that it breaks the constraint,
//! is judged by the layer above, which calls [`find_run`]. What pins do at a tick ([`rises`],
//! [`changes`] and others) is exact.
//!
//! Each try makes a whole run of many periods: delays and offsets of clocks are at their ends, the
//! inputs change as early and as late as their assertions permit, and what decides which is the
//! number of the try. The tries go from one corner to the next: the data late and the clock early,
//! the data early and the clock late, and corners by chance.
#![tactic(auto)]

// breaks
mod finding;
mod pins;

// tries
mod attempt;
mod chance;
mod corner;
mod delays;
mod inputs;
mod search;

pub use pins::{changes, counts, is_pulse, leaves, rises};
pub use search::{Found, find_run};
