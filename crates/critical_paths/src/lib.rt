//! The path by which a change comes as late, or as early, as the settled waves permit it: from a
//! pin or a net back to a source, link by link. Events from which paths go on alike share their
//! links.
//!
//! The layer above asks a [`View`] of a case for the paths of nets and pins, of the ends of pulses,
//! and for arrivals, all of which go into [`Paths`]. [`Paths::ago`] tells by how many ticks the
//! data of two paths is launched before the clock, [`counted_twice`] what both take from one
//! constant of a run.
//!
//! `specs/Event` says what the events of a wave are and `specs/Region` their regions, `specs/Cause`
//! which steps of pins make a step of an output, `specs/Path` which link follows from an event,
//! `specs/Unfolded` that of an end of a pulse, `specs/Walk` where that leads in the end,
//! `specs/Launch` from which edge of a clock a path comes, `specs/Arrival` when the edges of a clock
//! come to a net, `specs/Reached` what is known of that, and `specs/Common` what two paths count
//! twice.
#![tactic(auto)]

// what may change, and by which waves
mod direction;
mod event;
mod region;
mod view;

// one link
mod back;
mod cause;
mod cut;
mod image;
mod open;
mod origin;

// paths
mod begin;
mod edge;
mod path;
mod steps;
mod walk;

// what is made of them
mod arrival;
mod common;
mod frames;
mod gather;
mod near;

// what holds of the definitions
mod laws;

pub use arrival::{Arrival, Place};
pub use common::{Counted, Part, Parts, counted_twice};
pub use direction::{Corner, Direction};
pub use event::{Event, PinEvent, Reading, Stop};
pub use laws::{
    changes_move, first_is_at_corner, last_is_at_corner, paths_are_events, paths_are_finite,
};
pub use path::{At, End, Node, Nodes, Passage, Paths, Step, Steps, Word};
pub use region::{Region, Regions, Slots, Test, slots_of};
pub use view::View;
