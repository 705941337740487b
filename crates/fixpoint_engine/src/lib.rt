//! Rounds of evaluation: from the waves at the start, each round gives the active nets what their
//! drivers make of the waves of the round before, until nothing changes.
//!
//! The layer above calls [`settle`], which answers the settled waves, or the net that still changes
//! at the limit, or [`settle_classes`], which answers the same if one net of each class may
//! stand for all. `specs/Value` says what an instance makes of all waves, `specs/Rounds` what a
//! round is and when rounds settle, and `specs/Settled` which runs the waves permit. Checks read
//! what pins show by [`waves_at_pins`] (`specs/Waves`, `specs/Pins`).
//!
//! A [`WaveTable`] keeps each wave once, under a number, and [`Evaluations`] the number of what was
//! made of some waves, so that it is made once (`specs/Table`, `specs/Evaluation`, `specs/Key`).
#![tactic(auto)]

// waves by their numbers, and what is made of them
mod evaluated;
mod evaluations;
mod feed;
mod growth;
mod numbers;
mod wave_key;
mod wave_table;
mod waves;

// what pins show
mod pins;
mod same_waves;

// one instance
mod key;
mod net_set;
mod value;

// one round
mod changes;
mod queue;
mod readers;

// nets of one class, which change together
mod class_changes;
mod class_nets;
mod hearers;
mod last_nets;
mod net_classes;

// rounds until they settle, and what holds of them
mod laws;
mod rounds;

pub use class_nets::ClassNets;
pub use evaluated::Evaluated;
pub use evaluations::Evaluations;
pub use hearers::Hearers;
pub use key::{Constants, Key, KeyPin, Store, constant_numbers};
pub use laws::stable_classes_go_together;
pub use net_classes::NetClasses;
pub use net_set::NetSet;
pub use numbers::{Numbers, copied, numbers_of, renumbered};
pub use pins::{pin_wave, waves_at_pins, wire_behind};
pub use readers::{output_of, readers_of};
pub use rounds::{EngineEnd, Settled, Start, settle};
pub use same_waves::{has_one_wave, has_one_wave_at};
pub use wave_table::WaveTable;
pub use waves::Waves;
