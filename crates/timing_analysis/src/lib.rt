//! From a text to the circuit that it draws, its settled waves, their faults, and what never breaks
//! in any run.
//!
//! The layer above calls [`read_circuit`], or [`read_text`], `macro_expander::expanded` and then
//! [`circuit_of`] if the drawing itself is wanted, makes a [`Subject`] of what the text draws, and
//! asks it for the settled base and then for one case after the other. `specs/Drawn` says which
//! circuit and cases a text draws and why one is refused, `specs/Settled` what comes of settling:
//! which waves, which faults, from which tick on, and `specs/Ended` why nothing settles.
//! `specs/Promise` says that what has no fault is never broken in a run from that tick on.
//! [`circuit_laws`] has that a text draws one circuit or is refused in one way, and [`laws`] that a
//! circuit settles in one way.
#![tactic(auto)]

// from a text to its circuit
pub mod circuit_laws;
mod drawn;

// from a circuit to its faults
mod case_faults;
pub mod laws;
mod settled;
mod subject;

pub use case_faults::{KnownFaults, faults};
pub use drawn::{Drawn, circuit_of, read_circuit, read_text};
pub use settled::{SettledBase, SettledCase};
pub use subject::Subject;
