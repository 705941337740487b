//! Faults refuted by cases that nobody wrote: nets held at a bit, and delays and offsets of clocks
//! held in a part of their bounds, until no part of all runs has the fault.
//!
//! The layer above calls [`refute`], which looks for a tree of such parts in whose leaves the
//! waves show no fault of a constraint; [`constraint_of`] tells the constraint of a fault, and
//! [`nets_behind`] the nets on which it depends (`specs/Constraint`). `specs/Part` says what a
//! narrowing is and which runs are in it, `specs/Narrowed` which circuit and case it makes,
//! `specs/Leaf` when it has no fault, and `specs/Tree` when a tree of narrowings refutes a
//! constraint.
#![tactic(auto)]

// constraints of faults
mod cone;
mod constraint;
mod named;

// narrowings and their circuits
mod circuit;
mod fits;
mod instance;
mod moved;
mod net;
mod part;
mod same;

// one narrowing, evaluated
mod doubt;
mod leaf;

// trees
mod halves;
pub mod laws;
mod offset;
mod split;
mod splits;
mod tree;

pub use circuit::narrow;
pub use cone::{Through, cone_behind, instance_of, nets_of};
pub use constraint::{Constraint, constraint_of};
pub use fits::is_set;
pub use leaf::{Leaf, evaluate};
pub use named::Named;
pub use part::{Part, Parts};
pub use tree::{Refutation, refute};
