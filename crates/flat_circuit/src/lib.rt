//! A drawing's circuit, flat: its nets, and the bits of the elements and checkers between them.
//!
//! The layer above makes one by a `Builder`, which numbers the nets and takes instances, and whose
//! `finish` refuses two drivers of a net and loops without delay. The layers that evaluate read a
//! `Circuit` by its methods. `specs/Circuit` says what holds of each circuit, `specs/Builder` what
//! a builder makes of each call, `specs/Run` what a run of a circuit is, by the equations of
//! `element_kinds`, and `specs/Split` what a gate with two delays does in it.
//!
//! `classes` numbers the nets so that indistinguishable ones, as most bits of a bus are, have one
//! number; whoever uses these numbers asks `stable` first, which is exact (`specs/Alike`,
//! `specs/Stable`). `sorted` puts the nodes of a graph without loops into an order in which each
//! follows those that lead to it (`specs/Node`, `specs/Sorted`).
//!
//! There may be 65,536 nets and twice as many instances, so both are packed: `ShortList` keeps one
//! or two items in place, `Text` 15 bytes, `Assertion` takes memory only if there is one, and
//! fields go from wide to narrow, since they are laid out as written. Contracts see lists, bytes
//! and assertions, so nothing above knows.
#![tactic(auto)]

// its parts
mod assertion;
mod assertions;
mod case;
mod fault;
mod instance;
mod limits;
mod net;
mod short_list;
mod split;
mod text;

// how one is made
mod builder;
mod drivers;
mod finish;
mod net_table;
mod order;
mod passages;
mod search;

// how it is read
mod circuit;
mod laws;
mod readers;

// nets that are indistinguishable
mod case_values;
mod class_map;
mod feeds;
mod key;
mod likeness;
mod numbers;
mod partition;
mod stability;

// orders of nodes
mod node;
mod order_search;

pub use assertion::Assertion;
pub use assertions::is_same_assertion;
pub use builder::Builder;
pub use case::{Case, CaseList, CaseValue};
pub use circuit::Circuit;
pub use class_map::ClassMap;
pub use element_kinds::Kind;
pub use fault::{Fault, Faults, PointKind, append_faults};
pub use instance::{Instance, Pin, Pins};
pub use laws::{
    fronts_are_runs, later_parts_are_runs, runs_go_by_instances, unnamed_bits_are_free,
};
pub use limits::Limits;
pub use net::Net;
pub use node::Node;
pub use order_search::sorted;
pub use partition::classes;
pub use short_list::ShortList;
pub use split::{Split, equal_delays_are_one, every_tick_counts, rise_mirrors_fall};
pub use stability::stable;
pub use text::Text;
pub use vector_names::Target;
