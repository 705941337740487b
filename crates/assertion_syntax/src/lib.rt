//! Signal names: what stands between a drawing's quotes.
//!
//! `read_name` gives the name of a text and `write_name` the text of a name, `fits` says whether a
//! name's assertion is one for a drawing's header, and `ideal` and `quiet` say what it asserts at
//! each tick. `specs/Name` says which names there are and how each is spelled.
#![tactic(auto)]

mod base;
mod fitting;
mod meaning;
mod name;
mod reader;
mod units;
mod writer;

pub use fitting::{NameFault, fits};
pub use meaning::{ideal, quiet};
pub use name::{NameEnd, SignalName};
pub use reader::{one_name, one_text, read_name};
pub use writer::write_name;
