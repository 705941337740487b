//! Where in a drawing things stand: the uses of macros that a path leads through, and the name of a
//! net with what it asserts.
//!
//! A circuit keeps the paths of its nets and instances, and the lines of its instances. A label
//! stands once in a body, so a path and the drawing give the rest: [`scope_of`] finds the uses that
//! a scope is in, and [`spot_of`] the first place of a name. `specs/Path` says what the parts of a
//! path are, `specs/Uses` and `specs/Names` what is found.
#![tactic(auto)]

// paths
mod path;

// what a drawing has there
mod body;
mod names;
mod uses;

pub use names::{Spot, spot_of};
pub use path::{is_global_text, scope_len};
pub use uses::{Scope, Uses, scope_of};
