//! The values of parameters.

use scald_base::{Bytes, List};

/// A parameter with its value.
#[derive(Drop, PartialEq, Eq, Debug)]
pub struct Binding {
    pub name: Bytes,
    pub value: i64,
}

/// The values of parameters. If names are distinct, each has the one value that stands beside
/// it.
pub type Env = List<Binding>;
