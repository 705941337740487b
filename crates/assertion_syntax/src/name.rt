//! A signal's name, and why a text may have none.

use scald_base::{AssertSpec, Bytes, NoMemory};

/// A signal's name.
#[derive(Drop, PartialEq, Eq, Debug)]
pub struct SignalName {
    /// The name without its assertion, and without the slash of a global.
    pub base: Bytes,
    /// The signal is one and the same in every macro: a slash stands before the base.
    pub global: bool,
    /// What the name asserts of the signal.
    pub spec: AssertSpec,
}

/// Why no name was read.
#[derive(Clone, Copy, PartialEq, Eq, Debug)]
pub enum NameEnd {
    /// The text is no name's.
    BadName,
    /// Memory ran out.
    NoMemory,
}

impl From<NoMemory> for NameEnd {
    ghost use Rattle.std.specs.Prelude.{◌≡◌};
    ghost use Rattle.assertion_syntax.specs.declared.name.NameEnd.TheVariants.{NoMemory as OutOfMemory};

    ghost from_gives = { λ _ e. e ≡ OutOfMemory };

    fn from(_e: NoMemory) -> NameEnd {
        NameEnd::NoMemory
    }
}
