//! The bits of signals.

use crate::assertion::Assertion;
use crate::text::Text;
use scald_base::Delay;

/// One bit of a signal. The wide fields come first, so that no room is left between.
#[derive(Drop, Debug)]
pub struct Net {
    /// The labels of the scopes from the drawing down, each with a slash after it, and the base
    /// name. A global's name is its base, which begins with a slash.
    pub name: Text,
    /// What its name asserts of it.
    pub spec: Assertion,
    /// The instance whose output it is.
    pub driver: Option<u32>,
    /// The bounds of the delay of its wires, in ticks.
    pub wire: Delay,
    /// Its number in the vector.
    pub bit: u16,
}
