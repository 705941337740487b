//! The bits of elements and checkers.

use crate::limits::Limits;
use crate::short_list::ShortList;
use crate::split::Split;
use crate::text::Text;
use element_kinds::Kind;
use scald_base::{Delay, Place};
use vector_names::Target;

/// One pin: what it is on, whether it shows the complement, and whether it is marked `!H`.
#[derive(Clone, Copy, PartialEq, Eq, Debug)]
pub struct Pin {
    pub target: Target,
    pub inverted: bool,
    pub hold: bool,
}

/// The pins of an instance, in the order of its kind. Most have one or two.
pub type Pins = ShortList<Pin>;

/// One bit of an element or of a checker. The wide fields come first, so that no room is left
/// between.
#[derive(Drop, PartialEq, Eq, Debug)]
pub struct Instance {
    /// The labels of the scopes from the drawing down, each with a slash after it, and its own
    /// label.
    pub path: Text,
    pub pins: Pins,
    /// What its output drives. A checker has no output.
    pub out: Option<Target>,
    /// Where its statement stands.
    pub place: Place,
    /// Its rise and its fall delay, if it has two. `delay` then goes from the least to the
    /// greatest of both.
    pub split: Option<Split>,
    /// The bounds of its delay, in ticks. A checker has none, whatever stands here.
    pub delay: Delay,
    /// What it demands of its pins. An element has none.
    pub limits: Limits,
    /// Which bit of the width it is, from 0.
    pub bit: u16,
    pub kind: Kind,
    /// The output is complemented.
    pub out_inverted: bool,
}
