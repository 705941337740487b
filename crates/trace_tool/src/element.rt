//! What may break in a run.

/// What asks something of a run from a tick on.
#[derive(Clone, Copy, PartialEq, Eq, Debug)]
pub enum Element {
    /// A checker, or an element with a marked pin, by its number.
    Instance(u32),
    /// A net that something drives and whose name asserts something, by its place in name order.
    Net(u32),
}
