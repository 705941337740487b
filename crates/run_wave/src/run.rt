//! A run.

/// A cell that some slots in a row have.
#[derive(Clone, Copy, PartialEq, Eq, Debug)]
pub struct Run<T> {
    /// What each of the slots has.
    pub cell: T,
    /// How many slots there are.
    pub width: u16,
}
