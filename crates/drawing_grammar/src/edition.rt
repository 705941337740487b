//! The versions of the language.

/// A version of the language, by which a text is read.
#[derive(Clone, Copy, PartialEq, Eq, Debug)]
pub enum Edition {
    /// Version 1, by which a text of any other number is read too.
    First,
    /// Version 2, which has constants and FOR.
    Second,
}
