//! A name that a drawing declares.

use drawing_grammar::Kind;

/// A name as a kind of thing in a scope. Each macro is a scope, and after all macros the drawing
/// itself; constants and macros are all of scope 0.
#[derive(Clone, Copy, PartialEq, Eq, Hash)]
pub struct Declared<'a> {
    pub scope: usize,
    pub kind: Kind,
    pub name: &'a [u8],
}
