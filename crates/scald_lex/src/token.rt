//! What a token is.

use scald_base::{List, Place};

/// What kind of token it is. A word's or a name's text is that of its slice.
#[derive(Clone, Copy, PartialEq, Eq, Debug)]
pub enum TokenKind {
    /// A letter, then letters, digits and underscores: at most 64 bytes.
    Word,
    /// The value of one or more digits.
    Number(i64),
    /// Printable bytes in quotes, which are of the token.
    Name,
    /// `->`
    Arrow,
    /// One byte that stands for itself.
    Symbol(u8),
    /// The end of the text.
    End,
}

/// A token: its kind, the place of its first byte, and the bytes of the text that it is, from
/// `start` up to `end`.
#[derive(Clone, Copy, PartialEq, Eq, Debug)]
pub struct Token {
    pub kind: TokenKind,
    pub place: Place,
    pub start: u32,
    pub end: u32,
}

/// The tokens of a text, the last of which is its end.
pub type TokenList = List<Token>;
