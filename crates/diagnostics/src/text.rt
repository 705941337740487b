//! The bytes and the tokens of a text that is refused.

use crate::lines::Part;
use scald_base::Place;
use scald_lex::{Token, TokenKind, TokenList, tokens};
use std::alloc::Global;

/// A text with its tokens. A token is named by its number in the list, from 0; past the end there
/// are tokens of no bytes.
#[derive(Clone, Copy)]
pub struct Text<'a> {
    pub bytes: &'a [u8],
    pub tokens: &'a [Token],
}

/// What stands past the last token.
const END: Token = Token {
    kind: TokenKind::End,
    place: Place { line: 0, col: 0 },
    start: 0,
    end: 0,
};

/// The tokens of a text, and none if it has no tokens, is too long or memory runs out.
pub fn tokens_of(alloc: Global, text: &[u8]) -> TokenList {
    if u32::MAX as usize <= text.len() {
        return TokenList::new(alloc);
    }
    match tokens(alloc, text) {
        Ok(list) => list,
        Err(_) => TokenList::new(alloc),
    }
}

/// The bytes from one place up to another.
pub fn part(bytes: &[u8], from: usize, to: usize) -> &[u8] {
    let to = to.min(bytes.len());
    let from = from.min(to);
    &bytes[from..to]
}

/// The bytes from a place on.
pub fn after(bytes: &[u8], from: usize) -> &[u8] {
    part(bytes, from, bytes.len())
}

/// The line of this number, from 1, without its end.
pub fn line_of(bytes: &[u8], line: u32) -> &[u8] {
    let count = (line as usize).saturating_sub(1);
    match bytes.split(|byte| *byte == b'\n').nth(count) {
        Some(line) => line,
        None => b"",
    }
}

/// How many bytes stand before the space and the point of an assertion.
pub fn base_len(name: &[u8]) -> usize {
    let end = name.windows(2).position(|two| two == b" .".as_slice());
    end.unwrap_or(name.len())
}

/// The base of a name in quotes: what stands before its assertion.
pub fn base_of(quoted: &[u8]) -> &[u8] {
    let name = unquoted(quoted);
    part(name, 0, base_len(name))
}

/// What stands between the quotes of a name.
pub fn unquoted(quoted: &[u8]) -> &[u8] {
    part(quoted, 1, quoted.len().saturating_sub(1))
}

/// How a token of a text is written.
fn word_of(bytes: &[u8], token: Token) -> &[u8] {
    part(bytes, token.start as usize, token.end as usize)
}

/// Where a word stands first in a text.
pub fn place_of_word(alloc: Global, bytes: &[u8], word: &[u8]) -> Option<Place> {
    let list = tokens_of(alloc, bytes);
    for token in list.as_slice() {
        if word_of(bytes, *token) == word {
            return Some(token.place);
        }
    }
    None
}

/// Where a name of this base, with an assertion or without one, stands first in a text.
pub fn place_of_name(alloc: Global, bytes: &[u8], base: &[u8]) -> Option<Place> {
    let list = tokens_of(alloc, bytes);
    for token in list.as_slice() {
        let word = word_of(bytes, *token);
        if word.starts_with(b"\"") && base_of(word) == base {
            return Some(token.place);
        }
    }
    None
}

impl<'a> Text<'a> {
    /// The token of this number.
    pub fn token(&self, i: usize) -> Token {
        self.tokens.get(i).copied().unwrap_or(END)
    }

    /// The place where it stands.
    pub fn place(&self, i: usize) -> Place {
        self.token(i).place
    }

    /// Its place, as a part of a line.
    pub fn at(&self, i: usize) -> Part<'a> {
        Part::At(self.token(i).place)
    }

    /// How it is written.
    pub fn word(&self, i: usize) -> &'a [u8] {
        word_of(self.bytes, self.token(i))
    }

    /// How it is written, as a part of a line without quotes.
    pub fn shown(&self, i: usize) -> Part<'a> {
        Part::Shown(self.word(i))
    }

    /// How it is written, as a part of a line in quotes.
    pub fn quoted(&self, i: usize) -> Part<'a> {
        Part::Quoted(self.word(i))
    }

    /// Whether it is written so.
    pub fn is(&self, i: usize, word: &[u8]) -> bool {
        word_of(self.bytes, self.token(i)) == word
    }

    /// Whether it is written in one of these ways.
    pub fn is_any(&self, i: usize, words: &[&[u8]]) -> bool {
        words.contains(&self.word(i))
    }

    /// The symbol that it is, and 0 if it is none of one byte.
    pub fn symbol(&self, i: usize) -> u8 {
        match self.token(i).kind {
            TokenKind::Symbol(byte) => byte,
            _ => 0,
        }
    }

    /// Whether it is an arrow.
    pub fn is_arrow(&self, i: usize) -> bool {
        matches!(self.token(i).kind, TokenKind::Arrow)
    }

    /// Whether it is a word.
    pub fn is_word(&self, i: usize) -> bool {
        matches!(self.token(i).kind, TokenKind::Word)
    }

    /// Whether it is a name in quotes.
    pub fn is_name(&self, i: usize) -> bool {
        matches!(self.token(i).kind, TokenKind::Name)
    }

    /// The number that it is.
    pub fn number(&self, i: usize) -> Option<u64> {
        match self.token(i).kind {
            TokenKind::Number(number) if number >= 0 => Some(number as u64),
            _ => None,
        }
    }

    /// The base of a name: what stands before its assertion.
    pub fn base(&self, i: usize) -> &'a [u8] {
        base_of(self.word(i))
    }
}
