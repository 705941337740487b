//! The piece that the rest of a text begins with.

ghost use Rattle.std.specs.Prelude.{◌≡◌, ◌≤◌, ◌<◌, ◌^◌, ◌-◌, min, length};
ghost use Rattle.std.specs.List.{prefix_len};
ghost use Rattle.scald_base.specs.Word.{is_digit, is_word_byte};
ghost use Rattle.scald_lex.specs.Bytes.{is_name_byte, is_comment_byte, value_of};
ghost use Rattle.scald_lex.specs.Piece.{begins_with, word_at, number_at, name_behind, dash_before, piece_at};

use crate::bytes;
use crate::token::TokenKind;

/// The greatest number that a token may stand for.
pub const GREATEST_NUMBER: u64 = 9223372036854775807;

/// The most bytes of a word.
const LONGEST_WORD: usize = 64;

/// A piece of a text, with how many bytes it takes if that is not one.
#[derive(Clone, Copy, PartialEq, Eq, Debug)]
pub enum Piece {
    /// A byte between tokens.
    Space,
    /// The end of a line.
    LineEnd,
    /// Two dashes and the rest of the line.
    Comment(usize),
    /// A token.
    Lexeme(TokenKind, usize),
}

/// The piece in front, or `None` exactly if none begins there. The most frequent are looked for
/// first.
#[tactic(auto, unfolding(crate::specs::Piece::piece_at))]
pub fn front(rest: &[u8]) -> Option<Piece>
    ensures { result ≡ piece_at rest.now }
{
    let [byte, behind @ ..] = rest else {
        return None;
    };
    let byte = *byte;
    if bytes::is_letter(byte) {
        word(rest)
    } else if byte != b'-' && bytes::is_symbol(byte) {
        Some(Piece::Lexeme(TokenKind::Symbol(byte), 1))
    } else if bytes::is_space(byte) {
        Some(Piece::Space)
    } else if byte == b'\n' {
        Some(Piece::LineEnd)
    } else if bytes::is_digit(byte) {
        number(rest)
    } else if byte == b'"' {
        name(behind)
    } else if byte == b'-' {
        Some(dash(behind))
    } else {
        None
    }
}

#[tactic(auto, using(crate::proofs::Fronts::fronts))]
fn word_bytes(rest: &[u8]) -> usize
    ensures count { result ≡ prefix_len is_word_byte rest.now }
    ensures within { result ≤ length rest.now }
{
    rest.iter()
        .take_while(|byte| bytes::is_word_byte(**byte))
        .count()
}

#[tactic(auto, using(crate::proofs::Fronts::fronts))]
fn digits(rest: &[u8]) -> usize
    ensures count { result ≡ prefix_len is_digit rest.now }
    ensures within { result ≤ length rest.now }
{
    rest.iter()
        .take_while(|byte| bytes::is_digit(**byte))
        .count()
}

#[tactic(auto, using(crate::proofs::Fronts::fronts))]
fn name_bytes(rest: &[u8]) -> usize
    ensures count { result ≡ prefix_len is_name_byte rest.now }
    ensures within { result ≤ length rest.now }
{
    rest.iter()
        .take_while(|byte| bytes::is_name_byte(**byte))
        .count()
}

#[tactic(auto, using(crate::proofs::Fronts::fronts))]
fn comment_bytes(rest: &[u8]) -> usize
    ensures count { result ≡ prefix_len is_comment_byte rest.now }
    ensures within { result ≤ length rest.now }
{
    rest.iter()
        .take_while(|byte| bytes::is_comment_byte(**byte))
        .count()
}

/// The value of digits, or the greatest number of 64 bits if it is greater.
fn value(digits: &[u8]) -> u64
    ensures { result ≡ min (value_of digits.now) (2 ^ 64 - 1) }
{
    let mut value: u64 = 0;
    for digit in digits {
        value = value
            .saturating_mul(10)
            .saturating_add(u64::from(digit.saturating_sub(b'0')));
    }
    value
}

fn begins_with(byte: u8, rest: &[u8]) -> bool
    ensures { result ≡ begins_with byte rest.now }
{
    match rest {
        [first, ..] => *first == byte,
        [] => false,
    }
}

#[tactic(auto, unfolding(crate::specs::Piece::word_at))]
fn word(rest: &[u8]) -> Option<Piece>
    ensures { result ≡ word_at rest.now }
{
    let count = word_bytes(rest);
    if count > LONGEST_WORD {
        return None;
    }
    Some(Piece::Lexeme(TokenKind::Word, count))
}

#[tactic(auto, unfolding(crate::specs::Piece::number_at))]
fn number(rest: &[u8]) -> Option<Piece>
    ensures { result ≡ number_at rest.now }
{
    let count = digits(rest);
    let value = value(&rest[..count]);
    if value > GREATEST_NUMBER {
        return None;
    }
    Some(Piece::Lexeme(TokenKind::Number(value as i64), count))
}

/// The name whose first quote stands before the rest.
#[tactic(auto, unfolding(crate::specs::Piece::name_behind))]
fn name(rest: &[u8]) -> Option<Piece>
    ensures { result ≡ name_behind rest.now }
{
    let count = name_bytes(rest);
    if !begins_with(b'"', &rest[count..]) {
        return None;
    }
    Some(Piece::Lexeme(TokenKind::Name, count + 2))
}

/// The piece whose dash stands before the rest.
#[tactic(auto, unfolding(crate::specs::Piece::dash_before))]
fn dash(rest: &[u8]) -> Piece
    ensures { result ≡ dash_before rest.now }
{
    if begins_with(b'-', rest) {
        Piece::Comment(1 + comment_bytes(rest))
    } else if begins_with(b'>', rest) {
        Piece::Lexeme(TokenKind::Arrow, 2)
    } else {
        Piece::Lexeme(TokenKind::Symbol(b'-'), 1)
    }
}
