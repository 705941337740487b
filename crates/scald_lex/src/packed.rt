//! Tokens in less room: the kind of one is a number of 64 bits.

ghost use Rattle.std.specs.Prelude.{◌≡◌, ◌++◌, ◌∷◌, [], IfOk, OnOk, OnErr};
ghost use Rattle.scald_lex.specs.Packed.{HasCode, kind_by};

use crate::piece::GREATEST_NUMBER;
use crate::token::{Token, TokenKind, TokenList};
use scald_base::{NoMemory, Place};
use std::alloc::Global;
use std::marker::Model;

/// What the kinds that are no number are coded as: all above the greatest number of a token. That
/// of a symbol is the last of these and its byte.
const WORD: u64 = 9223372036854775808;

const NAME: u64 = 9223372036854775809;

const ARROW: u64 = 9223372036854775810;

const END: u64 = 9223372036854775811;

const SYMBOL: u64 = 9223372036854776064;

/// A token in 24 bytes. A large drawing is read from as many of them as it has tokens, and they are
/// the most of what reading it takes. Contracts see it as the token.
#[derive(Drop)]
pub struct PackedToken {
    code: u64,
    place: Place,
    start: u32,
    end: u32,
}

impl Model for PackedToken {
    ghost use Rattle.scald_lex.specs.declared.token.Token.{Token};
    ghost use Rattle.scald_lex.specs.Packed.{kind_by};

    ghost Value = { Token };

    ghost view = { λ t. record {
      kind = kind_by t.code;
      place = t.place;
      start = t.start;
      end = t.end;
    } };
}

/// The tokens of a text, the last of which is its end. Contracts see the list of them.
#[derive(Drop)]
pub struct PackedList {
    items: Vec<PackedToken>,
}

impl Model for PackedList {
    ghost use Rattle.std.specs.Prelude.{List};
    ghost use Rattle.scald_lex.specs.declared.token.Token.{Token as Lexed};

    ghost Value = { List Lexed };

    ghost view = { λ l. l.items.items };
}

impl PackedList {
    /// No tokens. It needs no allocation yet.
    pub(crate) fn new(alloc: Global) -> PackedList
        ensures { result ≡ [] }
    {
        PackedList {
            items: Vec::new(alloc),
        }
    }

    /// The tokens as a slice.
    pub fn as_slice(&self) -> &[PackedToken]
        ensures { result.now ≡ self.now }
    {
        self.items.as_slice()
    }

    /// The tokens as a vector, which can give its room back.
    pub fn into_vec(self) -> Vec<PackedToken>
        ensures { result.items ≡ self }
    {
        let PackedList { items } = self;
        items
    }

    /// Appends a token. If memory runs out the tokens are as before.
    #[inline(always)]
    pub(crate) fn push(&mut self, token: PackedToken) -> Result<(), NoMemory>
        ensures ok { OnOk result (self.new ≡ self.old ++ token ∷ []) }
        ensures err { OnErr result (self.new ≡ self.old) }
    {
        self.items.push(token)?;
        Ok(())
    }
}

/// The number of a kind.
#[tactic(auto, unfolding(crate::specs::Packed::kind_by))]
#[inline(always)]
fn code_of(kind: TokenKind) -> u64
    requires { HasCode kind }
    ensures { kind_by result ≡ kind }
{
    match kind {
        TokenKind::Word => WORD,
        TokenKind::Number(number) => number as u64,
        TokenKind::Name => NAME,
        TokenKind::Arrow => ARROW,
        TokenKind::Symbol(byte) => SYMBOL + u64::from(byte),
        TokenKind::End => END,
    }
}

/// The kind that has this number.
#[tactic(auto, unfolding(crate::specs::Packed::kind_by))]
#[inline(always)]
fn kind_by(code: u64) -> TokenKind
    ensures { result ≡ kind_by code }
{
    if code <= GREATEST_NUMBER {
        TokenKind::Number(code as i64)
    } else if code == WORD {
        TokenKind::Word
    } else if code == NAME {
        TokenKind::Name
    } else if code == ARROW {
        TokenKind::Arrow
    } else if code == END {
        TokenKind::End
    } else {
        TokenKind::Symbol((code % 256) as u8)
    }
}

impl PackedToken {
    /// This token, whose number, if it is one, is not negative.
    #[inline(always)]
    pub(crate) fn new(token: Token) -> PackedToken
        requires { HasCode token.kind }
        ensures { result ≡ token }
    {
        PackedToken {
            code: code_of(token.kind),
            place: token.place,
            start: token.start,
            end: token.end,
        }
    }

    /// The token.
    #[inline(always)]
    pub fn token(&self) -> Token
        ensures { result ≡ self.now }
    {
        Token {
            kind: kind_by(self.code),
            place: self.place,
            start: self.start,
            end: self.end,
        }
    }
}

/// The same tokens, each with its kind.
pub fn unpacked(alloc: Global, packed: &[PackedToken]) -> Result<TokenList, NoMemory>
    ensures { IfOk result (λ list. list ≡ packed.now) }
{
    let mut list = TokenList::with_room(alloc, packed.len())?;
    'tokens: for token in packed {
        list.push(token.token())?;
    }
    Ok(list)
}
