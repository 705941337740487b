//! The tokens of a text, from its first byte to its end.

ghost use Rattle.std.specs.Prelude.{◌≡◌, ◌<◌, ◌+◌, ◌-◌, ◌^◌, [], ◌∷◌, ◌++◌, List, length, IsTrue, IfOk, OnOk, IfErr, IfSome, IfNone};
ghost use Rattle.scald_base.specs.declared.refusal.Stop.TheVariants.{NoMemory as OutOfMemory};
ghost use Rattle.scald_base.specs.declared.refusal.Refusal.{Refusal};
ghost use Rattle.scald_lex.specs.declared.token.Token.{Token};
ghost use Rattle.scald_lex.specs.declared.token.TokenKind.TheVariants.{End};
ghost use Rattle.scald_lex.specs.Packed.{HasCode};
ghost use Rattle.scald_lex.specs.Place.{first_place, next_place, place_behind, IsPlacedStop};
ghost use Rattle.scald_lex.specs.Tokens.{IsAllowed, IsBadByte, AreTokens, IsRefused};
ghost use Rattle.scald_lex.specs.Scan.{IsRead, IsStop, GivesList, GivesRefusal};

use crate::bytes;
use crate::packed::{PackedList, PackedToken, unpacked};
use crate::piece::{Piece, front};
use crate::token::{Token, TokenKind, TokenList};
use scald_base::{NoMemory, Place, RefusalKind, Stop};
use std::alloc::Global;

/// The tokens of the text as `packed_tokens` gives them, each with its kind. It takes memory for
/// both lists.
pub fn tokens(alloc: Global, text: &[u8]) -> Result<TokenList, Stop>
    requires { length text.now < 2 ^ 32 - 1 }
    ensures found { IfOk result (λ list. AreTokens text.now list) }
    ensures refused { IfErr result (λ stop. IsStop text.now stop) }
    ensures placed { IfErr result (λ stop. IsPlacedStop text.now stop) }
    ensures only_list { (list : List Token) → AreTokens text.now list → GivesList list result }
    ensures only_refusal { (r : Refusal) → IsRefused text.now r → GivesRefusal r result }
{
    let packed = match packed_tokens(alloc, text) {
        Ok(packed) => packed,
        Err(stop) => return Err(stop),
    };
    match unpacked(alloc, packed.as_slice()) {
        Ok(list) => Ok(list),
        Err(NoMemory) => Err(Stop::NoMemory),
    }
}

/// The tokens of the text, the last of which is its end. Refused are, with their places, `BadByte`
/// before any token is looked at, and `BadToken` if no token begins, or one that is too long,
/// too large or not closed. A refusal has the place of a byte of the text. It takes memory for the
/// list alone.
pub fn packed_tokens(alloc: Global, text: &[u8]) -> Result<PackedList, Stop>
    requires { length text.now < 2 ^ 32 - 1 }
    ensures found { IfOk result (λ list. AreTokens text.now list) }
    ensures refused { IfErr result (λ stop. IsStop text.now stop) }
    ensures placed { IfErr result (λ stop. IsPlacedStop text.now stop) }
    ensures only_list { (list : List Token) → AreTokens text.now list → GivesList list result }
    ensures only_refusal { (r : Refusal) → IsRefused text.now r → GivesRefusal r result }
{
    read(alloc, text)
}

/// The tokens, or the refusal. That there are no others is a law of the text.
fn read(alloc: Global, text: &[u8]) -> Result<PackedList, Stop>
    requires { length text.now < 2 ^ 32 - 1 }
    ensures found { IfOk result (λ list. AreTokens text.now list) }
    ensures refused { IfErr result (λ stop. IsStop text.now stop) }
{
    if let Some(at) = bad_byte(text) {
        let place = place_of(&text[..at]);
        return Err(Stop::refused(RefusalKind::BadByte, place));
    }
    let mut scan = Scan::new(alloc);
    while scan.at < text.len() {
        scan.step(text)?;
    }
    scan.finish()
}

/// Whether a text holds no byte that none may hold. All bytes are looked at, so that the processor
/// takes several at once.
fn are_allowed(text: &[u8]) -> bool
    ensures { IsTrue result → IsAllowed text.now }
{
    let mut all = true;
    'bytes: for byte in text {
        all = all & bytes::is_allowed(*byte);
    }
    all
}

/// The first byte that no text may hold.
fn bad_byte(text: &[u8]) -> Option<usize>
    ensures found { IfSome result (λ at. IsBadByte text.now at) }
    ensures none { IfNone result (IsAllowed text.now) }
{
    if are_allowed(text) {
        return None;
    }
    for (at, byte) in text.iter().enumerate() {
        if !bytes::is_allowed(*byte) {
            return Some(at);
        }
    }
    None
}

/// The place after the first bytes of a text.
fn place_of(front: &[u8]) -> Place
    requires { length front.now < 2 ^ 32 - 1 }
    ensures { result ≡ place_behind first_place front.now }
{
    let mut place = Place { line: 1, col: 1 };
    for byte in front {
        place = behind_byte(place, *byte);
    }
    place
}

/// The place after a byte.
fn behind_byte(place: Place, byte: u8) -> Place
    requires line { place.line + 1 < 2 ^ 32 }
    requires col { place.col + 1 < 2 ^ 32 }
    ensures { result ≡ next_place place byte }
{
    if byte == b'\n' {
        Place {
            line: place.line + 1,
            col: 1,
        }
    } else {
        Place {
            line: place.line,
            col: place.col + 1,
        }
    }
}

/// How far a text is read, and the tokens up to there.
#[derive(Drop)]
struct Scan {
    at: usize,
    place: Place,
    list: PackedList,
}

impl Scan {
    fn new(alloc: Global) -> Scan
        ensures { result ≡ record { at = 0; place = first_place; list = [] } }
    {
        Scan {
            at: 0,
            place: Place { line: 1, col: 1 },
            list: PackedList::new(alloc),
        }
    }

    /// Reads the piece that stands here.
    fn step(&mut self, text: &[u8]) -> Result<(), Stop>
        requires read { IsRead text.now self.old }
        requires more { self.old.at < length text.now }
        requires allowed { IsAllowed text.now }
        requires short { length text.now < 2 ^ 32 - 1 }
        ensures read { OnOk result (IsRead text.now self.new) }
        ensures further { OnOk result (self.old.at < self.new.at) }
        ensures refused { IfErr result (λ stop. IsStop text.now stop) }
    {
        let Some(piece) = front(&text[self.at..]) else {
            return Err(Stop::refused(RefusalKind::BadToken, self.place));
        };
        match piece {
            Piece::Space => {
                self.move_on(1);
                Ok(())
            }
            Piece::LineEnd => {
                self.end_line();
                Ok(())
            }
            Piece::Comment(count) => {
                self.move_on(count);
                Ok(())
            }
            Piece::Lexeme(kind, count) => {
                self.push(kind, count)?;
                self.move_on(count);
                Ok(())
            }
        }
    }

    /// Goes so many bytes further on the line.
    #[inline(always)]
    fn move_on(&mut self, count: usize)
        requires at { self.old.at + count < 2 ^ 32 }
        requires col { self.old.place.col + count < 2 ^ 32 }
        ensures { self.new ≡ record {
          at = self.old.at + count;
          place =
              record { line = self.old.place.line; col = self.old.place.col + count };
          list = self.old.list;
        } }
    {
        self.at += count;
        self.place.col += count as u32;
    }

    /// Goes past the end of the line.
    #[inline(always)]
    fn end_line(&mut self)
        requires at { self.old.at + 1 < 2 ^ 32 }
        requires line { self.old.place.line + 1 < 2 ^ 32 }
        ensures { self.new ≡ record {
          at = self.old.at + 1;
          place = record { line = self.old.place.line + 1; col = 1 };
          list = self.old.list;
        } }
    {
        self.at += 1;
        self.place = Place {
            line: self.place.line + 1,
            col: 1,
        };
    }

    /// Lists the token of this kind that stands here.
    #[inline(always)]
    fn push(&mut self, kind: TokenKind, count: usize) -> Result<(), NoMemory>
        requires fits { self.old.at + count < 2 ^ 32 }
        requires coded { HasCode kind }
        ensures { OnOk result (self.new ≡ record {
          at = self.old.at;
          place = self.old.place;
          list = self.old.list ++ record {
            kind = kind;
            place = self.old.place;
            start = self.old.at;
            end = self.old.at + count;
          } ∷ [];
        }) }
    {
        self.list.push(PackedToken::new(Token {
            kind,
            place: self.place,
            start: self.at as u32,
            end: (self.at + count) as u32,
        }))
    }

    /// The whole list, with the end.
    fn finish(mut self) -> Result<PackedList, Stop>
        requires { self.at < 2 ^ 32 }
        ensures found { IfOk result (λ list.
            list ≡ self.list ++ record {
              kind = End;
              place = self.place;
              start = self.at;
              end = self.at;
            } ∷ []) }
        ensures refused { IfErr result (λ stop. stop ≡ OutOfMemory) }
    {
        self.push(TokenKind::End, 0)?;
        Ok(self.list)
    }
}
