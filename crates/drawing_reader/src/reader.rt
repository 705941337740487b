//! Reads a whole text.

ghost use Rattle.std.specs.Prelude.{◌≡◌, ◌<◌, List, ◌∷◌, Option, Some, None, IfOk, IfErr};
ghost use Rattle.drawing_grammar.specs.Lexeme.{kind_number, lexemes};
ghost use Rattle.drawing_grammar.specs.Edition.{edition_by, edition_of};
ghost use Rattle.drawing_grammar.specs.declared.edition.Edition.{Edition as Version};
ghost use Rattle.drawing_grammar.specs.Grammar.{Need, mark, part, Text, WireBounds, PrecisionSkew, ClockSkew};
ghost use Rattle.drawing_grammar.specs.declared.terminal.Terminal.TheVariants.{EndOfText};
ghost use Rattle.drawing_grammar.specs.Machine.{Gives};
ghost use Rattle.drawing_reader.specs.Reader.{tokens_at, ahead, PairAt, ClockAt, DrawingAt, EndAt};
ghost use Rattle.scald_base.specs.declared.refusal.Refusal.{Refusal};
ghost use Rattle.scald_lex.specs.Tokens.{AreTokens};
ghost use Rattle.drawing_grammar.specs.Sketch.{Sketch as Sketched};
ghost use Rattle.drawing_grammar.specs.Draws.{Reads, IsRefused};
ghost use Rattle.drawing_reader.specs.Sketched.{sketch_of, behind_header, headed, GivesSketch, GivesRefusal, Answers};
ghost use Rattle.drawing_grammar.specs.Draws.{IsStop};

use crate::constants::Constants;
use crate::cursor::Cursor;
use crate::rest::Rest;
use drawing_grammar::{Edition, Head, Keyword, NumberPair, Terminal, WrittenHeader};
use drawing_tree::{CaseStmts, MacroDefs, Stmts};
use scald_base::{Bytes, List, Place, RefusalKind, Stop};
use scald_lex::{PackedList, TokenKind};
use std::alloc::Global;

/// A drawing as its text is written, before its header and its names are judged.
#[derive(Drop)]
pub struct Sketch {
    pub header: WrittenHeader,
    pub constants: Constants,
    pub macros: MacroDefs,
    /// Where the macros' heads name what they declare.
    pub heads: List<Head>,
    pub name: Bytes,
    pub body: Stmts,
    pub cases: CaseStmts,
}

fn pair_of(first: TokenKind, second: TokenKind, place: Place) -> NumberPair
    ensures { result ≡ record {
      first = kind_number first;
      second = kind_number second;
      place = place;
    } }
{
    NumberPair {
        first: value_of(first),
        second: value_of(second),
        place,
    }
}

fn value_of(kind: TokenKind) -> i64
    ensures { result ≡ kind_number kind }
{
    match kind {
        TokenKind::Number(value) => value,
        _ => 0,
    }
}

/// The version by which a text with this header is read.
fn edition_by(header: &WrittenHeader) -> Edition
    ensures { result ≡ edition_by header.now.version }
{
    if header.version == 2 {
        return Edition::Second;
    }
    Edition::First
}

fn written(
    version: TokenKind,
    place: Place,
    clock: NumberPair,
    wire: Option<NumberPair>,
    pskew: Option<NumberPair>,
    cskew: Option<NumberPair>,
) -> WrittenHeader
    ensures { result ≡ record {
      version = kind_number version;
      place = place;
      clock = clock;
      wire = wire;
      pskew = pskew;
      cskew = cskew;
    } }
{
    WrittenHeader {
        version: value_of(version),
        place,
        clock,
        wire,
        pskew,
        cskew,
    }
}

impl<'a> Cursor<'a> {
    /// Two numbers, in a statement that begins at this place.
    fn pair(&mut self, place: Place) -> Result<NumberPair, Stop>
        ensures reads { PairAt result place self.old self.new }
    {
        let first = self.item(Terminal::Number)?;
        self.mark(Terminal::Colon)?;
        let second = self.item(Terminal::Number)?;
        self.mark(Terminal::Semicolon)?;
        Ok(pair_of(first.kind, second.kind, place))
    }

    fn wire_bounds(&mut self) -> Result<Option<NumberPair>, Stop>
        ensures reads { (rest : List Need) →
            Gives result (λ x v. (x, v)) (ahead self.old (part WireBounds 0 ∷ rest))
            (ahead self.new rest) }
    {
        if !self.starts(Terminal::Wire) {
            return Ok(None);
        }
        let token = self.bump();
        let pair = self.pair(token.place)?;
        Ok(Some(pair))
    }

    fn precision_skew(&mut self) -> Result<Option<NumberPair>, Stop>
        ensures reads { (rest : List Need) →
            Gives result (λ x v. (x, v)) (ahead self.old (part PrecisionSkew 0 ∷ rest))
            (ahead self.new rest) }
    {
        if !self.starts(Terminal::Pskew) {
            return Ok(None);
        }
        let token = self.bump();
        let pair = self.pair(token.place)?;
        Ok(Some(pair))
    }

    fn clock_skew(&mut self) -> Result<Option<NumberPair>, Stop>
        ensures reads { (rest : List Need) →
            Gives result (λ x v. (x, v)) (ahead self.old (part ClockSkew 0 ∷ rest))
            (ahead self.new rest) }
    {
        if !self.starts(Terminal::Cskew) {
            return Ok(None);
        }
        let token = self.bump();
        let pair = self.pair(token.place)?;
        Ok(Some(pair))
    }

    /// The end of the text.
    fn finish(&mut self) -> Result<(), Stop>
        ensures reads { EndAt result self.old }
    {
        if self.is_done() {
            return Err(self.refused(RefusalKind::Syntax));
        }
        if !self.starts(Terminal::EndOfText) {
            return Err(self.refused(RefusalKind::Syntax));
        }
        self.advance();
        let done = self.is_done();
        if !done {
            return Err(self.refused(RefusalKind::Syntax));
        }
        Ok(())
    }

    /// The units and ticks of the clock.
    fn clock(&mut self) -> Result<NumberPair, Stop>
        ensures reads { ClockAt result self.old self.new }
    {
        let clock = self.item(Terminal::Clock)?;
        let units = self.item(Terminal::Number)?;
        self.keyword(Keyword::By)?;
        let ticks = self.item(Terminal::Number)?;
        self.mark(Terminal::Semicolon)?;
        Ok(pair_of(units.kind, ticks.kind, clock.place))
    }

    /// The header. Its version is the one that the tokens name.
    fn header(&mut self) -> Result<WrittenHeader, Stop>
        ensures reads { (e : Version) (rest : List Need) → Gives result (λ x v.
            headed e rest x v) (ahead self.old (part (Text e) 0 ∷ rest))
            (ahead self.new (behind_header e rest)) }
        ensures version { IfOk result (λ x.
            edition_by x.version ≡ edition_of (tokens_at self.old)) }
    {
        if !self.starts(Terminal::Scald) {
            return Err(self.refused(RefusalKind::Syntax));
        }
        let token = self.bump();
        let version = self.item(Terminal::Number)?;
        self.mark(Terminal::Semicolon)?;
        let clock = self.clock()?;
        let wire = self.wire_bounds()?;
        let pskew = self.precision_skew()?;
        let cskew = self.clock_skew()?;
        Ok(written(version.kind, token.place, clock, wire, pskew, cskew))
    }

    /// The name of the drawing and its statements.
    fn drawing(&mut self, alloc: Global, edition: Edition) -> Result<(Bytes, Stmts), Stop>
        ensures reads { DrawingAt edition result self.old self.new }
    {
        self.mark(Terminal::Drawing)?;
        let (_, name) = self.next_word(alloc)?;
        let body = self.body(alloc, edition)?;
        Ok((name, body))
    }

    /// All but the end of the text.
    fn sketch(&mut self, alloc: Global) -> Result<Sketch, Stop>
        ensures reads { (rest : List Need) → Gives result (λ x v.
            (sketch_of x, v)) (ahead self.old
            (part (Text (edition_of (tokens_at self.old))) 0 ∷ rest))
            (ahead self.new (mark EndOfText ∷ rest)) }
    {
        let header = self.header()?;
        let edition = edition_by(&header);
        let constants = self.constants(alloc, edition)?;
        let (macros, heads) = self.definitions(alloc, edition)?;
        let (name, body) = self.drawing(alloc, edition)?;
        let cases = self.cases(alloc)?;
        Ok(Sketch {
            header,
            constants,
            macros,
            heads,
            name,
            body,
            cases,
        })
    }

    fn text(&mut self, alloc: Global) -> Result<Sketch, Stop>
        requires { self.old.operators ≡ 0 }
        ensures reads { Answers result (tokens_at self.old) }
    {
        let sketch = self.sketch(alloc)?;
        self.finish()?;
        Ok(sketch)
    }
}

/// What the tokens of a text stand for, or the first token that is refused: `Syntax` if no text
/// goes on with it, `TooDeep` if it is beyond a limit. The tokens go as they are read.
pub fn read_sketch(alloc: Global, text: &[u8], tokens: PackedList) -> Result<Sketch, Stop>
    requires { AreTokens text.now tokens }
    ensures found { IfOk result (λ found. Reads (lexemes text.now tokens) (sketch_of found)) }
    ensures refused { IfErr result (λ stop. IsStop (lexemes text.now tokens) stop) }
    ensures only_sketch { (s : Sketched) → Reads (lexemes text.now tokens) s →
        GivesSketch s result }
    ensures only_refusal { (r : Refusal) → IsRefused (lexemes text.now tokens) r →
        GivesRefusal r result }
{
    let mut cursor = Cursor {
        text,
        rest: Rest::of(tokens),
        operators: 0,
    };
    let sketch = cursor.text(alloc)?;
    Ok(sketch)
}
