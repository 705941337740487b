//! The tokens that are still to be read.

ghost use Rattle.std.specs.Prelude.{◌≡◌, ◌≢◌, ◌≤◌, ◌<◌, List, [], ◌∷◌, length, OnOk, IfOk, IsTrue, IsFalse, Some, None, slice_range};
ghost use Rattle.scald_lex.specs.declared.token.TokenKind.TheVariants.{End};
ghost use Rattle.drawing_grammar.specs.declared.terminal.Terminal.TheVariants.{EndOfText};
ghost use Rattle.drawing_grammar.specs.Lexeme.{lexeme_of, lexemes, terminal};
ghost use Rattle.drawing_grammar.specs.Grammar.{Need, mark, item, keyword as keyword_need};
ghost use Rattle.drawing_grammar.specs.Machine.{Gives, refusal, no_colon};
ghost use Rattle.drawing_reader.specs.Reader.{tokens_at, ahead, at, first_token, other_tokens};
ghost use Rattle.drawing_grammar.specs.Front.{first_terminal, first_place, first_text, behind_first, AtKeyword, at_loop};

use crate::rest::Rest;
use drawing_grammar::{Edition, Keyword, Terminal, symbol_terminal, word_terminal};
use scald_base::{Place, RefusalKind, Stop};
use scald_lex::{Token, TokenKind};

/// Reads the tokens of a text from the front.
#[derive(Drop)]
pub struct Cursor<'a> {
    pub text: &'a [u8],
    pub rest: Rest,
    /// How many binary operators of the expression have come.
    pub operators: usize,
}

/// The bytes of a text from a place to another, as far as it has them.
#[inline(always)]
pub fn between<'a>(text: &'a [u8], from: usize, to: usize) -> &'a [u8]
    ensures { result.now ≡ slice_range text.now from to }
{
    let behind = &text[from.min(text.len())..];
    let count = to.saturating_sub(from).min(behind.len());
    &behind[..count]
}

/// The bytes of a token.
#[inline(always)]
pub fn text_of<'a>(text: &'a [u8], token: Token) -> &'a [u8]
    ensures { result.now ≡ slice_range text.now token.start token.end }
{
    between(text, token.start as usize, token.end as usize)
}

/// What the grammar takes a token of a text for.
#[inline(always)]
pub fn terminal_of(text: &[u8], token: Token) -> Terminal
    ensures { result ≡ terminal (lexeme_of text.now token) }
{
    match token.kind {
        TokenKind::Word => word_terminal(text_of(text, token)),
        TokenKind::Number(_) => Terminal::Number,
        TokenKind::Name => Terminal::Name,
        TokenKind::Arrow => Terminal::Arrow,
        TokenKind::Symbol(byte) => symbol_terminal(byte),
        TokenKind::End => Terminal::EndOfText,
    }
}

fn is_colon(terminal: Terminal) -> bool
    ensures yes { IsTrue result → terminal ≡ Terminal.Colon }
    ensures no { IsFalse result → terminal ≢ Terminal.Colon }
{
    terminal == Terminal::Colon
}

impl<'a> Cursor<'a> {
    /// What the grammar takes the next token for.
    #[inline(always)]
    pub fn look(&self) -> Terminal
        ensures { result ≡ first_terminal (tokens_at self.now) }
    {
        match self.rest.first() {
            None => Terminal::EndOfText,
            Some(token) => terminal_of(self.text, token),
        }
    }

    /// The bytes of the next token.
    fn first_text(&self) -> &'a [u8]
        ensures { result.now ≡ first_text (tokens_at self.now) }
    {
        match self.rest.first() {
            None => &[],
            Some(token) => text_of(self.text, token),
        }
    }

    /// The place of the next token.
    pub fn place(&self) -> Place
        ensures { result ≡ first_place (tokens_at self.now) }
    {
        match self.rest.first() {
            None => Place { line: 0, col: 0 },
            Some(token) => token.place,
        }
    }

    /// Why the next token is refused.
    pub fn refused(&self, kind: RefusalKind) -> Stop
        ensures { result ≡ Stop.Refused (refusal kind (first_place (tokens_at self.now))) }
    {
        Stop::refused(kind, self.place())
    }

    /// The next token, or `None` if none is left.
    #[inline(always)]
    pub fn peek(&self) -> Option<Token>
        ensures { result ≡ first_token self.now.rest }
    {
        self.rest.first()
    }

    /// Goes past the next token, if one is left.
    #[inline(always)]
    pub fn advance(&mut self)
        ensures rest { self.new.rest ≡ other_tokens self.old.rest }
        ensures no_longer { length self.new.rest ≤ length self.old.rest }
        ensures text { self.new.text.now ≡ self.old.text.now }
        ensures operators { self.new.operators ≡ self.old.operators }
    {
        self.rest.advance();
    }

    /// Whether the next token is this terminal.
    #[inline(always)]
    pub fn starts(&self, terminal: Terminal) -> bool
        ensures yes { IsTrue result → first_terminal (tokens_at self.now) ≡ terminal }
        ensures no { IsFalse result → first_terminal (tokens_at self.now) ≢ terminal }
    {
        self.look() == terminal
    }

    /// Takes the next token, if one is left.
    #[inline(always)]
    pub fn bump(&mut self) -> Token
        ensures shorter { first_terminal (tokens_at self.old) ≢ EndOfText →
            length self.new.rest < length self.old.rest }
        ensures no_longer { length self.new.rest ≤ length self.old.rest }
        ensures taken { first_terminal (tokens_at self.old) ≢ EndOfText →
            tokens_at self.old ≡ at self.old result ∷ tokens_at self.new }
        ensures text { self.new.text.now ≡ self.old.text.now }
        ensures operators { self.new.operators ≡ self.old.operators }
    {
        let Some(token) = self.peek() else {
            return Token {
                kind: TokenKind::End,
                place: self.place(),
                start: 0,
                end: 0,
            };
        };
        self.advance();
        token
    }

    /// Takes a token that has to stand here; if the next is another, `Syntax` comes at its
    /// place.
    pub fn mark(&mut self, terminal: Terminal) -> Result<(), Stop>
        requires { terminal ≢ EndOfText }
        ensures reads { (rest : List Need) →
            Gives result (λ _ v. v) (ahead self.old (mark terminal ∷ rest)) (ahead self.new rest) }
        ensures shorter { OnOk result (length self.new.rest < length self.old.rest) }
        ensures no_longer { length self.new.rest ≤ length self.old.rest }
    {
        if !self.starts(terminal) {
            return Err(self.refused(RefusalKind::Syntax));
        }
        self.bump();
        Ok(())
    }

    /// Takes a token that has to stand here, and whose text counts; `Syntax` comes as of `mark`.
    pub fn item(&mut self, terminal: Terminal) -> Result<Token, Stop>
        requires { terminal ≢ EndOfText }
        ensures reads { (rest : List Need) →
            Gives result (λ t v. (at self.old t, v)) (ahead self.old (item terminal ∷ rest))
            (ahead self.new rest) }
        ensures taken { IfOk result (λ t. tokens_at self.old ≡ at self.old t ∷ tokens_at self.new) }
        ensures shorter { OnOk result (length self.new.rest < length self.old.rest) }
        ensures no_longer { length self.new.rest ≤ length self.old.rest }
        ensures text { self.new.text.now ≡ self.old.text.now }
    {
        if !self.starts(terminal) {
            return Err(self.refused(RefusalKind::Syntax));
        }
        Ok(self.bump())
    }

    /// Whether the next token is this keyword.
    pub fn at_keyword(&self, keyword: Keyword) -> bool
        ensures yes { IsTrue result → AtKeyword keyword (tokens_at self.now) }
        ensures no { IsFalse result → ¬ AtKeyword keyword (tokens_at self.now) }
    {
        if !self.starts(Terminal::Word) {
            return false;
        }
        self.first_text() == keyword.text()
    }

    /// Whether no token is left.
    pub fn is_done(&self) -> bool
        ensures yes { IsTrue result → tokens_at self.now ≡ [] }
        ensures no { IsFalse result → tokens_at self.now ≢ [] }
    {
        match self.peek() {
            None => true,
            Some(_) => false,
        }
    }

    /// Whether a token follows the next one, and is no colon.
    fn no_colon_follows(&self) -> bool
        ensures { result ≡ no_colon (behind_first (tokens_at self.now)) }
    {
        match self.rest.second() {
            None => false,
            Some(token) => !is_colon(terminal_of(self.text, token)),
        }
    }

    /// What the grammar takes the token after the next one for.
    pub fn look_behind(&self) -> Terminal
        ensures { result ≡ first_terminal (behind_first (tokens_at self.now)) }
    {
        match self.rest.second() {
            None => Terminal::EndOfText,
            Some(token) => terminal_of(self.text, token),
        }
    }

    /// Whether the word FOR stands next, and no colon after it.
    fn at_for(&self) -> bool
        ensures { result ≡ at_loop Edition.Second (tokens_at self.now) }
    {
        if !self.at_keyword(Keyword::For) {
            return false;
        }
        self.no_colon_follows()
    }

    /// Whether a FOR begins here, where a statement of this version may stand. FOR may be a label
    /// as well: then a colon follows.
    pub fn at_loop(&self, edition: Edition) -> bool
        ensures { result ≡ at_loop edition (tokens_at self.now) }
    {
        match edition {
            Edition::First => false,
            Edition::Second => self.at_for(),
        }
    }

    /// Takes a word that has to be this keyword; if the next token is not, `Syntax` comes at its
    /// place.
    pub fn keyword(&mut self, keyword: Keyword) -> Result<(), Stop>
        ensures reads { (rest : List Need) →
            Gives result (λ _ v. v) (ahead self.old (keyword_need keyword ∷ rest))
            (ahead self.new rest) }
        ensures no_longer { length self.new.rest ≤ length self.old.rest }
    {
        if !self.at_keyword(keyword) {
            return Err(self.refused(RefusalKind::Syntax));
        }
        self.bump();
        Ok(())
    }
}
