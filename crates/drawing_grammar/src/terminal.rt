//! What the grammar distinguishes among tokens.

ghost use Rattle.std.specs.Prelude.{◌≡◌};
ghost use Rattle.drawing_grammar.specs.Grammar.{keyword_text};
ghost use Rattle.drawing_grammar.specs.Lexeme.{is_first, begins_reserved, word_terminal, symbol_terminal};

use scald_base::same_bytes;

/// A token as the grammar sees it: a word that stands for itself, any other word, a number, a name,
/// a symbol or the end.
#[derive(Clone, Copy, PartialEq, Eq, Debug)]
pub enum Terminal {
    Scald,
    Clock,
    Wire,
    Pskew,
    Cskew,
    Macro,
    Drawing,
    Case,
    If,
    Then,
    Else,
    End,
    Zero,
    One,
    /// A word that is not reserved.
    Word,
    Number,
    Name,
    /// `->`
    Arrow,
    Semicolon,
    Colon,
    Comma,
    OpenParenthesis,
    CloseParenthesis,
    Less,
    Greater,
    OpenBracket,
    CloseBracket,
    OpenBrace,
    CloseBrace,
    Equals,
    Plus,
    Minus,
    Star,
    Slash,
    Ampersand,
    Exclamation,
    /// After the last byte.
    EndOfText,
}

/// A word that is not reserved, and stands for itself where the grammar asks for it.
#[derive(Clone, Copy, PartialEq, Eq, Debug)]
pub enum Keyword {
    /// `x`, between two numbers.
    By,
    /// `H`, after an exclamation mark.
    Hazard,
    /// `CONST`, first in a constant.
    Const,
    /// `FOR`, first in a statement.
    For,
    /// `TO`, between two sums.
    To,
    /// `DO`, after two sums.
    Do,
}

impl Keyword {
    /// Its text.
    pub fn text(self) -> &'static [u8]
        ensures { result.now ≡ keyword_text self }
    {
        match self {
            Keyword::By => b"x",
            Keyword::Hazard => b"H",
            Keyword::Const => b"CONST",
            Keyword::For => b"FOR",
            Keyword::To => b"TO",
            Keyword::Do => b"DO",
        }
    }
}

/// Whether a reserved word begins as this one does.
fn begins_reserved(word: &[u8]) -> bool
    ensures { result ≡ begins_reserved word.now }
{
    match word {
        [] => false,
        [first, ..] => is_first(*first),
    }
}

fn is_first(byte: u8) -> bool
    ensures { result ≡ is_first byte }
{
    byte == b'C'
        || byte == b'D'
        || byte == b'E'
        || byte == b'I'
        || byte == b'M'
        || byte == b'O'
        || byte == b'P'
        || byte == b'S'
        || byte == b'T'
        || byte == b'W'
        || byte == b'Z'
}

/// What the grammar takes a word for.
#[tactic(auto, unfolding(crate::specs::Lexeme::word_terminal))]
pub fn word_terminal(word: &[u8]) -> Terminal
    ensures { result ≡ word_terminal word.now }
{
    // Most words are decided by their first letter.
    if !begins_reserved(word) {
        return Terminal::Word;
    }
    if same_bytes(word, b"SCALD") {
        Terminal::Scald
    } else if same_bytes(word, b"CLOCK") {
        Terminal::Clock
    } else if same_bytes(word, b"WIRE") {
        Terminal::Wire
    } else if same_bytes(word, b"PSKEW") {
        Terminal::Pskew
    } else if same_bytes(word, b"CSKEW") {
        Terminal::Cskew
    } else if same_bytes(word, b"MACRO") {
        Terminal::Macro
    } else if same_bytes(word, b"DRAWING") {
        Terminal::Drawing
    } else if same_bytes(word, b"CASE") {
        Terminal::Case
    } else if same_bytes(word, b"IF") {
        Terminal::If
    } else if same_bytes(word, b"THEN") {
        Terminal::Then
    } else if same_bytes(word, b"ELSE") {
        Terminal::Else
    } else if same_bytes(word, b"END") {
        Terminal::End
    } else if same_bytes(word, b"ZERO") {
        Terminal::Zero
    } else if same_bytes(word, b"ONE") {
        Terminal::One
    } else {
        Terminal::Word
    }
}

/// What the grammar takes a symbol for.
#[tactic(auto, unfolding(crate::specs::Lexeme::symbol_terminal))]
#[inline(always)]
pub fn symbol_terminal(byte: u8) -> Terminal
    ensures { result ≡ symbol_terminal byte }
{
    match byte {
        b';' => Terminal::Semicolon,
        b':' => Terminal::Colon,
        b',' => Terminal::Comma,
        b'(' => Terminal::OpenParenthesis,
        b')' => Terminal::CloseParenthesis,
        b'<' => Terminal::Less,
        b'>' => Terminal::Greater,
        b'[' => Terminal::OpenBracket,
        b']' => Terminal::CloseBracket,
        b'{' => Terminal::OpenBrace,
        b'}' => Terminal::CloseBrace,
        b'=' => Terminal::Equals,
        b'+' => Terminal::Plus,
        b'-' => Terminal::Minus,
        b'*' => Terminal::Star,
        b'/' => Terminal::Slash,
        b'&' => Terminal::Ampersand,
        _ => Terminal::Exclamation,
    }
}
