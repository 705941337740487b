//! The names that stand in quotes.

ghost use Rattle.std.specs.Prelude.{◌≡◌, ◌≤◌, ◌<◌, ◌-◌, List, ◌∷◌, slice_range, length, IfOk, OnOk, IfErr};
ghost use Rattle.scald_base.specs.declared.refusal.Stop.TheVariants.{NoMemory as OutOfMemory};
ghost use Rattle.drawing_grammar.specs.Grammar.{Need, item};
ghost use Rattle.drawing_grammar.specs.Machine.{Gives};
ghost use Rattle.drawing_reader.specs.Reader.{ahead, at};
ghost use Rattle.drawing_grammar.specs.Sketch.{blank, unquoted, signal_named};

use crate::cursor::{Cursor, between, text_of};
use assertion_syntax::{NameEnd, SignalName, read_name};
use drawing_grammar::Terminal;
use scald_base::{AssertSpec, Bytes, NoMemory, Stop};
use scald_lex::Token;
use std::alloc::Global;

/// The text between the quotes.
pub fn unquoted<'a>(text: &'a [u8]) -> &'a [u8]
    ensures { result.now ≡ unquoted text.now }
{
    between(text, 1, text.len().saturating_sub(1))
}

fn blank(alloc: Global) -> SignalName
    ensures { result ≡ blank }
{
    SignalName {
        base: Bytes::new(alloc),
        global: false,
        spec: AssertSpec::None,
    }
}

/// The name that a text in quotes is of, or a blank if it is of none: it is refused elsewhere.
pub fn signal(alloc: Global, text: &[u8]) -> Result<SignalName, Stop>
    ensures is { IfOk result (λ name. name ≡ signal_named text.now) }
    ensures memory { IfErr result (λ stop. stop ≡ OutOfMemory) }
{
    match read_name(alloc, unquoted(text)) {
        Ok(name) => Ok(name),
        Err(NameEnd::BadName) => Ok(blank(alloc)),
        Err(NameEnd::NoMemory) => Err(Stop::NoMemory),
    }
}

/// The bytes of a token of a text.
pub fn word(alloc: Global, text: &[u8], token: Token) -> Result<Bytes, NoMemory>
    ensures { IfOk result (λ bytes. bytes ≡ slice_range text.now token.start token.end) }
{
    let bytes = Bytes::of(alloc, text_of(text, token))?;
    Ok(bytes)
}

/// The name of a token of a text.
pub fn name(alloc: Global, text: &[u8], token: Token) -> Result<SignalName, Stop>
    ensures is { IfOk result (λ name.
        name ≡ signal_named (slice_range text.now token.start token.end)) }
    ensures memory { IfErr result (λ stop. stop ≡ OutOfMemory) }
{
    signal(alloc, text_of(text, token))
}

impl<'a> Cursor<'a> {
    /// Takes a word that has to stand here, and its bytes.
    pub fn next_word(&mut self, alloc: Global) -> Result<(Token, Bytes), Stop>
        ensures reads { (rest : List Need) → Gives result (λ x v.
            (at self.old x.0, v)) (ahead self.old (item Terminal.Word ∷ rest))
            (ahead self.new rest) }
        ensures text { IfOk result (λ x. x.1 ≡ (at self.old x.0).text) }
        ensures shorter { OnOk result (length self.new.rest < length self.old.rest) }
        ensures no_longer { length self.new.rest ≤ length self.old.rest }
    {
        let token = self.item(Terminal::Word)?;
        let bytes = word(alloc, self.text, token)?;
        Ok((token, bytes))
    }
}
