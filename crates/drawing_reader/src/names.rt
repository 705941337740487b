//! The names of a text.

ghost use Rattle.std.specs.Prelude.{◌≡◌, ◌↔◌, List, ◌∷◌, ◌++◌, [], map, IsTrue, IfOk, OnOk, MatchResult, MatchOption, false};
ghost use Rattle.assertion_syntax.specs.Name.{IsBase, is_base_byte};
ghost use Rattle.scald_base.specs.Fitting.{Fits};
ghost use Rattle.drawing_grammar.specs.Lexeme.{lexeme_of, lexemes, terminal};
ghost use Rattle.drawing_reader.specs.Sifted.{IsAgain, Sifted, Sifting, naming_of};
ghost use Rattle.drawing_grammar.specs.Names.{Naming, named, names_at, head_behind, names_from, IsPlain, MayStand, IsNameFault, IsGood, AreGood, IsNameStop};

use crate::cursor::{terminal_of, text_of};
use crate::signal::unquoted;
use assertion_syntax::{NameEnd, NameFault, SignalName, fits, read_name};
use drawing_grammar::Terminal;
use scald_base::{AssertSpec, Header, List, NoMemory, Place, RefusalKind, Stop};
use scald_lex::{PackedToken, Token};
use std::alloc::Global;

/// Whether a name may be a formal's: it is neither global nor has an assertion.
fn is_plain(name: &SignalName) -> bool
    ensures { IsTrue result ↔ IsPlain name.now }
{
    if name.global {
        return false;
    }
    match name.spec {
        AssertSpec::None => true,
        _ => false,
    }
}

fn may_stand(name: &SignalName, of_formal: bool) -> bool
    ensures { IsTrue result ↔ MayStand of_formal name.now }
{
    !of_formal || is_plain(name)
}

/// Why a name is refused, if it is.
fn fault(name: &SignalName, of_formal: bool, header: &Header) -> Option<RefusalKind>
    ensures { MatchOption result (MayStand of_formal name.now × Fits header.now name.now.spec)
        (IsNameFault header.now of_formal name.now) }
{
    if !may_stand(name, of_formal) {
        return Some(RefusalKind::BadName);
    }
    match fits(&name.spec, header) {
        Ok(()) => None,
        Err(NameFault::BadName) => Some(RefusalKind::BadName),
        Err(NameFault::EdgesOverlap) => Some(RefusalKind::EdgesOverlap),
    }
}

/// Whether a base may have this byte.
fn is_base_byte(byte: u8) -> bool
    ensures { result ≡ is_base_byte byte }
{
    byte.is_ascii_alphanumeric() || matches!(byte, b' ' | b'_' | b'#' | b'$')
}

/// Whether a text is a base, as most names are: such a name may stand anywhere. Each byte is looked
/// at once.
fn is_bare(text: &[u8]) -> bool
    ensures { IsTrue result → IsBase text.now }
{
    if text.len() > 64 {
        return false;
    }
    let mut after_byte = false;
    'bytes: for byte in text {
        if *byte == b' ' {
            if !after_byte {
                return false;
            }
            after_byte = false;
        } else {
            if !is_base_byte(*byte) {
                return false;
            }
            after_byte = true;
        }
    }
    after_byte
}

/// A name that its bytes alone do not show to be good, and whether it is a formal's.
#[derive(Clone, Copy)]
pub struct Doubtful<'a> {
    pub text: &'a [u8],
    pub of_formal: bool,
    pub place: Place,
}

/// Whether a name is the same again, both outside of heads.
fn is_same_outside(last: &Doubtful, text: &[u8], of_formal: bool) -> bool
    ensures { IsTrue result → (last.now.of_formal ≡ false) × (of_formal ≡ false)
        × (last.now.text.now ≡ text.now) }
{
    if last.of_formal || of_formal {
        return false;
    }
    last.text == text
}

/// Whether a name is the last of these again, outside of heads.
fn is_again(doubtful: &[Doubtful], text: &[u8], of_formal: bool) -> bool
    ensures { IsTrue result → IsAgain (map naming_of doubtful.now) text.now of_formal }
{
    match doubtful.last() {
        Some(last) => is_same_outside(last, text, of_formal),
        None => false,
    }
}

/// Keeps a name, unless its bytes show that it is good, or that it is if those before are. So a
/// clock that stands again is not kept again.
fn sift<'a>(
    doubtful: &mut List<Doubtful<'a>>,
    text: &'a [u8],
    of_formal: bool,
    place: Place,
) -> Result<(), NoMemory>
    ensures { OnOk result ((all rest : List Naming) →
        Sifting (map naming_of doubtful.old) all (named text.now of_formal place ∷ rest) →
        Sifting (map naming_of doubtful.new) all rest) }
{
    if is_bare(text) {
        return Ok(());
    }
    if is_again(doubtful.as_slice(), text, of_formal) {
        return Ok(());
    }
    doubtful.push(Doubtful {
        text,
        of_formal,
        place,
    })?;
    Ok(())
}

/// Takes a token, inside or outside of a macro's head, and answers where the next one stands.
fn sift_token<'a>(
    doubtful: &mut List<Doubtful<'a>>,
    text: &'a [u8],
    token: Token,
    in_head: bool,
) -> Result<bool, NoMemory>
    ensures next { IfOk result (λ next.
        next ≡ head_behind in_head (terminal (lexeme_of text.now token))) }
    ensures sifted { OnOk result ((all rest : List Naming) →
        Sifting (map naming_of doubtful.old) all
        (names_at in_head (terminal (lexeme_of text.now token)) (lexeme_of text.now token)
        ++ rest) →
        Sifting (map naming_of doubtful.new) all rest) }
{
    match terminal_of(text, token) {
        Terminal::Macro => Ok(true),
        Terminal::Semicolon => Ok(false),
        Terminal::Name => {
            sift(
                doubtful,
                unquoted(text_of(text, token)),
                in_head,
                token.place,
            )?;
            Ok(in_head)
        }
        _ => Ok(in_head),
    }
}

/// The names of a text that may be refused, which are few in most texts.
pub fn doubtful_names<'a>(
    alloc: Global,
    text: &'a [u8],
    tokens: &[PackedToken],
) -> Result<List<Doubtful<'a>>, NoMemory>
    ensures { IfOk result (λ doubtful.
        Sifted (map naming_of doubtful) (names_from false (lexemes text.now tokens.now))) }
{
    let mut doubtful = List::new(alloc);
    let mut in_head = false;
    'tokens: for token in tokens {
        in_head = sift_token(&mut doubtful, text, token.token(), in_head)?;
    }
    Ok(doubtful)
}

/// Whether a name is one that may stand there.
fn judge(alloc: Global, name: &Doubtful, header: &Header) -> Result<(), Stop>
    ensures { MatchResult result (λ _. IsGood header.now (naming_of name.now))
        (IsNameStop header.now (naming_of name.now ∷ [])) }
{
    match read_name(alloc, name.text) {
        Ok(read) => match fault(&read, name.of_formal, header) {
            None => Ok(()),
            Some(kind) => Err(Stop::refused(kind, name.place)),
        },
        Err(NameEnd::BadName) => Err(Stop::refused(RefusalKind::BadName, name.place)),
        Err(NameEnd::NoMemory) => Err(Stop::NoMemory),
    }
}

/// Whether each of these names is one that fits the header, and plain if it is a formal's. At
/// the first that is not, `BadName` comes if it has not the form of a name, is a formal's and
/// not plain, or has an interval that does not fit; else `EdgesOverlap`.
pub fn judged_names(alloc: Global, names: &[Doubtful], header: &Header) -> Result<(), Stop>
    ensures { MatchResult result (λ _. AreGood header.now (map naming_of names.now))
        (IsNameStop header.now (map naming_of names.now)) }
{
    'names: for name in names {
        judge(alloc, name, header)?;
    }
    Ok(())
}
