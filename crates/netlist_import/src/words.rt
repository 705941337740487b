//! The spelling of names.

ghost use Rattle.std.specs.Prelude.{◌≡◌, ◌||◌, IfOk, map};
ghost use Rattle.scald_base.specs.Word.{is_letter, is_word_byte};
ghost use Rattle.netlist_import.specs.Words.{after_backslash, base_byte, base_of, begins_with_letter, counted, is_primitive, is_reserved, is_taken, kind_word_of, marked, word_byte, word_of};

use element_kinds::is_kind_name;
use scald_base::{Bytes, NoMemory, same_bytes};
use std::alloc::Global;

fn is_letter(byte: u8) -> bool
    ensures { result ≡ is_letter byte }
{
    (byte >= b'A' && byte <= b'Z') || (byte >= b'a' && byte <= b'z')
}

fn is_word_byte(byte: u8) -> bool
    ensures { result ≡ is_word_byte byte }
{
    is_letter(byte) || (byte >= b'0' && byte <= b'9') || byte == b'_'
}

/// What stands for a byte in a word.
fn word_byte(byte: u8) -> u8
    ensures { result ≡ word_byte byte }
{
    if is_word_byte(byte) { byte } else { b'_' }
}

/// What stands for a byte in the name of a net.
fn base_byte(byte: u8) -> u8
    ensures { result ≡ base_byte byte }
{
    if byte == b'$' || byte == b'#' {
        byte
    } else if byte == b'.' {
        b'$'
    } else {
        word_byte(byte)
    }
}

/// A name without the backslash in front.
fn after_backslash(name: &[u8]) -> &[u8]
    ensures { result.now ≡ after_backslash name.now }
{
    match name {
        [b'\\', rest @ ..] => rest,
        _ => name,
    }
}

fn begins_with_letter(name: &[u8]) -> bool
    ensures { result ≡ begins_with_letter name.now }
{
    match name {
        [first, ..] => is_letter(*first),
        [] => false,
    }
}

/// Whether a word is no label, kind or macro.
fn is_reserved(word: &[u8]) -> bool
    ensures { result ≡ is_reserved word.now }
{
    same_bytes(b"SCALD", word)
        || same_bytes(b"CLOCK", word)
        || same_bytes(b"WIRE", word)
        || same_bytes(b"PSKEW", word)
        || same_bytes(b"CSKEW", word)
        || same_bytes(b"MACRO", word)
        || same_bytes(b"DRAWING", word)
        || same_bytes(b"CASE", word)
        || same_bytes(b"IF", word)
        || same_bytes(b"THEN", word)
        || same_bytes(b"ELSE", word)
        || same_bytes(b"END", word)
        || same_bytes(b"ZERO", word)
        || same_bytes(b"ONE", word)
}

/// Whether a word is no label or base: it does not begin with a letter, or is reserved.
fn is_taken(word: &[u8]) -> bool
    ensures { result ≡ is_taken word.now }
{
    !begins_with_letter(word) || is_reserved(word)
}

/// Whether a word is no macro: it does not begin with a letter, is reserved or a primitive.
fn is_taken_kind(word: &[u8]) -> bool
    ensures { result ≡ (is_taken word.now || is_primitive word.now) }
{
    is_taken(word) || is_kind_name(word)
}

/// A word with `n` in front, or the word itself.
fn marked(alloc: Global, is_marked: bool, word: &[u8]) -> Result<Bytes, NoMemory>
    ensures { IfOk result (λ out. out ≡ marked is_marked word.now) }
{
    if !is_marked {
        return Bytes::of(alloc, word);
    }
    let mut out = Bytes::of(alloc, b"n")?;
    out.extend(word)?;
    Ok(out)
}

/// The bytes of a name, each as it stands in a word.
fn worded(alloc: Global, name: &[u8]) -> Result<Bytes, NoMemory>
    ensures { IfOk result (λ out. out ≡ map word_byte (after_backslash name.now)) }
{
    let mut out = Bytes::new(alloc);
    let bytes = after_backslash(name);
    for byte in bytes {
        out.push(word_byte(*byte))?;
    }
    Ok(out)
}

/// The bytes of a name, each as it stands in the name of a net.
fn based(alloc: Global, name: &[u8]) -> Result<Bytes, NoMemory>
    ensures { IfOk result (λ out. out ≡ map base_byte (after_backslash name.now)) }
{
    let mut out = Bytes::new(alloc);
    let bytes = after_backslash(name);
    for byte in bytes {
        out.push(base_byte(*byte))?;
    }
    Ok(out)
}

/// The word that a label or a port is called by.
pub(crate) fn word_of(alloc: Global, name: &[u8]) -> Result<Bytes, NoMemory>
    ensures { IfOk result (λ word. word ≡ word_of name.now) }
{
    let word = worded(alloc, name)?;
    marked(alloc, is_taken(word.as_slice()), word.as_slice())
}

/// The word that a macro is called by.
pub(crate) fn kind_word_of(alloc: Global, name: &[u8]) -> Result<Bytes, NoMemory>
    ensures { IfOk result (λ word. word ≡ kind_word_of name.now) }
{
    let word = worded(alloc, name)?;
    marked(alloc, is_taken_kind(word.as_slice()), word.as_slice())
}

/// The base that a net is called by, if it is no port.
pub(crate) fn base_of(alloc: Global, name: &[u8]) -> Result<Bytes, NoMemory>
    ensures { IfOk result (λ base. base ≡ base_of name.now) }
{
    let base = based(alloc, name)?;
    marked(alloc, is_taken(base.as_slice()), base.as_slice())
}

/// A letter or a word and a number.
pub(crate) fn counted(alloc: Global, word: &[u8], number: usize) -> Result<Bytes, NoMemory>
    ensures { IfOk result (λ out. out ≡ counted word.now number) }
{
    let mut out = Bytes::of(alloc, word)?;
    out.extend(itoa::Buffer::new().format(number).as_bytes())?;
    Ok(out)
}
