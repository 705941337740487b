//! References to variables and scopes.

ghost use Rattle.std.specs.Prelude.{◌≡◌, ◌++◌, OnOk};
ghost use Rattle.std.specs.List.{list_all};
ghost use Rattle.trace_tool.specs.Variable.{begins_word, continues_word, is_simple, reference, word, word_byte};

use scald_base::{Bytes, NoMemory};

/// Whether it begins a simple word.
fn begins_word(byte: u8) -> bool
    ensures { result ≡ begins_word byte }
{
    byte.is_ascii_alphabetic() || byte == b'_'
}

/// Whether it may follow in a simple word.
fn continues_word(byte: u8) -> bool
    ensures { result ≡ continues_word byte }
{
    begins_word(byte) || byte.is_ascii_digit() || byte == b'$'
}

/// Whether all of them may follow in a simple word.
fn all_continue(bytes: &[u8]) -> bool
    ensures { result ≡ list_all continues_word bytes.now }
{
    bytes.iter().all(|byte| continues_word(*byte))
}

/// Whether a name is a word that needs no backslash.
fn is_simple(name: &[u8]) -> bool
    ensures { result ≡ is_simple name.now }
{
    match name {
        [first, others @ ..] => begins_word(*first) && all_continue(others),
        [] => false,
    }
}

/// The byte that stands for a byte of a name.
fn word_byte(byte: u8) -> u8
    ensures { result ≡ word_byte byte }
{
    if byte == b' ' { b'~' } else { byte }
}

/// A name as a word.
pub fn add_word(out: &mut Bytes, name: &[u8]) -> Result<(), NoMemory>
    ensures { OnOk result (out.new ≡ out.old ++ word name.now) }
{
    for byte in name {
        out.push(word_byte(*byte))?;
    }
    Ok(())
}

/// A name as a reference.
pub fn add_reference(out: &mut Bytes, name: &[u8]) -> Result<(), NoMemory>
    ensures { OnOk result (out.new ≡ out.old ++ reference name.now) }
{
    if !is_simple(name) {
        out.push(b'\\')?;
    }
    add_word(out, name)
}
