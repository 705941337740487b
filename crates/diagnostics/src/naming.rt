//! What is said of a name that is not how a signal is named, or whose edges overlap.

use crate::first::is_asserting;
use crate::lines::Lines;
use crate::lines::Part::{Number, Quoted, Shown};
use crate::text::{Text, after, base_len, part, unquoted};

/// The most bytes of a base.
const MOST_BYTES: usize = 64;

/// That bytes of a name cannot be followed by what follows them, and what may follow.
fn add_stop(out: &mut Lines, name: &[u8], at: usize, why: &[u8]) {
    let before = Quoted(part(name, 0, at));
    let byte = Quoted(part(name, at, at.saturating_add(1)));
    let why = Shown(why);
    if at == 0 {
        out.tell(b"it cannot begin with %: %", &[byte, why]);
    } else if at < name.len() {
        out.tell(b"after % there cannot be %: %", &[before, byte, why]);
    } else {
        out.tell(b"after % the name cannot end: %", &[before, why]);
    }
}

/// How an assertion is written, in a period of so many units.
fn add_form(out: &mut Lines, units: u64) {
    out.tell(
        b"an assertion is .S alone, or .S, .P or .C and intervals of the units 0 to %, as in 2-3,5-6, none of them empty;",
        &[Number(units)],
    );
    out.note(
        b"after .P and .C there may be a skew of at most 4095 ticks, as in (2,3), and then an L",
    );
}

/// What is wrong with the assertion of a name, whose intervals begin at a byte of it.
fn add_assertion(out: &mut Lines, name: &[u8], from: usize, units: u64) {
    let fitting = after(name, from)
        .iter()
        .take_while(|byte| byte.is_ascii_digit() || b"-,()L".contains(*byte))
        .count();
    let wrong = from.saturating_add(fitting);
    if wrong < name.len() {
        add_stop(out, name, wrong, b"it is in no assertion");
    }
    add_form(out, units);
}

/// Whether a byte may stand in a base, but for spaces.
fn is_base_byte(byte: u8) -> bool {
    byte.is_ascii_alphanumeric() || matches!(byte, b'_' | b'#' | b'$')
}

/// What a byte that cannot stand in a base may be meant for.
fn base_note(byte: Option<&u8>) -> &'static [u8] {
    match byte {
        Some(b'.') =>
            b"a . stands only after a space, before the S, the P or the C of an assertion",
        Some(b'-') => b"a - that inverts stands before the quote",
        Some(b'/') =>
            b"a / stands only before a whole name: a net in a macro has no name outside it",
        Some(b' ') | None =>
            b"a name neither begins nor ends with a space, and has no two in a row",
        _ =>
            b"a name has letters, digits, _, # and $, single spaces, and at its end a space and .S, .P or .C",
    }
}

/// The first byte of a base, from this one on, that cannot stand there, or its end.
fn wrong_byte(base: &[u8], from: usize) -> usize {
    let mut is_first = true;
    for i in from..base.len() {
        let byte = base.get(i).copied().unwrap_or(0);
        if !is_base_byte(byte) && (byte != b' ' || is_first) {
            return i;
        }
        is_first = byte == b' ';
    }
    base.len()
}

/// What is wrong with a name between quotes, in a period of so many units.
fn add_fault(out: &mut Lines, name: &[u8], units: u64) {
    let from: usize = if name.starts_with(b"/") { 1 } else { 0 };
    let end = base_len(name);
    let base = part(name, 0, end);
    let wrong = wrong_byte(base, from);
    if end <= from {
        out.note(b"a name has a letter, a digit, _, # or $ before its assertion");
    } else if wrong < end || base.last() == Some(&b' ') {
        add_stop(out, name, wrong, base_note(base.get(wrong)));
    } else if from.saturating_add(MOST_BYTES) < end {
        out.note(b"a name has at most 64 bytes before its assertion");
    } else if end < name.len() {
        let letter = end.saturating_add(2);
        match name.get(letter) {
            Some(b'S' | b'P' | b'C') => add_assertion(out, name, letter.saturating_add(1), units),
            _ => add_form(out, units),
        }
    }
}

/// What is wrong with the name at a token.
pub fn add_name(out: &mut Lines, text: &Text, i: usize) {
    let name = unquoted(text.word(i));
    if i < text.macro_head(i).to && (name.starts_with(b"/") || is_asserting(text, i)) {
        out.note(b"a formal of a macro has no assertion, and no / before it");
    } else {
        add_fault(out, name, text.number(4).unwrap_or(0));
    }
}
