//! What is said of a byte that no text may have, and of one with which no token begins.

use crate::lines::Lines;
use crate::lines::Part::Number;
use crate::text::{after, line_of};
use scald_base::Place;

/// The bytes of a byte order mark, which some editors put before a text.
const ORDER_MARK: [u8; 3] = [239, 187, 191];

/// The line of a place from its column on.
fn line_from(text: &[u8], place: Place) -> &[u8] {
    after(
        line_of(text, place.line),
        (place.col as usize).saturating_sub(1),
    )
}

/// Which byte stands at the place.
pub fn add_byte(out: &mut Lines, text: &[u8], place: Place) {
    if place.line == 1 && place.col == 1 && text.starts_with(&ORDER_MARK) {
        return out.note(b"it begins a byte order mark: save the text without it");
    }
    if let Some(byte) = line_from(text, place).first() {
        out.tell(b"it is byte %", &[Number(u64::from(*byte))]);
    }
}

/// What is said of a point, by the bytes after it.
fn point_note(rest: &[u8]) -> &'static [u8] {
    match rest {
        [b'.', ..] => b"from 0 to 3 is written 0 TO 3 in a FOR, and 0:3 in a range",
        [b'0'..=b'9', ..] => b"numbers are whole: a delay is so many ticks",
        _ => b"an assertion stands in the quotes of its name, after a space, as in \"A .S1-8\"",
    }
}

/// Why no token begins with these bytes.
fn token_note(rest: &[u8]) -> &'static [u8] {
    match rest {
        [b'"', ..] => b"a name ends on its own line, with a second \", and has no tab in it",
        [b'0'..=b'9', ..] => b"a number is at most 9223372036854775807",
        [b'A'..=b'Z' | b'a'..=b'z', ..] => b"a word has at most 64 letters, digits and underscores",
        [b'.', others @ ..] => point_note(others),
        [b'\'', ..] => b"a constant bit is ZERO or ONE, and a name stands in double quotes",
        [b'~', ..] => b"a - before a name inverts it",
        [b'|', ..] =>
            b"conditions are joined by + for \"or\", and nets by an element of the kind OR",
        [b'_', ..] => b"a word begins with a letter, and a net's name stands in double quotes",
        _ =>
            b"symbols are ; : , ( ) < > [ ] { } = + - * / & ! and ->, and a comment begins with --",
    }
}

/// Why no token begins at the place.
pub fn add_token(out: &mut Lines, text: &[u8], place: Place) {
    out.note(token_note(line_from(text, place)));
}
