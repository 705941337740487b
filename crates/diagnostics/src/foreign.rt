//! Signs and words of other languages.

use crate::lines::Lines;
use crate::near::Row;
use crate::text::Text;

/// What is said of words of other languages that a statement begins with.
pub const STATEMENTS: [Row; 6] = [
    (&[b"ASSIGN"], LABEL),
    (&[b"INPUT", b"OUTPUT", b"SIGNAL", b"NET"], NET),
    (&[b"REG", b"LOGIC", b"TRI"], NET),
    (&[b"MODULE", b"ENTITY", b"COMPONENT"], MODULE),
    (&[b"BEGIN", b"GENERATE", b"ENDIF", b"ENDFOR"], END),
    (&[b"WHEN", b"SWITCH"], WHEN),
];

/// What is said where a statement has no label.
pub const LABEL: &[u8] =
    b"a label and a colon come first, as in b1 : BUF [0:5] (\"A\") -> (\"X\");";

const NET: &[u8] = b"a net needs no declaration: its name in double quotes is enough";

const MODULE: &[u8] = b"a module is a MACRO here, and the top one is the DRAWING";

const END: &[u8] = b"IF, FOR, MACRO and DRAWING have no BEGIN, and end with END;";

const WHEN: &[u8] = b"a condition is written IF A = 1 THEN, and a case is written CASE \"A\"=1;";

/// What is said of two signs that other languages write as one, of which one is refused.
const OPERATORS: [(u8, u8, &[u8]); 7] = [
    (b'=', b'=', b"equal is written ="),
    (b':', b'=', b"equal is written ="),
    (b'<', b'>', b"not equal is written !="),
    (b'=', b'<', b"at most is written <="),
    (b'=', b'>', b"at least is written >="),
    (b'/', b'/', b"a comment begins with --"),
    (b'/', b'*', b"a comment begins with --"),
];

/// What is said of a token and the one after it.
fn signs_note(text: &Text, i: usize) -> Option<&'static [u8]> {
    let [this, next] = [text.symbol(i), text.symbol(i.saturating_add(1))];
    for (first, second, note) in &OPERATORS {
        if this == *first && next == *second {
            return Some(note);
        }
    }
    None
}

/// On a sign of another language at a token; whether there is one.
pub fn add_operator(out: &mut Lines, text: &Text, i: usize) -> bool {
    let before = i.saturating_sub(1);
    let note = signs_note(text, before).or(signs_note(text, i));
    let is_arrow = text.symbol(i) == b'=' && text.symbol(i.saturating_add(1)) == b'>';
    if is_arrow && (text.symbol(before) == b')' || text.is_name(before)) {
        out.note(b"an arrow is written ->: is -> meant?");
    } else if let Some(note) = note {
        out.note(note);
    } else if text.symbol(i) == b'&' && !text.is_name(before) {
        out.note(JOINED);
    } else {
        return false;
    }
    true
}

/// How conditions are joined.
pub const JOINED: &[u8] =
    b"conditions are joined by * for \"and\" and by + for \"or\", each in parentheses";
