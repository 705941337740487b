//! What is said of a token with which no drawing goes on.

use crate::foreign::{JOINED, LABEL, STATEMENTS, add_operator};
use crate::lines::Lines;
use crate::lines::Part::{Number, Quoted, Shown};
use crate::near::{is_one_of, is_same, nearest, noted};
use crate::text::{Text, after};
use element_kinds::is_kind_name;
use scald_lex::TokenKind;

/// The words that cannot be names.
const RESERVED: [&[u8]; 14] = [
    b"SCALD", b"CLOCK", b"WIRE", b"PSKEW", b"CSKEW", b"MACRO", b"DRAWING", b"CASE", b"IF", b"THEN",
    b"ELSE", b"END", b"ZERO", b"ONE",
];

/// The words that a statement may begin with, or that stand in one.
const WORDS: [&[u8]; 16] = [
    b"SCALD", b"CLOCK", b"WIRE", b"PSKEW", b"CSKEW", b"MACRO", b"DRAWING", b"CASE", b"CONST",
    b"IF", b"THEN", b"ELSE", b"END", b"FOR", b"TO", b"DO",
];

/// How constant bits are called in other languages.
const CONSTANTS: [&[u8]; 8] = [
    b"VCC", b"VDD", b"TRUE", b"ONE", b"GND", b"VSS", b"FALSE", b"ZERO",
];

/// What is said of constants and FORs.
const CONST: &[u8] = b"a CONST stands after the header, before the first MACRO and the DRAWING";

const VERSION: &[u8] = b"FOR and CONST are of version 2, in texts that begin with SCALD 2";

/// That a word or a symbol may be meant.
fn add_meant(out: &mut Lines, word: &[u8]) {
    out.tell(b"is % meant?", &[Shown(word)]);
}

/// That something may be missing before a token.
fn add_missing(out: &mut Lines, text: &Text, i: usize, word: &[u8]) {
    let before = text.word(i.saturating_sub(1));
    out.tell(b"is % missing after %?", &[Shown(word), Quoted(before)]);
}

/// That a word cannot be a name.
fn add_reserved(out: &mut Lines, word: &[u8]) {
    out.tell(
        b"% is reserved: it cannot be a label, a macro, a parameter, a constant or a drawing",
        &[Shown(word)],
    );
}

/// What stands there, and after what.
fn add_standing(out: &mut Lines, text: &Text, i: usize) {
    let what = if text.word(i).is_empty() {
        Shown(b"the end of the text")
    } else {
        text.quoted(i)
    };
    if i == 0 {
        out.tell(b"% cannot come first: a text begins with SCALD 2;", &[what]);
    } else {
        let before = text.quoted(i - 1);
        out.tell(b"% cannot stand here, after %", &[what, before]);
    }
}

/// Whether a statement, a part of the text or its end begins with a token.
fn begins_statement(text: &Text, i: usize) -> bool {
    let before = i.saturating_sub(1);
    let is_label = text.is_word(i) && text.symbol(i.saturating_add(1)) == b':';
    is_label && !matches!(text.symbol(before), b'[' | b'(')
        || text.opens(i)
        || text.is_any(i, &[b"WIRE", b"END", b"ELSE", b"CASE", b""])
}

/// Whether an expression or a list of connections may end with a token.
fn ends_operand(text: &Text, i: usize) -> bool {
    match text.token(i).kind {
        TokenKind::Number(_) | TokenKind::Name => true,
        TokenKind::Symbol(byte) => byte == b')' || byte == b'>',
        TokenKind::Word => !text.is_any(i, &WORDS),
        _ => false,
    }
}

/// Whether the words FOR and CONST are names, as in version 1.
fn is_old(text: &Text) -> bool {
    text.number(1) != Some(2)
}

/// On a comment that hides what follows the token before.
fn add_hidden(out: &mut Lines, text: &Text, before: usize) -> bool {
    let rest = after(text.bytes, text.token(before).end as usize);
    let blanks = rest.iter().take_while(|byte| **byte == b' ').count();
    let rest = after(rest, blanks);
    let is_hidden = rest.starts_with(b"-->") || rest.starts_with(b"--\"");
    if is_hidden {
        out.note(b"-- begins a comment: is -> or a single - meant?");
    }
    is_hidden
}

/// On an END that is missing before a token; whether one is.
fn add_ends(out: &mut Lines, text: &Text, i: usize) -> bool {
    let is_outer = text.is_head(i) || text.is_any(i, &[b"CASE", b""]);
    match text.open_before(i) {
        Some(open) if is_outer => {
            let opened = [text.shown(open), text.at(open)];
            out.tell(b"the % at % has no END before this", &opened);
            true
        }
        _ => false,
    }
}

/// The word that the head of a FOR or an IF goes on with, which begins at a token before this one.
fn wanted_word(text: &Text, i: usize, start: usize) -> Option<&'static [u8]> {
    if start == i {
        None
    } else if text.is(start, b"IF") {
        Some(b"THEN")
    } else if !text.is(start, b"FOR") || !text.opens(start) || is_old(text) {
        None
    } else if (start..i).any(|j| text.is(j, b"TO")) {
        Some(b"DO")
    } else {
        Some(b"TO")
    }
}

/// On the head of a FOR or an IF.
fn add_head(out: &mut Lines, text: &Text, i: usize, start: usize) -> bool {
    let Some(wanted) = wanted_word(text, i, start) else {
        return false;
    };
    let word = text.word(i);
    let before = i.saturating_sub(1);
    if is_one_of(&[b"AND", b"OR"], word) {
        out.note(JOINED);
    } else if !ends_operand(text, before) || !text.is_word(i) && text.number(i).is_none() {
        return false;
    } else {
        add_missing(out, text, i, wanted);
    }
    true
}

/// On a number of a delay: its unit, or a least without a greatest.
fn add_delay(out: &mut Lines, text: &Text, i: usize) -> bool {
    let before = i.saturating_sub(1);
    let last = before.saturating_sub(1);
    let is_alone = matches!(text.symbol(last), b'[' | b',');
    let Some(number) = text.number(before) else {
        return false;
    };
    if is_alone && text.is_any(i, &[b"]", b","]) {
        let number = Number(number);
        out.tell(
            b"a delay has a least and a greatest: is [0:%] or [%:%] meant?",
            &[number, number, number],
        );
    } else if text.is_word(i) && text.token(i).start == text.token(before).end {
        out.note(b"a number has no unit: delays and limits are so many ticks");
    } else {
        return false;
    }
    true
}

/// On a bracket that something else stands in.
fn add_bracket(out: &mut Lines, text: &Text, i: usize) -> bool {
    let before = i.saturating_sub(1);
    let [this, next] = [text.symbol(i), text.symbol(i.saturating_add(1))];
    let left = text.symbol(before);
    let [is_name, follows_name] = [text.is_name(i), text.is_name(before)];
    let follows_word = text.is_word(before);
    let open = text.bracket_before(i).unwrap_or(0);
    let note: &[u8] = if this == b'[' && text.is(before.saturating_sub(1), b"WIRE") {
        b"the delay of a WIRE has no brackets, as in WIRE \"A\" 3:8;"
    } else if follows_name && matches!(this, b'[' | b'(' | b'>') {
        b"a range stands in < > after the name, as in \"A\"<3:0>: is < meant?"
    } else if matches!(left, b'(' | b'{') && next == b':' {
        b"a delay stands in [ ], the least and the greatest, as in [20:60]"
    } else if left == b'(' && next == b'=' {
        b"parameters stand in { }, as in {N=8}"
    } else if this == b'[' && !follows_word || is_name && text.is_arrow(before) {
        b"connections stand in ( )"
    } else if is_name && follows_name {
        b"is , or & missing between the names?"
    } else if text.symbol(open) == b'{' && follows_word && matches!(this, b',' | b'}') {
        b"a parameter has a name and a value, as in {SETUP=20, HOLD=5}"
    } else {
        return false;
    };
    out.note(note);
    true
}

/// On what stands where a net's name should.
fn add_net(out: &mut Lines, text: &Text, i: usize) -> bool {
    let before = i.saturating_sub(1);
    let is_listed = matches!(text.symbol(before), b'(' | b',' | b'&' | b'-');
    let is_not = matches!(text.symbol(i), b'!' | b'/') || is_same(text.word(i), b"NOT");
    if !is_listed && !text.is(before, b"CASE") {
        return false;
    }
    if is_not {
        out.note(
            b"a - before a name inverts it; a ! stands only after a connection, in the mark !H",
        );
    } else if text.number(i).is_some() || is_one_of(&CONSTANTS, text.word(i)) {
        out.note(b"a constant bit is ZERO or ONE");
    } else if text.is_word(i) {
        out.note(b"a net's name stands in double quotes");
    } else {
        return false;
    }
    true
}

/// On a bracket that is open, and a statement that has no `;`.
fn add_close(out: &mut Lines, text: &Text, i: usize) -> bool {
    let before = i.saturating_sub(1);
    let is_past = begins_statement(text, i) && ends_operand(text, before);
    if is_past || text.is_arrow(i) || matches!(text.symbol(i), b'(' | b'{' | b';') {
        if let Some(open) = text.bracket_before(i) {
            let opened = [text.shown(open), text.at(open)];
            out.tell(b"the % at % is not closed before this", &opened);
            return true;
        }
    }
    if is_past && !text.is(i, b"THEN") {
        add_missing(out, text, i, b";");
    } else if text.symbol(i) == b'(' && text.symbol(before) == b')' {
        add_missing(out, text, i, b"->");
    } else {
        return false;
    }
    true
}

/// On the first word of a statement and the token after it.
fn add_begun(out: &mut Lines, text: &Text, i: usize, start: usize) -> bool {
    let first = text.word(start);
    let is_reserved = text.is_any(start, &RESERVED);
    let is_new = text.is_any(start, &[b"CONST", b"FOR"]);
    if i != start.saturating_add(1) || !text.is_word(start) {
        return false;
    }
    if is_new && is_old(text) {
        out.note(VERSION);
    } else if text.is(start, b"CONST") && text.head_of(i) != 0 {
        out.note(CONST);
    } else if is_reserved && text.symbol(i) == b':' {
        add_reserved(out, first);
    } else if is_new || is_reserved {
        return false;
    } else if let (Some(note), false) = (noted(&STATEMENTS, first), is_kind_name(text.word(i))) {
        out.note(note);
    } else if let (Some(word), false) = (nearest(&WORDS, first), is_kind_name(first)) {
        add_meant(out, word);
    } else {
        out.note(LABEL);
    }
    true
}

/// Where a statement stands that begins with a word.
fn place_note(word: &[u8]) -> Option<&'static [u8]> {
    Some(match word {
        b"SCALD" | b"CLOCK" | b"PSKEW" | b"CSKEW" =>
            b"a text begins with SCALD, CLOCK, WIRE, PSKEW and CSKEW, in this order; the last three may be left out",
        b"WIRE" =>
            b"a WIRE without a name stands in the header, and one with a name in the body of a MACRO or of the DRAWING",
        b"CONST" => CONST,
        b"MACRO" => b"a MACRO stands before the DRAWING, and in no other MACRO",
        b"DRAWING" => b"a text has one DRAWING, after its MACROs",
        b"CASE" => b"a CASE stands after the END of the DRAWING",
        _ => return noted(&STATEMENTS, word),
    })
}

/// On the word itself: where it stands in a text, or which one it nearly is.
fn add_word(out: &mut Lines, text: &Text, i: usize, start: usize) {
    let word = text.word(i);
    let before = i.saturating_sub(1);
    if text.symbol(before) == b'!' {
        out.note(b"the mark is !H");
    } else if text.is(i, b"CONST") && is_old(text) {
        out.note(VERSION);
    } else if let (Some(note), true) = (place_note(word), i == start) {
        out.note(note);
    } else if i != start && text.is_any(i, &RESERVED) {
        add_reserved(out, word);
    } else if let (Some(meant), false) = (nearest(&WORDS, word), text.is_any(i, &WORDS)) {
        add_meant(out, meant);
    }
}

/// What may help if no drawing goes on with a token.
pub fn add_syntax(out: &mut Lines, text: &Text, i: usize) {
    add_standing(out, text, i);
    let start = text.start_of(i);
    let before = i.saturating_sub(1);
    if i == 0
        || add_hidden(out, text, before)
        || add_operator(out, text, i)
        || add_delay(out, text, i)
        || add_head(out, text, i, start)
        || add_begun(out, text, i, start)
        || add_bracket(out, text, i)
    {
        return;
    }
    if text.is(before, b"END") {
        return out.note(b"END stands alone: IF, FOR, MACRO and DRAWING end with END;");
    }
    if add_net(out, text, i) || add_close(out, text, i) {
        return;
    }
    let is_first = i == start;
    if !is_first || !add_ends(out, text, i) || text.is(i, b"CASE") {
        add_word(out, text, i, start);
    }
}
