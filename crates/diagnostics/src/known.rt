//! What is said of a name of an expression that means nothing.

use crate::lines::Lines;
use crate::lines::Part::Quoted;
use crate::near::Likeness;
use crate::statement::MOST_TOKENS;
use crate::text::Text;

/// Words of the grammar that may stand among names of expressions.
const NO_NAMES: [&[u8]; 8] = [
    b"ZERO", b"ONE", b"TO", b"DO", b"THEN", b"WIRE", b"IF", b"FOR",
];

/// Whether a token of a statement is a name of an expression.
fn is_used(text: &Text, i: usize) -> bool {
    text.is_word(i)
        && !text.is_given(i)
        && text.symbol(i.saturating_sub(1)) != b'!'
        && !text.is_any(i, &NO_NAMES)
}

/// The name that a word is like of the constants before a statement, of the parameters in the head
/// of its macro and of the variables of the FORs around it: the number of its token.
fn known(text: &Text, start: usize, likeness: Likeness, word: &[u8]) -> Option<usize> {
    let head = text.macro_head(start);
    for i in 1..start {
        let is_declared = text.is(i - 1, b"CONST")
            || head.from < i && i < head.to && text.is_given(i);
        if is_declared && likeness.holds(word, text.word(i)) {
            return Some(i);
        }
    }
    let mut inner = start;
    for _level in 0..MOST_TOKENS {
        inner = text.open_before(inner)?;
        let name = inner.saturating_add(1);
        if text.is(inner, b"FOR") && likeness.holds(word, text.word(name)) {
            return Some(name);
        }
    }
    None
}

/// That a word is known nowhere here, and which may be meant.
fn add_unknown(out: &mut Lines, text: &Text, start: usize, word: &[u8]) {
    out.tell(
        b"% is no constant declared before, no parameter of the macro and no variable of a FOR around it",
        &[Quoted(word)],
    );
    if let Some(meant) = known(text, start, Likeness::Edit, word) {
        out.tell(b"is % meant?", &[text.shown(meant)]);
    }
}

/// Which name of a statement is not known there.
pub fn add_unknown_name(out: &mut Lines, text: &Text, start: usize) {
    // (the words that a statement begins with are no names of an expression)
    let skipped = if text.is_any(start, &[b"IF", b"WIRE"]) {
        1
    } else if text.is(start, b"FOR") && text.opens(start) {
        2
    } else {
        3
    };
    let from = start.saturating_add(skipped);
    for i in from..from.saturating_add(MOST_TOKENS) {
        if text.ends_statement(i) {
            break;
        }
        let word = text.word(i);
        if is_used(text, i) && known(text, start, Likeness::Whole, word).is_none() {
            return add_unknown(out, text, start, word);
        }
    }
    out.note(
        b"in the head of a macro a default may name constants alone, and the range of a formal parameters too",
    );
}
