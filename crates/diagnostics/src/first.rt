//! The other place of what stands twice: of a name that is declared, of an assertion and of a
//! driver.

use crate::lines::Lines;
use crate::lines::Part::At;
use crate::statement::{MOST_TOKENS, Span};
use crate::text::Text;
use element_kinds::is_kind_name;

/// Whether the name of a constant or a macro is declared at a token.
fn is_defined(text: &Text, i: usize) -> bool {
    let before = i.saturating_sub(1);
    text.is_any(before, &[b"CONST", b"MACRO"])
}

/// Whether a token is the label of a statement.
fn is_label(text: &Text, i: usize) -> bool {
    text.symbol(i.saturating_add(1)) == b':' && text.ends_statement(i.saturating_sub(1))
}

/// Whether two tokens that are written alike declare things of one kind.
fn declare_alike(text: &Text, i: usize, j: usize) -> bool {
    if is_defined(text, i) {
        text.is(j.saturating_sub(1), text.word(i.saturating_sub(1)))
    } else if text.is_given(i) {
        text.is_given(j)
    } else {
        text.is_name(i) || is_label(text, i) && is_label(text, j)
    }
}

/// Where a name stands first that stands twice.
pub fn add_double(out: &mut Lines, text: &Text, i: usize) {
    let name = text.quoted(i);
    let from = if is_defined(text, i) {
        0
    } else {
        text.head_of(i)
    };
    for j in from..i {
        if text.is(j, text.word(i)) && declare_alike(text, i, j) {
            return out.tell(b"% is declared first at %", &[name, text.at(j)]);
        }
    }
    if is_kind_name(text.word(i)) {
        out.tell(b"% is the name of a kind", &[name]);
    }
}

/// Whether a name has an assertion.
pub fn is_asserting(text: &Text, i: usize) -> bool {
    text.is_name(i) && text.base(i).len().saturating_add(2) < text.word(i).len()
}

/// Another assertion of the same net.
fn clash_of(text: &Text, i: usize) -> Option<usize> {
    let scope = text.scope_of(i);
    for j in scope.from..scope.to {
        if is_asserting(text, j) && text.base(j) == text.base(i) && !text.is(j, text.word(i)) {
            return Some(j);
        }
    }
    None
}

/// Which two assertions of a net differ.
pub fn add_clash(out: &mut Lines, text: &Text, start: usize) {
    let end = text.end_of(start);
    let head = text.macro_head(start);
    for i in start..end.min(start.saturating_add(MOST_TOKENS)) {
        if !is_asserting(text, i) {
            continue;
        }
        if text.formal(head, i).is_some() {
            return out.note(
                b"a formal has the assertion of the net that is connected to it: give none in the macro",
            );
        }
        if let Some(other) = clash_of(text, i) {
            out.tell(
                b"% here, and % at %",
                &[text.shown(i), text.shown(other), text.at(other)],
            );
            break;
        }
    }
    out.note(b"give the assertion once, or spell it the same each time");
}

/// Whether bits may be the same as others; those that cannot be read may be any.
fn may_meet(bits: Option<(u64, u64)>, others: Option<(u64, u64)>) -> bool {
    match (bits, others) {
        (Some((a, b)), Some((c, d))) => a.min(b) <= c.max(d) && c.min(d) <= a.max(b),
        _ => true,
    }
}

/// An output of another statement that has the base of this one: the label of the statement.
fn driver_of(text: &Text, i: usize, start: usize) -> Option<usize> {
    let scope = text.scope_of(i);
    let head = match text.formal(text.macro_head(i), i) {
        Some(from) => Span {
            from,
            to: from.saturating_add(1),
        },
        None => Span { from: 0, to: 0 },
    };
    let bits = text.bits(head, i);
    let mut is_output = false;
    let mut label = scope.from;
    for j in scope.from..scope.to {
        if text.ends_statement(j) {
            is_output = false;
            label = j + 1;
        } else if text.is_arrow(j) {
            is_output = label != start && !text.is(label, b"MACRO");
        } else if is_output
            && text.is_name(j)
            && text.base(j) == text.base(i)
            && may_meet(bits, text.bits(head, j))
        {
            return Some(label);
        }
    }
    None
}

/// Which other statement has an output of the refused one too.
pub fn add_drivers(out: &mut Lines, text: &Text, start: usize) {
    let outputs = text.use_at(start).outputs;
    for i in outputs.from..outputs.to.min(outputs.from.saturating_add(MOST_TOKENS)) {
        if text.is_any(i, &[b"ZERO", b"ONE"]) {
            return out.note(b"an output cannot be ZERO or ONE");
        }
        if !text.is_name(i) {
            continue;
        }
        if let Some(other) = driver_of(text, i, start) {
            let place = text.place(other);
            out.tell(
                b"% is an output of % at % too:",
                &[text.shown(i), text.quoted(other), At(place)],
            );
            out.mark(text.bytes, place);
            break;
        }
    }
    out.note(b"give each its own net, or join them by a MUX2, an AND or an OR");
}
