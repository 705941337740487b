//! What is said of the bits of names: of widths that differ, and of ranges.

use crate::lines::Lines;
use crate::lines::Part::Number;
use crate::statement::{MOST_TOKENS, Span};
use crate::text::Text;
use crate::uses::add_over;
use element_kinds::{Kind, kind_named};

/// The most connections whose widths are shown.
const MOST: usize = 16;

/// The last bit that a name may have, and the most bits of a range.
const LAST_BIT: u64 = 65535;

const MOST_BITS: u64 = 256;

/// How many bits a connection has in a macro with this head, if that can be read.
fn width_of(text: &Text, head: Span, connection: Span) -> Option<u64> {
    let mut width: u64 = 0;
    if MOST_TOKENS < connection.to.saturating_sub(connection.from) {
        return None;
    }
    for i in connection.from..connection.to {
        if text.is_name(i) {
            let (first, last) = text.bits(head, i)?;
            width = width.saturating_add(first.abs_diff(last)).saturating_add(1);
        } else if text.is_any(i, &[b"ZERO", b"ONE"]) {
            width = width.saturating_add(1);
        }
    }
    Some(width)
}

/// The widths of connections, with a `?` if one cannot be read.
fn add_widths(out: &mut Lines, text: &Text, head: Span, list: Span) {
    let mut rest = list;
    for number in 0..MOST {
        if rest.is_empty() {
            return;
        }
        let (connection, others) = text.split(rest);
        out.put(if number == 0 { b"" } else { b", " });
        match width_of(text, head, connection) {
            Some(width) => out.add(&[Number(width)]),
            None => out.put(b"?"),
        }
        rest = others;
    }
    if !rest.is_empty() {
        out.put(b", ..");
    }
}

/// The widths of the connections of a use, or of the formals of a head.
fn add_bits(out: &mut Lines, text: &Text, label: usize) {
    let used = text.use_at(label);
    let head = text.macro_head(used.kind);
    add_widths(out, text, head, used.inputs);
    if !used.outputs.is_empty() {
        out.put(b" -> ");
        add_widths(out, text, head, used.outputs);
    }
    out.put(b"\n");
}

/// How wide the connections of a kind are, or of a macro.
fn add_rule(out: &mut Lines, kind: Option<Kind>) {
    out.note(match kind {
        None =>
            b"each connection is as wide as its formal; an input may have one bit for all instead",
        Some(Kind::Chg) =>
            b"the inputs of a CHG have any widths, and a connection has at most 256 bits",
        Some(_) => b"each connection is as wide as the widest, or an input has one bit for all",
    });
}

/// Which widths the connections of a use have, and which they should have.
pub fn add_width(out: &mut Lines, text: &Text, label: usize) {
    let name = text.word(label.saturating_add(2));
    let kind = kind_named(name);
    out.put(b"    bits of the connections: ");
    add_bits(out, text, label);
    if let (None, Some(head)) = (kind, text.macro_named(name)) {
        out.put(b"    bits of the formals: ");
        add_bits(out, text, head.saturating_sub(1));
    }
    add_rule(out, kind);
    add_quotient(out, text, label);
    out.note(
        b"a name without a range is its bit 0 alone, and a formal without one is all of its bits",
    );
}

/// That a size may not divide, if a statement divides.
fn add_quotient(out: &mut Lines, text: &Text, start: usize) {
    for i in start..text.end_of(start) {
        if text.symbol(i) == b'/' {
            return out.note(
                b"a / rounds towards zero, so parts of a size that does not divide are not as wide as it",
            );
        }
    }
}

/// What is wrong with the range of a name, if that is written in digits; whether something is.
fn add_name(out: &mut Lines, text: &Text, head: Span, i: usize) -> bool {
    let Some((first, last)) = text.bits(head, i) else {
        return false;
    };
    let [least, most] = [first.min(last), first.max(last)];
    let bits = (most - least).saturating_add(1);
    let formal = text.formal(head, i).unwrap_or(i);
    let (a, b) = text.bits(head, formal).unwrap_or((least, most));
    if least < a.min(b) || a.max(b) < most {
        out.tell(
            b"the formal % has the bits % to %, by its head at %",
            &[
                text.shown(i),
                Number(a.min(b)),
                Number(a.max(b)),
                text.at(formal),
            ],
        );
    } else if LAST_BIT < most {
        add_over(out, most, LAST_BIT);
    } else if MOST_BITS < bits {
        add_over(out, bits, MOST_BITS);
    } else {
        return false;
    }
    true
}

/// What is wrong with a range of a statement.
pub fn add_range(out: &mut Lines, text: &Text, start: usize) {
    let end = text.end_of(start);
    let head = text.macro_head(start);
    for i in start..end.min(start.saturating_add(MOST_TOKENS)) {
        if text.is_name(i) && add_name(out, text, head, i) {
            return;
        }
    }
    add_quotient(out, text, start);
    out.note(
        b"a bit is numbered 0 to 65535, a range has at most 256 bits, and a formal has those of its head",
    );
}
