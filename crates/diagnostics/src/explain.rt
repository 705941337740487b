//! All that is said of a refusal.

use crate::bits::{add_range, add_width};
use crate::case::add_entry;
use crate::first::{add_clash, add_double, add_drivers};
use crate::header::add_header;
use crate::known::add_unknown_name;
use crate::lines::Lines;
use crate::lines::Part::{At, Number, Quoted, Shown};
use crate::naming::add_name;
use crate::sentence::sentence;
use crate::syntax::add_syntax;
use crate::text::{Text, tokens_of};
use crate::token::{add_byte, add_token};
use crate::uses::{add_bounds, add_connections, add_parameter, add_unknown_kind};
use scald_base::{Refusal, RefusalKind};
use std::alloc::Global;

/// What is said of a text that is refused so: the place and a sentence, the line of the
/// text with a mark under the place, and what may help.
pub fn explain_refusal(alloc: Global, bytes: &[u8], refusal: Refusal) -> Lines {
    let mut out = Lines::new(alloc);
    out.fill(
        b"scald: %: %\n",
        &[At(refusal.place), Shown(sentence(refusal.kind))],
    );
    out.mark(bytes, refusal.place);
    let list = tokens_of(alloc, bytes);
    let tokens = list.as_slice();
    let text = Text { bytes, tokens };
    match refusal.kind {
        RefusalKind::BadByte => add_byte(&mut out, bytes, refusal.place),
        RefusalKind::BadToken => add_token(&mut out, bytes, refusal.place),
        kind => {
            for i in 0..tokens.len() {
                if text.place(i) == refusal.place {
                    add_help(&mut out, &text, kind, i);
                    return out;
                }
            }
        }
    }
    out
}

/// What may help with a refusal of this kind at a token.
fn add_help(out: &mut Lines, text: &Text, kind: RefusalKind, i: usize) {
    match kind {
        RefusalKind::Syntax => add_syntax(out, text, i),
        RefusalKind::BadHeader => add_header(out, text, i),
        RefusalKind::DoubleName => add_double(out, text, i),
        RefusalKind::BadName => add_name(out, text, i),
        RefusalKind::EdgesOverlap => out.note(
            b"a skew (a,b) of a .C clock has a + b ticks, fewer than between two edges; a .P clock moves as a whole",
        ),
        RefusalKind::CaseNet => add_entry(out, text, i),
        _ => {
            add_expanded(out, text, kind, i);
            add_uses(out, text, i);
        }
    }
}

/// The same of a kind that comes from the expansion.
fn add_expanded(out: &mut Lines, text: &Text, kind: RefusalKind, i: usize) {
    match kind {
        RefusalKind::UnknownKind => add_unknown_kind(out, text, i),
        RefusalKind::AssertionClash => add_clash(out, text, i),
        RefusalKind::BadParameter => add_parameter(out, text, i),
        RefusalKind::Overflow => {
            out.note(b"values are whole, from -9223372036854775808 to 9223372036854775807")
        }
        RefusalKind::BadRange => add_range(out, text, i),
        RefusalKind::Width => add_width(out, text, i),
        RefusalKind::PinCount => add_connections(out, text, i),
        RefusalKind::Bounds => add_bounds(out, text, i),
        RefusalKind::TooDeep => {
            out.note(b"at most 64 uses of macros are nested, and at most 64 IFs and FORs;");
            out.note(
                b"an expression has at most 64 operators, and 64 parentheses and minus signs open",
            );
        }
        RefusalKind::TooMany if text.is(i, b"CASE") => {
            out.note(b"a drawing has at most 256 cases, and this is one more")
        }
        RefusalKind::TooMany => out.note(
            b"at most 65536 bits each of nets, elements and checkers, 1048576 pins and 262144 statements are reached",
        ),
        RefusalKind::TwoDrivers => add_drivers(out, text, i),
        RefusalKind::ZeroLoop => out.note(
            b"give an element of the loop, or the wire of a net of it, a least delay of 1",
        ),
        RefusalKind::ZeroDivisor => out.note(b"what stands after a / has the value 0 here"),
        RefusalKind::UnknownName => add_unknown_name(out, text, i),
        _ => {}
    }
}

/// Whether a token is the kind of a use of a macro.
fn is_use(text: &Text, i: usize, name: &[u8]) -> bool {
    let next = i.saturating_add(1);
    text.is(i, name)
        && text.symbol(i.saturating_sub(1)) == b':'
        && matches!(text.symbol(next), b'(' | b'{' | b'[')
}

/// How often the macro of a token is used, and where first: one of these uses leads to what is
/// refused.
pub fn add_uses(out: &mut Lines, text: &Text, i: usize) {
    let head = text.head_of(i);
    let name = text.word(head.saturating_add(1));
    let mut count: u64 = 0;
    let mut first = 0;
    if !text.is(head, b"MACRO") {
        return;
    }
    for j in 0..text.tokens.len() {
        if is_use(text, j, name) {
            first = if count == 0 { j } else { first };
            count = count.saturating_add(1);
        }
    }
    if count == 0 {
        return;
    }
    let place = text.place(first.saturating_sub(2));
    let parts = [Quoted(name), Number(count), At(place)];
    out.tell(b"uses of %: %, the first at %:", &parts);
    out.mark(text.bytes, place);
}
