//! What is said of an entry of a CASE.

use crate::first::is_asserting;
use crate::lines::Lines;
use crate::lines::Part::{Quoted, Shown};
use crate::near::is_near;
use crate::text::Text;

/// Whether a name asserts a clock.
fn is_clock(text: &Text, i: usize) -> bool {
    let letter = text.word(i).get(text.base(i).len().saturating_add(3));
    is_asserting(text, i) && letter != Some(&b'S')
}

/// What the names of the drawing, or of all bodies if the base is global, say of a net that a case
/// may not set: that it is an output or a clock, or that it is not named, and which net may be
/// meant.
fn add_site(out: &mut Lines, text: &Text, i: usize) {
    let scope = text.scope_of(i);
    let base = text.base(i);
    let mut is_output = false;
    let mut is_named = false;
    let mut meant = None;
    for j in scope.from..text.start_of(i) {
        if text.ends_statement(j) {
            is_output = false;
        } else if text.is_arrow(j) {
            is_output = true;
        }
        if !text.is_name(j) {
            continue;
        }
        let place = [text.at(j)];
        let is_net = text.base(j) == base;
        if is_net && is_output {
            return out.tell(b"it is an output, at %", &place);
        }
        if is_net && is_clock(text, j) {
            return out.tell(b"it is a clock, at %", &place);
        }
        is_named = is_named || is_net;
        if meant.is_none() && is_near(base, text.base(j)) {
            meant = Some(j);
        }
    }
    if is_named {
        return;
    }
    out.fill(b"    no statement of the drawing names %", &[Quoted(base)]);
    if let Some(meant) = meant {
        out.fill(b": is % meant?", &[Shown(text.base(meant))]);
    }
    out.put(b"\n");
}

/// Why a case may not set a net so.
pub fn add_entry(out: &mut Lines, text: &Text, i: usize) {
    if is_asserting(text, i) {
        out.note(b"in a CASE a name stands without its assertion");
    } else {
        add_site(out, text, i);
    }
    out.note(
        b"a case sets a net once, to 0 or to 1, and only one that nothing drives and that asserts",
    );
    out.note(b".S or nothing; inside macros only global ones");
}
