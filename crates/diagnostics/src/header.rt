//! What is said of a number of the header.

use crate::lines::Lines;
use crate::lines::Part::Number;
use crate::text::Text;
use crate::uses::{MOST_DELAY, add_over, add_pair};

/// What is wrong with a period.
fn add_period(out: &mut Lines, units: u64, ticks: u64) {
    out.note(
        b"CLOCK u x k has u and k of at least 1, and a period of u times k ticks, from 2 to 4096",
    );
    if let Some(period) = units.checked_mul(ticks) {
        out.tell(
            b"% x % is % ticks",
            &[Number(units), Number(ticks), Number(period)],
        );
    }
}

/// What is wrong with two numbers of the header statement at a token.
pub fn add_header(out: &mut Lines, text: &Text, i: usize) {
    let first = text.number(i.saturating_add(1)).unwrap_or(0);
    let second = text.number(i.saturating_add(3)).unwrap_or(0);
    if text.is(i, b"SCALD") {
        out.note(b"the version is 1 or 2");
    } else if text.is(i, b"CLOCK") {
        add_period(out, first, second);
    } else if text.is(i, b"WIRE") {
        add_pair(out, Some((first, second)), MOST_DELAY);
    } else {
        add_over(out, first.max(second), MOST_DELAY);
    }
}
