//! Words and names.

ghost use Rattle.std.specs.Prelude.{◌≤◌, length};

use crate::page::{Page, columns};
use crate::sheet::{Limit, Sheet};
use critical_paths::Direction;
use slack_rows::{Least, Parameter, Reason, Slack, Subject, Word};

/// Puts the word of a limit, with its number if it has one.
pub fn put_limit(page: &mut Page, parameter: Parameter) {
    let text: &[u8] = match parameter.word {
        Word::Setup => b"SETUP #",
        Word::Hold => b"HOLD #",
        Word::High => b"HIGH #",
        Word::Low => b"LOW #",
        Word::Gate => b"GATE",
        Word::Before => b"GATE BEFORE",
        Word::After => b"GATE AFTER",
        Word::Assert => b"ASSERT",
        Word::From => b"STABLE FROM",
        Word::To => b"STABLE TO",
    };
    page.fill(text, &[i64::from(parameter.limit)]);
}

/// Puts a slack.
pub fn put_slack(page: &mut Page, slack: Slack) {
    match slack {
        Slack::NoNumber(_) => page.put(b"none"),
        Slack::Ticks(ticks) => page.number(ticks),
        Slack::Way(ticks) => page.fill(b"#*", &[ticks]),
    }
}

/// Puts why there is no number.
pub fn put_reason(page: &mut Page, reason: Reason) {
    let text: &[u8] = match reason {
        Reason::Data => b"the data may change at any tick",
        Reason::DataLoop => b"the data may change at any tick, and a way to it comes from a loop",
        Reason::Clock => b"the clock may rise at any tick",
        Reason::High => b"the clock may stay high for a whole period",
        Reason::Mark => b"the mark may let changes through at any tick",
        Reason::Still => b"the assertion permits no change",
        Reason::Level(one, tick) => {
            let numbers = [i64::from(one), i64::from(tick)];
            return page.fill(b"it may be # at tick #", &numbers);
        }
    };
    page.put(text);
}

/// Puts what a step does.
pub fn put_verb(page: &mut Page, direction: Direction) {
    let text: &[u8] = match direction {
        Direction::Rise => b"rises",
        Direction::Fall => b"falls",
        Direction::Change => b"changes",
    };
    page.put(text);
}

/// Puts the name of a net or the path of an instance, without its bit.
fn put_text(page: &mut Page, sheet: Sheet, subject: Subject) {
    match subject {
        Subject::Instance(number) => {
            if let Some(found) = sheet.circuit.instance(number) {
                page.put(found.path.as_slice());
            }
        }
        Subject::Net(number) => {
            if let Some(found) = sheet.circuit.net(number) {
                page.put(found.name.as_slice());
            }
        }
    }
}

/// The bit of a net or an instance if that is printed: if there is another, or it is not 0.
fn printed_bit(sheet: Sheet, subject: Subject) -> Option<u16> {
    let bit = sheet.bit(subject);
    if bit == 0 && sheet.names.is_alone(subject) {
        None
    } else {
        Some(bit)
    }
}

/// Puts the name of a net or an instance with its bit.
pub fn put_bit_name(page: &mut Page, sheet: Sheet, subject: Subject) {
    put_text(page, sheet, subject);
    page.fill(b"<#>", &[i64::from(sheet.bit(subject))]);
}

/// Puts the name of a net or an instance, whose bit is left out if it is the only one.
pub fn put_name(page: &mut Page, sheet: Sheet, subject: Subject) {
    match printed_bit(sheet, subject) {
        Some(_) => put_bit_name(page, sheet, subject),
        None => put_text(page, sheet, subject),
    }
}

/// How many columns the name of a net fills.
pub fn name_width(sheet: Sheet, net: u32) -> usize {
    let text = match sheet.circuit.net(net) {
        Some(found) => found.name.len(),
        None => 0,
    };
    match printed_bit(sheet, Subject::Net(net)) {
        Some(bit) => text
            .saturating_add(2)
            .saturating_add(columns(i64::from(bit))),
        None => text,
    }
}

/// The number of the name of what a limit is of.
fn name_of(sheet: Sheet, limit: Limit) -> usize {
    sheet.names.number(limit.parameter.subject)
}

/// The bit of what a limit is of.
fn bit_of(sheet: Sheet, limit: Limit) -> i64 {
    i64::from(sheet.bit(limit.parameter.subject))
}

/// How many limits from the first on have its name.
fn same_count(sheet: Sheet, limits: &[Limit]) -> usize
    ensures { result ≤ length limits.now }
{
    let Some(first) = limits.first() else {
        return 0;
    };
    let name = name_of(sheet, *first);
    for (count, limit) in limits.iter().enumerate() {
        if name_of(sheet, *limit) != name {
            return count;
        }
    }
    limits.len()
}

/// Whether bits follow each other.
fn are_in_turn(sheet: Sheet, limits: &[Limit], first: i64) -> bool {
    let mut next = first;
    for limit in limits {
        if bit_of(sheet, *limit) != next {
            return false;
        }
        next = next.saturating_add(1);
    }
    limits.len() > 1
}

/// Puts the bits of one name: those that follow each other by the first and the last.
fn put_bits(page: &mut Page, sheet: Sheet, limits: &[Limit]) {
    let (Some(first), Some(last)) = (limits.first(), limits.last()) else {
        return;
    };
    let bit = bit_of(sheet, *first);
    put_text(page, sheet, first.parameter.subject);
    if are_in_turn(sheet, limits, bit) {
        return page.fill(b"<#:#>", &[bit, bit_of(sheet, *last)]);
    }
    for (at, limit) in limits.iter().enumerate() {
        let text: &[u8] = if at == 0 { b"<#" } else { b",#" };
        page.fill(text, &[bit_of(sheet, *limit)]);
    }
    page.put(b">");
}

/// How many names there are.
fn name_count(sheet: Sheet, limits: &[Limit]) -> i64 {
    let mut count: i64 = 0;
    let mut name = None;
    for limit in limits {
        let own = Some(name_of(sheet, *limit));
        if own != name {
            count = count.saturating_add(1);
            name = own;
        }
    }
    count
}

/// Puts the names of a row: of three or more the first, and how many more.
pub fn put_names(page: &mut Page, sheet: Sheet, limits: &[Limit]) {
    let names = name_count(sheet, limits);
    let (first, others) = limits.split_at(same_count(sheet, limits));
    put_bits(page, sheet, first);
    if names == 2 {
        page.put(b", ");
        put_bits(page, sheet, others);
    }
    if names > 2 {
        page.fill(b" and # more", &[names - 1]);
    }
}

/// Puts the numbers of the cases in which a limit has its least slack.
pub fn put_cases(page: &mut Page, sheet: Sheet, least: Least) {
    let Ok(cases) = sheet.cases_of(least.cases) else {
        return page.lose();
    };
    for (at, case) in cases.as_slice().iter().enumerate() {
        let text: &[u8] = if at == 0 { b"#" } else { b",#" };
        page.fill(text, &[i64::from(*case)]);
    }
}
