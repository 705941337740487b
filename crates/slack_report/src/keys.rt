//! What is equal in the bits of one row, as texts: rows with equal texts are one.

use crate::page::{Page, number_of};
use crate::sheet::{Limit, Sheet, Statement};
use crate::words::{put_limit, put_reason, put_slack, put_verb};
use critical_paths::{End, Node, Passage, Word};
use scald_base::{Bytes, NoMemory};
use slack_rows::{By, Slack, Subject};

/// A path without its bits: the number of its shape, the ticks at its net and at which it begins,
/// and the wire to its pin.
#[derive(Clone, Copy)]
pub struct Outline {
    pub shape: usize,
    pub tick: i64,
    pub begin: i64,
    pub wire: u16,
}

/// Puts how surely a link goes on.
fn put_word(page: &mut Page, word: Word) {
    match word {
        Word::Tight => page.put(b"tight;"),
        Word::Bounded(pin) => page.fill(b"bounded #;", &[i64::from(pin)]),
        Word::Loose => page.put(b"loose;"),
        Word::Inside => page.put(b"inside;"),
        Word::Same => page.put(b"same;"),
    }
}

/// Puts by what an event comes.
fn put_passage(page: &mut Page, passage: Option<Passage>) {
    match passage {
        None => page.put(b"first;"),
        Some(Passage::Cut(ticks)) => page.fill(b"cut #;", &[i64::from(ticks)]),
        Some(
            Passage::Through {
                pin,
                wire,
                delay,
                word,
            },
        ) => {
            let numbers = [i64::from(pin), i64::from(wire), i64::from(delay)];
            page.fill(b"#,#,# ", &numbers);
            put_word(page, word);
        }
    }
}

/// Puts where a statement stands.
fn put_statement(page: &mut Page, statement: Option<Statement>) {
    match statement {
        Some(Statement { scope, line, col }) => {
            let numbers = [number_of(scope), i64::from(line), i64::from(col)];
            page.fill(b"#,#,#;", &numbers);
        }
        None => page.put(b"none;"),
    }
}

/// Puts how a path ends.
fn put_end(page: &mut Page, end: End) {
    page.put(match end {
        End::Edge => b"edge;".as_slice(),
        End::Source => b"source;",
        End::Loop => b"loop;",
        End::Nothing => b"nothing;",
    });
}

/// The text of a link without its bits, on a path that ends like this, by the number of the shape
/// before it.
pub fn shape_text(sheet: Sheet, node: Node, end: End, rest: usize) -> Result<Bytes, NoMemory> {
    let net = node.stop.net;
    let mut page = Page::new(sheet.alloc);
    put_verb(&mut page, node.stop.direction);
    put_passage(&mut page, node.passage);
    put_statement(&mut page, sheet.statement(Subject::Net(net)));
    put_end(&mut page, end);
    let numbers = [number_of(sheet.names.nets.number(net)), number_of(rest)];
    page.fill(b"#,#", &numbers);
    page.done()
}

/// Puts a path without its bits.
fn put_outline(page: &mut Page, outline: Option<Outline>) {
    match outline {
        Some(
            Outline {
                shape,
                tick,
                begin,
                wire,
            },
        ) => {
            let numbers = [number_of(shape), tick, begin, i64::from(wire)];
            page.fill(b"#,#,#,#;", &numbers);
        }
        None => page.put(b"none;"),
    }
}

/// Puts the slack of a limit, and the window and the pin that it is of.
fn put_finding(page: &mut Page, of: Limit) {
    let finding = of.least.finding;
    put_slack(page, finding.slack);
    if let Slack::NoNumber(reason) = finding.slack {
        page.put(b" ");
        put_reason(page, reason);
    }
    let is_repeated = matches!(finding.by, By::Repeated);
    let numbers = [
        finding.window.first,
        finding.window.last,
        i64::from(finding.pin),
        i64::from(is_repeated),
    ];
    page.fill(b";#,#,#,#;", &numbers);
}

/// The text of what is equal in the row of a limit, by the outlines of its paths.
pub fn row_text(
    sheet: Sheet,
    of: Limit,
    data: Option<Outline>,
    clock: Option<Outline>,
) -> Result<Bytes, NoMemory> {
    let mut page = Page::new(sheet.alloc);
    put_limit(&mut page, of.parameter);
    page.put(b";");
    put_finding(&mut page, of);
    put_statement(&mut page, sheet.statement(of.parameter.subject));
    put_outline(&mut page, data);
    put_outline(&mut page, clock);
    let numbers = [i64::from(of.after.is_some()), number_of(of.least.cases)];
    page.fill(b"#,#", &numbers);
    page.done()
}
