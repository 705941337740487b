//! The paragraph of a row: the paths, the sum, the launch, what is counted twice, and if it is
//! broken what `decide` can be asked.

use crate::groups::Row;
use crate::page::{Page, number_of};
use crate::path_lines::{Lines, put_path};
use crate::sheet::{Limit, Sheet};
use crate::words::{
    put_bit_name, put_cases, put_limit, put_name, put_names, put_reason, put_slack,
};
use critical_paths::{At, Corner, Part};
use drawing_tree::Drawing;
use slack_rows::{By, Least, Slack, Subject, Word};

/// Puts the first line of a paragraph.
fn put_head(page: &mut Page, sheet: Sheet, number: usize, row: &Row) {
    let Limit {
        parameter,
        least,
        ..
    } = row.first;
    page.fill(b"#. ", &[number_of(number)]);
    put_limit(page, parameter);
    page.put(b" of ");
    put_names(page, sheet, row.limits.as_slice());
    page.fill(b" (line #), slack ", &[sheet.line(parameter.subject)]);
    put_slack(page, least.finding.slack);
    if row.limits.len() > 1 {
        page.put(b", path of ");
        put_bit_name(page, sheet, parameter.subject);
    }
    if sheet.has_cases() {
        page.put(b", case ");
        put_cases(page, sheet, least);
    }
    page.put(b"\n");
}

/// Puts by how much a sum is met.
fn put_amount(page: &mut Page, ticks: i64, corner: Corner) {
    match (ticks, corner) {
        (0.., _) => page.fill(b"# to spare\n", &[ticks]),
        (_, Corner::Late) => page.fill(b"# too late\n", &[opposite(ticks)]),
        (_, Corner::Early) => page.fill(b"# too early\n", &[opposite(ticks)]),
    }
}

/// A number with the other sign.
fn opposite(ticks: i64) -> i64 {
    let zero: i64 = 0;
    zero.saturating_sub(ticks)
}

/// Puts the sum of a limit that is no width: its edge, the data's tick, and the slack.
fn put_sum(page: &mut Page, of: Limit, moved: i64) {
    let finding = of.least.finding;
    let limit = i64::from(of.parameter.limit);
    let corner = of.parameter.word.corner();
    let (edge, sum) = match corner {
        Corner::Late => {
            let edge = finding.window.first.saturating_add(moved);
            (edge, edge.saturating_sub(limit))
        }
        Corner::Early => {
            let edge = finding.window.last.saturating_add(moved);
            (edge, edge.saturating_add(limit).saturating_add(1))
        }
    };
    let text: &[u8] = match of.parameter.word {
        Word::Setup => b"   may change until # - # = #",
        Word::Hold => b"   may change from # + # + 1 = #",
        Word::Before => b"   lets through from #",
        Word::After => b"   lets through to #",
        Word::From => b"   stable from #",
        _ => b"   stable to #",
    };
    page.fill(text, &[edge, limit, sum]);
    page.fill(b", changes at #: ", &[finding.tick.saturating_add(moved)]);
    put_amount(page, finding.slack.ticks(), corner);
}

/// Puts how many ticks before the edge the data is launched.
fn put_launch(page: &mut Page, word: Word, ago: i64) {
    match ago {
        0 => page.put(b"   launched by"),
        1.. => page.fill(b"   launched # ticks before", &[ago]),
        _ => page.fill(b"   launched # ticks after", &[opposite(ago)]),
    }
    page.put(match word {
        Word::Before => b" the edge that opens the gate\n".as_slice(),
        Word::After => b" the edge that shuts the gate\n".as_slice(),
        _ => b" the edge of the check\n".as_slice(),
    });
}

/// Puts what is one constant in a run.
fn put_part(page: &mut Page, sheet: Sheet, part: Part) {
    let subject = match part {
        Part::Delay(number) | Part::RiseOf(number) | Part::FallOf(number) => {
            Subject::Instance(number)
        }
        Part::Wire(number, pin) => {
            page.fill(b"the wire to pin # of ", &[i64::from(pin)]);
            Subject::Instance(number)
        }
        Part::Offset(net) => {
            page.put(b"the offset of ");
            Subject::Net(net)
        }
    };
    put_name(page, sheet, subject);
}

/// Puts what both paths take from one constant.
fn put_twice(page: &mut Page, sheet: Sheet, slack: i64, data: At, clock: At) {
    let Ok(parts) = sheet.counted_twice(data, clock) else {
        return page.lose();
    };
    if parts.is_empty() {
        return;
    }
    let mut total: i64 = 0;
    for counted in parts.as_slice() {
        total = total.saturating_add(i64::from(counted.amount));
    }
    page.fill(b"   counted twice: # ticks (", &[total]);
    for (at, counted) in parts.as_slice().iter().enumerate() {
        page.put(if at > 0 { b", ".as_slice() } else { b"" });
        put_part(page, sheet, counted.part);
        page.fill(b" #", &[i64::from(counted.amount)]);
    }
    page.fill(
        b"); this path alone cannot be below slack #\n",
        &[slack.saturating_add(total)],
    );
}

/// By how many ticks paths are moved, so that the first begins in the first period.
fn moved_by(sheet: Sheet, data: At, clock: Option<At>) -> i64 {
    let mut first = sheet.begin(data);
    if let Some(clock) = clock {
        first = first.min(sheet.begin(clock));
    }
    first.rem_euclid(sheet.period()).saturating_sub(first)
}

/// Puts that one region is on both sides, and by how much it is.
fn put_either(page: &mut Page, before: Least, after: Least) {
    let amounts = [
        opposite(before.finding.slack.ticks()),
        opposite(after.finding.slack.ticks()),
    ];
    let text =
        b"   the change lies on both sides of the edge: earlier by # or later by # would do\n";
    page.fill(text, &amounts);
}

/// Puts what stands beside the sum of a limit.
fn put_beside(page: &mut Page, sheet: Sheet, of: Limit, data: At) {
    let least = of.least;
    let slack = least.finding.slack;
    if let Some(clock) = least.clock {
        if let Some(ago) = sheet.ago(data, clock) {
            put_launch(page, of.parameter.word, ago);
        }
    }
    if let Some(after) = of.after {
        put_either(page, least, after);
    }
    if let Some(clock) = least.clock {
        put_twice(page, sheet, slack.ticks(), data, clock);
    }
    if matches!(slack, Slack::Way(_)) {
        page.put(b"   * the data may change at any tick: broken, whatever its ways come to\n");
    }
}

/// Puts the paths of a limit that is no width, and what they come to.
fn put_paths(page: &mut Page, sheet: Sheet, drawing: &Drawing, of: Limit, data: At) {
    let moved = moved_by(sheet, data, of.least.clock);
    let lines = Lines {
        sheet,
        drawing,
        moved,
        is_pulse: false,
    };
    let (data_words, clock_words): (&[u8], &[u8]) = match of.parameter.word.corner() {
        Corner::Late => (b"   data, last change:\n", b"   clock, earliest:\n"),
        Corner::Early => (b"   data, first change:\n", b"   clock, latest:\n"),
    };
    page.put(data_words);
    put_path(page, lines, data);
    if let Some(clock) = of.least.clock {
        page.put(clock_words);
        put_path(page, lines, clock);
    }
    put_sum(page, of, moved);
    put_beside(page, sheet, of, data)
}

/// Puts the paths of a pulse, and its sum.
fn put_pulse(page: &mut Page, sheet: Sheet, drawing: &Drawing, of: Limit, begin: At, end: At) {
    let moved = moved_by(sheet, begin, Some(end));
    let lines = Lines {
        sheet,
        drawing,
        moved,
        is_pulse: true,
    };
    page.put(b"   begin, latest:\n");
    put_path(page, lines, begin);
    page.put(b"   end, earliest:\n");
    put_path(page, lines, end);
    let window = of.least.finding.window;
    let limit = i64::from(of.parameter.limit);
    let first = window.first.saturating_add(moved);
    let last = window.last.saturating_add(moved);
    let width = last.saturating_sub(first);
    page.fill(
        b"   # - # = # wide, # - # = #",
        &[
            last,
            first,
            width,
            width,
            limit,
            width.saturating_sub(limit),
        ],
    );
    page.put(if matches!(of.least.finding.by, By::Swallowed) {
        b": it may be swallowed\n".as_slice()
    } else {
        b"\n"
    });
}

/// Puts the sum of a pulse that may change more than once.
fn put_repeated(page: &mut Page, of: Limit) {
    let window = of.least.finding.window;
    let limit = i64::from(of.parameter.limit);
    let width = window.last.saturating_sub(window.first);
    page.fill(
        b"   # wide, # - # = #",
        &[width, width, limit, width.saturating_sub(limit)],
    );
    page.put(b": it may change more than once: look at what drives it first\n");
}

/// Puts how many ticks about an edge are quiet.
fn put_quiet(page: &mut Page, corner: Corner, ticks: i64) {
    page.fill(b"   the data does not change for # ticks ", &[ticks]);
    page.put(match corner {
        Corner::Late => b"up to where the clock may rise\n".as_slice(),
        Corner::Early => b"after where the clock may rise\n".as_slice(),
    });
}

/// Puts what of the drawing a row is about as `decide` takes it: a checker with all its limits,
/// but each width of a pulse alone.
fn put_constraint(page: &mut Page, sheet: Sheet, row: &Row) {
    match row.first.parameter.word {
        Word::Setup | Word::Hold => {}
        Word::High | Word::Low => {
            put_limit(page, row.first.parameter);
            page.put(b" of ");
        }
        Word::Gate | Word::Before | Word::After => page.put(b"the mark of "),
        Word::Assert | Word::From | Word::To => page.put(b"the assertion of "),
    }
    put_names(page, sheet, row.limits.as_slice());
}

/// Puts what `decide` can be asked of a broken row. Each bit has a fault there in each of the cases.
fn put_question(page: &mut Page, sheet: Sheet, row: &Row) {
    if !row.first.least.finding.slack.is_broken() {
        return;
    }
    page.put(b"   ask scald decide whether a run");
    if sheet.has_cases() {
        page.put(b" of case ");
        put_cases(page, sheet, row.first.least);
    }
    page.put(b" breaks ");
    put_constraint(page, sheet, row);
    page.put(b"\n");
}

/// Puts the paragraph of a row.
pub fn put_paragraph(page: &mut Page, sheet: Sheet, drawing: &Drawing, number: usize, row: &Row) {
    let of = row.first;
    let Least {
        finding,
        data,
        clock,
        ..
    } = of.least;
    put_head(page, sheet, number, row);
    if let Slack::NoNumber(reason) = finding.slack {
        page.put(b"     ");
        put_reason(page, reason);
        page.put(b"\n");
    }
    match (finding.by, data, clock) {
        (By::Quiet, _, _) => put_quiet(page, of.parameter.word.corner(), finding.slack.ticks()),
        (By::Repeated, _, _) => put_repeated(page, of),
        (By::Pulse | By::Swallowed, Some(begin), Some(end)) => {
            put_pulse(page, sheet, drawing, of, begin, end);
        }
        (_, Some(data), _) => put_paths(page, sheet, drawing, of, data),
        _ => {}
    }
    put_question(page, sheet, row);
}
