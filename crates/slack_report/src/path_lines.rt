//! The lines of a path: from where it begins to the change that it explains.

ghost use Rattle.std.specs.Prelude.{◌<◌, length};

use crate::page::{Page, columns};
use crate::sheet::Sheet;
use crate::words::{name_width, put_name, put_verb};
use assertion_syntax::write_name;
use critical_paths::{At, End, Node, Passage, Step, Word};
use drawing_places::spot_of;
use drawing_tree::Drawing;
use flat_circuit::{Instance, Target};
use scald_base::{AssertSpec, Bytes, NoMemory};
use slack_rows::Subject;

/// The width of a verb, with the space before it.
const VERB: usize = 8;

/// What stands before the name of a change that cuts another one short.
const CUT: &'static [u8] = b"cut by ";

/// What is the same for all lines of a path: by how many ticks they are moved, and whether it is an
/// end of a pulse.
#[derive(Clone, Copy)]
pub struct Lines<'a> {
    pub sheet: Sheet<'a>,
    pub drawing: &'a Drawing,
    pub moved: i64,
    pub is_pulse: bool,
}

/// A line of a path: its step, whether it cuts off the one after it, whether it is the first, and
/// how wide names are.
#[derive(Clone, Copy)]
struct Line {
    step: Step,
    is_cutter: bool,
    is_first: bool,
    width: usize,
}

/// What a passage takes.
fn ticks_of(passage: Option<Passage>) -> Option<i64> {
    match passage {
        Some(passage) => Some(passage.ticks()),
        None => None,
    }
}

/// Whether a step is in the line of the one before it, which cuts it short.
fn is_cut(step: Step, is_first: bool) -> bool {
    !is_first && matches!(step.passage, Some(Passage::Cut(_)))
}

/// How wide the names of links are at most; steps come from the last one back.
fn widest(sheet: Sheet, steps: &[Step]) -> usize {
    let mut width = 0;
    let mut is_cutter = false;
    for (at, step) in steps.iter().enumerate() {
        let is_first = at.saturating_add(1) == steps.len();
        let cut = if is_cutter { CUT.len() } else { 0 };
        is_cutter = is_cut(*step, is_first);
        if !is_cutter {
            width = width.max(name_width(sheet, step.net).saturating_add(cut));
        }
    }
    width
}

/// Puts a number that fills so many columns, from the right, after a mark.
fn put_right(page: &mut Page, width: usize, mark: &[u8], number: i64) {
    page.spaces(
        width
            .saturating_sub(columns(number))
            .saturating_sub(mark.len()),
    );
    page.put(mark);
    page.number(number);
}

/// Puts the tick and what it takes, in their columns.
fn put_tick(page: &mut Page, tick: i64, took: Option<i64>) {
    put_right(page, 12, b"", tick);
    page.put(b" ");
    match took {
        None => page.spaces(6),
        Some(ticks) => put_right(page, 6, b"+", ticks),
    }
    page.put(b"  ");
}

/// Puts an element: its name, its kind, its delays and its line.
fn put_element(page: &mut Page, sheet: Sheet, number: u32, element: &Instance) {
    put_name(page, sheet, Subject::Instance(number));
    page.put(b" ");
    page.put(element.kind.name());
    let delay = match element.split {
        Some(split) => split.rise,
        None => element.delay,
    };
    page.fill(b" [#:#", &[i64::from(delay.min), i64::from(delay.max)]);
    if let Some(split) = element.split {
        page.fill(
            b", #:#",
            &[i64::from(split.fall.min), i64::from(split.fall.max)],
        );
    }
    page.fill(b"] line #", &[i64::from(element.place.line)]);
}

/// Puts how a link's tick comes, if that is more than by the bounds.
fn put_word(page: &mut Page, sheet: Sheet, element: &Instance, pin: u16, word: Word) {
    match word {
        Word::Tight => {}
        Word::Loose => page.put(b", loose"),
        Word::Inside => page.put(b", inside"),
        Word::Same if element.delay.min == element.delay.max => {}
        Word::Same => page.put(b", the same at both ends"),
        Word::Bounded(going) => {
            page.fill(b", bounded by pin # (", &[i64::from(pin)]);
            if let Some(Target::Net(net)) = element.pins.get(going as usize).map(|pin| pin.target) {
                put_name(page, sheet, Subject::Net(net));
            }
            page.put(b" goes on changing)");
        }
    }
}

/// Puts what an element does in a link.
fn put_passage(page: &mut Page, sheet: Sheet, net: u32, passage: Passage) {
    let Some(number) = sheet.element(Subject::Net(net)) else {
        return;
    };
    let Some(element) = sheet.circuit.instance(number) else {
        return;
    };
    put_element(page, sheet, number, element);
    if let Passage::Through {
        pin,
        wire,
        word,
        ..
    } = passage
    {
        if wire > 0 {
            page.fill(b", wire #", &[i64::from(wire)]);
        }
        put_word(page, sheet, element, pin, word);
    }
}

/// Puts the name of a net as it stands in the drawing, and its line.
fn put_spot(page: &mut Page, lines: Lines, text: &[u8], spec: &AssertSpec) {
    let alloc = lines.sheet.alloc;
    let spot = match spot_of(alloc, lines.drawing, text, spec) {
        Ok(Some(spot)) => spot,
        Ok(None) => return page.put(b"by its name"),
        Err(NoMemory) => return page.lose(),
    };
    let mut name = Bytes::new(alloc);
    if write_name(alloc, spot.name, &mut name).is_err() {
        page.lose();
    }
    page.put(b"\"");
    page.put(name.as_slice());
    page.fill(b"\" line #", &[i64::from(spot.place.line)]);
}

/// Puts where a net that nothing drives has its changes from, and by how many ticks an edge is off
/// the ideal one.
fn put_source(page: &mut Page, lines: Lines, begin: i64, step: Step) {
    let Some(net) = lines.sheet.circuit.net(step.net) else {
        return;
    };
    let spec = net.spec.or(&AssertSpec::None);
    if matches!(spec, AssertSpec::None) {
        return page.put(b"not driven");
    }
    put_spot(page, lines, net.name.as_slice(), spec);
    let skew = step.tick.saturating_sub(begin);
    if skew != 0 {
        let text: &[u8] = if skew < 0 { b", # #" } else { b", # +#" };
        page.fill(text, &[begin.saturating_add(lines.moved), skew]);
        page.put(b" of its skew");
        if lines.is_pulse && matches!(spec, AssertSpec::Precision(_)) {
            page.put(b", the same at both ends");
        }
    }
}

/// What a loop takes that a way ends with: from its begin to the same change again.
fn loop_ticks(way: &[Node]) -> i64 {
    let begin = match way.last() {
        Some(last) => way.len().saturating_sub(last.count),
        None => 0,
    };
    let mut ticks: i64 = 0;
    for (place, node) in way.iter().enumerate() {
        if begin <= place && place.saturating_add(1) < way.len() {
            ticks = ticks.saturating_add(ticks_of(node.passage).unwrap_or(0));
        }
    }
    ticks
}

/// Puts how a loop goes round: in how many ticks.
fn put_loop(page: &mut Page, sheet: Sheet, path: At) {
    let Ok(way) = sheet.way(path) else {
        return page.lose();
    };
    let ticks = loop_ticks(way.as_slice());
    let periods = ticks / sheet.period();
    page.fill(b"as below: a loop of # ticks, # periods", &[ticks, periods]);
}

/// Puts how a path begins, after its first net.
fn put_begin(page: &mut Page, lines: Lines, path: At, step: Step) {
    let Some(node) = lines.sheet.node(path.node) else {
        return;
    };
    match node.end {
        End::Edge | End::Source => put_source(page, lines, lines.sheet.begin(path), step),
        End::Loop => put_loop(page, lines.sheet, path),
        End::Nothing => page.put(b"with no pin that changes (levels, or set and reset both)"),
    }
}

/// Puts what changes, in its columns.
fn put_event(page: &mut Page, sheet: Sheet, line: Line) {
    let begin = page.len();
    if line.is_cutter {
        page.put(CUT);
    }
    put_name(page, sheet, Subject::Net(line.step.net));
    page.put(b" ");
    put_verb(page, line.step.direction);
    let wide = line.width.saturating_add(VERB).saturating_add(1);
    page.spaces(wide.saturating_sub(page.len().saturating_sub(begin)));
}

/// Puts the line of a link: the tick, what it took, the event, and where it comes from.
fn put_link(page: &mut Page, lines: Lines, path: At, line: Line) {
    let step = line.step;
    let passage = if line.is_first { None } else { step.passage };
    let tick = step.tick.saturating_add(lines.moved);
    put_tick(page, tick, ticks_of(passage));
    put_event(page, lines.sheet, line);
    match passage {
        Some(passage) => put_passage(page, lines.sheet, step.net, passage),
        None => put_begin(page, lines, path, step),
    }
    page.put(b"\n");
}

/// Puts the line of a step, if it is not in that of the one that cuts it.
fn put_step(page: &mut Page, lines: Lines, path: At, steps: &[Step], place: usize, width: usize)
    requires { place < length steps.now }
{
    let step = steps[place];
    let is_first = place + 1 == steps.len();
    if is_cut(step, is_first) {
        return;
    }
    let is_cutter = place > 0 && is_cut(steps[place - 1], false);
    let line = Line {
        step,
        is_cutter,
        is_first,
        width,
    };
    put_link(page, lines, path, line);
}

/// Puts the lines of steps, the first one first; they come from the last one back.
fn put_steps(page: &mut Page, lines: Lines, path: At, steps: &[Step]) {
    let width = widest(lines.sheet, steps);
    for after in 0..steps.len() {
        put_step(page, lines, path, steps, steps.len() - 1 - after, width);
    }
}

/// Puts the lines of a path.
pub fn put_path(page: &mut Page, lines: Lines, path: At) {
    match lines.sheet.steps(path) {
        Ok(steps) => put_steps(page, lines, path, steps.as_slice()),
        Err(NoMemory) => page.lose(),
    }
    if path.wire > 0 {
        let wire = i64::from(path.wire);
        let tick = path.tick.saturating_add(wire).saturating_add(lines.moved);
        put_tick(page, tick, Some(wire));
        page.put(b"at the pin, by its wire\n");
    }
}
