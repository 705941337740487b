//! The marks of a picture: what a checker watches, what offends, and the way there. Those of a row
//! are put here.

ghost use Rattle.std.specs.Prelude.{◌≡◌, ◌<◌, ◌≤◌, ◌^◌, length, IfOk};
ghost use Rattle.std.specs.List.{flat_map, list_any};
ghost use Rattle.draw_report.specs.Element.{all_written, written};
ghost use Rattle.draw_report.specs.Mark.{AreOn, area_path, bad_in, counted_length, distance_count, flag_in, flag_number, flags, is_flag, is_within, side_number, window_in, y_of};
ghost use Rattle.draw_report.specs.Paper.{Adds};
ghost use Rattle.draw_report.specs.View.{IsView};

use crate::paper::{Paper, Piece};
use crate::shape::Stroke;
use crate::view::View;
use scald_base::{List, NoMemory};
use std::alloc::Global;
use step_values::Value;

/// How many bytes of a text count for its width.
const MOST_BYTES: usize = 65_536;

/// All ticks of marks are less.
const NEAR: u32 = 1_073_741_824;

/// The most lines of distances.
const MOST_LINES: u32 = 65_536;

/// The most marks of a picture.
const MOST_MARKS: usize = 65_536;

/// The side that a mark belongs to.
#[derive(Clone, Copy, PartialEq, Eq)]
pub enum Side {
    /// The change, or the begin of a pulse.
    Data,
    /// The clock, a mark, or the end of a pulse.
    Clock,
}

impl Side {
    /// Its number in the names of classes.
    pub fn number(self) -> u64
        ensures { result ≡ side_number self }
    {
        match self {
            Side::Data => 0,
            Side::Clock => 1,
        }
    }
}

/// Where a mark stands: a row, from 0, and a tick, counted as the slots of the view are.
#[derive(Clone, Copy)]
pub struct Spot {
    pub row: u32,
    pub tick: u32,
}

/// Slots of a row, from one to another.
#[derive(Clone, Copy)]
pub struct Slots {
    pub row: u32,
    pub from: u32,
    pub to: u32,
}

/// A distance between two ticks, so many lines below the last row, with the number of its text.
#[derive(Clone, Copy)]
pub struct Span {
    pub line: u32,
    pub from: u32,
    pub to: u32,
    pub text: usize,
    pub is_bad: bool,
}

/// A mark. Texts go by their numbers.
#[derive(Clone, Copy)]
pub enum Mark {
    /// Slots in which nothing is to change.
    Window(Slots),
    /// Slots in which something does.
    Bad(Slots),
    /// The number of a fault, at a row, and whether it leads to the picture of the fault, where
    /// that is on the page.
    Flag {
        row: u32,
        number: u32,
        is_link: bool,
    },
    /// The edge of a check, from its clock's row to its data's.
    Edge {
        tick: u32,
        row: u32,
        other: u32,
    },
    /// A change, in the slot that ends at its tick.
    Change {
        at: Spot,
        value: Value,
        side: Side,
    },
    /// From one change to the one that it makes.
    Arrow {
        from: Spot,
        to: Spot,
        side: Side,
    },
    /// What stands beside a change.
    Note {
        at: Spot,
        text: usize,
        side: Side,
    },
    /// A distance.
    Distance(Span),
}

/// How a picture's rows are laid out: how many there are, and how far from one to the next.
#[derive(Clone, Copy)]
pub struct Layout {
    pub rows: u32,
    pub pitch: u16,
}

impl Layout {
    /// The height of a row.
    pub fn y(self, row: u32) -> u64
        ensures is { result ≡ y_of self row }
        ensures low { 130 ≤ result }
        ensures small { result < 2 ^ 49 }
    {
        130 + u64::from(self.pitch) * u64::from(row)
    }
}

/// How many bytes of a text count for its width.
pub fn counted_length(text: &[u8]) -> u64
    ensures is { result ≡ counted_length text.now }
    ensures small { result ≤ 65536 }
{
    text.len().min(MOST_BYTES) as u64
}

/// Slots of a row, as far as the view shows them.
fn put_area(out: &mut Paper, view: View, class: &[u8], slots: Slots)
    requires { IsView view }
    ensures { Adds out.old out.new (all_written (area_path view class.now slots)) }
{
    let from = slots.from.max(view.first);
    let end = slots.to.saturating_add(1).min(view.after_last());
    if from < end {
        out.put(&[
            Piece::Markup(b"<path class=\""),
            Piece::Text(class),
            Piece::Markup(b"\" d=\""),
        ]);
        let stroke = Stroke {
            x: view.x(from),
            width: u64::from(view.scale()) * u64::from(end - from),
            is_single: false,
        };
        stroke.put_area(out);
        out.put(&[Piece::Markup(b"\"/>")]);
    }
}

/// A mark, if it is a window of a row.
fn put_window(out: &mut Paper, view: View, place: u32, mark: Mark)
    requires { IsView view }
    ensures { Adds out.old out.new (all_written (window_in view place mark)) }
{
    if let Mark::Window(slots) = mark {
        if slots.row == place {
            put_area(out, view, b"win", slots);
        }
    }
}

/// The windows of a row.
pub fn put_windows(out: &mut Paper, view: View, marks: &[Mark], place: u32)
    requires { IsView view }
    ensures { Adds out.old out.new (all_written (flat_map (window_in view place) marks.now)) }
{
    for mark in marks {
        put_window(out, view, place, *mark);
    }
}

/// A mark, if it is what offends in a row.
fn put_bad(out: &mut Paper, view: View, place: u32, mark: Mark)
    requires { IsView view }
    ensures { Adds out.old out.new (all_written (bad_in view place mark)) }
{
    if let Mark::Bad(slots) = mark {
        if slots.row == place {
            put_area(out, view, b"bad", slots);
        }
    }
}

/// What offends in a row.
pub fn put_all_bad(out: &mut Paper, view: View, marks: &[Mark], place: u32)
    requires { IsView view }
    ensures { Adds out.old out.new (all_written (flat_map (bad_in view place) marks.now)) }
{
    for mark in marks {
        put_bad(out, view, place, *mark);
    }
}

/// The number of a fault, which leads to its picture if that is on the page.
fn put_number(out: &mut Paper, number: u32, is_link: bool)
    ensures { Adds out.old out.new (written (flag_number number is_link)) }
{
    let number = Piece::Number(u64::from(number));
    if is_link {
        out.put(&[
            Piece::Markup(b"<a href=\"#f"),
            number,
            Piece::Markup(b"\"> "),
            number,
            Piece::Markup(b"</a>"),
        ]);
    } else {
        out.put(&[Piece::Markup(b" "), number]);
    }
}

/// A mark, if it is the number of a fault of a row.
fn put_flag(out: &mut Paper, place: u32, mark: Mark)
    ensures { Adds out.old out.new (all_written (flag_in place mark)) }
{
    if let Mark::Flag {
        row,
        number,
        is_link,
    } = mark
    {
        if row == place {
            put_number(out, number, is_link);
        }
    }
}

/// The numbers of the faults of a row.
fn put_numbers(out: &mut Paper, marks: &[Mark], place: u32)
    ensures { Adds out.old out.new (all_written (flat_map (flag_in place) marks.now)) }
{
    for mark in marks {
        put_flag(out, place, *mark);
    }
}

/// Whether a mark is the number of a fault of a row.
fn is_flag(place: u32, mark: Mark) -> bool
    ensures { result ≡ is_flag place mark }
{
    match mark {
        Mark::Flag { row, .. } => row == place,
        _ => false,
    }
}

/// Whether a row has a fault.
fn has_flag(marks: &[Mark], place: u32) -> bool
    ensures { result ≡ list_any (is_flag place) marks.now }
{
    marks.iter().any(|mark| is_flag(place, *mark))
}

/// The numbers of the faults of a row, if it has some.
pub fn put_flags(out: &mut Paper, view: View, marks: &[Mark], place: u32)
    ensures { Adds out.old out.new (all_written (flags view place marks.now)) }
{
    if has_flag(marks, place) {
        out.put(&[
            Piece::Markup(b"<text class=\"r\" x=\""),
            Piece::Number(view.plot() + 700),
            Piece::Markup(b"\" y=\"160\">fault"),
        ]);
        put_numbers(out, marks, place);
        out.put(&[Piece::Markup(b"</text>")]);
    }
}

/// Whether a mark is on so many rows, at ticks that can be counted.
fn is_within(rows: u32, mark: Mark) -> bool
    ensures { result ≡ is_within rows mark }
{
    match mark {
        Mark::Window(slots) | Mark::Bad(slots) => slots.row < rows && slots.to < NEAR,
        Mark::Flag { row, .. } => row < rows,
        Mark::Edge { tick, row, other } => tick < NEAR && (row < rows && other < rows),
        Mark::Change { at, .. } | Mark::Note { at, .. } => at.tick < NEAR && at.row < rows,
        Mark::Arrow { from, to, .. } => {
            (from.tick < NEAR && from.row < rows) && (to.tick < NEAR && to.row < rows)
        }
        Mark::Distance(span) => (span.from < NEAR && span.to < NEAR) && span.line < MOST_LINES,
    }
}

/// The first 65,536 of the marks that are on so many rows; others are left out.
pub fn marks_on(alloc: Global, marks: &[Mark], rows: u32) -> Result<List<Mark>, NoMemory>
    ensures { IfOk result (λ kept. AreOn rows kept) }
{
    let mut kept = List::new(alloc);
    for mark in marks {
        if kept.len() < MOST_MARKS && is_within(rows, *mark) {
            kept.push(*mark)?;
        }
    }
    Ok(kept)
}

/// How many lines of distances there are.
pub fn distance_count(marks: &[Mark]) -> usize
    ensures is { result ≡ distance_count marks.now }
    ensures within { result ≤ length marks.now }
{
    let mut count = 0;
    for mark in marks {
        if matches!(mark, Mark::Distance(_)) {
            count += 1;
        }
    }
    count
}
