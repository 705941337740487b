//! The marks that stand over the rows.

ghost use Rattle.std.specs.Prelude.{◌≡◌, ◌<◌, ◌≤◌, ◌^◌, true};
ghost use Rattle.std.specs.List.{flat_map, list_all};
ghost use Rattle.draw_report.specs.Element.{all_written};
ghost use Rattle.draw_report.specs.Mark.{arrow_path, change_path, distance, distance_nodes, edge_path, has_line, is_far, is_within, line_class, mark_nodes, note_text, note_y, text_class, text_of};
ghost use Rattle.draw_report.specs.Paper.{Adds};
ghost use Rattle.draw_report.specs.View.{IsView};

use crate::mark::{Layout, Mark, Side, Span, Spot, counted_length};
use crate::paper::{Paper, Piece};
use crate::shape::Stroke;
use crate::view::View;
use scald_base::Bytes;
use step_values::Value;

/// How wide a byte of a label is.
const BYTE: u64 = 72;

/// Whether the line of a tick is in the view.
fn has_line(view: View, tick: u32) -> bool
    requires view { IsView view }
    requires near { tick < 2 ^ 30 }
    ensures { result ≡ has_line view tick }
{
    view.first <= tick + 1 && tick + 1 <= view.after_last()
}

/// The edge of a check, where the view has it.
fn put_edge(out: &mut Paper, view: View, layout: Layout, tick: u32, row: u32, other: u32)
    requires view { IsView view }
    requires near { tick < 2 ^ 30 }
    ensures { Adds out.old out.new (all_written (edge_path view layout tick row other)) }
{
    if has_line(view, tick) {
        out.put(&[
            Piece::Markup(b"<path class=\"edge\" d=\"M"),
            Piece::Number(view.line_x(tick)),
            Piece::Markup(b" "),
            Piece::Number(layout.y(row.min(other)) - 20),
            Piece::Markup(b"V"),
            Piece::Number(layout.y(row.max(other)) + 260),
            Piece::Markup(b"\"/>\n"),
        ]);
    }
}

/// A change.
fn put_change(out: &mut Paper, view: View, layout: Layout, at: Spot, value: Value, side: Side)
    ensures { Adds out.old out.new (all_written (change_path view layout at value side)) }
{
    out.put(&[
        Piece::Markup(b"<path class=\"st"),
        Piece::Number(side.number()),
        Piece::Markup(b"\" transform=\"translate(0 "),
        Piece::Number(layout.y(at.row)),
        Piece::Markup(b")\" d=\""),
    ]);
    let stroke = Stroke {
        x: view.x(at.tick),
        width: u64::from(view.scale()),
        is_single: true,
    };
    stroke.put_shape(out, value);
    out.put(&[Piece::Markup(b"\"/>\n")]);
}

/// An arrow, which leaves a row on the side of the one that it goes to.
fn put_arrow(out: &mut Paper, view: View, layout: Layout, from: Spot, to: Spot, side: Side)
    requires from { from.tick < 2 ^ 30 }
    requires to { to.tick < 2 ^ 30 }
    ensures { Adds out.old out.new (all_written (arrow_path view layout from to side)) }
{
    let (leaves, comes) = if from.row < to.row {
        (200, 25)
    } else {
        (40, 215)
    };
    out.put(&[
        Piece::Markup(b"<path class=\"ar"),
        Piece::Number(side.number()),
        Piece::Markup(b"\" d=\"M"),
        Piece::Number(view.line_x(from.tick)),
        Piece::Markup(b" "),
        Piece::Number(layout.y(from.row) + leaves),
        Piece::Markup(b"L"),
        Piece::Number(view.line_x(to.tick)),
        Piece::Markup(b" "),
        Piece::Number(layout.y(to.row) + comes),
        Piece::Markup(b"\"/>\n"),
    ]);
}

/// The height of what stands beside a change: above its row, or below it.
fn note_y(layout: Layout, at: Spot, side: Side) -> u64
    ensures { result ≡ note_y layout at side }
{
    match side {
        Side::Data => layout.y(at.row) - 25,
        Side::Clock => layout.y(at.row) + 300,
    }
}

/// Whether a text would end too far on the right.
fn is_far(view: View, tick: u32, text: &[u8]) -> bool
    requires { tick < 2 ^ 30 }
    ensures { result ≡ is_far view tick text.now }
{
    view.line_x(tick) + 45 + BYTE * counted_length(text) > view.plot() + 800
}

/// What stands beside a change: to the right, or to the left where there is no room.
fn put_note(out: &mut Paper, view: View, layout: Layout, at: Spot, text: &[u8], side: Side)
    requires { at.tick < 2 ^ 30 }
    ensures { Adds out.old out.new (all_written (note_text view layout at text.now side)) }
{
    let x = view.line_x(at.tick);
    let (class, x): (&[u8], u64) = if is_far(view, at.tick, text) {
        (b"k e", x.saturating_sub(45))
    } else {
        (b"k", x + 45)
    };
    out.put(&[
        Piece::Markup(b"<text class=\""),
        Piece::Markup(class),
        Piece::Markup(b"\" x=\""),
        Piece::Number(x),
        Piece::Markup(b"\" y=\""),
        Piece::Number(note_y(layout, at, side)),
        Piece::Markup(b"\">"),
        Piece::Text(text),
        Piece::Markup(b"</text>\n"),
    ]);
}

/// The class of the line of a distance.
fn line_class(is_bad: bool) -> &'static [u8]
    ensures { result.now ≡ line_class is_bad }
{
    if is_bad {
        b"has".as_slice()
    } else {
        b"dim".as_slice()
    }
}

/// The class of its text.
fn text_class(is_bad: bool) -> &'static [u8]
    ensures { result.now ≡ text_class is_bad }
{
    if is_bad {
        b"k r".as_slice()
    } else {
        b"k".as_slice()
    }
}

/// A line between two places, with bars at its ends and a text right of it.
fn put_bar(out: &mut Paper, is_bad: bool, from: u64, to: u64, y: u64, text: &[u8])
    requires wide { to < 2 ^ 46 }
    requires high { y < 2 ^ 50 }
    requires low { 400 ≤ y }
    ensures { Adds out.old out.new (all_written (distance_nodes is_bad from to y text.now)) }
{
    out.put(&[
        Piece::Markup(b"<path class=\""),
        Piece::Text(line_class(is_bad)),
        Piece::Markup(b"\" d=\"M"),
        Piece::Number(from),
        Piece::Markup(b" "),
        Piece::Number(y),
        Piece::Markup(b"H"),
        Piece::Number(to),
        Piece::Markup(b"M"),
        Piece::Number(from),
        Piece::Markup(b" "),
        Piece::Number(y - 40),
        Piece::Markup(b"v80M"),
        Piece::Number(to),
        Piece::Markup(b" "),
        Piece::Number(y - 40),
        Piece::Markup(b"v80\"/><text class=\""),
        Piece::Text(text_class(is_bad)),
        Piece::Markup(b"\" x=\""),
        Piece::Number(to + 45),
        Piece::Markup(b"\" y=\""),
        Piece::Number(y + 35),
        Piece::Markup(b"\">"),
        Piece::Text(text),
        Piece::Markup(b"</text>\n"),
    ]);
}

/// A distance, with what it is.
fn put_distance(out: &mut Paper, view: View, layout: Layout, span: Span, text: &[u8])
    requires from { span.from < 2 ^ 30 }
    requires to { span.to < 2 ^ 30 }
    requires line { span.line < 65536 }
    ensures { Adds out.old out.new (all_written (distance view layout span text.now)) }
{
    let from = view.line_x(span.from);
    let to = view.line_x(span.to).min(view.plot());
    let last = layout.y(layout.rows.saturating_sub(1));
    put_bar(
        out,
        span.is_bad,
        from,
        to,
        last + 400 + 170 * u64::from(span.line),
        text,
    );
}

/// The text of a number; none past the last.
fn text_of(texts: &[Bytes], number: usize) -> &[u8]
    ensures { result.now ≡ text_of texts.now number }
{
    match texts.get(number) {
        Some(text) => text.as_slice(),
        None => &[],
    }
}

/// A mark that stands over the rows.
fn put_mark(out: &mut Paper, view: View, layout: Layout, texts: &[Bytes], mark: Mark)
    requires view { IsView view }
    requires within { is_within layout.rows mark ≡ true }
    ensures { Adds out.old out.new (all_written (mark_nodes view layout texts.now mark)) }
{
    match mark {
        Mark::Window(_) | Mark::Bad(_) | Mark::Flag { .. } => {}
        Mark::Edge { tick, row, other } => put_edge(out, view, layout, tick, row, other),
        Mark::Change { at, value, side } => put_change(out, view, layout, at, value, side),
        Mark::Arrow { from, to, side } => put_arrow(out, view, layout, from, to, side),
        Mark::Note { at, text, side } => {
            put_note(out, view, layout, at, text_of(texts, text), side);
        }
        Mark::Distance(span) => put_distance(out, view, layout, span, text_of(texts, span.text)),
    }
}

/// The marks that stand over the rows.
pub fn put_marks(out: &mut Paper, view: View, layout: Layout, texts: &[Bytes], marks: &[Mark])
    requires view { IsView view }
    requires within { list_all (is_within layout.rows) marks.now ≡ true }
    ensures { Adds out.old out.new
        (all_written (flat_map (mark_nodes view layout texts.now) marks.now)) }
{
    for mark in marks {
        put_mark(out, view, layout, texts, *mark);
    }
}
