//! Whole pictures.

ghost use Rattle.std.specs.Prelude.{◌≡◌, ◌<◌, ◌≤◌, ◌^◌, length, IfOk, IfSome};
ghost use Rattle.draw_report.specs.Caption.{AreShort};
ghost use Rattle.draw_report.specs.Element.{all_written};
ghost use Rattle.draw_report.specs.Mark.{counted_length};
ghost use Rattle.draw_report.specs.Paper.{Adds};
ghost use Rattle.draw_report.specs.Xml.{IsDocument};
ghost use Rattle.draw_report.specs.Picture.{IsSketch, frame_of, grid_height, head_text, label_room, layout_of, longest, looks, picture, plotted, room_in, sketched, tail_text};

use crate::caption::put_caption;
use crate::grid::put_grid;
use crate::label::{LONGEST, shown_length};
use crate::mark::{Layout, counted_length, distance_count};
use crate::over::put_marks;
use crate::paper::{Paper, Piece};
use crate::sketch::Sketch;
use crate::strip::put_rows;
use crate::style::{DEFS, STYLE};
use scald_base::{Bytes, NoMemory};
use skew_algebra::Skewed;
use std::alloc::Global;
use step_values::Value;
use wave_core::CyclicWave;

/// How wide a byte is.
const BYTE: u64 = 72;

/// What stands above the rows.
const HEADER: u64 = 600;

/// From one line below a picture to the next.
const LINE: u64 = 165;

/// How much room the labels take: as many bytes as the longest shows, and no fewer than eight.
fn left(labels: &[Bytes]) -> u64
    ensures is { result ≡ label_room labels.now }
    ensures small { result ≤ 3040 }
{
    let mut longest: usize = 8;
    for label in labels {
        longest = longest.max(shown_length(label.as_slice()));
    }
    BYTE * longest as u64 + 160
}

/// The room for labels of which so many bytes are shown; of no label more than 40 are.
pub fn room_of(longest: usize) -> u64
    ensures { result < 2 ^ 32 }
{
    BYTE * longest.min(LONGEST) as u64 + 160
}

/// The room for labels in a page that has so much, or of a picture alone.
fn room_in(page: Option<u64>, own: u64) -> u64
    requires page { IfSome page (λ room. room < 2 ^ 32) }
    requires own { own < 2 ^ 32 }
    ensures is { result ≡ room_in page own }
    ensures small { result < 2 ^ 32 }
{
    match page {
        Some(room) => room.max(own),
        None => own,
    }
}

/// How many bytes of the longest line above or below count.
fn longest(heading: &[u8], caption: &[Bytes]) -> u64
    ensures is { result ≡ longest (counted_length heading.now) caption.now }
    ensures small { result ≤ 65536 }
{
    let mut longest = counted_length(heading);
    for line in caption {
        longest = longest.max(counted_length(line.as_slice()));
    }
    longest
}

/// How large a picture is, and where its plot begins and ends.
#[derive(Clone, Copy)]
pub struct Frame {
    pub left: u64,
    pub width: u64,
    pub height: u64,
    pub grid: u64,
}

/// The frame of a picture of so many rows.
fn frame_of(sketch: &Sketch, layout: Layout) -> Frame
    requires marks { length sketch.now.marks.now ≤ 65536 }
    requires lines { length sketch.now.caption.now ≤ 65536 }
    requires room { IfSome sketch.now.page (λ room. room < 2 ^ 32) }
    ensures { result ≡ frame_of sketch.now layout }
{
    let left = room_in(sketch.page, left(sketch.labels));
    let grid = layout.y(layout.rows) + 170 * distance_count(sketch.marks) as u64;
    Frame {
        left,
        width: (left + sketch.view.plot() + 1300).max(
            120 + BYTE * longest(sketch.heading, sketch.caption),
        ),
        height: HEADER + grid + 60 + LINE * sketch.caption.len() as u64,
        grid,
    }
}

/// The style, the hatches and the heads of arrows, which a page has once.
fn put_looks(out: &mut Paper, page: Option<u64>)
    ensures { Adds out.old out.new (all_written (looks page)) }
{
    if page.is_none() {
        out.put(&[
            Piece::Markup(b"<style>"),
            Piece::Markup(STYLE),
            Piece::Markup(b"</style>\n"),
            Piece::Markup(DEFS),
            Piece::Markup(b"\n"),
        ]);
    }
}

/// What stands before the plot.
fn put_head(out: &mut Paper, frame: Frame, page: Option<u64>, heading: &[u8])
    ensures { Adds out.old out.new
        (head_text page frame.width frame.height frame.left heading.now) }
{
    let Frame {
        left,
        width,
        height,
        ..
    } = frame;
    out.put(&[
        Piece::Markup(b"<svg xmlns=\"http://www.w3.org/2000/svg\" width=\""),
        Piece::Number(width / 10),
        Piece::Markup(b"\" height=\""),
        Piece::Number(height / 10),
        Piece::Markup(b"\" viewBox=\"0 0 "),
        Piece::Number(width),
        Piece::Markup(b" "),
        Piece::Number(height),
        Piece::Markup(b"\">\n<title>"),
        Piece::Text(heading),
        Piece::Markup(b"</title>\n"),
    ]);
    put_looks(out, page);
    out.put(&[
        Piece::Markup(b"<rect class=\"bg\" width=\""),
        Piece::Number(width),
        Piece::Markup(b"\" height=\""),
        Piece::Number(height),
        Piece::Markup(b"\"/>\n<text class=\"h\" x=\"60\" y=\"190\">"),
        Piece::Text(heading),
        Piece::Markup(b"</text>\n<g transform=\"translate("),
        Piece::Number(left),
        Piece::Markup(b" 600)\">"),
    ]);
}

/// The plot: the grid, the rows, and what stands over them.
fn put_plot<W: CyclicWave<Item = Value>>(
    alloc: Global,
    out: &mut Paper,
    sketch: &Sketch,
    layout: Layout,
    grid: u64,
    waves: &[Skewed<W>],
)
    requires sketch { IsSketch (sketched sketch.now waves.now) }
    requires layout { layout ≡ layout_of (sketched sketch.now waves.now) }
    requires grid { grid ≡ grid_height (sketched sketch.now waves.now) }
    ensures { Adds out.old out.new (all_written (plotted (sketched sketch.now waves.now))) }
{
    out.put(&[Piece::Markup(b"\n")]);
    put_grid(out, sketch.view, grid);
    out.put(&[Piece::Markup(b"\n")]);
    put_rows(alloc, out, sketch, layout, waves);
    put_marks(out, sketch.view, layout, sketch.texts, sketch.marks);
}

/// What stands after the plot.
fn put_tail(out: &mut Paper, caption: &[Bytes], top: u64)
    requires few { length caption.now ≤ 65536 }
    requires short { AreShort caption.now }
    requires near { top < 2 ^ 60 }
    ensures { Adds out.old out.new (tail_text top caption.now) }
{
    out.put(&[Piece::Markup(b"</g>\n")]);
    put_caption(out, caption, top);
    out.put(&[Piece::Markup(b"</svg>\n")]);
}

/// Puts the picture of rows, with a label and a wave for each.
fn put_picture<W: CyclicWave<Item = Value>>(
    alloc: Global,
    out: &mut Paper,
    sketch: &Sketch,
    waves: &[Skewed<W>],
)
    requires { IsSketch (sketched sketch.now waves.now) }
    ensures { Adds out.old out.new (picture (sketched sketch.now waves.now)) }
{
    let layout = Layout {
        rows: waves.len() as u32,
        pitch: sketch.pitch,
    };
    let frame = frame_of(sketch, layout);
    put_head(out, frame, sketch.page, sketch.heading);
    put_plot(alloc, out, sketch, layout, frame.grid, waves);
    put_tail(out, sketch.caption, HEADER + frame.grid);
}

/// The picture of rows, with a label and a wave for each: a document of XML.
pub fn picture_of<W: CyclicWave<Item = Value>>(
    alloc: Global,
    sketch: &Sketch,
    waves: &[Skewed<W>],
) -> Result<Bytes, NoMemory>
    requires { IsSketch (sketched sketch.now waves.now) }
    ensures is { IfOk result (λ bytes. bytes ≡ picture (sketched sketch.now waves.now)) }
    ensures document { IfOk result IsDocument }
{
    let mut out = Paper::new(alloc);
    put_picture(alloc, &mut out, sketch, waves);
    out.done()
}
