//! The lines below a picture.

ghost use Rattle.std.specs.Prelude.{◌≡◌, ◌<◌, ◌≤◌, ◌^◌, length};
ghost use Rattle.draw_report.specs.Caption.{AreShort, begins, caption_nodes, line_nodes, part_at, part_length, part_text};
ghost use Rattle.draw_report.specs.Element.{all_written};
ghost use Rattle.draw_report.specs.Paper.{Adds};

use crate::paper::{Paper, Piece};
use scald_base::Bytes;

/// How wide a byte is.
const BYTE: u64 = 72;

/// From one line to the next.
const LINE: u64 = 165;

/// Where the first column stands.
const LEFT: u64 = 60;

/// Whether a part of a line begins at a place: no space is there, and none or two before it.
fn begins(line: &[u8], place: usize) -> bool
    requires { place < length line.now }
    ensures { result ≡ begins line.now place }
{
    line[place] != b' '
        && (place == 0 || (line[place - 1] == b' ' && (place == 1 || line[place - 2] == b' ')))
}

/// How long the part is with which a text begins: up to two spaces, or one at its end.
fn part_length(text: &[u8]) -> usize
    ensures is { result ≡ part_length text.now }
    ensures within { result ≤ length text.now }
{
    for place in 0..text.len() {
        if text[place] == b' ' && (place + 1 == text.len() || text[place + 1] == b' ') {
            return place;
        }
    }
    text.len()
}

/// The part of a line that begins at a place.
fn part_at(line: &[u8], place: usize) -> &[u8]
    requires { place ≤ length line.now }
    ensures { result.now ≡ part_at line.now place }
{
    let rest = &line[place..];
    &rest[..part_length(rest)]
}

/// The part of a line that begins at a place, in its column, if one does.
fn put_part(out: &mut Paper, line: &[u8], y: u64, place: usize)
    requires inside { place < length line.now }
    requires few { length line.now ≤ 2 ^ 32 }
    ensures { Adds out.old out.new (all_written (part_text y line.now place)) }
{
    if begins(line, place) {
        out.put(&[
            Piece::Markup(b"<text x=\""),
            Piece::Number(LEFT + BYTE * place as u64),
            Piece::Markup(b"\" y=\""),
            Piece::Number(y),
            Piece::Markup(b"\">"),
            Piece::Text(part_at(line, place)),
            Piece::Markup(b"</text>\n"),
        ]);
    }
}

/// A line: each part of it without two spaces side by side is a text of its own.
fn put_line(out: &mut Paper, line: &[u8], y: u64)
    requires { length line.now ≤ 2 ^ 32 }
    ensures { Adds out.old out.new (all_written (line_nodes y line.now)) }
{
    for place in 0..line.len() {
        put_part(out, line, y, place);
    }
}

/// Lines, each below the one before it, from a height on.
pub fn put_caption(out: &mut Paper, lines: &[Bytes], top: u64)
    requires few { length lines.now ≤ 65536 }
    requires short { AreShort lines.now }
    requires near { top < 2 ^ 60 }
    ensures { Adds out.old out.new (all_written (caption_nodes top lines.now)) }
{
    let mut y = top;
    for line in lines {
        y += LINE;
        put_line(out, line.as_slice(), y);
    }
}
