//! Pages: what is said of a drawing, and pictures below it.

ghost use Rattle.std.specs.Prelude.{◌≡◌, IfOk};
ghost use Rattle.std.specs.List.{flat_map};
ghost use Rattle.draw_report.specs.Element.{all_written};
ghost use Rattle.draw_report.specs.Page.{front_text, line_nodes, lines_nodes, link_nodes, link_text, numbered, opening_text, page_text, section_text, sections_text};
ghost use Rattle.draw_report.specs.Paper.{Adds};

use crate::paper::{Paper, Piece};
use crate::style::{DEFS, PAGE_STYLE, STYLE};
use scald_base::{Bytes, NoMemory};
use std::alloc::Global;

/// What stands on a page: its title; lines, rows that lead to the pictures of limits, the first to
/// the first, and lines below them; and pictures, which `picture_of` made for a page: of limits,
/// and of cases. If no line stands above, rows and lines below are left out.
#[derive(Clone, Copy)]
pub struct Page<'a> {
    pub title: &'a [u8],
    pub above: &'a [Bytes],
    pub rows: &'a [Bytes],
    pub below: &'a [Bytes],
    pub limits: &'a [Bytes],
    pub cases: &'a [Bytes],
}

/// A line.
fn put_line(out: &mut Paper, line: &[u8])
    ensures { Adds out.old out.new (all_written (line_nodes line.now)) }
{
    out.put(&[Piece::Text(line), Piece::Markup(b"\n")]);
}

/// Lines, one below the other.
fn put_plain(out: &mut Paper, lines: &[Bytes])
    ensures { Adds out.old out.new (all_written (flat_map line_nodes lines.now)) }
{
    for line in lines {
        put_line(out, line.as_slice());
    }
}

/// A line that leads to the picture of the limit of a number.
fn put_link(out: &mut Paper, number: u64, line: &[u8])
    ensures { Adds out.old out.new (link_text number line.now) }
{
    out.put(&[
        Piece::Markup(b"<a href=\"#f"),
        Piece::Number(number),
        Piece::Markup(b"\">"),
        Piece::Text(line),
        Piece::Markup(b"</a>\n"),
    ]);
}

/// Rows, each of which leads to a picture, the first to the first.
fn put_links(out: &mut Paper, rows: &[Bytes])
    ensures { Adds out.old out.new (numbered link_text 1 rows.now) }
{
    let mut number: u64 = 0;
    for row in rows {
        number = number.saturating_add(1);
        put_link(out, number, row.as_slice());
    }
}

/// All lines, if some stand above.
fn put_lines(out: &mut Paper, above: &[Bytes], rows: &[Bytes], below: &[Bytes])
    ensures { Adds out.old out.new (all_written (lines_nodes above.now rows.now below.now)) }
{
    if above.is_empty() {
        return;
    }
    out.put(&[Piece::Markup(b"<pre>")]);
    put_plain(out, above);
    put_links(out, rows);
    put_plain(out, below);
    out.put(&[Piece::Markup(b"</pre>\n")]);
}

/// What stands before a picture, with its number behind a letter.
fn put_opening(out: &mut Paper, letter: &[u8], number: u64)
    ensures { Adds out.old out.new (opening_text letter.now number) }
{
    out.put(&[
        Piece::Markup(b"<section id=\""),
        Piece::Text(letter),
        Piece::Number(number),
        Piece::Markup(b"\">\n"),
    ]);
}

/// A picture, with its number behind a letter.
fn put_section(out: &mut Paper, letter: &[u8], number: u64, picture: &[u8])
    ensures { Adds out.old out.new (section_text letter.now number picture.now) }
{
    put_opening(out, letter, number);
    out.put(&[Piece::Markup(picture), Piece::Markup(b"</section>\n")]);
}

/// Pictures, one below the other.
fn put_sections(out: &mut Paper, letter: &[u8], pictures: &[Bytes])
    ensures { Adds out.old out.new (sections_text letter.now 1 pictures.now) }
{
    let mut number: u64 = 0;
    for picture in pictures {
        number = number.saturating_add(1);
        put_section(out, letter, number, picture.as_slice());
    }
}

/// What stands before the pictures.
fn put_front(out: &mut Paper, page: &Page)
    ensures { Adds out.old out.new (front_text page.now.title.now page.now.above.now
        page.now.rows.now page.now.below.now) }
{
    out.put(&[
        Piece::Markup(b"<html xmlns=\"http://www.w3.org/1999/xhtml\">\n<head>\n<title>"),
        Piece::Text(page.title),
        Piece::Markup(b"</title>\n<style>"),
        Piece::Markup(STYLE),
        Piece::Text(PAGE_STYLE),
        Piece::Markup(b"</style>\n</head>\n<body>\n<svg xmlns=\"http://www.w3.org/2000/svg\""),
        Piece::Markup(b" width=\"0\" height=\"0\">"),
        Piece::Markup(DEFS),
        Piece::Markup(b"</svg>\n<h1>"),
        Piece::Text(page.title),
        Piece::Markup(b"</h1>\n"),
    ]);
    put_lines(out, page.above, page.rows, page.below);
}

/// A page of pictures: a document of XML if each of them is the picture of a sketch.
pub fn page_of(alloc: Global, page: &Page) -> Result<Bytes, NoMemory>
    ensures { IfOk result (λ bytes. bytes
        ≡ page_text page.now.title.now page.now.above.now page.now.rows.now page.now.below.now
        page.now.limits.now page.now.cases.now) }
{
    let mut out = Paper::new(alloc);
    put_front(&mut out, page);
    put_sections(&mut out, b"f", page.limits);
    put_sections(&mut out, b"k", page.cases);
    out.put(&[Piece::Markup(b"</body>\n</html>\n")]);
    out.done()
}
