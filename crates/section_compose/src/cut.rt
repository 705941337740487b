//! The sections of a text, cut at its lines that are exactly `=====`.

ghost use Rattle.std.specs.Prelude.{◌≡◌, ◌∷◌, ◌+◌, ◌-◌, ◌^◌, ◌<◌, ◌≤◌, IfOk, drop, length, map};
ghost use Rattle.std.specs.List.{All};
ghost use Rattle.section_compose.specs.Cut.{is_separator, lines, sections_of};
ghost use Rattle.section_compose.specs.Pieces.{Lies, bytes_from, piece_of};

use scald_base::{List, NoMemory};
use std::alloc::Global;

/// Where a section lies in its text: from one byte up to and without another.
#[derive(Clone, Copy, PartialEq, Eq, Debug)]
pub struct Piece {
    pub from: usize,
    pub to: usize,
}

/// The place after the line that begins here: after its byte 10, or the end of the text.
fn line_end(text: &[u8], from: usize) -> usize
    requires { from < length text.now }
    ensures is { lines (drop from text.now)
        ≡ bytes_from text.now from result ∷ lines (drop result text.now) }
    ensures further { from < result }
    ensures within { result ≤ length text.now }
{
    let mut at = from;
    'bytes: while at < text.len() {
        let byte = text[at];
        at += 1;
        if byte == b'\n' {
            return at;
        }
    }
    at
}

/// Whether a line, with the byte 10 that ends it if there is one, is one that ends a section.
fn is_separator(line: &[u8]) -> bool
    ensures { result ≡ is_separator line.now }
{
    line == b"=====\n".as_slice() || line == b"=====".as_slice()
}

/// Where the sections of a text lie, in their order. There is one at least. `NoMemory` comes if
/// memory runs out.
pub fn sections_of(alloc: Global, text: &[u8]) -> Result<List<Piece>, NoMemory>
    requires { length text.now < 2 ^ 32 - 1 }
    ensures are { IfOk result (λ pieces. map (piece_of text.now) pieces ≡ sections_of text.now) }
    ensures within { IfOk result (All (Lies (length text.now))) }
    ensures few { IfOk result (λ pieces. length pieces ≤ length text.now + 1) }
{
    let mut pieces = List::new(alloc);
    let mut from = 0;
    let mut at = 0;
    'lines: while at < text.len() {
        let end = line_end(text, at);
        if is_separator(&text[at..end]) {
            pieces.push(Piece { from, to: at })?;
            from = end;
        }
        at = end;
    }
    pieces.push(Piece {
        from,
        to: text.len(),
    })?;
    Ok(pieces)
}
