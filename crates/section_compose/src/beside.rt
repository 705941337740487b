//! What is said beside an answer on sections: which global nets cross, which no section drives, and
//! which stand only in the section that drives them. The answer and the status are the same
//! whatever is said here.

ghost use Rattle.std.specs.Prelude.{◌≡◌, ◌≢◌, ◌-◌, [], IfSome, Some, length, map, slice_get};
ghost use Rattle.std.specs.List.{All};
ghost use Rattle.section_compose.specs.Cut.{sections_of};
ghost use Rattle.section_compose.specs.Pieces.{Lies, piece_of};

use crate::cut::{Piece, sections_of};
use crate::globals::{crosses, is_driven, is_driven_in_one, is_global, same_net};
use crate::section::{Section, read_section};
use diagnostics::{Lines, Part, part};
use flat_circuit::{Circuit, Net};
use scald_base::List;
use std::alloc::Global;

/// The most sections of a text, and the most lines of a list.
const MOST: usize = 64;

const MOST_LINES: u64 = 32;

/// How a global net stands among sections.
#[derive(Clone, Copy)]
enum Standing {
    /// One drives it, and it stands in another.
    Crosses,
    /// No section drives it.
    Undriven,
    /// One drives it, and it stands in no other.
    Untaken,
}

/// Where the sections of a text lie; nowhere if memory runs out, or the text is too long.
pub(crate) fn pieces_of(alloc: Global, text: &[u8]) -> List<Piece>
    ensures are { result ≢ [] → map (piece_of text.now) result ≡ sections_of text.now }
    ensures within { All (Lies (length text.now)) result }
{
    if u32::MAX as usize <= text.len() {
        return List::new(alloc);
    }
    match sections_of(alloc, text) {
        Ok(pieces) => pieces,
        Err(_) => List::new(alloc),
    }
}

/// Where a section, counted from 1, lies in a text; `None` if it has no such section, is too long,
/// or memory runs out.
pub fn piece_of_section(alloc: Global, text: &[u8], section: u32) -> Option<Piece>
    ensures is { IfSome result (λ piece.
        slice_get (sections_of text.now) (section - 1) ≡ Some (piece_of text.now piece)) }
    ensures within { IfSome result (Lies (length text.now)) }
{
    let pieces = pieces_of(alloc, text);
    pieces.get((section as usize).checked_sub(1)?).copied()
}

/// The sections at these places; those before the first that is not read.
pub(crate) fn read_sections(alloc: Global, text: &[u8], pieces: &[Piece]) -> List<Section> {
    let mut sections = List::new(alloc);
    for piece in pieces {
        let lines = part(text, piece.from, piece.to);
        if u32::MAX as usize <= lines.len() || MOST <= sections.len() {
            return sections;
        }
        match read_section(alloc, lines) {
            Ok(section) => {
                if sections.push(section).is_err() {
                    return sections;
                }
            }
            Err(_) => return sections,
        }
    }
    sections
}

// ---- nets

/// Whether a section has the net and does not drive it.
fn takes(section: &Section, net: &Net) -> bool {
    match same_net(&section.circuit, net) {
        Some(other) => !is_driven(other),
        None => false,
    }
}

/// Whether a net of a section, before which these stand, is listed.
fn is_listed(standing: Standing, sections: &[Section], before: &[Section], net: &Net) -> bool {
    match standing {
        Standing::Crosses => is_driven(net) && crosses(sections, net),
        Standing::Undriven => {
            is_global(net)
                && !is_driven_in_one(sections, net)
                && !before.iter().any(|section| takes(section, net))
        }
        Standing::Untaken => is_driven(net) && is_global(net) && !crosses(sections, net),
    }
}

/// Whether a net is the next bit of another, and the same sections take both.
fn goes_on(sections: &[Section], net: &Net, next: &Net) -> bool {
    net.name.as_slice() == next.name.as_slice()
        && u32::from(net.bit) + 1 == u32::from(next.bit)
        && sections
            .iter()
            .all(|section| takes(section, net) == takes(section, next))
}

/// The net at a place in name order.
fn net_at(c: &Circuit, place: u32) -> Option<&Net> {
    c.known();
    if place < c.net_count() {
        c.net(c.net_at(place))
    } else {
        None
    }
}

/// The last of the bits that follow the net at a place on its line.
fn last_bit(sections: &[Section], c: &Circuit, place: u32, first: &Net) -> u16 {
    let mut last = first;
    for next in place.saturating_add(1)..c.net_count() {
        match net_at(c, next) {
            Some(net) if goes_on(sections, last, net) => last = net,
            _ => return last.bit,
        }
    }
    last.bit
}

// ---- lines

/// The numbers of the sections that take a net.
fn add_takers(out: &mut Lines, sections: &[Section], net: &Net) {
    let mut is_first = true;
    let mut number: u64 = 0;
    for section in sections {
        number = number.saturating_add(1);
        if takes(section, net) {
            if !is_first {
                out.put(b", ");
            }
            out.add(&[Part::Number(number)]);
            is_first = false;
        }
    }
}

/// The line of some bits of a name, from this net on, in the section of this number.
fn add_bits(
    out: &mut Lines,
    standing: Standing,
    sections: &[Section],
    number: u64,
    first: &Net,
    last: u16,
) {
    out.add(&[
        Part::Text(b"    "),
        Part::Text(first.name.as_slice()),
        Part::Text(b"<"),
        Part::Number(u64::from(first.bit)),
    ]);
    if last != first.bit {
        out.add(&[Part::Text(b":"), Part::Number(u64::from(last))]);
    }
    match standing {
        Standing::Undriven => out.put(b"> in section "),
        _ => out.add(&[Part::Text(b"> from section "), Part::Number(number)]),
    }
    match standing {
        Standing::Crosses => out.put(b" to "),
        _ => {}
    }
    add_takers(out, sections, first);
    out.put(b"\n");
}

/// What stands above a list.
fn heading(standing: Standing) -> &'static [u8] {
    match standing {
        Standing::Crosses =>
            b"scald: global nets that cross, from the section that drives each to those that take it:\n",
        Standing::Undriven =>
            b"scald: global nets that no section drives, so that all that is known of each is what it asserts:\n",
        Standing::Untaken =>
            b"scald: global nets that stand only in the section that drives each:\n",
    }
}

/// The lines of a section after so many others, and how many there are then.
fn add_section(
    out: &mut Lines,
    standing: Standing,
    sections: &[Section],
    before: &[Section],
    c: &Circuit,
    count: u64,
) -> u64 {
    let mut count = count;
    let number = (before.len() as u64).saturating_add(1);
    let mut last: Option<&Net> = None;
    for place in 0..c.net_count() {
        let net = match net_at(c, place) {
            Some(net) if is_listed(standing, sections, before, net) => Some(net),
            _ => None,
        };
        if let Some(net) = net {
            let continues = match last {
                Some(last) => goes_on(sections, last, net),
                None => false,
            };
            if !continues {
                if count == 0 {
                    out.put(heading(standing));
                }
                if count < MOST_LINES {
                    let to = last_bit(sections, c, place, net);
                    add_bits(out, standing, sections, number, net, to);
                }
                count = count.saturating_add(1);
            }
        }
        last = net;
    }
    count
}

/// A list.
fn add_list(out: &mut Lines, standing: Standing, sections: &[Section]) -> u64 {
    let mut count = 0;
    for s in 0..sections.len() {
        count = add_section(
            out,
            standing,
            sections,
            &sections[..s],
            &sections[s].circuit,
            count,
        );
    }
    if MOST_LINES < count {
        out.line(&[
            Part::Text(b"    and "),
            Part::Number(count - MOST_LINES),
            Part::Text(b" more"),
        ]);
    }
    count
}

/// Of a text of sections that break no rule: which global nets cross, from which section to which,
/// which no section drives, and which stand only in the section that drives them. Nothing is said
/// if memory runs out before all sections are read, since a list of some would be false.
pub fn list_crossings(alloc: Global, text: &[u8]) -> Lines {
    let mut out = Lines::new(alloc);
    let pieces = pieces_of(alloc, text);
    let read = read_sections(alloc, text, pieces.as_slice());
    let sections = read.as_slice();
    if pieces.is_empty() || sections.len() < pieces.len() {
        return out;
    }
    if add_list(&mut out, Standing::Crosses, sections) == 0 {
        out.put(b"scald: no net crosses: sections share only nets whose names begin with /\n");
    }
    add_list(&mut out, Standing::Undriven, sections);
    add_list(&mut out, Standing::Untaken, sections);
    out
}
