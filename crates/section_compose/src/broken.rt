//! What is said of the first rule of sections that is broken: the section, the net and its two
//! places, and what to do. The answer and the status are the same whatever is said here.

use crate::beside::{pieces_of, read_sections};
use crate::cut::Piece;
use crate::globals::{is_driven, same_net};
use crate::rules::{Broken, Rule, first_broken};
use crate::section::Section;
use diagnostics::{Lines, Part, add_section, newlines, part, place_of_name, place_of_word};
use flat_circuit::{Net, is_same_assertion};
use scald_base::{AssertSpec, Place};
use std::alloc::Global;

/// A text of sections, and where each lies in it.
#[derive(Clone, Copy)]
struct SectionText<'a> {
    text: &'a [u8],
    pieces: &'a [Piece],
}

/// What is wrong with a section by itself.
fn header_sentence(rule: Rule) -> &'static [u8] {
    match rule {
        Rule::Case => b"it lists a case, and sections list none\n",
        _ => b"its clock or its skews are not those of section 1\n",
    }
}

/// What the net does, up to the number of the other section.
fn net_sentence(rule: Rule) -> &'static [u8] {
    match rule {
        Rule::Case | Rule::Clock => b"",
        Rule::Assertion => b" does not assert here what it asserts in section ",
        Rule::Drivers => b" is driven here, and in section ",
        Rule::Unasserted => b" asserts nothing, and goes to section ",
        Rule::Delay => b" has a driver that may take no time, and goes to section ",
    }
}

/// What to do.
fn advice(rule: Rule) -> &'static [u8] {
    match rule {
        Rule::Case => b"verify this section with its cases by itself, and leave them out here",
        Rule::Clock => b"write CLOCK, PSKEW and CSKEW alike in all sections",
        Rule::Assertion => b"give it the same assertion in each section where it stands",
        Rule::Drivers => b"one section drives it, and the others take it as it asserts",
        Rule::Unasserted =>
            b"nothing else is known of it there: give it one assertion in each section where it stands",
        Rule::Delay => b"give its driver a least delay of 1 or more",
    }
}

/// Whether a net of the same name is why a rule is broken.
fn clashes(rule: Rule, net: &Net, other: &Net) -> bool {
    match rule {
        Rule::Case | Rule::Clock => false,
        Rule::Assertion => !is_same_assertion(
            net.spec.or(&AssertSpec::None),
            other.spec.or(&AssertSpec::None),
        ),
        Rule::Drivers => is_driven(other),
        Rule::Unasserted | Rule::Delay => !is_driven(other),
    }
}

/// Whether a section has such a net.
fn is_beside(rule: Rule, net: &Net, section: &Section) -> bool {
    match same_net(&section.circuit, net) {
        Some(other) => clashes(rule, net, other),
        None => false,
    }
}

/// The lines of a section, counted from 0, and how many lines of the text stand before it.
fn lines_at<'a>(all: SectionText<'a>, section: usize) -> (&'a [u8], u32) {
    match all.pieces.get(section) {
        Some(piece) => {
            let before = newlines(part(all.text, 0, piece.from));
            (
                part(all.text, piece.from, piece.to),
                before.min(4_194_304) as u32,
            )
        }
        None => (b"", 0),
    }
}

/// A place in a section, by its line in the text, with that line and a mark.
fn add_site(out: &mut Lines, text: &[u8], place: Option<Place>, before: u32) {
    if let Some(place) = place {
        let line = place.line.saturating_add(before);
        out.line(&[
            Part::Text(b" at line "),
            Part::Number(u64::from(line)),
            Part::Text(b" of the text:"),
        ]);
        out.mark(
            text,
            Place {
                line,
                col: place.col,
            },
        );
    } else {
        out.put(b"\n");
    }
}

/// What is said of a section that breaks a rule by itself.
fn add_header(alloc: Global, out: &mut Lines, all: SectionText, rule: Rule, section: usize) {
    let (lines, before) = lines_at(all, section);
    let word: &[u8] = match rule {
        Rule::Case => b"CASE",
        _ => b"CLOCK",
    };
    out.put(header_sentence(rule));
    out.add(&[
        Part::Text(b"    its first "),
        Part::Text(word),
        Part::Text(b" stands"),
    ]);
    add_site(out, all.text, place_of_word(alloc, lines, word), before);
}

/// What is said of a net that breaks a rule in one section beside another, both counted from 0.
fn add_net(
    alloc: Global,
    out: &mut Lines,
    all: SectionText,
    rule: Rule,
    net: &Net,
    section: usize,
    other: usize,
) {
    let number = (other as u64).saturating_add(1);
    out.put(b"the net ");
    out.put(net.name.as_slice());
    out.line(&[
        Part::Text(b"<"),
        Part::Number(u64::from(net.bit)),
        Part::Text(b">"),
        Part::Text(net_sentence(rule)),
        Part::Number(number),
    ]);
    let (lines, before) = lines_at(all, section);
    out.put(b"    here it stands");
    add_site(
        out,
        all.text,
        place_of_name(alloc, lines, net.name.as_slice()),
        before,
    );
    let (lines, before) = lines_at(all, other);
    out.add(&[
        Part::Text(b"    in section "),
        Part::Number(number),
        Part::Text(b" it stands"),
    ]);
    add_site(
        out,
        all.text,
        place_of_name(alloc, lines, net.name.as_slice()),
        before,
    );
}

/// What is said of a rule that is broken.
fn add_broken(
    alloc: Global,
    out: &mut Lines,
    all: SectionText,
    sections: &[Section],
    broken: Broken,
) {
    let section = (broken.section as usize).saturating_sub(1);
    let from = all.pieces.get(section).map_or(0, |piece| piece.from);
    add_section(out, all.text, from, broken.section);
    match broken.rule {
        Rule::Case | Rule::Clock => add_header(alloc, out, all, broken.rule, section),
        rule => {
            if let Some(net) = net_of(sections, section, broken.net) {
                let other = sections
                    .iter()
                    .position(|section| is_beside(rule, net, section));
                let other = other.unwrap_or(section);
                add_net(alloc, out, all, rule, net, section, other);
            }
        }
    }
    out.note(advice(broken.rule));
}

/// The net of a section at a position in name order.
fn net_of(sections: &[Section], section: usize, place: u32) -> Option<&Net> {
    let c = &sections.get(section)?.circuit;
    c.net(c.by_name(place)?)
}

/// Of a text of sections that break a rule: which section and which net, where the net stands in
/// both sections, and what to do.
pub fn explain_broken(alloc: Global, text: &[u8]) -> Lines {
    let mut out = Lines::new(alloc);
    let pieces = pieces_of(alloc, text);
    let read = read_sections(alloc, text, pieces.as_slice());
    let sections = read.as_slice();
    if MOST < sections.len() {
        return out;
    }
    if let Some(broken) = first_broken(sections) {
        let all = SectionText {
            text,
            pieces: pieces.as_slice(),
        };
        add_broken(alloc, &mut out, all, sections, broken);
    }
    out
}

/// The most sections of a text.
const MOST: usize = 64;
