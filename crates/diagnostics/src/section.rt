//! What is said of a section of a text, and of what a drawing leaves out.

use crate::lines::Lines;
use crate::lines::Part::Number;
use crate::text::part;
use std::alloc::Global;

/// How many lines end in these bytes.
pub fn newlines(bytes: &[u8]) -> usize {
    bytes.iter().filter(|byte| **byte == b'\n').count()
}

/// Which section it is, counted from 1, and on which line of the text it begins.
pub fn add_section(out: &mut Lines, text: &[u8], from: usize, section: u32) {
    let line = (newlines(part(text, 0, from)) as u64).saturating_add(1);
    out.fill(
        b"scald: section %, which begins at line % of the text: ",
        &[Number(u64::from(section)), Number(line)],
    );
}

/// Of a section that is refused, counted from 1, which begins at a byte of the text and has these
/// lines: which it is, and that nothing stands in it if nothing does.
pub fn explain_section(
    alloc: Global,
    text: &[u8],
    from: usize,
    lines: &[u8],
    section: u32,
) -> Lines {
    let mut out = Lines::new(alloc);
    add_section(&mut out, text, from, section);
    out.put(b"places count from there\n");
    if lines.is_empty() {
        out.note(
            b"nothing stands in it: a line ===== stands between two sections, and not before or after all",
        );
    }
    out
}

/// How many nets have neither a driver nor an assertion, and are set by no case; nothing if there
/// are none.
pub fn explain_undriven(alloc: Global, count: u32) -> Lines {
    let mut out = Lines::new(alloc);
    let sentence: &[u8] = match count {
        0 => return out,
        1 =>
            b"scald: % net has neither a driver nor an assertion, and no case sets it: it is STABLE in the report\n",
        _ => {
            b"scald: % nets have neither a driver nor an assertion, and no case sets them: they are STABLE in the report\n"
        }
    };
    out.fill(sentence, &[Number(u64::from(count))]);
    out
}

/// How many notes there are, and which word lists them; nothing if there are none.
pub fn explain_notes(alloc: Global, count: usize) -> Lines {
    let mut out = Lines::new(alloc);
    let sentence: &[u8] = match count {
        0 => return out,
        1 => b"scald: % note: scald notes\n",
        _ => b"scald: % notes: scald notes\n",
    };
    out.fill(sentence, &[Number(count as u64)]);
    out
}
