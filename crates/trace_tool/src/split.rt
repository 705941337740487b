//! A text, cut into lines, and where a trace in it ends.

ghost use Rattle.std.specs.Prelude.{◌≡◌, [], MatchOption};
ghost use Rattle.trace_tool.specs.Reading.{HasNoTrace, HasTrace};
ghost use Rattle.trace_tool.specs.Scan.{StartsWith, lines_of};

/// The first line of a text, without the byte 10 that ends it, and what follows it; `None` exactly
/// if no line ends.
pub(crate) fn next_line(text: &[u8]) -> Option<(&[u8], &[u8])>
    ensures { MatchOption result (lines_of text.now ≡ [])
        (λ p. StartsWith text.now p.0.now p.1.now) }
{
    for (at, byte) in text.iter().enumerate() {
        if *byte == b'\n' {
            return Some((&text[..at], &text[at + 1..]));
        }
    }
    None
}

/// The lines of the trace with which a text begins, and the drawing that follows them; `None`
/// exactly if no line of the text ends a trace.
pub fn split_trace(text: &[u8]) -> Option<(&[u8], &[u8])>
    ensures { MatchOption result (HasNoTrace text.now)
        (λ p. HasTrace text.now (lines_of p.0.now) p.1.now) }
{
    let mut rest = text;
    'lines: while let Some((line, after)) = next_line(rest) {
        if line == b"END TRACE".as_slice() {
            return Some((&text[..text.len() - after.len()], after));
        }
        rest = after;
    }
    None
}
