//! Statements, by their tokens.

use crate::text::Text;
use scald_lex::TokenKind;

/// The most tokens of a statement that are looked at.
pub const MOST_TOKENS: usize = 256;

/// The tokens from one number up to another.
#[derive(Clone, Copy)]
pub struct Span {
    pub from: usize,
    pub to: usize,
}

impl Span {
    /// Whether there are none.
    pub fn is_empty(&self) -> bool {
        self.to <= self.from
    }
}

/// A use, or the head of a macro: the number of its kind or name, and what stands in its brackets.
#[derive(Clone, Copy)]
pub struct Use {
    pub kind: usize,
    pub delay: Span,
    pub given: Span,
    pub inputs: Span,
    pub outputs: Span,
}

impl Text<'_> {
    /// Whether a statement begins after a token.
    pub fn ends_statement(&self, i: usize) -> bool {
        self.symbol(i) == b';' || self.is_any(i, &[b"THEN", b"DO", b"ELSE"])
    }

    /// The first token of the statement of a token.
    pub fn start_of(&self, i: usize) -> usize {
        for j in (0..i).rev() {
            if self.ends_statement(j) {
                return j + 1;
            }
        }
        0
    }

    /// The `;` of the statement of a token, or the end.
    pub fn end_of(&self, i: usize) -> usize {
        for j in i..self.tokens.len() {
            if self.symbol(j) == b';' {
                return j;
            }
        }
        self.tokens.len()
    }

    /// Whether a macro or the drawing begins with a token.
    pub fn is_head(&self, i: usize) -> bool {
        self.is_any(i, &[b"MACRO", b"DRAWING"])
    }

    /// The MACRO or the DRAWING that a token is in, or 0.
    pub fn head_of(&self, i: usize) -> usize {
        for j in (0..i).rev() {
            if self.is_head(j) {
                return j;
            }
        }
        0
    }

    /// The tokens of the macro or the drawing of a name, or all if its base is global.
    pub fn scope_of(&self, i: usize) -> Span {
        let all = self.tokens.len();
        let from = self.head_of(i);
        if self.base(i).first() == Some(&b'/') {
            return Span { from: 0, to: all };
        }
        for to in from.saturating_add(1)..all {
            if self.is_head(to) {
                return Span { from, to };
            }
        }
        Span { from, to: all }
    }

    /// Whether a token begins a statement or a macro that an END ends.
    pub fn opens(&self, i: usize) -> bool {
        self.is_head(i)
            || self.is(i, b"IF")
            || self.is(i, b"FOR") && self.symbol(i.saturating_add(1)) != b':'
    }

    /// The last token before another that an END should have ended, and has not.
    pub fn open_before(&self, i: usize) -> Option<usize> {
        let mut ends: usize = 0;
        for j in (0..i).rev() {
            if self.is(j, b"END") {
                ends = ends.saturating_add(1);
            } else if self.opens(j) {
                if ends == 0 {
                    return Some(j);
                }
                ends = ends.saturating_sub(1);
            }
        }
        None
    }

    /// The head of the macro of this name.
    pub fn macro_named(&self, name: &[u8]) -> Option<usize> {
        for i in 1..self.tokens.len() {
            if self.is(i - 1, b"MACRO") && self.is(i, name) {
                return Some(i - 1);
            }
        }
        None
    }

    /// Whether a bracket opens with a token.
    fn opens_bracket(&self, i: usize) -> bool {
        matches!(self.symbol(i), b'(' | b'[' | b'{')
    }

    /// Whether a bracket closes with a token.
    fn closes_bracket(&self, i: usize) -> bool {
        self.is_any(i, &[b")", b"]", b"}"])
    }

    /// The last bracket before a token, of the same statement, that is open there.
    pub fn bracket_before(&self, i: usize) -> Option<usize> {
        let mut closed: usize = 0;
        for j in (self.start_of(i)..i).rev() {
            if self.closes_bracket(j) {
                closed = closed.saturating_add(1);
            } else if self.opens_bracket(j) {
                if closed == 0 {
                    return Some(j);
                }
                closed = closed.saturating_sub(1);
            }
        }
        None
    }

    /// What stands in brackets of a kind that open at a token, and the token after them; nothing
    /// if none open.
    fn group(&self, i: usize, open: u8) -> (Span, usize) {
        let mut depth: usize = 0;
        for to in i..self.tokens.len() {
            if self.opens_bracket(to) {
                depth = depth.saturating_add(1);
            } else if self.closes_bracket(to) {
                depth = depth.saturating_sub(1);
            }
            if self.symbol(i) != open {
                break;
            }
            if depth == 0 {
                let from = i.saturating_add(1);
                return (Span { from, to }, to + 1);
            }
        }
        (Span { from: i, to: i }, i)
    }

    /// The use with this label, or the head of a macro if the token before MACRO is given.
    pub fn use_at(&self, label: usize) -> Use {
        let kind = label.saturating_add(2);
        let (delay, next) = self.group(kind.saturating_add(1), b'[');
        let (given, next) = self.group(next, b'{');
        let (inputs, next) = self.group(next, b'(');
        let (outputs, _) = self.group(next.saturating_add(1), b'(');
        Use {
            kind,
            delay,
            given,
            inputs,
            outputs,
        }
    }

    /// How many items there are, with a comma between two.
    pub fn count(&self, list: Span) -> u64 {
        let mut count: u64 = if list.is_empty() { 0 } else { 1 };
        for j in list.from..list.to {
            if self.symbol(j) == b',' {
                count = count.saturating_add(1);
            }
        }
        count
    }

    /// The first item of a list, and those after its comma.
    pub fn split(&self, list: Span) -> (Span, Span) {
        let Span { from, to } = list;
        for j in from..to {
            if self.symbol(j) == b',' {
                return (Span { from, to: j }, Span { from: j + 1, to });
            }
        }
        (list, Span { from: to, to })
    }

    /// The two numbers of an item that is `a:b` in digits alone.
    pub fn pair(&self, item: Span) -> Option<(u64, u64)> {
        let colon = item.from.saturating_add(1);
        if item.to != item.from.saturating_add(3) || self.symbol(colon) != b':' {
            return None;
        }
        Some((
            self.number(item.from)?,
            self.number(colon.saturating_add(1))?,
        ))
    }

    /// Whether a token is a parameter that gets a value.
    pub fn is_given(&self, i: usize) -> bool {
        let before = i.saturating_sub(1);
        self.is_word(i)
            && self.symbol(i.saturating_add(1)) == b'='
            && matches!(self.symbol(before), b'{' | b',')
    }

    /// The head of the macro that a token is in; nothing in the drawing.
    pub fn macro_head(&self, i: usize) -> Span {
        let from = self.head_of(i);
        if self.is(from, b"MACRO") {
            let to = self.end_of(from);
            Span { from, to }
        } else {
            Span { from, to: from }
        }
    }

    /// The formal in the head of a macro that has the base of a name.
    pub fn formal(&self, head: Span, i: usize) -> Option<usize> {
        for j in head.from..head.to {
            if self.is_name(j) && self.base(j) == self.base(i) {
                return Some(j);
            }
        }
        None
    }

    /// The first and the last bit of a range that is written in digits, and 0 if no range begins
    /// at a token.
    fn range(&self, i: usize) -> Option<(u64, u64)> {
        let from = i.saturating_add(1);
        let to = from.saturating_add(3);
        if self.symbol(i) != b'<' {
            return Some((0, 0));
        }
        if self.symbol(to) == b'>' {
            return self.pair(Span { from, to });
        }
        match self.number(from) {
            Some(bit) if self.symbol(from.saturating_add(1)) == b'>' => Some((bit, bit)),
            _ => None,
        }
    }

    /// The first and the last bit of a name in a macro with this head, if they are written in
    /// digits or go without saying.
    pub fn bits(&self, head: Span, i: usize) -> Option<(u64, u64)> {
        let next = i.saturating_add(1);
        if self.symbol(next) == b'<' {
            return self.range(next);
        }
        self.range(self.formal(head, i).unwrap_or(i).saturating_add(1))
    }
}
