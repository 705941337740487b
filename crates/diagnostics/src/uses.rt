//! What is said of a use: of its kind, its delay, its parameters and how many connections it has.

use crate::lines::Part::{Number, Quoted, Shown};
use crate::lines::{Lines, Part};
use crate::near::{Likeness, Row, is_near, noted};
use crate::statement::{MOST_TOKENS, Span, Use};
use crate::text::Text;
use element_kinds::{Check, KINDS, Kind, kind_named};

/// How kinds of other languages are drawn.
const DRAWN: [Row; 9] = [
    (&[b"NOT", b"INV", b"INVERTER"], INVERTED),
    (&[b"NAND"], b"AND with a - before its output"),
    (&[b"NOR"], b"OR with a - before its output"),
    (&[b"XNOR"], b"XOR with a - before its output"),
    (&[b"DFF", b"FF", b"FLOP", b"REGISTER"], b"REG"),
    (&[b"DLATCH"], b"LATCH"),
    (&[b"BUFFER"], b"BUF"),
    (&[b"MUX"], b"MUX2, MUX4 or MUX8"),
    (&[b"SETUP", b"HOLD"], b"SETUP_HOLD_CHK"),
];

const INVERTED: &[u8] = b"a - before a name, or BUF with a - before its output";

/// The greatest delay and skew, and the greatest of each of two delays.
pub const MOST_DELAY: u64 = 4095;

const MOST_OF_TWO: u64 = 255;

/// The first kind that a word is like.
fn kind_like(word: &[u8]) -> Option<Kind> {
    for kind in KINDS {
        if is_near(word, kind.name()) {
            return Some(kind);
        }
    }
    None
}

/// The first macro that a word is like: the number of its name.
fn macro_like(text: &Text, word: &[u8]) -> Option<usize> {
    for i in 1..text.tokens.len() {
        if text.is(i - 1, b"MACRO") && is_near(word, text.word(i)) {
            return Some(i);
        }
    }
    None
}

/// That another name is meant in place of a word.
fn add_meant(out: &mut Lines, name: &[u8], word: &[u8]) {
    out.tell(b"is % meant in place of %?", &[Shown(name), Quoted(word)]);
}

/// That there is no kind and no macro of this name.
pub fn add_unknown_kind(out: &mut Lines, text: &Text, label: usize) {
    let word = text.word(label.saturating_add(2));
    if let Some(name) = macro_like(text, word) {
        add_meant(out, text.word(name), word);
    } else if let Some(way) = noted(&DRAWN, word) {
        out.tell(b"% is drawn as %", &[Quoted(word), Shown(way)]);
    } else if let Some(kind) = kind_like(word) {
        add_meant(out, kind.name(), word);
    } else {
        out.note(
            b"kinds: BUF, AND, OR, XOR, MUX2, MUX4, MUX8, CHG, REG, REG_RS, LATCH, LATCH_RS, and checkers *_CHK",
        );
    }
}

/// That a number is past its bound.
pub fn add_over(out: &mut Lines, number: u64, most: u64) {
    out.tell(b"% is more than %", &[Number(number), Number(most)]);
}

/// What is wrong with a least and a greatest delay that are written in digits, if the greatest
/// may be so much.
pub fn add_pair(out: &mut Lines, pair: Option<(u64, u64)>, most: u64) {
    match pair {
        Some((a, b)) if b < a => {
            let [least, greatest] = [Number(a), Number(b)];
            out.tell(
                b"the least, %, is more than the greatest, %: is %:% meant?",
                &[least, greatest, greatest, least],
            );
        }
        Some((_, b)) if most < b => add_over(out, b, most),
        _ => {}
    }
}

/// What is wrong with the delay of a use of a kind.
fn add_delay(out: &mut Lines, text: &Text, kind: Kind, delay: Span) {
    let (rise, fall) = text.split(delay);
    let name = [Shown(kind.name())];
    if !kind.has_output() {
        return out.tell(b"% takes no delay", &name);
    }
    if kind.may_split() {
        out.tell(
            b"% takes a delay [a:b], 0 <= a <= b <= 4095, or two, [r:R, f:F], each at most 255",
            &name,
        );
    } else {
        out.tell(b"% takes one delay [a:b], 0 <= a <= b <= 4095", &name);
    }
    if delay.is_empty() {
        out.tell(
            b"here it has none: it stands after the kind, as in % [20:60]",
            &name,
        );
    } else if fall.is_empty() {
        add_pair(out, text.pair(rise), MOST_DELAY);
    } else {
        add_pair(out, text.pair(rise), MOST_OF_TWO);
        add_pair(out, text.pair(fall), MOST_OF_TWO);
    }
}

/// Where a list gives a parameter of this name.
fn given(text: &Text, list: Span, name: &[u8]) -> Option<usize> {
    (list.from..list.to).find(|j| text.is(*j, name) && text.is_given(*j))
}

/// The number that a list gives a limit, and 0 if it gives none in digits.
fn limit_of(text: &Text, list: Span, name: &[u8]) -> u64 {
    let equals = given(text, list, name).unwrap_or(list.to);
    text.number(equals.saturating_add(2)).unwrap_or(0)
}

/// That a limit is past the period.
fn add_limit(out: &mut Lines, text: &Text, what: &[u8], limit: u64) {
    let [units, ticks] = [text.number(4), text.number(6)];
    let period = units.unwrap_or(0).saturating_mul(ticks.unwrap_or(0));
    if period < limit {
        out.tell(
            b"% %, and the period has % ticks",
            &[Shown(what), Number(limit), Number(period)],
        );
    }
}

/// What is wrong with the limits of a checker.
fn add_limits(out: &mut Lines, text: &Text, check: Check, list: Span) {
    match check {
        Check::MinPulse => {
            out.note(b"HIGH and LOW are 0 or more, and each is at most the period");
            add_limit(out, text, b"HIGH is", limit_of(text, list, b"HIGH"));
            add_limit(out, text, b"LOW is", limit_of(text, list, b"LOW"));
        }
        Check::SetupHold | Check::RiseFall => {
            out.note(b"SETUP and HOLD are 0 or more, and together at most the period");
            let sum = limit_of(text, list, b"SETUP").saturating_add(limit_of(text, list, b"HOLD"));
            add_limit(out, text, b"SETUP and HOLD together are", sum);
        }
    }
}

/// What is wrong with a delay, with limits or with the bounds of a wire.
pub fn add_bounds(out: &mut Lines, text: &Text, start: usize) {
    if text.is(start, b"WIRE") {
        let to = text.end_of(start);
        let from = to.saturating_sub(3);
        out.note(b"WIRE \"A\" a:b has 0 <= a <= b <= 4095");
        return add_pair(out, text.pair(Span { from, to }), MOST_DELAY);
    }
    let used = text.use_at(start);
    match kind_named(text.word(used.kind)) {
        None => out.note(b"a macro takes no delay"),
        Some(kind) => match kind.check() {
            Some(check) if used.delay.is_empty() => add_limits(out, text, check, used.given),
            _ => add_delay(out, text, kind, used.delay),
        },
    }
}

/// What has parameters: a kind, or else a macro, and the numbers of these; a macro's are those of
/// its tokens.
#[derive(Clone, Copy)]
struct Owner {
    kind: Option<Kind>,
    list: Span,
}

/// What the kind of a use names, if that is a kind or a macro.
fn owner_of(text: &Text, name: &[u8]) -> Option<Owner> {
    let kind = kind_named(name);
    let list = if kind.is_some() {
        Span { from: 0, to: 2 }
    } else {
        let head = text.macro_named(name)?;
        text.use_at(head.saturating_sub(1)).given
    };
    Some(Owner { kind, list })
}

/// The parameter of this number; nothing if none has it.
fn parameter<'a>(text: &Text<'a>, owner: Owner, number: usize) -> &'a [u8] {
    let Some(kind) = owner.kind else {
        return if text.is_given(number) {
            text.word(number)
        } else {
            b""
        };
    };
    match (kind.check(), number) {
        (Some(Check::MinPulse), 0) => b"HIGH",
        (Some(Check::MinPulse), _) => b"LOW",
        (Some(_), 0) => b"SETUP",
        (Some(_), _) => b"HOLD",
        (None, _) => b"",
    }
}

/// The number of the parameter that a word is like.
fn parameter_like(text: &Text, owner: Owner, likeness: Likeness, word: &[u8]) -> Option<usize> {
    (owner.list.from..owner.list.to).find(|j| likeness.holds(word, parameter(text, owner, *j)))
}

/// That a word is none of the parameters, which may be meant, and which there are.
fn add_unknown(out: &mut Lines, text: &Text, owner: Owner, word: &[u8], of: &[u8]) {
    out.fill(b"    % is no parameter of %", &[Quoted(word), Quoted(of)]);
    if let Some(meant) = parameter_like(text, owner, Likeness::Edit, word) {
        out.fill(b": is % meant?", &[Shown(parameter(text, owner, meant))]);
    }
    let mut before: &[u8] = b"\n    its parameters are ";
    for j in owner.list.from..owner.list.to {
        let name = parameter(text, owner, j);
        if !name.is_empty() {
            out.put(before);
            out.fill(b"%", &[Shown(name)]);
            before = b", ";
        }
    }
    if before.len() != 2 {
        out.put(b"\n    it takes no parameters");
    }
    out.put(b"\n");
}

/// What is wrong with the parameters of a use.
pub fn add_parameter(out: &mut Lines, text: &Text, label: usize) {
    let used = text.use_at(label);
    let name = text.word(used.kind);
    let Some(owner) = owner_of(text, name) else {
        return;
    };
    let Span { from, to } = used.given;
    for j in from..to.min(from.saturating_add(MOST_TOKENS)) {
        let word = text.word(j);
        if !text.is_given(j) {
            continue;
        }
        if parameter_like(text, owner, Likeness::Whole, word).is_none() {
            return add_unknown(out, text, owner, word, name);
        }
        if given(text, Span { from, to: j }, word).is_some() {
            return out.tell(b"% is given twice", &[Quoted(word)]);
        }
    }
}

/// The end of a noun of which there are so many.
fn plural(count: u64) -> Part<'static> {
    Shown(if count == 1 { b"" } else { b"s" })
}

/// How many connections a kind takes.
fn add_wanted(out: &mut Lines, kind: Kind) {
    let (fewest, most) = kind.inputs();
    let [fewest, most] = [u64::from(fewest), u64::from(most)];
    out.fill(b"    % takes ", &[Shown(kind.name())]);
    if fewest != most {
        out.fill(b"% to ", &[Number(fewest)]);
    }
    out.fill(b"% input% and ", &[Number(most), plural(most)]);
    let outputs = Shown(if kind.has_output() { b"1" } else { b"no" });
    let marks = Shown(if kind.may_be_marked() {
        b"one"
    } else {
        b"none"
    });
    out.fill(b"% output; % may have the mark !H\n", &[outputs, marks]);
}

/// How many connections a use or a head has.
fn add_counts(out: &mut Lines, text: &Text, used: Use) {
    let [inputs, outputs] = [text.count(used.inputs), text.count(used.outputs)];
    out.fill(b"% input% and ", &[Number(inputs), plural(inputs)]);
    out.fill(b"% output%", &[Number(outputs), plural(outputs)]);
}

/// How many connections are wanted, and how many there are.
pub fn add_connections(out: &mut Lines, text: &Text, label: usize) {
    let used = text.use_at(label);
    let name = text.word(used.kind);
    if let Some(kind) = kind_named(name) {
        add_wanted(out, kind);
    } else if let Some(head) = text.macro_named(name) {
        out.fill(b"    % takes ", &[Quoted(name)]);
        add_counts(out, text, text.use_at(head.saturating_sub(1)));
        out.put(b"; none may have the mark !H\n");
    }
    out.put(b"    here it has ");
    add_counts(out, text, used);
    out.put(b"\n");
}
