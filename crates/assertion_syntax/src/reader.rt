//! Reads a name.
//!
//! Each function takes a part of the text from its front, and answers what it read and the bytes
//! after it. `specs/Name` says how a name is spelled, and `specs/Reading` what each function reads.

ghost use Rattle.std.specs.Prelude.{◌≡◌, ◌<◌, List, ℕ, IfOk, IfErr, false, length};
ghost use Rattle.std.specs.List.{prefix_len};
ghost use Rattle.assertion_syntax.specs.declared.name.SignalName.{SignalName};
ghost use Rattle.assertion_syntax.specs.declared.name.NameEnd.TheVariants.{BadName};
ghost use Rattle.assertion_syntax.specs.Name.{is_base_byte, well_spaced, IsTextOf};
ghost use Rattle.assertion_syntax.specs.Reading.{Gives, literal_at, digits_at, number_at, limited_at, pair_at, span_at, spans_at, parted_at, skew_at, low_at, edges_at, clock_at, stable_at, assertion_at, base_len, base_at, global_at, name_at};

use crate::base::{base_alone, is_base, is_base_byte};
use crate::name::{NameEnd, SignalName};
use scald_base::{AssertSpec, Bytes, ClockSpec, NoMemory, Span, Spans};
use std::alloc::Global;

/// The name of the text, or `BadName` exactly if the text is of no name. `NoMemory` comes only
/// if memory runs out.
pub fn read_name(alloc: Global, text: &[u8]) -> Result<SignalName, NameEnd>
    ensures found { IfOk result (λ n. IsTextOf n text.now) }
    ensures none { IfErr result (λ e. e ≡ BadName → (n : SignalName) → ¬ IsTextOf n text.now) }
{
    // Most names are a base alone, which one look at each byte shows.
    if is_base(text) {
        let name = base_alone(alloc, text)?;
        return Ok(name);
    }
    match name(alloc, text)? {
        Some(read) => Ok(read),
        None => Err(NameEnd::BadName),
    }
}

/// A text is of one name alone.
pub fn one_name()
    ensures { (n m : SignalName) (text : List ℕ) → IsTextOf n text → IsTextOf m text → n ≡ m }
{}

/// A name has one text alone.
pub fn one_text()
    ensures { (n : SignalName) (text other : List ℕ) → IsTextOf n text → IsTextOf n other →
        text ≡ other }
{}

/// The bytes after a word.
#[tactic(auto, unfolding(crate::specs::Reading::literal_at))]
fn literal<'a>(rest: &'a [u8], word: &[u8]) -> Option<&'a [u8]>
    ensures { Gives (λ x. x.now) result (literal_at word.now rest.now) }
{
    rest.strip_prefix(word)
}

/// The digits that continue a number. None may follow 0, or four digits.
#[tactic(auto, unfolding(crate::specs::Reading::digits_at))]
fn digits(value: u16, rest: &[u8]) -> Option<(u16, &[u8])>
    requires { value < 10000 }
    ensures { Gives (λ x. (x.0, x.1.now)) result (digits_at value rest.now) }
{
    match rest {
        [byte, after @ ..] if byte.is_ascii_digit() => {
            if value == 0 || value >= 1000 {
                return None;
            }
            digits(value * 10 + u16::from(*byte - b'0'), after)
        }
        _ => Some((value, rest)),
    }
}

/// A number of one to four digits without leading zeros.
#[tactic(auto, unfolding(crate::specs::Reading::number_at))]
fn number(rest: &[u8]) -> Option<(u16, &[u8])>
    ensures { Gives (λ x. (x.0, x.1.now)) result (number_at rest.now) }
{
    match rest {
        [byte, after @ ..] if byte.is_ascii_digit() => digits(u16::from(*byte - b'0'), after),
        _ => None,
    }
}

/// A number up to a limit.
#[tactic(auto, unfolding(crate::specs::Reading::limited_at))]
fn limited(limit: u16, rest: &[u8]) -> Option<(u16, &[u8])>
    ensures { Gives (λ x. (x.0, x.1.now)) result (limited_at limit rest.now) }
{
    let (value, rest) = number(rest)?;
    if value > limit {
        return None;
    }
    Some((value, rest))
}

/// Two numbers up to a limit, with a word between them.
#[tactic(auto, unfolding(crate::specs::Reading::pair_at))]
fn pair<'a>(limit: u16, between: &[u8], rest: &'a [u8]) -> Option<((u16, u16), &'a [u8])>
    ensures { Gives (λ x. ((x.0.0, x.0.1), x.1.now)) result (pair_at limit between.now rest.now) }
{
    let (first, rest) = limited(limit, rest)?;
    let (second, rest) = limited(limit, literal(rest, between)?)?;
    Some(((first, second), rest))
}

/// An interval.
#[tactic(auto, unfolding(crate::specs::Reading::span_at))]
fn span(rest: &[u8]) -> Option<(Span, &[u8])>
    ensures { Gives (λ x. (x.0, x.1.now)) result (span_at rest.now) }
{
    let ((lo, hi), rest) = pair(4096, b"-", rest)?;
    Some((Span { lo, hi }, rest))
}

/// One interval or more, with commas between them.
fn spans(alloc: Global, text: &[u8]) -> Result<Option<(Spans, &[u8])>, NoMemory>
    ensures { IfOk result (λ read.
        Gives (λ x. (x.0, x.1.now)) read (spans_at (length text.now) text.now)) }
{
    let mut spans = Spans::new(alloc);
    let mut rest = text;
    'spans: while let Some((next, after)) = span(rest) {
        spans.push(next)?;
        match literal(after, b",") {
            None => return Ok(Some((spans, after))),
            Some(more) => rest = more,
        }
    }
    Ok(None)
}

/// A skew, after the parenthesis that opens it.
#[tactic(auto, unfolding(crate::specs::Reading::parted_at))]
fn parted(rest: &[u8]) -> Option<((u16, u16), &[u8])>
    ensures { Gives (λ x. ((x.0.0, x.0.1), x.1.now)) result (parted_at rest.now) }
{
    let (skew, rest) = pair(4095, b",", rest)?;
    Some((skew, literal(rest, b")")?))
}

/// A skew, if a parenthesis opens.
#[tactic(auto, unfolding(crate::specs::Reading::skew_at))]
fn skew(rest: &[u8]) -> Option<(Option<(u16, u16)>, &[u8])>
    ensures { Gives (λ x. (x.0, x.1.now)) result (skew_at rest.now) }
{
    match literal(rest, b"(") {
        None => Some((None, rest)),
        Some(inside) => {
            let (skew, rest) = parted(inside)?;
            Some((Some(skew), rest))
        }
    }
}

/// Whether an L stands before the end.
#[tactic(auto, unfolding(crate::specs::Reading::low_at))]
fn low(rest: &[u8]) -> Option<bool>
    ensures { Gives (λ x. x) result (low_at rest.now) }
{
    match literal(rest, b"L") {
        None => { if rest.is_empty() { Some(false) } else { None } }
        Some(left) => { if left.is_empty() { Some(true) } else { None } }
    }
}

/// What follows a clock's intervals.
#[tactic(auto, unfolding(crate::specs::Reading::edges_at))]
fn edges(rest: &[u8]) -> Option<(Option<(u16, u16)>, bool)>
    ensures { Gives (λ x. (x.0, x.1)) result (edges_at rest.now) }
{
    let (skew, rest) = skew(rest)?;
    Some((skew, low(rest)?))
}

/// A clock, after its letter.
#[tactic(auto, unfolding(crate::specs::Reading::clock_at))]
fn clock(alloc: Global, rest: &[u8]) -> Result<Option<ClockSpec>, NoMemory>
    ensures { IfOk result (λ read. Gives (λ x. x) read (clock_at rest.now)) }
{
    let Some((spans, rest)) = spans(alloc, rest)? else {
        return Ok(None);
    };
    let Some((skew, low)) = edges(rest) else {
        return Ok(None);
    };
    Ok(Some(ClockSpec { spans, skew, low }))
}

/// The intervals of a stable signal, after its letter.
#[tactic(auto, unfolding(crate::specs::Reading::stable_at))]
fn stable(alloc: Global, rest: &[u8]) -> Result<Option<Spans>, NoMemory>
    ensures { IfOk result (λ read. Gives (λ x. x) read (stable_at rest.now)) }
{
    if rest.is_empty() {
        return Ok(Some(Spans::new(alloc)));
    }
    let Some((spans, left)) = spans(alloc, rest)? else {
        return Ok(None);
    };
    if left.is_empty() {
        Ok(Some(spans))
    } else {
        Ok(None)
    }
}

/// What follows a base.
#[tactic(auto, unfolding(crate::specs::Reading::assertion_at))]
fn assertion(alloc: Global, rest: &[u8]) -> Result<Option<AssertSpec>, NoMemory>
    ensures { IfOk result (λ read. Gives (λ x. x) read (assertion_at rest.now)) }
{
    if rest.is_empty() {
        return Ok(Some(AssertSpec::None));
    }
    if let Some(rest) = literal(rest, b" .P") {
        return match clock(alloc, rest)? {
            Some(clock) => Ok(Some(AssertSpec::Precision(clock))),
            None => Ok(None),
        };
    }
    if let Some(rest) = literal(rest, b" .C") {
        return match clock(alloc, rest)? {
            Some(clock) => Ok(Some(AssertSpec::Clock(clock))),
            None => Ok(None),
        };
    }
    match literal(rest, b" .S") {
        Some(rest) => match stable(alloc, rest)? {
            Some(spans) => Ok(Some(AssertSpec::Stable(spans))),
            None => Ok(None),
        },
        None => Ok(None),
    }
}

/// How many bytes in front may be a base's.
fn base_byte_count(rest: &[u8]) -> usize
    ensures { result ≡ prefix_len is_base_byte rest.now }
{
    rest.iter().take_while(|byte| is_base_byte(**byte)).count()
}

/// How long the base is: to the end of the text, or to the space before what is of no base.
fn base_len(rest: &[u8]) -> usize
    ensures { result ≡ base_len rest.now }
{
    let count = base_byte_count(rest);
    if count == rest.len() {
        count
    } else {
        count.saturating_sub(1)
    }
}

/// Whether each space stands between two other bytes, and some byte is there.
fn well_spaced(base: &[u8]) -> bool
    ensures { result ≡ well_spaced false base.now }
{
    let mut behind_byte = false;
    'bytes: for byte in base {
        let is_space = *byte == b' ';
        if is_space && !behind_byte {
            return false;
        }
        behind_byte = !is_space;
    }
    behind_byte
}

/// The base, without the slash of a global.
#[tactic(auto, unfolding(crate::specs::Reading::base_at))]
fn base(rest: &[u8]) -> Option<(&[u8], &[u8])>
    ensures { Gives (λ x. (x.0.now, x.1.now)) result (base_at rest.now) }
{
    let (base, rest) = rest.split_at(base_len(rest));
    if base.len() > 64 || !well_spaced(base) {
        return None;
    }
    Some((base, rest))
}

/// Whether a slash stands in front.
#[tactic(auto, unfolding(crate::specs::Reading::global_at))]
fn global(text: &[u8]) -> (bool, &[u8])
    ensures { (result.0, result.1.now) ≡ global_at text.now }
{
    match literal(text, b"/") {
        Some(rest) => (true, rest),
        None => (false, text),
    }
}

/// The bytes in memory of their own.
fn owned(alloc: Global, bytes: &[u8]) -> Result<Bytes, NoMemory>
    ensures { IfOk result (λ owned. owned ≡ bytes.now) }
{
    let mut owned = Bytes::new(alloc);
    owned.extend(bytes)?;
    Ok(owned)
}

/// The whole text.
#[tactic(auto, unfolding(crate::specs::Reading::name_at))]
fn name(alloc: Global, text: &[u8]) -> Result<Option<SignalName>, NoMemory>
    ensures { IfOk result (λ read. Gives (λ x. x) read (name_at text.now)) }
{
    let (global, rest) = global(text);
    let Some((base, rest)) = base(rest) else {
        return Ok(None);
    };
    let Some(spec) = assertion(alloc, rest)? else {
        return Ok(None);
    };
    let base = owned(alloc, base)?;
    Ok(Some(SignalName { base, global, spec }))
}
