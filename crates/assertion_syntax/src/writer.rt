//! Writes a name.
//!
//! Each function but the last puts its piece at the end of the bytes, and if memory runs out its
//! contract leaves open which bytes of the piece are there.

ghost use Rattle.std.specs.Prelude.{◌≡◌, ◌++◌, decimal, OnOk, OnErr};
ghost use Rattle.assertion_syntax.specs.Name.{span_text, spans_text, skew_text, clock_text, assertion_text, name_text};

use crate::name::SignalName;
use itoa::Buffer;
use scald_base::{AssertSpec, Bytes, ClockSpec, NoMemory, Span};
use std::alloc::Global;

/// Some bytes, and a number after them.
fn add_number(out: &mut Bytes, before: &[u8], number: u16) -> Result<(), NoMemory>
    ensures { OnOk result (out.new ≡ out.old ++ before.now ++ decimal number) }
{
    out.extend(before)?;
    out.extend(Buffer::new().format(number).as_bytes())
}

/// An interval.
fn add_span(out: &mut Bytes, span: Span) -> Result<(), NoMemory>
    ensures { OnOk result (out.new ≡ out.old ++ span_text span) }
{
    add_number(out, b"", span.lo)?;
    add_number(out, b"-", span.hi)
}

/// Intervals, with commas between them.
fn add_spans(out: &mut Bytes, spans: &[Span]) -> Result<(), NoMemory>
    ensures { OnOk result (out.new ≡ out.old ++ spans_text spans.now) }
{
    let [first, more @ ..] = spans else {
        return Ok(());
    };
    add_span(out, *first)?;
    'more: for span in more {
        out.extend(b",")?;
        add_span(out, *span)?;
    }
    Ok(())
}

/// A skew, if there is one.
fn add_skew(out: &mut Bytes, skew: Option<(u16, u16)>) -> Result<(), NoMemory>
    ensures { OnOk result (out.new ≡ out.old ++ skew_text skew) }
{
    let Some((early, late)) = skew else {
        return Ok(());
    };
    add_number(out, b"(", early)?;
    add_number(out, b",", late)?;
    out.extend(b")")
}

/// What a clock's assertion says after its letter.
fn add_clock(out: &mut Bytes, clock: &ClockSpec) -> Result<(), NoMemory>
    ensures { OnOk result (out.new ≡ out.old ++ clock_text clock.now) }
{
    add_spans(out, clock.spans.as_slice())?;
    add_skew(out, clock.skew)?;
    if clock.low {
        out.extend(b"L")?;
    }
    Ok(())
}

/// An assertion and the space before it, if there is one.
fn add_assertion(out: &mut Bytes, spec: &AssertSpec) -> Result<(), NoMemory>
    ensures { OnOk result (out.new ≡ out.old ++ assertion_text spec.now) }
{
    match spec {
        AssertSpec::None => Ok(()),
        AssertSpec::Precision(clock) => {
            out.extend(b" .P")?;
            add_clock(out, clock)
        }
        AssertSpec::Clock(clock) => {
            out.extend(b" .C")?;
            add_clock(out, clock)
        }
        AssertSpec::Stable(spans) => {
            out.extend(b" .S")?;
            add_spans(out, spans.as_slice())
        }
    }
}

/// The whole name.
fn add_name(out: &mut Bytes, n: &SignalName) -> Result<(), NoMemory>
    ensures { OnOk result (out.new ≡ out.old ++ name_text n.now) }
{
    if n.global {
        out.extend(b"/")?;
    }
    out.extend(n.base.as_slice())?;
    add_assertion(out, &n.spec)
}

/// Puts a name's text at the end: its slash if it is global, its base, and after one space its
/// assertion if it has one. If memory runs out the bytes are as before.
pub fn write_name(alloc: Global, n: &SignalName, out: &mut Bytes) -> Result<(), NoMemory>
    ensures ok { OnOk result (out.new ≡ out.old ++ name_text n.now) }
    ensures err { OnErr result (out.new ≡ out.old) }
{
    let mut text = Bytes::new(alloc);
    add_name(&mut text, n)?;
    out.extend(text.as_slice())
}
