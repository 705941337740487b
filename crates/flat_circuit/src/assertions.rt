//! What is asserted of whole names, while a circuit is built.

ghost use Rattle.std.specs.Prelude.{◌≡◌, ◌≢◌, [], length, take, IfOk, OnOk, OnErr, MatchBool};
ghost use Rattle.flat_circuit.specs.Builder.{Differ, Clashes, with_asserted, is_asserted, has_text, spec_of};

use indexmap::IndexMap;
use scald_base::{AssertSpec, ClockSpec, List, NoMemory, Span, Spans};
use std::alloc::Global;
use std::marker::Model;

/// The assertions, each by the whole text of path and base name, in the order in which they came.
#[derive(Drop)]
pub struct Assertions {
    by_text: IndexMap<Vec<u8>, AssertSpec>,
}

impl Model for Assertions {
    ghost use Rattle.std.specs.Prelude.{List};
    ghost use Rattle.flat_circuit.specs.Builder.{Asserted, asserted_entries};

    ghost Value = { List Asserted };

    ghost view = { λ a. asserted_entries a.by_text.entries };
}

impl Assertions {
    pub(crate) fn new(alloc: Global) -> Assertions
        ensures { result ≡ [] }
    {
        Assertions {
            by_text: IndexMap::new(alloc),
        }
    }

    pub(crate) fn len(&self) -> usize
        ensures { result ≡ length self.now }
    {
        self.by_text.len()
    }

    /// Whether it differs from what was asserted of the text before.
    pub(crate) fn clashes(&self, text: &[u8], spec: &AssertSpec) -> bool
        ensures { MatchBool result (Clashes self.now text.now spec.now)
            (¬ (Clashes self.now text.now spec.now)) }
    {
        if !is_asserted(spec) {
            return false;
        }
        match self.by_text.get(text) {
            Some(before) => differ(spec, before),
            None => false,
        }
    }

    /// Asserts it of the text, if it is an assertion and the text has none.
    pub(crate) fn add(
        &mut self,
        alloc: Global,
        text: &[u8],
        spec: &AssertSpec,
    ) -> Result<(), NoMemory>
        ensures ok { OnOk result (self.new ≡ with_asserted self.old text.now spec.now) }
        ensures err { OnErr result (self.new ≡ self.old) }
    {
        if !is_asserted(spec) || self.has(text) {
            return Ok(());
        }
        let key = Vec::from_slice(alloc, text)?;
        let value = copied(alloc, spec)?;
        self.by_text.insert(key, value)?;
        Ok(())
    }

    /// Whether something is asserted of the text.
    fn has(&self, text: &[u8]) -> bool
        ensures { result ≡ has_text self.now text.now }
    {
        self.by_text.contains_key(text)
    }

    /// Forgets all but the first.
    pub(crate) fn truncate(&mut self, count: usize)
        ensures { self.new ≡ take count self.old }
    {
        self.by_text.truncate(count);
    }

    /// What is asserted of the text.
    pub(crate) fn of(&self, alloc: Global, text: &[u8]) -> Result<AssertSpec, NoMemory>
        ensures { IfOk result (λ spec. spec ≡ spec_of self.now text.now) }
    {
        match self.by_text.get(text) {
            Some(spec) => copied(alloc, spec),
            None => Ok(AssertSpec::None),
        }
    }
}

/// Whether it is an assertion.
pub(crate) fn is_asserted(spec: &AssertSpec) -> bool
    ensures { result ≡ is_asserted spec.now }
{
    !matches!(spec, AssertSpec::None)
}

fn differ(spec: &AssertSpec, before: &AssertSpec) -> bool
    ensures { MatchBool result (Differ spec.now before.now) (¬ (Differ spec.now before.now)) }
{
    if is_asserted(spec) && is_asserted(before) {
        !is_same_assertion(spec, before)
    } else {
        false
    }
}

/// Whether the two assert the same, spelled alike.
pub fn is_same_assertion(a: &AssertSpec, b: &AssertSpec) -> bool
    ensures { MatchBool result (a.now ≡ b.now) (a.now ≢ b.now) }
{
    match a {
        AssertSpec::None => !is_asserted(b),
        AssertSpec::Precision(clock) => match b {
            AssertSpec::Precision(other) => is_same_clock(clock, other),
            _ => false,
        },
        AssertSpec::Clock(clock) => match b {
            AssertSpec::Clock(other) => is_same_clock(clock, other),
            _ => false,
        },
        AssertSpec::Stable(spans) => match b {
            AssertSpec::Stable(others) => is_same_spans(spans.as_slice(), others.as_slice()),
            _ => false,
        },
    }
}

fn is_same_clock(a: &ClockSpec, b: &ClockSpec) -> bool
    ensures { MatchBool result (a.now ≡ b.now) (a.now ≢ b.now) }
{
    is_same_spans(a.spans.as_slice(), b.spans.as_slice()) && a.skew == b.skew && a.low == b.low
}

fn is_same_spans(a: &[Span], b: &[Span]) -> bool
    ensures { MatchBool result (a.now ≡ b.now) (a.now ≢ b.now) }
{
    a == b
}

/// The same once more.
pub(crate) fn copied(alloc: Global, spec: &AssertSpec) -> Result<AssertSpec, NoMemory>
    ensures { IfOk result (λ copy. copy ≡ spec.now) }
{
    Ok(match spec {
        AssertSpec::None => AssertSpec::None,
        AssertSpec::Precision(clock) => AssertSpec::Precision(copied_clock(alloc, clock)?),
        AssertSpec::Clock(clock) => AssertSpec::Clock(copied_clock(alloc, clock)?),
        AssertSpec::Stable(spans) => AssertSpec::Stable(copied_spans(alloc, spans.as_slice())?),
    })
}

fn copied_clock(alloc: Global, clock: &ClockSpec) -> Result<ClockSpec, NoMemory>
    ensures { IfOk result (λ copy. copy ≡ clock.now) }
{
    Ok(ClockSpec {
        spans: copied_spans(alloc, clock.spans.as_slice())?,
        skew: clock.skew,
        low: clock.low,
    })
}

fn copied_spans(alloc: Global, spans: &[Span]) -> Result<Spans, NoMemory>
    ensures { IfOk result (λ copies. copies ≡ spans.now) }
{
    let mut copies = List::new(alloc);
    for span in spans {
        copies.push(*span)?;
    }
    Ok(copies)
}
