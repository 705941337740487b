//! Copies of the parts of a drawing that hold no expressions. Each may run out of memory.

ghost use Rattle.std.specs.Prelude.{◌≡◌, IfOk};

use assertion_syntax::SignalName;
use drawing_tree::{CaseEntry, CaseStmt};
use scald_base::{AssertSpec, Bytes, ClockSpec, List, NoMemory, Place, Span};
use std::alloc::Global;

/// What can be copied.
pub trait Copied {
    /// An equal value in memory of its own.
    fn copy(&self, alloc: Global) -> Result<Self, NoMemory>
        ensures { IfOk result (λ copy. copy ≡ self.now) };
}

/// Copies of all items, in order.
pub(crate) fn copies<T: Copied + Drop>(alloc: Global, items: &[T]) -> Result<List<T>, NoMemory>
    ensures { IfOk result (λ copies. copies ≡ items.now) }
{
    let mut copies = List::new(alloc);
    for item in items {
        copies.push(item.copy(alloc)?)?;
    }
    Ok(copies)
}

/// A copy of bytes.
pub(crate) fn bytes(alloc: Global, bytes: &Bytes) -> Result<Bytes, NoMemory>
    ensures { IfOk result (λ copy. copy ≡ bytes.now) }
{
    Bytes::of(alloc, bytes.as_slice())
}

impl Copied for Span {
    fn copy(&self, _alloc: Global) -> Result<Span, NoMemory> {
        Ok(*self)
    }
}

impl Copied for Place {
    fn copy(&self, _alloc: Global) -> Result<Place, NoMemory> {
        Ok(*self)
    }
}

impl Copied for ClockSpec {
    fn copy(&self, alloc: Global) -> Result<ClockSpec, NoMemory> {
        Ok(ClockSpec {
            spans: copies(alloc, self.spans.as_slice())?,
            skew: self.skew,
            low: self.low,
        })
    }
}

impl Copied for AssertSpec {
    fn copy(&self, alloc: Global) -> Result<AssertSpec, NoMemory> {
        match self {
            AssertSpec::None => Ok(AssertSpec::None),
            AssertSpec::Precision(clock) => Ok(AssertSpec::Precision(clock.copy(alloc)?)),
            AssertSpec::Clock(clock) => Ok(AssertSpec::Clock(clock.copy(alloc)?)),
            AssertSpec::Stable(spans) => Ok(AssertSpec::Stable(copies(alloc, spans.as_slice())?)),
        }
    }
}

impl Copied for SignalName {
    fn copy(&self, alloc: Global) -> Result<SignalName, NoMemory> {
        Ok(SignalName {
            base: bytes(alloc, &self.base)?,
            global: self.global,
            spec: self.spec.copy(alloc)?,
        })
    }
}

impl Copied for CaseEntry {
    fn copy(&self, alloc: Global) -> Result<CaseEntry, NoMemory> {
        Ok(CaseEntry {
            name: self.name.copy(alloc)?,
            bit: self.bit,
            value: self.value,
            place: self.place,
        })
    }
}

impl Copied for CaseStmt {
    fn copy(&self, alloc: Global) -> Result<CaseStmt, NoMemory> {
        Ok(CaseStmt {
            entries: copies(alloc, self.entries.as_slice())?,
            place: self.place,
        })
    }
}
