//! What a net that nothing drives is at a tick: its bit in the case, or by its assertion.

ghost use Rattle.std.specs.Prelude.{◌≡◌, ◌<◌, IfSome, None, OnOk, Some, false, slice_get};
ghost use Rattle.run_clauses.specs.World.{StayTrueInCase};
ghost use Rattle.run_clauses.specs.Forms.{said};
ghost use Rattle.run_clauses.specs.Meaning.{Adds, HasValue, IsClock, IsSameAt, Stays};

use crate::fact::{Fact, Said};
use crate::formula::Formula;
use assertion_syntax::{ideal, quiet};
use flat_circuit::{CaseValue, Circuit, Net};
use scald_base::{AssertSpec, ClockSpec, Header, NoMemory, Spans};
use trace_sim::{skew_of, slot_back};

/// A net at a tick.
#[derive(Clone, Copy, Debug)]
pub struct Input {
    pub net: u32,
    pub tick: u32,
}

impl Input {
    fn is(self) -> Fact
        ensures { result ≡ Fact.Net self.net self.tick }
    {
        Fact::Net {
            net: self.net,
            tick: self.tick,
        }
    }

    fn was(self, tick: u32) -> Fact
        ensures { result ≡ Fact.Net self.net tick }
    {
        Fact::Net {
            net: self.net,
            tick,
        }
    }

    fn is_past(self) -> Said
        ensures { result ≡ said (Fact.Lasts self.tick) false }
    {
        Fact::Lasts { tick: self.tick }.is_not()
    }
}

/// That the net has the same bit at an earlier tick.
fn add_same(formula: &mut Formula, input: Input, tick: u32) -> Result<(), NoMemory>
    ensures { OnOk result (Adds (IsSameAt input tick) formula.old formula.new) }
{
    formula.push(&[input.is_past(), input.is().is_not(), input.was(tick).is()])?;
    formula.push(&[input.is_past(), input.is().is(), input.was(tick).is_not()])
}

/// That a net which is stable in these intervals is as it was, in a quiet slot.
fn add_stable(
    formula: &mut Formula,
    input: Input,
    h: &Header,
    spans: &Spans,
) -> Result<(), NoMemory>
    requires { input.tick < 983040 }
    ensures { OnOk result (Adds (Stays input h.now spans.now) formula.old formula.new) }
{
    if input.tick == 0 {
        return Ok(());
    }
    if spans.is_empty() {
        return add_same(formula, input, 0);
    }
    if !quiet(spans, h, slot_back(h, input.tick as usize, 0)) {
        return Ok(());
    }
    add_same(formula, input, input.tick - 1)
}

/// That a clock is the ideal one, later by its offset, which is one of those that it may have.
fn add_clock(
    formula: &mut Formula,
    input: Input,
    h: &Header,
    clock: &ClockSpec,
) -> Result<(), NoMemory>
    requires { input.tick < 983040 }
    ensures { OnOk result (Adds (IsClock input h.now clock.now) formula.old formula.new) }
{
    let skew = skew_of(clock, h.pskew);
    let latest = input.tick as usize + skew.0 as usize;
    for by in 0..u32::from(skew.0) + u32::from(skew.1) + 1 {
        let offset = Fact::Offset { net: input.net, by };
        let bit = ideal(clock, h, slot_back(h, latest, by as usize));
        formula.push(&[input.is_past(), offset.is_not(), input.is().at(bit)])?;
    }
    Ok(())
}

/// The bit that a case gives a net.
fn value_in(values: &[CaseValue], net: u32) -> Option<bool>
    ensures { IfSome result (HasValue values.now net) }
{
    for value in values {
        if value.net == net {
            return Some(value.one);
        }
    }
    None
}

/// The first tick of which nothing is said.
const LATEST: u32 = 983_040;

/// What is known of a net that nothing drives. Of a `.C` clock nothing is said here.
pub fn explain_undriven(
    formula: &mut Formula,
    c: &Circuit,
    values: &[CaseValue],
    found: &Net,
    input: Input,
) -> Result<(), NoMemory>
    requires there { slice_get c.now.nets input.net ≡ Some found.now }
    requires undriven { found.now.driver ≡ None }
    ensures { OnOk result (StayTrueInCase c.now values.now formula.old formula.new) }
{
    if input.tick >= LATEST {
        return Ok(());
    }
    if let Some(one) = value_in(values, input.net) {
        return formula.push(&[input.is_past(), input.is().at(one)]);
    }
    let nothing = AssertSpec::None;
    match found.spec.or(&nothing) {
        AssertSpec::None => add_same(formula, input, 0),
        AssertSpec::Precision(clock) => add_clock(formula, input, c.header(), clock),
        AssertSpec::Clock(_) => Ok(()),
        AssertSpec::Stable(spans) => add_stable(formula, input, c.header(), spans),
    }
}
