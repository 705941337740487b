//! That each choice of a run is one of the numbers of its bounds.

ghost use Rattle.std.specs.Prelude.{◌≡◌, ℕ, IfSome, OnOk};
ghost use Rattle.flat_circuit.specs.Split.{two_delays};
ghost use Rattle.run_clauses.specs.Choices.{AreBounds, IsNoneOf, IsOfClock, IsOfDelay, IsOfWire, choosing, numbers};
ghost use Rattle.run_clauses.specs.Meaning.{Puts};
ghost use Rattle.run_clauses.specs.World.{StayTrueIn};

use crate::fact::{Fact, Said};
use crate::formula::Formula;
use element_kinds::Form;
use fixpoint_engine::wire_behind;
use flat_circuit::{Circuit, Instance, Net, Split};
use scald_base::{AssertSpec, Delay, Header, NoMemory};
use trace_sim::skew_of;

/// The numbers that a choice may be: from one to before another.
#[derive(Clone, Copy, Debug)]
pub struct Range {
    pub from: u32,
    pub end: u32,
}

impl Range {
    /// The numbers within bounds.
    pub fn of(bounds: Delay) -> Range
        ensures { result ≡ numbers bounds }
    {
        Range {
            from: u32::from(bounds.min),
            end: u32::from(bounds.max) + 1,
        }
    }
}

impl Fact {
    /// That the same choice is another number; of other facts the fact itself.
    fn choosing(self, number: u32) -> Fact
        ensures { result ≡ choosing self number }
    {
        let ticks = number;
        match self {
            Fact::Delay { instance, .. } => Fact::Delay { instance, ticks },
            Fact::Rise { instance, .. } => Fact::Rise { instance, ticks },
            Fact::Fall { instance, .. } => Fact::Fall { instance, ticks },
            Fact::Wire { instance, pin, .. } => Fact::Wire {
                instance,
                pin,
                ticks,
            },
            Fact::Offset { net, .. } => Fact::Offset { net, by: number },
            other => other,
        }
    }
}

/// The two delays of an instance, if it has two.
pub fn two_of(i: &Instance) -> Option<Split>
    ensures { result ≡ two_delays i.now.kind i.now.split }
{
    if i.kind.may_split() { i.split } else { None }
}

/// The bounds of an instance's one delay.
fn delay_of(i: &Instance) -> Option<Range>
    ensures { IfSome result (IsOfDelay i.now) }
{
    if two_of(i).is_some() {
        return None;
    }
    match i.kind.form() {
        Form::Gate => Some(Range::of(i.delay)),
        Form::Register(_) => Some(Range::of(i.delay)),
        Form::Latch(_) => Some(Range::of(i.delay)),
        Form::Change => None,
        Form::Checker(_) => None,
    }
}

/// The bounds of the wire to a pin: 0 alone, if the pin is on a constant.
fn wire_of(c: &Circuit, i: &Instance, pin: u32) -> Option<Range>
    ensures { IfSome result (IsOfWire c.now i.now pin) }
{
    let found = i.pins.get(pin as usize)?;
    Some(Range::of(wire_behind(c, found.target)))
}

/// By how much a clock that nothing drives may come later than at its earliest.
fn offset_of(h: &Header, net: &Net) -> Option<Range>
    ensures { IfSome result (IsOfClock h.now net.now) }
{
    if net.driver.is_some() {
        return None;
    }
    let nothing = AssertSpec::None;
    match net.spec.or(&nothing) {
        AssertSpec::Precision(clock) => {
            let skew = skew_of(clock, h.pskew);
            Some(Range {
                from: 0,
                end: u32::from(skew.0) + u32::from(skew.1) + 1,
            })
        }
        _ => None,
    }
}

// ---- as facts

fn delay_range(c: &Circuit, k: u32) -> Option<Range>
    ensures { IfSome result (λ range. (n : ℕ) → AreBounds c.now (Fact.Delay k n) range) }
{
    delay_of(c.instance(k)?)
}

fn rise_range(c: &Circuit, k: u32) -> Option<Range>
    ensures { IfSome result (λ range. (n : ℕ) → AreBounds c.now (Fact.Rise k n) range) }
{
    let split = two_of(c.instance(k)?)?;
    Some(Range::of(split.rise))
}

fn fall_range(c: &Circuit, k: u32) -> Option<Range>
    ensures { IfSome result (λ range. (n : ℕ) → AreBounds c.now (Fact.Fall k n) range) }
{
    let split = two_of(c.instance(k)?)?;
    Some(Range::of(split.fall))
}

fn wire_range(c: &Circuit, k: u32, pin: u32) -> Option<Range>
    ensures { IfSome result (λ range. (n : ℕ) → AreBounds c.now (Fact.Wire k pin n) range) }
{
    wire_of(c, c.instance(k)?, pin)
}

fn offset_range(c: &Circuit, net: u32) -> Option<Range>
    ensures { IfSome result (λ range. (n : ℕ) → AreBounds c.now (Fact.Offset net n) range) }
{
    offset_of(c.header(), c.net(net)?)
}

/// The bounds of the choice that a fact is about; none of a fact about something else, and of a
/// choice that no run has.
fn range_of(c: &Circuit, fact: Fact) -> Option<Range>
    ensures { IfSome result (AreBounds c.now fact) }
{
    match fact {
        Fact::Delay { instance, .. } => delay_range(c, instance),
        Fact::Rise { instance, .. } => rise_range(c, instance),
        Fact::Fall { instance, .. } => fall_range(c, instance),
        Fact::Wire { instance, pin, .. } => wire_range(c, instance, pin),
        Fact::Offset { net, .. } => offset_range(c, net),
        _ => None,
    }
}

/// That a choice is one of the numbers of its bounds. It is said once for all numbers: of the fact
/// that it is the least.
pub fn explain_choice(
    formula: &mut Formula,
    some: &mut Vec<Said>,
    c: &Circuit,
    fact: Fact,
) -> Result<(), NoMemory>
    ensures { OnOk result (StayTrueIn c.now formula.old formula.new) }
{
    let Some(range) = range_of(c, fact) else {
        return Ok(());
    };
    if fact != fact.choosing(range.from) {
        return Ok(());
    }
    some.clear();
    put_numbers(some, fact, range)?;
    formula.push(some)
}

/// Puts at the end that a choice is one of the numbers.
fn put_numbers(some: &mut Vec<Said>, fact: Fact, range: Range) -> Result<(), NoMemory>
    ensures { OnOk result (Puts (IsNoneOf fact range) some.old.items some.new.items) }
{
    for number in range.from..range.end {
        some.push(fact.choosing(number).is())?;
    }
    Ok(())
}
