//! What a driven net is at a tick: by the equation of its driver, if that is asked.

ghost use Rattle.std.specs.Prelude.{◌≡◌, ◌+◌, ◌-◌, ◌<◌, ◌≤◌, OnOk, Some, false};
ghost use Rattle.fixpoint_engine.specs.Reach.{greatest_wire};
ghost use Rattle.flat_circuit.specs.Circuit.{driver_at};
ghost use Rattle.run_clauses.specs.World.{StayTrueIn};
ghost use Rattle.run_clauses.specs.Forms.{old_said, out_said, said};
ghost use Rattle.run_clauses.specs.Meaning.{Adds, IsGate, IsPair, IsSplitGate, IsStorage};

use crate::change::add_change;
use crate::choices::{Range, two_of};
use crate::fact::{Fact, Said};
use crate::formula::Formula;
use crate::numbers::{greater, lesser};
use crate::same::{begin, push_same};
use crate::storage::{Storage, add_stored};
use element_kinds::Form;
use fixpoint_engine::wire_behind;
use flat_circuit::{Circuit, Instance, Pin};
use scald_base::{Delay, NoMemory};
use std::cmp::max;

/// A driven net at a tick.
#[derive(Clone, Copy, Debug)]
pub struct Driven {
    pub net: u32,
    pub instance: u32,
    pub tick: u32,
    /// The output is complemented.
    pub inverted: bool,
}

impl Driven {
    /// That the output, as it is before a complement, has a bit.
    pub fn out(self, bit: bool) -> Said
        ensures { result ≡ out_said self bit }
    {
        Fact::Net {
            net: self.net,
            tick: self.tick,
        }
        .at(bit != self.inverted)
    }

    /// The same a tick before.
    pub fn old(self, bit: bool) -> Said
        ensures { result ≡ old_said self bit }
    {
        Fact::Net {
            net: self.net,
            tick: self.tick.saturating_sub(1),
        }
        .at(bit != self.inverted)
    }

    /// That the run has not this tick.
    pub fn is_past(self) -> Said
        ensures { result ≡ said (Fact.Lasts self.tick) false }
    {
        Fact::Lasts { tick: self.tick }.is_not()
    }

    fn own(self, tick: u32) -> Fact
        ensures { result ≡ Fact.Own self.instance tick }
    {
        Fact::Own {
            instance: self.instance,
            tick,
        }
    }

    fn delay(self, ticks: u32) -> Fact
        ensures { result ≡ Fact.Delay self.instance ticks }
    {
        Fact::Delay {
            instance: self.instance,
            ticks,
        }
    }

    fn rise(self, ticks: u32) -> Fact
        ensures { result ≡ Fact.Rise self.instance ticks }
    {
        Fact::Rise {
            instance: self.instance,
            ticks,
        }
    }

    fn fall(self, ticks: u32) -> Fact
        ensures { result ≡ Fact.Fall self.instance ticks }
    {
        Fact::Fall {
            instance: self.instance,
            ticks,
        }
    }
}

/// The most ticks that a wire to one of the pins takes.
fn longest_wire(c: &Circuit, pins: &[Pin]) -> u32
    ensures is { result ≡ greatest_wire c.now.nets pins.now }
    ensures few { result < 65536 }
{
    let mut longest = 0;
    for pin in pins {
        longest = max(longest, u32::from(wire_behind(c, pin.target).max));
    }
    longest
}

/// How far back an equation looks at most: its delay and the longest wire, and one tick more.
fn looks_back(c: &Circuit, i: &Instance) -> u32
    ensures { result ≡ 1 + greatest_wire c.now.nets i.now.pins + i.now.delay.max }
{
    1 + longest_wire(c, i.pins.as_slice()) + u32::from(i.delay.max)
}

/// What a gate with one delay gives, for each delay.
fn add_gate(formula: &mut Formula, net: Driven, delay: Delay) -> Result<(), NoMemory>
    ensures { OnOk result (Adds (IsGate net) formula.old formula.new) }
{
    for ticks in u32::from(delay.min)..u32::from(delay.max) + 1 {
        let other = net.delay(ticks).is_not();
        let own = net.own(net.tick.saturating_sub(ticks));
        push_same(formula, (net.is_past(), other), net.out(true), own.is())?;
    }
    Ok(())
}

/// What storage gives, for each delay.
fn add_storage(
    formula: &mut Formula,
    net: Driven,
    delay: Delay,
    forced: bool,
    is_latch: bool,
) -> Result<(), NoMemory>
    ensures { OnOk result (Adds (IsStorage net forced is_latch) formula.old formula.new) }
{
    for ticks in u32::from(delay.min)..u32::from(delay.max) + 1 {
        let storage = Storage {
            net,
            unless: net.delay(ticks).is_not(),
            tick: net.tick.saturating_sub(ticks),
            forced,
        };
        add_stored(formula, storage, is_latch)?;
    }
    Ok(())
}

/// The most pairs of a rise and a fall delay of which clauses are made.
const MOST_PAIRS: u32 = 64;

/// What a gate with two delays gives for one pair of them: 1 exactly if the gate's bit is 1 at all
/// ticks between them if the rise takes as long, and at some if the fall takes longer.
fn add_pair(
    formula: &mut Formula,
    some: &mut Vec<Said>,
    net: Driven,
    rise: u32,
    fall: u32,
) -> Result<(), NoMemory>
    requires rise { rise ≤ net.tick }
    requires fall { fall ≤ net.tick }
    requires not_last { net.tick < 4294967295 }
    ensures { OnOk result (Adds (IsPair net rise fall) formula.old formula.new) }
{
    let bit = rise < fall;
    let least = lesser(rise, fall);
    let greatest = greater(rise, fall);
    let (slow, fast) = (net.rise(rise).is_not(), net.fall(fall).is_not());
    begin(some, &[net.is_past(), slow, fast, net.out(!bit)])?;
    for tick in net.tick - greatest..net.tick - least + 1 {
        let own = net.own(tick);
        formula.push(&[net.is_past(), slow, fast, net.out(bit), own.at(!bit)])?;
        some.push(own.at(bit))?;
    }
    formula.push(some)
}

/// How many numbers a range has.
fn extent(range: Range) -> u32 {
    range.end.saturating_sub(range.from)
}

/// What a gate with two delays gives.
fn add_split(
    formula: &mut Formula,
    some: &mut Vec<Said>,
    net: Driven,
    rise: Range,
    fall: Range,
) -> Result<(), NoMemory>
    ensures { OnOk result (Adds (IsSplitGate net) formula.old formula.new) }
{
    if extent(rise).saturating_mul(extent(fall)) > MOST_PAIRS {
        return Ok(());
    }
    if net.tick == u32::MAX {
        return Ok(());
    }
    if net.tick < greater(rise.end, fall.end) {
        return Ok(());
    }
    for slow in rise.from..rise.end {
        for fast in fall.from..fall.end {
            add_pair(formula, some, net, slow, fast)?;
        }
    }
    Ok(())
}

/// What is known of a driven net at a tick: nothing if its driver looks back past tick 0.
pub fn explain_driven(
    formula: &mut Formula,
    some: &mut Vec<Said>,
    c: &Circuit,
    net: u32,
    driver: u32,
    tick: u32,
) -> Result<(), NoMemory>
    requires { driver_at c.now.nets net ≡ Some driver }
    ensures { OnOk result (StayTrueIn c.now formula.old formula.new) }
{
    c.known();
    let Some(i) = c.instance(driver) else {
        return Ok(());
    };
    if tick < looks_back(c, i) {
        return Ok(());
    }
    let net = Driven {
        net,
        instance: driver,
        tick,
        inverted: i.out_inverted,
    };
    match two_of(i) {
        Some(split) => {
            let (rise, fall) = (Range::of(split.rise), Range::of(split.fall));
            add_split(formula, some, net, rise, fall)
        }
        None => match i.kind.form() {
            Form::Gate => add_gate(formula, net, i.delay),
            Form::Change => {
                let Ok(pins) = u32::try_from(i.pins.len()) else {
                    return Ok(());
                };
                add_change(formula, some, net, pins, i.delay)
            }
            Form::Register(forced) => add_storage(formula, net, i.delay, forced, false),
            Form::Latch(forced) => add_storage(formula, net, i.delay, forced, true),
            Form::Checker(_) => Ok(()),
        },
    }
}
