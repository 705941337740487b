//! What pins show: their nets, a wire's delay before.

ghost use Rattle.std.specs.Prelude.{◌≡◌, ◌-◌, OnOk};
ghost use Rattle.run_clauses.specs.World.{StayTrueIn};
ghost use Rattle.scald_base.specs.Signal.{turned};
ghost use Rattle.run_clauses.specs.Meaning.{Adds, IsStep, ShowsNet};

use crate::fact::Fact;
use crate::formula::Formula;
use crate::same::{push_other, push_same};
use fixpoint_engine::wire_behind;
use flat_circuit::{Circuit, Target};
use scald_base::{Delay, NoMemory};

/// A pin of an instance, by its place.
#[derive(Clone, Copy, Debug)]
pub struct At {
    pub instance: u32,
    pub pin: u32,
    pub tick: u32,
}

impl At {
    /// That the pin shows 1 at the tick.
    pub fn shows(self) -> Fact
        ensures { result ≡ Fact.Pin self.instance self.pin self.tick }
    {
        Fact::Pin {
            instance: self.instance,
            pin: self.pin,
            tick: self.tick,
        }
    }

    /// What it shows a tick before; at tick 0 the same.
    pub fn showed(self) -> Fact
        ensures { result ≡ Fact.Pin self.instance self.pin (self.tick - 1) }
    {
        Fact::Pin {
            instance: self.instance,
            pin: self.pin,
            tick: self.tick.saturating_sub(1),
        }
    }

    fn wire(self, ticks: u32) -> Fact
        ensures { result ≡ Fact.Wire self.instance self.pin ticks }
    {
        Fact::Wire {
            instance: self.instance,
            pin: self.pin,
            ticks,
        }
    }
}

/// What a pin on a net shows, for each delay of the wire.
fn add_shown(
    formula: &mut Formula,
    at: At,
    net: u32,
    inverted: bool,
    wire: Delay,
) -> Result<(), NoMemory>
    ensures { OnOk result (Adds (ShowsNet at net inverted) formula.old formula.new) }
{
    for ticks in u32::from(wire.min)..u32::from(wire.max) + 1 {
        let seen = Fact::Net {
            net,
            tick: at.tick.saturating_sub(ticks),
        };
        let other = at.wire(ticks).is_not();
        push_same(formula, (other, other), at.shows().is(), seen.at(!inverted))?;
    }
    Ok(())
}

/// What a pin shows of a bit.
fn shown(inverted: bool, bit: bool) -> bool
    ensures { result ≡ turned inverted bit }
{
    bit != inverted
}

/// What is known of a pin.
pub fn explain_pin(formula: &mut Formula, c: &Circuit, at: At) -> Result<(), NoMemory>
    ensures { OnOk result (StayTrueIn c.now formula.old formula.new) }
{
    let Some(i) = c.instance(at.instance) else {
        return Ok(());
    };
    let Some(pin) = i.pins.get(at.pin as usize) else {
        return Ok(());
    };
    match pin.target {
        Target::Constant(bit) => formula.push(&[at.shows().at(shown(pin.inverted, bit))]),
        Target::Net(net) => {
            add_shown(formula, at, net, pin.inverted, wire_behind(c, pin.target))
        }
    }
}

/// That a pin steps exactly if it shows another bit than a tick before.
pub fn explain_step(formula: &mut Formula, at: At) -> Result<(), NoMemory>
    ensures { OnOk result (Adds (IsStep at) formula.old formula.new) }
{
    let steps = Fact::Step {
        instance: at.instance,
        pin: at.pin,
        tick: at.tick,
    };
    push_other(formula, steps, at.showed(), at.shows())
}
