//! What change functions give: the same as a tick before, unless a pin stepped within their reach.

ghost use Rattle.std.specs.Prelude.{OnOk};
ghost use Rattle.run_clauses.specs.Meaning.{Adds, IsChange, NoneSteps, NoneStepsAt, Puts};

use crate::driven::Driven;
use crate::fact::{Fact, Said};
use crate::formula::Formula;
use crate::same::begin;
use scald_base::{Delay, NoMemory};

/// Puts at the end that some pin stepped at a tick that the bounds reach.
fn put_steps(some: &mut Vec<Said>, net: Driven, pins: u32, delay: Delay) -> Result<(), NoMemory>
    ensures { OnOk result (Puts (NoneSteps net pins delay) some.old.items some.new.items) }
{
    for ticks in u32::from(delay.min)..u32::from(delay.max) + 1 {
        put_steps_at(some, net, pins, net.tick.saturating_sub(ticks))?;
    }
    Ok(())
}

/// Puts at the end that some pin stepped at a tick.
fn put_steps_at(some: &mut Vec<Said>, net: Driven, pins: u32, tick: u32) -> Result<(), NoMemory>
    ensures { OnOk result (Puts (NoneStepsAt net pins tick) some.old.items some.new.items) }
{
    for pin in 0..pins {
        let instance = net.instance;
        some.push(Fact::Step {
            instance,
            pin,
            tick,
        }
        .is())?;
    }
    Ok(())
}

/// That the output is as it was, unless some pin stepped.
pub fn add_change(
    formula: &mut Formula,
    some: &mut Vec<Said>,
    net: Driven,
    pins: u32,
    delay: Delay,
) -> Result<(), NoMemory>
    ensures { OnOk result (Adds (IsChange net pins delay) formula.old formula.new) }
{
    add_change_to(formula, some, net, pins, delay, true)?;
    add_change_to(formula, some, net, pins, delay, false)
}

/// The same of one bit of the output.
fn add_change_to(
    formula: &mut Formula,
    some: &mut Vec<Said>,
    net: Driven,
    pins: u32,
    delay: Delay,
    bit: bool,
) -> Result<(), NoMemory>
    ensures { OnOk result (Adds (IsChange net pins delay) formula.old formula.new) }
{
    begin(some, &[net.is_past(), net.out(!bit), net.old(bit)])?;
    put_steps(some, net, pins, delay)?;
    formula.push(some)
}
