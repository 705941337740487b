//! All clauses: what is known of each fact that a clause speaks of, until nothing new is spoken of.

ghost use Rattle.std.specs.Prelude.{OnOk};
ghost use Rattle.run_clauses.specs.Meaning.{Adds, HasBefore};
ghost use Rattle.run_clauses.specs.World.{StayTrueInCase};

use crate::choices::explain_choice;
use crate::driven::explain_driven;
use crate::fact::{Fact, Said};
use crate::formula::Formula;
use crate::gates::explain_own;
use crate::pins::{At, explain_pin, explain_step};
use crate::undriven::{Input, explain_undriven};
use flat_circuit::{CaseValue, Circuit};
use scald_base::NoMemory;

/// That a run which has a tick has the one before it.
fn add_lasts(formula: &mut Formula, tick: u32) -> Result<(), NoMemory>
    ensures { OnOk result (Adds (HasBefore tick) formula.old formula.new) }
{
    let before = tick.saturating_sub(1);
    formula.push(&[
        Fact::Lasts { tick }.is_not(),
        Fact::Lasts { tick: before }.is(),
    ])
}

/// What is known of a net at a tick.
fn explain_net(
    formula: &mut Formula,
    some: &mut Vec<Said>,
    c: &Circuit,
    values: &[CaseValue],
    net: u32,
    tick: u32,
) -> Result<(), NoMemory>
    ensures { OnOk result (StayTrueInCase c.now values.now formula.old formula.new) }
{
    let Some(found) = c.net(net) else {
        return Ok(());
    };
    match found.driver {
        Some(driver) => { explain_driven(formula, some, c, net, driver, tick) }
        None => {
            let input = Input { net, tick };
            explain_undriven(formula, c, values, found, input)
        }
    }
}

/// What is known of a fact. Of the ticks of the break all is said with the break.
fn explain(
    formula: &mut Formula,
    some: &mut Vec<Said>,
    c: &Circuit,
    values: &[CaseValue],
    fact: Fact,
) -> Result<(), NoMemory>
    ensures { OnOk result (StayTrueInCase c.now values.now formula.old formula.new) }
{
    match fact {
        Fact::Lasts { tick } => add_lasts(formula, tick),
        Fact::Net { net, tick } => { explain_net(formula, some, c, values, net, tick) }
        Fact::Pin {
            instance,
            pin,
            tick,
        } => {
            let at = At {
                instance,
                pin,
                tick,
            };
            explain_pin(formula, c, at)
        }
        Fact::Step {
            instance,
            pin,
            tick,
        } => {
            let at = At {
                instance,
                pin,
                tick,
            };
            explain_step(formula, at)
        }
        Fact::Own { instance, tick } => { explain_own(formula, some, c, instance, tick) }
        Fact::First { .. } => Ok(()),
        Fact::Second { .. } => Ok(()),
        Fact::Beside { .. } => Ok(()),
        choice => explain_choice(formula, some, c, choice),
    }
}

/// The clauses of what is known of facts, the nearest to the break first, and of no more than so
/// many.
pub fn explain_all(
    formula: &mut Formula,
    some: &mut Vec<Said>,
    c: &Circuit,
    values: &[CaseValue],
    most: usize,
) -> Result<(), NoMemory>
    ensures { OnOk result (StayTrueInCase c.now values.now formula.old formula.new) }
{
    for number in 0..most {
        let Some(fact) = formula.fact(number) else {
            return Ok(());
        };
        explain(formula, some, c, values, fact)?;
    }
    Ok(())
}
