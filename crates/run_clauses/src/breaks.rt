//! What a break is, form by form: its ticks, of which the least lies in the period from the printed
//! tick on, and what the run does at them.

ghost use Rattle.std.specs.Prelude.{◌≡◌, ◌+◌, ◌^◌, ◌<◌, OnOk, true};
ghost use Rattle.run_clauses.specs.Meaning.{Adds, HasBeside, Implies, ImpliesBoth, IsEdge, IsFirstIn, IsLacking, IsLetThrough, IsNarrow, IsNotBeside, IsSecondIn, LacksAt, LeavesIf, Puts, shown_at, shown_before};

use crate::fact::{Fact, Said};
use crate::formula::Formula;
use crate::numbers::greater;
use crate::pins::At;
use crate::same::begin;
use pin_waves::wide_wave;
use scald_base::{AssertSpec, Header, NoMemory};
use std::alloc::Global;
use step_values::{Step, Value};
use wave_core::{CyclicWave, SlotWave};

/// The ticks in which something of a break lies: from one to before another.
#[derive(Clone, Copy, Debug)]
pub struct Stretch {
    pub from: u32,
    pub end: u32,
}

/// That the first tick of the break is one of a stretch.
fn add_firsts(formula: &mut Formula, some: &mut Vec<Said>, stretch: Stretch) -> Result<(), NoMemory>
    ensures { OnOk result (Adds (IsFirstIn stretch) formula.old formula.new) }
{
    some.clear();
    for tick in stretch.from..stretch.end {
        let first = Fact::First { tick };
        formula.push(&[first.is_not(), Fact::Lasts { tick }.is()])?;
        some.push(first.is())?;
    }
    formula.push(some)
}

/// Where the break's first tick is this, that its second is one of a stretch.
fn add_seconds(
    formula: &mut Formula,
    some: &mut Vec<Said>,
    first: u32,
    stretch: Stretch,
) -> Result<(), NoMemory>
    ensures { OnOk result (Adds (IsSecondIn first stretch) formula.old formula.new) }
{
    begin(some, &[Fact::First { tick: first }.is_not()])?;
    for tick in stretch.from..stretch.end {
        some.push(Fact::Second { tick }.is())?;
    }
    formula.push(some)
}

/// If a fact holds, that another does.
fn add_implied(formula: &mut Formula, fact: Fact, other: Fact) -> Result<(), NoMemory>
    ensures { OnOk result (Adds (Implies fact other true) formula.old formula.new) }
{
    formula.push(&[fact.is_not(), other.is()])
}

/// If two facts hold, that a third does.
fn add_implied_by_two(
    formula: &mut Formula,
    one: Fact,
    two: Fact,
    other: Fact,
) -> Result<(), NoMemory>
    ensures { OnOk result (Adds (ImpliesBoth one two other) formula.old formula.new) }
{
    formula.push(&[one.is_not(), two.is_not(), other.is()])
}

/// If a fact holds, that a pin shows a bit.
fn add_shows(formula: &mut Formula, fact: Fact, at: At, bit: bool) -> Result<(), NoMemory>
    ensures { OnOk result (Adds (Implies fact (shown_at at) bit) formula.old formula.new) }
{
    formula.push(&[fact.is_not(), at.shows().at(bit)])
}

/// If a fact holds, that a pin showed a bit a tick before.
fn add_showed(formula: &mut Formula, fact: Fact, at: At, bit: bool) -> Result<(), NoMemory>
    ensures { OnOk result (Adds (Implies fact (shown_before at) bit) formula.old formula.new) }
{
    formula.push(&[fact.is_not(), at.showed().at(bit)])
}

/// If a fact holds, that a pin does not stay at a bit.
fn add_leaves(formula: &mut Formula, fact: Fact, at: At, bit: bool) -> Result<(), NoMemory>
    ensures { OnOk result (Adds (LeavesIf fact at bit) formula.old formula.new) }
{
    formula.push(&[fact.is_not(), at.showed().at(!bit), at.shows().at(!bit)])
}

/// That a clock rises, and an input changes too near to that.
pub fn add_edge(
    formula: &mut Formula,
    some: &mut Vec<Said>,
    k: u32,
    setup: u32,
    hold: u32,
    period: Stretch,
) -> Result<(), NoMemory>
    requires { period.end + setup + hold < 2 ^ 32 }
    ensures { OnOk result (Adds (IsEdge k setup hold period) formula.old formula.new) }
{
    let edges = Stretch {
        from: period.from,
        end: period.end + setup,
    };
    add_firsts(formula, some, edges)?;
    for edge in edges.from..edges.end {
        let first = Fact::First { tick: edge };
        let clock = At {
            instance: k,
            pin: 0,
            tick: edge,
        };
        add_shows(formula, first, clock, true)?;
        add_showed(formula, first, clock, false)?;
        let near = Stretch {
            from: greater(period.from, (edge + 1).saturating_sub(setup)),
            end: edge + hold + 1,
        };
        add_seconds(formula, some, edge, near)?;
    }
    for change in period.from..edges.end + hold {
        let second = Fact::Second { tick: change };
        add_implied(formula, second, Fact::Lasts { tick: change })?;
        add_implied(
            formula,
            second,
            Fact::Step {
                instance: k,
                pin: 1,
                tick: change,
            },
        )?;
    }
    Ok(())
}

/// That a pulse at a level is narrower than a checker asks for.
pub fn add_pulse(
    formula: &mut Formula,
    some: &mut Vec<Said>,
    k: u32,
    width: u32,
    high: bool,
    period: Stretch,
) -> Result<(), NoMemory>
    requires { period.end + width < 2 ^ 32 }
    ensures { OnOk result (Adds (IsNarrow k width high period) formula.old formula.new) }
{
    add_firsts(formula, some, period)?;
    for start in period.from..period.end {
        let first = Fact::First { tick: start };
        let clock = At {
            instance: k,
            pin: 0,
            tick: start,
        };
        add_shows(formula, first, clock, high)?;
        add_showed(formula, first, clock, !high)?;
        let ends = Stretch {
            from: start + 1,
            end: start + width,
        };
        add_seconds(formula, some, start, ends)?;
    }
    for end in period.from..period.end + width {
        let second = Fact::Second { tick: end };
        let clock = At {
            instance: k,
            pin: 0,
            tick: end,
        };
        add_implied(formula, second, Fact::Lasts { tick: end })?;
        add_shows(formula, second, clock, !high)?;
        add_showed(formula, second, clock, high)?;
    }
    Ok(())
}

/// That the break is one of a pin beside the marked one.
fn add_beside(
    formula: &mut Formula,
    some: &mut Vec<Said>,
    marked: u32,
    pins: u32,
) -> Result<(), NoMemory>
    ensures { OnOk result (Adds (HasBeside marked pins) formula.old formula.new) }
{
    some.clear();
    for beside in 0..pins {
        put_beside(some, marked, beside)?;
    }
    formula.push(some)
}

/// Puts at the end that the break is one of a pin, if that is not the marked one.
fn put_beside(some: &mut Vec<Said>, marked: u32, beside: u32) -> Result<(), NoMemory>
    ensures { OnOk result (Puts (IsNotBeside marked beside) some.old.items some.new.items) }
{
    if beside == marked {
        return Ok(());
    }
    some.push(Fact::Beside { pin: beside }.is())?;
    Ok(())
}

/// That a pin steps while the marked one lets it through.
pub fn add_mark(
    formula: &mut Formula,
    some: &mut Vec<Said>,
    k: u32,
    marked: u32,
    pins: u32,
    closed: bool,
    period: Stretch,
) -> Result<(), NoMemory>
    ensures { OnOk result (Adds (IsLetThrough k marked pins closed period)
        formula.old formula.new) }
{
    add_firsts(formula, some, period)?;
    add_beside(formula, some, marked, pins)?;
    for tick in period.from..period.end {
        let first = Fact::First { tick };
        add_leaves(
            formula,
            first,
            At {
                instance: k,
                pin: marked,
                tick,
            },
            closed,
        )?;
        for beside in 0..pins {
            let other = Fact::Beside { pin: beside };
            add_implied_by_two(
                formula,
                first,
                other,
                Fact::Step {
                    instance: k,
                    pin: beside,
                    tick,
                },
            )?;
        }
    }
    Ok(())
}

/// That a net makes a step that its assertion's wide wave lacks.
pub fn add_lacking(
    formula: &mut Formula,
    some: &mut Vec<Said>,
    alloc: Global,
    h: &Header,
    spec: &AssertSpec,
    net: u32,
    period: Stretch,
) -> Result<(), NoMemory>
    ensures { OnOk result (Adds (IsLacking h.now spec.now net period) formula.old formula.new) }
{
    let wide: SlotWave<Value> = wide_wave(alloc, spec, h)?;
    add_firsts(formula, some, period)?;
    for tick in period.from..period.end {
        let slot = (tick % u32::from(h.period())) as u16;
        add_lacking_at(formula, wide.at(slot), net, tick)?;
    }
    Ok(())
}

/// That the break is not a step of a net at a tick that a value permits.
fn add_lacking_at(formula: &mut Formula, value: Value, net: u32, tick: u32) -> Result<(), NoMemory>
    ensures { OnOk result (Adds (LacksAt value net tick) formula.old formula.new) }
{
    add_lacking_step(formula, value, net, tick, false, false)?;
    add_lacking_step(formula, value, net, tick, false, true)?;
    add_lacking_step(formula, value, net, tick, true, false)?;
    add_lacking_step(formula, value, net, tick, true, true)
}

/// The same of one step.
fn add_lacking_step(
    formula: &mut Formula,
    value: Value,
    net: u32,
    tick: u32,
    before: bool,
    after: bool,
) -> Result<(), NoMemory>
    ensures { OnOk result (Adds (LacksAt value net tick) formula.old formula.new) }
{
    if value.permits(Step { before, after }) {
        let earlier = tick.saturating_sub(1);
        let was = Fact::Net { net, tick: earlier };
        let is = Fact::Net { net, tick };
        let first = Fact::First { tick };
        return formula.push(&[first.is_not(), was.at(!before), is.at(!after)]);
    }
    Ok(())
}
