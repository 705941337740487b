//! How much waves leave open about a constraint: a number that guides the choice of splits, of
//! which nothing is promised. Less is better.

ghost use Rattle.std.specs.Prelude.{length};
ghost use Rattle.std.specs.List.{All};
ghost use Rattle.flat_circuit.specs.Instances.{PinExists};
ghost use Rattle.fixpoint_engine.specs.Waves.{FitWaves};

use crate::constraint::Constraint;
use element_kinds::{Check, Form};
use fixpoint_engine::{Waves, pin_wave};
use flat_circuit::{Circuit, Instance, Pin};
use scald_base::NoMemory;
use std::alloc::Global;
use step_values::Value;
use wave_core::{Cell, CyclicWave};

/// The marks of a period's slots, counted from the first on: how many of the first so many are
/// marked.
fn counted(alloc: Global, marks: &[bool]) -> Result<Vec<u64>, NoMemory> {
    let mut counts = Vec::new(alloc);
    let mut count: u64 = 0;
    counts.push(0)?;
    for mark in marks {
        count = count.saturating_add(u64::from(*mark));
        counts.push(count)?;
    }
    Ok(counts)
}

/// How many of the first so many slots are marked.
fn counted_to(counts: &[u64], slots: usize) -> u64 {
    match counts.get(slots) {
        Some(count) => *count,
        None => 0,
    }
}

/// How many slots are marked of so many from one on, round the period.
fn marked_from(counts: &[u64], first: usize, len: usize) -> u64 {
    let Some(period) = counts.len().checked_sub(1) else {
        return 0;
    };
    let last = first.saturating_add(len);
    if last <= period {
        return counted_to(counts, last).saturating_sub(counted_to(counts, first));
    }
    let behind = counted_to(counts, period).saturating_sub(counted_to(counts, first));
    behind.saturating_add(counted_to(counts, last.saturating_sub(period)))
}

/// The slots in which a wave without skew may change, or only those in which it may rise.
fn changing<W: CyclicWave<Item = Value>>(
    alloc: Global,
    fold: &W,
    rises: bool,
) -> Result<Vec<bool>, NoMemory> {
    let mut marks = Vec::new(alloc);
    for slot in 0..fold.period() {
        let value = fold.at(slot);
        let is_rise = !matches!(value, Value::F);
        marks.push(!value.quiet() && (is_rise || !rises))?;
    }
    Ok(marks)
}

/// The slots in which a pin may change, or only those in which it may rise.
fn changing_at<W: CyclicWave<Item = Value>>(
    alloc: Global,
    c: &Circuit,
    waves: &Waves<W>,
    pin: Pin,
    rises: bool,
) -> Result<Vec<bool>, NoMemory>
    requires exists { PinExists (length c.now.nets) pin }
    requires fit { FitWaves c.now waves.now }
{
    let shown = pin_wave(alloc, c, waves, pin)?;
    let fold = shown.folded(alloc)?;
    changing(alloc, &fold, rises)
}

/// How many pairs there are of a slot in which the clock may rise and one near it in which the
/// input may change.
fn pairs(clock: &[bool], input: &[u64], setup: usize, hold: usize) -> u64 {
    let period = clock.len();
    let mut found: u64 = 0;
    for (slot, rises) in clock.iter().enumerate() {
        if *rises && period > 0 {
            let first = slot
                .saturating_add(period)
                .saturating_add(1)
                .saturating_sub(setup)
                % period;
            found = found.saturating_add(marked_from(input, first, setup.saturating_add(hold)));
        }
    }
    found
}

/// How many slots are marked.
fn count(marks: &[bool]) -> u64 {
    let mut count: u64 = 0;
    for mark in marks {
        count = count.saturating_add(u64::from(*mark));
    }
    count
}

/// The doubt about a checker of edges.
fn doubt_at_edges<W: CyclicWave<Item = Value>>(
    alloc: Global,
    c: &Circuit,
    waves: &Waves<W>,
    i: &Instance,
) -> Result<u64, NoMemory>
    requires exist { All (PinExists (length c.now.nets)) i.now.pins }
    requires fit { FitWaves c.now waves.now }
{
    let (Some(clock), Some(input)) = (i.pins.get(0), i.pins.get(1)) else {
        return Ok(0);
    };
    let rises = changing_at(alloc, c, waves, *clock, true)?;
    let changes = changing_at(alloc, c, waves, *input, false)?;
    let counts = counted(alloc, &changes)?;
    let setup = usize::from(i.limits.setup());
    let hold = usize::from(i.limits.hold());
    Ok(pairs(&rises, &counts, setup, hold))
}

/// How many slots there are in which the pins of an instance may change.
fn doubt_of_pins<W: CyclicWave<Item = Value>>(
    alloc: Global,
    c: &Circuit,
    waves: &Waves<W>,
    i: &Instance,
) -> Result<u64, NoMemory>
    requires exist { All (PinExists (length c.now.nets)) i.now.pins }
    requires fit { FitWaves c.now waves.now }
{
    let mut found: u64 = 0;
    for pin in i.pins.as_slice() {
        let marks = changing_at(alloc, c, waves, *pin, false)?;
        found = found.saturating_add(count(&marks));
    }
    Ok(found)
}

/// What the waves of all nets leave open about an instance.
fn doubt_of_instance<W: CyclicWave<Item = Value>>(
    alloc: Global,
    c: &Circuit,
    waves: &Waves<W>,
    k: u32,
) -> Result<u64, NoMemory>
    requires { FitWaves c.now waves.now }
{
    c.known();
    let Some(i) = c.instance(k) else {
        return Ok(0);
    };
    match i.kind.form() {
        Form::Checker(Check::SetupHold) => doubt_at_edges(alloc, c, waves, i),
        Form::Checker(Check::RiseFall) => doubt_at_edges(alloc, c, waves, i),
        _ => doubt_of_pins(alloc, c, waves, i),
    }
}

/// What the waves of all nets leave open about a constraint.
pub fn doubt<W: CyclicWave<Item = Value>>(
    alloc: Global,
    c: &Circuit,
    waves: &Waves<W>,
    x: Constraint,
) -> Result<u64, NoMemory>
    requires { FitWaves c.now waves.now }
{
    match x {
        Constraint::Instance(k) => doubt_of_instance(alloc, c, waves, k),
        Constraint::Pulse { instance, high: _ } => doubt_of_instance(alloc, c, waves, instance),
        Constraint::Net(net) => {
            if net as usize >= waves.len() {
                return Ok(0);
            }
            let fold = waves.at(net).folded(alloc)?;
            let marks = changing(alloc, &fold, false)?;
            Ok(count(&marks))
        }
    }
}
