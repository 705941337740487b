//! That a constraint of a circuit is broken.

ghost use Rattle.std.specs.Prelude.{◌≡◌, ◌+◌, ◌<◌, ◌≤◌, OnOk, Some, slice_get};
ghost use Rattle.scald_base.specs.Time as time;
ghost use Rattle.element_kinds.specs.Kinds.{closes_of, form_of};
ghost use Rattle.element_kinds.specs.declared.form.Form.TheVariants.{Checker, Gate};
ghost use Rattle.fixpoint_engine.specs.Waves.{marked_pin};
ghost use Rattle.pulse_check.specs.Break.{limit_of};
ghost use Rattle.run_clauses.specs.World.{StaysAt};

use crate::breaks::{Stretch, add_edge, add_lacking, add_mark, add_pulse};
use crate::fact::Said;
use crate::formula::Formula;
use element_kinds::{Check, Form};
use flat_circuit::{Circuit, Instance};
use narrowing::Constraint;
use scald_base::{AssertSpec, NoMemory};
use std::alloc::Global;

/// The last printed tick for which clauses are made: from it to the last tick of which they speak
/// it is less than two periods and two limits.
const LATEST: u32 = 0xFFFB_FFFF;

/// The place of the marked pin.
fn marked_place(i: &Instance) -> Option<usize>
    ensures { result ≡ marked_pin i.now }
{
    i.pins.as_slice().iter().position(|pin| pin.hold)
}

/// That a marked gate's constraint is broken; `false` if no clauses say so.
fn add_marked(
    formula: &mut Formula,
    some: &mut Vec<Said>,
    c: &Circuit,
    k: u32,
    i: &Instance,
    closed: bool,
    period: Stretch,
) -> Result<bool, NoMemory>
    requires there { slice_get c.now.instances k ≡ Some i.now }
    requires closes { closes_of i.now.kind ≡ Some closed }
    requires form { form_of i.now.kind ≡ Gate }
    requires end { period.end ≡ period.from + time.period c.now.header }
    ensures { OnOk result (StaysAt c.now (Constraint.Instance k) period.from
        formula.old formula.new) }
{
    c.known();
    let Some(place) = marked_place(i) else {
        return Ok(false);
    };
    let Ok(marked) = u32::try_from(place) else {
        return Ok(false);
    };
    let Ok(pins) = u32::try_from(i.pins.len()) else {
        return Ok(false);
    };
    add_mark(formula, some, k, marked, pins, closed, period)?;
    Ok(true)
}

/// That a checker's constraint about edges is broken; `false` if no clauses say so.
fn add_checked(
    formula: &mut Formula,
    some: &mut Vec<Said>,
    c: &Circuit,
    k: u32,
    i: &Instance,
    check: Check,
    period: Stretch,
) -> Result<bool, NoMemory>
    requires there { slice_get c.now.instances k ≡ Some i.now }
    requires form { form_of i.now.kind ≡ Checker check }
    requires end { period.end ≡ period.from + time.period c.now.header }
    requires early { period.from ≤ 4294705151 }
    ensures { OnOk result (StaysAt c.now (Constraint.Instance k) period.from
        formula.old formula.new) }
{
    c.header().known();
    match check {
        Check::SetupHold => {
            let setup = u32::from(i.limits.setup());
            let hold = u32::from(i.limits.hold());
            add_edge(formula, some, k, setup, hold, period)?;
            Ok(true)
        }
        _ => Ok(false),
    }
}

/// That an instance's constraint beside widths is broken; `false` if no clauses say so.
fn add_form(
    formula: &mut Formula,
    some: &mut Vec<Said>,
    c: &Circuit,
    k: u32,
    period: Stretch,
) -> Result<bool, NoMemory>
    requires end { period.end ≡ period.from + time.period c.now.header }
    requires early { period.from ≤ 4294705151 }
    ensures { OnOk result (StaysAt c.now (Constraint.Instance k) period.from
        formula.old formula.new) }
{
    c.header().known();
    let Some(i) = c.instance(k) else {
        return Ok(false);
    };
    match i.kind.form() {
        Form::Checker(check) => add_checked(formula, some, c, k, i, check, period),
        Form::Gate => match i.kind.closes() {
            None => Ok(false),
            Some(closed) => add_marked(formula, some, c, k, i, closed, period),
        },
        _ => Ok(false),
    }
}

/// That the width of an instance's pulses at a level is broken; `false` if there is no such
/// instance.
fn add_width(
    formula: &mut Formula,
    some: &mut Vec<Said>,
    c: &Circuit,
    k: u32,
    high: bool,
    period: Stretch,
) -> Result<bool, NoMemory>
    requires end { period.end ≡ period.from + time.period c.now.header }
    requires early { period.from ≤ 4294705151 }
    ensures { OnOk result (StaysAt c.now (Constraint.Pulse k high) period.from
        formula.old formula.new) }
{
    c.header().known();
    let Some(i) = c.instance(k) else {
        return Ok(false);
    };
    add_pulse(formula, some, k, width_of(i, high), high, period)?;
    Ok(true)
}

/// The least width of a pulse at a level.
fn width_of(i: &Instance, high: bool) -> u32
    ensures is { result ≡ limit_of i.now high }
    ensures few { result < 65536 }
{
    if high {
        u32::from(i.limits.high())
    } else {
        u32::from(i.limits.low())
    }
}

/// That a net's assertion is broken; `false` if there is no such net.
fn add_asserted(
    formula: &mut Formula,
    some: &mut Vec<Said>,
    alloc: Global,
    c: &Circuit,
    net: u32,
    period: Stretch,
) -> Result<bool, NoMemory>
    requires end { period.end ≡ period.from + time.period c.now.header }
    ensures { OnOk result (StaysAt c.now (Constraint.Net net) period.from
        formula.old formula.new) }
{
    c.known();
    let Some(found) = c.net(net) else {
        return Ok(false);
    };
    let nothing = AssertSpec::None;
    let spec = found.spec.or(&nothing);
    add_lacking(formula, some, alloc, c.header(), spec, net, period)?;
    Ok(true)
}

/// That the constraint is broken in the world; `false` if no clauses say so.
pub fn add_break(
    formula: &mut Formula,
    some: &mut Vec<Said>,
    alloc: Global,
    c: &Circuit,
    x: Constraint,
    printed: u32,
) -> Result<bool, NoMemory>
    ensures { OnOk result (StaysAt c.now x printed formula.old formula.new) }
{
    if printed > LATEST {
        return Ok(false);
    }
    c.header().known();
    let period = Stretch {
        from: printed,
        end: printed + u32::from(c.header().period()),
    };
    match x {
        Constraint::Instance(k) => add_form(formula, some, c, k, period),
        Constraint::Pulse { instance, high } => {
            add_width(formula, some, c, instance, high, period)
        }
        Constraint::Net(net) => add_asserted(formula, some, alloc, c, net, period),
    }
}
