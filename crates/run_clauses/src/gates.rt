//! What gates make of their pins.

ghost use Rattle.std.specs.Prelude.{◌≡◌, ◌<◌, ◌≤◌, ◌^◌, OnOk};
ghost use Rattle.run_clauses.specs.World.{StayTrueIn};
ghost use Rattle.run_clauses.specs.Meaning.{Adds, IsAll, IsBuffer, IsChoice, IsParity, IsSelected};

use crate::fact::{Fact, Said};
use crate::formula::Formula;
use crate::same::{begin, push_other};
use element_kinds::Kind;
use flat_circuit::Circuit;
use scald_base::NoMemory;

/// The gate of an instance at a tick.
#[derive(Clone, Copy, Debug)]
pub struct Gate {
    pub instance: u32,
    pub tick: u32,
    pub pins: u32,
}

impl Gate {
    fn own(self) -> Fact
        ensures { result ≡ Fact.Own self.instance self.tick }
    {
        Fact::Own {
            instance: self.instance,
            tick: self.tick,
        }
    }

    fn pin(self, pin: u32) -> Fact
        ensures { result ≡ Fact.Pin self.instance pin self.tick }
    {
        Fact::Pin {
            instance: self.instance,
            pin,
            tick: self.tick,
        }
    }

    fn parity(self, pin: u32) -> Fact
        ensures { result ≡ Fact.Parity self.instance pin self.tick }
    {
        Fact::Parity {
            instance: self.instance,
            pin,
            tick: self.tick,
        }
    }
}

/// That the gate's bit is the bit of one pin.
fn add_buffer(formula: &mut Formula, gate: Gate) -> Result<(), NoMemory>
    ensures { OnOk result (Adds (IsBuffer gate) formula.old formula.new) }
{
    formula.push(&[gate.own().is_not(), gate.pin(0).is()])?;
    formula.push(&[gate.own().is(), gate.pin(0).is_not()])
}

/// That the gate has a bit exactly if all pins have it: 1 of an AND, 0 of an OR.
fn add_all(
    formula: &mut Formula,
    some: &mut Vec<Said>,
    gate: Gate,
    bit: bool,
) -> Result<(), NoMemory>
    ensures { OnOk result (Adds (IsAll gate bit) formula.old formula.new) }
{
    begin(some, &[gate.own().at(bit)])?;
    for pin in 0..gate.pins {
        formula.push(&[gate.own().at(!bit), gate.pin(pin).at(bit)])?;
        some.push(gate.pin(pin).at(!bit))?;
    }
    formula.push(some)
}

/// That the gate's bit is the parity of its pins, pin by pin.
fn add_parity(formula: &mut Formula, gate: Gate) -> Result<(), NoMemory>
    ensures { OnOk result (Adds (IsParity gate) formula.old formula.new) }
{
    for pin in 0..gate.pins {
        push_other(
            formula,
            gate.parity(pin),
            gate.pin(pin),
            gate.parity(pin + 1),
        )?;
    }
    formula.push(&[gate.parity(gate.pins).is_not()])?;
    formula.push(&[gate.own().is_not(), gate.parity(0).is()])?;
    formula.push(&[gate.own().is(), gate.parity(0).is_not()])
}

/// Where the selects have the bits of a number, the first select the most significant: that the
/// gate's bit is that of the input with this number.
fn add_selected(
    formula: &mut Formula,
    some: &mut Vec<Said>,
    gate: Gate,
    selects: u32,
    number: u32,
    bit: bool,
) -> Result<(), NoMemory>
    requires few { selects ≤ 3 }
    requires within { number < 8 }
    ensures { OnOk result (Adds (IsSelected gate selects number) formula.old formula.new) }
{
    let input = gate.pin(selects + number);
    begin(some, &[gate.own().at(!bit), input.at(bit)])?;
    for select in 0..selects {
        let is_one = (number >> (selects - 1 - select)) % 2 == 1;
        some.push(gate.pin(select).at(!is_one))?;
    }
    formula.push(some)
}

/// That the gate's bit is that of the input that its selects number, of so many inputs.
fn add_choice(
    formula: &mut Formula,
    some: &mut Vec<Said>,
    gate: Gate,
    selects: u32,
    inputs: u32,
) -> Result<(), NoMemory>
    requires few { selects ≤ 3 }
    requires within { inputs ≤ 8 }
    requires fit { inputs ≤ 2 ^ selects }
    ensures { OnOk result (Adds (IsChoice gate selects) formula.old formula.new) }
{
    if gate.pins < selects {
        return Ok(());
    }
    for number in 0..inputs {
        add_selected(formula, some, gate, selects, number, true)?;
        add_selected(formula, some, gate, selects, number, false)?;
    }
    Ok(())
}

/// What is known of what a gate makes of its pins at a tick.
pub fn explain_own(
    formula: &mut Formula,
    some: &mut Vec<Said>,
    c: &Circuit,
    instance: u32,
    tick: u32,
) -> Result<(), NoMemory>
    ensures { OnOk result (StayTrueIn c.now formula.old formula.new) }
{
    let Some(i) = c.instance(instance) else {
        return Ok(());
    };
    let Ok(pins) = u32::try_from(i.pins.len()) else {
        return Ok(());
    };
    let gate = Gate {
        instance,
        tick,
        pins,
    };
    match i.kind {
        Kind::Buf => add_buffer(formula, gate),
        Kind::And => add_all(formula, some, gate, true),
        Kind::Or => add_all(formula, some, gate, false),
        Kind::Xor => add_parity(formula, gate),
        Kind::Mux2 => add_choice(formula, some, gate, 1, 2),
        Kind::Mux4 => add_choice(formula, some, gate, 2, 4),
        Kind::Mux8 => add_choice(formula, some, gate, 3, 8),
        _ => Ok(()),
    }
}
