//! Whether delays and bits are those of a choice that fits a circuit.

ghost use Rattle.std.specs.Prelude.{◌≡◌, ℕ, All, Bool, List, MatchBool, length};
ghost use Rattle.flat_circuit.specs.Split.{two_delays};
ghost use Rattle.flat_circuit.specs.Run.{DelaysFit, WireFits, WiresFit, Within};
ghost use Rattle.trace_sim.specs.Choice.{AreTraces, ChoiceFits, IsOneDelay, PickFits, PickFitsAt, chosen};

use crate::choice::{Choice, Levels, Traces};
use element_kinds::{Form, Kind};
use flat_circuit::{Circuit, Instance, Pin, Split, Target};
use scald_base::Delay;

/// Whether a choice has what `simulate` asks of it: delays within their bounds for each instance
/// and each pin, and a bit of each net for each tick. It needs no allocation.
pub fn choice_fits(c: &Circuit, choice: &Choice, ticks: u32) -> bool
    ensures { MatchBool result (ChoiceFits c.now choice.now ticks)
        (¬ (ChoiceFits c.now choice.now ticks)) }
{
    let instances = c.instance_count() as usize;
    choice.delays.len() == instances
        && choice.wires.len() == instances
        && picks_fit(c, choice)
        && are_traces(c, &choice.inputs, ticks)
        && are_traces(c, &choice.free, ticks)
}

// Whether the picks fit, as far as there are any.
fn picks_fit(c: &Circuit, choice: &Choice) -> bool
    ensures { MatchBool result ((k : ℕ) → PickFitsAt c.now choice.now k)
        (¬ ((k : ℕ) → PickFitsAt c.now choice.now k)) }
{
    for k in 0..c.instance_count() {
        if !fits_at(c, choice, k) {
            return false;
        }
    }
    true
}

fn fits_at(c: &Circuit, choice: &Choice, k: u32) -> bool
    ensures { MatchBool result (PickFitsAt c.now choice.now k) (¬ (PickFitsAt c.now choice.now k)) }
{
    match c.instance(k) {
        None => true,
        Some(i) => match choice.delays.get(k as usize) {
            None => true,
            Some(pick) => match choice.wires.get(k as usize) {
                None => true,
                Some(wires) => pick_fits(c, i, *pick, wires.as_slice()),
            },
        },
    }
}

/// Whether the delays that are picked at an instance are within its bounds, and those of the wires
/// to its pins within the bounds of their nets, 0 on a constant. Both picks are one if the
/// instance has one delay.
pub fn pick_fits(c: &Circuit, i: &Instance, pick: (u16, u16), wires: &[u16]) -> bool
    ensures { MatchBool result (PickFits c.now i.now pick wires.now)
        (¬ (PickFits c.now i.now pick wires.now)) }
{
    delays_fit(i.kind, i.delay, two_delays(i.kind, i.split), pick)
        && wires_fit(c, i.pins.as_slice(), wires)
}

fn two_delays(kind: Kind, split: Option<Split>) -> Option<Split>
    ensures { result ≡ two_delays kind split }
{
    if kind.may_split() { split } else { None }
}

fn is_within(bounds: Delay, ticks: u16) -> bool
    ensures { MatchBool result (Within bounds ticks) (¬ (Within bounds ticks)) }
{
    bounds.min <= ticks && ticks <= bounds.max
}

fn is_one_within(bounds: Delay, pick: (u16, u16)) -> bool
    ensures { MatchBool result (Within bounds pick.0 × (pick.0 ≡ pick.1))
        (¬ (Within bounds pick.0 × (pick.0 ≡ pick.1))) }
{
    is_within(bounds, pick.0) && pick.0 == pick.1
}

fn delays_fit(kind: Kind, bounds: Delay, split: Option<Split>, pick: (u16, u16)) -> bool
    ensures { (wires : List ℕ) → MatchBool result
        (DelaysFit kind bounds split (chosen pick wires) × IsOneDelay kind split pick)
        (¬ (DelaysFit kind bounds split (chosen pick wires) × IsOneDelay kind split pick)) }
{
    match split {
        Some(split) => is_within(split.rise, pick.0) && is_within(split.fall, pick.1),
        None => match kind.form() {
            Form::Gate => is_one_within(bounds, pick),
            Form::Change => true,
            Form::Register(_) => is_one_within(bounds, pick),
            Form::Latch(_) => is_one_within(bounds, pick),
            Form::Checker(_) => true,
        },
    }
}

fn wire_fits(c: &Circuit, target: Target, wire: u16) -> bool
    ensures { MatchBool result (WireFits c.now.nets target wire)
        (¬ (WireFits c.now.nets target wire)) }
{
    match target {
        Target::Constant(_) => wire == 0,
        Target::Net(n) => match c.net(n) {
            None => false,
            Some(net) => is_within(net.wire, wire),
        },
    }
}

fn wires_fit(c: &Circuit, pins: &[Pin], wires: &[u16]) -> bool
    ensures { MatchBool result (WiresFit c.now.nets pins.now wires.now)
        (¬ (WiresFit c.now.nets pins.now wires.now)) }
{
    if pins.len() != wires.len() {
        return false;
    }
    for place in 0..pins.len() {
        if !wire_fits(c, pins[place].target, wires[place]) {
            return false;
        }
    }
    true
}

// Whether there are so many bits of each net.
fn are_traces(c: &Circuit, traces: &Traces, ticks: u32) -> bool
    ensures { MatchBool result (AreTraces (length c.now.nets) ticks traces.now)
        (¬ (AreTraces (length c.now.nets) ticks traces.now)) }
{
    traces.len() == c.net_count() as usize && are_long(traces.as_slice(), ticks as usize)
}

fn are_long(rows: &[Levels], ticks: usize) -> bool
    ensures { MatchBool result (All (λ (row : List Bool). length row ≡ ticks) rows.now)
        (¬ (All (λ (row : List Bool). length row ≡ ticks) rows.now)) }
{
    for row in rows {
        if row.len() != ticks {
            return false;
        }
    }
    true
}
