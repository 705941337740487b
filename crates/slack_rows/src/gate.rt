//! The slacks of pins beside a marked one.

ghost use Rattle.std.specs.Prelude.{◌≡◌, ◌<◌, ◌^◌, not, IfOk, OnOk, Some, length, slice_get, true};
ghost use Rattle.scald_base.specs.Time.{period};
ghost use Rattle.step_values.specs.Cell.{values};
ghost use Rattle.skew_algebra.specs.Wave.{fold as folds};
ghost use Rattle.element_kinds.specs.Kinds.{closes_of, may_be_marked};
ghost use Rattle.flat_circuit.specs.Instances.{InstanceFits, PinExists};
ghost use Rattle.fixpoint_engine.specs.Waves.{pin_wave as wave_shown, waves_of};
ghost use Rattle.gate_eval.specs.Hold.{closed_bit, staying};
ghost use Rattle.std.specs.Option.{option_map};
ghost use Rattle.critical_paths.specs.declared.direction.Direction.TheVariants.{Change};
ghost use Rattle.critical_paths.specs.Event.{Events, events};
ghost use Rattle.critical_paths.specs.Region.{IsCyclic};
ghost use Rattle.critical_paths.specs.Known.{Knows};
ghost use Rattle.critical_paths.specs.Reached.{KnowsArrivals};
ghost use Rattle.critical_paths.specs.Views.{Sees};
ghost use Rattle.slack_rows.specs.Exact.{AreOfHeld, AreOfPins, AreOfPlace};
ghost use Rattle.slack_rows.specs.Held.{AreSlots, GoesOn, IsHeld, IsSlots, TellBeside, TellParts, TellSides, launches_of, two_of, watch_at};
ghost use Rattle.slack_rows.specs.Launched.{opening};
ghost use Rattle.slack_rows.specs.Limit.{mark_by_arrivals, pin_folds, finding_mark};
ghost use Rattle.slack_rows.specs.Views.{Tells};
ghost use Rattle.slack_rows.specs.Watch.{opens};
ghost use Rattle.slack_rows.specs.declared.parameter.Word.TheVariants.{Gate, Before as GateBefore, After as GateAfter};

use crate::held::Held;
use crate::limits::is_net;
use crate::slack::Slacks;
use crate::watch::{fold, slots, still_slacks};
use critical_paths::{Direction, Paths, Slots, Test, View};
use flat_circuit::{Instance, Kind, Pin};
use scald_base::NoMemory;
use step_values::Value;
use wave_core::CyclicWave;

/// The pin in a place.
fn pin_of(gate: &Instance, place: usize) -> Pin
    requires { place < length gate.now.pins }
    ensures { slice_get gate.now.pins place ≡ Some result }
{
    gate.pins.as_slice()[place]
}

/// A pin beside the marked one, and how that opens and shuts.
pub fn held_beside(gate: &Instance, marked: usize, place: usize) -> Held
    requires marked { marked < length gate.now.pins }
    requires place { place < length gate.now.pins }
    requires few { length gate.now.pins < 2 ^ 16 }
    ensures pin { slice_get gate.now.pins place ≡ Some result.pin }
    ensures clock { slice_get gate.now.pins marked ≡ Some result.clock }
    ensures place { result.place ≡ place }
    ensures opens { result.opens ≡ opening (closed_bit gate.now.kind) }
    ensures shuts { result.shuts ≡ opening (not (closed_bit gate.now.kind)) }
{
    let pins = gate.pins.as_slice();
    let opens = Direction::Rise.turned(gate.kind.closes() == Some(true));
    Held {
        place: place as u16,
        pin: pins[place],
        clock: pins[marked],
        opens,
        shuts: opens.turned(true),
    }
}

/// The slacks of a pin beside the marked one, which lets through in these slots.
fn beside<W: CyclicWave<Item = Value>>(
    view: &View<W>,
    paths: &mut Paths,
    held: Held,
    opened: &Slots,
) -> Result<Slacks, NoMemory>
    requires sees { Sees view.now.circuit.now view.now.waves.now view.now.hazards.now }
    requires knows { Knows view.now.circuit.now (waves_of view.now.waves.now) paths.old.nodes
        paths.old.met.entries }
    requires held { IsHeld view.now.circuit.now held }
    requires pin { PinExists (length view.now.circuit.now.nets) held.pin }
    requires opened { IsSlots (period view.now.circuit.now.header) opened.now }
    ensures paths { OnOk result (GoesOn view.now.circuit.now (waves_of view.now.waves.now)
        paths.old paths.new) }
    ensures finding { let c = view.now.circuit.now in let p = period c.header in
        let ws = waves_of view.now.waves.now in (lets : Events) → IsCyclic p lets →
        AreSlots p lets opened.now → IfOk result
        (TellParts p (launches_of c ws (Some held)) (two_of c ws (Some held)) held.place Change
        (watch_at p (events Change (folds values (wave_shown c ws held.pin))) lets)) }
    ensures are { let c = view.now.circuit.now in let ws = waves_of view.now.waves.now in
        IfOk result (AreOfHeld c ws paths.old held
        (events Change (folds values (wave_shown c ws held.pin))) opened.now) }
{
    // there is a slot, since no period is short
    let _period = view.period();
    let data = fold(view, held.pin)?;
    let changes = slots(view, &data, Test::May(Direction::Change))?;
    still_slacks(view, paths, &changes, opened, Some(held), Direction::Change)
}

/// What a mark shows that lets nothing through.
fn at_rest(kind: Kind) -> Value
    requires { may_be_marked kind ≡ true }
    ensures { option_map staying (closes_of kind) ≡ Some result }
{
    match kind.closes() {
        Some(true) => Value::One,
        Some(false) => Value::Zero,
        None => Value::Zero,
    }
}

/// The slacks of the pin in a place, if it is beside the marked one and on a net.
fn beside_if<W: CyclicWave<Item = Value>>(
    view: &View<W>,
    paths: &mut Paths,
    gate: &Instance,
    marked: usize,
    place: usize,
    opened: &Slots,
) -> Result<Slacks, NoMemory>
    requires sees { Sees view.now.circuit.now view.now.waves.now view.now.hazards.now }
    requires knows { Knows view.now.circuit.now (waves_of view.now.waves.now) paths.old.nodes
        paths.old.met.entries }
    requires kind { may_be_marked gate.now.kind ≡ true }
    requires marked { marked < length gate.now.pins }
    requires place { place < length gate.now.pins }
    requires fits { InstanceFits view.now.circuit.now.header
        (length view.now.circuit.now.nets) gate.now }
    requires opened { IsSlots (period view.now.circuit.now.header) opened.now }
    ensures paths { OnOk result (GoesOn view.now.circuit.now (waves_of view.now.waves.now)
        paths.old paths.new) }
    ensures finding { let c = view.now.circuit.now in let p = period c.header in
        let ws = waves_of view.now.waves.now in
        AreSlots p (opens gate.now.kind (pin_folds c ws gate.now marked)) opened.now → IfOk result
        (TellBeside c ws gate.now marked place) }
    ensures are { let c = view.now.circuit.now in let p = period c.header in
        let ws = waves_of view.now.waves.now in
        AreSlots p (opens gate.now.kind (pin_folds c ws gate.now marked)) opened.now → IfOk result
        (AreOfPlace c ws paths.old gate.now marked place) }
{
    let pin = pin_of(gate, place);
    let is_on = is_net(pin.target);
    if !is_on {
        return Ok(Slacks::NONE);
    }
    if place == marked {
        return Ok(Slacks::NONE);
    }
    let found = beside(view, paths, held_beside(gate, marked, place), opened)?;
    Ok(found)
}

/// The slacks of an instance of which this pin is marked.
pub fn gate_slacks<W: CyclicWave<Item = Value>>(
    view: &View<W>,
    paths: &mut Paths,
    gate: &Instance,
    marked: usize,
) -> Result<Slacks, NoMemory>
    requires sees { Sees view.now.circuit.now view.now.waves.now view.now.hazards.now }
    requires knows { Knows view.now.circuit.now (waves_of view.now.waves.now) paths.old.nodes
        paths.old.met.entries }
    requires kind { may_be_marked gate.now.kind ≡ true }
    requires marked { marked < length gate.now.pins }
    requires fits { InstanceFits view.now.circuit.now.header
        (length view.now.circuit.now.nets) gate.now }
    ensures paths { OnOk result (GoesOn view.now.circuit.now (waves_of view.now.waves.now)
        paths.old paths.new) }
    ensures level { let c = view.now.circuit.now in let ws = waves_of view.now.waves.now in
        IfOk result (λ found.
        Tells (period c.header) found.level (finding_mark c ws gate.now Gate (Some marked))) }
    ensures sides { let c = view.now.circuit.now in let ws = waves_of view.now.waves.now in
        let j = gate.now in IfOk result
        (TellSides (period c.header) (mark_by_arrivals c ws j (Some marked))
        (finding_mark c ws j GateBefore (Some marked)) (finding_mark c ws j GateAfter (Some marked))) }
    ensures are { let c = view.now.circuit.now in let ws = waves_of view.now.waves.now in
        let j = gate.now in KnowsArrivals c ws paths.old →
        IfOk result (AreOfPins c ws j marked (length j.pins)) }
{
    // there is a slot, since no period is short
    let _period = view.period();
    let pin = pin_of(gate, marked);
    let mark = fold(view, pin)?;
    let opened = slots(view, &mark, Test::Unlike(at_rest(gate.kind)))?;
    let mut all = Slacks::NONE;
    for place in 0..gate.pins.len() {
        let found = beside_if(view, paths, gate, marked, place, &opened)?;
        all = all.lesser(found);
    }
    Ok(all)
}
