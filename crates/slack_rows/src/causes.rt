//! The paths that a slack comes from.

ghost use Rattle.std.specs.Prelude.{◌≡◌, ℕ, ◌^◌, IfOk, IfSome, None, OnOk, Some, false, slice_get};
ghost use Rattle.std.specs.List.{All};
ghost use Rattle.gate_eval.specs.Hold.{closed_bit};
ghost use Rattle.fixpoint_engine.specs.Waves.{marked_pin as marked_in, target_wire, waves_of};
ghost use Rattle.critical_paths.specs.declared.direction.Direction.TheVariants.{Rise};
ghost use Rattle.critical_paths.specs.Event.{other_corner};
ghost use Rattle.critical_paths.specs.Path.{bound};
ghost use Rattle.critical_paths.specs.Tick.{IsWithin};
ghost use Rattle.critical_paths.specs.Known.{Knows};
ghost use Rattle.critical_paths.specs.Views.{IsPin, Sees};
ghost use Rattle.slack_rows.specs.Held.{GoesOn, IsHeld, step_held};
ghost use Rattle.slack_rows.specs.Launched.{opening};
ghost use Rattle.flat_circuit.specs.declared.instance.Pin.{Pin};
ghost use Rattle.slack_rows.specs.Shown.{ExplainAt, ExplainEnds, Explains, IsEndPathOf, IsHeldAt, IsPathOf, IsPathOfNet, ShowAt, ShowsAt, change_finding, clock_tick, data_tick, edge_tick, is_by_paths, is_by_way, net_change, pulse_end};
ghost use Rattle.slack_rows.specs.Views.{corner_of, is_of_width};

use crate::checker::held_by;
use crate::gate::held_beside;
use crate::held::Held;
use crate::limits::marked_pin;
use crate::parameter::{Parameter, Subject};
use crate::slack::{By, Finding};
use crate::window::Window;
use critical_paths::{At, Corner, Event, Paths, PinEvent, Reading, View};
use fixpoint_engine::wire_behind;
use flat_circuit::Instance;
use scald_base::{Delay, NoMemory};
use step_values::Value;
use wave_core::CyclicWave;

/// More ticks than lie between the first period and any slack.
const FAR: u64 = 0x1000_0000_0000;

/// The paths of a slack: of the data and of the clock, or of the begin and the end of a pulse.
#[derive(Clone, Copy)]
pub struct Causes {
    pub data: Option<At>,
    pub clock: Option<At>,
}

impl Causes {
    /// None.
    const NONE: Causes = Causes {
        data: None,
        clock: None,
    };
}

/// The bound of a delay.
fn bound_of(corner: Corner, delay: &Delay) -> u16
    ensures { result ≡ bound corner delay.now }
{
    delay.known();
    corner.bound(*delay)
}

/// The paths of the begin and the end of a pulse at the first pin.
fn pulse_paths<W: CyclicWave<Item = Value>>(
    view: &View<W>,
    paths: &mut Paths,
    checker: &Instance,
    finding: Finding,
) -> Result<Causes, NoMemory>
    requires sees { Sees view.now.circuit.now view.now.waves.now view.now.hazards.now }
    requires knows { Knows view.now.circuit.now (waves_of view.now.waves.now) paths.old.nodes
        paths.old.met.entries }
    requires pins { All (IsPin view.now.circuit.now) checker.now.pins }
    requires first { IsWithin (2 ^ 44) finding.window.first }
    requires last { IsWithin (2 ^ 44) finding.window.last }
    ensures paths { OnOk result (GoesOn view.now.circuit.now (waves_of view.now.waves.now)
        paths.old paths.new) }
    ensures begin { IfOk result (λ found. ShowsAt finding.window.first found.«data») }
    ensures end { IfOk result (λ found. ShowsAt finding.window.last found.clock) }
    ensures corners { IfOk result (λ found.
        Explains paths.new.nodes Corner.Late found.«data»
        × Explains paths.new.nodes Corner.Early found.clock) }
    ensures step { (pin : Pin) → slice_get checker.now.pins 0 ≡ Some pin → IfOk result (λ found.
        IsEndPathOf view.now.circuit.now (waves_of view.now.waves.now) paths.new.nodes
        (pulse_end pin finding) found.clock) }
{
    let Some(pin) = checker.pins.as_slice().get(0) else {
        return Ok(Causes::NONE);
    };
    let begin = PinEvent {
        pin: *pin,
        direction: finding.direction,
        tick: finding.window.first,
        corner: Corner::Late,
    };
    let end = PinEvent {
        pin: *pin,
        direction: finding.direction.turned(true),
        tick: finding.window.last,
        corner: Corner::Early,
    };
    let data = view.end_path(paths, begin)?;
    let clock = view.end_path(paths, end)?;
    Ok(Causes { data, clock })
}

/// What an instance's limit is held against: the clock of a checker, or the mark.
fn held_of(instance: &Instance, place: u16) -> Option<Held>
    ensures pin { IfSome result (λ held.
        (k : ℕ) × (slice_get instance.now.pins k ≡ Some held.pin)) }
    ensures clock { IfSome result (λ held.
        (k : ℕ) × (slice_get instance.now.pins k ≡ Some held.clock)) }
    ensures beside { (marked : ℕ) → marked_in instance.now ≡ Some marked → IfSome result
        (λ held. IsHeldAt instance.now place marked (opening (closed_bit instance.now.kind)) held) }
    ensures check { marked_in instance.now ≡ None → IfSome result
        (IsHeldAt instance.now 1 0 Rise) }
{
    let count = instance.pins.len();
    let number = usize::from(place);
    match (marked_pin(instance), instance.kind.check()) {
        (Some(marked), _) if marked < count && number < count && count < 65_536 => {
            Some(held_beside(instance, marked, number))
        }
        (None, Some(check)) if 2 <= count => Some(held_by(instance, check)),
        _ => None,
    }
}

/// The path of the change that a slack comes from.
fn change_path<W: CyclicWave<Item = Value>>(
    view: &View<W>,
    paths: &mut Paths,
    held: Held,
    corner: Corner,
    finding: Finding,
) -> Result<Option<At>, NoMemory>
    requires sees { Sees view.now.circuit.now view.now.waves.now view.now.hazards.now }
    requires knows { Knows view.now.circuit.now (waves_of view.now.waves.now) paths.old.nodes
        paths.old.met.entries }
    requires held { IsHeld view.now.circuit.now held }
    requires tick { IsWithin (2 ^ 44) finding.tick }
    ensures paths { OnOk result (GoesOn view.now.circuit.now (waves_of view.now.waves.now)
        paths.old paths.new) }
    ensures tick { IfOk result (ShowsAt finding.tick) }
    ensures is { IfOk result (IsPathOf view.now.circuit.now (waves_of view.now.waves.now)
        paths.new.nodes (change_finding held corner finding)) }
{
    let change = PinEvent {
        pin: held.pin,
        direction: finding.direction,
        tick: finding.tick,
        corner,
    };
    let path = view.pin_path(paths, change)?;
    Ok(path)
}

/// A way of the data to a tick at its pin: it comes to the net by a wire sooner.
fn way_path<W: CyclicWave<Item = Value>>(
    view: &View<W>,
    held: Held,
    corner: Corner,
    node: usize,
    tick: i64,
) -> At
    requires sees { Sees view.now.circuit.now view.now.waves.now view.now.hazards.now }
    requires tick { IsWithin (2 ^ 44) tick }
    ensures shows { ShowsAt tick (Some result) }
    ensures node { result.node ≡ node }
    ensures wire { result.wire
        ≡ bound corner (target_wire view.now.circuit.now.nets held.pin.target) }
{
    let bounds = wire_behind(view.circuit, held.pin.target);
    let wire = bound_of(corner, &bounds);
    At {
        node,
        tick: tick - i64::from(wire),
        wire,
    }
}

/// The path of the data: the way that the slack comes from, or that of the change.
fn data_path<W: CyclicWave<Item = Value>>(
    view: &View<W>,
    paths: &mut Paths,
    held: Held,
    corner: Corner,
    finding: Finding,
) -> Result<Option<At>, NoMemory>
    requires sees { Sees view.now.circuit.now view.now.waves.now view.now.hazards.now }
    requires knows { Knows view.now.circuit.now (waves_of view.now.waves.now) paths.old.nodes
        paths.old.met.entries }
    requires held { IsHeld view.now.circuit.now held }
    requires tick { IsWithin (2 ^ 44) finding.tick }
    ensures paths { OnOk result (GoesOn view.now.circuit.now (waves_of view.now.waves.now)
        paths.old paths.new) }
    ensures tick { IfOk result (ShowsAt finding.tick) }
    ensures is { is_by_way finding.by ≡ false → IfOk result (IsPathOf view.now.circuit.now
        (waves_of view.now.waves.now) paths.new.nodes (change_finding held corner finding)) }
{
    if let By::Way(node) = finding.by {
        return Ok(Some(way_path(view, held, corner, node, finding.tick)));
    }
    let data = change_path(view, paths, held, corner, finding)?;
    Ok(data)
}

/// The path of the step that data is held against.
fn edge_path<W: CyclicWave<Item = Value>>(
    view: &View<W>,
    paths: &mut Paths,
    held: Held,
    corner: Corner,
    window: Window,
) -> Result<Option<At>, NoMemory>
    requires sees { Sees view.now.circuit.now view.now.waves.now view.now.hazards.now }
    requires knows { Knows view.now.circuit.now (waves_of view.now.waves.now) paths.old.nodes
        paths.old.met.entries }
    requires held { IsHeld view.now.circuit.now held }
    requires first { IsWithin (2 ^ 44) window.first }
    requires last { IsWithin (2 ^ 44) window.last }
    ensures paths { OnOk result (GoesOn view.now.circuit.now (waves_of view.now.waves.now)
        paths.old paths.new) }
    ensures tick { IfOk result (ShowsAt (edge_tick corner window)) }
    ensures corner { IfOk result (Explains paths.new.nodes (other_corner corner)) }
    ensures is { IfOk result (IsPathOf view.now.circuit.now (waves_of view.now.waves.now)
        paths.new.nodes (step_held held window corner)) }
{
    let path = view.pin_path(paths, held.edge(window, corner))?;
    Ok(path)
}

/// The paths of an instance's limit that is no width: of the data and of its clock or mark.
fn held_paths<W: CyclicWave<Item = Value>>(
    view: &View<W>,
    paths: &mut Paths,
    instance: &Instance,
    corner: Corner,
    finding: Finding,
) -> Result<Causes, NoMemory>
    requires sees { Sees view.now.circuit.now view.now.waves.now view.now.hazards.now }
    requires knows { Knows view.now.circuit.now (waves_of view.now.waves.now) paths.old.nodes
        paths.old.met.entries }
    requires pins { All (IsPin view.now.circuit.now) instance.now.pins }
    requires first { IsWithin (2 ^ 44) finding.window.first }
    requires last { IsWithin (2 ^ 44) finding.window.last }
    requires tick { IsWithin (2 ^ 44) finding.tick }
    ensures paths { OnOk result (GoesOn view.now.circuit.now (waves_of view.now.waves.now)
        paths.old paths.new) }
    ensures change { IfOk result (λ found. ShowsAt finding.tick found.«data») }
    ensures edge { IfOk result (λ found. ShowsAt (edge_tick corner finding.window) found.clock) }
    ensures corner { IfOk result (λ found.
        Explains paths.new.nodes (other_corner corner) found.clock) }
{
    let Some(held) = held_of(instance, finding.pin) else {
        return Ok(Causes::NONE);
    };
    let clock = edge_path(view, paths, held, corner, finding.window)?;
    let data = data_path(view, paths, held, corner, finding)?;
    Ok(Causes { data, clock })
}

/// The path of a change of a net.
fn net_paths<W: CyclicWave<Item = Value>>(
    view: &View<W>,
    paths: &mut Paths,
    net: u32,
    corner: Corner,
    finding: Finding,
) -> Result<Causes, NoMemory>
    requires sees { Sees view.now.circuit.now view.now.waves.now view.now.hazards.now }
    requires knows { Knows view.now.circuit.now (waves_of view.now.waves.now) paths.old.nodes
        paths.old.met.entries }
    ensures paths { OnOk result (GoesOn view.now.circuit.now (waves_of view.now.waves.now)
        paths.old paths.new) }
    ensures change { IfOk result (λ found. IfSome found.«data» (λ at. at.tick ≡ finding.tick)) }
    ensures none { IfOk result (λ found. found.clock ≡ None) }
    ensures corner { IfOk result (λ found. Explains paths.new.nodes corner found.«data») }
    ensures is { IfOk result (λ found. IfSome found.«data» (IsPathOfNet view.now.circuit.now
        (waves_of view.now.waves.now) paths.new.nodes (net_change net corner finding))) }
{
    let Some(_) = view.circuit.net(net) else {
        return Ok(Causes::NONE);
    };
    let event = Event {
        net,
        direction: finding.direction,
        tick: finding.tick,
        corner,
        reading: Reading::Folded,
    };
    let path = view.net_path(paths, event)?;
    Ok(Causes {
        data: Some(path),
        clock: None,
    })
}

/// The paths of a limit of the instance of a number.
fn instance_paths<W: CyclicWave<Item = Value>>(
    view: &View<W>,
    paths: &mut Paths,
    number: u32,
    parameter: Parameter,
    finding: Finding,
) -> Result<Causes, NoMemory>
    requires sees { Sees view.now.circuit.now view.now.waves.now view.now.hazards.now }
    requires knows { Knows view.now.circuit.now (waves_of view.now.waves.now) paths.old.nodes
        paths.old.met.entries }
    requires first { IsWithin (2 ^ 44) finding.window.first }
    requires last { IsWithin (2 ^ 44) finding.window.last }
    requires tick { IsWithin (2 ^ 44) finding.tick }
    ensures paths { OnOk result (GoesOn view.now.circuit.now (waves_of view.now.waves.now)
        paths.old paths.new) }
    ensures change { IfOk result (λ found.
        ShowsAt (data_tick (is_of_width parameter.word) finding) found.«data») }
    ensures edge { IfOk result (λ found. ShowsAt (clock_tick (is_of_width parameter.word)
        (corner_of parameter.word) finding) found.clock) }
    ensures corners { IfOk result (λ found.
        ExplainEnds (is_of_width parameter.word) (corner_of parameter.word) paths.new.nodes
        found.«data» found.clock) }
{
    let Some(instance) = view.circuit.instance(number) else {
        return Ok(Causes::NONE);
    };
    if parameter.word.is_width() {
        return pulse_paths(view, paths, instance, finding);
    }
    held_paths(view, paths, instance, parameter.word.corner(), finding)
}

/// Whether a slack comes of paths: it has a number, and that is not one of quiet ticks or of a
/// pulse that may change more than once.
fn comes_of_paths(by: By) -> bool
    ensures { result ≡ is_by_paths by }
{
    match by {
        By::Region(_) | By::Way(_) | By::Pulse | By::Swallowed => true,
        By::Quiet | By::Repeated | By::Nothing => false,
    }
}

/// The paths of a slack; none if it has no number, or its number is not one of paths.
pub fn causes_of<W: CyclicWave<Item = Value>>(
    view: &View<W>,
    paths: &mut Paths,
    parameter: Parameter,
    finding: Finding,
) -> Result<Causes, NoMemory>
    requires sees { Sees view.now.circuit.now view.now.waves.now view.now.hazards.now }
    requires knows { Knows view.now.circuit.now (waves_of view.now.waves.now) paths.old.nodes
        paths.old.met.entries }
    ensures paths { OnOk result (GoesOn view.now.circuit.now (waves_of view.now.waves.now)
        paths.old paths.new) }
    ensures ticks { IfOk result (λ found.
        ShowAt parameter.subject parameter.word finding found.«data» found.clock) }
    ensures corners { IfOk result (λ found. ExplainAt parameter.subject parameter.word
        paths.new.nodes found.«data» found.clock) }
    ensures none { is_by_paths finding.by ≡ false → IfOk result (λ found.
        (found.«data» ≡ None) × (found.clock ≡ None)) }
{
    if !comes_of_paths(finding.by) {
        return Ok(Causes::NONE);
    }
    // no slack lies so far from the first period
    if finding.tick.unsigned_abs() > FAR {
        return Ok(Causes::NONE);
    }
    if finding.window.first.unsigned_abs() > FAR {
        return Ok(Causes::NONE);
    }
    if finding.window.last.unsigned_abs() > FAR {
        return Ok(Causes::NONE);
    }
    match parameter.subject {
        Subject::Instance(number) => instance_paths(view, paths, number, parameter, finding),
        Subject::Net(net) => net_paths(view, paths, net, parameter.word.corner(), finding),
    }
}
