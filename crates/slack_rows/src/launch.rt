//! On which side of a window the launches of its changes put a region.

ghost use Rattle.std.specs.Prelude.{◌≡◌, ◌≤◌, ◌+◌, ◌*◌, ◌^◌, ◌≤ℤ◌, ◌+ℤ◌, IfOk, OnOk, Some, pos, true};
ghost use Rattle.std.specs.Option.{option_and_then, option_map};
ghost use Rattle.scald_base.specs.Time.{period};
ghost use Rattle.fixpoint_engine.specs.Waves.{waves_of};
ghost use Rattle.critical_paths.specs.declared.direction.Direction.TheVariants.{Change};
ghost use Rattle.critical_paths.specs.Tick.{IsWithin, most_tick};
ghost use Rattle.critical_paths.specs.Launch.{ago};
ghost use Rattle.critical_paths.specs.Known.{Knows, ago_in, edge_in};
ghost use Rattle.critical_paths.specs.Views.{IsPin, Sees};
ghost use Rattle.slack_rows.specs.Held.{GoesOn, IsClose, IsCloseWindow, IsHeld, IsNearPath, MayBeHeld, edge_at_pin, held_edge, held_side, side_held, finding_back, two_of};
ghost use Rattle.slack_rows.specs.Views.{ahead_of, is_two, meets_window, region_in, side_in, window_in};

use crate::around::{Side, side_by};
use crate::held::Held;
use crate::window::Window;
use critical_paths::{At, Corner, Direction, Paths, PinEvent, Region, View};
use scald_base::NoMemory;
use step_values::Value;
use wave_core::CyclicWave;

/// The path of a step, whose tick is one that the definitions count.
pub fn step_path<W: CyclicWave<Item = Value>>(
    view: &View<W>,
    paths: &mut Paths,
    step: PinEvent,
) -> Result<Option<At>, NoMemory>
    requires sees { Sees view.now.circuit.now view.now.waves.now view.now.hazards.now }
    requires knows { Knows view.now.circuit.now (waves_of view.now.waves.now) paths.old.nodes
        paths.old.met.entries }
    requires pin { IsPin view.now.circuit.now step.pin }
    requires tick { IsWithin most_tick step.tick }
    requires from { pos 0 ≤ℤ (pos (3 * period view.now.circuit.now.header) +ℤ step.tick) }
    ensures paths { OnOk result (GoesOn view.now.circuit.now (waves_of view.now.waves.now)
        paths.old paths.new) }
    ensures near { IfOk result (λ found. IsNearPath paths.new.nodes found) }
    ensures edge { let c = view.now.circuit.now in let p = period c.header in
        IfOk result (λ found. option_and_then (edge_in paths.new.nodes) found
        ≡ option_map (finding_back (3 * p)) (edge_at_pin c (waves_of view.now.waves.now) step.corner
        step.pin step.direction (ahead_of p step.tick))) }
{
    // no period is short
    let _period = view.period();
    let found = view.pin_path(paths, step)?;
    Ok(found)
}

/// How many ticks before the clock the data is launched, if both have paths from one clock.
fn ago_if(paths: &Paths, data: Option<At>, clock: Option<At>) -> Option<i64>
    requires own { IsNearPath paths.now.nodes «data» }
    requires clock { IsNearPath paths.now.nodes clock }
    ensures { result ≡ ago_in (option_and_then (edge_in paths.now.nodes) «data»)
        (option_and_then (edge_in paths.now.nodes) clock) }
{
    match (data, clock) {
        (Some(data), Some(clock)) => paths.ago(data, clock),
        (Some(_), None) => None,
        (None, _) => None,
    }
}

/// How long before the edge that a window is held against a change is launched.
fn launched<W: CyclicWave<Item = Value>>(
    view: &View<W>,
    paths: &mut Paths,
    held: Held,
    window: Window,
    corner: Corner,
    tick: i64,
) -> Result<Option<i64>, NoMemory>
    requires sees { Sees view.now.circuit.now view.now.waves.now view.now.hazards.now }
    requires knows { Knows view.now.circuit.now (waves_of view.now.waves.now) paths.old.nodes
        paths.old.met.entries }
    requires held { IsHeld view.now.circuit.now held }
    requires window { IsCloseWindow (period view.now.circuit.now.header) window }
    requires tick { IsWithin (2 ^ 20) tick }
    requires from { pos 0 ≤ℤ (pos (3 * period view.now.circuit.now.header) +ℤ tick) }
    ensures paths { OnOk result (GoesOn view.now.circuit.now (waves_of view.now.waves.now)
        paths.old paths.new) }
    ensures is { let c = view.now.circuit.now in let p = period c.header in
        let ws = waves_of view.now.waves.now in
        IfOk result (λ ticks. ticks ≡ ago (edge_at_pin c ws corner held.pin Change
        (ahead_of p tick)) (held_edge c ws held (window_in p window))) }
{
    let opening = PinEvent {
        pin: held.clock,
        direction: held.opens,
        tick: window.first,
        corner: Corner::Early,
    };
    let change = PinEvent {
        pin: held.pin,
        direction: Direction::Change,
        tick,
        corner,
    };
    let clock = step_path(view, paths, opening)?;
    let data = step_path(view, paths, change)?;
    Ok(ago_if(paths, data, clock))
}

/// For what a region counts that covers a window or lies in it.
fn by_launch<W: CyclicWave<Item = Value>>(
    view: &View<W>,
    paths: &mut Paths,
    held: Held,
    window: Window,
    region: Region,
) -> Result<Side, NoMemory>
    requires sees { Sees view.now.circuit.now view.now.waves.now view.now.hazards.now }
    requires knows { Knows view.now.circuit.now (waves_of view.now.waves.now) paths.old.nodes
        paths.old.met.entries }
    requires held { IsHeld view.now.circuit.now held }
    requires window { IsCloseWindow (period view.now.circuit.now.header) window }
    requires region { IsClose (period view.now.circuit.now.header) region }
    ensures paths { OnOk result (GoesOn view.now.circuit.now (waves_of view.now.waves.now)
        paths.old paths.new) }
    ensures side { let c = view.now.circuit.now in let p = period c.header in
        IfOk result (λ side. side_in side ≡ held_side c (waves_of view.now.waves.now) held
        (window_in p window) (region_in p region)) }
    ensures two { let c = view.now.circuit.now in let p = period c.header in
        IfOk result (λ side. is_two side ≡ two_of c (waves_of view.now.waves.now) (Some held)
        (window_in p window) (region_in p region)) }
    ensures met { IfOk result (λ side. meets_window side ≡ true) }
{
    let last = launched(view, paths, held, window, Corner::Late, region.last)?;
    let first = launched(view, paths, held, window, Corner::Early, region.first)?;
    Ok(side_by(last, first))
}

/// For what a region counts that covers a window or lies in it, if it may be held.
pub fn by_launch_if<W: CyclicWave<Item = Value>>(
    view: &View<W>,
    paths: &mut Paths,
    held: Option<Held>,
    window: Window,
    region: Region,
) -> Result<Side, NoMemory>
    requires sees { Sees view.now.circuit.now view.now.waves.now view.now.hazards.now }
    requires knows { Knows view.now.circuit.now (waves_of view.now.waves.now) paths.old.nodes
        paths.old.met.entries }
    requires held { MayBeHeld view.now.circuit.now held }
    requires window { IsCloseWindow (period view.now.circuit.now.header) window }
    requires region { IsClose (period view.now.circuit.now.header) region }
    ensures paths { OnOk result (GoesOn view.now.circuit.now (waves_of view.now.waves.now)
        paths.old paths.new) }
    ensures side { let c = view.now.circuit.now in let p = period c.header in
        IfOk result (λ side. side_in side ≡ side_held c (waves_of view.now.waves.now) held
        (window_in p window) (region_in p region)) }
    ensures two { let c = view.now.circuit.now in let p = period c.header in
        IfOk result (λ side. is_two side ≡ two_of c (waves_of view.now.waves.now) held
        (window_in p window) (region_in p region)) }
    ensures met { IfOk result (λ side. meets_window side ≡ true) }
{
    match held {
        Some(held) => by_launch(view, paths, held, window, region),
        None => Ok(Side::Either),
    }
}
