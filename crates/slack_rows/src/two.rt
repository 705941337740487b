//! Two launches that make one region of changes: the last arrival of the one, and the first of the
//! other.

ghost use Rattle.std.specs.Prelude.{◌≡◌, ◌<◌, ◌≤◌, ◌+◌, ◌*◌, ◌^◌, ◌≤ℤ◌, ◌+ℤ◌, ◌-ℤ◌, int_lt, IfNone, IfOk, IfSome, None, OnOk, Some, true, if◌then◌else◌, ◌==◌, length, pos};
ghost use Rattle.std.specs.Option.{option_and_then, option_map};
ghost use Rattle.scald_base.specs.Time.{period};
ghost use Rattle.fixpoint_engine.specs.Waves.{target_wire, waves_of};
ghost use Rattle.critical_paths.specs.Path.{bound};
ghost use Rattle.critical_paths.specs.declared.direction.Corner.TheVariants.{Late, Early};
ghost use Rattle.critical_paths.specs.Tick.{IsWithin, most_tick};
ghost use Rattle.critical_paths.specs.Known.{Knows};
ghost use Rattle.critical_paths.specs.Reached.{StaysKnown, arrivals_in};
ghost use Rattle.critical_paths.specs.Views.{Sees};
ghost use Rattle.slack_rows.specs.Arrived.{AreWorkedOut, TwoWorkedOut, both_of, counts_launch, furthest_in as furthest_among, further_of, launch_at, moved_into, place_on, range_on, slacks_by_two, tick_of, finding_by_arrival, two_slacks};
ghost use Rattle.slack_rows.specs.Held.{GoesOn, IsBrokenByTwo, IsClose, IsCloseWindow, IsHeld, edge_at_pin, edge_held, step_held, finding_back};
ghost use Rattle.slack_rows.specs.Views.{ahead_of, spare_at};

use crate::around::Around;
use crate::held::Held;
use crate::launch::step_path;
use crate::nearest::first_tick;
use crate::slack::{Slack, Slacks};
use crate::window::{Window, spare_at};
use critical_paths::{Arrival, Corner, Direction, Paths, Place, Region, View};
use fixpoint_engine::wire_behind;
use flat_circuit::Target;
use scald_base::NoMemory;
use step_values::Value;
use wave_core::CyclicWave;

/// The tick of a region that is whole periods from another one.
fn tick_in(region: Region, period: u16, tick: i64) -> Option<i64>
    requires period { 0 < period }
    requires region { IsWithin most_tick region.first }
    requires tick { IsWithin most_tick tick }
    ensures is { result ≡ tick_of period region tick }
    ensures from { IfSome result (λ t. region.first ≤ℤ t) }
    ensures to { IfSome result (λ t. t ≤ℤ region.last) }
{
    let found = first_tick(period, region.first, tick);
    if found <= region.last {
        Some(found)
    } else {
        None
    }
}

/// Whether what arrives at a tick that is whole periods from an arrival is launched before an edge.
fn is_before(found: Arrival, tick: i64, edge: i64) -> bool
    requires ideal { IsWithin most_tick found.ideal }
    requires found { IsWithin most_tick found.tick }
    requires tick { IsWithin most_tick tick }
    ensures { result ≡ int_lt (found.ideal +ℤ (tick -ℤ found.tick)) edge }
{
    found.ideal + (tick - found.tick) < edge
}

/// An arrival at the tick of a region that is whole periods from it, if it is launched on the
/// side of an edge that counts: before it, or by it and after it.
fn arrival_at(
    region: Region,
    period: u16,
    found: Arrival,
    edge: i64,
    corner: Corner,
) -> Option<Arrival>
    requires period { 0 < period }
    requires first { IsWithin most_tick region.first }
    requires last { IsWithin most_tick region.last }
    requires ideal { IsWithin most_tick found.ideal }
    requires tick { IsWithin most_tick found.tick }
    ensures near { IfSome result (λ a. IsWithin most_tick a.tick) }
    ensures within { IfSome result
        (λ a. (region.first ≤ℤ a.tick) × (a.tick ≤ℤ region.last)) }
    ensures side { IfSome result (λ a. counts_launch corner
        (int_lt (found.ideal +ℤ (a.tick -ℤ found.tick)) edge) ≡ true) }
    ensures is { result ≡ moved_into period region corner edge found }
{
    let tick = tick_in(region, period, found.tick)?;
    match (corner, is_before(found, tick, edge)) {
        (Corner::Late, true) | (Corner::Early, false) => Some(Arrival { tick, ..found }),
        (Corner::Late, false) | (Corner::Early, true) => None,
    }
}

/// Of two arrivals the one that is further.
fn further(corner: Corner, old: Option<Arrival>, new: Option<Arrival>) -> Option<Arrival>
    ensures { result ≡ further_of corner old new }
{
    match (old, new) {
        (_, None) => old,
        (None, Some(_)) => new,
        (Some(one), Some(other)) => {
            if corner.is_further(other.tick, one.tick) {
                new
            } else {
                old
            }
        }
    }
}

/// The changes of the net at a pin, by the edges of a clock; a constant has none.
fn place_at(held: Held, clock: u32, corner: Corner) -> Option<Place>
    ensures { result ≡ place_on clock corner held.pin.target }
{
    match held.pin.target {
        Target::Net(net) => Some(Place {
            clock,
            net,
            direction: Direction::Change,
            corner,
        }),
        Target::Constant(_) => None,
    }
}

/// Works out the arrivals of a clock's edges at a pin.
pub fn work_out<W: CyclicWave<Item = Value>>(
    view: &View<W>,
    paths: &mut Paths,
    held: Held,
    clock: u32,
    corner: Corner,
) -> Result<(), NoMemory>
    requires sees { Sees view.now.circuit.now view.now.waves.now view.now.hazards.now }
    requires knows { Knows view.now.circuit.now (waves_of view.now.waves.now) paths.old.nodes
        paths.old.met.entries }
    ensures paths { OnOk result (GoesOn view.now.circuit.now (waves_of view.now.waves.now)
        paths.old paths.new) }
    ensures known { OnOk result (AreWorkedOut paths.new.known.entries
        (place_on clock corner held.pin.target)) }
    ensures stays { OnOk result (StaysKnown paths.old.known.entries paths.new.known.entries) }
{
    match place_at(held, clock, corner) {
        Some(place) => paths.work_out(view, place),
        None => Ok(()),
    }
}

/// Where the arrivals of a clock's edges at a pin stand, if they are known.
pub fn range(paths: &Paths, held: Held, clock: u32, corner: Corner) -> Option<(usize, usize)>
    ensures is { result ≡ range_on paths.now.known.entries (length paths.now.arrivals)
        (place_on clock corner held.pin.target) }
    ensures within { IfSome result (λ range. (range.0 ≤ range.1)
        × (range.1 ≤ length paths.now.arrivals)) }
{
    match place_at(held, clock, corner) {
        Some(place) => paths.range(place),
        None => None,
    }
}

/// Of some arrivals, at a pin in a region, the last that is launched before an edge, or the first
/// that is launched by it or after it.
fn furthest_in<W: CyclicWave<Item = Value>>(
    view: &View<W>,
    paths: &Paths,
    held: Held,
    region: Region,
    edge: i64,
    corner: Corner,
    numbers: (usize, usize),
) -> Option<Arrival>
    requires sees { Sees view.now.circuit.now view.now.waves.now view.now.hazards.now }
    requires region { IsClose (period view.now.circuit.now.header) region }
    requires ordered { numbers.0 ≤ numbers.1 }
    requires numbers { numbers.1 ≤ length paths.now.arrivals }
    ensures is { let c = view.now.circuit.now in result ≡ furthest_among (period c.header)
        (bound corner (target_wire c.nets held.pin.target)) region corner edge
        (arrivals_in paths.now.arrivals numbers) }
    ensures near { IfSome result (λ a. IsWithin most_tick a.tick) }
    ensures within { IfSome result (λ a. (region.first ≤ℤ a.tick) × (a.tick ≤ℤ region.last)) }
{
    let (from, to) = numbers;
    let period = view.period();
    let mut best: Option<Arrival> = None;
    for number in from..to {
        let found = at_pin(view, held, paths.arrival(number), corner);
        let counted = arrival_at(region, period, found, edge, corner);
        best = further(corner, best, counted);
    }
    best
}

/// Of the arrivals at a pin in a region the last that is launched before an edge, or the first
/// that is launched by it or after it.
fn arrival_in<W: CyclicWave<Item = Value>>(
    view: &View<W>,
    paths: &Paths,
    held: Held,
    region: Region,
    edge: (u32, i64),
    corner: Corner,
) -> Option<Arrival>
    requires sees { Sees view.now.circuit.now view.now.waves.now view.now.hazards.now }
    requires region { IsClose (period view.now.circuit.now.header) region }
    ensures is { result ≡ launch_at view.now.circuit.now paths.now.known.entries
        paths.now.arrivals held region edge corner }
    ensures near { IfSome result (λ a. IsWithin most_tick a.tick) }
    ensures within { IfSome result (λ a. (region.first ≤ℤ a.tick) × (a.tick ≤ℤ region.last)) }
{
    match range(paths, held, edge.0, corner) {
        Some(numbers) => furthest_in(view, paths, held, region, edge.1, corner, numbers),
        None => None,
    }
}

/// An arrival after the wire to a pin.
pub fn at_pin<W: CyclicWave<Item = Value>>(
    view: &View<W>,
    held: Held,
    arrival: Arrival,
    corner: Corner,
) -> Arrival
    requires sees { Sees view.now.circuit.now view.now.waves.now view.now.hazards.now }
    requires ideal { IsWithin (2 ^ 46) arrival.ideal }
    requires tick { IsWithin (2 ^ 46) arrival.tick }
    ensures ideal { IsWithin (2 ^ 46) result.ideal }
    ensures tick { IsWithin (2 ^ 46 + 65536) result.tick }
    ensures is { result ≡ record {
      ideal = arrival.ideal;
      tick = arrival.tick +ℤ pos (bound corner (target_wire view.now.circuit.now.nets
          held.pin.target));
      node = arrival.node;
    } }
{
    let wire = corner.bound(wire_behind(view.circuit, held.pin.target));
    Arrival {
        tick: arrival.tick + i64::from(wire),
        ..arrival
    }
}

/// The clock's edge that a window is held against.
pub fn edge_of<W: CyclicWave<Item = Value>>(
    view: &View<W>,
    paths: &mut Paths,
    held: Held,
    window: Window,
    corner: Corner,
) -> Result<Option<(u32, i64)>, NoMemory>
    requires sees { Sees view.now.circuit.now view.now.waves.now view.now.hazards.now }
    requires knows { Knows view.now.circuit.now (waves_of view.now.waves.now) paths.old.nodes
        paths.old.met.entries }
    requires held { IsHeld view.now.circuit.now held }
    requires window { IsCloseWindow (period view.now.circuit.now.header) window }
    ensures paths { OnOk result (GoesOn view.now.circuit.now (waves_of view.now.waves.now)
        paths.old paths.new) }
    ensures edge { let c = view.now.circuit.now in let p = period c.header in
        let step = step_held held window corner in IfOk result (λ found. found
        ≡ option_map (finding_back (3 * p)) (edge_at_pin c (waves_of view.now.waves.now) step.corner
        step.pin step.direction (ahead_of p step.tick))) }
{
    let found = step_path(view, paths, held.edge(window, corner))?;
    Ok(match found {
        Some(clock) => paths.edge(clock),
        None => None,
    })
}

/// The slacks of two arrivals in a region, if one is broken.
fn broken_by(held: Held, window: Window, late: Arrival, early: Arrival) -> Option<Slacks>
    requires from { IsWithin most_tick window.from }
    requires to { IsWithin most_tick window.to }
    requires late { IsWithin most_tick late.tick }
    requires early { IsWithin most_tick early.tick }
    ensures level { IfSome result (λ found. found.level ≡ None) }
    ensures before { IfSome result (λ found. found.before ≡ Some (finding_by_arrival held
        (Slack.Ticks (spare_at Late window late.tick)) window late)) }
    ensures after { IfSome result (λ found. found.after ≡ Some (finding_by_arrival held
        (Slack.Ticks (spare_at Early window early.tick)) window early)) }
    ensures broken { IfSome result IsBrokenByTwo }
    ensures is { result ≡ slacks_by_two held window late early }
{
    let before = spare_at(Corner::Late, window, late.tick);
    let after = spare_at(Corner::Early, window, early.tick);
    if before >= 0 && after >= 0 {
        return None;
    }
    Some(Slacks {
        level: None,
        before: Some(held.finding(Slack::Ticks(before), window, late)),
        after: Some(held.finding(Slack::Ticks(after), window, early)),
    })
}

/// The slacks of two launches against an edge, if both arrivals are known and one is broken.
fn launches<W: CyclicWave<Item = Value>>(
    view: &View<W>,
    paths: &Paths,
    held: Held,
    window: Window,
    region: Region,
    edge: (u32, i64),
) -> Option<Slacks>
    requires sees { Sees view.now.circuit.now view.now.waves.now view.now.hazards.now }
    requires window { IsCloseWindow (period view.now.circuit.now.header) window }
    requires region { IsClose (period view.now.circuit.now.header) region }
    ensures is { result ≡ two_slacks view.now.circuit.now paths.now.known.entries
        paths.now.arrivals held window region (Some edge) }
    ensures level { IfSome result (λ all. all.level ≡ None) }
    ensures broken { IfSome result IsBrokenByTwo }
{
    let late = arrival_in(view, paths, held, region, edge, Corner::Late);
    let early = arrival_in(view, paths, held, region, edge, Corner::Early);
    match (late, early) {
        (Some(late), Some(early)) => broken_by(held, window, late, early),
        _ => None,
    }
}

/// The slacks of two launches that make one region, if both arrivals are known and one is
/// broken.
fn by_two<W: CyclicWave<Item = Value>>(
    view: &View<W>,
    paths: &mut Paths,
    held: Held,
    window: Window,
    region: Region,
) -> Result<Option<Slacks>, NoMemory>
    requires sees { Sees view.now.circuit.now view.now.waves.now view.now.hazards.now }
    requires knows { Knows view.now.circuit.now (waves_of view.now.waves.now) paths.old.nodes
        paths.old.met.entries }
    requires held { IsHeld view.now.circuit.now held }
    requires window { IsCloseWindow (period view.now.circuit.now.header) window }
    requires region { IsClose (period view.now.circuit.now.header) region }
    ensures paths { OnOk result (GoesOn view.now.circuit.now (waves_of view.now.waves.now)
        paths.old paths.new) }
    ensures level { IfOk result (λ found. IfSome found (λ all. all.level ≡ None)) }
    ensures broken { IfOk result (λ found. IfSome found IsBrokenByTwo) }
    ensures known { let c = view.now.circuit.now in OnOk result (TwoWorkedOut
        paths.new.known.entries held (edge_held c (waves_of view.now.waves.now) held window)) }
    ensures is { let c = view.now.circuit.now in IfOk result (λ found. found
        ≡ two_slacks c paths.new.known.entries paths.new.arrivals held window region
        (edge_held c (waves_of view.now.waves.now) held window)) }
{
    let Some(edge) = edge_of(view, paths, held, window, Corner::Late)? else {
        return Ok(None);
    };
    work_out(view, paths, held, edge.0, Corner::Late)?;
    work_out(view, paths, held, edge.0, Corner::Early)?;
    Ok(launches(view, paths, held, window, region, edge))
}

/// What is held against two launches that make the only region that meets a window, and the region.
pub fn meets_two(held: Option<Held>, all: Around) -> Option<(Held, Region)>
    ensures held { IfSome result (λ found. held ≡ Some found.0) }
    ensures two { IfSome result (λ found. all.two ≡ Some found.1) }
    ensures met { IfSome result (λ found. all.met ≡ 1) }
    ensures is { result ≡ (if all.met == 1 then both_of held all.two else None) }
{
    if all.met != 1 {
        return None;
    }
    match (held, all.two) {
        (Some(held), Some(region)) => Some((held, region)),
        _ => None,
    }
}

/// The same, if there is such a region.
pub fn by_two_if<W: CyclicWave<Item = Value>>(
    view: &View<W>,
    paths: &mut Paths,
    window: Window,
    met: Option<(Held, Region)>,
) -> Result<Option<Slacks>, NoMemory>
    requires sees { Sees view.now.circuit.now view.now.waves.now view.now.hazards.now }
    requires knows { Knows view.now.circuit.now (waves_of view.now.waves.now) paths.old.nodes
        paths.old.met.entries }
    requires window { IsCloseWindow (period view.now.circuit.now.header) window }
    requires met { IfSome met (λ found. IsHeld view.now.circuit.now found.0
        × IsClose (period view.now.circuit.now.header) found.1) }
    ensures paths { OnOk result (GoesOn view.now.circuit.now (waves_of view.now.waves.now)
        paths.old paths.new) }
    ensures level { IfOk result (λ two. IfSome two (λ found. found.level ≡ None)) }
    ensures broken { IfOk result (λ two. IfSome two IsBrokenByTwo) }
    ensures only { IfOk result (λ two. met ≡ None → two ≡ None) }
    ensures is { let c = view.now.circuit.now in IfOk result (λ two. two
        ≡ option_and_then (λ found. two_slacks c paths.new.known.entries paths.new.arrivals
        found.0 window found.1
        (edge_held c (waves_of view.now.waves.now) found.0 window)) met) }
    ensures known { let c = view.now.circuit.now in IfSome met (λ found. OnOk result (TwoWorkedOut
        paths.new.known.entries found.0
        (edge_held c (waves_of view.now.waves.now) found.0 window))) }
{
    match met {
        None => Ok(None),
        Some((held, region)) => {
            let two = by_two(view, paths, held, window, region)?;
            Ok(two)
        }
    }
}
