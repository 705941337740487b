//! Slacks if the data may change in every slot: by its ways from the edges of the clock.

ghost use Rattle.std.specs.Prelude.{◌≡◌, ◌==◌, ◌++◌, [], ◌+◌, ◌<◌, ◌≤◌, ◌^◌, ◌-ℤ◌, fold, map, not, true, false, IfOk, IfSome, None, OnOk, Some, length, slice_get};
ghost use Rattle.std.specs.List.{All, cons_option, list_any};
ghost use Rattle.std.specs.Option.{option_map};
ghost use Rattle.scald_base.specs.Time.{period as period_of};
ghost use Rattle.fixpoint_engine.specs.Waves.{target_wire, waves_of};
ghost use Rattle.critical_paths.specs.Path.{bound};
ghost use Rattle.critical_paths.specs.Tick.{IsWithin, most_tick};
ghost use Rattle.critical_paths.specs.Known.{Knows};
ghost use Rattle.critical_paths.specs.declared.direction.Corner.TheVariants.{Late, Early};
ghost use Rattle.critical_paths.specs.Reached.{StaysKnown, arrivals_in};
ghost use Rattle.critical_paths.specs.Views.{Sees};
ghost use Rattle.slack_rows.specs.Arrived.{GuardsWorkedOut, behind_wire, is_nearer, moved, finding_side, finding_way, with_arrival as with_each, with_guard, with_way};
ghost use Rattle.slack_rows.specs.Held.{AreOfWays, GoesOn, IsHeld, IsInPeriod};
ghost use Rattle.slack_rows.specs.Sides.{AreByWays, guard_by, guarded, guards_of};
ghost use Rattle.slack_rows.specs.Views.{is_starred, slack_by};

use crate::guard::{Guard, Guards};
use crate::held::{Held, Watch};
use crate::nearest::Launch;
use crate::sides::window_of;
use crate::slack::{Finding, Reason, Slack, Slacks, lesser};
use crate::two::{at_pin, edge_of, range, work_out};
use crate::window::{Window, spare_at};
use critical_paths::{Arrival, Corner, Direction, Paths, View};
use scald_base::NoMemory;
use step_values::Value;
use wave_core::CyclicWave;

/// The least slack so far, and why there is none.
#[derive(Clone, Copy)]
struct Least {
    best: Option<Finding>,
    reason: Reason,
}

/// A pin that is held, an edge that guards a window of it, and the end of its changes that counts.
#[derive(Clone, Copy)]
pub struct Sought {
    held: Held,
    edge: Guard,
    corner: Corner,
}

/// Whether no other edge of its clock is nearer to a launch.
fn is_next(edges: &[Guard], edge: Guard, launch: Launch) -> bool
    ensures { result
        ≡ not (list_any (is_nearer launch.corner launch.period launch.tick edge) edges.now) }
{
    for other in edges {
        if other.is_nearer(launch, edge) {
            return false;
        }
    }
    true
}

/// A window, with the edge of a clock that it is held against; none if there is no edge, or it is
/// too far.
fn guard_of(window: Window, edge: Option<(u32, i64)>) -> Option<Guard>
    requires from { IsWithin most_tick window.from }
    requires to { IsWithin most_tick window.to }
    ensures { option_map guarded result ≡ guard_by window edge }
{
    // no edge of a path to a window is far
    match edge {
        Some((net, ideal)) => Guard::at(window, net, ideal),
        None => None,
    }
}

/// Adds what guards a window, if something does.
fn add_guard(guards: &mut Guards, guard: Option<Guard>) -> Result<(), NoMemory>
    ensures { OnOk result (guards.new ≡ guards.old ++ cons_option guard []) }
{
    match guard {
        Some(guard) => guards.push(guard),
        None => Ok(()),
    }
}

/// The edges that windows about edges are held against: with its begin, for the last changes of the
/// data, or with its end, for the first.
fn edges<W: CyclicWave<Item = Value>>(
    view: &View<W>,
    paths: &mut Paths,
    watch: Watch,
    held: Held,
    corner: Corner,
) -> Result<Guards, NoMemory>
    requires sees { Sees view.now.circuit.now view.now.waves.now view.now.hazards.now }
    requires knows { Knows view.now.circuit.now (waves_of view.now.waves.now) paths.old.nodes
        paths.old.met.entries }
    requires held { IsHeld view.now.circuit.now held }
    requires edges { All (IsInPeriod (period_of view.now.circuit.now.header)) watch.edges.now }
    requires extent { watch.extent.before ≤ period_of view.now.circuit.now.header }
    ensures paths { OnOk result (GoesOn view.now.circuit.now (waves_of view.now.waves.now)
        paths.old paths.new) }
    ensures are { IfOk result (λ found. map guarded found ≡ guards_of view.now.circuit.now
        (waves_of view.now.waves.now) held corner watch.entry.extent watch.entry.edges.now) }
{
    let mut found = Guards::new(view.alloc);
    for edge in watch.edges {
        let window = window_of(*edge, watch.extent, view.period());
        let against = edge_of(view, paths, held, window, corner)?;
        add_guard(&mut found, guard_of(window, against))?;
    }
    Ok(found)
}

/// An arrival so many ticks sooner.
fn sooner(arrival: Arrival, ticks: i64) -> Arrival
    requires tick { IsWithin (2 ^ 46 + 65536) arrival.tick }
    requires ticks { IsWithin (2 ^ 47 + 2 ^ 44) ticks }
    ensures is { result ≡ moved arrival (arrival.tick -ℤ ticks) }
    ensures near { IsWithin most_tick result.tick }
{
    Arrival {
        tick: arrival.tick - ticks,
        ..arrival
    }
}

/// The slack of an arrival at the data's pin against the edge that its launch is for.
fn way(sought: Sought, launch: Launch, arrival: Arrival) -> Finding
    requires tick { IsWithin (2 ^ 46 + 65536) arrival.tick }
    requires corner { launch.corner ≡ sought.corner }
    ensures is { result ≡ finding_way launch.period sought launch.tick arrival }
    ensures starred { is_starred (slack_by result.slack) ≡ true }
{
    let Sought { held, edge, corner } = sought;
    let found = sooner(arrival, edge.moved(launch));
    let ticks = spare_at(corner, edge.window, found.tick);
    held.finding(Slack::Way(ticks), edge.window, found)
}

/// With the slack of an arrival against an edge, if that is the one that its launch is for.
fn with_arrival<W: CyclicWave<Item = Value>>(
    view: &View<W>,
    edges: &[Guard],
    sought: Sought,
    arrival: Arrival,
    best: Option<Finding>,
) -> Option<Finding>
    requires sees { Sees view.now.circuit.now view.now.waves.now view.now.hazards.now }
    requires ideal { IsWithin (2 ^ 46) arrival.ideal }
    requires tick { IsWithin (2 ^ 46) arrival.tick }
    requires best { IfSome best (λ finding. is_starred (slack_by finding.slack) ≡ true) }
    ensures is { let c = view.now.circuit.now in let p = period_of c.header in
        let corner = sought.corner in result ≡ with_way
        (not (list_any (is_nearer corner p arrival.ideal sought.edge) edges.now)) best
        (finding_way p sought arrival.ideal
        (behind_wire (bound corner (target_wire c.nets sought.held.pin.target)) arrival)) }
    ensures starred { IfSome result (λ finding. is_starred (slack_by finding.slack) ≡ true) }
{
    let Sought { held, edge, corner } = sought;
    let found = at_pin(view, held, arrival, corner);
    let launch = Launch {
        period: view.period(),
        tick: found.ideal,
        corner,
    };
    if is_next(edges, edge, launch) {
        lesser(best, Some(way(sought, launch, found)))
    } else {
        best
    }
}

/// With the slacks of the arrivals of some numbers against an edge.
fn best_of<W: CyclicWave<Item = Value>>(
    view: &View<W>,
    paths: &Paths,
    edges: &[Guard],
    sought: Sought,
    numbers: (usize, usize),
    so_far: Option<Finding>,
) -> Option<Finding>
    requires sees { Sees view.now.circuit.now view.now.waves.now view.now.hazards.now }
    requires ordered { numbers.0 ≤ numbers.1 }
    requires numbers { numbers.1 ≤ length paths.now.arrivals }
    requires best { IfSome so_far (λ finding. is_starred (slack_by finding.slack) ≡ true) }
    ensures is { let c = view.now.circuit.now in result ≡ fold (with_each (period_of c.header)
        (bound sought.corner (target_wire c.nets sought.held.pin.target)) edges.now sought)
        so_far (arrivals_in paths.now.arrivals numbers) }
    ensures starred { IfSome result (λ finding. is_starred (slack_by finding.slack) ≡ true) }
{
    let (from, to) = numbers;
    let mut best = so_far;
    for number in from..to {
        let arrival = paths.arrival(number);
        best = with_arrival(view, edges, sought, arrival, best);
    }
    best
}

/// With the slacks of all arrivals from the edges of a clock against one edge.
fn with_edge<W: CyclicWave<Item = Value>>(
    view: &View<W>,
    paths: &Paths,
    edges: &[Guard],
    sought: Sought,
    so_far: Least,
) -> Least
    requires sees { Sees view.now.circuit.now view.now.waves.now view.now.hazards.now }
    requires best { IfSome so_far.best (λ finding. is_starred (slack_by finding.slack) ≡ true) }
    ensures is { result ≡ with_guard view.now.circuit.now paths.now.known.entries
        paths.now.arrivals edges.now sought.held sought.corner so_far sought.edge }
    ensures best { IfSome result.best (λ finding. is_starred (slack_by finding.slack) ≡ true) }
{
    let Sought { held, edge, corner } = sought;
    let Some(numbers) = range(paths, held, edge.net, corner) else {
        return Least {
            reason: Reason::DataLoop,
            ..so_far
        };
    };
    let best = best_of(view, paths, edges, sought, numbers, so_far.best);
    Least { best, ..so_far }
}

/// The least slack of one side over the edges of some windows, by the arrivals that are known; a
/// reason if there is none.
fn least_finding<W: CyclicWave<Item = Value>>(
    view: &View<W>,
    paths: &Paths,
    edges: &[Guard],
    held: Held,
    corner: Corner,
) -> Finding
    requires sees { Sees view.now.circuit.now view.now.waves.now view.now.hazards.now }
    ensures is { result ≡ finding_side view.now.circuit.now paths.now.known.entries
        paths.now.arrivals held corner edges.now }
    ensures starred { is_starred (slack_by result.slack) ≡ true }
{
    let mut least = Least {
        best: None,
        reason: Reason::Data,
    };
    for edge in edges {
        let sought = Sought {
            held,
            edge: *edge,
            corner,
        };
        least = with_edge(view, paths, edges, sought, least);
    }
    match least.best {
        Some(finding) => finding,
        None => Finding::none(least.reason, held.place, Direction::Change),
    }
}

/// The edge of a number.
fn guard_at(edges: &[Guard], number: usize) -> Guard
    requires { number < length edges.now }
    ensures { slice_get edges.now number ≡ Some result }
{
    edges[number]
}

/// Works out the arrivals from each edge of some windows.
fn work_out_all<W: CyclicWave<Item = Value>>(
    view: &View<W>,
    paths: &mut Paths,
    edges: &[Guard],
    held: Held,
    corner: Corner,
) -> Result<(), NoMemory>
    requires sees { Sees view.now.circuit.now view.now.waves.now view.now.hazards.now }
    requires knows { Knows view.now.circuit.now (waves_of view.now.waves.now) paths.old.nodes
        paths.old.met.entries }
    ensures paths { OnOk result (GoesOn view.now.circuit.now (waves_of view.now.waves.now)
        paths.old paths.new) }
    ensures known { OnOk result (GuardsWorkedOut paths.new.known.entries held corner edges.now) }
    ensures stays { OnOk result (StaysKnown paths.old.known.entries paths.new.known.entries) }
{
    for number in 0..edges.len() {
        let edge = guard_at(edges, number);
        work_out(view, paths, held, edge.net, corner)?;
    }
    Ok(())
}

/// The least slacks of both sides, over all launches and the edges that they are for.
fn both_sides<W: CyclicWave<Item = Value>>(
    view: &View<W>,
    paths: &mut Paths,
    held: Held,
    late: &[Guard],
    early: &[Guard],
) -> Result<Slacks, NoMemory>
    requires sees { Sees view.now.circuit.now view.now.waves.now view.now.hazards.now }
    requires knows { Knows view.now.circuit.now (waves_of view.now.waves.now) paths.old.nodes
        paths.old.met.entries }
    ensures paths { OnOk result (GoesOn view.now.circuit.now (waves_of view.now.waves.now)
        paths.old paths.new) }
    ensures level { IfOk result (λ found. found.level ≡ None) }
    ensures late { OnOk result (GuardsWorkedOut paths.new.known.entries held Late late.now) }
    ensures early { OnOk result (GuardsWorkedOut paths.new.known.entries held Early early.now) }
    ensures before { IfOk result (λ found. found.before ≡ Some (finding_side
        view.now.circuit.now paths.new.known.entries paths.new.arrivals held Late late.now)) }
    ensures after { IfOk result (λ found. found.after ≡ Some (finding_side
        view.now.circuit.now paths.new.known.entries paths.new.arrivals held Early early.now)) }
    ensures ways { IfOk result (AreOfWays true) }
{
    work_out_all(view, paths, late, held, Corner::Late)?;
    work_out_all(view, paths, early, held, Corner::Early)?;
    let before = least_finding(view, paths, late, held, Corner::Late);
    let after = least_finding(view, paths, early, held, Corner::Early);
    Ok(Slacks {
        level: None,
        before: Some(before),
        after: Some(after),
    })
}

/// The same, by the edges that the windows are held against for the last changes.
fn by_late<W: CyclicWave<Item = Value>>(
    view: &View<W>,
    paths: &mut Paths,
    watch: Watch,
    held: Held,
    late: &[Guard],
) -> Result<Slacks, NoMemory>
    requires sees { Sees view.now.circuit.now view.now.waves.now view.now.hazards.now }
    requires knows { Knows view.now.circuit.now (waves_of view.now.waves.now) paths.old.nodes
        paths.old.met.entries }
    requires held { IsHeld view.now.circuit.now held }
    requires edges { All (IsInPeriod (period_of view.now.circuit.now.header)) watch.edges.now }
    requires extent { watch.extent.before ≤ period_of view.now.circuit.now.header }
    requires late { map guarded late.now ≡ guards_of view.now.circuit.now
        (waves_of view.now.waves.now) held Late watch.extent watch.edges.now }
    ensures paths { OnOk result (GoesOn view.now.circuit.now (waves_of view.now.waves.now)
        paths.old paths.new) }
    ensures level { IfOk result (λ found. found.level ≡ None) }
    ensures ways { IfOk result (AreOfWays true) }
    ensures are { IfOk result (AreByWays view.now.circuit.now (waves_of view.now.waves.now)
        paths.new held watch.entry.extent watch.entry.edges.now) }
{
    let early = edges(view, paths, watch, held, Corner::Early)?;
    let found = both_sides(view, paths, held, late, early.as_slice())?;
    Ok(found)
}

/// The least slacks before windows and after them of data that may change in every slot.
pub fn by_ways<W: CyclicWave<Item = Value>>(
    view: &View<W>,
    paths: &mut Paths,
    watch: Watch,
    held: Held,
) -> Result<Slacks, NoMemory>
    requires sees { Sees view.now.circuit.now view.now.waves.now view.now.hazards.now }
    requires knows { Knows view.now.circuit.now (waves_of view.now.waves.now) paths.old.nodes
        paths.old.met.entries }
    requires held { IsHeld view.now.circuit.now held }
    requires edges { All (IsInPeriod (period_of view.now.circuit.now.header)) watch.edges.now }
    requires extent { watch.extent.before ≤ period_of view.now.circuit.now.header }
    ensures paths { OnOk result (GoesOn view.now.circuit.now (waves_of view.now.waves.now)
        paths.old paths.new) }
    ensures level { IfOk result (λ found. found.level ≡ None) }
    ensures ways { IfOk result (AreOfWays (not (length watch.entry.edges.now == 0))) }
    ensures are { (length watch.entry.edges.now == 0) ≡ false → IfOk result
        (AreByWays view.now.circuit.now (waves_of view.now.waves.now) paths.new held
        watch.entry.extent watch.entry.edges.now) }
{
    // about no edge nothing can break
    if watch.edges.is_empty() {
        return Ok(Slacks::NONE);
    }
    let late = edges(view, paths, watch, held, Corner::Late)?;
    let found = by_late(view, paths, watch, held, late.as_slice())?;
    Ok(found)
}
