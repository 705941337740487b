//! The slacks of a checker's setup and hold.

ghost use Rattle.std.specs.Prelude.{◌≡◌, ◌≤◌, ◌+◌, ◌==◌, not, IfOk, OnOk, Some, None, length, map, slice_get, true, false};
ghost use Rattle.std.specs.List.{All, AllByRecursion};
ghost use Rattle.scald_base.specs.Time.{period};
ghost use Rattle.element_kinds.specs.Kinds.{check_of};
ghost use Rattle.flat_circuit.specs.Instances.{InstanceFits};
ghost use Rattle.flat_circuit.specs.Limits.{hold_of, setup_of};
ghost use Rattle.fixpoint_engine.specs.Waves.{waves_of};
ghost use Rattle.fixpoint_engine.specs.Pins.{read};
ghost use Rattle.point_check.specs.Window.{Folds};
ghost use Rattle.critical_paths.specs.declared.direction.Direction.TheVariants.{Change, Rise};
ghost use Rattle.critical_paths.specs.Event.{Events, events};
ghost use Rattle.critical_paths.specs.Region.{IsCyclic, regions, some_event};
ghost use Rattle.critical_paths.specs.Known.{Knows};
ghost use Rattle.critical_paths.specs.Views.{Sees, ticks_of_region};
ghost use Rattle.slack_rows.specs.Held.{AreChanges, AreOfWays, AreSlots, GoesOn, IsHeld, IsInPeriod, IsSlots, TellSides, TellWatch, TellWindows, launches_of, two_of, windows_about};
ghost use Rattle.slack_rows.specs.Laws.{IsPlaced};
ghost use Rattle.slack_rows.specs.Limit.{check_by_arrivals, edge_limits as limits_at_edges, has_no_window, is_by_arrivals, finding_check, pin_folds};
ghost use Rattle.slack_rows.specs.Sides.{AreAboutEdges, AreOfChecker, has_windows};
ghost use Rattle.slack_rows.specs.Views.{checks_edges, closing, finding_none};
ghost use Rattle.slack_rows.specs.Watch.{rise_watch, span_watch, spans};
ghost use Rattle.slack_rows.specs.declared.parameter.Word.TheVariants.{Setup, Hold};

use crate::held::{Held, Watch};
use crate::quiet::quiet_slacks;
use crate::sides::about_all;
use crate::slack::{Reason, Slacks};
use crate::watch::{fold, slots};
use crate::ways::by_ways;
use crate::window::{Extent, spans_of, stays_high};
use critical_paths::{Direction, Paths, Region, Slots, Test, View};
use element_kinds::Check;
use flat_circuit::{Instance, Limits};
use scald_base::NoMemory;
use step_values::Value;
use wave_core::CyclicWave;

/// How long before an edge and after it data is not to change.
fn edge_limits(limits: Limits) -> Extent
    ensures { result ≡ limits_at_edges limits }
{
    Extent {
        before: limits.setup(),
        after: limits.hold(),
    }
}

/// The pins of a checker.
pub fn held_by(checker: &Instance, check: Check) -> Held
    requires { 2 ≤ length checker.now.pins }
    ensures pin { slice_get checker.now.pins 1 ≡ Some result.pin }
    ensures clock { slice_get checker.now.pins 0 ≡ Some result.clock }
    ensures place { result.place ≡ 1 }
    ensures opens { result.opens ≡ Rise }
    ensures shuts { result.shuts ≡ closing check }
{
    let pins = checker.pins.as_slice();
    Held {
        place: 1,
        pin: pins[1],
        clock: pins[0],
        opens: Direction::Rise,
        shuts: match check {
            Check::RiseFall => Direction::Fall,
            Check::SetupHold | Check::MinPulse => Direction::Rise,
        },
    }
}

/// The slacks about edges of what is held.
fn about_edges<W: CyclicWave<Item = Value>>(
    view: &View<W>,
    paths: &mut Paths,
    held: Held,
    edges: &[Region],
    extent: Extent,
    changes: &Slots,
) -> Result<Slacks, NoMemory>
    requires sees { Sees view.now.circuit.now view.now.waves.now view.now.hazards.now }
    requires knows { Knows view.now.circuit.now (waves_of view.now.waves.now) paths.old.nodes
        paths.old.met.entries }
    requires held { IsHeld view.now.circuit.now held }
    requires edges { All (IsInPeriod (period view.now.circuit.now.header)) edges.now }
    requires extent { extent.before ≤ period view.now.circuit.now.header }
    requires changes { IsSlots (period view.now.circuit.now.header) changes.now }
    ensures paths { OnOk result (GoesOn view.now.circuit.now (waves_of view.now.waves.now)
        paths.old paths.new) }
    ensures level { IfOk result (λ found. found.level ≡ None) }
    ensures finding { let c = view.now.circuit.now in let p = period c.header in
        let ws = waves_of view.now.waves.now in
        let windows = windows_about p extent edges.now in (ev : Events) →
        AreChanges p ev changes.now.regions → changes.now.are_all ≡ false →
        AllByRecursion (IsPlaced p) windows → IfOk result
        (TellWindows p ev (launches_of c ws (Some held)) (two_of c ws (Some held)) held.place
        Change windows) }
    ensures ways { changes.now.are_all ≡ true →
        IfOk result (AreOfWays (not (length edges.now == 0))) }
    ensures are { IfOk result (AreAboutEdges view.now.circuit.now (waves_of view.now.waves.now)
        paths.old paths.new held extent edges.now changes.now) }
{
    let moving = changes.regions.as_slice();
    let watch = Watch {
        edges,
        extent,
        changes: moving,
        direction: Direction::Change,
        held: Some(held),
    };
    if changes.are_all {
        let starred = by_ways(view, paths, watch, held)?;
        return Ok(starred);
    }
    let found = about_all(view, paths, watch)?;
    Ok(found)
}

/// The slacks of a checker from each rise of the clock to its last fall, of an input that changes.
fn span_slacks<W: CyclicWave<Item = Value>>(
    view: &View<W>,
    paths: &mut Paths,
    held: Held,
    clock: &W,
    limits: Limits,
    changes: &Slots,
) -> Result<Slacks, NoMemory>
    requires sees { Sees view.now.circuit.now view.now.waves.now view.now.hazards.now }
    requires knows { Knows view.now.circuit.now (waves_of view.now.waves.now) paths.old.nodes
        paths.old.met.entries }
    requires held { IsHeld view.now.circuit.now held }
    requires clock { length (W.cells clock.now) ≡ period view.now.circuit.now.header }
    requires short { setup_of limits + hold_of limits ≤ period view.now.circuit.now.header }
    requires changes { IsSlots (period view.now.circuit.now.header) changes.now }
    ensures paths { OnOk result (GoesOn view.now.circuit.now (waves_of view.now.waves.now)
        paths.old paths.new) }
    ensures finding { let c = view.now.circuit.now in let p = period c.header in
        let ws = waves_of view.now.waves.now in (input : Folds) →
        IsCyclic p (events Change input) → some_event p (events Change input) ≡ true →
        AreSlots p (events Change input) changes.now →
        let watch = span_watch p (limits_at_edges limits) (read (W.cells clock.now)) input in
        IfOk result (TellWatch p (launches_of c ws (Some held))
        (is_by_arrivals p (two_of c ws (Some held)) watch) held.place Change watch) }
    ensures never { (input : Folds) → (span_watch (length (W.cells clock.now))
        (limits_at_edges limits) (read (W.cells clock.now)) input).never ≡ true →
        IfOk result (λ found. found.before ≡ Some (finding_none Reason.High held.place Change)) }
    ensures are { let p = length (W.cells clock.now) in let wave = read (W.cells clock.now) in
        (input : Folds) → (span_watch p (limits_at_edges limits) wave input).never ≡ false →
        IfOk result (AreAboutEdges view.now.circuit.now (waves_of view.now.waves.now)
        paths.old paths.new held (limits_at_edges limits)
        (map ticks_of_region (spans p wave)) changes.now) }
{
    if stays_high(clock) {
        return Ok(Slacks::none(Reason::High, held.place, Direction::Change));
    }
    // no period is short, and none is long
    let _period = view.period();
    let spans = spans_of(view.alloc, clock)?;
    let regions = spans.as_slice();
    let found = about_edges(view, paths, held, regions, edge_limits(limits), changes)?;
    Ok(found)
}

/// The slacks of a checker about each rise of the clock, of an input that changes.
fn rise_slacks<W: CyclicWave<Item = Value>>(
    view: &View<W>,
    paths: &mut Paths,
    held: Held,
    clock: &W,
    limits: Limits,
    changes: &Slots,
) -> Result<Slacks, NoMemory>
    requires sees { Sees view.now.circuit.now view.now.waves.now view.now.hazards.now }
    requires knows { Knows view.now.circuit.now (waves_of view.now.waves.now) paths.old.nodes
        paths.old.met.entries }
    requires held { IsHeld view.now.circuit.now held }
    requires clock { length (W.cells clock.now) ≡ period view.now.circuit.now.header }
    requires some { 1 ≤ setup_of limits + hold_of limits }
    requires short { setup_of limits + hold_of limits ≤ period view.now.circuit.now.header }
    requires changes { IsSlots (period view.now.circuit.now.header) changes.now }
    ensures paths { OnOk result (GoesOn view.now.circuit.now (waves_of view.now.waves.now)
        paths.old paths.new) }
    ensures finding { let c = view.now.circuit.now in let p = period c.header in
        let ws = waves_of view.now.waves.now in (input : Folds) →
        IsCyclic p (events Change input) → some_event p (events Change input) ≡ true →
        AreSlots p (events Change input) changes.now →
        let watch = rise_watch p (limits_at_edges limits) (read (W.cells clock.now)) input in
        IfOk result (TellWatch p (launches_of c ws (Some held))
        (is_by_arrivals p (two_of c ws (Some held)) watch) held.place Change watch) }
    ensures never { let p = period view.now.circuit.now.header in (input : Folds) →
        (rise_watch p (limits_at_edges limits) (read (W.cells clock.now)) input).never ≡ true →
        IfOk result (λ found. found.before ≡ Some (finding_none Reason.Clock held.place Change)) }
    ensures are { let p = period view.now.circuit.now.header in
        let wave = read (W.cells clock.now) in (input : Folds) →
        (rise_watch p (limits_at_edges limits) wave input).never ≡ false →
        IfOk result (AreAboutEdges view.now.circuit.now (waves_of view.now.waves.now)
        paths.old paths.new held (limits_at_edges limits)
        (map ticks_of_region (regions p (events Rise wave))) changes.now) }
{
    let edges = slots(view, clock, Test::May(Direction::Rise))?;
    if edges.are_all {
        return Ok(Slacks::none(Reason::Clock, held.place, Direction::Change));
    }
    let regions = edges.regions.as_slice();
    let found = about_edges(view, paths, held, regions, edge_limits(limits), changes)?;
    Ok(found)
}

/// Whether a checker asks from a rise to a fall; else it asks about rises, if about edges.
fn is_to_fall(check: Check) -> bool
    ensures fall { result ≡ true → check ≡ Check.RiseFall }
    ensures rise { result ≡ false → checks_edges check ≡ true → check ≡ Check.SetupHold }
{
    match check {
        Check::RiseFall => true,
        Check::SetupHold => false,
        Check::MinPulse => false,
    }
}

/// Whether a checker asks for nothing about an edge.
fn asks_nothing(limits: Limits) -> bool
    ensures { result ≡ has_no_window (limits_at_edges limits) }
{
    limits.setup() == 0 && limits.hold() == 0
}

/// The slacks of a checker's setup and hold.
pub fn checker_slacks<W: CyclicWave<Item = Value>>(
    view: &View<W>,
    paths: &mut Paths,
    checker: &Instance,
    check: Check,
) -> Result<Slacks, NoMemory>
    requires sees { Sees view.now.circuit.now view.now.waves.now view.now.hazards.now }
    requires knows { Knows view.now.circuit.now (waves_of view.now.waves.now) paths.old.nodes
        paths.old.met.entries }
    requires check { check_of checker.now.kind ≡ Some check }
    requires edges { checks_edges check ≡ true }
    requires fits { InstanceFits view.now.circuit.now.header
        (length view.now.circuit.now.nets) checker.now }
    ensures paths { OnOk result (GoesOn view.now.circuit.now (waves_of view.now.waves.now)
        paths.old paths.new) }
    ensures finding { let c = view.now.circuit.now in let ws = waves_of view.now.waves.now in
        let j = checker.now in IfOk result
        (TellSides (period c.header) (check_by_arrivals c ws j (Some check))
        (finding_check c ws j Setup (Some check)) (finding_check c ws j Hold (Some check))) }
    ensures are { let c = view.now.circuit.now in let ws = waves_of view.now.waves.now in
        let j = checker.now in
        some_event (period c.header) (events Change (pin_folds c ws j 1)) ≡ true →
        has_windows c ws j check ≡ true → IfOk result
        (AreOfChecker c ws paths.old paths.new j check) }
{
    // no period is short
    let _period = view.period();
    let held = held_by(checker, check);
    let data = fold(view, held.pin)?;
    let changes = slots(view, &data, Test::May(Direction::Change))?;
    if changes.are_none() {
        return Ok(Slacks::NONE);
    }
    let clock = fold(view, held.clock)?;
    if is_to_fall(check) {
        return span_slacks(view, paths, held, &clock, checker.limits, &changes);
    }
    if asks_nothing(checker.limits) {
        return Ok(quiet_slacks(&clock, &data));
    }
    rise_slacks(view, paths, held, &clock, checker.limits, &changes)
}
