//! Slacks about windows, by the regions of changes near them.

ghost use Rattle.std.specs.Prelude.{◌≡◌, ◌≤◌, ◌+◌, ◌*◌, ◌++◌, ◌-ℤ◌, IfOk, IfSome, List, None, OnOk, length, map, pos, ℕ};
ghost use Rattle.std.specs.List.{All, AllByRecursion};
ghost use Rattle.std.specs.Option.{option_map};
ghost use Rattle.scald_base.specs.Time.{period};
ghost use Rattle.fixpoint_engine.specs.Waves.{waves_of};
ghost use Rattle.critical_paths.specs.declared.direction.Corner.TheVariants.{Late, Early};
ghost use Rattle.critical_paths.specs.declared.region.Region.{Region};
ghost use Rattle.critical_paths.specs.Event.{Events};
ghost use Rattle.critical_paths.specs.Tick.{IsWithin, most_tick};
ghost use Rattle.critical_paths.specs.Known.{Knows};
ghost use Rattle.critical_paths.specs.Views.{Sees, later_by};
ghost use Rattle.slack_rows.specs.Held.{AreAround, AreChanges, GoesOn, IsClose, IsCloseWindow, IsInPeriod, Lies, MayBeHeld, TellWindow, TellWindows, in_period, in_periods, launches_of, lies_by_ends, place_in, side_held, slacks_of_two, two_of, windows_about};
ghost use Rattle.slack_rows.specs.Laws.{IsPlaced};
ghost use Rattle.slack_rows.specs.Sides.{AreAbout, AreLeastAbout};
ghost use Rattle.slack_rows.specs.Views.{end_at, region_in, finding_by_region, window_about, window_in};

use crate::around::{Around, Side};
use crate::held::{Held, Watch, place_of};
use crate::launch::by_launch_if;
use crate::slack::{By, Finding, Slack, Slacks};
use crate::two::{by_two_if, meets_two};
use crate::window::{Extent, Window, spare_at};
use critical_paths::{Corner, Paths, Region, View};
use scald_base::NoMemory;
use step_values::Value;
use wave_core::CyclicWave;

/// How many periods of regions are looked at, of which three lie before that in which an edge
/// begins.
const PERIODS: u16 = 8;

/// The end of a region that counts at a corner.
fn end_of(corner: Corner, region: Region) -> i64
    ensures { result ≡ end_at corner region }
{
    match corner {
        Corner::Late => region.last,
        Corner::Early => region.first,
    }
}

/// That of a region's end.
fn finding(watch: Watch, corner: Corner, window: Window, near: Region) -> Finding
    requires from { IsWithin most_tick window.from }
    requires to { IsWithin most_tick window.to }
    requires first { IsWithin most_tick near.first }
    requires last { IsWithin most_tick near.last }
    ensures { result
        ≡ finding_by_region (place_in watch.entry.held) watch.entry.direction corner window near }
{
    let tick = end_of(corner, near);
    Finding {
        slack: Slack::Ticks(spare_at(corner, window, tick)),
        window,
        pin: place_of(watch.held),
        direction: watch.direction,
        tick,
        by: By::Region(near),
    }
}

/// The same of a region that there may be, in a period of so many slots.
fn finding_if(watch: Watch, corner: Corner, window: Window, near: Option<Region>) -> Option<Finding>
    requires from { IsWithin most_tick window.from }
    requires to { IsWithin most_tick window.to }
    requires near { IfSome near (λ r. IsWithin most_tick r.first × IsWithin most_tick r.last) }
    ensures { result ≡ option_map (finding_by_region (place_in watch.entry.held)
        watch.entry.direction corner window) near }
{
    match near {
        Some(near) => Some(finding(watch, corner, window, near)),
        None => None,
    }
}

/// Those of the regions about a window.
fn by_regions(watch: Watch, window: Window, around: Around) -> Slacks
    requires from { IsWithin most_tick window.from }
    requires to { IsWithin most_tick window.to }
    requires last { IfSome around.last
        (λ r. IsWithin most_tick r.first × IsWithin most_tick r.last) }
    requires first { IfSome around.first
        (λ r. IsWithin most_tick r.first × IsWithin most_tick r.last) }
    ensures level { result.level ≡ None }
    ensures before { result.before
        ≡ option_map (finding_by_region (place_in watch.entry.held) watch.entry.direction Late
        window) around.last }
    ensures after { result.after
        ≡ option_map (finding_by_region (place_in watch.entry.held) watch.entry.direction Early
        window) around.first }
{
    Slacks {
        level: None,
        before: finding_if(watch, Corner::Late, window, around.last),
        after: finding_if(watch, Corner::Early, window, around.first),
    }
}

/// Where a region lies about a window by its ends; `None` if it covers it or lies in it.
fn side_by_ends(window: Window, region: Region) -> Option<Side>
    ensures { result ≡ lies_by_ends window region }
{
    if region.last < window.from {
        return Some(Side::Before);
    }
    if region.first > window.to {
        return Some(Side::After);
    }
    let begins = region.first < window.from;
    let ends = region.last > window.to;
    if begins == ends {
        None
    } else if begins {
        Some(Side::Late)
    } else {
        Some(Side::Early)
    }
}

/// Where a region lies about a window, and for what of it it counts.
fn side_of<W: CyclicWave<Item = Value>>(
    view: &View<W>,
    paths: &mut Paths,
    held: Option<Held>,
    window: Window,
    region: Region,
) -> Result<Side, NoMemory>
    requires sees { Sees view.now.circuit.now view.now.waves.now view.now.hazards.now }
    requires knows { Knows view.now.circuit.now (waves_of view.now.waves.now) paths.old.nodes
        paths.old.met.entries }
    requires held { MayBeHeld view.now.circuit.now held }
    requires window { IsCloseWindow (period view.now.circuit.now.header) window }
    requires region { IsClose (period view.now.circuit.now.header) region }
    ensures paths { OnOk result (GoesOn view.now.circuit.now (waves_of view.now.waves.now)
        paths.old paths.new) }
    ensures lies { let c = view.now.circuit.now in let p = period c.header in
        let ws = waves_of view.now.waves.now in let w = window_in p window in
        IfOk result (Lies (side_held c ws held w) (two_of c ws held w) w (region_in p region)) }
{
    if let Some(side) = side_by_ends(window, region) {
        return Ok(side);
    }
    let side = by_launch_if(view, paths, held, window, region)?;
    Ok(side)
}

/// A region in the period that begins at a tick, with three periods before its own.
fn moved_to<W: CyclicWave<Item = Value>>(view: &View<W>, region: Region, begin: u16) -> Region
    requires begin { begin ≤ 32768 }
    requires region { IsInPeriod (period view.now.circuit.now.header) region }
    ensures is { result
        ≡ later_by (pos begin -ℤ pos (3 * period view.now.circuit.now.header)) region }
    ensures close { IsClose (period view.now.circuit.now.header) result }
{
    let ahead = i64::from(view.period()) * 3;
    region.later(i64::from(begin) - ahead)
}

/// What the regions of a period come to about a window, with what those before it come to.
fn around_in<W: CyclicWave<Item = Value>>(
    view: &View<W>,
    paths: &mut Paths,
    watch: Watch,
    window: Window,
    begin: u16,
    before: Around,
) -> Result<Around, NoMemory>
    requires sees { Sees view.now.circuit.now view.now.waves.now view.now.hazards.now }
    requires knows { Knows view.now.circuit.now (waves_of view.now.waves.now) paths.old.nodes
        paths.old.met.entries }
    requires held { MayBeHeld view.now.circuit.now watch.held }
    requires window { IsCloseWindow (period view.now.circuit.now.header) window }
    requires changes { All (IsInPeriod (period view.now.circuit.now.header)) watch.changes.now }
    requires few { length watch.changes.now ≤ 4096 }
    requires begin { begin ≤ 32768 }
    requires met { before.met ≤ 32768 }
    ensures paths { OnOk result (GoesOn view.now.circuit.now (waves_of view.now.waves.now)
        paths.old paths.new) }
    ensures met { IfOk result (λ all. all.met ≤ before.met + 4096) }
    ensures are { let c = view.now.circuit.now in let p = period c.header in
        let ws = waves_of view.now.waves.now in let w = window_in p window in
        let side = side_held c ws watch.entry.held w in let two = two_of c ws watch.entry.held w in
        (number : ℕ) (regions : List Region) → begin ≡ number * p →
        AreAround p side two w regions before → IfOk result
        (AreAround p side two w (regions ++ map (in_period p number) watch.entry.changes.now)) }
{
    let mut all = before;
    for region in watch.changes {
        let moved = moved_to(view, *region, begin);
        let side = side_of(view, paths, watch.held, window, moved)?;
        all = all.with(moved, side);
    }
    Ok(all)
}

/// What all regions come to about a window, period by period: it lies within those of the third
/// before its own and the fourth after it.
fn around<W: CyclicWave<Item = Value>>(
    view: &View<W>,
    paths: &mut Paths,
    watch: Watch,
    window: Window,
) -> Result<Around, NoMemory>
    requires sees { Sees view.now.circuit.now view.now.waves.now view.now.hazards.now }
    requires knows { Knows view.now.circuit.now (waves_of view.now.waves.now) paths.old.nodes
        paths.old.met.entries }
    requires held { MayBeHeld view.now.circuit.now watch.held }
    requires window { IsCloseWindow (period view.now.circuit.now.header) window }
    requires changes { All (IsInPeriod (period view.now.circuit.now.header)) watch.changes.now }
    requires few { length watch.changes.now ≤ 4096 }
    ensures paths { OnOk result (GoesOn view.now.circuit.now (waves_of view.now.waves.now)
        paths.old paths.new) }
    ensures are { let c = view.now.circuit.now in let p = period c.header in
        let ws = waves_of view.now.waves.now in let w = window_in p window in IfOk result
        (AreAround p (side_held c ws watch.entry.held w) (two_of c ws watch.entry.held w) w
        (in_periods p watch.entry.changes.now 8)) }
{
    let period = view.period();
    let mut all = Around::NONE;
    let mut begin = 0;
    for number in 0..PERIODS {
        all = around_in(view, paths, watch, window, begin, all)?;
        begin += period;
    }
    Ok(all)
}

/// The slacks of two launches, or if there are none those of regions.
fn either(two: Option<Slacks>, regions: Slacks) -> Slacks
    ensures { result ≡ slacks_of_two two regions }
{
    match two {
        Some(two) => two,
        None => regions,
    }
}

/// The slacks about a window.
fn about<W: CyclicWave<Item = Value>>(
    view: &View<W>,
    paths: &mut Paths,
    watch: Watch,
    window: Window,
) -> Result<Slacks, NoMemory>
    requires sees { Sees view.now.circuit.now view.now.waves.now view.now.hazards.now }
    requires knows { Knows view.now.circuit.now (waves_of view.now.waves.now) paths.old.nodes
        paths.old.met.entries }
    requires held { MayBeHeld view.now.circuit.now watch.held }
    requires window { IsCloseWindow (period view.now.circuit.now.header) window }
    requires changes { All (IsInPeriod (period view.now.circuit.now.header)) watch.changes.now }
    requires few { length watch.changes.now ≤ 4096 }
    ensures paths { OnOk result (GoesOn view.now.circuit.now (waves_of view.now.waves.now)
        paths.old paths.new) }
    ensures level { IfOk result (λ found. found.level ≡ None) }
    ensures finding { let c = view.now.circuit.now in let p = period c.header in
        let ws = waves_of view.now.waves.now in (ev : Events) →
        AreChanges p ev watch.entry.changes.now → IsPlaced p (window_in p window) → IfOk result
        (TellWindow p ev (launches_of c ws watch.entry.held) (two_of c ws watch.entry.held)
        (place_in watch.entry.held) watch.entry.direction (window_in p window)) }
    ensures are { IfOk result (AreAbout view.now.circuit.now (waves_of view.now.waves.now)
        paths.new watch.entry.held watch.entry.direction
        watch.entry.changes.now window) }
{
    // no period is short
    let _period = view.period();
    let all = around(view, paths, watch, window)?;
    let met = meets_two(watch.held, all);
    let two = by_two_if(view, paths, window, met)?;
    let regions = by_regions(watch, window, all);
    Ok(either(two, regions))
}

/// The least slacks about all edges.
pub fn about_all<W: CyclicWave<Item = Value>>(
    view: &View<W>,
    paths: &mut Paths,
    watch: Watch,
) -> Result<Slacks, NoMemory>
    requires sees { Sees view.now.circuit.now view.now.waves.now view.now.hazards.now }
    requires knows { Knows view.now.circuit.now (waves_of view.now.waves.now) paths.old.nodes
        paths.old.met.entries }
    requires held { MayBeHeld view.now.circuit.now watch.held }
    requires edges { All (IsInPeriod (period view.now.circuit.now.header)) watch.edges.now }
    requires extent { watch.extent.before ≤ period view.now.circuit.now.header }
    requires changes { All (IsInPeriod (period view.now.circuit.now.header)) watch.changes.now }
    requires few { length watch.changes.now ≤ 4096 }
    ensures paths { OnOk result (GoesOn view.now.circuit.now (waves_of view.now.waves.now)
        paths.old paths.new) }
    ensures level { IfOk result (λ found. found.level ≡ None) }
    ensures finding { let c = view.now.circuit.now in let p = period c.header in
        let ws = waves_of view.now.waves.now in
        let windows = windows_about p watch.entry.extent watch.entry.edges.now in (ev : Events) →
        AreChanges p ev watch.entry.changes.now → AllByRecursion (IsPlaced p) windows →
        IfOk result
        (TellWindows p ev (launches_of c ws watch.entry.held) (two_of c ws watch.entry.held)
        (place_in watch.entry.held) watch.entry.direction windows) }
    ensures are { IfOk result (AreLeastAbout view.now.circuit.now (waves_of view.now.waves.now)
        paths.old watch.entry.held watch.entry.direction watch.entry.changes.now
        (map (λ e. window_about e watch.entry.extent) watch.entry.edges.now)) }
{
    let mut all = Slacks::NONE;
    for edge in watch.edges {
        let window = window_of(*edge, watch.extent, view.period());
        let found = about(view, paths, watch, window)?;
        all = all.lesser(found);
    }
    Ok(all)
}

/// The window about an edge of the period.
pub fn window_of(edge: Region, extent: Extent, period: u16) -> Window
    requires edge { IsInPeriod period edge }
    requires extent { extent.before ≤ period }
    requires period { period ≤ 4096 }
    ensures is { result ≡ window_about edge extent }
    ensures close { IsCloseWindow period result }
{
    // no window is wide
    let _after = extent.after;
    Window::about(edge, extent)
}
