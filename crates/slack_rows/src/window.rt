//! The ticks in which nothing is to change.

ghost use Rattle.std.specs.Prelude.{◌≡◌, ◌<◌, ◌≤◌, ◌+◌, ◌&&◌, IfOk, IfSome, length, map};
ghost use Rattle.std.specs.Option.{option_map};
ghost use Rattle.fixpoint_engine.specs.Pins.{read};
ghost use Rattle.point_check.specs.Point.{falls_somewhere};
ghost use Rattle.critical_paths.specs.Tick.{IsWithin, most_tick};
ghost use Rattle.critical_paths.specs.declared.direction.Direction.TheVariants.{Rise};
ghost use Rattle.critical_paths.specs.Event.{events};
ghost use Rattle.critical_paths.specs.Region.{some_event};
ghost use Rattle.critical_paths.specs.Views.{ticks_of_region};
ghost use Rattle.slack_rows.specs.Watch.{fall_of, follows as follows_before, may_stay_high, span_finding, spans};
ghost use Rattle.slack_rows.specs.Views.{spare_at, window_about};

use critical_paths::{Corner, Region, Regions};
use point_check::{first_low, last_fall};
use scald_base::NoMemory;
use std::alloc::Global;
use step_values::Value;
use wave_core::{CyclicWave, first_where};

/// A window, and the edge that it is about: its first and its last tick.
#[derive(Clone, Copy)]
pub struct Window {
    pub first: i64,
    pub last: i64,
    /// The first tick in which nothing is to change.
    pub from: i64,
    /// The last one.
    pub to: i64,
}

/// How many ticks a window has before an edge, and how many after it.
#[derive(Clone, Copy)]
pub struct Extent {
    pub before: u16,
    pub after: u16,
}

impl Extent {
    /// No ticks.
    pub const NONE: Extent = Extent {
        before: 0,
        after: 0,
    };
}

impl Window {
    /// The window from so many ticks before an edge, the first of which counts, to so many after
    /// it.
    pub fn about(edge: Region, extent: Extent) -> Window
        requires first { IsWithin most_tick edge.first }
        requires last { IsWithin most_tick edge.last }
        ensures { result ≡ window_about edge extent }
    {
        let Extent { before, after } = extent;
        Window {
            first: edge.first,
            last: edge.last,
            from: edge.first - i64::from(before) + 1,
            to: edge.last + i64::from(after),
        }
    }
}

/// How many ticks lie between a tick and a window, before it or after it.
pub fn spare_at(corner: Corner, window: Window, tick: i64) -> i64
    requires from { IsWithin most_tick window.from }
    requires to { IsWithin most_tick window.to }
    requires tick { IsWithin most_tick tick }
    ensures { result ≡ spare_at corner window tick }
{
    match corner {
        Corner::Late => window.from - 1 - tick,
        Corner::Early => tick - window.to - 1,
    }
}

/// Whether a clock may rise.
fn may_rise<W: CyclicWave<Item = Value>>(clock: &W) -> bool
    ensures { result ≡ some_event (length (W.cells clock.now))
        (events Rise (read (W.cells clock.now))) }
{
    match first_where(clock, 0, clock.period(), |value| value.may_rise()) {
        None => false,
        Some(_) => true,
    }
}

/// Whether a clock may fall.
fn may_fall<W: CyclicWave<Item = Value>>(clock: &W) -> bool
    ensures { result ≡ falls_somewhere (length (W.cells clock.now)) (read (W.cells clock.now)) }
{
    match first_where(clock, 0, clock.period(), |value| value.may_fall()) {
        None => false,
        Some(_) => true,
    }
}

/// Whether the clock may stay at 1 for a whole period, and rises and falls at all.
pub fn stays_high<W: CyclicWave<Item = Value>>(clock: &W) -> bool
    ensures { let p = length (W.cells clock.now) in let folds = read (W.cells clock.now) in result
        ≡ (may_stay_high p folds && (some_event p (events Rise folds) && falls_somewhere p folds)) }
{
    first_low(clock, 0).is_none() && may_rise(clock) && may_fall(clock)
}

/// How many slots after a rise in a slot the clock may last fall; `None` if it does not rise
/// there, or does not fall after it.
fn high_after<W: CyclicWave<Item = Value>>(clock: &W, slot: u16) -> Option<u16>
    requires { slot < length (W.cells clock.now) }
    ensures is { option_map (λ high. slot + high) result
        ≡ fall_of (length (W.cells clock.now)) (read (W.cells clock.now)) slot }
    ensures few { IfSome result (λ high. high ≤ length (W.cells clock.now)) }
{
    if !clock.at(slot).may_rise() {
        return None;
    }
    let low = first_low(clock, slot)?;
    last_fall(clock, slot, low)
}

/// Whether a rise has its last fall at the tick at which one in the slot before it has, by how long
/// the clock is high after them.
fn follows(before: Option<u16>, high: u16) -> bool
    requires { high ≤ 4096 }
    ensures { result ≡ follows_before before high }
{
    match before {
        Some(before) => before == high + 1,
        None => false,
    }
}

/// The span from a rise in a slot, if the clock rises and is the first that has its last fall
/// there.
fn span_from(slot: u16, before: Option<u16>, high: Option<u16>) -> Option<Region>
    requires { IfSome high (λ ticks. ticks ≤ 4096) }
    ensures { result ≡ option_map ticks_of_region (span_finding slot before high) }
{
    let high = high?;
    if follows(before, high) {
        return None;
    }
    Some(Region {
        first: i64::from(slot),
        last: i64::from(slot) + i64::from(high),
    })
}

/// From each rise of a clock to the last fall after it; of rises side by side that fall last at one
/// tick from the first.
pub fn spans_of<W: CyclicWave<Item = Value>>(alloc: Global, clock: &W) -> Result<Regions, NoMemory>
    requires shortest { 2 ≤ length (W.cells clock.now) }
    requires longest { length (W.cells clock.now) ≤ 4096 }
    ensures { IfOk result (λ found. found
        ≡ map ticks_of_region (spans (length (W.cells clock.now)) (read (W.cells clock.now)))) }
{
    let period = clock.period();
    let mut spans = Regions::new(alloc);
    let mut before = high_after(clock, period - 1);
    for slot in 0..period {
        let high = high_after(clock, slot);
        if let Some(span) = span_from(slot, before, high) {
            spans.push(span)?;
        }
        before = high;
    }
    Ok(spans)
}
