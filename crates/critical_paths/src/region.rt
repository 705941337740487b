//! Regions: slots in a row in which something may happen.

ghost use Rattle.std.specs.Prelude.{◌≡◌, ◌+◌, ◌-◌, ◌*◌, ◌^◌, ◌<◌, ◌==◌, ◌&&◌, pos, not, length, map, IfOk, None, Some, if◌then◌else◌};
ghost use Rattle.critical_paths.specs.Tick.{IsWithin, most_tick};
ghost use Rattle.critical_paths.specs.Event.{is_first};
ghost use Rattle.critical_paths.specs.Region.{all_events, region_from, regions};
ghost use Rattle.critical_paths.specs.Views.{end_at, later_by, passes, passing, ticks_of_region};

use crate::direction::{Corner, Direction};
use scald_base::{List, NoMemory};
use std::alloc::Global;
use step_values::Value;
use wave_core::{Cell, CyclicWave, first_where};

/// What is looked for in a slot.
#[derive(Clone, Copy)]
pub enum Test {
    /// Such a step.
    May(Direction),
    /// No such step.
    Lacks(Direction),
    /// Another value than this one.
    Unlike(Value),
}

impl Test {
    /// Whether a value passes.
    fn holds(self, value: Value) -> bool
        ensures { result ≡ passes self value }
    {
        match self {
            Test::May(direction) => direction.is_in(value),
            Test::Lacks(direction) => !direction.is_in(value),
            Test::Unlike(other) => value != other,
        }
    }

    /// Whether a value does not pass.
    fn fails(self, value: Value) -> bool
        ensures { result ≡ not (passes self value) }
    {
        !self.holds(value)
    }
}

/// Ticks in a row, the first in the first period. It comes again each period.
#[derive(Clone, Copy, PartialEq, Eq)]
pub struct Region {
    pub first: i64,
    pub last: i64,
}

impl Region {
    /// The same so many ticks later.
    pub fn later(self, ticks: i64) -> Region
        requires first { IsWithin most_tick self.first }
        requires last { IsWithin most_tick self.last }
        requires ticks { IsWithin (4 * most_tick) ticks }
        ensures { result ≡ later_by ticks self }
    {
        Region {
            first: self.first + ticks,
            last: self.last + ticks,
        }
    }

    /// The end that counts at a corner.
    pub fn end(self, corner: Corner) -> i64
        ensures { result ≡ end_at corner self }
    {
        match corner {
            Corner::Late => self.last,
            Corner::Early => self.first,
        }
    }

    /// So many ticks from one on.
    fn of(first: u16, count: u16) -> Region
        requires some { 0 < count }
        requires few { first + count < 2 ^ 16 }
        ensures { result ≡ record { first = pos first; last = pos (first + count - 1) } }
    {
        Region {
            first: i64::from(first),
            last: i64::from(first + count - 1),
        }
    }
}

/// Regions, in the order of their first ticks.
pub type Regions = List<Region>;

/// The slots of a wave that pass a test.
#[derive(Drop)]
pub struct Slots {
    /// All slots pass: there is no region.
    pub are_all: bool,
    pub regions: Regions,
}

impl Slots {
    /// Whether no slot passes.
    pub fn are_none(&self) -> bool
        ensures { result ≡ (not self.now.are_all && (length self.now.regions == 0)) }
    {
        !self.are_all && self.regions.is_empty()
    }
}

/// The region that begins in a slot, if one does.
fn region_at<W: CyclicWave<Item = Value>>(wave: &W, test: Test, slot: u16) -> Option<Region>
    requires { slot < length (W.cells wave.now) }
    ensures { let p = length (W.cells wave.now) in let ev = passing test (W.cells wave.now) in
        result ≡ (if is_first p ev slot then Some (ticks_of_region (region_from p ev slot)) else
        None) }
{
    let period = wave.period();
    if !test.holds(wave.at(slot)) || test.holds(wave.at((slot + (period - 1)) % period)) {
        return None;
    }
    let count = first_where(wave, slot, period, |value| test.fails(value))?;
    Some(Region::of(slot, count))
}

/// Whether each slot of a wave passes a test.
fn all_pass<W: CyclicWave<Item = Value>>(wave: &W, test: Test) -> bool
    ensures { result ≡ all_events (length (W.cells wave.now)) (passing test (W.cells wave.now)) }
{
    match first_where(wave, 0, wave.period(), |value| test.fails(value)) {
        None => true,
        Some(_) => false,
    }
}

/// The slots of a wave that pass a test.
pub fn slots_of<W: CyclicWave<Item = Value>>(
    alloc: Global,
    wave: &W,
    test: Test,
) -> Result<Slots, NoMemory>
    ensures all { IfOk result (λ slots.
        slots.are_all ≡ all_events (length (W.cells wave.now)) (passing test (W.cells wave.now))) }
    ensures regions { let p = length (W.cells wave.now) in IfOk result (λ slots.
        slots.regions ≡ map ticks_of_region (regions p (passing test (W.cells wave.now)))) }
{
    let period = wave.period();
    let mut regions = Regions::new(alloc);
    let are_all = all_pass(wave, test);
    let mut slot = 0;
    'runs: while slot < period {
        if let Some(region) = region_at(wave, test, slot) {
            regions.push(region)?;
        }
        slot = wave.same_until(slot);
    }
    Ok(Slots { are_all, regions })
}
