//! Steps by their direction, and the two ends of a region.

ghost use Rattle.std.specs.Prelude.{◌≡◌, ◌+◌, ◌*◌, ◌≤◌, false, true};
ghost use Rattle.step_values.specs.Steps.{has};
ghost use Rattle.step_values.specs.StepSet.{in_set};
ghost use Rattle.critical_paths.specs.Event.{direction_by, moves, other_corner, steps_of, turned};
ghost use Rattle.critical_paths.specs.Path.{asks, bound, inward};
ghost use Rattle.critical_paths.specs.Tick.{IsWithin, is_further, most_tick, tick_beside};

use scald_base::Delay;
use step_values::{StepSet, Value, steps};

/// Which steps of a net are asked for.
#[derive(Clone, Copy, PartialEq, Eq, Hash)]
pub enum Direction {
    /// From 0 to 1.
    Rise,
    /// From 1 to 0.
    Fall,
    /// Either.
    Change,
}

impl Direction {
    /// The steps that are named true, or `None` if neither is.
    pub fn of(rises: bool, falls: bool) -> Option<Direction>
        ensures { result ≡ direction_by rises falls }
    {
        match (rises, falls) {
            (true, true) => Some(Direction::Change),
            (true, false) => Some(Direction::Rise),
            (false, true) => Some(Direction::Fall),
            (false, false) => None,
        }
    }

    /// Whether it has the step from 0 to 1.
    pub fn rises(self) -> bool
        ensures { result ≡ steps_of self false true }
    {
        !matches!(self, Direction::Fall)
    }

    /// Whether it has the step from 1 to 0.
    pub fn falls(self) -> bool
        ensures { result ≡ steps_of self true false }
    {
        !matches!(self, Direction::Rise)
    }

    /// Whether it has the step that another one is.
    pub fn has(self, step: Direction) -> bool
        ensures { result ≡ asks self step }
    {
        self == Direction::Change || self == step
    }

    /// Whether one of these steps is in a set.
    pub fn is_among(self, set: StepSet) -> bool
        ensures { result ≡ moves self (in_set set) }
    {
        (self.rises() && set.contains(false, true)) || (self.falls() && set.contains(true, false))
    }

    /// Whether a value permits one of these steps.
    pub fn is_in(self, value: Value) -> bool
        ensures { result ≡ moves self (has value) }
    {
        self.is_among(steps(value))
    }

    /// The steps of the complement, if it is asked for.
    pub fn turned(self, inverted: bool) -> Direction
        ensures { result ≡ turned inverted self }
    {
        match self {
            Direction::Rise if inverted => Direction::Fall,
            Direction::Fall if inverted => Direction::Rise,
            _ => self,
        }
    }
}

/// Which end of a region a path explains.
#[derive(Clone, Copy, PartialEq, Eq, Hash)]
pub enum Corner {
    /// The last tick: everything takes as long as it may.
    Late,
    /// The first tick: everything takes as short as it may.
    Early,
}

impl Corner {
    /// The other end.
    pub fn other(self) -> Corner
        ensures { result ≡ other_corner self }
    {
        match self {
            Corner::Late => Corner::Early,
            Corner::Early => Corner::Late,
        }
    }

    /// The ticks of a delay that are so many inside of its bound.
    pub fn inside(self, delay: Delay, by: u16) -> u16
        requires { delay.min + by ≤ delay.max }
        ensures { result ≡ inward self delay by }
    {
        match self {
            Corner::Late => delay.max - by,
            Corner::Early => delay.min + by,
        }
    }

    /// The bound of a delay, in ticks.
    pub fn bound(self, delay: Delay) -> u16
        requires { delay.min ≤ delay.max }
        ensures { result ≡ bound self delay }
    {
        self.inside(delay, 0)
    }

    /// The tick beside one, away from the region that ends there.
    pub fn beside(self, tick: i64) -> i64
        requires { IsWithin (4 * most_tick) tick }
        ensures { result ≡ tick_beside self tick }
    {
        match self {
            Corner::Late => tick + 1,
            Corner::Early => tick - 1,
        }
    }

    /// Whether one tick is further at this end than another.
    pub fn is_further(self, tick: i64, than: i64) -> bool
        ensures { result ≡ is_further self tick than }
    {
        match self {
            Corner::Late => tick > than,
            Corner::Early => tick < than,
        }
    }
}
