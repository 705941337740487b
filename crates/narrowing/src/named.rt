//! The ticks that a break names.

ghost use Rattle.std.specs.Prelude.{◌≡◌};
ghost use Rattle.narrowing.specs.Named.{last_of};

use std::cmp::max;

/// The ticks of a break.
#[derive(Clone, Copy, PartialEq, Eq, Debug)]
pub enum Named {
    /// A clock rises, and an input changes too near to that.
    Edge { rise: u32, change: u32 },
    /// A clock rises and next falls, and an input changes too near to that.
    High { rise: u32, fall: u32, change: u32 },
    /// A pulse begins and ends.
    Pulse { start: u32, end: u32 },
    /// A pin changes while the marked one lets it through. Pins go by their places, from 0.
    Mark { tick: u32, marked: u16, pin: u16 },
    /// A net steps as its assertion does not have it.
    Step(u32),
}

impl Named {
    /// The greatest of the ticks.
    pub fn last(self) -> u32
        ensures { result ≡ last_of self }
    {
        match self {
            Named::Edge { rise, change } => max(rise, change),
            Named::High { fall, change, .. } => max(fall, change),
            Named::Pulse { end, .. } => end,
            Named::Mark { tick, .. } => tick,
            Named::Step(tick) => tick,
        }
    }
}
