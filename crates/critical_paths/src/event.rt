//! Events: steps of nets and pins at ticks, of which one end of a region is asked for.

ghost use Rattle.std.specs.Prelude.{◌≡◌, ◌*◌, ◌-ℤ◌, pos};
ghost use Rattle.critical_paths.specs.Tick.{IsWithin, most_tick};

use crate::direction::{Corner, Direction};
use flat_circuit::Pin;

/// As what waves are read.
#[derive(Clone, Copy, PartialEq, Eq, Hash)]
pub enum Reading {
    /// However late they come.
    Folded,
    /// Without their skew, as the widths of pulses are.
    Unfolded,
}

/// A step of a net at a tick of any period.
#[derive(Clone, Copy)]
pub struct Event {
    pub net: u32,
    pub direction: Direction,
    pub tick: i64,
    pub corner: Corner,
    pub reading: Reading,
}

impl Event {
    /// The same net's step of another direction, at another tick.
    pub fn at(self, direction: Direction, tick: i64) -> Event
        ensures { result ≡ record self { direction = direction; tick = tick } }
    {
        Event {
            direction,
            tick,
            ..self
        }
    }
}

/// A step of a pin at a tick.
#[derive(Clone, Copy)]
pub struct PinEvent {
    pub pin: Pin,
    pub direction: Direction,
    pub tick: i64,
    pub corner: Corner,
}

/// An event in its slot, where a path passes or ends.
#[derive(Clone, Copy, PartialEq, Eq, Hash)]
pub struct Stop {
    pub net: u32,
    pub direction: Direction,
    pub slot: u16,
    pub corner: Corner,
    pub reading: Reading,
}

/// So many ticks sooner.
pub fn sooner(tick: i64, ticks: u16) -> i64
    requires { IsWithin (8 * most_tick) tick }
    ensures { result ≡ tick -ℤ pos ticks }
{
    tick - i64::from(ticks)
}
