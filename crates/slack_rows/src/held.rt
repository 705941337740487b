//! What is held against what: a pin against the steps of another one, or a net against what its
//! name asserts.

ghost use Rattle.std.specs.Prelude.{◌≡◌};
ghost use Rattle.slack_rows.specs.Arrived.{finding_by_arrival};
ghost use Rattle.slack_rows.specs.Held.{place_in, step_held};

use crate::slack::{By, Finding, Slack};
use crate::window::{Extent, Window};
use critical_paths::{Arrival, Corner, Direction, PinEvent, Region};
use flat_circuit::Pin;

/// The pin that is to be quiet, what it is held against, and the steps of that with which windows
/// begin and end.
#[derive(Clone, Copy)]
pub struct Held {
    pub place: u16,
    pub pin: Pin,
    pub clock: Pin,
    pub opens: Direction,
    pub shuts: Direction,
}

/// What is to be quiet about edges, and how far about them. What is held against nothing is a net.
#[derive(Clone, Copy)]
pub struct Watch<'a> {
    pub edges: &'a [Region],
    pub extent: Extent,
    pub changes: &'a [Region],
    pub direction: Direction,
    pub held: Option<Held>,
}

/// The number of the pin that is held; a net has none.
pub fn place_of(held: Option<Held>) -> u16
    ensures { result ≡ place_in held }
{
    match held {
        Some(held) => held.place,
        None => 0,
    }
}

impl Held {
    /// The step that data is held against: of a last change that with which a window begins, as
    /// early as it may come, and of a first change that with which it ends, as late.
    pub fn edge(self, window: Window, corner: Corner) -> PinEvent
        ensures { result ≡ step_held self window corner }
    {
        let (direction, tick) = match corner {
            Corner::Late => (self.opens, window.first),
            Corner::Early => (self.shuts, window.last),
        };
        PinEvent {
            pin: self.clock,
            direction,
            tick,
            corner: corner.other(),
        }
    }

    /// A number of an arrival.
    pub fn finding(self, slack: Slack, window: Window, found: Arrival) -> Finding
        ensures { result ≡ finding_by_arrival self slack window found }
    {
        Finding {
            slack,
            window,
            pin: self.place,
            direction: Direction::Change,
            tick: found.tick,
            by: By::Way(found.node),
        }
    }
}
