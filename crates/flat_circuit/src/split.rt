//! Two delays of one gate.

ghost use Rattle.std.specs.Prelude.{◌≡◌};
ghost use Rattle.flat_circuit.specs.Split.{EqualDelaysAreOne, EveryTickCounts, RiseMirrorsFall, either_delay};

use scald_base::Delay;
use std::cmp::{max, min};

/// The bounds of a gate's two delays, in ticks: a change of its inputs that takes the output to 1
/// comes after the rise delay, and one that takes it to 0 after the fall delay.
#[derive(Clone, Copy, PartialEq, Eq, Debug)]
pub struct Split {
    pub rise: Delay,
    pub fall: Delay,
}

impl Split {
    /// From the least to the greatest of both delays, in ticks.
    pub fn either(&self) -> Delay
        ensures { result ≡ either_delay self.now }
    {
        Delay {
            min: min(self.rise.min, self.fall.min),
            max: max(self.rise.max, self.fall.max),
        }
    }
}

/// If the rise delay and the fall delay are equal, the equation of two delays is that of this
/// delay, and is asked at the same ticks.
pub fn equal_delays_are_one()
    ensures { EqualDelaysAreOne }
{}

/// If the rise delay is at least the fall delay, the output is 1 exactly if the gate's own bit
/// is 1 on all ticks from the rise delay before to the fall delay before. If the fall delay is
/// the greater, it is 1 exactly if that bit is 1 on some tick from the fall delay before to the
/// rise delay before.
pub fn every_tick_counts()
    ensures { EveryTickCounts }
{}

/// A gate with two delays, complemented, is the complemented gate with its delays exchanged.
pub fn rise_mirrors_fall()
    ensures { RiseMirrorsFall }
{}
