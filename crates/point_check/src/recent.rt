//! What was worked out for the checkers before.

use crate::folds::LastFold;
use crate::last_check::LastCheck;
use step_values::Value;
use wave_core::CyclicWave;

/// The last fold of a clock, and the last checker with its fault.
#[derive(Drop)]
pub struct Recent<W: CyclicWave<Item = Value>> {
    pub clock: LastFold<W>,
    pub check: LastCheck<W>,
}

impl<W: CyclicWave<Item = Value>> Recent<W> {
    /// Nothing was worked out yet.
    pub fn new() -> Recent<W> {
        Recent {
            clock: LastFold::new(),
            check: LastCheck::new(),
        }
    }
}
