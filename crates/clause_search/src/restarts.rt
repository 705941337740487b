//! When to begin again: after 1, 1, 2, 1, 1, 2, 4, .. times a fixed number of conflicts.

/// Conflicts to the first restart.
const UNIT: u64 = 64;

/// How far the next restart is.
#[derive(Clone, Copy)]
pub(crate) struct Restarts {
    /// How many terms of the sequence were taken that end a run of doublings.
    run: u64,
    /// The term that is under way.
    term: u64,
    /// Conflicts left to it.
    left: u64,
}

impl Restarts {
    pub(crate) fn new() -> Restarts {
        Restarts {
            run: 1,
            term: 1,
            left: UNIT,
        }
    }

    /// Notes a conflict.
    pub(crate) fn count(&mut self) {
        self.left = self.left.saturating_sub(1);
    }

    /// Whether a restart is due. If so, the next term begins.
    pub(crate) fn is_due(&mut self) -> bool {
        if self.left > 0 {
            return false;
        }
        let lowest_bit = self.run & self.run.wrapping_neg();
        if lowest_bit == self.term {
            self.run = self.run.saturating_add(1);
            self.term = 1;
        } else {
            self.term = self.term.saturating_mul(2);
        }
        self.left = self.term.saturating_mul(UNIT);
        true
    }
}
