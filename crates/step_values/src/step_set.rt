//! A set of steps.

ghost use Rattle.std.specs.Prelude.{◌≡◌, ◌<◌, ◌==◌, ◌&&◌, ◌||◌, ℕ, Bool, false, true};
ghost use Rattle.step_values.specs.Image.{one_step};
ghost use Rattle.step_values.specs.StepSet.{either, followed_by, in_set, IsSet, only_if, step_bit};

use std::marker::Model;

/// A step: a bit before and the bit after.
#[derive(Clone, Copy, PartialEq, Eq, Debug)]
pub struct Step {
    /// The bit before.
    pub before: bool,
    /// The bit after.
    pub after: bool,
}

impl Step {
    /// 0 before and after.
    pub const LOW: Step = Step {
        before: false,
        after: false,
    };

    /// From 0 to 1.
    pub const RISE: Step = Step {
        before: false,
        after: true,
    };

    /// From 1 to 0.
    pub const FALL: Step = Step {
        before: true,
        after: false,
    };

    /// 1 before and after.
    pub const HIGH: Step = Step {
        before: true,
        after: true,
    };
}

/// A set of steps in a byte: bit 1 for the step from 0 to 0, 2 for 0 to 1, 4 for 1 to 0, 8 for 1 to
/// 1. A contract sees the byte.
#[derive(Clone, Copy, PartialEq, Eq, Debug)]
pub struct StepSet {
    bits: u8,
}

impl Model for StepSet {
    ghost Value = { ℕ };

    ghost view = { λ s. s.bits };

    ghost invariant = { λ s. s.bits < 16 };

    ghost inverse = { λ n. record { bits = n } };
}

impl StepSet {
    /// The set that has the steps that are named true.
    pub fn of(stays_low: bool, rises: bool, falls: bool, stays_high: bool) -> StepSet
        ensures low { in_set result false false ≡ stays_low }
        ensures rise { in_set result false true ≡ rises }
        ensures fall { in_set result true false ≡ falls }
        ensures high { in_set result true true ≡ stays_high }
    {
        let stays = u8::from(stays_low) + 8 * u8::from(stays_high);
        StepSet {
            bits: stays + 2 * u8::from(rises) + 4 * u8::from(falls),
        }
    }

    /// No step.
    pub fn none() -> StepSet
        ensures { IsSet result (λ before after. false) }
    {
        StepSet { bits: 0 }
    }

    /// The one step from `before` to `after`, if it is wanted.
    pub fn one_if(wanted: bool, before: bool, after: bool) -> StepSet
        ensures { (b b' : Bool) → in_set result b b' ≡ (wanted && one_step before after b b') }
    {
        if wanted {
            StepSet {
                bits: step_bit(before, after),
            }
        } else {
            StepSet::none()
        }
    }

    /// The steps of either.
    pub fn union(self, other: StepSet) -> StepSet
        ensures { IsSet result (either (in_set self) (in_set other)) }
    {
        StepSet {
            bits: self.bits | other.bits,
        }
    }

    /// The steps of `next` that begin where some step of this ends.
    pub fn followed_by(self, next: StepSet) -> StepSet
        ensures { IsSet result (followed_by (in_set self) (in_set next)) }
    {
        let low = self.contains(false, false) || self.contains(true, false);
        let high = self.contains(false, true) || self.contains(true, true);
        StepSet::of(
            low && next.contains(false, false),
            low && next.contains(false, true),
            high && next.contains(true, false),
            high && next.contains(true, true),
        )
    }

    /// Itself if it is wanted, else no step.
    pub fn only_if(self, wanted: bool) -> StepSet
        ensures { IsSet result (only_if wanted (in_set self)) }
    {
        if wanted { self } else { StepSet::none() }
    }

    /// Whether the step from `before` to `after` is in it.
    pub fn contains(self, before: bool, after: bool) -> bool
        ensures { result ≡ in_set self before after }
    {
        self.bits & step_bit(before, after) != 0
    }

    /// Whether no step is in it.
    pub fn is_empty(self) -> bool
        ensures { result ≡ (self == 0) }
    {
        self.bits == 0
    }

    /// Its byte, below 16.
    pub fn bits(self) -> u8
        ensures same { result ≡ self }
        ensures below { result < 16 }
    {
        self.bits
    }
}

/// The bit that stands for a step.
fn step_bit(before: bool, after: bool) -> u8
    ensures { result ≡ step_bit before after }
{
    match (before, after) {
        (false, false) => 1,
        (false, true) => 2,
        (true, false) => 4,
        (true, true) => 8,
    }
}
