//! A value.

ghost use Rattle.std.specs.Prelude.{◌≡◌, false, true};
ghost use Rattle.step_values.specs.Steps.{has, is_unknown, letter_of};

use crate::step_set::Step;

/// What a net may do in a slot of the period: the set of steps that it may make there, a step being
/// the bit before and the bit after.
#[derive(Clone, Copy, PartialEq, Eq, Debug)]
pub enum Value {
    /// It is 0 before and after.
    Zero,
    /// It is 1 before and after.
    One,
    /// It does not change.
    S,
    /// It may change in any way.
    C,
    /// It does not fall.
    R,
    /// It does not rise.
    F,
    /// Nothing is known of it yet.
    U,
}

impl Value {
    /// The letter of the report, in ASCII.
    pub fn letter(self) -> u8
        ensures { result ≡ letter_of self }
    {
        match self {
            Value::Zero => b'0',
            Value::One => b'1',
            Value::S => b'S',
            Value::C => b'C',
            Value::R => b'R',
            Value::F => b'F',
            Value::U => b'U',
        }
    }

    /// Whether it is [`Value::U`].
    pub fn is_unknown(self) -> bool
        ensures { result ≡ is_unknown self }
    {
        matches!(self, Value::U)
    }

    /// Whether it permits the step from 0 to 1.
    pub fn may_rise(self) -> bool
        ensures { result ≡ has self false true }
    {
        matches!(self, Value::R | Value::C | Value::U)
    }

    /// Whether it permits the step from 1 to 0.
    pub fn may_fall(self) -> bool
        ensures { result ≡ has self true false }
    {
        matches!(self, Value::F | Value::C | Value::U)
    }

    /// Whether it permits the step.
    pub fn permits(self, step: Step) -> bool
        ensures { result ≡ has self step.before step.after }
    {
        match self {
            Value::Zero => !step.before && !step.after,
            Value::One => step.before && step.after,
            Value::S => step.before == step.after,
            Value::R => !step.before || step.after,
            Value::F => step.before || !step.after,
            Value::C | Value::U => true,
        }
    }
}
