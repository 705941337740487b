//! A value as a cell of a wave.

ghost use Rattle.std.specs.Prelude.{refl};
ghost use Rattle.step_values.specs.Lawful.{values_lawful};
ghost use Rattle.step_values.specs.Cell.{values};
ghost use Rattle.step_values.specs.Each.{tests_are};

use crate::value::Value;
use wave_core::Cell;

impl Cell for Value {
    ghost kind = { values };

    ghost laws = { values_lawful };

    ghost equal = { tests_are _ _ refl };

    /// The least value that permits what either permits; U if one of them is U.
    #[inline]
    fn join(self, other: Value) -> Value {
        match self {
            Value::U => Value::U,
            Value::C => match other {
                Value::U => other,
                _ => Value::C,
            },
            Value::R => match other {
                Value::F | Value::C => Value::C,
                Value::U => Value::U,
                _ => Value::R,
            },
            Value::F => match other {
                Value::R | Value::C => Value::C,
                Value::U => Value::U,
                _ => Value::F,
            },
            Value::S => match other {
                Value::Zero | Value::One => Value::S,
                _ => other,
            },
            Value::Zero => match other {
                Value::One => Value::S,
                _ => other,
            },
            Value::One => match other {
                Value::Zero => Value::S,
                _ => other,
            },
        }
    }

    /// The value of the complement: 0 for 1, and a fall for a rise.
    fn flip(self) -> Value {
        match self {
            Value::Zero => Value::One,
            Value::One => Value::Zero,
            Value::R => Value::F,
            Value::F => Value::R,
            Value::S | Value::C | Value::U => self,
        }
    }

    /// Whether it permits no change.
    fn quiet(self) -> bool {
        matches!(self, Value::Zero | Value::One | Value::S)
    }
}
