//! From a value to its steps, and back.

ghost use Rattle.std.specs.Prelude.{◌≡◌, ◌<◌};
ghost use Rattle.step_values.specs.StepSet.{in_set, IsSet};
ghost use Rattle.step_values.specs.Steps.{cover, has};

use crate::step_set::StepSet;
use crate::value::Value;

/// The steps that a value permits.
pub fn steps(v: Value) -> StepSet
    ensures permitted { IsSet result (has v) }
    ensures inhabited { 0 < result }
{
    match v {
        Value::Zero => StepSet::of(true, false, false, false),
        Value::One => StepSet::of(false, false, false, true),
        Value::S => StepSet::of(true, false, false, true),
        Value::R => StepSet::of(true, true, false, true),
        Value::F => StepSet::of(true, false, true, true),
        Value::C | Value::U => StepSet::of(true, true, true, true),
    }
}

/// The least of 0, 1, S, R, F and C that permits each step of the set, or U if all four steps are
/// there and `saw_unknown` says that they come of an unknown value. It is 1 if the set has no step.
pub fn cover(s: StepSet, saw_unknown: bool) -> Value
    ensures { result ≡ cover (in_set s) saw_unknown }
{
    let (low, high) = (s.contains(false, false), s.contains(true, true));
    match (s.contains(false, true), s.contains(true, false)) {
        (true, true) if low && high && saw_unknown => Value::U,
        (true, true) => Value::C,
        (true, false) => Value::R,
        (false, true) => Value::F,
        (false, false) if low && high => Value::S,
        (false, false) if low => Value::Zero,
        (false, false) => Value::One,
    }
}
