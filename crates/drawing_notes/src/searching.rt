//! Whether a value stands in some slot of a wave.

ghost use Rattle.std.specs.Prelude.{◌≡◌};
ghost use Rattle.std.specs.List.{list_any};
ghost use Rattle.step_values.specs.Steps.{is_unknown};
ghost use Rattle.drawing_notes.specs.Passing.{is_other as spec_is_other};
ghost use Rattle.drawing_notes.specs.Unclocked.{is_active as spec_is_active};

use element_kinds::Form;
use step_values::{Step, Value};
use wave_core::{CyclicWave, first_where};

/// Whether a clock of this form does something if its fold has this value: an enable if it
/// may be 1, any other clock if it may rise.
fn is_active(form: Form, value: Value) -> bool
    ensures { result ≡ spec_is_active form value }
{
    match form {
        Form::Gate | Form::Change => false,
        Form::Register(_) | Form::Checker(_) => value.may_rise(),
        Form::Latch(_) => value.permits(Step::HIGH),
    }
}

/// Whether a clock of this form does something in some slot of its fold.
pub(crate) fn has_active<W: CyclicWave<Item = Value>>(form: Form, fold: &W) -> bool
    ensures { result ≡ list_any (spec_is_active form) (W.cells fold.now) }
{
    match first_where(fold, 0, fold.period(), |value| is_active(form, value)) {
        Some(_) => true,
        None => false,
    }
}

/// Whether nothing is known in some slot.
pub(crate) fn has_unknown<W: CyclicWave<Item = Value>>(wave: &W) -> bool
    ensures { result ≡ list_any is_unknown (W.cells wave.now) }
{
    match first_where(wave, 0, wave.period(), |value| value.is_unknown()) {
        Some(_) => true,
        None => false,
    }
}

/// Whether it is another value than that of a bit that stays.
fn is_other(bit: bool, value: Value) -> bool
    ensures { result ≡ spec_is_other bit value }
{
    if bit {
        value != Value::One
    } else {
        value != Value::Zero
    }
}

/// Whether some slot has another value than that of this bit, which stays.
pub(crate) fn has_other<W: CyclicWave<Item = Value>>(bit: bool, wave: &W) -> bool
    ensures { result ≡ list_any (spec_is_other bit) (W.cells wave.now) }
{
    match first_where(wave, 0, wave.period(), |value| is_other(bit, value)) {
        Some(_) => true,
        None => false,
    }
}
