//! A table of values.

ghost use Rattle.std.specs.Prelude.{◌≡◌, ◌<◌};
ghost use Rattle.step_values.specs.Table.{entry2, entry3, entry4, number};

use crate::value::Value;

/// An entry for each choice of two values (49), of three (343) or of four (2,401). The values are
/// numbered 0, 1, S, C, R, F, U from 0 to 6, and the entries are ordered by the first value, then
/// by the next.
#[derive(Clone, Copy, PartialEq, Eq, Debug)]
pub struct Table<const N: usize> {
    /// The entries in that order.
    pub entries: [Value; N],
}

/// The entry of two values.
pub fn look2(t: &Table<49>, a: Value, b: Value) -> Value
    ensures { result ≡ entry2 t.now.entries a b }
{
    t.entries[7 * number(a) + number(b)]
}

/// The entry of three values.
pub fn look3(t: &Table<343>, a: Value, b: Value, c: Value) -> Value
    ensures { result ≡ entry3 t.now.entries a b c }
{
    t.entries[49 * number(a) + 7 * number(b) + number(c)]
}

/// The entry of four values.
pub fn look4(t: &Table<2401>, a: Value, b: Value, c: Value, d: Value) -> Value
    ensures { result ≡ entry4 t.now.entries a b c d }
{
    t.entries[343 * number(a) + 49 * number(b) + 7 * number(c) + number(d)]
}

/// A value's number.
fn number(v: Value) -> usize
    ensures same { result ≡ number v }
    ensures below { result < 7 }
{
    v as usize
}

/// The value of a number.
pub fn value_at(place: usize) -> Value
    requires { place < 7 }
    ensures { number result ≡ place }
{
    match place {
        0 => Value::Zero,
        1 => Value::One,
        2 => Value::S,
        3 => Value::C,
        4 => Value::R,
        5 => Value::F,
        _ => Value::U,
    }
}
