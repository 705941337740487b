//! The lesser and the greater of two numbers.

ghost use Rattle.std.specs.Prelude.{◌≡◌, max, min};

use std::cmp::{max, min};

/// The lesser one.
pub fn lesser(one: u32, two: u32) -> u32
    ensures { result ≡ min one two }
{
    min(one, two)
}

/// The greater one.
pub fn greater(one: u32, two: u32) -> u32
    ensures { result ≡ max one two }
{
    max(one, two)
}
