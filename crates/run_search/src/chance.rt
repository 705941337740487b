//! Chance, by the words of a generator.

ghost use Rattle.std.specs.Prelude.{◌<◌};

use rand_core::Rng;

/// A bit.
pub fn coin<R: Rng>(rng: &mut R) -> bool {
    rng.next_u64() % 2 == 1
}

/// A bit that is mostly 0: 1 in one of so many.
pub fn seldom<R: Rng>(rng: &mut R, of: u64) -> bool
    requires { 0 < of }
{
    rng.next_u64() % of == 0
}
