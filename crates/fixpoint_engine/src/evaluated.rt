//! What is evaluated.

ghost use Rattle.std.specs.Prelude.{◌≡◌, ℕ, List, true};
ghost use Rattle.step_values.specs.declared.value.Value.{Value as OfValues};
ghost use Rattle.skew_algebra.specs.Wave.{Wave};

use std::hash::Hash;

/// A key of an evaluation: it reads some waves, by their numbers, and makes one of them. The key
/// and those waves alone decide which.
pub trait Evaluated: Eq + Hash + Drop {
    /// The numbers of the waves that it reads, in their order.
    ghost reads: { Self → List ℕ };

    /// What it makes of those waves.
    ghost makes: { Self → List (Wave OfValues) → Wave OfValues };

    /// Keys that are equal are one.
    ghost exact: { (j k : Self) → Self.eq j k ≡ true → j ≡ k };
}
