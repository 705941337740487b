//! A cell of a wave.

ghost use Rattle.std.specs.Prelude.{◌≡◌};
ghost use Rattle.wave_core.specs.Cell.{Cells, IsLawful};

/// A set of steps that a net may make in a slot. Several cells may permit the same steps.
pub trait Cell: Copy + Eq {
    /// What each of these cells permits, and what the calls give.
    ghost kind: { Cells Self };

    /// The least cell that is above both: it permits what either permits.
    fn join(self, other: Self) -> Self
        ensures { result ≡ kind.join self other };

    /// The cell of the complement.
    fn flip(self) -> Self
        ensures { result ≡ kind.flip self };

    /// Whether it permits no change.
    fn quiet(self) -> bool
        ensures { result ≡ kind.quiet self };

    /// What holds of all of these cells.
    ghost laws: { IsLawful kind };

    /// `==` is `same` of their meaning.
    ghost equal: { (v w : Self) → Self.eq v w ≡ kind.same v w };
}
