//! What holds of all values, each law as the contract of a function that does nothing.

ghost use Rattle.step_values.specs.Laws.{CoverIsLeast, CoverIsUnknown, CoverPermits, CoverReturns, FlipComplements, JoinIsLeast, JoinIsOrderless, JoinPermits, QuietKeeps};

/// A cover permits each step of its set.
pub fn cover_permits()
    ensures { CoverPermits }
{}

/// A value that permits each step of a set permits each step of its cover.
pub fn cover_is_least()
    ensures { CoverIsLeast }
{}

/// A cover is U exactly if all four steps are there and an argument was unknown.
pub fn cover_is_unknown()
    ensures { CoverIsUnknown }
{}

/// A value is the cover of its own steps.
pub fn cover_returns()
    ensures { CoverReturns }
{}

/// A join permits what either of its two values permits.
pub fn join_permits()
    ensures { JoinPermits }
{}

/// A value that permits what two values permit, permits what their join permits.
pub fn join_is_least()
    ensures { JoinIsLeast }
{}

/// Neither the order of a join's values nor how often each comes matters.
pub fn join_is_orderless()
    ensures { JoinIsOrderless }
{}

/// The flipped value permits the complement of a step exactly if the value permits the step.
pub fn flip_complements()
    ensures { FlipComplements }
{}

/// A quiet value permits only steps that change nothing.
pub fn quiet_keeps()
    ensures { QuietKeeps }
{}
