//! Laws of narrowings. The functions do nothing: what each states is its contract.

ghost use Rattle.narrowing.specs.Laws.{LeavesAreNarrowings, LeavesCover};

/// Each leaf of a tree over a case is a narrowing of it.
pub fn leaves_are_narrowings()
    ensures { LeavesAreNarrowings }
{}

/// Every run of a case is in at least one leaf of each tree over the case.
pub fn leaves_cover()
    ensures { LeavesCover }
{}
