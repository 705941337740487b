//! Laws of paths, each proved of the definitions alone.

ghost use Rattle.critical_paths.specs.Laws.{ChangesMove, FirstIsAtCorner, LastIsAtCorner, PathsAreEvents, PathsAreFinite};

/// The net of each link of a path may change where the link says, if the net that the path is of
/// does.
pub fn paths_are_events()
    ensures { PathsAreEvents }
{}

/// A path has at most as many links as there are nets, slots and directions of steps, and ends
/// where its end says.
pub fn paths_are_finite()
    ensures { PathsAreFinite }
{}

/// A wave that is late by a delay makes a change exactly where the wave makes it, a delay of its
/// bounds before.
pub fn changes_move()
    ensures { ChangesMove }
{}

/// The last slot of a change of a late wave is the greatest delay after the wave's own last slot.
pub fn last_is_at_corner()
    ensures { LastIsAtCorner }
{}

/// The first slot of a change of a late wave is the least delay after the wave's own first slot.
pub fn first_is_at_corner()
    ensures { FirstIsAtCorner }
{}
