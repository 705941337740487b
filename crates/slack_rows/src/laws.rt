//! Laws of slacks: a limit is broken exactly if there is a fault, and a starred number is the worst.

ghost use Rattle.slack_rows.specs.Worst.{StarredIsWorst};
ghost use Rattle.slack_rows.specs.Laws.{BrokenWhereTouched, EdgesBreakWithFaults, MarksBreakWithFaults, NetsBreakWithFaults, WidthsBreakWithFaults};

/// One of the two slacks of a watch is broken exactly if data may change in one of its windows,
/// or at all if it is never to, whatever is known of launches.
pub fn broken_where_touched()
    ensures { BrokenWhereTouched }
{}

/// A checker at the edges of a clock has a fault exactly if its setup or its hold slack is
/// broken.
pub fn edges_break_with_faults()
    ensures { EdgesBreakWithFaults }
{}

/// A checker of widths has a fault of pulses of a level exactly if the slack of their width is
/// broken.
pub fn widths_break_with_faults()
    ensures { WidthsBreakWithFaults }
{}

/// A marked gate has a hazard exactly if one of its slacks is broken.
pub fn marks_break_with_faults()
    ensures { MarksBreakWithFaults }
{}

/// A driven net breaks its assertion exactly if one of its slacks is broken.
pub fn nets_break_with_faults()
    ensures { NetsBreakWithFaults }
{}

/// The number of data that may change in every slot is that of the worst of all ways, over each
/// launch and the edge that it is for.
pub fn starred_is_worst()
    ensures { StarredIsWorst }
{}
