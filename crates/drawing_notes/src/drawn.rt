//! The notes that need no waves: on names that nothing determines, on what is found while a drawing
//! is expanded, and on its cases.

ghost use Rattle.std.specs.Prelude.{OnOk};
ghost use Rattle.drawing_omissions.specs.Lines.{Adds};
ghost use Rattle.drawing_notes.specs.Drawn.{drawn_notes};

use crate::reply::Kept;
use drawing_omissions::{Notes, add_cases, add_empty, add_names, add_spread, case_values};
use flat_circuit::Circuit;
use scald_base::NoMemory;
use std::alloc::Global;

/// Appends the notes that need no waves, by what is kept of the drawing, kind by kind. `NoMemory`
/// comes if memory runs out.
pub(crate) fn add_drawn(
    notes: &mut Notes,
    alloc: Global,
    c: &Circuit,
    kept: &Kept,
) -> Result<(), NoMemory>
    ensures { OnOk result (Adds notes.old notes.new (drawn_notes c.now kept.now)) }
{
    let cases = case_values(alloc, c, kept.cases.as_slice())?;
    add_names(notes, alloc, c, cases.as_slice())?;
    add_spread(notes, alloc, c, kept.found.as_slice())?;
    add_empty(notes, alloc, kept.fors.as_slice(), kept.found.as_slice())?;
    add_cases(notes, alloc, c.net_count(), cases.as_slice())
}
