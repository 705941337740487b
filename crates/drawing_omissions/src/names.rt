//! The notes on nets that nothing determines.

ghost use Rattle.std.specs.Prelude.{◌≡◌, OnOk, length};
ghost use Rattle.drawing_omissions.specs.Same.{AreWithin};
ghost use Rattle.drawing_omissions.specs.Lines.{Adds};
ghost use Rattle.drawing_omissions.specs.Names.{name_notes};

use crate::loose::{loose_nets, set_nets};
use crate::near::add_near;
use crate::notes::Notes;
use crate::part::add_part;
use flat_circuit::{Case, Circuit};
use scald_base::NoMemory;
use std::alloc::Global;

/// Appends the notes on nets that nothing determines, by the cases: those on bits of signals that
/// are driven at other bits, and then those on names that are one slip apart from others.
/// `NoMemory` comes if memory runs out.
pub fn add_names(
    notes: &mut Notes,
    alloc: Global,
    c: &Circuit,
    cases: &[Case],
) -> Result<(), NoMemory>
    requires { AreWithin (length c.now.nets) cases.now }
    ensures { OnOk result (Adds notes.old notes.new (name_notes c.now cases.now)) }
{
    let set = set_nets(alloc, c, cases)?;
    let loose = loose_nets(alloc, c, &set)?;
    add_part(notes, alloc, c, &loose)?;
    add_near(notes, alloc, c, &set, &loose)
}
