//! Bits that nothing determines of signals that are driven at other bits.

ghost use Rattle.std.specs.Prelude.{◌≡◌, ◌||◌, ℕ, List, IfOk, OnOk, slice_get};
ghost use Rattle.drawing_omissions.specs.Lines.{Adds};
ghost use Rattle.drawing_omissions.specs.Part.{AreDriven, is_among, is_driven_of, part, part_at};

use crate::loose::name_of;
use crate::notes::Notes;
use flat_circuit::Circuit;
use indexmap::IndexSet;
use listing::{Piece, net_piece};
use scald_base::NoMemory;
use std::alloc::Global;

/// Adds the name of a net to those of driven nets, if it is driven.
fn add_name(
    names: &mut IndexSet<Vec<u8>>,
    alloc: Global,
    c: &Circuit,
    number: u32,
) -> Result<(), NoMemory>
    ensures { OnOk result ((name : List ℕ) → is_among names.new.keys name
        ≡ (is_among names.old.keys name || is_driven_of (slice_get c.now.nets number) name)) }
{
    let Some(net) = c.net(number) else {
        return Ok(());
    };
    if net.driver.is_none() {
        return Ok(());
    }
    names.insert(Vec::from_slice(alloc, net.name.as_slice())?)?;
    Ok(())
}

/// The names of driven nets.
fn driven_names(alloc: Global, c: &Circuit) -> Result<IndexSet<Vec<u8>>, NoMemory>
    ensures { IfOk result (λ names. AreDriven c.now.nets names.keys) }
{
    let mut names = IndexSet::new(alloc);
    for number in 0..c.net_count() {
        add_name(&mut names, alloc, c, number)?;
    }
    Ok(names)
}

/// The note on a loose net, if another bit of its signal is driven.
#[tactic(auto, unfolding(crate::specs::Part::part_line))]
fn add_part_at(
    notes: &mut Notes,
    c: &Circuit,
    names: &IndexSet<Vec<u8>>,
    net: u32,
) -> Result<(), NoMemory>
    requires { AreDriven c.now.nets names.now.keys }
    ensures { OnOk result (Adds notes.old notes.new (part_at c.now net)) }
{
    if !names.contains(name_of(c, net)) {
        return Ok(());
    }
    notes.add(&[Piece::Text(b"NOTE PART "), net_piece(c, net)])
}

/// Appends the notes on bits of signals that are driven at other bits, of nets that nothing
/// determines. `NoMemory` comes if memory runs out.
pub fn add_part(
    notes: &mut Notes,
    alloc: Global,
    c: &Circuit,
    loose: &[u32],
) -> Result<(), NoMemory>
    ensures { OnOk result (Adds notes.old notes.new (part c.now loose.now)) }
{
    if loose.is_empty() {
        return Ok(());
    }
    let names = driven_names(alloc, c)?;
    for net in loose {
        add_part_at(notes, c, &names, *net)?;
    }
    Ok(())
}
