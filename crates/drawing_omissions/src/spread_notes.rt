//! Names without a range that are spread.

ghost use Rattle.std.specs.Prelude.{◌≡◌, ◌∷◌, ◌||◌, [], ℕ, List, IfOk, OnOk, slice_get};
ghost use Rattle.drawing_omissions.specs.Spread.{AreNames, is_among, is_other_of, spread, spread_at, spread_on, spread_line};
ghost use Rattle.drawing_omissions.specs.Lines.{Adds};

use crate::{Finding, Notes, Spread};
use flat_circuit::Circuit;
use indexmap::IndexSet;
use listing::Piece;
use scald_base::NoMemory;
use std::alloc::Global;

/// Adds the name of a net to those of which there are other bits than bit 0, if it is one.
fn add_name(
    names: &mut IndexSet<Vec<u8>>,
    alloc: Global,
    c: &Circuit,
    number: u32,
) -> Result<(), NoMemory>
    ensures { OnOk result ((name : List ℕ) → is_among names.new.keys name
        ≡ (is_among names.old.keys name || is_other_of (slice_get c.now.nets number) name)) }
{
    let Some(net) = c.net(number) else {
        return Ok(());
    };
    if net.bit == 0 {
        return Ok(());
    }
    names.insert(Vec::from_slice(alloc, net.name.as_slice())?)?;
    Ok(())
}

/// The names of which there are other bits than bit 0.
fn with_other_bits(alloc: Global, c: &Circuit) -> Result<IndexSet<Vec<u8>>, NoMemory>
    ensures { IfOk result (λ names. AreNames c.now.nets names.keys) }
{
    let mut names = IndexSet::new(alloc);
    for number in 0..c.net_count() {
        add_name(&mut names, alloc, c, number)?;
    }
    Ok(names)
}

/// The note on a name that is spread.
#[tactic(auto, unfolding(crate::specs::Spread::spread_line))]
fn add_note(notes: &mut Notes, spread: &Spread) -> Result<(), NoMemory>
    ensures { OnOk result (Adds notes.old notes.new (spread_line spread.now ∷ [])) }
{
    notes.add(&[
        Piece::Text(b"NOTE SPREAD "),
        Piece::Number(u64::from(spread.place.line)),
        Piece::Text(b":"),
        Piece::Number(u64::from(spread.place.col)),
        Piece::Text(b" "),
        Piece::Text(spread.name.as_slice()),
        Piece::Text(b" WIDTH "),
        Piece::Number(spread.width as u64),
    ])
}

/// The same, if there are other bits of the name.
fn add_spread_on(
    notes: &mut Notes,
    c: &Circuit,
    names: &IndexSet<Vec<u8>>,
    spread: &Spread,
) -> Result<(), NoMemory>
    requires { AreNames c.now.nets names.now.keys }
    ensures { OnOk result (Adds notes.old notes.new (spread_on c.now spread.now)) }
{
    if !names.contains(spread.name.as_slice()) {
        return Ok(());
    }
    add_note(notes, spread)
}

/// The same of what is found, if it is such a name.
fn add_spread_at(
    notes: &mut Notes,
    c: &Circuit,
    names: &IndexSet<Vec<u8>>,
    finding: &Finding,
) -> Result<(), NoMemory>
    requires { AreNames c.now.nets names.now.keys }
    ensures { OnOk result (Adds notes.old notes.new (spread_at c.now finding.now)) }
{
    match finding {
        Finding::Spread(spread) => add_spread_on(notes, c, names, spread),
        Finding::Loop(_) => Ok(()),
    }
}

/// Appends the notes on names that are spread while there are other bits of them, in the order of
/// expansion. `NoMemory` comes if memory runs out.
pub fn add_spread(
    notes: &mut Notes,
    alloc: Global,
    c: &Circuit,
    found: &[Finding],
) -> Result<(), NoMemory>
    ensures { OnOk result (Adds notes.old notes.new (spread c.now found.now)) }
{
    if found.is_empty() {
        return Ok(());
    }
    let names = with_other_bits(alloc, c)?;
    for finding in found {
        add_spread_at(notes, c, &names, finding)?;
    }
    Ok(())
}
