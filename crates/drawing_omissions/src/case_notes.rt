//! Cases that stand twice, and bits of their nets that none of them has.

ghost use Rattle.std.specs.Prelude.{◌≡◌, ◌+◌, IfOk, OnOk};
ghost use Rattle.drawing_omissions.specs.Lines.{Adds};
ghost use Rattle.drawing_omissions.specs.Same.{AreWithin};
ghost use Rattle.drawing_omissions.specs.CaseNotes.{case_notes, open_if, same_to, sames};

use crate::notes::Notes;
use crate::{firsts_same, is_open};
use flat_circuit::Case;
use listing::Piece;
use scald_base::NoMemory;
use std::alloc::Global;

/// The number of the case at a place, from 1. `NoMemory` comes if no 64 bits hold it.
fn number_of(place: usize) -> Result<u64, NoMemory>
    ensures { IfOk result (λ number. number ≡ place + 1) }
{
    match (place as u64).checked_add(1) {
        Some(number) => Ok(number),
        None => Err(NoMemory),
    }
}

/// The note on a case, if an earlier one has its entries.
#[tactic(auto, unfolding(crate::specs::CaseNotes::same_line))]
fn add_same_to(notes: &mut Notes, place: usize, first: Option<usize>) -> Result<(), NoMemory>
    ensures { OnOk result (Adds notes.old notes.new (same_to place first)) }
{
    let Some(earlier) = first else {
        return Ok(());
    };
    let number = number_of(place)?;
    let same = number_of(earlier)?;
    notes.add(&[
        Piece::Text(b"NOTE CASES "),
        Piece::Number(number),
        Piece::Text(b" SAME "),
        Piece::Number(same),
    ])
}

/// The same of all cases, by the first that has the entries of each.
fn add_sames(notes: &mut Notes, firsts: &[Option<usize>]) -> Result<(), NoMemory>
    ensures { OnOk result (Adds notes.old notes.new (sames firsts.now)) }
{
    for place in 0..firsts.len() {
        add_same_to(notes, place, firsts[place])?;
    }
    Ok(())
}

/// The note that bits of the cases' nets are in no case, if they are.
#[tactic(auto, unfolding(crate::specs::CaseNotes::open_line))]
fn add_open(notes: &mut Notes, is_open: bool) -> Result<(), NoMemory>
    ensures { OnOk result (Adds notes.old notes.new (open_if is_open)) }
{
    if !is_open {
        return Ok(());
    }
    notes.add(&[Piece::Text(b"NOTE CASES OPEN")])
}

/// Appends the notes on cases with the entries of earlier ones, and the note that bits of their
/// nets are in no case. There are so many nets. `NoMemory` comes if memory runs out.
pub fn add_cases(
    notes: &mut Notes,
    alloc: Global,
    nets: u32,
    cases: &[Case],
) -> Result<(), NoMemory>
    requires { AreWithin nets cases.now }
    ensures { OnOk result (Adds notes.old notes.new (case_notes cases.now)) }
{
    let firsts = firsts_same(alloc, nets, cases)?;
    add_sames(notes, &firsts)?;
    let is_open = is_open(alloc, cases, &firsts)?;
    add_open(notes, is_open)
}
