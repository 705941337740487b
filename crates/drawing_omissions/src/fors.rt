//! FORs that have no turn.

ghost use Rattle.std.specs.Prelude.{◌≡◌, ◌++◌, ◌&&◌, ◌||◌, List, IfOk, OnOk, map};
ghost use Rattle.std.specs.List.{flat_map};
ghost use Rattle.scald_base.specs.declared.refusal.Place.{Place};
ghost use Rattle.drawing_tree.specs.Tree.{drawing_of, for_of, if_of, macro_of, statement_of, statements_of};
ghost use Rattle.drawing_omissions.specs.declared.spread.Finding.{Finding};
ghost use Rattle.drawing_omissions.specs.Lines.{Adds};
ghost use Rattle.drawing_omissions.specs.Fors.{AreWhere, empty, empty_at, fors as spec_fors, fors_in, fors_in_all, fors_in_macro, is_among, is_empty as spec_is_empty, is_reached, is_turned, same_place, spot_of};

use crate::notes::Notes;
use crate::spread::Finding;
use drawing_tree::{Drawing, ForStmt, IfStmt, MacroDef, Places, Stmt};
use indexmap::IndexSet;
use listing::Piece;
use scald_base::{NoMemory, Place};
use std::alloc::Global;

/// Appends the places of the FORs among statements.
#[cycle(fors)]
fn add_all(found: &mut Places, statements: &[Stmt]) -> Result<(), NoMemory>
    ensures { OnOk result (found.new
        ≡ found.old ++ fors_in_all (statements_of statements.now)) }
{
    for statement in statements {
        add_statement(found, statement)?;
    }
    Ok(())
}

#[cycle(fors)]
fn add_statement(found: &mut Places, statement: &Stmt) -> Result<(), NoMemory>
    ensures { OnOk result (found.new ≡ found.old ++ fors_in (statement_of statement.now)) }
{
    match statement {
        Stmt::Use(_) => Ok(()),
        Stmt::Wire(_) => Ok(()),
        Stmt::If(choice) => add_if(found, choice),
        Stmt::For(repeated) => add_for(found, repeated),
    }
}

#[cycle(fors)]
fn add_if(found: &mut Places, choice: &IfStmt) -> Result<(), NoMemory>
    ensures { OnOk result (found.new ≡ found.old ++ fors_in (if_of choice.now)) }
{
    add_all(found, choice.yes.as_slice())?;
    match &choice.no {
        Some(other) => add_all(found, other.as_slice()),
        None => Ok(()),
    }
}

#[cycle(fors)]
fn add_for(found: &mut Places, repeated: &ForStmt) -> Result<(), NoMemory>
    ensures { OnOk result (found.new ≡ found.old ++ fors_in (for_of repeated.now)) }
{
    found.push(repeated.place)?;
    add_all(found, repeated.body.as_slice())
}

/// Appends the places of the FORs in macros.
fn add_macros(found: &mut Places, macros: &[MacroDef]) -> Result<(), NoMemory>
    ensures { OnOk result (found.new
        ≡ found.old ++ flat_map fors_in_macro (map macro_of macros.now)) }
{
    for definition in macros {
        add_all(found, definition.body.as_slice())?;
    }
    Ok(())
}

/// The places of all FORs of a drawing, in the order of its text. `NoMemory` comes if memory
/// runs out.
pub fn for_places(alloc: Global, drawing: &Drawing) -> Result<Places, NoMemory>
    ensures { IfOk result (λ places. places ≡ spec_fors (drawing_of drawing.now)) }
{
    let mut found = Places::new(alloc);
    add_macros(&mut found, drawing.macros.as_slice())?;
    add_all(&mut found, drawing.body.as_slice())?;
    Ok(found)
}

/// A place, as a key.
#[derive(Clone, Copy, PartialEq, Eq, Hash)]
struct Spot {
    line: u32,
    col: u32,
}

/// The key of a place.
fn key_of(place: Place) -> Spot
    ensures { result ≡ spot_of place }
{
    Spot {
        line: place.line,
        col: place.col,
    }
}

/// Adds a place, if it counts.
fn add_where(spots: &mut IndexSet<Spot>, counts: bool, place: Place) -> Result<(), NoMemory>
    ensures { OnOk result ((other : Place) → is_among spots.new.keys other
        ≡ (is_among spots.old.keys other || (counts && same_place other place))) }
{
    if counts {
        spots.insert(key_of(place))?;
    }
    Ok(())
}

/// Adds the place of a FOR that is reached.
fn add_reached(spots: &mut IndexSet<Spot>, finding: &Finding) -> Result<(), NoMemory>
    ensures { OnOk result ((place : Place) → is_among spots.new.keys place
        ≡ (is_among spots.old.keys place || is_reached place finding.now)) }
{
    match finding {
        Finding::Spread(_) => Ok(()),
        Finding::Loop(reached) => add_where(spots, true, reached.place),
    }
}

/// The places of the FORs that are reached.
fn reached(alloc: Global, found: &[Finding]) -> Result<IndexSet<Spot>, NoMemory>
    ensures { IfOk result (λ spots. AreWhere is_reached found.now spots.keys) }
{
    let mut spots = IndexSet::new(alloc);
    for finding in found {
        add_reached(&mut spots, finding)?;
    }
    Ok(spots)
}

/// Adds the place of a FOR that has a turn.
fn add_turned(spots: &mut IndexSet<Spot>, finding: &Finding) -> Result<(), NoMemory>
    ensures { OnOk result ((place : Place) → is_among spots.new.keys place
        ≡ (is_among spots.old.keys place || is_turned place finding.now)) }
{
    match finding {
        Finding::Spread(_) => Ok(()),
        Finding::Loop(reached) => add_where(spots, reached.has_turn, reached.place),
    }
}

/// The places of the FORs that have a turn somewhere.
fn turned(alloc: Global, found: &[Finding]) -> Result<IndexSet<Spot>, NoMemory>
    ensures { IfOk result (λ spots. AreWhere is_turned found.now spots.keys) }
{
    let mut spots = IndexSet::new(alloc);
    for finding in found {
        add_turned(&mut spots, finding)?;
    }
    Ok(spots)
}

/// Whether a FOR is reached and has no turn.
fn is_empty(reached: &IndexSet<Spot>, turned: &IndexSet<Spot>, place: Place) -> bool
    ensures { (found : List Finding) → AreWhere is_reached found reached.now.keys →
        AreWhere is_turned found turned.now.keys → result ≡ spec_is_empty found place }
{
    let key = key_of(place);
    let is_reached = reached.contains(&key);
    let is_turned = turned.contains(&key);
    is_reached && !is_turned
}

/// The note on a FOR, if it is reached and has no turn.
#[tactic(auto, unfolding(crate::specs::Fors::empty_line))]
fn add_empty_at(
    notes: &mut Notes,
    reached: &IndexSet<Spot>,
    turned: &IndexSet<Spot>,
    place: Place,
) -> Result<(), NoMemory>
    ensures { OnOk result ((found : List Finding) → AreWhere is_reached found reached.now.keys →
        AreWhere is_turned found turned.now.keys →
        Adds notes.old notes.new (empty_at found place)) }
{
    if !is_empty(reached, turned, place) {
        return Ok(());
    }
    notes.add(&[
        Piece::Text(b"NOTE EMPTY "),
        Piece::Number(u64::from(place.line)),
        Piece::Text(b":"),
        Piece::Number(u64::from(place.col)),
    ])
}

/// Appends the notes on those of a text's FORs that are reached and in no expansion have a turn.
/// `NoMemory` comes if memory runs out.
pub fn add_empty(
    notes: &mut Notes,
    alloc: Global,
    places: &[Place],
    found: &[Finding],
) -> Result<(), NoMemory>
    ensures { OnOk result (Adds notes.old notes.new (empty places.now found.now)) }
{
    if places.is_empty() {
        return Ok(());
    }
    let reached = reached(alloc, found)?;
    let turned = turned(alloc, found)?;
    for place in places {
        add_empty_at(notes, &reached, &turned, *place)?;
    }
    Ok(())
}
