//! The bits of terms and connections.

ghost use Rattle.std.specs.Prelude.{◌≡◌, ◌∷◌, [], ◌++◌, map, IfOk, OnOk, true, false};
ghost use Rattle.vector_names.specs.declared.bits.Target.TheVariants.{Constant};
ghost use Rattle.drawing_tree.specs.Tree.{item_of, term_of, connection_of, use_of};
ghost use Rattle.macro_expander.specs.Fitting.{ItemFits, TermFits, ConnectionFits, UseFits};
ghost use Rattle.std.specs.List.{All};
ghost use Rattle.macro_expander.specs.Terms.{item_bits as spec_item_bits, term_bits as spec_term_bits, terms_bits as spec_terms_bits, joined as spec_joined, all_joined as spec_all_joined, wires_of};
ghost use Rattle.macro_expander.specs.Numbered.{BitsAt, FrontAt, kept_with, JoinedAt, AllJoinedAt, WiresAt, turned_ref, state_of, scope_of, ScopeExists, nets_in, names_in};

use crate::expansion::Expansion;
use crate::list::Row;
use crate::range::{at, written_ends};
use crate::scope::Scope;
use crate::term::named_bits;
use drawing_tree::{Conn, Item, Term, UseStmt};
use scald_base::{List, NoMemory, Place, RefusalKind, Stop};
use std::alloc::Global;
use vector_names::{BitRef, Bits, Target, complement};

/// The bits of a connection, and whether it is marked.
#[derive(Drop, Debug)]
pub struct Joined {
    pub(crate) bits: Bits,
    pub(crate) hold: bool,
}

/// The connections of a use.
#[derive(Drop, Debug)]
pub struct Wires {
    pub(crate) ins: Row<Joined>,
    pub(crate) outs: Row<Joined>,
}

/// The most bits of a connection.
const WIDEST: usize = 256;

fn constant(alloc: Global, one: bool) -> Result<Bits, NoMemory>
    ensures { IfOk result (λ bits. bits ≡ record { target = Constant one; inverted = false } ∷ []) }
{
    let mut bits = List::new(alloc);
    bits.push(BitRef {
        target: Target::Constant(one),
        inverted: false,
    })?;
    Ok(bits)
}

fn item_bits(
    expansion: &mut Expansion,
    alloc: Global,
    scope: &Scope,
    item: &Item,
    place: Place,
) -> Result<Bits, Stop>
    requires fits { ItemFits expansion.old.builder.header (item_of item.now) }
    requires exists { ScopeExists (nets_in expansion.old) scope.now }
    ensures { BitsAt expansion.old expansion.new result
        (spec_item_bits (scope_of (names_in expansion.old) scope.now)
        (item_of item.now) place (state_of expansion.old)) }
{
    match item {
        Item::Zero => Ok(constant(alloc, false)?),
        Item::One => Ok(constant(alloc, true)?),
        Item::Named(name, range) => {
            let ends = at(place, written_ends(range, &scope.env))?;
            named_bits(expansion, alloc, scope, name, ends, place)
        }
    }
}

fn turned(bits: Bits, minus: bool) -> Bits
    ensures { result ≡ map (turned_ref minus) bits }
{
    let mut bits = bits;
    if minus {
        complement(&mut bits);
    }
    bits
}

#[tactic(auto, unfolding(crate::specs::Terms::term_bits))]
fn term_bits(
    expansion: &mut Expansion,
    alloc: Global,
    scope: &Scope,
    term: &Term,
    place: Place,
) -> Result<Bits, Stop>
    requires fits { TermFits expansion.old.builder.header (term_of term.now) }
    requires exists { ScopeExists (nets_in expansion.old) scope.now }
    ensures { BitsAt expansion.old expansion.new result
        (spec_term_bits (scope_of (names_in expansion.old) scope.now)
        place (term_of term.now) (state_of expansion.old)) }
{
    let bits = item_bits(expansion, alloc, scope, &term.item, place)?;
    Ok(turned(bits, term.minus))
}

/// Puts bits after those of the terms before, unless these are already more than a connection may
/// have.
fn keep(bits: &mut Bits, more: &[BitRef]) -> Result<(), NoMemory>
    ensures { OnOk result (bits.new ≡ kept_with bits.old more.now) }
{
    if bits.len() > WIDEST {
        return Ok(());
    }
    for bit in more {
        bits.push(*bit)?;
    }
    Ok(())
}

/// The bits of terms, from left to right. One term, as most connections have, needs no list of its
/// own. If they are too many for a connection no more are kept than show it, and the terms that
/// are left are asked for their refusals alone.
fn terms_bits(
    expansion: &mut Expansion,
    alloc: Global,
    scope: &Scope,
    terms: &[Term],
    place: Place,
) -> Result<Bits, Stop>
    requires fits { All (TermFits expansion.old.builder.header) (map term_of terms.now) }
    requires exists { ScopeExists (nets_in expansion.old) scope.now }
    ensures { FrontAt expansion.old expansion.new result
        (spec_terms_bits (scope_of (names_in expansion.old) scope.now)
        place (map term_of terms.now) (state_of expansion.old)) }
{
    if let [only] = terms {
        let bits = term_bits(expansion, alloc, scope, only, place)?;
        return Ok(bits);
    }
    let mut bits = List::new(alloc);
    for term in terms {
        let more = term_bits(expansion, alloc, scope, term, place)?;
        keep(&mut bits, more.as_slice())?;
    }
    Ok(bits)
}

#[tactic(auto, unfolding(crate::specs::Terms::joined))]
fn join(
    expansion: &mut Expansion,
    alloc: Global,
    scope: &Scope,
    connection: &Conn,
    place: Place,
) -> Result<Joined, Stop>
    requires fits { ConnectionFits expansion.old.builder.header (connection_of connection.now) }
    requires exists { ScopeExists (nets_in expansion.old) scope.now }
    ensures { JoinedAt expansion.old expansion.new result
        (spec_joined (scope_of (names_in expansion.old) scope.now)
        place (connection_of connection.now) (state_of expansion.old)) }
{
    let bits = terms_bits(expansion, alloc, scope, connection.terms.as_slice(), place)?;
    if bits.len() == 0 || bits.len() > WIDEST {
        return Err(Stop::refused(RefusalKind::Width, place));
    }
    Ok(Joined {
        bits,
        hold: connection.hold,
    })
}

/// The bits of connections, from left to right.
fn all_joined(
    expansion: &mut Expansion,
    alloc: Global,
    scope: &Scope,
    connections: &[Conn],
    place: Place,
) -> Result<Row<Joined>, Stop>
    requires fits { All (ConnectionFits expansion.old.builder.header)
        (map connection_of connections.now) }
    requires exists { ScopeExists (nets_in expansion.old) scope.now }
    ensures { AllJoinedAt expansion.old expansion.new result
        (spec_all_joined (scope_of (names_in expansion.old) scope.now)
        place (map connection_of connections.now) (state_of expansion.old)) }
{
    let mut all = Row::with_room(alloc, connections.len())?;
    for connection in connections {
        all.push(join(expansion, alloc, scope, connection, place)?)?;
    }
    Ok(all)
}

/// The connections of a use, from left to right.
#[tactic(auto, unfolding(crate::specs::Terms::wires_of))]
pub(crate) fn all_wires(
    expansion: &mut Expansion,
    alloc: Global,
    scope: &Scope,
    statement: &UseStmt,
) -> Result<Wires, Stop>
    requires fits { UseFits expansion.old.builder.header (use_of statement.now) }
    requires exists { ScopeExists (nets_in expansion.old) scope.now }
    ensures { WiresAt expansion.old expansion.new result
        (wires_of (scope_of (names_in expansion.old) scope.now) (use_of statement.now)
        (state_of expansion.old)) }
{
    let place = statement.place;
    let ins = all_joined(expansion, alloc, scope, statement.ins.as_slice(), place)?;
    let outs = all_joined(expansion, alloc, scope, statement.outs.as_slice(), place)?;
    Ok(Wires { ins, outs })
}
