//! Where the name of a net stands with what it asserts.

ghost use Rattle.std.specs.Prelude.{◌≡◌, IfOk, map, option_map};
ghost use Rattle.drawing_tree.specs.Tree.{connection_of, drawing_of, macro_of, statement_of, statements_of};
ghost use Rattle.drawing_places.specs.Body.{trees};
ghost use Rattle.drawing_places.specs.Find.{first_found};
ghost use Rattle.drawing_places.specs.Names.{is_sought, sought_by, sought_seen, spot_anywhere as anywhere, spot_at as spot_where, spot_in_body as in_body, spot_in_connection as in_connection, spot_in_connections as in_connections, spot_in_statement as in_statement, spot_of as spot_with, spot_seen};

use crate::body::written;
use crate::path::{is_global_text, scope_len};
use crate::uses::scope_of;
use assertion_syntax::SignalName;
use drawing_tree::{Conn, Drawing, Item, Stmt};
use flat_circuit::is_same_assertion;
use scald_base::{AssertSpec, NoMemory, Place, same_bytes};
use std::alloc::Global;

/// A name, and the place of the connection or of the WIRE in which it stands.
#[derive(Clone, Copy)]
pub struct Spot<'a> {
    pub name: &'a SignalName,
    pub place: Place,
}

/// What a name is looked for by: its base, whether it is global, and its assertion.
#[derive(Clone, Copy)]
struct Wanted<'a> {
    base: &'a [u8],
    global: bool,
    spec: &'a AssertSpec,
}

/// What the net with this text and assertion is looked for by.
fn wanted_for<'a>(text: &'a [u8], spec: &'a AssertSpec) -> Wanted<'a>
    ensures { sought_seen result ≡ sought_by text.now spec.now }
{
    let (_, base) = text.split_at(scope_len(text));
    Wanted {
        base,
        global: is_global_text(text),
        spec,
    }
}

/// Whether this is the name.
fn is_wanted(name: &SignalName, wanted: Wanted) -> bool
    ensures { result ≡ is_sought (sought_seen wanted.entry) name.now }
{
    if !same_bytes(name.base.as_slice(), wanted.base) || name.global != wanted.global {
        return false;
    }
    is_same_assertion(&name.spec, wanted.spec)
}

/// A place, if the name is the one that is looked for.
fn spot_at<'a>(name: &'a SignalName, place: Place, wanted: Wanted) -> Option<Spot<'a>>
    ensures { option_map spot_seen result ≡ spot_where (sought_seen wanted.entry) place name.now }
{
    if is_wanted(name, wanted) {
        Some(Spot { name, place })
    } else {
        None
    }
}

/// The first place in a connection.
fn spot_in_connection<'a>(connection: &'a Conn, wanted: Wanted) -> Option<Spot<'a>>
    ensures { option_map spot_seen result
        ≡ in_connection (sought_seen wanted.entry) (connection_of connection.now) }
{
    for term in connection.terms.as_slice() {
        if let Item::Named(name, _) = &term.item {
            let found = spot_at(name, connection.place, wanted);
            if found.is_some() {
                return found;
            }
        }
    }
    None
}

/// The first place in connections.
fn spot_in_connections<'a>(connections: &'a [Conn], wanted: Wanted) -> Option<Spot<'a>>
    ensures { option_map spot_seen result
        ≡ in_connections (sought_seen wanted.entry) (map connection_of connections.now) }
{
    for connection in connections {
        let found = spot_in_connection(connection, wanted);
        if found.is_some() {
            return found;
        }
    }
    None
}

/// The first place in a use or a WIRE.
fn spot_in_statement<'a>(statement: &'a Stmt, wanted: Wanted) -> Option<Spot<'a>>
    ensures { option_map spot_seen result
        ≡ in_statement (sought_seen wanted.entry) (statement_of statement.now) }
{
    match statement {
        Stmt::Use(found) => match spot_in_connections(found.ins.as_slice(), wanted) {
            Some(spot) => Some(spot),
            None => spot_in_connections(found.outs.as_slice(), wanted),
        },
        Stmt::Wire(wire) => spot_at(&wire.name, wire.place, wanted),
        _ => None,
    }
}

/// The first place among statements.
fn spot_in<'a>(statements: &[&'a Stmt], wanted: Wanted) -> Option<Spot<'a>>
    ensures { option_map spot_seen result
        ≡ first_found (in_statement (sought_seen wanted.entry)) (trees statements.now) }
{
    for statement in statements {
        let found = spot_in_statement(*statement, wanted);
        if found.is_some() {
            return found;
        }
    }
    None
}

/// The first place in a body.
fn spot_in_body<'a>(
    alloc: Global,
    body: &'a [Stmt],
    wanted: Wanted,
) -> Result<Option<Spot<'a>>, NoMemory>
    ensures { IfOk result (λ found. option_map spot_seen found
        ≡ in_body (sought_seen wanted.entry) (statements_of body.now)) }
{
    Ok(spot_in(written(alloc, body)?.as_slice(), wanted))
}

/// The first place in all of a drawing, its macros first.
fn spot_anywhere<'a>(
    alloc: Global,
    drawing: &'a Drawing,
    wanted: Wanted,
) -> Result<Option<Spot<'a>>, NoMemory>
    ensures { IfOk result (λ found. option_map spot_seen found
        ≡ anywhere (sought_seen wanted.entry) (drawing_of drawing.now)) }
{
    for definition in drawing.macros.as_slice() {
        let found = spot_in_body(alloc, definition.body.as_slice(), wanted)?;
        if found.is_some() {
            return Ok(found);
        }
    }
    spot_in_body(alloc, drawing.body.as_slice(), wanted)
}

/// Where the name of a net, with the text of its scope and its base, stands with this assertion:
/// the first place in its scope, or of a global in the drawing.
pub fn spot_of<'a>(
    alloc: Global,
    drawing: &'a Drawing,
    text: &[u8],
    spec: &AssertSpec,
) -> Result<Option<Spot<'a>>, NoMemory>
    ensures { IfOk result (λ found.
        option_map spot_seen found ≡ spot_with (drawing_of drawing.now) text.now spec.now) }
{
    let wanted = wanted_for(text, spec);
    if is_global_text(text) {
        return spot_anywhere(alloc, drawing, wanted);
    }
    let scope = scope_of(alloc, drawing, &text[..scope_len(text)])?;
    spot_in_body(alloc, scope.body, wanted)
}
