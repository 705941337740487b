//! What is found while a drawing is expanded, and the names that one use spreads.

ghost use Rattle.std.specs.Prelude.{◌≡◌, ◌++◌, IfOk, OnOk, map};
ghost use Rattle.std.specs.Option.{option_copied};
ghost use Rattle.std.specs.List.{flat_map, zip};
ghost use Rattle.drawing_tree.specs.Tree.{connection_of, term_of, use_of};
ghost use Rattle.macro_expander.specs.Terms.{net_text};
ghost use Rattle.drawing_omissions.specs.Spreads.{in_formal, in_primitive as spec_in_primitive, lone_name as spec_lone_name, spread_over};
ghost use Rattle.drawing_omissions.specs.Walk.{seen};

use crate::width::{greatest_width, meant_formal};
use assertion_syntax::SignalName;
use drawing_tree::{Conn, Item, Term, UseStmt};
use element_kinds::Kind;
use macro_expander::formal::Shape;
use macro_expander::scope::Scope;
use scald_base::{Bytes, List, NoMemory, Place};
use std::alloc::Global;

/// A name that is spread.
#[derive(Drop)]
pub struct Spread {
    /// Where its connection stands.
    pub place: Place,
    /// The name of its net, path and base, without the bit.
    pub name: Bytes,
    /// Over how many bits.
    pub width: usize,
}

/// A FOR that is reached.
#[derive(Clone, Copy)]
pub struct Reached {
    /// Where it stands.
    pub place: Place,
    /// Whether its variable takes a value there.
    pub has_turn: bool,
}

/// What is found while a drawing is expanded.
#[derive(Drop)]
pub enum Finding {
    Spread(Spread),
    Loop(Reached),
}

/// What is found, in the order of expansion.
pub type Findings = List<Finding>;

/// The name of a connection that is a name alone, without a range and on no formal.
fn lone_name<'a>(scope: &Scope, terms: &'a [Term]) -> Option<&'a SignalName>
    ensures { option_copied result ≡ spec_lone_name (seen scope.now) (map term_of terms.now) }
{
    let [term] = terms else {
        return None;
    };
    match &term.item {
        Item::Named(name, None) if meant_formal(scope, name).is_none() => Some(name),
        _ => None,
    }
}

/// The name of a net, path and base.
fn net_name(alloc: Global, scope: &Scope, name: &SignalName) -> Result<Bytes, NoMemory>
    ensures { IfOk result (λ text. text ≡ net_text scope.now.path name.now) }
{
    let mut text = if name.global {
        Bytes::of(alloc, b"/".as_slice())?
    } else {
        Bytes::of(alloc, scope.path.as_slice())?
    };
    text.extend(name.base.as_slice())?;
    Ok(text)
}

/// Appends the name of a connection that is spread over so many bits, if it is one.
fn add_spread(
    found: &mut Findings,
    alloc: Global,
    scope: &Scope,
    width: usize,
    connection: &Conn,
) -> Result<(), NoMemory>
    ensures { OnOk result (found.new
        ≡ found.old ++ spread_over (seen scope.now) width (connection_of connection.now)) }
{
    if width <= 1 {
        return Ok(());
    }
    if let Some(name) = lone_name(scope, connection.terms.as_slice()) {
        found.push(Finding::Spread(Spread {
            place: connection.place,
            name: net_name(alloc, scope, name)?,
            width,
        }))?;
    }
    Ok(())
}

/// Appends the names that a use of a primitive spreads.
pub(crate) fn in_primitive(
    found: &mut Findings,
    alloc: Global,
    scope: &Scope,
    kind: Kind,
    used: &UseStmt,
) -> Result<(), NoMemory>
    ensures { OnOk result (found.new
        ≡ found.old ++ spec_in_primitive kind (seen scope.now) (use_of used.now)) }
{
    if kind.is_change() {
        return Ok(());
    }
    let connections = if kind.has_output() {
        &used.outs
    } else {
        &used.ins
    };
    let width = greatest_width(alloc, scope, connections.as_slice())?;
    for connection in used.ins.as_slice() {
        add_spread(found, alloc, scope, width, connection)?;
    }
    Ok(())
}

/// Appends the names that the inputs of a use of a macro spread over their formals.
pub(crate) fn in_formals(
    found: &mut Findings,
    alloc: Global,
    scope: &Scope,
    shapes: &[Shape],
    ins: &[Conn],
) -> Result<(), NoMemory>
    ensures { OnOk result (found.new ≡ found.old
        ++ flat_map (in_formal (seen scope.now)) (zip shapes.now (map connection_of ins.now))) }
{
    for (shape, connection) in shapes.iter().zip(ins) {
        add_spread(found, alloc, scope, shape.numbers.len(), connection)?;
    }
    Ok(())
}
