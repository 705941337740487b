//! Copies of statements with the selects of each use in the order that version 2 has.

ghost use Rattle.std.specs.Prelude.{◌≡◌, ◌≤◌, IfOk, length, map, option_map};
ghost use Rattle.drawing_tree.specs.Tree.{assignment_of, both_of, connection_of, written_fall_of};
ghost use Rattle.drawing_tree.specs.Tree.{use_of, if_of, for_of, macro_of};
ghost use Rattle.drawing_tree.specs.Tree.{statement_of, statements_of};
ghost use Rattle.macro_expander.specs.Primitives.{first_reversed};
ghost use Rattle.format_upgrade.specs.Upgraded.{turned_selects};
ghost use Rattle.format_upgrade.specs.Order.{in_order_ins, in_order_use, in_order_macro};
ghost use Rattle.format_upgrade.specs.Order.{in_order_statement, in_order_statements};

use crate::copy::bytes;
use crate::tree::{Tree, trees};
use drawing_tree::{
    Assigns, Conn, Conns, Expr, ForStmt, IfStmt, MacroDef, MacroDefs, Stmt, Stmts, UseStmt,
};
use element_kinds::{Kind, kind_named};
use scald_base::{Bytes, List, NoMemory};
use std::alloc::Global;

/// The order in which a copy has the selects of MUX4 and MUX8.
#[derive(Clone, Copy)]
pub enum Order {
    /// That of the drawing.
    Kept,
    /// The other: least significant first if it was last.
    Reversed,
}

/// How many of the first of so many connections stand in another order in version 2.
fn turned_selects(kind: Option<Kind>, count: usize) -> usize
    ensures is { result ≡ turned_selects kind count }
    ensures within { result ≤ count }
{
    match kind {
        Some(Kind::Mux4) if count == 6 => 2,
        Some(Kind::Mux8) if count == 11 => 3,
        _ => 0,
    }
}

/// Copies of connections, so many of the first in reverse order.
fn reversed(alloc: Global, items: &[Conn], count: usize) -> Result<Conns, NoMemory>
    requires { count ≤ length items.now }
    ensures { IfOk result (λ copies. map connection_of copies
        ≡ first_reversed count (map connection_of items.now)) }
{
    let mut copies = List::new(alloc);
    let mut place = count;
    while place > 0 {
        place -= 1;
        copies.push(items[place].again(alloc)?)?;
    }
    for item in &items[count..] {
        copies.push(item.again(alloc)?)?;
    }
    Ok(copies)
}

/// Copies of the input connections of a use, in the order that is asked for.
fn ins(alloc: Global, order: Order, used: &UseStmt) -> Result<Conns, NoMemory>
    ensures { IfOk result (λ ins. map connection_of ins
        ≡ in_order_ins order used.now.kind (map connection_of used.now.ins)) }
{
    let items = used.ins.as_slice();
    match order {
        Order::Kept => trees(alloc, items),
        Order::Reversed => {
            let kind = kind_named(used.kind.as_slice());
            reversed(alloc, items, turned_selects(kind, items.len()))
        }
    }
}

/// Copies of what stands before the parameters of a use. Each part of a use is copied by a function
/// of its own, so that none owns more than half of the copies when memory runs out.
#[derive(Drop)]
struct Front {
    label: Bytes,
    kind: Bytes,
    delay: Option<(Expr, Expr)>,
    fall: Option<Box<(Expr, Expr)>>,
}

fn copied_front(alloc: Global, used: &UseStmt) -> Result<Front, NoMemory>
    ensures label { IfOk result (λ f. f.label ≡ used.now.label) }
    ensures kind { IfOk result (λ f. f.kind ≡ used.now.kind) }
    ensures delay { IfOk result (λ f.
        option_map both_of f.delay ≡ option_map both_of used.now.delay) }
    ensures fall { IfOk result (λ f. written_fall_of f.fall ≡ written_fall_of used.now.fall) }
{
    Ok(Front {
        label: bytes(alloc, &used.label)?,
        kind: bytes(alloc, &used.kind)?,
        delay: used.delay.again(alloc)?,
        fall: used.fall.again(alloc)?,
    })
}

/// Copies of the parameters and of the connections of a use.
#[derive(Drop)]
struct Connections {
    params: Assigns,
    ins: Conns,
    outs: Conns,
}

fn copied_connections(alloc: Global, order: Order, used: &UseStmt) -> Result<Connections, NoMemory>
    ensures params { IfOk result (λ x.
        map assignment_of x.params ≡ map assignment_of used.now.params) }
    ensures ins { IfOk result (λ x. map connection_of x.ins
        ≡ in_order_ins order used.now.kind (map connection_of used.now.ins)) }
    ensures outs { IfOk result (λ x. map connection_of x.outs ≡ map connection_of used.now.outs) }
{
    Ok(Connections {
        params: trees(alloc, used.params.as_slice())?,
        ins: ins(alloc, order, used)?,
        outs: trees(alloc, used.outs.as_slice())?,
    })
}

fn use_statement(alloc: Global, order: Order, used: &UseStmt) -> Result<UseStmt, NoMemory>
    ensures { IfOk result (λ copy. use_of copy ≡ in_order_use order (use_of used.now)) }
{
    let front = copied_front(alloc, used)?;
    let connections = copied_connections(alloc, order, used)?;
    let Front {
        label,
        kind,
        delay,
        fall,
    } = front;
    let Connections { params, ins, outs } = connections;
    Ok(UseStmt {
        label,
        kind,
        delay,
        fall,
        params,
        ins,
        outs,
        place: used.place,
    })
}

/// Copies of statements.
#[cycle(statement)]
pub(crate) fn statements(alloc: Global, order: Order, body: &[Stmt]) -> Result<Stmts, NoMemory>
    ensures { IfOk result (λ copies. statements_of copies.items
        ≡ in_order_statements order (statements_of body.now)) }
{
    let mut copies = Vec::with_capacity(alloc, body.len())?;
    'body: for one in body {
        copies.push(statement(alloc, order, one)?)?;
    }
    Ok(copies)
}

#[cycle(statement)]
fn statement(alloc: Global, order: Order, one: &Stmt) -> Result<Stmt, NoMemory>
    ensures { IfOk result (λ copy. statement_of copy
        ≡ in_order_statement order (statement_of one.now)) }
{
    match one {
        Stmt::Use(used) => Ok(Stmt::Use(use_statement(alloc, order, used)?)),
        Stmt::Wire(wire) => Ok(Stmt::Wire(wire.again(alloc)?)),
        Stmt::If(choice) => Ok(Stmt::If(if_statement(alloc, order, choice)?)),
        Stmt::For(repeated) => Ok(Stmt::For(for_statement(alloc, order, repeated)?)),
    }
}

#[cycle(statement)]
fn if_statement(alloc: Global, order: Order, choice: &IfStmt) -> Result<IfStmt, NoMemory>
    ensures { IfOk result (λ copy. if_of copy ≡ in_order_statement order (if_of choice.now)) }
{
    let yes = statements(alloc, order, choice.yes.as_slice())?;
    let no = match &choice.no {
        Some(body) => Some(statements(alloc, order, body.as_slice())?),
        None => None,
    };
    Ok(IfStmt {
        test: choice.test.again(alloc)?,
        yes,
        no,
        place: choice.place,
    })
}

#[cycle(statement)]
fn for_statement(alloc: Global, order: Order, repeated: &ForStmt) -> Result<ForStmt, NoMemory>
    ensures { IfOk result (λ copy. for_of copy ≡ in_order_statement order (for_of repeated.now)) }
{
    let body = statements(alloc, order, repeated.body.as_slice())?;
    Ok(ForStmt {
        var: bytes(alloc, &repeated.var)?,
        first: repeated.first.again(alloc)?,
        last: repeated.last.again(alloc)?,
        body,
        place: repeated.place,
    })
}

fn macro_definition(
    alloc: Global,
    order: Order,
    definition: &MacroDef,
) -> Result<MacroDef, NoMemory>
    ensures { IfOk result (λ copy. macro_of copy ≡ in_order_macro order (macro_of definition.now)) }
{
    Ok(MacroDef {
        name: bytes(alloc, &definition.name)?,
        params: trees(alloc, definition.params.as_slice())?,
        ins: trees(alloc, definition.ins.as_slice())?,
        outs: trees(alloc, definition.outs.as_slice())?,
        body: statements(alloc, order, definition.body.as_slice())?,
        place: definition.place,
    })
}

/// Copies of macros.
pub(crate) fn macros(
    alloc: Global,
    order: Order,
    definitions: &[MacroDef],
) -> Result<MacroDefs, NoMemory>
    ensures { IfOk result (λ copies. map macro_of copies
        ≡ map (in_order_macro order) (map macro_of definitions.now)) }
{
    let mut copies = List::new(alloc);
    for definition in definitions {
        copies.push(macro_definition(alloc, order, definition)?)?;
    }
    Ok(copies)
}
