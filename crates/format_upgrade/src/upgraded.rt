//! The text of a drawing in the last version of the language.

ghost use Rattle.std.specs.Prelude.{◌≡◌, IfOk};
ghost use Rattle.drawing_tree.specs.Tree.{drawing_of};
ghost use Rattle.format_upgrade.specs.Order.{in_order_drawing};
ghost use Rattle.format_upgrade.specs.Upgrade.{KeepsCircuit};
ghost use Rattle.format_upgrade.specs.Upgraded.{upgraded, upgraded_text};

use crate::copy::{bytes, copies};
use crate::tree::trees;
use crate::turned::{Order, macros, statements};
use drawing_tree::{Drawing, print_drawing};
use scald_base::{Bytes, NoMemory};
use std::alloc::Global;

/// A copy of a drawing as one of this version, with the selects of its uses in this order.
fn copied(alloc: Global, drawing: &Drawing, version: u8, order: Order) -> Result<Drawing, NoMemory>
    ensures { IfOk result (λ copy.
        drawing_of copy ≡ in_order_drawing version order (drawing_of drawing.now)) }
{
    Ok(Drawing {
        version,
        header: drawing.header,
        consts: trees(alloc, drawing.consts.as_slice())?,
        const_places: copies(alloc, drawing.const_places.as_slice())?,
        macros: macros(alloc, order, drawing.macros.as_slice())?,
        name: bytes(alloc, &drawing.name)?,
        body: statements(alloc, order, drawing.body.as_slice())?,
        cases: copies(alloc, drawing.cases.as_slice())?,
    })
}

/// A copy of a drawing: the same tree in memory of its own.
pub fn copy_drawing(alloc: Global, drawing: &Drawing) -> Result<Drawing, NoMemory>
    ensures { IfOk result (λ copy. drawing_of copy ≡ drawing_of drawing.now) }
{
    copied(alloc, drawing, drawing.version, Order::Kept)
}

/// A copy of a drawing in version 2.
fn in_last_version(alloc: Global, drawing: &Drawing) -> Result<Drawing, NoMemory>
    ensures { IfOk result (λ copy. drawing_of copy ≡ upgraded (drawing_of drawing.now)) }
{
    let order = if drawing.version == 1 {
        Order::Reversed
    } else {
        Order::Kept
    };
    copied(alloc, drawing, 2, order)
}

/// The canonical text of a drawing in version 2 of the language. If the drawing has version 1,
/// the selects of each MUX4 with 6 and of each MUX8 with 11 input connections stand in reverse
/// order.
///
/// If some text draws the drawing, which nests no deeper than a text may and has a flat circuit,
/// the upgraded text draws a drawing with the same flat circuit and the same cases, places aside.
/// `NoMemory` comes if memory runs out.
pub fn upgrade(alloc: Global, drawing: &Drawing) -> Result<Bytes, NoMemory>
    ensures text { IfOk result (λ text. text ≡ upgraded_text (drawing_of drawing.now)) }
    ensures same { IfOk result (KeepsCircuit (drawing_of drawing.now)) }
{
    let upgraded = in_last_version(alloc, drawing)?;
    print_drawing(alloc, &upgraded)
}
