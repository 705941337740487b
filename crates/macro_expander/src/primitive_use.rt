//! The use of a primitive.

ghost use Rattle.std.specs.Prelude.{◌≡◌, ◌≤◌, length};
ghost use Rattle.drawing_tree.specs.Tree.{use_of};
ghost use Rattle.macro_expander.specs.Fitting.{UseFits};
ghost use Rattle.element_kinds.specs.Kinds.{selects_of};
ghost use Rattle.macro_expander.specs.Library.{IsLibrary, setting_in};
ghost use Rattle.macro_expander.specs.Primitives.{in_pin_order, is_least_first, primitive_use as spec_primitive_use};
ghost use Rattle.macro_expander.specs.Numbered.{DoneAt, state_of, scope_of, ScopeExists, nets_in, names_in};

use crate::connection::{Joined, all_wires};
use crate::expansion::Expansion;
use crate::instance_bits::{Wiring, add_bits, inputs_fit, width_of};
use crate::library::Library;
use crate::list::Row;
use crate::primitive::planned;
use crate::scope::Scope;
use drawing_tree::UseStmt;
use flat_circuit::Kind;
use scald_base::{RefusalKind, Stop};
use std::alloc::Global;

/// Puts input connections in the order of the pins, which have the most significant select first:
/// in version 2 of the language the connections have the least significant first.
fn put_in_pin_order(ins: &mut Row<Joined>, version: u8, kind: Kind)
    requires { selects_of kind ≤ length ins.old }
    ensures { ins.new ≡ in_pin_order (is_least_first version) kind ins.old }
{
    if version == 2 {
        ins.reverse_first(kind.selects());
    }
}

/// Expands the use of a primitive.
pub(crate) fn primitive_use(
    expansion: &mut Expansion,
    alloc: Global,
    library: &Library,
    kind: Kind,
    scope: &Scope,
    statement: &UseStmt,
) -> Result<(), Stop>
    requires library { IsLibrary expansion.old.builder.header library.now }
    requires fits { UseFits expansion.old.builder.header (use_of statement.now) }
    requires exists { ScopeExists (nets_in expansion.old) scope.now }
    ensures { DoneAt expansion.old expansion.new result (spec_primitive_use (setting_in library.now)
        kind (scope_of (names_in expansion.old) scope.now) (use_of statement.now)
        (state_of expansion.old)) }
{
    let plan = planned(alloc, library.ticks, kind, statement, &scope.env)?;
    let mut wires = all_wires(expansion, alloc, scope, statement)?;
    let width = width_of(kind, wires.ins.as_slice(), wires.outs.as_slice());
    if !inputs_fit(kind, width, wires.ins.as_slice()) {
        return Err(Stop::refused(RefusalKind::Width, statement.place));
    }
    put_in_pin_order(&mut wires.ins, library.version, kind);
    let path = scope.labelled(alloc, statement.label.as_slice())?;
    let wiring = Wiring {
        path: path.as_slice(),
        statement,
        kind,
        plan,
        ins: wires.ins.as_slice(),
        outs: wires.outs.as_slice(),
    };
    add_bits(expansion, alloc, &wiring, width)
}
