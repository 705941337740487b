//! WIRE statements.

ghost use Rattle.std.specs.Prelude.{map};
ghost use Rattle.std.specs.List.{All};
ghost use Rattle.scald_base.specs.Fitting.{Fits};
ghost use Rattle.flat_circuit.specs.Instances.{TargetExists};
ghost use Rattle.drawing_tree.specs.Tree.{wire_of};
ghost use Rattle.macro_expander.specs.Flat.{with_wire, with_wires, wire_act};
ghost use Rattle.macro_expander.specs.Numbered.{where_of, bit_of, BitExists, Wired, DoneAt, state_of, scope_of, ScopeExists, nets_in, names_in};

use crate::expansion::Expansion;
use crate::primitive::delay_between;
use crate::range::{at, value, written_ends};
use crate::scope::Scope;
use crate::term::named_bits;
use drawing_tree::WireStmt;
use scald_base::{Delay, Stop};
use std::alloc::Global;
use vector_names::{BitRef, Target};

fn set_wire(expansion: &mut Expansion, target: Target, wire: Delay)
    requires { TargetExists (nets_in expansion.old) target }
    ensures { Wired expansion.old
        expansion.new (with_wire wire (where_of (names_in expansion.old) target)
        (state_of expansion.old)) }
{
    match target {
        Target::Net(net) => {
            expansion.builder.known();
            expansion.builder.wire(net, wire);
        }
        Target::Constant(_) => {}
    }
}

fn set_wires(expansion: &mut Expansion, bits: &[BitRef], wire: Delay)
    requires { All (BitExists (nets_in expansion.old)) bits.now }
    ensures { Wired expansion.old
        expansion.new (with_wires wire (map (bit_of (names_in expansion.old)) bits.now)
        (state_of expansion.old)) }
{
    for bit in bits {
        set_wire(expansion, bit.target, wire);
    }
}

/// Expands a WIRE statement.
#[tactic(auto, unfolding(crate::specs::Flat::wire_act))]
pub(crate) fn wire_bounds(
    expansion: &mut Expansion,
    alloc: Global,
    scope: &Scope,
    statement: &WireStmt,
) -> Result<(), Stop>
    requires fits { Fits expansion.old.builder.header statement.now.name.spec }
    requires exists { ScopeExists (nets_in expansion.old) scope.now }
    ensures { DoneAt expansion.old expansion.new result
        (wire_act (wire_of statement.now) (scope_of (names_in expansion.old) scope.now)
        (state_of expansion.old)) }
{
    let place = statement.place;
    let ends = at(place, written_ends(&statement.range, &scope.env))?;
    let min = at(place, value(&statement.min, &scope.env))?;
    let max = at(place, value(&statement.max, &scope.env))?;
    let bits = named_bits(expansion, alloc, scope, &statement.name, ends, place)?;
    let wire = at(place, delay_between(min, max))?;
    set_wires(expansion, bits.as_slice(), wire);
    Ok(())
}
