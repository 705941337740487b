//! How many bits connections have.

ghost use Rattle.std.specs.Prelude.{◌≡◌, [], IfOk, map, option_map};
ghost use Rattle.std.specs.Option.{option_copied};
ghost use Rattle.macro_expander.specs.Numbered.{bound_of};
ghost use Rattle.macro_expander.specs.Primitives.{greatest};
ghost use Rattle.macro_expander.specs.Terms.{formal_of, numbers_between};
ghost use Rattle.drawing_tree.specs.Tree.{connection_of, item_of};
ghost use Rattle.drawing_omissions.specs.Widths.{count_of, item_width as spec_item_width, width as spec_width, widths};
ghost use Rattle.drawing_omissions.specs.Walk.{seen};

use assertion_syntax::SignalName;
use drawing_tree::{Conn, Item};
use macro_expander::range::written_ends;
use macro_expander::scope::{Bound, Scope};
use scald_base::NoMemory;
use std::alloc::Global;
use vector_names::{VectorFault, bits_of};

/// The formal that a name means: a global name means none.
pub(crate) fn meant_formal<'a>(scope: &'a Scope, name: &SignalName) -> Option<&'a Bound>
    ensures { option_map (bound_of []) (option_copied result)
        ≡ formal_of (seen scope.now).formals name.now }
{
    if name.global {
        return None;
    }
    scope.formals.find(name.base.as_slice())
}

/// How many bits are numbered from the first of the ends to the last: none if that is no range.
fn count_between(alloc: Global, ends: (i64, i64)) -> Result<usize, NoMemory>
    ensures { IfOk result (λ count. count ≡ count_of (numbers_between ends)) }
{
    match bits_of(alloc, ends.0, ends.1) {
        Ok(numbers) => Ok(numbers.len()),
        Err(VectorFault::NoMemory) => Err(NoMemory),
        Err(_) => Ok(0),
    }
}

fn item_width(alloc: Global, scope: &Scope, item: &Item) -> Result<usize, NoMemory>
    ensures { IfOk result (λ width. width ≡ spec_item_width (seen scope.now) (item_of item.now)) }
{
    let Item::Named(name, range) = item else {
        return Ok(1);
    };
    match written_ends(range, &scope.env) {
        Ok(Some(ends)) => count_between(alloc, ends),
        Ok(None) => match meant_formal(scope, name) {
            Some(formal) => Ok(formal.numbers.len()),
            None => Ok(1),
        },
        Err(_) => Ok(0),
    }
}

/// How many bits a connection has. More than can be counted have no memory either.
fn width(alloc: Global, scope: &Scope, connection: &Conn) -> Result<usize, NoMemory>
    ensures { IfOk result (λ bits. bits
        ≡ spec_width (seen scope.now) (connection_of connection.now)) }
{
    let mut bits = 0_usize;
    for term in connection.terms.as_slice() {
        let more = item_width(alloc, scope, &term.item)?;
        let Some(sum) = bits.checked_add(more) else {
            return Err(NoMemory);
        };
        bits = sum;
    }
    Ok(bits)
}

/// The greatest width of connections, 0 if there is none.
pub(crate) fn greatest_width(
    alloc: Global,
    scope: &Scope,
    connections: &[Conn],
) -> Result<usize, NoMemory>
    ensures { IfOk result (λ bits.
        bits ≡ greatest (widths (seen scope.now) (map connection_of connections.now))) }
{
    let mut greatest = 0;
    for connection in connections {
        let bits = width(alloc, scope, connection)?;
        greatest = greatest.max(bits);
    }
    Ok(greatest)
}
