//! The first line of a macro.

ghost use Rattle.std.specs.Prelude.{◌≡◌, ◌++◌, ◌==◌, [], IfOk, OnOk, length, not};
ghost use Rattle.drawing_tree.specs.Canonical.{bracketed_if_some, formal_text, line, macro_head};
ghost use Rattle.drawing_tree.specs.Tree.{nil};
ghost use Rattle.netlist_import.specs.declared.netlist.Direction.TheVariants.{Input, Output};
ghost use Rattle.netlist_import.specs.Body.{formals_named, plain_macro};

use crate::kinds::is_same_way;
use crate::netlist::Direction;
use crate::shapes::Formal;
use crate::text::{add_formal, add_separator, close_outputs};
use scald_base::{Bytes, NoMemory};

/// The ports of a direction, each with the name that it has in its macro, the first one after
/// `before`; says whether there are some.
#[tactic(auto, unfolding(crate::specs::Body::formals_named))]
fn add_formals(
    out: &mut Bytes,
    ports: &[Formal],
    names: &[Bytes],
    direction: Direction,
    before: &[u8],
) -> Result<bool, NoMemory>
    ensures some { IfOk result (λ some. some
        ≡ not (length (formals_named direction ports.now names.now) == 0)) }
    ensures text { OnOk result (out.new ≡ out.old ++ bracketed_if_some before.now [] formal_text
        (formals_named direction ports.now names.now)) }
{
    let mut is_some = false;
    for (place, port) in ports.iter().enumerate() {
        let Some(name) = names.get(place) else {
            return Ok(is_some);
        };
        if is_same_way(port.direction, direction) {
            add_separator(out, is_some, before)?;
            add_formal(out, name.as_slice(), port.width)?;
            is_some = true;
        }
    }
    Ok(is_some)
}

/// Puts the first line of a macro at the end of `out`, whose ports have these names in it.
#[tactic(auto, unfolding(drawing_tree::specs::Canonical::macro_head))]
pub(crate) fn add_head(
    out: &mut Bytes,
    name: &[u8],
    ports: &[Formal],
    names: &[Bytes],
) -> Result<(), NoMemory>
    ensures { OnOk result (out.new ≡ out.old ++ line [] (macro_head (plain_macro name.now
        (formals_named Input ports.now names.now)
        (formals_named Output ports.now names.now) nil))) }
{
    out.extend(b"MACRO ")?;
    out.extend(name)?;
    out.extend(b" (")?;
    add_formals(out, ports, names, Direction::Input, b"")?;
    out.push(b')')?;
    let is_some = add_formals(out, ports, names, Direction::Output, b" -> (")?;
    close_outputs(out, is_some)?;
    out.extend(b";\n")
}
