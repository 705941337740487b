//! The scope of a macro's body, as far as it tells names and widths.

ghost use Rattle.std.specs.Prelude.{◌≡◌, ◌++◌, [], IfOk, OnOk, map};
ghost use Rattle.std.specs.List.{All};
ghost use Rattle.std.specs.Result.{result_ok};
ghost use Rattle.drawing_tree.specs.Tree.{macro_of, use_of};
ghost use Rattle.macro_expander.specs.Numbered.{IsRange, bound_ref};
ghost use Rattle.drawing_omissions.specs.Spreads.{body_scope as spec_body_scope, inside_at};
ghost use Rattle.drawing_omissions.specs.Walk.{seen};

use drawing_tree::{Env, MacroDef, UseStmt};
use macro_expander::formal::{Inside, Shape, given_to, inside_of};
use macro_expander::list::{Row, copied};
use macro_expander::scope::{Bound, Formals, Scope};
use scald_base::{Bytes, NoMemory, Stop};
use std::alloc::Global;
use vector_names::Bits;

/// What a macro's body is expanded with at a use, and nothing if the use is refused.
pub(crate) fn inside(
    alloc: Global,
    consts: &Env,
    definition: &MacroDef,
    used: &UseStmt,
    scope: &Scope,
) -> Result<Option<Inside>, NoMemory>
    ensures { IfOk result (λ inside. inside
        ≡ result_ok (inside_at consts.now (macro_of definition.now) (seen scope.now)
        (use_of used.now))) }
{
    let given = match given_to(alloc, definition, &scope.env, used) {
        Ok(given) => given,
        Err(Stop::Refused(_)) => return Ok(None),
        Err(Stop::NoMemory) => return Err(NoMemory),
    };
    match inside_of(alloc, consts, definition, &given, used.place) {
        Ok(inside) => Ok(Some(inside)),
        Err(Stop::Refused(_)) => Ok(None),
        Err(Stop::NoMemory) => Err(NoMemory),
    }
}

/// Appends formals that are bound to no bits.
fn add_unbound(formals: &mut Row<Bound>, alloc: Global, shapes: &[Shape]) -> Result<(), NoMemory>
    ensures { OnOk result (formals.new ≡ formals.old
        ++ map (λ shape. bound_ref shape []) shapes.now) }
{
    for shape in shapes {
        formals.push(Bound {
            base: Bytes::of(alloc, shape.base.as_slice())?,
            numbers: copied(alloc, shape.numbers.as_slice())?,
            bits: Bits::new(alloc),
        })?;
    }
    Ok(())
}

/// The formals of a macro, bound to no bits.
fn unbound(alloc: Global, inside: &Inside) -> Result<Formals, NoMemory>
    requires ins { All IsRange inside.now.ins }
    requires outs { All IsRange inside.now.outs }
    ensures { IfOk result (λ formals.
        formals ≡ map (λ shape. bound_ref shape []) (inside.now.ins ++ inside.now.outs)) }
{
    let mut formals = Row::new(alloc);
    add_unbound(&mut formals, alloc, inside.ins.as_slice())?;
    add_unbound(&mut formals, alloc, inside.outs.as_slice())?;
    Formals::of(alloc, formals)
}

/// The scope of a macro's body at a use with this label.
pub(crate) fn body_scope(
    alloc: Global,
    scope: &Scope,
    label: &[u8],
    inside: Inside,
) -> Result<Scope, NoMemory>
    requires ins { All IsRange inside.ins }
    requires outs { All IsRange inside.outs }
    ensures { IfOk result (λ inner.
        seen inner ≡ spec_body_scope (seen scope.now) label.now inside) }
{
    let mut path = scope.labelled(alloc, label)?;
    path.extend(b"/".as_slice())?;
    let formals = unbound(alloc, &inside)?;
    Ok(Scope {
        path,
        suffix: Bytes::new(alloc),
        env: inside.env,
        formals,
    })
}
