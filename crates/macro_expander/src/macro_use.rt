//! The scope of a macro's body at a use.

ghost use Rattle.std.specs.Prelude.{◌≡◌, ◌++◌, IfOk, codes};
ghost use Rattle.std.specs.List.{All, zip};
ghost use Rattle.drawing_tree.specs.Tree.{macro_of, use_of};
ghost use Rattle.macro_expander.specs.Fitting.{UseFits};
ghost use Rattle.macro_expander.specs.Outcome.{collected};
ghost use Rattle.macro_expander.specs.Macros.{inner_scope as spec_inner_scope};
ghost use Rattle.macro_expander.specs.Numbered.{ScopeAt, state_of, scope_of, ScopeExists, nets_in, names_in, IsRange, bound_ref, input_bound_ref, output_bound_ref, bound_formals_ref};
ghost use Rattle.macro_expander.specs.Steps.{JudgedAt};

use crate::connection::{Joined, Wires, all_wires};
use crate::expansion::Expansion;
use crate::formal::{Inside, Shape, inside_of};
use crate::list::{Row, copied};
use crate::scope::{Bound, Formals, Scope};
use drawing_tree::{Env, MacroDef, UseStmt};
use scald_base::{Bytes, NoMemory, Place, RefusalKind, Stop};
use std::alloc::Global;
use vector_names::{Bits, VectorFault, spread};

/// A formal that is bound to these bits.
fn bound(alloc: Global, shape: &Shape, bits: Bits) -> Result<Bound, NoMemory>
    ensures { IfOk result (λ f. f ≡ bound_ref shape.now bits) }
{
    Ok(Bound {
        base: Bytes::of(alloc, shape.base.as_slice())?,
        numbers: copied(alloc, shape.numbers.as_slice())?,
        bits,
    })
}

/// An input bound to its formal: as many bits as the formal has, or one bit, which is spread over
/// it.
#[tactic(auto, using(crate::proofs::Binding::spread_is))]
fn bound_input(alloc: Global, shape: &Shape, joined: &Joined, place: Place) -> Result<Bound, Stop>
    requires { IsRange shape.now }
    ensures { JudgedAt place result (input_bound_ref (shape.now, joined.now)) }
{
    match spread(alloc, &joined.bits, shape.numbers.len() as u16) {
        Ok(bits) => Ok(bound(alloc, shape, bits)?),
        Err(VectorFault::NoMemory) => Err(Stop::NoMemory),
        Err(_) => Err(Stop::refused(RefusalKind::Width, place)),
    }
}

/// An output bound to its formal: as many bits as the formal has.
fn bound_output(alloc: Global, shape: &Shape, joined: &Joined, place: Place) -> Result<Bound, Stop>
    ensures { JudgedAt place result (output_bound_ref (shape.now, joined.now)) }
{
    if joined.bits.len() != shape.numbers.len() {
        return Err(Stop::refused(RefusalKind::Width, place));
    }
    let bits = copied(alloc, joined.bits.as_slice())?;
    Ok(bound(alloc, shape, bits)?)
}

/// The formals so far, and after them the inputs.
fn bound_inputs(
    alloc: Global,
    formals: Row<Bound>,
    shapes: &[Shape],
    ins: &[Joined],
    place: Place,
) -> Result<Row<Bound>, Stop>
    requires { All IsRange shapes.now }
    ensures { JudgedAt place result (collected input_bound_ref formals (zip shapes.now ins.now)) }
{
    let mut formals = formals;
    for (shape, joined) in shapes.iter().zip(ins) {
        formals.push(bound_input(alloc, shape, joined, place)?)?;
    }
    Ok(formals)
}

/// The formals so far, and after them the outputs.
fn bound_outputs(
    alloc: Global,
    formals: Row<Bound>,
    shapes: &[Shape],
    outs: &[Joined],
    place: Place,
) -> Result<Row<Bound>, Stop>
    ensures { JudgedAt place result (collected output_bound_ref formals (zip shapes.now outs.now)) }
{
    let mut formals = formals;
    for (shape, joined) in shapes.iter().zip(outs) {
        formals.push(bound_output(alloc, shape, joined, place)?)?;
    }
    Ok(formals)
}

/// The formals of a macro, bound to the connections of a use.
fn bound_formals(
    alloc: Global,
    inside: &Inside,
    wires: &Wires,
    place: Place,
) -> Result<Formals, Stop>
    requires ins { All IsRange inside.now.ins }
    requires outs { All IsRange inside.now.outs }
    ensures { JudgedAt place result (bound_formals_ref inside.now wires.now) }
{
    let room = Row::with_room(alloc, inside.ins.len().saturating_add(inside.outs.len()))?;
    let formals = bound_inputs(
        alloc,
        room,
        inside.ins.as_slice(),
        wires.ins.as_slice(),
        place,
    )?;
    let formals = bound_outputs(
        alloc,
        formals,
        inside.outs.as_slice(),
        wires.outs.as_slice(),
        place,
    )?;
    Ok(Formals::of(alloc, formals)?)
}

fn inner_path(alloc: Global, scope: &Scope, label: &[u8]) -> Result<Bytes, NoMemory>
    ensures { IfOk result (λ inner.
        inner ≡ (scope.now.path ++ label.now ++ scope.now.suffix) ++ codes "/") }
{
    let mut inner = scope.labelled(alloc, label)?;
    inner.extend(b"/".as_slice())?;
    Ok(inner)
}

/// The scope of a macro's body at a use: its formals, bound to the connections' bits. No FOR is
/// around the body.
pub(crate) fn inner_scope(
    expansion: &mut Expansion,
    alloc: Global,
    consts: &Env,
    definition: &MacroDef,
    given: &Env,
    scope: &Scope,
    statement: &UseStmt,
) -> Result<Scope, Stop>
    requires fits { UseFits expansion.old.builder.header (use_of statement.now) }
    requires exists { ScopeExists (nets_in expansion.old) scope.now }
    ensures { ScopeAt expansion.old expansion.new result
        (spec_inner_scope consts.now (macro_of definition.now)
        given.now (scope_of (names_in expansion.old) scope.now) (use_of statement.now)
        (state_of expansion.old)) }
{
    let place = statement.place;
    let inside = inside_of(alloc, consts, definition, given, place)?;
    let wires = all_wires(expansion, alloc, scope, statement)?;
    let formals = bound_formals(alloc, &inside, &wires, place)?;
    let path = inner_path(alloc, scope, statement.label.as_slice())?;
    let Inside {
        env,
        ins: _,
        outs: _,
    } = inside;
    Ok(Scope {
        path,
        suffix: Bytes::new(alloc),
        env,
        formals,
    })
}
