//! Down the statements of a drawing, as its expansion goes.

ghost use Rattle.std.specs.Prelude.{◌≡◌, ◌∷◌, [], ◌++◌, IfOk, OnOk};
ghost use Rattle.drawing_omissions.specs.declared.spread.Finding.{Finding};
ghost use Rattle.drawing_tree.specs.Tree.{Use, drawing_of, for_of, if_of, statement_of, statements_of, use_of};
ghost use Rattle.drawing_tree.specs.WellFormed.{IsWellFormed};
ghost use Rattle.macro_expander.specs.Library.{LeadToMacros};
ghost use Rattle.drawing_omissions.specs.Spreads.{spreads as spec_spreads};
ghost use Rattle.drawing_omissions.specs.Walk.{in_all, in_one};

use crate::body::{body_scope, inside};
use crate::spread::{Finding, Findings, Reached, in_formals, in_primitive};
use drawing_tree::{Drawing, ForStmt, IfStmt, Stmt, UseStmt};
use element_kinds::kind_named;
use macro_expander::DEEPEST;
use macro_expander::constants::{constants, copied_env};
use macro_expander::library::Library;
use macro_expander::range::value;
use macro_expander::scope::Scope;
use macro_expander::turn::{in_turn, loop_ends, turn_to};
use scald_base::{NoMemory, Place, Stop};
use std::alloc::Global;

/// Appends what is found in statements, if uses may go so many levels deeper.
#[cycle(walk)]
fn in_statements(
    found: &mut Findings,
    alloc: Global,
    library: &Library,
    statements: &[Stmt],
    scope: &Scope,
    levels: u32,
) -> Result<(), NoMemory>
    requires { LeadToMacros library.now }
    ensures { OnOk result (found.new
        ≡ found.old ++ in_all library.now levels (statements_of statements.now) scope.now) }
{
    'statements: for statement in statements {
        in_statement(found, alloc, library, statement, scope, levels)?;
    }
    Ok(())
}

#[cycle(walk)]
fn in_statement(
    found: &mut Findings,
    alloc: Global,
    library: &Library,
    statement: &Stmt,
    scope: &Scope,
    levels: u32,
) -> Result<(), NoMemory>
    requires { LeadToMacros library.now }
    ensures { OnOk result (found.new
        ≡ found.old ++ in_one library.now levels (statement_of statement.now) scope.now) }
{
    match statement {
        Stmt::Use(used) => in_use(found, alloc, library, used, scope, levels),
        Stmt::Wire(_) => Ok(()),
        Stmt::If(choice) => in_if(found, alloc, library, choice, scope, levels),
        Stmt::For(repeated) => in_for(found, alloc, library, repeated, scope, levels),
    }
}

#[cycle(walk)]
fn in_if(
    found: &mut Findings,
    alloc: Global,
    library: &Library,
    choice: &IfStmt,
    scope: &Scope,
    levels: u32,
) -> Result<(), NoMemory>
    requires { LeadToMacros library.now }
    ensures { OnOk result (found.new
        ≡ found.old ++ in_one library.now levels (if_of choice.now) scope.now) }
{
    let Ok(test) = value(&choice.test, &scope.env) else {
        return Ok(());
    };
    if test != 0 {
        return in_statements(found, alloc, library, choice.yes.as_slice(), scope, levels);
    }
    match &choice.no {
        Some(other) => in_statements(found, alloc, library, other.as_slice(), scope, levels),
        None => Ok(()),
    }
}

/// Appends a FOR that is reached.
fn add_loop(found: &mut Findings, place: Place, has_turn: bool) -> Result<(), NoMemory>
    ensures { OnOk result (found.new ≡ found.old
        ++ Finding.Loop (record { place = place; has_turn = has_turn }) ∷ []) }
{
    found.push(Finding::Loop(Reached { place, has_turn }))?;
    Ok(())
}

/// A FOR, and its body for each value, upwards.
#[cycle(walk)]
fn in_for(
    found: &mut Findings,
    alloc: Global,
    library: &Library,
    repeated: &ForStmt,
    scope: &Scope,
    levels: u32,
) -> Result<(), NoMemory>
    requires { LeadToMacros library.now }
    ensures { OnOk result (found.new
        ≡ found.old ++ in_one library.now levels (for_of repeated.now) scope.now) }
{
    let ends = match loop_ends(repeated, &scope.env) {
        Ok(ends) => ends,
        Err(Stop::Refused(_)) => return Ok(()),
        Err(Stop::NoMemory) => return Err(NoMemory),
    };
    let first = ends.0;
    let last = ends.1;
    if first > last {
        return add_loop(found, repeated.place, false);
    }
    add_loop(found, repeated.place, true)?;
    let body = repeated.body.as_slice();
    let mut inner = in_turn(alloc, scope, repeated, first)?;
    let mut value = first;
    'turns: while value < last {
        in_statements(found, alloc, library, body, &inner, levels)?;
        value += 1;
        turn_to(alloc, &mut inner, scope, repeated, value)?;
    }
    in_statements(found, alloc, library, body, &inner, levels)
}

/// The use of a primitive, or that of a macro: over its formals, and then in its body.
#[cycle(walk)]
fn in_use(
    found: &mut Findings,
    alloc: Global,
    library: &Library,
    used: &UseStmt,
    scope: &Scope,
    levels: u32,
) -> Result<(), NoMemory>
    requires { LeadToMacros library.now }
    ensures { OnOk result (found.new
        ≡ found.old ++ in_one library.now levels (Use (use_of used.now)) scope.now) }
{
    if let Some(kind) = kind_named(used.kind.as_slice()) {
        return in_primitive(found, alloc, scope, kind, used);
    }
    let Some(definition) = library.find(used.kind.as_slice()) else {
        return Ok(());
    };
    let Some(inside) = inside(alloc, &library.consts, definition, used, scope)? else {
        return Ok(());
    };
    in_formals(
        found,
        alloc,
        scope,
        inside.ins.as_slice(),
        used.ins.as_slice(),
    )?;
    if levels == 0 {
        return Ok(());
    }
    let inner = body_scope(alloc, scope, used.label.as_slice(), inside)?;
    in_statements(found, alloc, library, &definition.body, &inner, levels - 1)
}

/// What is found while a drawing is expanded, in the order of expansion: the names that are spread,
/// and the FORs reached. What is refused has none: a drawing is expanded first, and refused
/// there. `NoMemory` comes if memory runs out.
pub fn spreads(alloc: Global, drawing: &Drawing) -> Result<Findings, NoMemory>
    requires { IsWellFormed (drawing_of drawing.now) }
    ensures { IfOk result (λ found. found ≡ spec_spreads (drawing_of drawing.now)) }
{
    let mut found = Findings::new(alloc);
    let consts = match constants(alloc, &drawing.consts, &drawing.const_places) {
        Ok(consts) => consts,
        Err(Stop::Refused(_)) => return Ok(found),
        Err(Stop::NoMemory) => return Err(NoMemory),
    };
    let top = Scope::top(alloc, copied_env(alloc, &consts)?);
    let period = drawing.header.period();
    let library = Library::of(alloc, drawing.version, period, consts, &drawing.macros)?;
    in_statements(&mut found, alloc, &library, &drawing.body, &top, DEEPEST)?;
    Ok(found)
}
