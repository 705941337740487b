//! Statements, in the order of the text, with a macro's body at each of its uses.

ghost use Rattle.std.specs.Prelude.{◌≡◌, IfErr, OnOk, Some, MatchResult};
ghost use Rattle.drawing_tree.specs.Tree.{statement_of, statements_of, if_of, for_of, macro_of, use_of};
ghost use Rattle.macro_expander.specs.Fitting.{UseFits, StatementFits, StatementsFit, MacroFits};
ghost use Rattle.macro_expander.specs.Flat.{counted, use_act, macro_use};
ghost use Rattle.macro_expander.specs.Library.{IsLibrary, setting_in};
ghost use Rattle.macro_expander.specs.Numbered.{DoneAt, state_of, scope_of, ScopeExists, nets_in, names_in};
ghost use Rattle.macro_expander.specs.Statements.{place_of as spec_place_of, bodies_in, statements_in, statement_in, uncounted_in, Reached, IsOneTooMany, Chooses, IsUnchosen};

use crate::expansion::Expansion;
use crate::formal::given_to;
use crate::library::Library;
use crate::macro_use::inner_scope;
use crate::primitive_use::primitive_use;
use crate::range::{at, value};
use crate::scope::Scope;
use crate::turn::{in_turn, loop_ends, turn_to};
use crate::wire::wire_bounds;
use drawing_tree::{Env, ForStmt, IfStmt, MacroDef, Stmt, UseStmt};
use element_kinds::kind_named;
use scald_base::{Place, RefusalKind, Stop};
use std::alloc::Global;

/// The most statements that may be reached.
const MOST_STATEMENTS: u32 = 262_144;

/// Counts a statement that is reached, or refuses it if it is one too many.
fn count(expansion: &mut Expansion, place: Place) -> Result<(), Stop>
    ensures reached { OnOk result (Reached expansion.old expansion.new) }
    ensures refused { IfErr result (IsOneTooMany expansion.old place) }
{
    if expansion.statements >= MOST_STATEMENTS {
        return Err(Stop::refused(RefusalKind::TooMany, place));
    }
    expansion.statements += 1;
    Ok(())
}

/// Where a statement stands.
fn place_of(statement: &Stmt) -> Place
    ensures { result ≡ spec_place_of (statement_of statement.now) }
{
    match statement {
        Stmt::Use(used) => used.place,
        Stmt::Wire(wire) => wire.place,
        Stmt::If(choice) => choice.place,
        Stmt::For(repeated) => repeated.place,
    }
}

/// The statements of an IF that its test chooses.
fn chosen<'a>(choice: &'a IfStmt, env: &Env) -> Result<&'a [Stmt], Stop>
    ensures { MatchResult result (λ statements.
        Chooses env.now choice.now statements.now) (IsUnchosen env.now choice.now) }
{
    let test = at(choice.place, value(&choice.test, env))?;
    if test != 0 {
        return Ok(choice.yes.as_slice());
    }
    match &choice.no {
        Some(statements) => Ok(statements.as_slice()),
        None => Ok(&[]),
    }
}

/// The statements of a body, with uses going so many levels deeper.
#[cycle(statement)]
pub(crate) fn body(
    expansion: &mut Expansion,
    alloc: Global,
    library: &Library,
    statements: &[Stmt],
    scope: &Scope,
    levels: u32,
) -> Result<(), Stop>
    requires library { IsLibrary expansion.old.builder.header library.now }
    requires fits { StatementsFit expansion.old.builder.header (statements_of statements.now) }
    requires exists { ScopeExists (nets_in expansion.old) scope.now }
    ensures { DoneAt expansion.old expansion.new result (statements_in library.now levels
        (statements_of statements.now) (scope_of (names_in expansion.old) scope.now)
        (state_of expansion.old)) }
{
    'statements: for statement in statements {
        one(expansion, alloc, library, statement, scope, levels)?;
    }
    Ok(())
}

#[cycle(statement)]
fn one(
    expansion: &mut Expansion,
    alloc: Global,
    library: &Library,
    statement: &Stmt,
    scope: &Scope,
    levels: u32,
) -> Result<(), Stop>
    requires library { IsLibrary expansion.old.builder.header library.now }
    requires fits { StatementFits expansion.old.builder.header (statement_of statement.now) }
    requires exists { ScopeExists (nets_in expansion.old) scope.now }
    ensures { DoneAt expansion.old expansion.new result (statement_in library.now
        levels (statement_of statement.now) (scope_of (names_in expansion.old) scope.now)
        (state_of expansion.old)) }
{
    count(expansion, place_of(statement))?;
    match statement {
        Stmt::Use(used) => expand_use(expansion, alloc, library, used, scope, levels),
        Stmt::Wire(wire) => wire_bounds(expansion, alloc, scope, wire),
        Stmt::If(choice) => expand_if(expansion, alloc, library, choice, scope, levels),
        Stmt::For(repeated) => expand_for(expansion, alloc, library, repeated, scope, levels),
    }
}

/// An IF, once it is counted.
#[cycle(statement)]
fn expand_if(
    expansion: &mut Expansion,
    alloc: Global,
    library: &Library,
    choice: &IfStmt,
    scope: &Scope,
    levels: u32,
) -> Result<(), Stop>
    requires library { IsLibrary expansion.old.builder.header library.now }
    requires fits { StatementFits expansion.old.builder.header (if_of choice.now) }
    requires exists { ScopeExists (nets_in expansion.old) scope.now }
    ensures { DoneAt expansion.old expansion.new result (uncounted_in library.now
        levels (if_of choice.now) (scope_of (names_in expansion.old) scope.now)
        (state_of expansion.old)) }
{
    let statements = chosen(choice, &scope.env)?;
    body(expansion, alloc, library, statements, scope, levels)
}

/// A FOR, once it is counted: its body for each value, upwards.
#[cycle(statement)]
fn expand_for(
    expansion: &mut Expansion,
    alloc: Global,
    library: &Library,
    repeated: &ForStmt,
    scope: &Scope,
    levels: u32,
) -> Result<(), Stop>
    requires library { IsLibrary expansion.old.builder.header library.now }
    requires fits { StatementFits expansion.old.builder.header (for_of repeated.now) }
    requires exists { ScopeExists (nets_in expansion.old) scope.now }
    ensures { DoneAt expansion.old expansion.new result (uncounted_in library.now
        levels (for_of repeated.now) (scope_of (names_in expansion.old) scope.now)
        (state_of expansion.old)) }
{
    let ends = loop_ends(repeated, &scope.env)?;
    let first = ends.0;
    let last = ends.1;
    if first > last {
        return Ok(());
    }
    let mut inner = in_turn(alloc, scope, repeated, first)?;
    let mut value = first;
    'turns: while value < last {
        turn(expansion, alloc, library, repeated, &inner, levels)?;
        value += 1;
        turn_to(alloc, &mut inner, scope, repeated, value)?;
    }
    turn(expansion, alloc, library, repeated, &inner, levels)
}

/// The body of a FOR for one value, which counts by itself.
#[cycle(statement)]
fn turn(
    expansion: &mut Expansion,
    alloc: Global,
    library: &Library,
    repeated: &ForStmt,
    inner: &Scope,
    levels: u32,
) -> Result<(), Stop>
    requires library { IsLibrary expansion.old.builder.header library.now }
    requires fits { StatementFits expansion.old.builder.header (for_of repeated.now) }
    requires exists { ScopeExists (nets_in expansion.old) inner.now }
    ensures { DoneAt expansion.old expansion.new result (counted repeated.now.place
        (statements_in library.now levels (statements_of repeated.now.body.items))
        (scope_of (names_in expansion.old) inner.now) (state_of expansion.old)) }
{
    count(expansion, repeated.place)?;
    body(
        expansion,
        alloc,
        library,
        repeated.body.as_slice(),
        inner,
        levels,
    )
}

/// The use of a primitive or of a macro, once it is counted.
#[cycle(statement)]
fn expand_use(
    expansion: &mut Expansion,
    alloc: Global,
    library: &Library,
    used: &UseStmt,
    scope: &Scope,
    levels: u32,
) -> Result<(), Stop>
    requires library { IsLibrary expansion.old.builder.header library.now }
    requires fits { UseFits expansion.old.builder.header (use_of used.now) }
    requires exists { ScopeExists (nets_in expansion.old) scope.now }
    ensures { DoneAt expansion.old expansion.new
        result (use_act (setting_in library.now) (bodies_in library.now levels)
        (use_of used.now) (scope_of (names_in expansion.old) scope.now) (state_of expansion.old)) }
{
    if let Some(kind) = kind_named(used.kind.as_slice()) {
        return primitive_use(expansion, alloc, library, kind, scope, used);
    }
    match library.find(used.kind.as_slice()) {
        Some(definition) => {
            expand_macro(expansion, alloc, library, definition, used, scope, levels)
        }
        None => Err(Stop::refused(RefusalKind::UnknownKind, used.place)),
    }
}

/// The use of a macro: its body in the scope of its formals.
#[cycle(statement)]
fn expand_macro(
    expansion: &mut Expansion,
    alloc: Global,
    library: &Library,
    definition: &MacroDef,
    used: &UseStmt,
    scope: &Scope,
    levels: u32,
) -> Result<(), Stop>
    requires library { IsLibrary expansion.old.builder.header library.now }
    requires body { MacroFits expansion.old.builder.header (macro_of definition.now) }
    requires fits { UseFits expansion.old.builder.header (use_of used.now) }
    requires exists { ScopeExists (nets_in expansion.old) scope.now }
    ensures { DoneAt expansion.old expansion.new result
        (macro_use (setting_in library.now) (bodies_in library.now levels)
        (Some (macro_of definition.now))
        (use_of used.now) (scope_of (names_in expansion.old) scope.now) (state_of expansion.old)) }
{
    let given = given_to(alloc, definition, &scope.env, used)?;
    if levels == 0 {
        return Err(Stop::refused(RefusalKind::TooDeep, used.place));
    }
    let inner = inner_scope(
        expansion,
        alloc,
        &library.consts,
        definition,
        &given,
        scope,
        used,
    )?;
    body(
        expansion,
        alloc,
        library,
        &definition.body,
        &inner,
        levels - 1,
    )
}
