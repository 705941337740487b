//! The uses of macros that a path leads through.

ghost use Rattle.std.specs.Prelude.{◌≡◌, IfOk, map, option_map};
ghost use Rattle.std.specs.Option.{option_copied};
ghost use Rattle.drawing_tree.specs.Tree.{drawing_of, macro_of as macro_in, statement_of, statements_of, use_of};
ghost use Rattle.macro_expander.specs.Macros.{macro_of as first_called};
ghost use Rattle.drawing_places.specs.Body.{trees};
ghost use Rattle.drawing_places.specs.Find.{first_found};
ghost use Rattle.drawing_places.specs.Uses.{body_in, scope_body, use_labelled, uses_through};

use crate::body::written;
use crate::path::split_label;
use drawing_tree::{Drawing, MacroDef, Stmt, UseStmt};
use scald_base::{List, NoMemory, same_bytes};
use std::alloc::Global;

/// Uses of macros, by where their labels stand.
pub type Uses<'a> = List<&'a UseStmt>;

/// The uses that a scope is in, from the drawing down, and the statements that they lead to.
#[derive(Drop)]
pub struct Scope<'a> {
    pub uses: Uses<'a>,
    pub body: &'a [Stmt],
}

/// A use, if it has a label.
fn use_labelled<'a>(statement: &'a Stmt, label: &[u8]) -> Option<&'a UseStmt>
    ensures { option_map use_of (option_copied result)
        ≡ use_labelled label.now (statement_of statement.now) }
{
    match statement {
        Stmt::Use(found) if same_bytes(found.label.as_slice(), label) => Some(found),
        _ => None,
    }
}

/// The use with a label, among statements.
fn use_in<'a>(statements: &[&'a Stmt], label: &[u8]) -> Option<&'a UseStmt>
    ensures { option_map use_of (option_copied result)
        ≡ first_found (use_labelled label.now) (trees statements.now) }
{
    for statement in statements {
        let found = use_labelled(*statement, label);
        if found.is_some() {
            return found;
        }
    }
    None
}

/// The macro of a name.
fn macro_named<'a>(drawing: &'a Drawing, name: &[u8]) -> Option<&'a MacroDef>
    ensures { option_map macro_in (option_copied result)
        ≡ first_called name.now (map macro_in drawing.now.macros) }
{
    for found in drawing.macros.as_slice() {
        if same_bytes(found.name.as_slice(), name) {
            return Some(found);
        }
    }
    None
}

/// The statements of the macro of a name; none if there is no such macro.
fn body_of<'a>(drawing: &'a Drawing, name: &[u8]) -> &'a [Stmt]
    ensures { statements_of result.now
        ≡ body_in (first_called name.now (map macro_in drawing.now.macros)) }
{
    match macro_named(drawing, name) {
        None => &[],
        Some(found) => found.body.as_slice(),
    }
}

/// The uses that a scope is in, and its statements.
pub fn scope_of<'a>(
    alloc: Global,
    drawing: &'a Drawing,
    scope: &[u8],
) -> Result<Scope<'a>, NoMemory>
    ensures uses { IfOk result (λ found.
        map (λ u. use_of u.now) found.uses ≡ uses_through (drawing_of drawing.now) scope.now) }
    ensures body { IfOk result (λ found.
        statements_of found.body.now ≡ scope_body (drawing_of drawing.now) scope.now) }
{
    let mut uses = Uses::new(alloc);
    let mut body = drawing.body.as_slice();
    let mut rest = scope;
    'labels: while let Some((label, more)) = split_label(rest) {
        let Some(found) = use_in(written(alloc, body)?.as_slice(), label) else {
            return Ok(Scope { uses, body });
        };
        uses.push(found)?;
        body = body_of(drawing, found.kind.as_slice());
        rest = more;
    }
    Ok(Scope { uses, body })
}
