//! Scopes, opened and closed as the path changes.

ghost use Rattle.std.specs.Prelude.{◌≡◌, ◌++◌, OnOk};
ghost use Rattle.std.specs.List.{flat_map};
ghost use Rattle.trace_tool.specs.Name.{name_of, parts_of, scopes_of};
ghost use Rattle.trace_tool.specs.Scope.{both_moves, close_line, moves, open_line, scopes_before};

use crate::name::{first_slash, is_global, text_at};
use crate::reference::add_reference;
use flat_circuit::Circuit;
use scald_base::{Bytes, NoMemory};

/// The line that opens a scope.
pub fn add_open(out: &mut Bytes, scope: &[u8]) -> Result<(), NoMemory>
    ensures { OnOk result (out.new ≡ out.old ++ open_line scope.now) }
{
    out.extend(b"$scope module ")?;
    add_reference(out, scope)?;
    out.extend(b" $end\n")
}

/// The lines that open the scopes of a name.
fn add_opens(out: &mut Bytes, name: &[u8]) -> Result<(), NoMemory>
    ensures { OnOk result (out.new ≡ out.old ++ flat_map open_line (parts_of name.now).scopes) }
{
    match first_slash(name) {
        None => Ok(()),
        Some(at) => {
            add_open(out, &name[..at])?;
            add_opens(out, &name[at + 1..])
        }
    }
}

/// The lines that close the scopes of a name.
fn add_closes(out: &mut Bytes, name: &[u8]) -> Result<(), NoMemory>
    ensures { OnOk result (out.new ≡ out.old ++ flat_map close_line (parts_of name.now).scopes) }
{
    match first_slash(name) {
        None => Ok(()),
        Some(at) => {
            out.extend(b"$upscope $end\n")?;
            add_closes(out, &name[at + 1..])
        }
    }
}

/// The lines from the scopes of one name to those of another, if the first are not the same.
fn add_both(out: &mut Bytes, from: &[u8], to: &[u8]) -> Result<(), NoMemory>
    ensures { OnOk result (out.new ≡ out.old
        ++ both_moves (parts_of from.now).scopes (parts_of to.now).scopes) }
{
    add_closes(out, from)?;
    add_opens(out, to)
}

/// The lines from the scopes of one name to those of another.
fn add_between(out: &mut Bytes, from: &[u8], to: &[u8]) -> Result<(), NoMemory>
    ensures { OnOk result (out.new ≡ out.old
        ++ moves (parts_of from.now).scopes (parts_of to.now).scopes) }
{
    match (first_slash(from), first_slash(to)) {
        (Some(i), Some(j)) => {
            if from[..i] == to[..j] {
                add_between(out, &from[i + 1..], &to[j + 1..])
            } else {
                add_both(out, from, to)
            }
        }
        (None, _) => add_both(out, from, to),
        (_, None) => add_both(out, from, to),
    }
}

/// What has the scopes of a name: all of it, but of a global nothing.
fn scoped(text: &[u8]) -> &[u8]
    ensures { (parts_of result.now).scopes ≡ scopes_of text.now }
{
    if is_global(text) { &[] } else { text }
}

/// What has the scopes of the net before a place.
fn before(c: &Circuit, place: u32) -> &[u8]
    ensures { (parts_of result.now).scopes ≡ scopes_before c.now place }
{
    if place == 0 {
        &[]
    } else {
        scoped(text_at(c, place - 1))
    }
}

/// The lines to the scopes of the net at a place from those of the one before it; at the end, to
/// none.
pub fn add_moves(out: &mut Bytes, c: &Circuit, place: u32) -> Result<(), NoMemory>
    ensures { OnOk result (out.new ≡ out.old
        ++ moves (scopes_before c.now place) (scopes_of (name_of c.now place).text)) }
{
    add_between(out, before(c, place), scoped(text_at(c, place)))
}
