//! Writes connections.

ghost use Rattle.std.specs.Prelude.{◌≡◌, ◌++◌, IsTrue, OnOk, option_map, map, codes};
ghost use Rattle.std.specs.List.{join_by};
ghost use Rattle.drawing_tree.specs.Expression.{expression_of};
ghost use Rattle.assertion_syntax.specs.Name.{name_text};
ghost use Rattle.drawing_tree.specs.Tree.{written_range_of, item_of, term_of, connection_of};
ghost use Rattle.drawing_tree.specs.Canonical.{quoted, bounds_text, last_text, range_text, signal_text, item_text, term_text, connection_text};

use crate::Expr;
use crate::connection::{Conn, Item, Term, WrittenRange};
use crate::expression_text::add_sum;
use crate::printed::{Printed, add_joined};
use assertion_syntax::{SignalName, write_name};
use scald_base::{AssertSpec, Bytes, NoMemory};
use std::alloc::Global;

/// Puts the least and the greatest of something at the end.
pub fn add_bounds(out: &mut Bytes, min: &Expr, max: &Expr) -> Result<(), NoMemory>
    ensures { OnOk result (out.new
        ≡ out.old ++ bounds_text (expression_of min.now) (expression_of max.now)) }
{
    add_sum(out, min)?;
    out.push(b':')?;
    add_sum(out, max)
}

/// Puts the last number of a range at the end, if it has one.
fn add_last(out: &mut Bytes, last: &Option<Expr>) -> Result<(), NoMemory>
    ensures { OnOk result (out.new ≡ out.old ++ last_text (option_map expression_of last.now)) }
{
    let Some(last) = last else {
        return Ok(());
    };
    out.push(b':')?;
    add_sum(out, last)
}

/// Puts a range at the end, if there is one.
pub fn add_range(out: &mut Bytes, range: &WrittenRange) -> Result<(), NoMemory>
    ensures { OnOk result (out.new ≡ out.old ++ range_text (written_range_of range.now)) }
{
    let Some(range) = range else {
        return Ok(());
    };
    out.push(b'<')?;
    add_sum(out, &range.first)?;
    add_last(out, &range.last)?;
    out.push(b'>')
}

/// Whether a name is its base alone, as most are.
fn is_base_alone(name: &SignalName) -> bool
    ensures { IsTrue result → name_text name.now ≡ name.now.base }
{
    if name.global {
        return false;
    }
    matches!(name.spec, AssertSpec::None)
}

/// Puts a name at the end.
fn add_spelling(alloc: Global, out: &mut Bytes, name: &SignalName) -> Result<(), NoMemory>
    ensures { OnOk result (out.new ≡ out.old ++ name_text name.now) }
{
    // A base needs no memory of its own before it is put there.
    if is_base_alone(name) {
        return out.extend(name.base.as_slice());
    }
    write_name(alloc, name, out)
}

/// Puts a name in its quotes at the end.
pub fn add_name(alloc: Global, out: &mut Bytes, name: &SignalName) -> Result<(), NoMemory>
    ensures { OnOk result (out.new ≡ out.old ++ quoted (name_text name.now)) }
{
    out.push(b'"')?;
    add_spelling(alloc, out, name)?;
    out.push(b'"')
}

/// Puts a name and its range at the end.
pub fn add_signal(
    alloc: Global,
    out: &mut Bytes,
    name: &SignalName,
    range: &WrittenRange,
) -> Result<(), NoMemory>
    ensures { OnOk result (out.new ≡ out.old ++ signal_text name.now (written_range_of range.now)) }
{
    add_name(alloc, out, name)?;
    add_range(out, range)
}

fn add_item(alloc: Global, out: &mut Bytes, item: &Item) -> Result<(), NoMemory>
    ensures { OnOk result (out.new ≡ out.old ++ item_text (item_of item.now)) }
{
    match item {
        Item::Zero => out.extend(b"ZERO"),
        Item::One => out.extend(b"ONE"),
        Item::Named(name, range) => add_signal(alloc, out, name, range),
    }
}

impl Printed for Term {
    ghost text = { λ t. term_text (term_of t) };

    fn add_to(&self, alloc: Global, out: &mut Bytes) -> Result<(), NoMemory> {
        if self.minus {
            out.push(b'-')?;
        }
        add_item(alloc, out, &self.item)
    }
}

impl Printed for Conn {
    ghost text = { λ c. connection_text (connection_of c) };

    fn add_to(&self, alloc: Global, out: &mut Bytes) -> Result<(), NoMemory> {
        add_terms(alloc, out, self.terms.as_slice())?;
        if self.hold {
            out.extend(b" !H")?;
        }
        Ok(())
    }
}

#[tactic(auto, using(crate::proofs::Joined::join_by_map))]
fn add_terms(alloc: Global, out: &mut Bytes, terms: &[Term]) -> Result<(), NoMemory>
    ensures { OnOk result (out.new
        ≡ out.old ++ join_by term_text (codes " & ") (map term_of terms.now)) }
{
    add_joined(alloc, out, b" & ", terms)
}
