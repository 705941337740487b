//! Writes statements.

ghost use Rattle.std.specs.Prelude.{◌≡◌, ◌++◌, OnOk, IfOk, option_map, map, codes};
ghost use Rattle.drawing_tree.specs.Expression.{expression_of};
ghost use Rattle.drawing_tree.specs.Tree.{assignment_of, connection_of, both_of, written_fall_of, use_of, wire_of, statement_of, statements_of, if_of, for_of};
ghost use Rattle.drawing_tree.specs.ExpressionText.{condition_text, sum_text};
ghost use Rattle.drawing_tree.specs.Canonical.{bounds_text, for_text, assignment_text, params_text, fall_text, delay_text, connection_text, inputs_text, outputs_text, use_head, use_text, wire_text, line, deeper, statement_lines, statements_lines};

use crate::Expr;
use crate::connection::Conn;
use crate::connection_text::{add_bounds, add_signal};
use crate::expression_text::{add_condition, add_sum};
use crate::printed::{Printed, add_bracketed, add_bracketed_if_some};
use crate::statement::{Assign, ForStmt, IfStmt, Stmt, UseStmt, WireStmt};
use scald_base::{Bytes, NoMemory};
use std::alloc::Global;

impl Printed for Assign {
    ghost text = { λ a. assignment_text (assignment_of a) };

    fn add_to(&self, _alloc: Global, out: &mut Bytes) -> Result<(), NoMemory> {
        out.extend(self.name.as_slice())?;
        out.push(b'=')?;
        add_sum(out, &self.value)
    }
}

/// Puts parameters in their braces at the end, if there are some.
#[tactic(auto, using(crate::proofs::Joined::bracketed_if_some_map))]
pub fn add_params(alloc: Global, out: &mut Bytes, params: &[Assign]) -> Result<(), NoMemory>
    ensures { OnOk result (out.new ≡ out.old ++ params_text (map assignment_of params.now)) }
{
    add_bracketed_if_some(alloc, out, b" {", b"}", params)
}

/// Puts a comma and the bounds of a delay at the end.
fn add_more_bounds(out: &mut Bytes, bounds: &(Expr, Expr)) -> Result<(), NoMemory>
    ensures { OnOk result (out.new ≡ out.old
        ++ (codes ", " ++ bounds_text (expression_of bounds.now.0) (expression_of bounds.now.1))) }
{
    out.extend(b", ")?;
    add_bounds(out, &bounds.0, &bounds.1)
}

/// Puts a comma and the delay of falls at the end, if there is one.
fn add_fall(out: &mut Bytes, fall: &Option<Box<(Expr, Expr)>>) -> Result<(), NoMemory>
    ensures { OnOk result (out.new ≡ out.old ++ fall_text (written_fall_of fall.now)) }
{
    match fall {
        None => Ok(()),
        Some(bounds) => add_more_bounds(out, bounds),
    }
}

/// Puts the delay, or the delays, of a use in brackets at the end, if there is one.
fn add_delay(
    out: &mut Bytes,
    delay: &Option<(Expr, Expr)>,
    fall: &Option<Box<(Expr, Expr)>>,
) -> Result<(), NoMemory>
    ensures { OnOk result
        (out.new ≡ out.old ++ delay_text (option_map both_of delay.now)
        (written_fall_of fall.now)) }
{
    let Some(delay) = delay else {
        return Ok(());
    };
    out.extend(b" [")?;
    add_bounds(out, &delay.0, &delay.1)?;
    add_fall(out, fall)?;
    out.push(b']')
}

/// Puts the inputs of a use in their parentheses at the end.
#[tactic(auto, using(crate::proofs::Joined::bracketed_map))]
fn add_ins(alloc: Global, out: &mut Bytes, ins: &[Conn]) -> Result<(), NoMemory>
    ensures { OnOk result (out.new
        ≡ out.old ++ inputs_text connection_text (map connection_of ins.now)) }
{
    add_bracketed(alloc, out, b" (", b")", ins)
}

/// Appends an arrow and the outputs of a use, if there are some.
#[tactic(auto, using(crate::proofs::Joined::bracketed_if_some_map))]
fn add_outs(alloc: Global, out: &mut Bytes, outs: &[Conn]) -> Result<(), NoMemory>
    ensures { OnOk result (out.new
        ≡ out.old ++ outputs_text connection_text (map connection_of outs.now)) }
{
    add_bracketed_if_some(alloc, out, b" -> (", b")", outs)
}

/// Puts what stands before the connections of a use at the end.
#[tactic(auto, unfolding(crate::specs::Canonical::use_head))]
fn add_head(alloc: Global, out: &mut Bytes, u: &UseStmt) -> Result<(), NoMemory>
    ensures { OnOk result (out.new ≡ out.old ++ use_head (use_of u.now)) }
{
    out.extend(u.label.as_slice())?;
    out.extend(b" : ")?;
    out.extend(u.kind.as_slice())?;
    add_delay(out, &u.delay, &u.fall)?;
    add_params(alloc, out, u.params.as_slice())
}

#[tactic(auto, unfolding(crate::specs::Canonical::use_text))]
fn add_use(alloc: Global, out: &mut Bytes, u: &UseStmt) -> Result<(), NoMemory>
    ensures { OnOk result (out.new ≡ out.old ++ use_text (use_of u.now)) }
{
    add_head(alloc, out, u)?;
    add_ins(alloc, out, u.ins.as_slice())?;
    add_outs(alloc, out, u.outs.as_slice())?;
    out.push(b';')
}

#[tactic(auto, unfolding(crate::specs::Canonical::wire_text))]
fn add_wire(alloc: Global, out: &mut Bytes, wire: &WireStmt) -> Result<(), NoMemory>
    ensures { OnOk result (out.new ≡ out.old ++ wire_text (wire_of wire.now)) }
{
    out.extend(b"WIRE ")?;
    add_signal(alloc, out, &wire.name, &wire.range)?;
    out.push(b' ')?;
    add_bounds(out, &wire.min, &wire.max)?;
    out.push(b';')
}

/// Appends a line, after its margin.
pub fn add_line(out: &mut Bytes, margin: &[u8], text: &[u8]) -> Result<(), NoMemory>
    ensures { OnOk result (out.new ≡ out.old ++ line margin.now text.now) }
{
    out.extend(margin)?;
    out.extend(text)?;
    out.push(b'\n')
}

fn add_use_line(alloc: Global, out: &mut Bytes, margin: &[u8], u: &UseStmt) -> Result<(), NoMemory>
    ensures { OnOk result (out.new ≡ out.old ++ line margin.now (use_text (use_of u.now))) }
{
    out.extend(margin)?;
    add_use(alloc, out, u)?;
    out.push(b'\n')
}

fn add_wire_line(
    alloc: Global,
    out: &mut Bytes,
    margin: &[u8],
    wire: &WireStmt,
) -> Result<(), NoMemory>
    ensures { OnOk result (out.new ≡ out.old ++ line margin.now (wire_text (wire_of wire.now))) }
{
    out.extend(margin)?;
    add_wire(alloc, out, wire)?;
    out.push(b'\n')
}

/// Puts the first line of an IF at the end.
fn add_if_line(out: &mut Bytes, margin: &[u8], test: &Expr) -> Result<(), NoMemory>
    ensures { OnOk result (out.new ≡ out.old ++ line margin.now
        (codes "IF " ++ condition_text (expression_of test.now) ++ codes " THEN")) }
{
    out.extend(margin)?;
    out.extend(b"IF ")?;
    add_condition(out, test)?;
    out.extend(b" THEN\n")
}

/// Puts the values that the variable of a FOR takes at the end.
fn add_for_values(out: &mut Bytes, first: &Expr, last: &Expr) -> Result<(), NoMemory>
    ensures { OnOk result (out.new ≡ out.old
        ++ (sum_text (expression_of first.now) ++ codes " TO " ++ sum_text (expression_of last.now)
        ++ codes " DO")) }
{
    add_sum(out, first)?;
    out.extend(b" TO ")?;
    add_sum(out, last)?;
    out.extend(b" DO")
}

/// Puts what stands in the first line of a FOR at the end.
fn add_for_head(out: &mut Bytes, repeated: &ForStmt) -> Result<(), NoMemory>
    ensures { OnOk result (out.new ≡ out.old
        ++ for_text repeated.now.var (expression_of repeated.now.first)
        (expression_of repeated.now.last)) }
{
    out.extend(b"FOR ")?;
    out.extend(repeated.var.as_slice())?;
    out.extend(b" = ")?;
    add_for_values(out, &repeated.first, &repeated.last)
}

/// Puts the first line of a FOR at the end.
fn add_for_line(out: &mut Bytes, margin: &[u8], repeated: &ForStmt) -> Result<(), NoMemory>
    ensures { OnOk result (out.new ≡ out.old ++ line margin.now
        (for_text repeated.now.var (expression_of repeated.now.first)
        (expression_of repeated.now.last))) }
{
    out.extend(margin)?;
    add_for_head(out, repeated)?;
    out.push(b'\n')
}

/// The margin of what an IF or a FOR holds.
fn deeper(alloc: Global, margin: &[u8]) -> Result<Bytes, NoMemory>
    ensures { IfOk result (λ inside. inside ≡ deeper margin.now) }
{
    let mut inside = Bytes::new(alloc);
    inside.extend(margin)?;
    inside.extend(b"  ")?;
    Ok(inside)
}

/// Appends the lines of a statement, each after the margin.
#[cycle(statement)]
#[tactic(auto, using(crate::proofs::Views::views), unfolding(crate::specs::Canonical::statement_lines))]
fn add_statement(
    alloc: Global,
    out: &mut Bytes,
    margin: &[u8],
    statement: &Stmt,
) -> Result<(), NoMemory>
    ensures { OnOk result (out.new
        ≡ out.old ++ statement_lines margin.now (statement_of statement.now)) }
{
    match statement {
        Stmt::Use(u) => add_use_line(alloc, out, margin, u),
        Stmt::Wire(wire) => add_wire_line(alloc, out, margin, wire),
        Stmt::If(choice) => add_if(alloc, out, margin, choice),
        Stmt::For(repeated) => add_for(alloc, out, margin, repeated),
    }
}

/// Appends the lines of an IF, each after the margin, and what it holds two spaces further in.
#[cycle(statement)]
#[tactic(auto, using(crate::proofs::Views::view_if), unfolding(crate::specs::Canonical::statement_lines))]
fn add_if(alloc: Global, out: &mut Bytes, margin: &[u8], choice: &IfStmt) -> Result<(), NoMemory>
    ensures { OnOk result (out.new ≡ out.old ++ statement_lines margin.now (if_of choice.now)) }
{
    let inside = deeper(alloc, margin)?;
    add_if_line(out, margin, &choice.test)?;
    add_statements(alloc, out, inside.as_slice(), choice.yes.as_slice())?;
    let Some(otherwise) = &choice.no else {
        return add_line(out, margin, b"END;");
    };
    add_line(out, margin, b"ELSE")?;
    add_statements(alloc, out, inside.as_slice(), otherwise.as_slice())?;
    add_line(out, margin, b"END;")
}

/// Appends the lines of a FOR, each after the margin, and what it holds two spaces further in.
#[cycle(statement)]
#[tactic(auto, using(crate::proofs::Views::view_for), unfolding(crate::specs::Canonical::statement_lines))]
fn add_for(
    alloc: Global,
    out: &mut Bytes,
    margin: &[u8],
    repeated: &ForStmt,
) -> Result<(), NoMemory>
    ensures { OnOk result (out.new ≡ out.old ++ statement_lines margin.now (for_of repeated.now)) }
{
    let inside = deeper(alloc, margin)?;
    add_for_line(out, margin, repeated)?;
    add_statements(alloc, out, inside.as_slice(), repeated.body.as_slice())?;
    add_line(out, margin, b"END;")
}

/// Appends the lines of statements, each after the margin.
#[cycle(statement)]
#[tactic(auto, unfolding(crate::specs::Canonical::statements_lines))]
pub fn add_statements(
    alloc: Global,
    out: &mut Bytes,
    margin: &[u8],
    statements: &[Stmt],
) -> Result<(), NoMemory>
    ensures { OnOk result (out.new
        ≡ out.old ++ statements_lines margin.now (statements_of statements.now)) }
{
    'statements: for statement in statements {
        add_statement(alloc, out, margin, statement)?;
    }
    Ok(())
}
