//! Writes expressions.

ghost use Rattle.std.specs.Prelude.{◌≡◌, ◌++◌, OnOk};
ghost use Rattle.drawing_tree.specs.Expression.{expression_of};
ghost use Rattle.drawing_tree.specs.ExpressionText.{adds, multiplies, compares, is_sum, is_product, is_comparison, is_minus, left_enclosed, right_enclosed, minus_enclosed, enclosed, op_text, condition_text, sum_text};

use crate::{Expr, Op};
use itoa::Buffer;
use scald_base::{Bytes, NoMemory};

fn adds(op: Op) -> bool
    ensures { result ≡ adds op }
{
    matches!(op, Op::Add | Op::Sub)
}

fn multiplies(op: Op) -> bool
    ensures { result ≡ multiplies op }
{
    matches!(op, Op::Mul | Op::Div)
}

fn compares(op: Op) -> bool
    ensures { result ≡ compares op }
{
    !matches!(op, Op::Add | Op::Sub | Op::Mul | Op::Div)
}

fn is_sum(e: &Expr) -> bool
    ensures { result ≡ is_sum (expression_of e.now) }
{
    match e {
        Expr::Binary(op, _, _) => adds(*op),
        _ => false,
    }
}

fn is_product(e: &Expr) -> bool
    ensures { result ≡ is_product (expression_of e.now) }
{
    match e {
        Expr::Binary(op, _, _) => multiplies(*op),
        _ => false,
    }
}

fn is_comparison(e: &Expr) -> bool
    ensures { result ≡ is_comparison (expression_of e.now) }
{
    match e {
        Expr::Binary(op, _, _) => compares(*op),
        _ => false,
    }
}

fn is_minus(e: &Expr) -> bool
    ensures { result ≡ is_minus (expression_of e.now) }
{
    matches!(e, Expr::Negate(_))
}

/// Whether the left operand of an operator stands in parentheses.
fn left_enclosed(op: Op, left: &Expr) -> bool
    ensures { result ≡ left_enclosed op (expression_of left.now) }
{
    is_comparison(left) || (multiplies(op) && is_sum(left))
}

/// Whether the right operand of an operator stands in parentheses.
fn right_enclosed(op: Op, right: &Expr) -> bool
    ensures { result ≡ right_enclosed op (expression_of right.now) }
{
    is_comparison(right)
        || ((adds(op) || multiplies(op)) && is_sum(right))
        || (multiplies(op) && is_product(right))
}

/// Whether the operand of a minus stands in parentheses.
fn minus_enclosed(operand: &Expr) -> bool
    ensures { result ≡ minus_enclosed (expression_of operand.now) }
{
    is_comparison(operand) || is_sum(operand) || is_product(operand) || is_minus(operand)
}

/// An operator with the spaces around it.
fn op_text(op: Op) -> &'static [u8]
    ensures { result.now ≡ op_text op }
{
    match op {
        Op::Add => b" + ",
        Op::Sub => b" - ",
        Op::Mul => b" * ",
        Op::Div => b" / ",
        Op::Eq => b" = ",
        Op::Ne => b" != ",
        Op::Lt => b" < ",
        Op::Le => b" <= ",
        Op::Gt => b" > ",
        Op::Ge => b" >= ",
    }
}

/// Puts an expression as a whole condition at the end.
#[cycle(expression)]
#[tactic(auto, unfolding(crate::specs::ExpressionText::condition_text))]
pub fn add_condition(out: &mut Bytes, e: &Expr) -> Result<(), NoMemory>
    ensures { OnOk result (out.new ≡ out.old ++ condition_text (expression_of e.now)) }
{
    match e {
        Expr::Number(number) => out.extend(Buffer::new().format(*number).as_bytes()),
        Expr::Param(name) => out.extend(name.as_slice()),
        Expr::Negate(operand) => {
            out.push(b'-')?;
            add_enclosed(out, operand, minus_enclosed(operand))
        }
        Expr::Binary(op, left, right) => {
            add_enclosed(out, left, left_enclosed(*op, left))?;
            out.extend(op_text(*op))?;
            add_enclosed(out, right, right_enclosed(*op, right))
        }
    }
}

/// Puts an expression at the end, in parentheses if they are asked for.
#[cycle(expression)]
fn add_enclosed(out: &mut Bytes, e: &Expr, asked: bool) -> Result<(), NoMemory>
    ensures { OnOk result (out.new
        ≡ out.old ++ enclosed asked (condition_text (expression_of e.now))) }
{
    if !asked {
        return add_condition(out, e);
    }
    out.push(b'(')?;
    add_condition(out, e)?;
    out.push(b')')
}

/// Puts an expression at the end where a sum is asked for: a comparison in parentheses.
pub fn add_sum(out: &mut Bytes, e: &Expr) -> Result<(), NoMemory>
    ensures { OnOk result (out.new ≡ out.old ++ sum_text (expression_of e.now)) }
{
    add_enclosed(out, e, is_comparison(e))
}
