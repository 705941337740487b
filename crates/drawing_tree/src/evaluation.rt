//! The value of an expression.

ghost use Rattle.std.specs.Prelude.{◌≡◌};
ghost use Rattle.drawing_tree.specs.Expression.{expression_of};
ghost use Rattle.drawing_tree.specs.Value.{applied, value, value_in};

use crate::environment::Env;
use crate::expr::{Expr, Op};
use thiserror::Error;

/// Why an expression has no value.
#[derive(Clone, Copy, PartialEq, Eq, Debug, Error)]
pub enum ExprFault {
    /// A parameter has no value.
    #[error("a parameter has no value")]
    Unknown,
    /// A result leaves 64 signed bits.
    #[error("a result leaves 64 signed bits")]
    Overflow,
    /// A divisor is 0.
    #[error("a divisor is zero")]
    ZeroDivisor,
}

/// The value of an expression if its parameters have these values, or the first fault, left
/// before right: `Unknown` exactly if that is a parameter without a value, `Overflow` if it
/// is a result that leaves 64 signed bits, and `ZeroDivisor` if it is a divisor 0. Division goes
/// towards zero, and a comparison gives 1 or 0. It needs no allocation.
pub fn eval(e: &Expr, env: &Env) -> Result<i64, ExprFault>
    ensures { result ≡ value env.now (expression_of e.now) }
{
    match e {
        Expr::Number(number) => Ok(*number),
        Expr::Param(name) => value_of(name.as_slice(), env),
        Expr::Negate(operand) => {
            let operand = eval(operand, env)?;
            operand.checked_neg().ok_or(ExprFault::Overflow)
        }
        Expr::Binary(op, left, right) => {
            let left = eval(left, env)?;
            let right = eval(right, env)?;
            apply(*op, left, right)
        }
    }
}

/// The value of a parameter.
fn value_of(name: &[u8], env: &Env) -> Result<i64, ExprFault>
    ensures { result ≡ value_in env.now name.now }
{
    for binding in env.as_slice() {
        if binding.name.as_slice() == name {
            return Ok(binding.value);
        }
    }
    Err(ExprFault::Unknown)
}

/// What an operator gives of two values.
fn apply(op: Op, left: i64, right: i64) -> Result<i64, ExprFault>
    ensures { result ≡ applied op left right }
{
    match op {
        Op::Add => left.checked_add(right).ok_or(ExprFault::Overflow),
        Op::Sub => left.checked_sub(right).ok_or(ExprFault::Overflow),
        Op::Mul => left.checked_mul(right).ok_or(ExprFault::Overflow),
        Op::Div if right == 0 => Err(ExprFault::ZeroDivisor),
        Op::Div => left.checked_div(right).ok_or(ExprFault::Overflow),
        Op::Eq => Ok(i64::from(left == right)),
        Op::Ne => Ok(i64::from(left != right)),
        Op::Lt => Ok(i64::from(left < right)),
        Op::Le => Ok(i64::from(left <= right)),
        Op::Gt => Ok(i64::from(left > right)),
        Op::Ge => Ok(i64::from(left >= right)),
    }
}
