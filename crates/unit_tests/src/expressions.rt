//! Values of small expressions. The least whole number of 64 bits is -9223372036854775808.

use crate::rows::expect_eq;
use drawing_tree::{Binding, Env, Expr, ExprFault, Op, eval};
use scald_base::Bytes;
use std::process::Abort;

const LEAST: i64 = -9223372036854775808;

const GREATEST: i64 = 9223372036854775807;

/// The expression `left op right`.
fn binary(rt: &(impl Abort + AllocGlobal), left: Expr, op: Op, right: Expr) -> Expr {
    Expr::Binary(op, boxed(rt, left), boxed(rt, right))
}

fn boxed(rt: &(impl Abort + AllocGlobal), expr: Expr) -> Box<Expr> {
    Box::new(rt.alloc(), expr).expect(rt, "a box")
}

fn name_of(rt: &(impl Abort + AllocGlobal), letters: &[u8]) -> Bytes {
    Bytes::of(rt.alloc(), letters).expect(rt, "a name")
}

/// N is 20, and W is the least number.
fn bindings(rt: &(impl Abort + AllocGlobal)) -> Env {
    let mut env = Env::new(rt.alloc());
    for (letter, value) in [(b'N', 20), (b'W', LEAST)] {
        let name = name_of(rt, &[letter]);
        env.push(Binding { name, value }).expect(rt, "a binding");
    }
    env
}

/// The expression `-parameter + 1 / divisor`.
fn sum_of(rt: &(impl Abort + AllocGlobal), parameter: &[u8], divisor: i64) -> Expr {
    let quotient = binary(rt, Expr::Number(1), Op::Div, Expr::Number(divisor));
    let named = boxed(rt, Expr::Param(name_of(rt, parameter)));
    binary(rt, Expr::Negate(named), Op::Add, quotient)
}

/// The name of a row, its left side, the operator, the right side, and the value.
type Row = (&'static str, i64, Op, i64, Result<i64, ExprFault>);

const OPERATORS: [Row; 10] = [
    ("a difference below 0", 7, Op::Sub, 9, Ok(-2)),
    (
        "a sum too large",
        GREATEST,
        Op::Add,
        1,
        Err(ExprFault::Overflow),
    ),
    (
        "a difference too small",
        LEAST,
        Op::Sub,
        1,
        Err(ExprFault::Overflow),
    ),
    (
        "a product too large",
        4294967296,
        Op::Mul,
        2147483648,
        Err(ExprFault::Overflow),
    ),
    ("a quotient is cut towards 0", -7, Op::Div, 2, Ok(-3)),
    ("by zero", 7, Op::Div, 0, Err(ExprFault::ZeroDivisor)),
    (
        "a quotient too large",
        LEAST,
        Op::Div,
        -1,
        Err(ExprFault::Overflow),
    ),
    ("less", -3, Op::Lt, 2, Ok(1)),
    ("not unequal", 2, Op::Ne, 2, Ok(0)),
    ("as great", 2, Op::Ge, 2, Ok(1)),
];

/// Looks at the value of a row.
fn is_valued(rt: &(impl Abort + AllocGlobal), (name, left, op, right, want): Row) {
    let expr = binary(rt, Expr::Number(left), op, Expr::Number(right));
    expect_eq(rt, name, &eval(&expr, &Env::new(rt.alloc())), &want);
}

#[test]
fn operators(rt: HostRuntime) {
    for row in &OPERATORS {
        is_valued(&rt, *row);
    }
}

/// The name of a row, the parameter, the divisor, and the value.
type SumRow = (&'static str, &'static [u8], i64, Result<i64, ExprFault>);

/// Sums whose sides both have a value, or of which the left or the right has none.
const SUMS: [SumRow; 4] = [
    ("both sides", b"N", 1, Ok(-19)),
    ("no value, before zero", b"M", 0, Err(ExprFault::Unknown)),
    ("too large, before zero", b"W", 0, Err(ExprFault::Overflow)),
    ("zero alone", b"N", 0, Err(ExprFault::ZeroDivisor)),
];

/// Looks at the value of a row's sum.
fn is_summed(rt: &(impl Abort + AllocGlobal), (name, parameter, divisor, want): SumRow) {
    let sum = sum_of(rt, parameter, divisor);
    expect_eq(rt, name, &eval(&sum, &bindings(rt)), &want);
}

#[test]
fn left_before_right(rt: HostRuntime) {
    for row in &SUMS {
        is_summed(&rt, *row);
    }
}
