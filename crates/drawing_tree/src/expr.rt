//! Expressions as they stand in a tree.

use scald_base::Bytes;

/// What stands between two operands.
#[derive(Clone, Copy, PartialEq, Eq, Debug)]
pub enum Op {
    Add,
    Sub,
    Mul,
    Div,
    /// `=`
    Eq,
    /// `!=`
    Ne,
    /// `<`
    Lt,
    /// `<=`
    Le,
    /// `>`
    Gt,
    /// `>=`
    Ge,
}

/// An expression. Two are equal if they hold the same, wherever they lie in memory.
#[derive(Drop, PartialEq, Eq, Debug)]
pub enum Expr {
    Number(i64),
    /// A parameter, by its name.
    Param(Bytes),
    /// A minus before its operand.
    Negate(Box<Expr>),
    Binary(Op, Box<Expr>, Box<Expr>),
}
