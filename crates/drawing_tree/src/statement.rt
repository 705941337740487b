//! Statements.

use crate::Expr;
use crate::connection::{Conns, WrittenRange};
use assertion_syntax::SignalName;
use scald_base::{Bytes, List, Place};

/// A parameter or a constant, and its value.
#[derive(Drop, PartialEq, Eq, Debug)]
pub struct Assign {
    pub name: Bytes,
    pub value: Expr,
}

/// The parameters that a use gives, or the constants of a drawing.
pub type Assigns = List<Assign>;

/// A primitive or a macro put to use, with the place of its label.
#[derive(Drop, PartialEq, Eq, Debug)]
pub struct UseStmt {
    pub label: Bytes,
    pub kind: Bytes,
    /// The least and the greatest delay, in ticks; if `fall` is there, those of rises alone.
    pub delay: Option<(Expr, Expr)>,
    /// The least and the greatest delay of falls, in ticks, if two delays are written. Without a
    /// `delay`, which no text draws, it counts as not there.
    pub fall: Option<Box<(Expr, Expr)>>,
    pub params: Assigns,
    pub ins: Conns,
    pub outs: Conns,
    pub place: Place,
}

/// The wire bounds of a net's bits, in ticks, with the place of the word WIRE.
#[derive(Drop, PartialEq, Eq, Debug)]
pub struct WireStmt {
    pub name: SignalName,
    pub range: WrittenRange,
    pub min: Expr,
    pub max: Expr,
    pub place: Place,
}

/// Statements.
pub type Stmts = Vec<Stmt>;

/// Statements for a test that is not 0, and if ELSE is written those for one that is, with the
/// place of the word IF.
#[cycle(stmt)]
#[derive(Drop, PartialEq, Eq, Debug)]
pub struct IfStmt {
    pub test: Expr,
    pub yes: Stmts,
    pub no: Option<Stmts>,
    pub place: Place,
}

/// Statements once for each value of a variable, from the first to the last, upwards, with the
/// place of the word FOR.
#[cycle(stmt)]
#[derive(Drop, PartialEq, Eq, Debug)]
pub struct ForStmt {
    pub var: Bytes,
    pub first: Expr,
    pub last: Expr,
    pub body: Stmts,
    pub place: Place,
}

/// A statement.
#[cycle(stmt)]
#[derive(Drop, PartialEq, Eq, Debug)]
pub enum Stmt {
    Use(UseStmt),
    Wire(WireStmt),
    If(IfStmt),
    For(ForStmt),
}
