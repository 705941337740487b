//! The tree of a drawing, its expressions, and its canonical text.
//!
//! A drawing has constants, macros, statements and cases; statements put primitives and macros to
//! use, and connections say on which bits of which nets. `print_drawing` writes a drawing
//! canonically (`specs/Canonical`, `specs/ExpressionText`), and `eval` gives the value of an
//! expression under the values of its parameters, or its first fault (`specs/Value`). `specs/Tree`
//! sees a drawing as a tree of what it holds, `specs/Places` says when two are alike but for the
//! places of their parts, and `specs/WellFormed` which drawings are well formed, as each one is
//! that a text draws.
#![tactic(auto)]

// expressions
mod environment;
mod evaluation;
mod expr;

// the tree
mod connection;
mod drawing;
mod statement;

// its text
mod connection_text;
mod drawing_text;
mod expression_text;
mod printed;
mod statement_text;

pub use connection::{Conn, Conns, Item, RangeExpr, Term, Terms, WrittenRange};
pub use drawing::{
    CaseEntries, CaseEntry, CaseStmt, CaseStmts, Defaults, Drawing, Formal, Formals, MacroDef,
    MacroDefs, Places,
};
pub use drawing_text::print_drawing;
pub use environment::{Binding, Env};
pub use evaluation::{ExprFault, eval};
pub use expr::{Expr, Op};
pub use statement::{Assign, Assigns, ForStmt, IfStmt, Stmt, Stmts, UseStmt, WireStmt};
