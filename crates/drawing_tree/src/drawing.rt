//! A whole drawing.

use crate::connection::WrittenRange;
use crate::statement::{Assign, Assigns, Stmts};
use assertion_syntax::SignalName;
use scald_base::{Bytes, Header, List, Place};

/// The parameters of a macro, with the values that they have if a use gives none.
pub type Defaults = List<Assign>;

/// A formal of a macro: its bits, or if no range is written bit 0.
#[derive(Drop, PartialEq, Eq, Debug)]
pub struct Formal {
    pub base: Bytes,
    pub range: WrittenRange,
}

/// Formals of a macro.
pub type Formals = List<Formal>;

/// A macro, with the place of its name.
#[derive(Drop, PartialEq, Eq, Debug)]
pub struct MacroDef {
    pub name: Bytes,
    pub params: Defaults,
    pub ins: Formals,
    pub outs: Formals,
    pub body: Stmts,
    pub place: Place,
}

/// The macros of a drawing.
pub type MacroDefs = List<MacroDef>;

/// A bit of a net and the value that a case gives it, with the place of the name.
#[derive(Drop, PartialEq, Eq, Debug)]
pub struct CaseEntry {
    pub name: SignalName,
    pub bit: u32,
    pub value: u32,
    pub place: Place,
}

/// The entries of a case.
pub type CaseEntries = List<CaseEntry>;

/// A case, with the place of the word CASE.
#[derive(Drop, PartialEq, Eq, Debug)]
pub struct CaseStmt {
    pub entries: CaseEntries,
    pub place: Place,
}

/// The cases of a drawing.
pub type CaseStmts = List<CaseStmt>;

/// Places of tokens.
pub type Places = List<Place>;

/// A drawing.
#[derive(Drop, PartialEq, Eq, Debug)]
pub struct Drawing {
    /// The version of the language.
    pub version: u8,
    pub header: Header,
    /// The constants; version 1 of the language has none.
    pub consts: Assigns,
    /// Of each constant the place of its word CONST.
    pub const_places: Places,
    pub macros: MacroDefs,
    pub name: Bytes,
    pub body: Stmts,
    pub cases: CaseStmts,
}
