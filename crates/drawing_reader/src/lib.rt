//! From the tokens of a text to the tree of its drawing.
//!
//! The layer above calls [`read_drawing`], which answers the one drawing that the tokens of a text
//! draw, or its first refusal; what both are is said by the crate `drawing_grammar`. The reader is
//! a descent over the tokens, a function for each part of the grammar; then the header, the names
//! and what is declared twice are judged. `specs/Reader` says what a cursor has before it,
//! `specs/Sketched` what reading a whole text answers.
#![tactic(auto)]

// tokens
mod cursor;
mod rest;

// what the grammar reads, from the least part to the whole text
mod cases;
mod connection;
mod constants;
mod expression;
mod macros;
mod reader;
mod signal;
mod statement;
mod use_statement;

// what is judged after the grammar
mod ascending;
mod declared;
mod double_names;
mod drawing;
mod header;
mod names;

pub use drawing::read_drawing;
