//! The grammar of a drawing: what is written by it, which tokens spell it, and which drawing it
//! draws.
//!
//! `specs/Lexeme` says what the grammar takes a token for, and `specs/Grammar` has its table;
//! `specs/Written` has what is written by it and its limits, `specs/Sketch` what that stands for
//! (`specs/Absent`, what stands for a part that is left out), `specs/Draws` and `specs/Drawing`
//! which drawing comes of the tokens of a text, or why they are refused, and
//! `specs/CanonicalDraws` that a canonical text draws its drawing. One table writes both versions
//! of the language: what the second version alone has is marked by the part that it is of, and
//! `specs/Edition` says by which version a text is read. Beside this family stands a machine on a
//! stack of what is still needed (`specs/Machine`), which reads token by token. The layer above,
//! which reads a text, uses the few types that the table speaks of; [`laws`] has what holds of all
//! tokens, [`text_laws`] what holds of the bytes of every text.
#![tactic(auto)]

mod declared;
mod edition;
mod head;
mod header;
pub mod laws;
mod terminal;
pub mod text_laws;

pub use declared::Kind;
pub use edition::Edition;
pub use head::Head;
pub use header::{NumberPair, WrittenHeader};
pub use terminal::{Keyword, Terminal, symbol_terminal, word_terminal};
