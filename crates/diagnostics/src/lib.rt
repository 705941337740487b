//! What is said of a text that is refused, and of words that are of no form.
//!
//! The program says on standard error what [`explain_refusal`] gives. All of it is read off the
//! text, which a [`KeptSource`] keeps, and its tokens. Standard output and the status do not depend
//! on it, so nothing is promised of these lines but that each call ends: `checks/refusals.sh` has
//! what is said.
#![tactic(auto)]

// the text, its tokens and statements, and lines
mod kept;
mod lines;
mod near;
mod statement;
mod text;

// what is said of a refusal, of words and of sections
mod bits;
mod call;
mod case;
mod explain;
mod first;
mod foreign;
mod header;
mod known;
mod naming;
mod section;
mod sentence;
mod syntax;
mod token;
mod uses;

pub use call::{explain_words, sets_limit};
pub use explain::explain_refusal;
pub use kept::KeptSource;
pub use lines::{Lines, Part};
pub use section::{add_section, explain_notes, explain_section, explain_undriven, newlines};
pub use text::{Text, part, place_of_name, place_of_word, tokens_of};
