//! By how much the limits of a drawing are met: as a table of all, and as paragraphs on the worst,
//! with the changes that come to them.
//!
//! The program calls [`slack_main`] for both, the main call of `program_call` for the program
//! [`SlackProgram`]. Pictures of limits are made of its rows ([`grouped`], the worst first) and of
//! its paragraphs ([`put_paragraph`]). `specs/Words` says what words ask for, `specs/Answer` which
//! outcome an answer has and what stands in its first and its last line, and `specs/Promise` what
//! the call promises beside. The lines between them are not exact; their numbers are those of
//! `slack_rows` and `critical_paths`.
#![tactic(auto)]

// what is reported, and in which words
mod page;
mod sheet;
mod words;

// rows
mod groups;
mod keys;
mod table;

// paragraphs
mod paragraph;
mod paragraphs;
mod path_lines;

// case by case, and what goes out
mod answer;
mod body;
mod collected;
mod counts;
mod program;
mod reporter;
mod request;

// what pictures of limits are made of
pub use collected::{add_case, no_rows};
pub use groups::{Row, grouped};
pub use page::Page;
pub use paragraph::put_paragraph;
pub use program::{SlackProgram, slack_main};
pub use sheet::{Limit, Names, Sheet, Texts};
pub use table::{broken_rows, put_table};
