//! The tokens of a text: words, numbers, names in quotes, arrows and symbols, each with its place.
//!
//! The layer above calls `packed_tokens`, or `tokens` if they are few. `specs/Tokens` says which
//! tokens a text is, and why and where it is refused; `specs/Piece` which piece a text begins with,
//! `specs/Place` how places count, and `specs/Laws` what holds of every text, as `laws` proves it.
//! `specs/Apart` says the same tokens and refusals without pieces, by what lies between tokens
//! (`specs/Between`) and by the causes of refusal (`specs/Causes`).
#![tactic(auto)]

mod bytes;
mod laws;
mod packed;
mod piece;
mod scan;
mod token;

pub use laws::{
    bad_token_at_first_cause, not_both, one_list, one_refusal, refusals_are_placed,
    tokens_are_apart, tokens_are_longest, tokens_are_placed, tokens_or_refusal, tokens_stand,
};
pub use packed::{PackedList, PackedToken};
pub use scan::{packed_tokens, tokens};
pub use token::{Token, TokenKind, TokenList};
