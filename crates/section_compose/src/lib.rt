//! Several drawings verified each by itself, and joined: a machine is larger than a drawing, and is
//! drawn by several people.
//!
//! The program calls [`sections_main`]. A net with a global name is one net in all sections, and
//! where it crosses from the section that drives it into another it is known there by its assertion
//! alone. `specs/Cut` says which sections a text has, `specs/Rules` which rule they break first,
//! and `specs/Joined` what it is worth that they break none; `specs/Evaluated` how one is
//! evaluated, and `specs/Answer` what is answered. `specs/Whole` says what the sections are
//! together: the whole circuit, its runs, and what never breaks in them if no section has a
//! fault.
#![tactic(auto)]

// what comes in
mod cut;
mod section;

// what is asked of it
mod globals;
mod rules;

// what is made of sections
mod evaluated;
mod report;

// what is said on standard error
mod beside;
mod broken;

// what goes out
mod answer;
mod outcome;
mod program;
mod tool;

pub use beside::{list_crossings, piece_of_section};
pub use broken::explain_broken;
pub use cut::{Piece, sections_of};
pub use globals::{crosses, crosses_into};
pub use outcome::{SectionsOutcome, sections_status};
pub use rules::{Broken, Rule, first_broken};
pub use section::{Section, read_section};
pub use tool::sections_main;
