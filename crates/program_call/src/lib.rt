//! The main call of a program: words and bytes in, an outcome and bytes out.
//!
//! A program is a type that implements [`Program`]. [`main_call`] reads its text, has the reply
//! made and writes it; `specs/Program` says what is answered, and `specs/Call` what every call
//! promises, whatever the devices do. A program that its name alone asks for is [`Wordless`] over
//! what replies to its text ([`Replier`], `specs/Wordless`, `specs/Promise`).
//!
//! Most programs report on each case ([`Reporter`]): [`reply_to`] reads the text, lets its base and
//! each of its cases settle, and gives what is reported of them, or the line of a refusal or of a
//! net that does not settle. `specs/Answer` says which reply a text has.
#![tactic(auto)]

// the call
mod call;
mod program;
mod reply;

// the reply to a text whose circuit is evaluated
mod cases;
mod ends;
mod outcome;
mod reporter;
mod text_reply;

// words
mod numbers;
mod wordless;
mod words;

pub use call::main_call;
pub use drawing_omissions::Omissions;
pub use ends::{ended, refused};
pub use numbers::{number_in, rounds_of};
pub use outcome::verdict;
pub use program::Program;
pub use reply::Reply;
pub use reporter::Reporter;
pub use text_reply::reply_to;
pub use wordless::{Replier, Wordless};
pub use words::{Request, read_name};
