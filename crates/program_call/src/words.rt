//! The words of a program that is asked for by its name alone.

ghost use Rattle.std.specs.Prelude.{◌≡◌};
ghost use Rattle.program_call.specs.Wordless.{by_name, no_more};

use scald_base::{Bytes, Words};

/// What a program without further words may be asked for.
#[derive(Clone, Copy)]
pub enum Request {
    /// Its reply to the text that it reads.
    Reply,
}

// What the words after the name ask for: there should be none.
fn no_more(words: &[Bytes]) -> Result<Request, u32>
    ensures { result ≡ no_more words.now }
{
    if words.is_empty() {
        Ok(Request::Reply)
    } else {
        Err(1)
    }
}

/// What the words ask the program of this name for. `Err` is 0 if the first word is not the name
/// or there is none, and 1 if a word follows it.
pub fn read_name(name: &[u8], words: &Words) -> Result<Request, u32>
    ensures { result ≡ by_name name.now words.now }
{
    match words.as_slice() {
        [] => Err(0),
        [first, others @ ..] => {
            if first.as_slice() == name {
                no_more(others)
            } else {
                Err(0)
            }
        }
    }
}
