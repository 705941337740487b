//! The words of an import.

ghost use Rattle.std.specs.Prelude.{◌≡◌};
ghost use Rattle.netlist_import.specs.Forms.{behind_name, command_of, no_more};

use scald_base::{Bytes, Words};

/// What an import is asked for.
#[derive(Clone, Copy)]
pub enum Command {
    /// `import`: the macros of a design.
    Design,
    /// `import cells`: a macro with nothing in it for each kind of cell.
    Cells,
}

/// The command, if no word follows those that ask for it. Such a word would have this number.
fn no_more(command: Command, place: u32, others: &[Bytes]) -> Result<Command, u32>
    ensures { result ≡ no_more command place others.now }
{
    if others.is_empty() {
        Ok(command)
    } else {
        Err(place)
    }
}

/// What the words after the name ask for.
fn behind_name(words: &[Bytes]) -> Result<Command, u32>
    ensures { result ≡ behind_name words.now }
{
    match words {
        [] => Ok(Command::Design),
        [first, others @ ..] => {
            if first.as_slice() == b"cells".as_slice() {
                no_more(Command::Cells, 2, others)
            } else {
                Err(1)
            }
        }
    }
}

/// What the words ask for. If they are unrecognised, `Err` is the number of the first with which
/// no form continues, from 0, or the count of words if one is missing.
pub(crate) fn read_words(words: &Words) -> Result<Command, u32>
    ensures { result ≡ command_of words.now }
{
    match words.as_slice() {
        [] => Err(0),
        [first, others @ ..] => {
            if first.as_slice() == b"import".as_slice() {
                behind_name(others)
            } else {
                Err(0)
            }
        }
    }
}
