//! The words that a program is called with.

ghost use Rattle.std.specs.Prelude.{◌≡◌, IfOk, drop, map, string_bytes};
ghost use Rattle.std.specs.Vec.Iter.{into_iter_items};

use crate::bytes::Bytes;
use crate::list::{List, NoMemory};
use std::alloc::Global;
use std::env::Args;

/// The words after the program's name.
pub type Words = List<Bytes>;

/// The words of a program that is called with these arguments, of which the first is its name: all
/// others, byte for byte, empty ones too.
pub fn words_of(alloc: Global, arguments: Args) -> Result<Words, NoMemory>
    ensures { IfOk result (λ words. words ≡ map string_bytes (drop 1 (into_iter_items arguments))) }
{
    let mut words = Words::new(alloc);
    let mut arguments = arguments;
    let _name = arguments.next();
    for argument in arguments {
        words.push(Bytes::of(alloc, argument.as_bytes())?)?;
    }
    Ok(words)
}
