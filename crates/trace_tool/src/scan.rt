//! The numbers that stand in a line.

ghost use Rattle.std.specs.Prelude.{◌≡◌, ◌++◌, ◌≤◌, IfOk, OnOk, true};
ghost use Rattle.trace_tool.specs.Scan.{closed, is_digit, numbers_of, with_digit};

use scald_base::{List, NoMemory};
use std::alloc::Global;
use vector_names::Indices;

/// A number after one more digit.
fn with_digit(begun: Option<u16>, digit: u8) -> u16
    ensures { result ≡ with_digit begun digit }
{
    let digit = u16::from(digit.saturating_sub(b'0'));
    match begun {
        None => digit,
        Some(number) => number.saturating_mul(10).saturating_add(digit),
    }
}

fn is_digit(byte: u8) -> bool
    ensures { result ≡ is_digit byte }
{
    b'0' <= byte && byte <= b'9'
}

/// Puts a number that ends here at the end of those that were found.
fn close(found: &mut Indices, begun: Option<u16>) -> Result<(), NoMemory>
    ensures { OnOk result (found.new ≡ found.old ++ closed begun) }
{
    match begun {
        None => Ok(()),
        Some(number) => found.push(number),
    }
}

/// The numbers that stand in a text, in their order.
pub(crate) fn numbers(alloc: Global, text: &[u8]) -> Result<Indices, NoMemory>
    ensures { IfOk result (λ found. found ≡ numbers_of text.now) }
{
    let mut found = List::new(alloc);
    let mut begun = None;
    for byte in text {
        if is_digit(*byte) {
            begun = Some(with_digit(begun, *byte));
        } else {
            close(&mut found, begun)?;
            begun = None;
        }
    }
    close(&mut found, begun)?;
    Ok(found)
}
