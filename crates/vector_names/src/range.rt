//! Ranges of bit numbers.

ghost use Rattle.std.specs.Prelude.{◌≡◌, ◌+◌, ◌-◌, ◌≤◌, IfOk, MatchResult, Some, reverse};
ghost use Rattle.std.specs.List.{range_with_len};
ghost use Rattle.vector_names.specs.Bits.{bits_of, bit_number, range_of, IsFaultOf, IsRangeFault};

use crate::fault::VectorFault;
use scald_base::{List, NoMemory};
use std::alloc::Global;

/// Numbers of bits, each 0 to 65,535.
pub type Indices = List<u16>;

/// The most bits that a range or a connection may have.
pub(crate) const WIDEST: usize = 256;

/// The numbers from the first to the last, upwards or downwards. `BadRange` comes exactly if one
/// of them is outside 0 to 65,535, or more than 256 come.
pub fn bits_of(alloc: Global, first: i64, last: i64) -> Result<Indices, VectorFault>
    ensures { MatchResult result (λ numbers. bits_of first last ≡ Some numbers)
        (IsRangeFault first last) }
{
    match (bit_number(first), bit_number(last)) {
        (Some(first), Some(last)) => numbers(alloc, first, last),
        _ => Err(VectorFault::BadRange),
    }
}

/// The number as that of a bit, if it is one.
fn bit_number(value: i64) -> Option<u16>
    ensures { result ≡ bit_number value }
{
    u16::try_from(value).ok()
}

/// The numbers from one to another, if they are not too many.
fn numbers(alloc: Global, first: u16, last: u16) -> Result<Indices, VectorFault>
    ensures { MatchResult result (λ numbers.
        range_of (Some first) (Some last) ≡ Some numbers)
        (IsFaultOf (range_of (Some first) (Some last))) }
{
    if first.abs_diff(last) as usize >= WIDEST {
        return Err(VectorFault::BadRange);
    }
    if first <= last {
        Ok(upwards(alloc, first, last)?)
    } else {
        Ok(downwards(alloc, first, last)?)
    }
}

fn upwards(alloc: Global, first: u16, last: u16) -> Result<Indices, NoMemory>
    requires { first ≤ last }
    ensures { IfOk result (λ numbers. numbers ≡ range_with_len first (last - first + 1)) }
{
    let mut numbers = List::new(alloc);
    for further in 0..last - first {
        numbers.push(first + further)?;
    }
    numbers.push(last)?;
    Ok(numbers)
}

fn downwards(alloc: Global, first: u16, last: u16) -> Result<Indices, NoMemory>
    requires { last ≤ first }
    ensures { IfOk result (λ numbers. numbers ≡ reverse (range_with_len last (first - last + 1))) }
{
    let mut numbers = List::new(alloc);
    for further in 0..first - last {
        numbers.push(first - further)?;
    }
    numbers.push(last)?;
    Ok(numbers)
}
