//! The bits that stand in a netlist.

ghost use Rattle.std.specs.Prelude.{◌≡◌, ◌-◌, ◌^◌, IfOk, min};
ghost use Rattle.std.specs.List.{list_all};
ghost use Rattle.scald_base.specs.Word.{is_digit};
ghost use Rattle.scald_lex.specs.Bytes.{value_of};
ghost use Rattle.netlist_import.specs.Bits.{bit_of, bits_of, named_bit, whole};
ghost use Rattle.netlist_import.specs.Placed.{placed_of};

use crate::netlist::{Bit, Bits};
use crate::value::{Json, array_of, number_of, text_of};
use scald_base::{List, NoMemory, same_bytes};
use std::alloc::Global;

fn are_digits(bytes: &[u8]) -> bool
    ensures { result ≡ list_all is_digit bytes.now }
{
    bytes.iter().all(|byte| *byte >= b'0' && *byte <= b'9')
}

/// The number that digits spell, or 18,446,744,073,709,551,615 if it is greater.
fn value_of(digits: &[u8]) -> u64
    ensures { result ≡ min (value_of digits.now) (2 ^ 64 - 1) }
{
    let mut value = 0u64;
    for digit in digits {
        value = value
            .saturating_mul(10)
            .saturating_add(u64::from(digit.saturating_sub(b'0')));
    }
    value
}

/// The number that digits spell, if it is at most 4,294,967,295.
#[tactic(auto, unfolding(crate::specs::Bits::whole))]
pub(crate) fn whole(digits: &[u8]) -> Option<u32>
    ensures { result ≡ whole digits.now }
{
    if !are_digits(digits) {
        return None;
    }
    let value = value_of(digits);
    if value > 0xffff_ffff {
        return None;
    }
    Some(value as u32)
}

fn named_bit(name: &[u8]) -> Option<Bit>
    ensures { result ≡ named_bit name.now }
{
    if same_bytes(name, b"0") {
        Some(Bit::Zero)
    } else if same_bytes(name, b"1") {
        Some(Bit::One)
    } else if same_bytes(name, b"x") {
        Some(Bit::Undriven)
    } else if same_bytes(name, b"z") {
        Some(Bit::Undriven)
    } else {
        None
    }
}

/// The bit that a value is, if it is one.
pub(crate) fn bit_of(value: &Json) -> Option<Bit>
    ensures { result ≡ bit_of (placed_of value.now) }
{
    if let Some(digits) = number_of(value) {
        return match whole(digits.as_bytes()) {
            Some(number) => Some(Bit::Number(number)),
            None => None,
        };
    }
    match text_of(value) {
        Some(name) => named_bit(name.as_bytes()),
        None => None,
    }
}

/// The bits of an array of them, and none of another value.
pub(crate) fn bits_of(alloc: Global, value: &Json) -> Result<Bits, NoMemory>
    ensures { IfOk result (λ bits. bits ≡ bits_of (placed_of value.now)) }
{
    let Some(items) = array_of(value) else {
        return Ok(List::new(alloc));
    };
    let mut bits = List::new(alloc);
    for item in items {
        bits.push(bit_of(item).unwrap_or(Bit::Undriven))?;
    }
    Ok(bits)
}
