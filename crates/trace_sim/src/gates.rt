//! Gates: a function of the bits that all pins show.

ghost use Rattle.std.specs.Prelude.{◌≡◌, ◌≤◌, length, take};
ghost use Rattle.std.specs.List.{list_all, list_any};
ghost use Rattle.element_kinds.specs.Equation.{gate_bit, nth_bit, number_of_bits, parity as parity_of, selected as selected_of};

use element_kinds::Kind;

/// What a gate of this kind makes of the bits at its pins; no gate makes 0.
pub(crate) fn gate(kind: Kind, bits: &[bool]) -> bool
    ensures { result ≡ gate_bit kind bits.now }
{
    match kind {
        Kind::Buf => nth(bits, 0),
        Kind::And => all_ones(bits),
        Kind::Or => any_one(bits),
        Kind::Xor => parity(bits),
        Kind::Mux2 => selected(1, bits),
        Kind::Mux4 => selected(2, bits),
        Kind::Mux8 => selected(3, bits),
        _ => false,
    }
}

fn nth(bits: &[bool], i: usize) -> bool
    ensures { result ≡ nth_bit bits.now i }
{
    match bits.get(i) {
        None => false,
        Some(bit) => *bit,
    }
}

fn all_ones(bits: &[bool]) -> bool
    ensures { result ≡ list_all (λ b. b) bits.now }
{
    for bit in bits {
        if !*bit {
            return false;
        }
    }
    true
}

fn any_one(bits: &[bool]) -> bool
    ensures { result ≡ list_any (λ b. b) bits.now }
{
    for bit in bits {
        if *bit {
            return true;
        }
    }
    false
}

fn parity(bits: &[bool]) -> bool
    ensures { result ≡ parity_of bits.now }
{
    let mut odd = false;
    for bit in bits {
        if *bit {
            odd = !odd;
        }
    }
    odd
}

fn selected(selects: usize, bits: &[bool]) -> bool
    requires { selects ≤ 3 }
    ensures { result ≡ selected_of selects bits.now }
{
    nth(bits, selects + number(front(bits, selects)))
}

fn front(bits: &[bool], count: usize) -> &[bool]
    ensures { result.now ≡ take count bits.now }
{
    if count < bits.len() {
        &bits[..count]
    } else {
        bits
    }
}

// The number that up to three bits write.
fn number(bits: &[bool]) -> usize
    requires { length bits.now ≤ 3 }
    ensures { result ≡ number_of_bits bits.now }
{
    let mut number = 0;
    for bit in bits {
        number *= 2;
        if *bit {
            number += 1;
        }
    }
    number
}
