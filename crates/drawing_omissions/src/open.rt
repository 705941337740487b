//! Whether some bits of the nets that cases name are in no case.

ghost use Rattle.std.specs.Prelude.{◌≡◌, Bool, IfOk, not, map};
ghost use Rattle.std.specs.List.{list_any};
ghost use Rattle.flat_circuit.specs.declared.case.CaseValue.{CaseValue};
ghost use Rattle.drawing_omissions.specs.Same.{are_in as spec_are_in, firsts_same, is_in as spec_is_in};
ghost use Rattle.drawing_omissions.specs.Open.{combinations, is_covered as spec_is_covered, is_open as spec_is_open, lacks_some as spec_lacks_some, with_bit as spec_with_bit};

use crate::named::named;
use crate::parts::lacks_more;
use flat_circuit::{Case, CaseValue};
use scald_base::NoMemory;
use std::alloc::Global;

/// The most nets whose combinations are looked at one by one.
const MOST_COMBINED: usize = 12;

/// Whether a bit is among these.
fn is_in(bits: &[CaseValue], value: CaseValue) -> bool
    ensures { result ≡ spec_is_in bits.now value }
{
    for bit in bits {
        if bit.net == value.net && bit.one == value.one {
            return true;
        }
    }
    false
}

/// Whether all bits of a case are among these.
fn are_in(bits: &[CaseValue], values: &[CaseValue]) -> bool
    ensures { result ≡ spec_are_in bits.now values.now }
{
    for value in values {
        if !is_in(bits, *value) {
            return false;
        }
    }
    true
}

/// Whether these bits are those of a case.
fn is_covered(cases: &[Case], bits: &[CaseValue]) -> bool
    ensures { result ≡ spec_is_covered cases.now bits.now }
{
    for case in cases {
        if are_in(bits, case.as_slice()) {
            return true;
        }
    }
    false
}

/// These bits, and that of a net more.
fn with_bit(
    alloc: Global,
    bits: &[CaseValue],
    net: u32,
    one: bool,
) -> Result<Vec<CaseValue>, NoMemory>
    ensures { IfOk result (λ more. more.items ≡ spec_with_bit bits.now net one) }
{
    let mut more = Vec::from_slice(alloc, bits)?;
    more.push(CaseValue { net, one })?;
    Ok(more)
}

/// Whether with these bits some bits of other nets are in no case.
fn lacks_with(
    alloc: Global,
    cases: &[Case],
    bits: &[CaseValue],
    nets: &[u32],
) -> Result<bool, NoMemory>
    ensures { IfOk result (λ lacks. lacks ≡ list_any
        (λ all. not (spec_is_covered cases.now all)) (combinations bits.now nets.now)) }
{
    let [net, others @ ..] = nets else {
        return Ok(!is_covered(cases, bits));
    };
    let zero = with_bit(alloc, bits, *net, false)?;
    if lacks_with(alloc, cases, &zero, others)? {
        return Ok(true);
    }
    let one = with_bit(alloc, bits, *net, true)?;
    lacks_with(alloc, cases, &one, others)
}

/// Whether some combination of bits of the nets that the cases name is in no case: looked for one
/// by one if there are at most 12 nets. With more it is whether different cases, of which each
/// halves what it covers with each entry, can cover all. `firsts` are those of `firsts_same`. Of no
/// case at all it is not. `NoMemory` comes if memory runs out.
pub fn is_open(alloc: Global, cases: &[Case], firsts: &[Option<usize>]) -> Result<bool, NoMemory>
    requires { firsts.now ≡ firsts_same cases.now }
    ensures { IfOk result (λ is. is ≡ spec_is_open cases.now) }
{
    if cases.is_empty() {
        return Ok(false);
    }
    let nets = named(alloc, cases)?;
    if nets.len() > MOST_COMBINED {
        return Ok(lacks_more(cases, firsts));
    }
    lacks_with(alloc, cases, &[], nets.as_slice())
}
