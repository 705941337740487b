//! The cases of a drawing, and the nets of a circuit that they set.

ghost use Rattle.std.specs.Prelude.{◌≡◌, ◌++◌, [], IfOk, OnOk, codes, if◌then◌else◌, length, map};
ghost use Rattle.drawing_omissions.specs.CaseBits.{bit_of, bits_of, case_values as spec_case_values, listed, value_of as spec_value_of, values_of as spec_values_of};
ghost use Rattle.drawing_omissions.specs.Same.{AreWithin};

use drawing_tree::{CaseEntry, CaseStmt, Drawing};
use flat_circuit::{Case, CaseList, CaseValue, Circuit};
use scald_base::{Bytes, List, NoMemory};
use std::alloc::Global;

/// A bit that a case gives to a net.
#[derive(Drop)]
pub struct CaseBit {
    /// The name of the net, path and base.
    pub name: Bytes,
    /// The number of the net's bit.
    pub bit: u32,
    /// The bit that it gets.
    pub one: bool,
}

/// The cases of a drawing.
pub type CaseBits = List<List<CaseBit>>;

/// Begins the name of a net of the drawing's own scope, or of a global one.
fn add_head(name: &mut Bytes, is_global: bool) -> Result<(), NoMemory>
    ensures { OnOk result (name.new ≡ name.old ++ (if is_global then codes "/" else [])) }
{
    if is_global {
        name.extend(b"/".as_slice())?;
    }
    Ok(())
}

/// What an entry names, and the bit that it gives.
fn bit_of(alloc: Global, entry: &CaseEntry) -> Result<CaseBit, NoMemory>
    ensures { IfOk result (λ bit. bit ≡ bit_of entry.now) }
{
    let mut name = Bytes::new(alloc);
    add_head(&mut name, entry.name.global)?;
    name.extend(entry.name.base.as_slice())?;
    Ok(CaseBit {
        name,
        bit: entry.bit,
        one: entry.value == 1,
    })
}

/// The same of all entries of a case.
fn bits_of(alloc: Global, case: &CaseStmt) -> Result<List<CaseBit>, NoMemory>
    ensures { IfOk result (λ bits. bits ≡ bits_of case.now) }
{
    let mut bits = List::new(alloc);
    for entry in case.entries.as_slice() {
        bits.push(bit_of(alloc, entry)?)?;
    }
    Ok(bits)
}

/// The cases of a drawing. `NoMemory` comes if memory runs out.
pub fn written_cases(alloc: Global, drawing: &Drawing) -> Result<CaseBits, NoMemory>
    ensures { IfOk result (λ cases. cases ≡ map bits_of drawing.now.cases) }
{
    let mut cases = List::new(alloc);
    for case in drawing.cases.as_slice() {
        cases.push(bits_of(alloc, case)?)?;
    }
    Ok(cases)
}

/// The value that the net of this name gets, if there is one.
fn value_of(c: &Circuit, bit: &CaseBit) -> Option<CaseValue>
    ensures { result ≡ spec_value_of c.now bit.now }
{
    c.known();
    if bit.bit > 65535 {
        return None;
    }
    match c.find(bit.name.as_slice(), bit.bit as u16) {
        Some(net) => Some(CaseValue { net, one: bit.one }),
        None => None,
    }
}

/// Appends a value, if there is one.
fn add_value(values: &mut Case, value: Option<CaseValue>) -> Result<(), NoMemory>
    ensures { OnOk result (values.new ≡ values.old ++ listed value) }
{
    match value {
        Some(found) => values.push(found),
        None => Ok(()),
    }
}

/// The values of all nets that a case names.
fn values_of(alloc: Global, c: &Circuit, bits: &[CaseBit]) -> Result<Case, NoMemory>
    ensures { IfOk result (λ values. values ≡ spec_values_of c.now bits.now) }
{
    let mut values = List::new(alloc);
    for bit in bits {
        add_value(&mut values, value_of(c, bit))?;
    }
    Ok(values)
}

/// The values of all nets that the cases name, case by case. `NoMemory` comes if memory runs
/// out.
pub fn case_values(
    alloc: Global,
    c: &Circuit,
    cases: &[List<CaseBit>],
) -> Result<CaseList, NoMemory>
    ensures are { IfOk result (λ values. values ≡ spec_case_values c.now cases.now) }
    ensures within { IfOk result (AreWithin (length c.now.nets)) }
{
    let mut values = List::new(alloc);
    for bits in cases {
        values.push(values_of(alloc, c, bits.as_slice())?)?;
    }
    Ok(values)
}
