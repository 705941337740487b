//! The bits of connections.

ghost use Rattle.std.specs.Prelude.{◌≡◌, ◌++◌, IfOk, OnOk, MatchResult, Some, map, replicate};
ghost use Rattle.vector_names.specs.Bits.{concat, spread, complemented, IsJoinFault, IsSpreadFault};

use crate::fault::VectorFault;
use crate::range::WIDEST;
use scald_base::{List, NoMemory};
use std::alloc::Global;

/// What a bit is on: the net of this number, or a constant.
#[derive(Clone, Copy, PartialEq, Eq, Debug)]
pub enum Target {
    Net(u32),
    Constant(bool),
}

/// One bit of a connection: what it is on, and whether it shows the complement.
#[derive(Clone, Copy, PartialEq, Eq, Debug)]
pub struct BitRef {
    pub target: Target,
    pub inverted: bool,
}

/// The bits of a connection, in order.
pub type Bits = List<BitRef>;

/// The bits of one and then those of the other. `Width` comes exactly if more than 256 come.
pub fn concat(alloc: Global, a: &Bits, b: &Bits) -> Result<Bits, VectorFault>
    ensures { MatchResult result (λ bits. concat a.now b.now ≡ Some bits)
        (IsJoinFault a.now b.now) }
{
    if a.len() > WIDEST || b.len() > WIDEST - a.len() {
        return Err(VectorFault::Width);
    }
    let mut bits = List::new(alloc);
    add_all(&mut bits, a.as_slice())?;
    add_all(&mut bits, b.as_slice())?;
    Ok(bits)
}

/// So many bits: these, if they are so many, and a single bit again and again. `Width` comes
/// exactly if they are neither so many nor one.
pub fn spread(alloc: Global, a: &Bits, width: u16) -> Result<Bits, VectorFault>
    ensures { MatchResult result (λ bits. spread a.now width ≡ Some bits)
        (IsSpreadFault a.now width) }
{
    if a.len() == width as usize {
        return Ok(copied(alloc, a.as_slice())?);
    }
    match a.as_slice() {
        [bit] => Ok(repeated(alloc, *bit, width)?),
        _ => Err(VectorFault::Width),
    }
}

/// Complements each bit.
pub fn complement(a: &mut Bits)
    ensures { a.new ≡ map complemented a.old }
{
    for i in 0..a.len() {
        let bit = a.as_slice()[i];
        a.set(i, flipped(bit));
    }
}

fn flipped(bit: BitRef) -> BitRef
    ensures { result ≡ complemented bit }
{
    BitRef {
        target: bit.target,
        inverted: !bit.inverted,
    }
}

fn add_all(bits: &mut Bits, more: &[BitRef]) -> Result<(), NoMemory>
    ensures { OnOk result (bits.new ≡ bits.old ++ more.now) }
{
    for bit in more {
        bits.push(*bit)?;
    }
    Ok(())
}

fn copied(alloc: Global, bits: &[BitRef]) -> Result<Bits, NoMemory>
    ensures { IfOk result (λ copied. copied ≡ bits.now) }
{
    let mut copied = List::new(alloc);
    add_all(&mut copied, bits)?;
    Ok(copied)
}

fn repeated(alloc: Global, bit: BitRef, width: u16) -> Result<Bits, NoMemory>
    ensures { IfOk result (λ bits. bits ≡ replicate width bit) }
{
    let mut bits = List::new(alloc);
    for _place in 0..width {
        bits.push(bit)?;
    }
    Ok(bits)
}
