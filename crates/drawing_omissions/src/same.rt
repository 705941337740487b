//! Cases that stand twice.

ghost use Rattle.std.specs.Prelude.{◌≡◌, ◌<◌, IfOk, length};
ghost use Rattle.drawing_omissions.specs.Same.{AreWithin, first_same as spec_first_same, firsts_same as spec_firsts_same};

use crate::held::Held;
use flat_circuit::Case;
use scald_base::NoMemory;
use std::alloc::Global;

/// The first of the cases before one that has its entries.
fn first_same(
    alloc: Global,
    nets: u32,
    cases: &[Case],
    place: usize,
) -> Result<Option<usize>, NoMemory>
    requires within { AreWithin nets cases.now }
    requires exists { place < length cases.now }
    ensures { IfOk result (λ first. first ≡ spec_first_same cases.now place) }
{
    let case = cases[place].as_slice();
    let held = Held::of(alloc, nets, case)?;
    for earlier in 0..place {
        let other = cases[earlier].as_slice();
        if case.len() == other.len() && held.has_all(other) {
            return Ok(Some(earlier));
        }
    }
    Ok(None)
}

/// Of each case the first before it that has its entries. Its nets are below this number.
/// `NoMemory` comes if memory runs out.
pub fn firsts_same(alloc: Global, nets: u32, cases: &[Case]) -> Result<Vec<Option<usize>>, NoMemory>
    requires { AreWithin nets cases.now }
    ensures { IfOk result (λ firsts. firsts.items ≡ spec_firsts_same cases.now) }
{
    let mut firsts = Vec::new(alloc);
    for place in 0..cases.len() {
        let first = first_same(alloc, nets, cases, place)?;
        firsts.push(first)?;
    }
    Ok(firsts)
}
