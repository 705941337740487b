//! Stretches of bits that are variables of their own.

ghost use Rattle.std.specs.Prelude.{◌≡◌, ◌-◌, IfOk};
ghost use Rattle.trace_tool.specs.Stretch.{follows, stretches};

use crate::name::{bit_at, text_at};
use flat_circuit::Circuit;
use scald_base::{List, NoMemory};
use std::alloc::Global;

/// Bits of one name side by side: the nets at the places in name order from the first on, up to
/// another that is no more of them. Stretches are numbered from 0.
#[derive(Clone, Copy, Debug)]
pub struct Stretch {
    pub number: u32,
    pub from: u32,
    pub to: u32,
}

impl Stretch {
    /// How many bits it has.
    pub fn width(self) -> u32
        ensures { result ≡ self.to - self.from }
    {
        self.to.saturating_sub(self.from)
    }
}

/// Whether the net at a place has the name of the one before it, and the next bit.
fn follows(c: &Circuit, place: u32) -> bool
    ensures { result ≡ follows c.now place }
{
    let before = place.saturating_sub(1);
    text_at(c, before) == text_at(c, place)
        && u32::from(bit_at(c, before)) + 1 == u32::from(bit_at(c, place))
}

/// All stretches of a circuit, in name order.
pub fn stretches(alloc: Global, c: &Circuit) -> Result<List<Stretch>, NoMemory>
    ensures { IfOk result (λ ss. ss ≡ stretches c.now) }
{
    c.known();
    let mut found = List::new(alloc);
    let count = c.net_count();
    if count == 0 {
        return Ok(found);
    }
    let mut stretch = Stretch {
        number: 0,
        from: 0,
        to: 1,
    };
    for place in 1..count {
        if !follows(c, place) {
            found.push(stretch)?;
            stretch = Stretch {
                number: stretch.number + 1,
                from: place,
                to: place,
            };
        }
        stretch.to = place + 1;
    }
    found.push(stretch)?;
    Ok(found)
}
