//! Parts of a narrowing.

ghost use Rattle.std.specs.Prelude.{◌≡◌, IfOk};
ghost use Rattle.narrowing.specs.Narrowed.{offset_in};
ghost use Rattle.narrowing.specs.Part.{same_thing, with_part};

use scald_base::{List, NoMemory};
use std::alloc::Global;
use std::marker::Model;

/// What a narrowing fixes of one thing. Nets and instances go by their numbers, delays are in
/// ticks.
#[derive(Clone, Copy, PartialEq, Eq, Debug)]
pub enum Part {
    /// A net that nothing drives is at this bit for ever.
    Constant {
        net: u32,
        one: bool,
    },
    /// The delay of an instance that has one.
    Delay {
        instance: u32,
        least: u16,
        greatest: u16,
    },
    /// The rise delay of an instance that has two.
    Rise {
        instance: u32,
        least: u16,
        greatest: u16,
    },
    /// Its fall delay.
    Fall {
        instance: u32,
        least: u16,
        greatest: u16,
    },
    /// By how many ticks a `.P` clock that nothing drives comes later than at its earliest.
    Offset {
        net: u32,
        least: u16,
        greatest: u16,
    },
}

/// A narrowing: parts, each of a thing of its own, in the order in which they came.
pub type Parts = List<Part>;

/// Whether both are of one net's bit or offset, or of one delay.
pub fn same_thing(p: Part, q: Part) -> bool
    ensures { result ≡ same_thing p q }
{
    match p {
        Part::Constant { net, .. } => match q {
            Part::Constant { net: other, .. } => net == other,
            _ => false,
        },
        Part::Delay { instance, .. } => match q {
            Part::Delay { instance: k, .. } => instance == k,
            _ => false,
        },
        Part::Rise { instance, .. } => match q {
            Part::Rise { instance: k, .. } => instance == k,
            _ => false,
        },
        Part::Fall { instance, .. } => match q {
            Part::Fall { instance: k, .. } => instance == k,
            _ => false,
        },
        Part::Offset { net, .. } => match q {
            Part::Offset { net: other, .. } => net == other,
            _ => false,
        },
    }
}

/// The parts, with one in place of that of the same thing.
pub fn with_part(alloc: Global, parts: &[Part], part: Part) -> Result<Parts, NoMemory>
    ensures { IfOk result (λ new. new ≡ with_part parts.now part) }
{
    let mut new = Parts::new(alloc);
    for other in parts {
        if !same_thing(*other, part) {
            new.push(*other)?;
        }
    }
    new.push(part)?;
    Ok(new)
}

/// By how many ticks a clock comes later than at its earliest: at least `min`, at most `max`.
#[derive(Clone, Copy, PartialEq, Eq, Debug)]
pub struct Late {
    pub min: u16,
    pub max: u16,
}

impl Model for Late {
    ghost use Rattle.scald_base.specs.Time.{Bounds};

    ghost Value = { Bounds };

    ghost view = { λ d. record { min = d.min; max = d.max } };

    ghost inverse = { λ b. record { min = b.min; max = b.max } };
}

/// The bounds that parts give the offset of a net.
pub fn offset_in(net: u32, parts: &[Part]) -> Option<Late>
    ensures { result ≡ offset_in net parts.now }
{
    for part in parts {
        if let Part::Offset {
            net: other,
            least,
            greatest,
        } = part
        {
            if *other == net {
                return Some(Late {
                    min: *least,
                    max: *greatest,
                });
            }
        }
    }
    None
}
