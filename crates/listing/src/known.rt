//! The lines of faults that were made.

ghost use Rattle.std.specs.Prelude.{◌≡◌, ◌++◌, ◌∷◌, [], ℕ, IfSome, IsTrue, OnOk, Some, slice_get};

use crate::output::Part;
use flat_circuit::{Circuit, Fault};
use scald_base::{List, NoMemory};
use std::alloc::Global;

/// The most lines that are looked at to find one.
const MOST_LOOKED_AT: u32 = 16;

/// The line of a fault, as the part of some bytes, and the number of the last one before it that is
/// of the same element.
#[derive(Clone, Copy)]
pub struct Known {
    pub fault: Fault,
    pub part: Part,
    pub before: u32,
}

/// The lines of faults, each by its number. What is found by the numbers is looked at, so nothing
/// depends on them.
#[derive(Drop)]
pub struct KnownLines {
    pub lines: List<Known>,
    /// For each element the number of its newest line.
    newest: Vec<u32>,
}

/// The number of no line.
const NONE: u32 = u32::MAX;

/// The instance or the net that has a fault.
fn element_of(fault: Fault) -> usize {
    match fault {
        Fault::Point { instance, .. }
        | Fault::Width { instance, .. }
        | Fault::Hazard { instance, .. } => instance as usize,
        Fault::Assertion { net, .. } => net as usize,
    }
}

/// Whether two faults are seen to be the same.
fn is_same(fault: Fault, other: Fault) -> bool
    ensures { IsTrue result → fault ≡ other }
{
    match (fault, other) {
        (
            Fault::Point {
                kind,
                instance,
                edge,
                slot,
                value,
            },
            Fault::Point {
                kind: other_kind,
                instance: other_instance,
                edge: other_edge,
                slot: other_slot,
                value: other_value,
            },
        ) => kind == other_kind
            && instance == other_instance
            && edge == other_edge
            && slot == other_slot
            && value == other_value,
        (
            Fault::Width {
                instance,
                high,
                from,
                width,
            },
            Fault::Width {
                instance: other_instance,
                high: other_high,
                from: other_from,
                width: other_width,
            },
        ) => instance == other_instance
            && high == other_high
            && from == other_from
            && width == other_width,
        (
            Fault::Hazard {
                instance,
                slot,
                pin,
            },
            Fault::Hazard {
                instance: other_instance,
                slot: other_slot,
                pin: other_pin,
            },
        ) => instance == other_instance && slot == other_slot && pin == other_pin,
        (
            Fault::Assertion { net, slot, value },
            Fault::Assertion {
                net: other_net,
                slot: other_slot,
                value: other_value,
            },
        ) => net == other_net && slot == other_slot && value == other_value,
        _ => false,
    }
}

impl KnownLines {
    /// No lines. It needs no allocation.
    pub fn new(alloc: Global) -> KnownLines
        ensures { result.lines ≡ [] }
    {
        KnownLines {
            lines: List::new(alloc),
            newest: Vec::new(alloc),
        }
    }

    /// Makes room for the newest line of each element.
    pub fn make_room(&mut self, alloc: Global, c: &Circuit) -> Result<(), NoMemory>
        ensures { self.new.lines ≡ self.old.lines }
    {
        if self.newest.is_empty() {
            let elements = c.instance_count().max(c.net_count());
            self.newest = Vec::from_elem(alloc, NONE, elements as usize)?;
        }
        Ok(())
    }

    /// The line of a fault, if it is found.
    pub fn find(&self, fault: Fault) -> Option<Part>
        ensures { IfSome result (λ part. (at : ℕ) × (before : ℕ)
            × (slice_get self.now.lines at
            ≡ Some (record { fault = fault; part = part; before = before }))) }
    {
        let mut at = self.newest.get(element_of(fault)).copied().unwrap_or(NONE);
        for _look in 0..MOST_LOOKED_AT {
            let Some(known) = self.lines.get(at as usize) else {
                return None;
            };
            if is_same(known.fault, fault) {
                return Some(known.part);
            }
            at = known.before;
        }
        None
    }

    /// Puts the line of a fault among these.
    pub fn remember(&mut self, fault: Fault, part: Part) -> Result<(), NoMemory>
        ensures { OnOk result ((before : ℕ) × (self.new.lines
            ≡ self.old.lines ++ record { fault = fault; part = part; before = before } ∷ [])) }
    {
        let number = u32::try_from(self.lines.len()).unwrap_or(NONE);
        let mut before = NONE;
        if let Some(newest) = self.newest.get_mut(element_of(fault)) {
            before = *newest;
            *newest = number;
        }
        self.lines.push(Known {
            fault,
            part,
            before,
        })?;
        Ok(())
    }
}
