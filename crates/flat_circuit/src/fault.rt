//! What checkers and assertions find.

ghost use Rattle.std.specs.Prelude.{◌≡◌, ◌++◌, OnOk};

use scald_base::{List, NoMemory};

/// On which side of an edge an input is not quiet.
#[derive(Clone, Copy, PartialEq, Eq, Debug)]
pub enum PointKind {
    /// Up to the edge.
    Setup,
    /// While the clock is high.
    High,
    /// After the edge.
    Hold,
}

/// A fault. Instances and nets go by their numbers, slots are those of the period, and a value is
/// the letter that the report prints.
#[derive(Clone, Copy, PartialEq, Eq, Debug)]
pub enum Fault {
    /// At an edge of a checker's clock, its input is not quiet in a slot.
    Point {
        kind: PointKind,
        instance: u32,
        edge: u16,
        slot: u16,
        value: u8,
    },
    /// A high or low pulse that begins in a slot may be so narrow.
    Width {
        instance: u32,
        high: bool,
        from: u16,
        width: u16,
    },
    /// A pin may change while the marked pin lets it through.
    Hazard {
        instance: u32,
        slot: u16,
        pin: u16,
    },
    /// A driven net may make a step that its assertion has not.
    Assertion {
        net: u32,
        slot: u16,
        value: u8,
    },
}

/// Faults, in the order of the report.
pub type Faults = List<Fault>;

/// Appends more faults. If memory runs out, only some of them may have been appended.
pub fn append_faults(faults: &mut Faults, more: &Faults) -> Result<(), NoMemory>
    ensures { OnOk result (faults.new ≡ faults.old ++ more.now) }
{
    for fault in more.as_slice() {
        faults.push(*fault)?;
    }
    Ok(())
}
