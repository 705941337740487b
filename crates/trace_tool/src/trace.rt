//! What the text of a trace says.

ghost use Rattle.std.specs.Prelude.{◌≡◌};
ghost use Rattle.trace_tool.specs.Trace.{pick_at, row_at, wires_at};

use scald_base::NoMemory;
use trace_sim::{DelayPicks, Traces, WirePicks};

/// So many ticks, the delays at each instance, and the bits of each net by its number. Nothing is
/// said of equations: whether the bits are those of a run is another question.
#[derive(Drop)]
pub struct Trace {
    /// 1 to 1,048,576.
    pub ticks: u32,
    /// Twice the same if an instance has one delay. What stands at a change function or at a
    /// checker does not count.
    pub delays: DelayPicks,
    /// 0 on a constant.
    pub wires: WirePicks,
    /// A bit for each tick.
    pub bits: Traces,
}

impl Trace {
    /// The pick at an instance; (0, 0) past the last.
    pub fn pick(&self, k: u32) -> (u16, u16)
        ensures { result ≡ pick_at self.now k }
    {
        match self.delays.get(k as usize) {
            None => (0, 0),
            Some(pick) => *pick,
        }
    }

    /// The delays of the wires to the pins of an instance; none past the last.
    pub fn wires(&self, k: u32) -> &[u16]
        ensures { result.now ≡ wires_at self.now k }
    {
        match self.wires.get(k as usize) {
            None => &[],
            Some(wires) => wires.as_slice(),
        }
    }

    /// The bits of a net; none past the last.
    pub fn row(&self, net: u32) -> &[bool]
        ensures { result.now ≡ row_at self.now net }
    {
        match self.bits.get(net as usize) {
            None => &[],
            Some(row) => row.as_slice(),
        }
    }
}

/// Why lines are not those of a trace of a circuit.
#[derive(Clone, Copy, PartialEq, Eq, Debug)]
pub enum TraceFault {
    /// The line of this number, from 1, is the first that lacks the form, the name or the bounds.
    WrongLine(u32),
    /// Memory ran out.
    NoMemory,
}

impl From<NoMemory> for TraceFault {
    ghost use Rattle.std.specs.Prelude.{◌≡◌};
    ghost use Rattle.trace_tool.specs.declared.trace.TraceFault.TheVariants.{NoMemory as OutOfMemory};

    ghost from_gives = { λ _ fault. fault ≡ OutOfMemory };

    fn from(_e: NoMemory) -> TraceFault {
        TraceFault::NoMemory
    }
}
