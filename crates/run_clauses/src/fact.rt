//! Facts about a run, of which clauses speak.

ghost use Rattle.std.specs.Prelude.{◌≡◌, true, false};
ghost use Rattle.run_clauses.specs.Forms.{said};

/// A fact about a run that has a break. Nets and instances go by their numbers, pins by their
/// places, ticks and delays in ticks.
#[derive(Clone, Copy, PartialEq, Eq, Hash, Debug)]
pub enum Fact {
    /// The run has this tick.
    Lasts { tick: u32 },
    /// The net is 1.
    Net { net: u32, tick: u32 },
    /// The pin shows 1.
    Pin { instance: u32, pin: u32, tick: u32 },
    /// The pin steps.
    Step { instance: u32, pin: u32, tick: u32 },
    /// The gate makes 1 of what its pins show.
    Own { instance: u32, tick: u32 },
    /// An odd number of the pins from this one on show 1.
    Parity { instance: u32, pin: u32, tick: u32 },
    /// The one delay of the instance is this.
    Delay { instance: u32, ticks: u32 },
    /// Its rise delay is this.
    Rise { instance: u32, ticks: u32 },
    /// Its fall delay is this.
    Fall { instance: u32, ticks: u32 },
    /// The wire to the pin takes this.
    Wire { instance: u32, pin: u32, ticks: u32 },
    /// The `.P` clock comes by so much later than at its earliest.
    Offset { net: u32, by: u32 },
    /// The break names this tick first: its edge, the start of its pulse, or its only tick.
    First { tick: u32 },
    /// The break names this tick second: that of the change, or of the end of its pulse.
    Second { tick: u32 },
    /// The break is one of this pin beside the marked one.
    Beside { pin: u32 },
}

/// That a fact holds, or that it does not.
#[derive(Clone, Copy, PartialEq, Eq, Debug)]
pub struct Said {
    pub fact: Fact,
    pub holds: bool,
}

impl Fact {
    /// That it holds.
    pub fn is(self) -> Said
        ensures { result ≡ said self true }
    {
        Said {
            fact: self,
            holds: true,
        }
    }

    /// That it does not.
    pub fn is_not(self) -> Said
        ensures { result ≡ said self false }
    {
        Said {
            fact: self,
            holds: false,
        }
    }

    /// That it has a bit.
    pub fn at(self, holds: bool) -> Said
        ensures { result ≡ said self holds }
    {
        Said { fact: self, holds }
    }
}
