//! How much more of a parameter may be asked for.

ghost use Rattle.std.specs.Prelude.{◌≡◌};
ghost use Rattle.margin_report.specs.Margin.{more_in};

use flat_circuit::Fault;

/// A parameter of a checker.
#[derive(Clone, Copy, PartialEq, Eq, Debug)]
pub enum Parameter {
    /// The time before an edge.
    Setup,
    /// The time after an edge.
    Hold,
    /// The least width of high pulses.
    High,
    /// The least width of low pulses.
    Low,
}

/// By how much a parameter may be greater than its written value before a case has a fault.
#[derive(Clone, Copy, PartialEq, Eq, Debug)]
pub enum Margin {
    /// Some case has a fault with the written value.
    Fault,
    /// By so many ticks, up to the greatest value that the parameter may have.
    Limit(u16),
    /// By so many ticks. With one more, this case is the first that has a fault, and this is the
    /// fault.
    Next { more: u16, case: u32, fault: Fault },
}

impl Margin {
    /// By how much more the value could be, in ticks; `None` exactly if the written one does not
    /// fit.
    pub fn more(self) -> Option<u16>
        ensures { result ≡ more_in self }
    {
        match self {
            Margin::Fault => None,
            Margin::Limit(more) | Margin::Next { more, .. } => Some(more),
        }
    }
}

/// A parameter of a checker, which goes by its number, and its margin.
#[derive(Clone, Copy, PartialEq, Eq, Debug)]
pub struct Row {
    pub instance: u32,
    pub parameter: Parameter,
    pub margin: Margin,
}
