//! What a checker demands of its pins.

ghost use Rattle.std.specs.Prelude.{◌≡◌};
ghost use Rattle.flat_circuit.specs.Limits.{high_of, hold_of, low_of, setup_of};

/// The limits of a checker, in ticks.
#[derive(Clone, Copy, PartialEq, Eq, Debug)]
pub enum Limits {
    /// What checks nothing has none.
    None,
    /// For how long the input is to be stable up to an edge of the clock, and for how long after
    /// one.
    Edges { setup: u16, hold: u16 },
    /// The least widths of high pulses and of low ones.
    Pulses { high: u16, low: u16 },
}

impl Limits {
    /// The setup time, in ticks: 0 if no edges are limited.
    pub fn setup(self) -> u16
        ensures { result ≡ setup_of self }
    {
        match self {
            Limits::Edges { setup, .. } => setup,
            Limits::None | Limits::Pulses { .. } => 0,
        }
    }

    /// The hold time, in ticks: 0 if no edges are limited.
    pub fn hold(self) -> u16
        ensures { result ≡ hold_of self }
    {
        match self {
            Limits::Edges { hold, .. } => hold,
            Limits::None | Limits::Pulses { .. } => 0,
        }
    }

    /// The least width of high pulses, in ticks: 0 if no pulses are limited.
    pub fn high(self) -> u16
        ensures { result ≡ high_of self }
    {
        match self {
            Limits::Pulses { high, .. } => high,
            Limits::None | Limits::Edges { .. } => 0,
        }
    }

    /// The least width of low pulses, in ticks: 0 if no pulses are limited.
    pub fn low(self) -> u16
        ensures { result ≡ low_of self }
    {
        match self {
            Limits::Pulses { low, .. } => low,
            Limits::None | Limits::Edges { .. } => 0,
        }
    }
}
