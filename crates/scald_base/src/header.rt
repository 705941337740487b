//! Delays, and the header of a drawing.

ghost use Rattle.std.specs.Prelude.{◌≡◌, ◌≤◌};
ghost use Rattle.scald_base.specs.Time.{period, IsDelay, IsHeader};

use std::marker::Model;

/// The least and the greatest delay of a component or of a wire, in ticks: `min` is at most `max`,
/// and `max` at most 4,095.
#[derive(Clone, Copy, PartialEq, Eq, Debug)]
pub struct Delay {
    pub min: u16,
    pub max: u16,
}

impl Model for Delay {
    ghost use Rattle.scald_base.specs.Time.{Bounds, IsDelay};

    ghost Value = { Bounds };

    ghost view = { λ d. record { min = d.min; max = d.max } };

    ghost invariant = { λ d. IsDelay (record { min = d.min; max = d.max }) };

    ghost inverse = { λ b. record { min = b.min; max = b.max } };
}

impl Delay {
    /// What holds of each delay.
    pub fn known(&self)
        ensures { IsDelay self.now }
    {
        let _ = &self.min;
    }
}

/// What the head of a drawing says. The period is `units` of `ticks` each, 2 to 4,096 ticks. Wires
/// have the bounds `wire` if no other are set, and clocks without a skew of their own have
/// `pskew` (for `.P`) or `cskew` (for `.C`): how many ticks early and late, at most 4,095 each.
#[derive(Clone, Copy, PartialEq, Eq, Debug)]
pub struct Header {
    pub units: u16,
    pub ticks: u16,
    pub wire: Delay,
    pub pskew: (u16, u16),
    pub cskew: (u16, u16),
}

impl Model for Header {
    ghost use Rattle.scald_base.specs.Time.{Header as Said, IsHeader};

    ghost Value = { Said };

    ghost view = { λ h. record {
      units = h.units;
      ticks = h.ticks;
      wire = h.wire;
      pskew = h.pskew;
      cskew = h.cskew;
    } };

    ghost invariant = { λ h. IsHeader (record {
      units = h.units;
      ticks = h.ticks;
      wire = h.wire;
      pskew = h.pskew;
      cskew = h.cskew;
    }) };

    ghost inverse = { λ h. record {
      units = h.units;
      ticks = h.ticks;
      wire = h.wire;
      pskew = h.pskew;
      cskew = h.cskew;
    } };
}

impl Header {
    /// What holds of each header.
    pub fn known(&self)
        ensures { IsHeader self.now }
    {
        let _ = &self.units;
    }

    /// The period in ticks, 2 to 4,096.
    pub fn period(&self) -> u16
        ensures is { result ≡ period self.now }
        ensures shortest { 2 ≤ result }
        ensures longest { result ≤ 4096 }
    {
        self.units * self.ticks
    }
}
