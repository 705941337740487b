//! How early and how late a clock may come, and the slots before that of a tick.

ghost use Rattle.std.specs.Prelude.{◌≡◌, ◌<◌, ◌^◌};
ghost use Rattle.scald_base.specs.Time.{period};
ghost use Rattle.scald_base.specs.Clock.{back as slots_back};
ghost use Rattle.scald_base.specs.Fitting.{skew_of};

use scald_base::{ClockSpec, Header};

/// How early and how late a clock may come, in ticks: as its name says, or else as the header does.
pub fn skew_of(clock: &ClockSpec, default: (u16, u16)) -> (u16, u16)
    ensures { result ≡ skew_of clock.now default }
{
    match clock.skew {
        Some(skew) => skew,
        None => default,
    }
}

/// The slot so many before that of a tick.
pub fn slot_back(h: &Header, tick: usize, by: usize) -> u16
    requires { (tick < 2 ^ 33) × (by < 2 ^ 32) }
    ensures is { result ≡ slots_back (period h.now) tick by }
    ensures within { result < period h.now }
{
    let period = h.period() as usize;
    ((tick + by * (period - 1)) % period) as u16
}
