//! What is read off the slots of a wave. It costs about as much as the wave has changes.

ghost use Rattle.std.specs.Prelude.{◌≡◌};
ghost use Rattle.skew_algebra.specs.Wave.{all_equal, is_steady, joined};

use wave_core::{Cell, CyclicWave, first_where, joined_from};

/// Whether every slot is quiet.
pub fn is_steady<W: CyclicWave>(wave: &W) -> bool
    ensures { result ≡ is_steady W.Item.kind (W.cells wave.now) }
{
    match first_where(wave, 0, wave.period(), |cell| !cell.quiet()) {
        Some(_) => false,
        None => true,
    }
}

/// Whether every slot has the same cell.
pub fn all_equal<W: CyclicWave>(wave: &W) -> bool
    ensures { result ≡ all_equal W.Item.kind (W.cells wave.now) }
{
    wave.same_until(0) == wave.period()
}

/// The join of all slots.
pub fn joined<W: CyclicWave>(wave: &W) -> W::Item
    ensures { result ≡ joined W.Item.kind (W.cells wave.now) }
{
    joined_from(wave, 0, wave.period())
}
