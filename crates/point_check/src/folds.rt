//! The folds of waves that come again.

ghost use Rattle.std.specs.Prelude.{◌≡◌, IfOk};
ghost use Rattle.step_values.specs.Cell.{values};
ghost use Rattle.skew_algebra.specs.Wave.{folded};

use scald_base::NoMemory;
use skew_algebra::Skewed;
use std::alloc::Global;
use step_values::Value;
use wave_core::CyclicWave;

/// A wave, and the wave that has its skew folded in.
#[derive(Drop)]
struct Fold<W: CyclicWave<Item = Value>> {
    wave: Skewed<W>,
    made: W,
    ghost is: { W.cells made ≡ folded values wave },
}

/// The last wave that was folded, with its fold: checkers side by side mostly have one clock.
#[derive(Drop)]
pub struct LastFold<W: CyclicWave<Item = Value>> {
    kept: Option<Fold<W>>,
}

impl<W: CyclicWave<Item = Value>> LastFold<W> {
    /// Nothing was folded yet.
    pub fn new() -> LastFold<W> {
        LastFold { kept: None }
    }

    /// A wave with its skew folded in.
    pub fn of(&mut self, alloc: Global, wave: &Skewed<W>) -> Result<W, NoMemory>
        ensures { IfOk result (λ w. W.cells w ≡ folded values wave.now) }
    {
        if let Some(kept) = &self.kept {
            if kept.wave.same(wave) {
                return kept.made.copy(alloc);
            }
        }
        let made = wave.folded(alloc)?;
        let kept = Fold {
            wave: wave.copy(alloc)?,
            made: made.copy(alloc)?,
        };
        self.kept = Some(kept);
        Ok(made)
    }
}
