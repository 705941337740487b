//! A wave as a key of a table.

use crate::feed::feed;
use skew_algebra::Skewed;
use std::hash::{Hash, Hasher};
use step_values::Value;
use wave_core::CyclicWave;

/// A wave that is compared by what contracts see of it: its cells and its skew.
#[derive(Drop)]
pub struct WaveKey<W: CyclicWave<Item = Value>> {
    pub wave: Skewed<W>,
}

impl<W: CyclicWave<Item = Value>> PartialEq for WaveKey<W> {
    ghost use Rattle.std.specs.Cmp.{on_per};
    ghost use Rattle.fixpoint_engine.specs.Same.{same_wave, same_wave_per};

    ghost eq = { λ a b. same_wave a.wave b.wave };

    ghost laws = { on_per (λ k. k.wave) same_wave_per };

    fn eq(&self, other: &WaveKey<W>) -> bool {
        self.wave.same(&other.wave)
    }
}

impl<W: CyclicWave<Item = Value>> Eq for WaveKey<W> {
    ghost use Rattle.std.specs.Cmp.{on_equiv};
    ghost use Rattle.fixpoint_engine.specs.Same.{same_wave_equiv};

    ghost laws = { on_equiv (λ k. k.wave) same_wave_equiv };
}

impl<W: CyclicWave<Item = Value>> Hash for WaveKey<W> {
    ghost use Rattle.fixpoint_engine.specs.Feed.{wave_fed};
    ghost use Rattle.fixpoint_engine.specs.Same.{fed_alike};

    ghost hash_input = { λ k. wave_fed k.wave };

    ghost respects_eq = { λ a b h. fed_alike a.wave b.wave h };

    fn hash<H: Hasher>(&self, state: &mut H) {
        state.write_u16(self.wave.skew());
        feed(self.wave.wave(), state);
    }
}
