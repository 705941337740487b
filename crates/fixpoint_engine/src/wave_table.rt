//! Waves that are kept once.

ghost use Rattle.std.specs.Prelude.{◌≡◌, ◌<◌, [], IfOk, OnErr, length, take};
ghost use Rattle.fixpoint_engine.specs.Table.{AreDistinct, Grows, IsNumber};

use crate::wave_key::WaveKey;
use indexmap::IndexSet;
use scald_base::NoMemory;
use skew_algebra::Skewed;
use std::alloc::Global;
use std::marker::Model;
use step_values::Value;
use wave_core::CyclicWave;

/// The most waves that have numbers.
const MOST: usize = 4_294_967_295;

/// Waves by their numbers, from 0, each of them once. Contracts see the list of the waves.
#[derive(Drop)]
pub struct WaveTable<W: CyclicWave<Item = Value>> {
    waves: IndexSet<WaveKey<W>>,
}

impl<W: CyclicWave<Item = Value>> Model for WaveTable<W> {
    ghost use Rattle.std.specs.Prelude.{List, map};
    ghost use Rattle.step_values.specs.declared.value.Value.{Value as OfValues};
    ghost use Rattle.skew_algebra.specs.Wave.{Wave};

    ghost Value = { List (Wave OfValues) };

    ghost view = { λ t. map (λ k. k.wave) t.waves.keys };
}

impl<W: CyclicWave<Item = Value>> WaveTable<W> {
    /// A table without waves, which needs no allocation yet.
    pub fn new(alloc: Global) -> WaveTable<W>
        ensures { result ≡ [] }
    {
        WaveTable {
            waves: IndexSet::new(alloc),
        }
    }

    /// What holds of each table: a wave has one number at most.
    pub fn known(&self)
        ensures { AreDistinct self.now }
    {
        let _count = self.waves.len();
    }

    /// How many waves there are.
    pub fn len(&self) -> usize
        ensures { result ≡ length self.now }
    {
        self.waves.len()
    }

    /// The number of a wave: that which an equal wave has, or the next one.
    pub fn number(&mut self, wave: Skewed<W>) -> Result<u32, NoMemory>
        ensures grows { Grows self.old self.new }
        ensures means { IfOk result (IsNumber self.new wave) }
        ensures kept { OnErr result (self.new ≡ self.old) }
    {
        if self.waves.len() >= MOST {
            return Err(NoMemory);
        }
        let (index, _is_new) = self.waves.insert_full(WaveKey { wave })?;
        Ok(index as u32)
    }

    /// The wave of a number.
    pub fn wave(&self, number: u32) -> &Skewed<W>
        requires { number < length self.now }
        ensures { IsNumber self.now result.now number }
    {
        &self.waves.as_slice()[number as usize].wave
    }

    /// Forgets all waves but the first so many, whose numbers stay as they are.
    pub fn cut(&mut self, kept: usize)
        ensures { self.new ≡ take kept self.old }
    {
        self.waves.truncate(kept);
    }
}
