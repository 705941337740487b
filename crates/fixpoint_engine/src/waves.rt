//! The waves of all nets, read from a table.

ghost use Rattle.std.specs.Prelude.{◌≡◌, ◌<◌, length, slice_index_or, []};
ghost use Rattle.skew_algebra.specs.Wave.{skewed};
ghost use Rattle.fixpoint_engine.specs.Table.{AreKnown, waves_at};

use crate::wave_table::WaveTable;
use skew_algebra::Skewed;
use std::marker::Model;
use step_values::Value;
use wave_core::CyclicWave;

/// The wave of each net, by its number, as the table has them. Contracts see the list of these
/// waves.
#[derive(Drop)]
pub struct Waves<'a, W: CyclicWave<Item = Value>> {
    table: &'a WaveTable<W>,
    numbers: &'a [u32],
}

impl<'a, W: CyclicWave<Item = Value>> Model for Waves<'a, W> {
    ghost use Rattle.std.specs.Prelude.{List};
    ghost use Rattle.step_values.specs.declared.value.Value.{Value as OfValues};
    ghost use Rattle.skew_algebra.specs.Wave.{Wave};
    ghost use Rattle.fixpoint_engine.specs.Table.{AreKnown, waves_at};

    ghost Value = { List (Wave OfValues) };

    ghost view = { λ w. waves_at w.table.now w.numbers.now };

    ghost invariant = { λ w. AreKnown w.table.now w.numbers.now };
}

impl<'a, W: CyclicWave<Item = Value>> Waves<'a, W> {
    /// The waves that a table has by these numbers.
    pub fn new(table: &'a WaveTable<W>, numbers: &'a [u32]) -> Waves<'a, W>
        requires { AreKnown table.now numbers.now }
        ensures { result ≡ waves_at table.now numbers.now }
    {
        Waves { table, numbers }
    }

    /// How many nets there are.
    pub fn len(&self) -> usize
        ensures { result ≡ length self.now }
    {
        self.numbers.len()
    }

    /// The wave of a net.
    #[tactic(auto, using(crate::proofs::Reading::known_read, crate::proofs::Reading::wave_read))]
    pub fn at(&self, net: u32) -> &Skewed<W>
        requires { net < length self.now }
        ensures { result.now ≡ slice_index_or self.now net (skewed [] 0) }
    {
        self.table.wave(self.numbers[net as usize])
    }
}
