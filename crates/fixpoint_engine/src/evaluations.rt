//! Evaluations that are made once.

ghost use Rattle.std.specs.Prelude.{◌≡◌, [], IfOk, IfSome, length, take};
ghost use Rattle.fixpoint_engine.specs.Evaluation.{value_of};
ghost use Rattle.fixpoint_engine.specs.Table.{AreDistinct, AreKnown, Grows, IsNumber, waves_at};

use crate::evaluated::Evaluated;
use crate::growth::{Growth, wave_words};
use crate::numbers::{Numbers, renumbered};
use crate::wave_table::WaveTable;
use indexmap::IndexMap;
use scald_base::{List, NoMemory};
use skew_algebra::Skewed;
use std::alloc::Global;
use std::marker::Model;
use step_values::Value;
use wave_core::CyclicWave;

/// A table of waves, and for each key that was evaluated the number of what it makes. Contracts see
/// the list of the waves: what is remembered of keys shows in no result.
#[derive(Drop)]
pub struct Evaluations<W: CyclicWave<Item = Value>, K: Evaluated> {
    waves: WaveTable<W>,
    made: IndexMap<K, u32>,
    /// What came in since waves were last forgotten.
    recent: Growth,
    /// What came in since all waves were last forgotten but those of some numbers.
    whole: Growth,
}

impl<W: CyclicWave<Item = Value>, K: Evaluated> Model for Evaluations<W, K> {
    ghost use Rattle.std.specs.Prelude.{List};
    ghost use Rattle.step_values.specs.declared.value.Value.{Value as OfValues};
    ghost use Rattle.skew_algebra.specs.Wave.{Wave};
    ghost use Rattle.fixpoint_engine.specs.Evaluation.{AreValues};

    ghost Value = { List (Wave OfValues) };

    ghost view = { λ e. e.waves };

    ghost invariant = { λ e. AreValues K.reads K.makes e.waves e.made.entries };
}

impl<W: CyclicWave<Item = Value>, K: Evaluated> Evaluations<W, K> {
    /// No waves, and nothing evaluated. It needs no allocation yet.
    pub fn new(alloc: Global) -> Evaluations<W, K>
        ensures { result ≡ [] }
    {
        Evaluations {
            waves: WaveTable::new(alloc),
            made: IndexMap::new(alloc),
            recent: Growth::new(),
            whole: Growth::new(),
        }
    }

    /// The table of waves.
    pub fn waves(&self) -> &WaveTable<W>
        ensures { result.now ≡ self.now }
    {
        &self.waves
    }

    /// What holds of each table: a wave has one number at most.
    pub fn known(&self)
        ensures { AreDistinct self.now }
    {
        self.waves.known();
    }

    /// How many waves there are.
    pub fn len(&self) -> usize
        ensures { result ≡ length self.now }
    {
        self.waves.len()
    }

    /// The number of a wave.
    pub fn number(&mut self, wave: Skewed<W>) -> Result<u32, NoMemory>
        ensures grows { Grows self.old self.new }
        ensures means { IfOk result (IsNumber self.new wave) }
    {
        let count = self.waves.len();
        let number = self.waves.number(wave)?;
        if self.waves.len() > count {
            let words = wave_words(self.waves.wave(number).wave());
            self.recent.add(words);
            self.whole.add(words);
        }
        Ok(number)
    }

    /// The number of what a key makes, if it was evaluated before.
    pub fn find(&self, key: &K) -> Option<u32>
        ensures { IfSome result (IsNumber self.now (value_of K.reads K.makes self.now key.now)) }
    {
        self.made.get(key).copied()
    }

    /// The number of what a key makes, which is remembered. The key takes so many words of four
    /// bytes.
    pub fn remember(&mut self, key: K, words: usize, wave: Skewed<W>) -> Result<u32, NoMemory>
        requires known { AreKnown self.old (K.reads key) }
        requires made { wave ≡ value_of K.reads K.makes self.old key }
        ensures grows { Grows self.old self.new }
        ensures means { IfOk result (IsNumber self.new wave) }
    {
        let number = self.number(wave)?;
        self.made.insert(key, number)?;
        self.recent.add(words);
        self.whole.add(words);
        Ok(number)
    }

    /// How many words of four bytes the waves of these numbers take, at most.
    fn needed_words(&self, alloc: Global, numbers: &[u32]) -> Result<usize, NoMemory>
        requires { AreKnown self.now numbers.now }
    {
        let mut seen = Vec::new(alloc);
        for _wave in 0..self.waves.len() {
            seen.push(false)?;
        }
        let mut words: usize = 0;
        for number in numbers {
            let wave = self.waves.wave(*number).wave();
            if let Some(is_seen) = seen.get_mut(*number as usize) {
                if !*is_seen {
                    *is_seen = true;
                    words = words.saturating_add(wave_words(wave));
                }
            }
        }
        Ok(words)
    }

    /// Whether it is time to forget all that is not needed for the waves of these numbers: since
    /// waves were last forgotten, more came in than twice what those waves take, and more than 16
    /// MB.
    pub fn is_long(&mut self, alloc: Global, numbers: &[u32]) -> Result<bool, NoMemory>
        requires { AreKnown self.old numbers.now }
        ensures { self.new ≡ self.old }
    {
        if !self.recent.is_due() {
            return Ok(false);
        }
        let needed = self.needed_words(alloc, numbers)?;
        Ok(self.recent.is_beyond(needed))
    }

    /// The same of what came in since all was last forgotten but the waves of some numbers (`kept`
    /// was 0).
    pub fn is_long_in_all(&mut self, alloc: Global, numbers: &[u32]) -> Result<bool, NoMemory>
        requires { AreKnown self.old numbers.now }
        ensures { self.new ≡ self.old }
    {
        if !self.whole.is_due() {
            return Ok(false);
        }
        let needed = self.needed_words(alloc, numbers)?;
        Ok(self.whole.is_beyond(needed))
    }

    /// Forgets all evaluations, and all waves but the first so many, whose numbers stay as they
    /// are.
    fn cut(&mut self, kept: usize)
        ensures { self.new ≡ take kept self.old }
    {
        self.made.truncate(0);
        self.waves.cut(kept);
    }

    /// The numbers of the waves that another table has by these numbers, each of which is copied
    /// if it is not here.
    fn take_in(
        &mut self,
        alloc: Global,
        table: &WaveTable<W>,
        numbers: &[u32],
    ) -> Result<Numbers, NoMemory>
        requires { AreKnown table.now numbers.now }
        ensures grows { Grows self.old self.new }
        ensures known { IfOk result (AreKnown self.new) }
        ensures same { IfOk result (λ here.
            waves_at self.new here ≡ waves_at table.now numbers.now) }
    {
        let mut here: Numbers = List::with_room(alloc, numbers.len())?;
        for number in numbers {
            let wave = table.wave(*number).copy(alloc)?;
            let given = self.number(wave)?;
            here.push(given)?;
        }
        Ok(here)
    }

    /// Forgets all evaluations, and of the waves all but the first so many, whose numbers stay as
    /// they are, and those of these numbers, which get new ones: the answer has them in the same
    /// order. If memory runs out the first waves are still there.
    pub fn compact(
        &mut self,
        alloc: Global,
        kept: usize,
        numbers: &[u32],
    ) -> Result<Numbers, NoMemory>
        requires { AreKnown self.old numbers.now }
        ensures grows { Grows (take kept self.old) self.new }
        ensures known { IfOk result (AreKnown self.new) }
        ensures same { IfOk result (λ there.
            waves_at self.new there ≡ waves_at self.old numbers.now) }
    {
        let mut used: WaveTable<W> = WaveTable::new(alloc);
        let places = renumbered(alloc, &self.waves, numbers, &mut used)?;
        self.cut(kept);
        let there = self.take_in(alloc, &used, places.as_slice())?;
        self.recent = Growth::new();
        self.whole = self.whole.after(kept);
        Ok(there)
    }
}
