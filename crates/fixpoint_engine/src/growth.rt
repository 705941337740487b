//! How much room waves and evaluations take.

use step_values::Value;
use wave_core::CyclicWave;

/// What a wave takes beside its runs, with its place in the table.
const WAVE_WORDS: usize = 32;

/// So many words of four bytes may come in that are not needed: 16 MB.
const SPARE_WORDS: usize = 4_194_304;

/// How many words of four bytes a wave takes that is kept as runs.
pub fn wave_words<W: CyclicWave<Item = Value>>(wave: &W) -> usize {
    WAVE_WORDS.saturating_add(wave.run_count())
}

/// How many words of four bytes came in.
#[derive(Clone, Copy, Drop)]
pub struct Growth {
    words: usize,
    /// From so many words on it is looked whether they are needed.
    look: usize,
}

impl Growth {
    /// Nothing came in.
    pub fn new() -> Growth {
        Growth {
            words: 0,
            look: SPARE_WORDS,
        }
    }

    /// What came in since all was forgotten, once all but the first so many waves are forgotten.
    pub fn after(self, kept: usize) -> Growth {
        if kept == 0 { Growth::new() } else { self }
    }

    /// So many words came in.
    pub fn add(&mut self, words: usize) {
        self.words = self.words.saturating_add(words);
    }

    /// Whether so much came in that it is to be looked whether it is needed.
    pub fn is_due(self) -> bool {
        self.words > self.look
    }

    /// Whether more came in than twice what is needed, and more than is spare. If not, it is looked
    /// again when as much came in as is spare.
    pub fn is_beyond(&mut self, needed: usize) -> bool {
        if self.words > needed.saturating_mul(2).saturating_add(SPARE_WORDS) {
            return true;
        }
        self.look = self.words.saturating_add(SPARE_WORDS);
        false
    }
}
