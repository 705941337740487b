//! Lemmas that go: the worse half, by the levels of their literals and then by age.

use crate::store::Store;
use scald_base::NoMemory;
use std::alloc::Global;

/// More lemmas than so many are reduced for the first time.
const FIRST_LIMIT: usize = 2000;

/// Lemmas on so few levels stay.
const FEW_LEVELS: usize = 2;

/// How many lemmas there may be.
#[derive(Drop)]
pub(crate) struct Reduction {
    limit: usize,
    /// How many there are.
    lemmas: usize,
    /// Which clauses stay.
    marks: Vec<bool>,
    /// The levels of each lemma that may go, and how many clauses are as new as it or newer.
    ranks: Vec<(usize, usize)>,
}

impl Reduction {
    pub(crate) fn new(alloc: Global) -> Reduction {
        Reduction {
            limit: FIRST_LIMIT,
            lemmas: 0,
            marks: Vec::new(alloc),
            ranks: Vec::new(alloc),
        }
    }

    /// Notes a lemma.
    pub(crate) fn count(&mut self) {
        self.lemmas = self.lemmas.saturating_add(1);
    }

    /// Removes lemmas if there are too many. It may come only while no decision stands.
    pub(crate) fn reduce(&mut self, store: &mut Store) -> Result<(), NoMemory> {
        if self.lemmas <= self.limit {
            return Ok(());
        }
        self.rank(store)?;
        let half = self.ranks.len() / 2;
        for (_, age) in self
            .ranks
            .iter()
            .skip(self.ranks.len().saturating_sub(half))
        {
            if let Some(mark) = self.marks.get_mut(store.clauses.len().saturating_sub(*age)) {
                *mark = false;
            }
        }
        store.keep(&self.marks);
        self.lemmas = self.lemmas.saturating_sub(half);
        self.limit = self.limit.saturating_add(self.limit / 10);
        Ok(())
    }

    /// Marks every clause, and ranks the lemmas that may go, the best first.
    fn rank(&mut self, store: &Store) -> Result<(), NoMemory> {
        self.marks.clear();
        self.ranks.clear();
        for (place, clause) in store.clauses.iter().enumerate() {
            self.marks.push(true)?;
            if clause.levels > FEW_LEVELS {
                let age = store.clauses.len().saturating_sub(place);
                self.ranks.push((clause.levels, age))?;
            }
        }
        self.ranks.sort_unstable();
        Ok(())
    }
}
