//! A wave that keeps its cells as runs.

ghost use Rattle.std.specs.Prelude.{◌≡◌, ◌<◌, IfOk, length, map, refl, take, zip};
ghost use Rattle.std.specs.List.{sum_by};
ghost use Rattle.run_wave.specs.Run.{IsRuns, cells_of};
ghost use Rattle.wave_core.specs.Slots.{IsPeriod, later};

use crate::run::Run;
use crate::run_list::RunList;
use scald_base::NoMemory;
use std::alloc::Global;
use std::cmp::min;
use wave_core::{Cell, CyclicWave};

/// The runs of a wave, from slot 0 on: as few as there can be.
#[derive(Drop, Debug)]
pub struct RunWave<T> {
    list: RunList<T>,
    ghost sized: { IsPeriod (length (cells_of list.runs.items)) },
}

impl<T: Cell + Drop> RunWave<T> {
    /// The runs: spelled out they are the cells of the wave, so their widths sum to the period.
    /// None is empty, and each has another cell than the one before. The last may have the cell of
    /// the first.
    pub fn runs(&self) -> &[Run<T>]
        ensures spelled { cells_of result.now ≡ ⟦<RunWave<T> as CyclicWave>⟧.cells self.now }
        ensures whole { sum_by (λ r. r.width) result.now
            ≡ length (⟦<RunWave<T> as CyclicWave>⟧.cells self.now) }
        ensures few { IsRuns result.now }
    {
        &self.list.runs
    }
}

impl<T: Cell + Drop> RunWave<T> {
    /// The wave whose slots have the join of the cells there and `by` slots earlier.
    fn joined_later(&self, alloc: Global, by: u16) -> Result<RunWave<T>, NoMemory>
        requires some { 0 < by }
        requires below { by < self.now.list.slots }
        ensures { IfOk result (λ w. cells_of w.list.runs.items ≡ map (λ q. T.kind.join q.0 q.1)
            (zip (cells_of self.now.list.runs.items)
            (later T.kind (cells_of self.now.list.runs.items) by))) }
    {
        let most = self.list.run_count().saturating_mul(2).saturating_add(1);
        let mut list = RunList::with_room(alloc, most)?;
        let mut now = self.list.whole();
        let mut earlier = self.list.from(self.list.slots - by);
        'parts: while now.run.width > 0 {
            let width = min(now.run.width, earlier.run.width);
            list.push(now.cell().join(earlier.cell()), width)?;
            now = self.list.after(&now, width);
            earlier = self.list.after(&earlier, width);
            if earlier.run.width == 0 {
                earlier = self.list.whole();
            }
        }
        Ok(RunWave { list })
    }
}

impl<T: Cell + Drop> CyclicWave for RunWave<T> {
    type Item = T;

    ghost cells = { λ w. cells_of w.list.runs.items };

    ghost ends_at = { λ w runs slot. slot ≡ length (cells_of (take runs w.list.runs.items)) };

    ghost none_end = { λ w. refl };

    ghost sized = { λ w. w.sized };

    fn uniform(alloc: Global, period: u16, cell: T) -> Result<RunWave<T>, NoMemory> {
        let mut list = RunList::with_room(alloc, 1)?;
        list.push(cell, period)?;
        Ok(RunWave { list })
    }

    fn from_slots(alloc: Global, slots: &[T]) -> Result<RunWave<T>, NoMemory> {
        let mut list = RunList::new(alloc);
        for cell in slots {
            list.push(*cell, 1)?;
        }
        Ok(RunWave { list })
    }

    fn period(&self) -> u16 {
        self.list.slots
    }

    fn at(&self, slot: u16) -> T {
        self.list.at(slot)
    }

    fn same_until(&self, slot: u16) -> u16 {
        self.list.same_until(slot)
    }

    fn run_at(&self, slot: u16) -> (T, u16) {
        self.list.run_at(slot)
    }

    fn run_after(&self, runs: usize, slot: u16) -> (T, u16) {
        self.list.run_after(runs, slot)
    }

    fn run_count(&self) -> usize {
        self.list.run_count()
    }

    fn equal(&self, other: &RunWave<T>) -> bool {
        self.list.runs == other.list.runs
    }

    fn rotate(&self, alloc: Global, by: u16) -> Result<RunWave<T>, NoMemory> {
        let period = self.list.slots;
        let first = period - by % period;
        if first == period {
            return self.copy(alloc);
        }
        let mut list = RunList::with_room(alloc, self.list.run_count().saturating_add(1))?;
        list.push_from(&self.list, first)?;
        list.push_until(&self.list, first)?;
        Ok(RunWave { list })
    }

    fn map<F: Fn(T) -> T>(&self, alloc: Global, f: F) -> Result<RunWave<T>, NoMemory> {
        let mut list = RunList::with_room(alloc, self.list.run_count())?;
        for run in &self.list.runs {
            list.push(f(run.cell), run.width)?;
        }
        Ok(RunWave { list })
    }

    fn zip<F: Fn(T, T) -> T>(
        &self,
        alloc: Global,
        other: &RunWave<T>,
        f: F,
    ) -> Result<RunWave<T>, NoMemory> {
        let most = self.list.run_count().saturating_add(other.list.run_count());
        let mut list = RunList::with_room(alloc, most)?;
        let mut mine = self.list.whole();
        let mut theirs = other.list.whole();
        'parts: while mine.run.width > 0 {
            let width = min(mine.run.width, theirs.run.width);
            list.push(f(mine.cell(), theirs.cell()), width)?;
            mine = self.list.after(&mine, width);
            theirs = other.list.after(&theirs, width);
        }
        Ok(RunWave { list })
    }

    /// Where no run is narrower, a slot sees two runs at most. Else by doubling: the folds over
    /// twice as many slots are those over half of them, joined with themselves that much later.
    fn fold(&self, alloc: Global, back: u16) -> Result<RunWave<T>, NoMemory> {
        if back == 0 {
            return self.copy(alloc);
        }
        if self.list.are_wide(back) {
            return self.joined_later(alloc, back);
        }
        let mut wave = self.joined_later(alloc, 1)?;
        let mut reach = 1;
        while reach < back {
            let by = min(reach + 1, back - reach);
            wave = wave.joined_later(alloc, by)?;
            reach += by;
        }
        Ok(wave)
    }

    fn copy(&self, alloc: Global) -> Result<RunWave<T>, NoMemory> {
        let list = self.list.copy(alloc)?;
        Ok(RunWave { list })
    }
}
