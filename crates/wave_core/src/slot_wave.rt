//! A wave that keeps its cells one by one.

ghost use Rattle.std.specs.Prelude.{◌≡◌, ◌+◌, ◌*◌, ◌<◌, ◌++◌, true, IfOk, OnOk, length, min};
ghost use Rattle.std.specs.List.{list_all};
ghost use Rattle.wave_core.specs.Fold.{line as line_of, tails as tails_of};
ghost use Rattle.wave_core.specs.Slots.{IsPeriod, earlier, fold_at, folded, later, slots};

use crate::cell::Cell;
use crate::cyclic_wave::CyclicWave;
use scald_base::NoMemory;
use std::alloc::Global;
use std::cmp::min;

/// The cells of a wave, slot by slot.
#[derive(Drop, Debug)]
pub struct SlotWave<T> {
    cells: Vec<T>,
    ghost sized: { IsPeriod (length cells.items) },
}

impl<T: Cell + Drop> SlotWave<T> {
    /// Whether each cell is this one.
    fn all_are(&self, cell: T) -> bool
        ensures { result ≡ list_all (λ c. T.eq c cell) self.now.cells.items }
    {
        self.cells.iter().all(|c| *c == cell)
    }

    /// Whether it is seen at once that the fold is the wave itself: no slot is folded in, or all
    /// slots have one cell.
    fn is_own_fold(&self, back: u16) -> bool
        ensures { result ≡ true → folded T.kind self.now.cells.items back ≡ self.now.cells.items }
    {
        back == 0 || self.all_are(self.cells[0])
    }

    /// Appends the cells of the wave that comes `by` slots later.
    fn push_later(&self, cells: &mut Vec<T>, by: usize) -> Result<(), NoMemory>
        ensures { OnOk result (cells.new.items ≡ cells.old.items
            ++ later T.kind self.now.cells.items by) }
    {
        let period = self.cells.len();
        let begin = period - by % period;
        cells.extend_from_slice(&self.cells[begin..])?;
        cells.extend_from_slice(&self.cells[..begin])?;
        Ok(())
    }

    /// The cells from `back` slots before the first one on, over two periods.
    fn line(&self, alloc: Global, back: usize) -> Result<Vec<T>, NoMemory>
        ensures { IfOk result (λ line. line.items ≡ line_of T.kind self.now.cells.items back) }
    {
        let mut line = Vec::with_capacity(alloc, 2 * self.cells.len())?;
        self.push_later(&mut line, back)?;
        self.push_later(&mut line, back)?;
        Ok(line)
    }

    /// The cell `back` slots before a slot of this period or the next, if `line` has those
    /// cells.
    fn cell_before(&self, line: &[T], slot: usize, back: usize) -> T
        requires line { line.now ≡ line_of T.kind self.now.cells.items back }
        requires near { slot < 2 * length self.now.cells.items }
        ensures { result ≡ earlier T.kind self.now.cells.items slot back }
    {
        line[slot]
    }

    /// Puts the joins of the last cells of the block that begins at slot `from` in place of what
    /// was in `tails`: of its last cell, of its last two cells, and so on to all `back + 1` of
    /// them.
    fn find_tails(
        &self,
        tails: &mut Vec<T>,
        line: &[T],
        from: usize,
        back: usize,
    ) -> Result<(), NoMemory>
        requires line { line.now ≡ line_of T.kind self.now.cells.items back }
        requires near { from < length self.now.cells.items }
        requires within { back < length self.now.cells.items }
        ensures { OnOk result (tails.new.items ≡ tails_of T.kind self.now.cells.items back from) }
    {
        tails.clear();
        let mut joined = self.cell_before(line, from + back, back);
        tails.push(joined)?;
        for n in 0..back {
            joined = self
                .cell_before(line, from + (back - (n + 1)), back)
                .join(joined);
            tails.push(joined)?;
        }
        Ok(())
    }

    /// Appends the folds of a block to those of the slots before it, from the tails of the block
    /// and the first cells of the next.
    fn push_block(
        &self,
        cells: &mut Vec<T>,
        tails: &[T],
        line: &[T],
        back: usize,
    ) -> Result<(), NoMemory>
        requires line { line.now ≡ line_of T.kind self.now.cells.items back }
        requires near { length cells.old.items < length self.now.cells.items }
        requires within { back < length self.now.cells.items }
        requires so_far { cells.old.items ≡ slots (length cells.old.items)
            (fold_at T.kind self.now.cells.items back) }
        requires tails { tails.now ≡ tails_of T.kind self.now.cells.items back
            (length cells.old.items) }
        ensures { OnOk result
            (cells.new.items ≡ slots (min (length cells.old.items + (back + 1))
            (length self.now.cells.items))
            (fold_at T.kind self.now.cells.items back)) }
    {
        let from = cells.len();
        let end = min(from + (back + 1), self.cells.len());
        cells.push(tails[back])?;
        let mut joined = self.cell_before(line, from + (back + 1), back);
        for slot in from + 1..end {
            cells.push(tails[from + back - slot].join(joined))?;
            joined = joined.join(self.cell_before(line, slot + (back + 1), back));
        }
        Ok(())
    }
}

impl<T: Cell + Drop> CyclicWave for SlotWave<T> {
    type Item = T;

    ghost cells = { λ w. w.cells.items };

    // Each slot is a run: nothing is to be known of how many there were.
    ghost ends_at = { λ w runs slot. Unit {0} };

    ghost none_end = { λ w. tt };

    ghost sized = { λ w. w.sized };

    fn uniform(alloc: Global, period: u16, cell: T) -> Result<SlotWave<T>, NoMemory> {
        let mut cells = Vec::with_capacity(alloc, period as usize)?;
        for _slot in 0..period {
            cells.push(cell)?;
        }
        Ok(SlotWave { cells })
    }

    fn from_slots(alloc: Global, slots: &[T]) -> Result<SlotWave<T>, NoMemory> {
        let cells = Vec::from_slice(alloc, slots)?;
        Ok(SlotWave { cells })
    }

    fn period(&self) -> u16 {
        self.cells.len() as u16
    }

    fn at(&self, slot: u16) -> T {
        self.cells[slot as usize]
    }

    fn run_after(&self, _runs: usize, slot: u16) -> (T, u16) {
        self.run_at(slot)
    }

    fn run_count(&self) -> usize {
        self.cells.len()
    }

    fn equal(&self, other: &SlotWave<T>) -> bool {
        self.cells == other.cells
    }

    fn rotate(&self, alloc: Global, by: u16) -> Result<SlotWave<T>, NoMemory> {
        let mut cells = Vec::with_capacity(alloc, self.cells.len())?;
        self.push_later(&mut cells, by as usize)?;
        Ok(SlotWave { cells })
    }

    fn map<F: Fn(T) -> T>(&self, alloc: Global, f: F) -> Result<SlotWave<T>, NoMemory> {
        let mut cells = Vec::with_capacity(alloc, self.cells.len())?;
        for cell in &self.cells {
            cells.push(f(*cell))?;
        }
        Ok(SlotWave { cells })
    }

    fn zip<F: Fn(T, T) -> T>(
        &self,
        alloc: Global,
        other: &SlotWave<T>,
        f: F,
    ) -> Result<SlotWave<T>, NoMemory> {
        let mut cells = Vec::with_capacity(alloc, self.cells.len())?;
        for (slot, cell) in self.cells.iter().enumerate() {
            cells.push(f(*cell, other.cells[slot]))?;
        }
        Ok(SlotWave { cells })
    }

    fn fold(&self, alloc: Global, back: u16) -> Result<SlotWave<T>, NoMemory> {
        if self.is_own_fold(back) {
            return self.copy(alloc);
        }
        let period = self.cells.len();
        let back = back as usize;
        let line = self.line(alloc, back)?;
        let mut cells = Vec::with_capacity(alloc, period)?;
        let mut tails = Vec::with_capacity(alloc, back + 1)?;
        while cells.len() < period {
            self.find_tails(&mut tails, &line, cells.len(), back)?;
            self.push_block(&mut cells, &tails, &line, back)?;
        }
        Ok(SlotWave { cells })
    }

    fn copy(&self, alloc: Global) -> Result<SlotWave<T>, NoMemory> {
        let cells = Vec::from_slice(alloc, &self.cells)?;
        Ok(SlotWave { cells })
    }
}
