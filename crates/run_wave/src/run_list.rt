//! A list of runs that grows.

ghost use Rattle.std.specs.Prelude.{◌≡◌, ◌≤◌, ◌<◌, ◌+◌, ◌-◌, ◌^◌, ◌++◌, ◌∷◌, [], ◌↔◌, IsTrue, OnOk, IfOk, length, replicate, take, drop, slice_get, slice_index_or};
ghost use Rattle.std.specs.List.{All};
ghost use Rattle.std.proofs.Props.{props};
ghost use Rattle.run_wave.specs.Mark.{AreMarks};
ghost use Rattle.run_wave.specs.Run.{EndsWith, IsRuns, IsRuns_prop, cells_of};
ghost use Rattle.wave_core.specs.Slots.{SameUntil};

use crate::run::Run;
use scald_base::NoMemory;
use std::alloc::Global;
use std::cmp::min;
use wave_core::Cell;

/// One run in so many is marked.
const STRIDE: usize = 16;

/// The runs of some slots in a row: none is empty, and each has another cell than the one before.
#[derive(Drop, Debug)]
pub struct RunList<T> {
    pub runs: Vec<Run<T>>,
    /// How many slots there are.
    pub slots: u16,
    /// The slots at which every `STRIDE`th run begins: few runs have none, and of many a search
    /// goes over the marks and then over one stride.
    marks: Vec<u16>,
    ghost is_runs: { IsRuns runs.items } by { IsRuns_prop runs.items },
    ghost counted: { slots ≡ length (cells_of runs.items) },
    ghost marked: { AreMarks runs.items marks.items } by { Prim.hlevel props },
}

/// What is still to come of a list of runs: what is left of one, and the runs from `next` on.
#[derive(Clone, Copy)]
pub struct Rest<T> {
    pub run: Run<T>,
    pub next: usize,
}

impl<T: Cell> Rest<T> {
    /// What the next slots have.
    pub fn cell(&self) -> T
        ensures { result ≡ self.now.run.cell }
    {
        self.run.cell
    }
}

impl<T: Cell + Drop> RunList<T> {
    /// No slots.
    pub fn new(alloc: Global) -> RunList<T>
        ensures { result.runs.items ≡ [] }
    {
        RunList {
            runs: Vec::new(alloc),
            slots: 0,
            marks: Vec::new(alloc),
        }
    }

    /// No slots, with room for so many runs.
    pub fn with_room(alloc: Global, runs: usize) -> Result<RunList<T>, NoMemory>
        ensures { IfOk result (λ l. l.runs.items ≡ []) }
    {
        let runs = Vec::with_capacity(alloc, runs)?;
        Ok(RunList {
            runs,
            slots: 0,
            marks: Vec::new(alloc),
        })
    }

    /// How many runs there are.
    pub fn run_count(&self) -> usize {
        self.runs.len()
    }

    /// Whether each run has so many slots.
    pub fn are_wide(&self, width: u16) -> bool
        ensures { IsTrue result → All (λ r. width ≤ r.width) self.now.runs.items }
    {
        for run in &self.runs {
            if run.width < width {
                return false;
            }
        }
        true
    }

    /// Whether the last run has this cell.
    fn ends_with(&self, cell: T) -> bool
        ensures { IsTrue result ↔ EndsWith self.now.runs.items cell }
    {
        let count = self.runs.len();
        if count == 0 {
            return false;
        }
        self.runs[count - 1].cell == cell
    }

    /// Appends `width` slots of a cell.
    #[inline(always)]
    pub fn push(&mut self, cell: T, width: u16) -> Result<(), NoMemory>
        requires { self.old.slots + width < 2 ^ 16 }
        ensures { OnOk result (cells_of self.new.runs.items
            ≡ cells_of self.old.runs.items ++ replicate width cell) }
    {
        if width == 0 {
            return Ok(());
        }
        if self.ends_with(cell) {
            let last = self.runs.len() - 1;
            self.runs[last].width += width;
            self.slots += width;
            return Ok(());
        }
        self.push_run(Run { cell, width })
    }

    /// Appends a run, and marks it if its turn has come.
    fn push_run(&mut self, run: Run<T>) -> Result<(), NoMemory>
        requires room { self.old.slots + run.width < 2 ^ 16 }
        requires some { 0 < run.width }
        requires other { EndsWith self.old.runs.items run.cell → ⊥ }
        ensures { OnOk result (self.new.runs.items ≡ self.old.runs.items ++ run ∷ []) }
    {
        let count = self.runs.len();
        let begin = self.slots;
        self.runs.push(run)?;
        self.slots += run.width;
        if count % STRIDE == 0 && count / STRIDE == self.marks.len() + 1 {
            self.marks.push(begin)?;
        }
        Ok(())
    }

    /// Appends the slots of another list, from one of them on.
    pub fn push_from(&mut self, other: &RunList<T>, start: u16) -> Result<(), NoMemory>
        requires { self.old.slots + (other.now.slots - start) < 2 ^ 16 }
        ensures { OnOk result (cells_of self.new.runs.items
            ≡ cells_of self.old.runs.items ++ drop start (cells_of other.now.runs.items)) }
    {
        let mut skipped = start;
        for run in &other.runs {
            let part = min(skipped, run.width);
            self.push(run.cell, run.width - part)?;
            skipped -= part;
        }
        Ok(())
    }

    /// Appends the first slots of another list, up to one of them.
    pub fn push_until(&mut self, other: &RunList<T>, end: u16) -> Result<(), NoMemory>
        requires { self.old.slots + end < 2 ^ 16 }
        ensures { OnOk result (cells_of self.new.runs.items
            ≡ cells_of self.old.runs.items ++ take end (cells_of other.now.runs.items)) }
    {
        let mut kept = end;
        for run in &other.runs {
            let part = min(kept, run.width);
            self.push(run.cell, part)?;
            kept -= part;
        }
        Ok(())
    }

    /// How many marks there are at or before a slot, if runs are spread evenly over the slots.
    fn even_marks(&self, slot: u16) -> usize
        ensures { result ≤ length self.now.marks.items }
    {
        let slots = usize::from(self.slots);
        if slots == 0 {
            return 0;
        }
        let run = self.runs.len().saturating_mul(usize::from(slot)) / slots;
        min(run / STRIDE, self.marks.len())
    }

    /// How many marks there are at or before a slot. The runs of a dense wave are mostly spread
    /// evenly, so that it is known without a search.
    fn marks_until(&self, slot: u16) -> usize
        ensures known { result ≤ length self.now.marks.items }
        ensures before { 0 < result → slice_index_or self.now.marks.items (result - 1) 0 ≤ slot }
    {
        let even = self.even_marks(slot);
        let is_begun = even == 0 || self.marks[even - 1] <= slot;
        let is_last = even == self.marks.len() || slot < self.marks[even];
        if is_begun && is_last {
            return even;
        }
        self.marks.partition_point(|mark| *mark <= slot)
    }

    /// A run at or before that of a slot, fewer than two strides before it, and the slots that
    /// come before that run.
    fn mark_before(&self, slot: u16) -> (usize, u16)
        ensures known { result.0 ≤ length self.now.runs.items }
        ensures before { result.1 ≤ slot }
        ensures counted { result.1 ≡ length (cells_of (take result.0 self.now.runs.items)) }
    {
        if self.marks.is_empty() {
            return (0, 0);
        }
        let marks = self.marks_until(slot);
        if marks == 0 {
            return (0, 0);
        }
        (STRIDE * marks, self.marks[marks - 1])
    }

    /// The run that a slot is in, and the first slot after that run. If each slot has a run of
    /// its own, as in a wave that changes in every slot, it has the slot's number.
    fn run_with(&self, slot: u16) -> (usize, u16)
        requires { slot < length (cells_of self.now.runs.items) }
        ensures known { result.0 < length self.now.runs.items }
        ensures begun { length (cells_of (take result.0 self.now.runs.items)) ≤ slot }
        ensures behind { slot < result.1 }
        ensures end { result.1 ≡ length (cells_of (take (result.0 + 1) self.now.runs.items)) }
    {
        if self.runs.len() == usize::from(self.slots) {
            return (usize::from(slot), slot + 1);
        }
        let (first, mut end) = self.mark_before(slot);
        for place in first..self.runs.len() {
            end += self.runs[place].width;
            if slot < end {
                return (place, end);
            }
        }
        unreachable!()
    }

    /// The cell of a slot.
    pub fn at(&self, slot: u16) -> T
        requires { slot < length (cells_of self.now.runs.items) }
        ensures { slice_get (cells_of self.now.runs.items) slot ≡ Some result }
    {
        let (place, _end) = self.run_with(slot);
        self.runs[place].cell
    }

    /// The cell of a slot, and the first slot after it that has another one, or the number of
    /// slots.
    pub fn run_at(&self, slot: u16) -> (T, u16)
        requires { slot < length (cells_of self.now.runs.items) }
        ensures cell { slice_get (cells_of self.now.runs.items) slot ≡ Some result.0 }
        ensures end { SameUntil (cells_of self.now.runs.items) slot result.1 }
    {
        let (place, end) = self.run_with(slot);
        (self.runs[place].cell, end)
    }

    /// What `run_at` gives of the slot where so many runs end.
    pub fn run_after(&self, runs: usize, slot: u16) -> (T, u16)
        requires slot { slot < length (cells_of self.now.runs.items) }
        requires runs { slot ≡ length (cells_of (take runs self.now.runs.items)) }
        ensures cell { slice_get (cells_of self.now.runs.items) slot ≡ Some result.0 }
        ensures end { SameUntil (cells_of self.now.runs.items) slot result.1 }
        ensures next { result.1 ≡ length (cells_of (take (runs + 1) self.now.runs.items)) }
    {
        let run = self.runs[runs];
        (run.cell, slot + run.width)
    }

    /// The slots from one of them on: what is left of its run, and the runs after it.
    pub fn from(&self, slot: u16) -> Rest<T>
        requires { slot < length (cells_of self.now.runs.items) }
        ensures cells { cells_of (result.run ∷ drop result.next self.now.runs.items)
            ≡ drop slot (cells_of self.now.runs.items) }
        ensures some { 0 < result.run.width }
    {
        let (place, end) = self.run_with(slot);
        Rest {
            run: Run {
                cell: self.runs[place].cell,
                width: end - slot,
            },
            next: place + 1,
        }
    }

    /// The first slot after this one that has another cell than it, or the number of slots if
    /// there is none.
    pub fn same_until(&self, slot: u16) -> u16
        requires { slot < length (cells_of self.now.runs.items) }
        ensures { SameUntil (cells_of self.now.runs.items) slot result }
    {
        let (_place, end) = self.run_with(slot);
        end
    }

    /// A copy of the slots.
    pub fn copy(&self, alloc: Global) -> Result<RunList<T>, NoMemory>
        ensures { IfOk result (λ l. l.runs.items ≡ self.now.runs.items) }
    {
        let runs = Vec::from_slice(alloc, &self.runs)?;
        let marks = Vec::from_slice(alloc, &self.marks)?;
        Ok(RunList {
            runs,
            slots: self.slots,
            marks,
        })
    }

    /// All slots, of which there are some.
    pub fn whole(&self) -> Rest<T>
        requires { 0 < self.now.slots }
        ensures cells { cells_of (result.run ∷ drop result.next self.now.runs.items)
            ≡ cells_of self.now.runs.items }
        ensures some { 0 < result.run.width }
    {
        Rest {
            run: self.runs[0],
            next: 1,
        }
    }

    /// What is to come after `width` slots of the run that comes next.
    #[inline(always)]
    pub fn after(&self, rest: &Rest<T>, width: u16) -> Rest<T>
        requires { width ≤ rest.now.run.width }
        ensures cells { cells_of (rest.now.run ∷ drop rest.now.next self.now.runs.items)
            ≡ replicate width rest.now.run.cell
            ++ cells_of (result.run ∷ drop result.next self.now.runs.items) }
        ensures some { 0 < length (cells_of (result.run ∷ drop result.next self.now.runs.items)) →
            0 < result.run.width }
    {
        let left = rest.run.width - width;
        if left == 0 && rest.next < self.runs.len() {
            return Rest {
                run: self.runs[rest.next],
                next: rest.next + 1,
            };
        }
        let run = Run {
            cell: rest.run.cell,
            width: left,
        };
        Rest {
            run,
            next: rest.next,
        }
    }
}
