//! A wave over one period.

ghost use Rattle.std.specs.Prelude.{◌≡◌, ◌+◌, ◌<◌, ◌↔◌, ℕ, IsTrue, IfOk, List, length, zip, slice_get};
ghost use Rattle.std.specs.List.{AllZip};
ghost use Rattle.wave_core.specs.Slots.{IsPeriod, SameUntil, folded, later, slots};

use crate::cell::Cell;
use scald_base::NoMemory;
use std::alloc::Global;

/// A cell for each slot of a period of 2 to 4,096 slots.
pub trait CyclicWave: Sized + Drop {
    /// What stands in a slot.
    type Item: Cell;

    /// The cells, slot by slot.
    ghost cells: { Self → List Self.Item };

    /// So many of the runs in which the wave is kept end where this slot begins.
    ghost ends_at: { Self → ℕ → ℕ → Type 0 };

    /// The wave of `period` slots that has the cell in each of them.
    fn uniform(alloc: Global, period: u16, cell: Self::Item) -> Result<Self, NoMemory>
        requires { IsPeriod period }
        ensures { IfOk result (λ w. cells w ≡ slots period (λ p. cell)) };

    /// The wave of these cells, slot by slot.
    fn from_slots(alloc: Global, slots: &[Self::Item]) -> Result<Self, NoMemory>
        requires { IsPeriod (length slots.now) }
        ensures { IfOk result (λ w. cells w ≡ slots.now) };

    /// How many slots there are.
    fn period(&self) -> u16
        ensures { result ≡ length (cells self.now) };

    /// The cell of a slot.
    fn at(&self, slot: u16) -> Self::Item
        requires { slot < length (cells self.now) }
        ensures { slice_get (cells self.now) slot ≡ Some result };

    /// The first slot after this one that has another cell than it, or the period if there is
    /// none: what is read off the cells from slot to slot may go on there.
    fn same_until(&self, slot: u16) -> u16
        requires { slot < length (cells self.now) }
        ensures { SameUntil (cells self.now) slot result }
    {
        let cell = self.at(slot);
        for next in slot + 1..self.period() {
            if self.at(next) != cell {
                return next;
            }
        }
        self.period()
    }

    /// The cell of a slot, and the first slot after it that has another one, or the period.
    fn run_at(&self, slot: u16) -> (Self::Item, u16)
        requires { slot < length (cells self.now) }
        ensures cell { slice_get (cells self.now) slot ≡ Some result.0 }
        ensures end { SameUntil (cells self.now) slot result.1 }
    {
        (self.at(slot), self.same_until(slot))
    }

    /// What `run_at` gives of the slot where so many runs end, without a search: for a walk from
    /// run to run, which begins with no run at slot 0.
    fn run_after(&self, runs: usize, slot: u16) -> (Self::Item, u16)
        requires slot { slot < length (cells self.now) }
        requires runs { ends_at self.now runs slot }
        ensures cell { slice_get (cells self.now) slot ≡ Some result.0 }
        ensures end { SameUntil (cells self.now) slot result.1 }
        ensures next { ends_at self.now (runs + 1) result.1 };

    /// How many runs the wave is kept in, each of which takes room.
    fn run_count(&self) -> usize;

    /// Whether the two have the same cells.
    fn equal(&self, other: &Self) -> bool
        ensures { IsTrue result ↔ (cells self.now ≡ cells other.now) };

    /// The wave that comes `by` slots later: slot p has the cell of slot p - by.
    fn rotate(&self, alloc: Global, by: u16) -> Result<Self, NoMemory>
        ensures { IfOk result (λ w. cells w ≡ later Self.Item.kind (cells self.now) by) };

    /// The wave that has what `f` gives of each cell.
    fn map<F: Fn(Self::Item) -> Self::Item>(&self, alloc: Global, f: F) -> Result<Self, NoMemory>
        requires { F.IsAlwaysCallable f }
        ensures { IfOk result (λ w. AllZip (λ c d. F.post f c d) (cells self.now) (cells w)) };

    /// The wave that has what `f` gives of the two cells of each slot.
    fn zip<F: Fn(Self::Item, Self::Item) -> Self::Item>(
        &self,
        alloc: Global,
        other: &Self,
        f: F,
    ) -> Result<Self, NoMemory>
        requires callable { F.IsAlwaysCallable f }
        requires periods { length (cells self.now) ≡ length (cells other.now) }
        ensures { IfOk result (λ w.
            AllZip (λ p d. F.post f p.0 p.1 d) (zip (cells self.now) (cells other.now))
            (cells w)) };

    /// The wave whose slot p has the join of the cells at the slots p - back to p.
    fn fold(&self, alloc: Global, back: u16) -> Result<Self, NoMemory>
        requires { back < length (cells self.now) }
        ensures { IfOk result (λ w. cells w ≡ folded Self.Item.kind (cells self.now) back) };

    /// A wave with the same cells.
    fn copy(&self, alloc: Global) -> Result<Self, NoMemory>
        ensures { IfOk result (λ w. cells w ≡ cells self.now) };

    /// No run ends at slot 0.
    ghost none_end: { (w : Self) → ends_at w 0 0 };

    /// How many slots there may be.
    ghost sized: { (w : Self) → IsPeriod (length (cells w)) };
}
