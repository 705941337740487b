//! Joins of a wave's cells that go from change to change.

ghost use Rattle.std.specs.Prelude.{◌≡◌, ◌-◌, ◌<◌, ◌≤◌, length};
ghost use Rattle.wave_core.specs.Slots.{join_round};

use crate::cell::Cell;
use crate::cyclic_wave::CyclicWave;

/// The join of the cells of `count` slots from slot `from` on, counted round the period. Slots in a
/// row that have one cell are joined once.
pub fn joined_from<W: CyclicWave>(wave: &W, from: u16, count: u16) -> W::Item
    requires from { from < length (W.cells wave.now) }
    requires some { 0 < count }
    requires count { count ≤ length (W.cells wave.now) }
    ensures { result ≡ join_round W.Item.kind (W.cells wave.now) from (count - 1) }
{
    let period = wave.period();
    let (mut all, end) = wave.run_at(from);
    let mut place = end - from;
    while place < count {
        let slot = (from + place) % period;
        let (cell, end) = wave.run_at(slot);
        all = all.join(cell);
        place += end - slot;
    }
    all
}
