//! What a wave feeds to a hasher.

ghost use Rattle.std.specs.Prelude.{◌≡◌, fold};
ghost use Rattle.fixpoint_engine.specs.Feed.{cells_fed};

use std::hash::Hasher;
use step_values::Value;
use wave_core::CyclicWave;

/// Feeds the cells of a wave to a hasher, in one write for each run of equal cells: waves that
/// differ in a cell mostly differ in a write, and the cost is that of the changes and not of the
/// slots.
pub fn feed<W: CyclicWave<Item = Value>, H: Hasher>(wave: &W, state: &mut H)
    ensures { state.new ≡ fold H.write state.old (cells_fed (W.cells wave.now)) }
{
    let period = wave.period();
    let mut count = 0;
    let mut slot = 0;
    'runs: while slot < period {
        let (cell, end) = wave.run_after(count, slot);
        state.write_u32(u32::from(cell.letter()) * 65_536 + u32::from(period - end));
        count += 1;
        slot = end;
    }
}
