//! A search of a wave that goes from change to change.

ghost use Rattle.std.specs.Prelude.{◌*◌, ◌<◌, ◌≤◌, length};
ghost use Rattle.wave_core.specs.Slots.{FirstWhere};

use crate::cyclic_wave::CyclicWave;

/// The first of `count` places whose cell passes a test, or `None` if none of them does: the
/// cell at a place is that of slot `from + place`, counted round the period. The test is asked once
/// for slots in a row that have one cell.
pub fn first_where<W: CyclicWave, F: Fn(W::Item) -> bool>(
    wave: &W,
    from: u16,
    count: u16,
    test: F,
) -> Option<u16>
    requires callable { F.IsAlwaysCallable test }
    requires from { from < length (W.cells wave.now) }
    requires count { count ≤ 2 * length (W.cells wave.now) }
    ensures { FirstWhere W.Item.kind (W.cells wave.now)
        (λ c passes. F.post test c passes) from count result }
{
    let period = wave.period();
    let mut place = 0;
    while place < count {
        let slot = (from + place) % period;
        let (cell, end) = wave.run_at(slot);
        if test(cell) {
            return Some(place);
        }
        place += end - slot;
    }
    None
}
