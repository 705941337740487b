//! How narrow the pulses of a wave may be.

ghost use Rattle.std.specs.Prelude.{◌≡◌, ◌<◌, ◌≤◌, length};
ghost use Rattle.fixpoint_engine.specs.Pins.{read};
ghost use Rattle.pulse_check.specs.Pulse.{first_narrow as narrow_pulse, least_width as least_width_of, may_begin as begins, may_end as ends, may_last as lasts, narrow_at as narrow_in};
ghost use Rattle.pulse_check.specs.Next.{IsNextStart};

use step_values::{Step, Value};
use wave_core::CyclicWave;

/// Whether a pulse at the level may begin in a slot of this value.
fn may_begin(level: bool, value: Value) -> bool
    ensures { result ≡ begins level value }
{
    value.permits(Step {
        before: !level,
        after: level,
    })
}

/// Whether it may end there.
fn may_end(level: bool, value: Value) -> bool
    ensures { result ≡ ends level value }
{
    value.permits(Step {
        before: level,
        after: !level,
    })
}

/// Whether it may go on there.
fn may_last(level: bool, value: Value) -> bool
    ensures { result ≡ lasts level value }
{
    value.permits(Step {
        before: level,
        after: level,
    })
}

/// The least width below the limit of a pulse that begins in this slot.
fn least_width<W: CyclicWave<Item = Value>>(
    wave: &W,
    level: bool,
    limit: u16,
    start: u16,
) -> Option<u16>
    requires start { start < length (W.cells wave.now) }
    requires limit { limit ≤ length (W.cells wave.now) }
    ensures { result ≡ least_width_of level (read (W.cells wave.now)) limit start }
{
    let period = wave.period();
    let mut width = 1;
    'runs: while width < limit {
        let slot = (start + width) % period;
        let value = wave.at(slot);
        if may_end(level, value) {
            return Some(width);
        }
        if !may_last(level, value) {
            return None;
        }
        width += wave.same_until(slot) - slot;
    }
    None
}

/// The least width below the limit of a pulse at the level that may begin in this slot, with the
/// slot.
fn narrow_at<W: CyclicWave<Item = Value>>(
    wave: &W,
    level: bool,
    limit: u16,
    start: u16,
) -> Option<(u16, u16)>
    requires start { start < length (W.cells wave.now) }
    requires limit { limit ≤ length (W.cells wave.now) }
    ensures { result ≡ narrow_in level (read (W.cells wave.now)) limit start }
{
    if !may_begin(level, wave.at(start)) {
        return None;
    }
    match least_width(wave, level, limit, start) {
        None => None,
        Some(width) => Some((start, width)),
    }
}

/// The first slot from this one on in which a pulse at the level may begin, or the period if
/// there is none.
fn next_start<W: CyclicWave<Item = Value>>(wave: &W, level: bool, from: u16) -> u16
    requires { from ≤ length (W.cells wave.now) }
    ensures { IsNextStart level (read (W.cells wave.now)) from (length (W.cells wave.now)) result }
{
    let period = wave.period();
    let mut slot = from;
    'runs: while slot < period {
        if may_begin(level, wave.at(slot)) {
            return slot;
        }
        slot = wave.same_until(slot);
    }
    period
}

/// The first slot in which a pulse at the level may begin that is narrower than the limit, and the
/// least width of such a pulse.
pub fn first_narrow<W: CyclicWave<Item = Value>>(
    wave: &W,
    level: bool,
    limit: u16,
) -> Option<(u16, u16)>
    requires { limit ≤ length (W.cells wave.now) }
    ensures { result ≡ narrow_pulse (length (W.cells wave.now)) level
        (read (W.cells wave.now)) limit }
{
    let mut start = 0;
    'starts: while start < wave.period() {
        if let Some(found) = narrow_at(wave, level, limit, start) {
            return Some(found);
        }
        start = next_start(wave, level, start + 1);
    }
    None
}
