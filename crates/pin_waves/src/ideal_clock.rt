//! The slots of a clock's wave.

ghost use Rattle.std.specs.Prelude.{◌≡◌, ◌<◌, IfOk, length};
ghost use Rattle.scald_base.specs.Clock.{back, ideal};
ghost use Rattle.scald_base.specs.Time.{period};
ghost use Rattle.pin_waves.specs.Interface.{ideal_slots, sooner, step_value};

use assertion_syntax::ideal;
use scald_base::{ClockSpec, Header, NoMemory};
use std::alloc::Global;
use step_values::Value;

/// The value that permits the one step from this bit to that.
fn step(before: bool, after: bool) -> Value
    ensures { result ≡ step_value before after }
{
    match (before, after) {
        (false, false) => Value::Zero,
        (false, true) => Value::R,
        (true, false) => Value::F,
        (true, true) => Value::One,
    }
}

/// What the ideal clock does in a slot: it rises or falls there, or it is 0 or 1 before and after.
fn clock_value(clock: &ClockSpec, h: &Header, slot: u16) -> Value
    requires { slot < period h.now }
    ensures { result ≡ step_value (ideal clock.now h.now (back (period h.now) slot 1))
        (ideal clock.now h.now slot) }
{
    let period = h.period();
    let before = ideal(clock, h, (slot + (period - 1)) % period);
    step(before, ideal(clock, h, slot))
}

/// The slots of a clock that comes `early` ticks before the ideal one.
pub fn clock_slots(
    alloc: Global,
    clock: &ClockSpec,
    h: &Header,
    early: u16,
) -> Result<Vec<Value>, NoMemory>
    ensures cells { IfOk result (λ cells.
        cells.items ≡ sooner (ideal_slots h.now clock.now) early) }
    ensures sized { IfOk result (λ cells. length cells.items ≡ period h.now) }
{
    let period = h.period();
    let ahead = early % period;
    let mut cells = Vec::with_capacity(alloc, period as usize)?;
    'slots: for slot in 0..period {
        cells.push(clock_value(clock, h, (slot + ahead) % period))?;
    }
    Ok(cells)
}
