//! The slots of a stable net's wave.

ghost use Rattle.std.specs.Prelude.{◌≡◌, IfOk, if◌then◌else◌, length};
ghost use Rattle.scald_base.specs.Quiet.{quiet};
ghost use Rattle.scald_base.specs.Time.{period};
ghost use Rattle.step_values.specs.declared.value.Value.TheVariants.{S, C};
ghost use Rattle.pin_waves.specs.Interface.{stable_wave};

use assertion_syntax::quiet;
use scald_base::{Header, NoMemory, Spans};
use std::alloc::Global;
use step_values::Value;

/// What a net that keeps its value inside the intervals may do in a slot.
fn stable_value(spans: &Spans, h: &Header, slot: u16) -> Value
    ensures { result ≡ (if quiet spans.now h.now slot then S else C) }
{
    if quiet(spans, h, slot) {
        Value::S
    } else {
        Value::C
    }
}

/// The slots of a net that keeps its value inside the intervals.
pub fn stable_slots(alloc: Global, spans: &Spans, h: &Header) -> Result<Vec<Value>, NoMemory>
    ensures cells { IfOk result (λ cells. cells.items ≡ (stable_wave h.now spans.now).cells) }
    ensures sized { IfOk result (λ cells. length cells.items ≡ period h.now) }
{
    let period = h.period();
    let mut cells = Vec::with_capacity(alloc, period as usize)?;
    'slots: for slot in 0..period {
        cells.push(stable_value(spans, h, slot))?;
    }
    Ok(cells)
}
