//! Driven nets that are to keep what their names assert.

ghost use Rattle.std.specs.Prelude.{◌≡◌, length, IfOk, MatchBool};
ghost use Rattle.scald_base.specs.Time.{period};
ghost use Rattle.pin_waves.specs.Interface.{wide_wave as wide_cells};
ghost use Rattle.trace_tool.specs.Interface.{row_signal};
ghost use Rattle.trace_tool.specs.Pass.{AssertionEnds, FindsFirst, NetEnds};

use crate::interface::bit_at;
use flat_circuit::Circuit;
use pin_waves::wide_wave;
use scald_base::{AssertSpec, Header, NoMemory};
use std::alloc::Global;
use step_values::{Step, Value};
use trace_sim::Levels;
use wave_core::{CyclicWave, SlotWave};

// Whether a net steps at a tick as its assertion's wave does not have it.
fn assertion_ends<W: CyclicWave<Item = Value>>(
    h: &Header,
    spec: &AssertSpec,
    wide: &W,
    row: &[bool],
    from: u32,
    t: u32,
) -> bool
    requires wide { W.cells wide.now ≡ wide_cells h.now spec.now }
    requires sized { length (W.cells wide.now) ≡ period h.now }
    ensures { MatchBool result (AssertionEnds h.now spec.now (row_signal row.now) from t)
        (¬ (AssertionEnds h.now spec.now (row_signal row.now) from t)) }
{
    if t < from {
        return false;
    }
    if t < 1 {
        return false;
    }
    let step = Step {
        before: bit_at(row, t as usize - 1),
        after: bit_at(row, t as usize),
    };
    !wide.at((t % u32::from(h.period())) as u16).permits(step)
}

fn row_end(
    alloc: Global,
    h: &Header,
    spec: &AssertSpec,
    row: &[bool],
    from: u32,
    ticks: u32,
) -> Result<Option<u32>, NoMemory>
    ensures { IfOk result (λ found.
        FindsFirst (AssertionEnds h.now spec.now (row_signal row.now) from) ticks found) }
{
    let wide: SlotWave<Value> = wide_wave(alloc, spec, h)?;
    for t in 0..ticks {
        if assertion_ends(h, spec, &wide, row, from, t) {
            return Ok(Some(t));
        }
    }
    Ok(None)
}

/// The first tick, from one on, at which an asserted net that something drives does not keep its
/// assertion; other nets have none.
pub fn net_end(
    alloc: Global,
    c: &Circuit,
    number: u32,
    from: u32,
    ticks: u32,
    bits: &[Levels],
) -> Result<Option<u32>, NoMemory>
    ensures { IfOk result (FindsFirst (NetEnds c.now bits.now number from) ticks) }
{
    let Some(net) = c.net(number) else {
        return Ok(None);
    };
    let nothing = AssertSpec::None;
    let spec = net.spec.or(&nothing);
    if net.driver.is_none() || matches!(spec, AssertSpec::None) {
        return Ok(None);
    }
    match bits.get(number as usize) {
        None => row_end(alloc, c.header(), spec, &[], from, ticks),
        Some(row) => row_end(alloc, c.header(), spec, row.as_slice(), from, ticks),
    }
}
