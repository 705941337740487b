//! Pulses that are to have a width.

ghost use Rattle.std.specs.Prelude.{◌≡◌};
ghost use Rattle.trace_tool.specs.Pass.{FindsFirst, PulseEnds, narrow as is_narrow, width_limit as limit_at};

use crate::step::{begin, latest, step_at};
use flat_circuit::{Instance, Limits};
use trace_sim::Levels;

fn width_limit(limits: Limits, level: bool) -> u16
    ensures { result ≡ limit_at limits level }
{
    if level { limits.high() } else { limits.low() }
}

// Whether the step ends a pulse that is too narrow, which the last step before it began.
fn narrow(limits: Limits, step: Option<bool>, last: Option<u32>, t: u32) -> bool
    ensures { result ≡ is_narrow limits step last t }
{
    match (step, last) {
        (Some(bit), Some(start)) => {
            (t as usize) < start as usize + width_limit(limits, !bit) as usize
        }
        _ => false,
    }
}

/// The first tick that ends a pulse which is too narrow, from a tick on.
pub fn pulse_end(i: &Instance, wires: &[u16], from: u32, ticks: u32, bits: &[Levels]) -> Option<u32>
    ensures { FindsFirst (PulseEnds bits.now i.now wires.now from) ticks result }
{
    let clock = begin(from, wires, 0);
    let mut last = None;
    for t in 0..ticks {
        let step = step_at(bits, i, wires, 0, clock, t as usize);
        if narrow(i.limits, step, last, t) {
            return Some(t);
        }
        last = latest(step.is_some(), last, t);
    }
    None
}
