//! Inputs that are to stay about the edges of a clock.

ghost use Rattle.std.specs.Prelude.{◌≡◌, ◌||◌};
ghost use Rattle.flat_circuit.specs.Limits.{hold_of, setup_of};
ghost use Rattle.trace_tool.specs.Pass.{FindsFirst, WindowEnds, breaks_hold as breaks_hold_time, breaks_setup as breaks_setup_time, opened_by as first_edge};

use crate::step::{begin, latest, step_at};
use element_kinds::Check;
use flat_circuit::{Instance, Limits};
use trace_sim::Levels;

// The first of the two edges about which the input is to stay, if the second comes at this tick:
// a rise is both, and a fall ends what the step before it began.
fn opened_by(check: Check, step: Option<bool>, last: Option<u32>, t: u32) -> Option<u32>
    ensures { result ≡ first_edge check step last t }
{
    match (check, step) {
        (Check::SetupHold, Some(true)) => Some(t),
        (Check::RiseFall, Some(false)) => last,
        _ => None,
    }
}

// Whether the last change comes after the setup time begins.
fn breaks_setup(edge: Option<u32>, change: Option<u32>, setup: u16) -> bool
    ensures { result ≡ breaks_setup_time edge change setup }
{
    match (edge, change) {
        (Some(edge), Some(change)) => edge as usize + 1 <= change as usize + setup as usize,
        _ => false,
    }
}

// Whether the input changes before the hold time ends.
fn breaks_hold(changes: bool, edge: Option<u32>, hold: u16, t: u32) -> bool
    ensures { result ≡ breaks_hold_time changes edge hold t }
{
    match (changes, edge) {
        (true, Some(edge)) => t as usize <= edge as usize + hold as usize,
        _ => false,
    }
}

// Whether a break ends at a tick, by the edges and the changes that are named.
fn breaks(
    limits: Limits,
    edge: Option<u32>,
    change: Option<u32>,
    close: Option<u32>,
    changes: bool,
    t: u32,
) -> bool
    ensures { result
        ≡ (breaks_setup_time edge change (setup_of limits)
        || breaks_hold_time changes close (hold_of limits) t) }
{
    breaks_setup(edge, change, limits.setup()) || breaks_hold(changes, close, limits.hold(), t)
}

/// The first tick that ends a break of a setup or hold time, from a tick on. What matters before it
/// are the last change of the input, the last step of the clock and the last edge from which the
/// input is held.
pub fn window_end(
    check: Check,
    i: &Instance,
    wires: &[u16],
    from: u32,
    ticks: u32,
    bits: &[Levels],
) -> Option<u32>
    ensures { FindsFirst (WindowEnds check bits.now i.now wires.now from) ticks result }
{
    let clock = begin(from, wires, 0);
    let input = begin(from, wires, 1);
    let mut last = None;
    let mut close = None;
    let mut change = None;
    for t in 0..ticks {
        let step = step_at(bits, i, wires, 0, clock, t as usize);
        let changes = step_at(bits, i, wires, 1, input, t as usize).is_some();
        let edge = opened_by(check, step, last, t);
        change = latest(changes, change, t);
        if breaks(i.limits, edge, change, close, changes, t) {
            return Some(t);
        }
        close = latest(edge.is_some(), close, t);
        last = latest(step.is_some(), last, t);
    }
    None
}
