//! Checkers of setup and hold whose clock may be late as a whole.

ghost use Rattle.std.specs.Prelude.{◌≡◌, ◌++◌, IfOk, OnOk};
ghost use Rattle.drawing_notes.specs.Common.{skew_at as spec_skew_at};
ghost use Rattle.drawing_notes.specs.Doubts.{AreDoubts, doubt_at, if_some};

use crate::skews::skew_at;
use crate::{CLOCK, INPUT, pin_net};
use flat_circuit::Circuit;
use scald_base::NoMemory;
use std::alloc::Global;

/// Such a checker.
#[derive(Clone, Copy)]
pub struct Doubt {
    /// The number of the instance.
    pub checker: u32,
    /// The number of the net that its clock is on.
    pub clock: u32,
    /// The number of the net that its input is on.
    pub input: u32,
}

/// An instance, if it is such a checker.
pub(crate) fn doubt_about(c: &Circuit, skews: &[u16], number: u32) -> Option<Doubt>
    ensures { result ≡ doubt_at c.now (spec_skew_at skews.now) number }
{
    let instance = c.instance(number)?;
    if !instance.kind.checks_points() {
        return None;
    }
    let clock = pin_net(instance, CLOCK)?;
    let input = pin_net(instance, INPUT)?;
    if skew_at(skews, clock) == 0 {
        return None;
    }
    Some(Doubt {
        checker: number,
        clock,
        input,
    })
}

/// Appends an instance, if it is such a checker.
fn add_doubt(
    doubts: &mut Vec<Doubt>,
    c: &Circuit,
    skews: &[u16],
    number: u32,
) -> Result<(), NoMemory>
    ensures { OnOk result (doubts.new.items
        ≡ doubts.old.items ++ if_some (doubt_at c.now (spec_skew_at skews.now) number)) }
{
    match doubt_about(c, skews, number) {
        Some(doubt) => Ok(doubts.push(doubt)?),
        None => Ok(()),
    }
}

/// All such checkers. Those of one clock follow one another.
pub(crate) fn doubts(alloc: Global, c: &Circuit, skews: &[u16]) -> Result<Vec<Doubt>, NoMemory>
    ensures { IfOk result (λ doubts. AreDoubts c.now (spec_skew_at skews.now) doubts.items) }
{
    let mut doubts = Vec::new(alloc);
    for number in 0..c.instance_count() {
        add_doubt(&mut doubts, c, skews, number)?;
    }
    doubts.sort_unstable_by_key(|doubt| doubt.clock);
    Ok(doubts)
}
