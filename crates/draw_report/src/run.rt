//! The runs of a wave on a time line without end.

ghost use Rattle.std.specs.Prelude.{◌≡◌, ◌+◌, ◌<◌, ◌≤◌, ◌^◌, ℕ, IfOk, length};
ghost use Rattle.draw_report.specs.Wave.{IsRunEnd, cell_at, runs_from, stroke};

use crate::shape::Stroke;
use scald_base::{List, NoMemory};
use std::alloc::Global;
use step_values::Value;
use wave_core::CyclicWave;

/// So many slots side by side with one value, from a slot of the view on.
#[derive(Clone, Copy)]
pub struct Placed {
    pub value: Value,
    pub from: u32,
    pub width: u32,
}

impl Placed {
    /// Where it is drawn, where a slot is so wide.
    pub fn stroke(self, scale: u32) -> Stroke
        ensures { result ≡ stroke scale self }
    {
        Stroke {
            x: u64::from(scale) * u64::from(self.from),
            width: u64::from(scale) * u64::from(self.width),
            is_single: self.width == 1,
        }
    }
}

/// The value in a slot, which may be past the period.
fn value_at<W: CyclicWave<Item = Value>>(wave: &W, slot: u32) -> Value
    ensures { result ≡ cell_at (W.cells wave.now) slot }
{
    wave.at((slot % u32::from(wave.period())) as u16)
}

/// The slot at which the wave's list of runs goes on after this one.
fn listed_until<W: CyclicWave<Item = Value>>(wave: &W, slot: u32) -> u32
    requires { slot < 2 ^ 31 }
    ensures later { slot < result }
    ensures same { (k : ℕ) → slot ≤ k → k < result →
        cell_at (W.cells wave.now) k ≡ cell_at (W.cells wave.now) slot }
{
    let within = slot % u32::from(wave.period());
    slot - within + u32::from(wave.same_until(within as u16))
}

/// The first slot after this one that has another value, or the limit where there is none before
/// it.
fn run_end<W: CyclicWave<Item = Value>>(wave: &W, slot: u32, limit: u32) -> u32
    requires within { slot < limit }
    requires few { limit < 2 ^ 31 }
    ensures { IsRunEnd (W.cells wave.now) slot limit result }
{
    let value = value_at(wave, slot);
    let mut end = listed_until(wave, slot);
    while end < limit && value_at(wave, end) == value {
        end = listed_until(wave, end);
    }
    end.min(limit)
}

/// The runs of so many slots from one on, each where it begins after that.
pub fn runs_in<W: CyclicWave<Item = Value>>(
    alloc: Global,
    wave: &W,
    from: u32,
    count: u32,
) -> Result<List<Placed>, NoMemory>
    requires { from + count < 2 ^ 31 }
    ensures { IfOk result (λ runs. runs ≡ runs_from (W.cells wave.now) from count) }
{
    let mut runs = List::new(alloc);
    let limit = from + count;
    let mut slot = from;
    while slot < limit {
        let end = run_end(wave, slot, limit);
        runs.push(Placed {
            value: value_at(wave, slot),
            from: slot - from,
            width: end - slot,
        })?;
        slot = end;
    }
    Ok(runs)
}

/// How many runs so many slots from slot 0 on have.
pub fn count_runs<W: CyclicWave<Item = Value>>(
    alloc: Global,
    wave: &W,
    count: u32,
) -> Result<usize, NoMemory>
    requires { count < 2 ^ 31 }
    ensures { IfOk result (λ runs. runs ≡ length (runs_from (W.cells wave.now) 0 count)) }
{
    let runs = runs_in(alloc, wave, 0, count)?;
    Ok(runs.len())
}
