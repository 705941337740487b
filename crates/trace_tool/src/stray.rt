//! The first net that nothing drives and that does not keep its assertion.

ghost use Rattle.std.specs.Prelude.{◌≡◌, ◌<◌, List, [], length, slice_index_or, MatchBool, MatchOption};
ghost use Rattle.flat_circuit.specs.Run.{Choice as Chosen};
ghost use Rattle.fixpoint_engine.specs.Interface.{MeetsInterface};
ghost use Rattle.trace_sim.specs.Choice.{AreTraces};
ghost use Rattle.trace_sim.specs.Simulated.{run_of};
ghost use Rattle.trace_tool.specs.Interface.{KeepsAt, Strays, StraysFirst};

use crate::interface::meets;
use flat_circuit::Circuit;
use scald_base::AssertSpec;
use trace_sim::Levels;

// The bits of a net; none past the last.
fn row_of(bits: &[Levels], number: u32) -> &[bool]
    ensures { result.now ≡ slice_index_or bits.now number [] }
{
    match bits.get(number as usize) {
        None => &[],
        Some(row) => row.as_slice(),
    }
}

// Whether the net at a place in name order keeps its assertion, if nothing drives it.
fn keeps_at(c: &Circuit, ticks: u32, bits: &[Levels], place: u32) -> bool
    requires inside { place < length c.now.order }
    requires traces { AreTraces (length c.now.nets) ticks bits.now }
    ensures { (choices : List Chosen) → let run = run_of ticks choices bits.now in
        MatchBool result (KeepsAt c.now run place) (Strays c.now run place) }
{
    let number = c.net_at(place);
    let Some(net) = c.net(number) else {
        return true;
    };
    if net.driver.is_some() {
        return true;
    }
    meets(
        c.header(),
        net.spec.or(&AssertSpec::None),
        row_of(bits, number),
    )
}

/// The place in name order of the first net that nothing drives and whose bits do not keep its
/// assertion; `None` exactly if each such net keeps it. There is a bit of each net for each
/// tick.
pub fn first_stray(c: &Circuit, ticks: u32, bits: &[Levels]) -> Option<u32>
    requires { AreTraces (length c.now.nets) ticks bits.now }
    ensures { (choices : List Chosen) → let run = run_of ticks choices bits.now in
        MatchOption result (MeetsInterface c.now run) (StraysFirst c.now run) }
{
    c.known();
    for place in 0..c.net_count() {
        if !keeps_at(c, ticks, bits, place) {
            return Some(place);
        }
    }
    None
}
