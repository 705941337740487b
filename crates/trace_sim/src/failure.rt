//! The first equation that does not hold, of bits that anyone wrote.

ghost use Rattle.std.specs.Prelude.{◌≡◌, ◌<◌, ◌^◌, length, slice_get, IfOk, MatchOption, Some};
ghost use Rattle.flat_circuit.specs.declared.instance.Instance.{Instance as Element};
ghost use Rattle.flat_circuit.specs.Run.{Choice as Chosen};
ghost use Rattle.trace_sim.specs.Choice.{choices_of};
ghost use Rattle.trace_sim.specs.Simulated.{run_of};
ghost use Rattle.trace_sim.specs.Making.{AreRows, row_in, seen};
ghost use Rattle.trace_sim.specs.Failure.{AreFine, ArePicks, EachObeys, FailsFirst, IsFirst, contradicts as contradicts_bit, failing_by as failing_out, failing_net};

use crate::choice::{Choice, Levels};
use crate::making::{fixed_bit, old_output};
use crate::rows::count_tick;
use flat_circuit::{Circuit, Target};
use scald_base::NoMemory;
use std::alloc::Global;

fn contradicts(bit: Option<bool>, out: bool) -> bool
    ensures { result ≡ contradicts_bit bit out }
{
    match bit {
        None => false,
        Some(true) => !out,
        Some(false) => out,
    }
}

// The net of an instance's output, if it is other than the bit that the equation fixes.
fn failing(
    alloc: Global,
    c: &Circuit,
    choice: &Choice,
    k: u32,
    row: usize,
    t: usize,
    bits: &[Levels],
) -> Result<Option<u32>, NoMemory>
    requires short { t < 2 ^ 32 }
    requires row { (i : Element) (at : Chosen) → slice_get c.now.instances k ≡ Some i →
        slice_get (choices_of choice.now) k ≡ Some at → row ≡ row_in (seen bits.now) i at t }
    ensures { IfOk result (λ net. (i : Element) (at : Chosen) →
        slice_get c.now.instances k ≡ Some i →
        slice_get (choices_of choice.now) k ≡ Some at → net ≡ failing_net (seen bits.now) i at t) }
{
    match c.instance(k) {
        None => Ok(None),
        Some(i) => match choice.at(k as usize) {
            None => Ok(None),
            Some((delays, wires)) => {
                let bit = fixed_bit(alloc, i, delays, wires, row, t, bits)?;
                let fails = contradicts(bit, old_output(i.out, i.out_inverted, t, bits));
                Ok(failing_by(i.out, fails))
            }
        },
    }
}

fn failing_by(out: Option<Target>, fails: bool) -> Option<u32>
    ensures { result ≡ failing_out out fails }
{
    match out {
        None => None,
        Some(Target::Constant(_)) => None,
        Some(Target::Net(net)) => { if fails { Some(net) } else { None } }
    }
}

// The net of the first instance whose output is other than its equation says at a tick.
fn first_at(
    alloc: Global,
    c: &Circuit,
    choice: &Choice,
    t: usize,
    rows: &[usize],
    bits: &[Levels],
) -> Result<Option<u32>, NoMemory>
    requires short { t < 2 ^ 32 }
    requires picks { ArePicks c.now choice.now }
    requires long { length rows.now ≡ length c.now.instances }
    requires rows { AreRows c.now (choices_of choice.now) bits.now rows.now t }
    ensures { IfOk result (λ net. MatchOption net
        (AreFine c.now (choices_of choice.now) bits.now t (length c.now.instances))
        (IsFirst c.now (choices_of choice.now) bits.now t)) }
{
    for k in 0..c.instance_count() {
        if let Some(net) = failing(alloc, c, choice, k, rows[k as usize], t, bits)? {
            return Ok(Some(net));
        }
    }
    Ok(None)
}

/// The first tick at which the equation of an instance does not hold, and the net that the first
/// such instance drives; `None` exactly if all equations hold wherever they are required. Of the
/// choice the delays count alone, which fit; the bits are any. Takes a time linear in pins times
/// ticks.
pub fn first_failure(
    alloc: Global,
    c: &Circuit,
    choice: &Choice,
    ticks: u32,
    bits: &[Levels],
) -> Result<Option<(u32, u32)>, NoMemory>
    requires { ArePicks c.now choice.now }
    ensures { IfOk result (λ first. let run = run_of ticks (choices_of choice.now) bits.now in
        MatchOption first (EachObeys c.now run) (λ f. FailsFirst c.now run f.0 f.1)) }
{
    c.known();
    let mut rows = vec![in alloc; 0; c.instance_count() as usize]?;
    for t in 0..ticks {
        if let Some(net) = first_at(alloc, c, choice, t as usize, &rows, bits)? {
            return Ok(Some((t, net)));
        }
        count_tick(alloc, c, choice, t as usize, bits, &mut rows)?;
    }
    Ok(None)
}
