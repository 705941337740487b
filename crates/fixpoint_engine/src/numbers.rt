//! The waves of all nets, by the numbers that a table gives them.

ghost use Rattle.std.specs.Prelude.{◌≡◌, IfOk};
ghost use Rattle.fixpoint_engine.specs.Table.{AreKnown, Grows, waves_at};

use crate::wave_table::WaveTable;
use scald_base::{List, NoMemory};
use skew_algebra::Skewed;
use std::alloc::Global;
use step_values::Value;
use wave_core::CyclicWave;

/// The number of the wave of each net, by the net's number.
pub type Numbers = List<u32>;

/// The numbers of these waves, each of which is copied if the table does not have it.
pub fn numbers_of<W: CyclicWave<Item = Value>>(
    alloc: Global,
    table: &mut WaveTable<W>,
    waves: &[Skewed<W>],
) -> Result<Numbers, NoMemory>
    ensures grows { Grows table.old table.new }
    ensures known { IfOk result (AreKnown table.new) }
    ensures same { IfOk result (λ numbers. waves_at table.new numbers ≡ waves.now) }
{
    let mut numbers: Numbers = List::with_room(alloc, waves.len())?;
    for wave in waves {
        let number = table.number(wave.copy(alloc)?)?;
        numbers.push(number)?;
    }
    Ok(numbers)
}

/// The numbers that another table gives to the waves of these numbers, each of which is copied
/// if it does not have it.
pub fn renumbered<W: CyclicWave<Item = Value>>(
    alloc: Global,
    table: &WaveTable<W>,
    numbers: &[u32],
    other: &mut WaveTable<W>,
) -> Result<Numbers, NoMemory>
    requires { AreKnown table.now numbers.now }
    ensures grows { Grows other.old other.new }
    ensures known { IfOk result (AreKnown other.new) }
    ensures same { IfOk result (λ there.
        waves_at other.new there ≡ waves_at table.now numbers.now) }
{
    let mut there: Numbers = List::with_room(alloc, numbers.len())?;
    for number in numbers {
        let wave = table.wave(*number).copy(alloc)?;
        let given = other.number(wave)?;
        there.push(given)?;
    }
    Ok(there)
}

/// A copy of some numbers.
pub fn copied(alloc: Global, numbers: &[u32]) -> Result<Numbers, NoMemory>
    ensures { IfOk result (λ same. same ≡ numbers.now) }
{
    List::from_slice(alloc, numbers)
}
