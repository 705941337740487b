//! Runs of equal values.

ghost use Rattle.std.specs.Prelude.{◌≡◌, ◌++◌, OnErr, OnOk};
ghost use Rattle.listing.specs.Run.{AreRuns, Run, run_text, runs, runs_text};
ghost use Rattle.listing.specs.Text.{HasPart};

use crate::piece::add_number;
use scald_base::{Bytes, NoMemory};
use step_values::Value;
use wave_core::CyclicWave;

/// A value, and in how many slots it stands side by side.
fn add_run(out: &mut Bytes, value: Value, width: u16) -> Result<(), NoMemory>
    ensures ok { let run : Run = record { value = value; width = width } in
        OnOk result (out.new ≡ out.old ++ run_text run) }
    ensures err { let run : Run = record { value = value; width = width } in
        OnErr result (HasPart out.old out.new (run_text run)) }
{
    out.push(b' ')?;
    out.push(value.letter())?;
    out.push(b':')?;
    add_number(out, u64::from(width))
}

/// The runs of equal values of a wave, from slot 0 to the period's end.
pub fn add_runs<W: CyclicWave<Item = Value>>(out: &mut Bytes, wave: &W) -> Result<(), NoMemory>
    ensures ok { OnOk result (out.new ≡ out.old ++ runs_text (W.cells wave.now)) }
    ensures err { OnErr result (HasPart out.old out.new (runs_text (W.cells wave.now))) }

    // What is printed as runs are runs: they spell the wave, and none of them can be longer.
    ensures are { AreRuns (W.cells wave.now) (runs (W.cells wave.now)) }
{
    let period = wave.period();
    let mut count = 0;
    let mut slot = 0;
    'runs: while slot < period {
        let (value, end) = wave.run_after(count, slot);
        add_run(out, value, end - slot)?;
        count += 1;
        slot = end;
    }
    Ok(())
}
