//! The margins of a circuit while its cases come one after the other.

use crate::lines::{add_count, add_rows};
use crate::rows::{Rows, lower, unbounded};
use drawing_tree::Drawing;
use fixpoint_engine::Waves;
use flat_circuit::Circuit;
use listing::{Output, write_period};
use program_call::{Reply, Reporter};
use scald_base::{Bytes, NoMemory, Outcome};
use std::alloc::Global;
use step_values::Value;
use timing_analysis::SettledCase;
use wave_core::CyclicWave;

/// The version of the drawing, and the margins over the cases so far.
#[derive(Drop)]
pub struct Margins {
    pub version: u8,
    pub rows: Rows,
}

impl Reporter for Margins {
    ghost use Rattle.std.specs.Prelude.{◌≡◌};
    ghost use Rattle.std.specs.List.{All};
    ghost use Rattle.margin_report.specs.Answer.{AreMargins};
    ghost use Rattle.margin_report.specs.Report.{IsRow, rows};

    type Asked = ();

    type Kept = u8;

    ghost keeps = { λ d. d.version };

    ghost reports = { λ asked. AreMargins };

    ghost holds = { λ margins asked version c base cases. (margins.version ≡ version)
        × (margins.rows ≡ rows c cases) };

    ghost ready = { λ margins c cases. All (IsRow c) margins.rows };

    fn keep(_alloc: Global, drawing: &Drawing) -> Result<u8, NoMemory> {
        Ok(drawing.version)
    }

    fn begin(
        alloc: Global,
        _asked: (),
        version: u8,
        circuit: &Circuit,
        _base: u32,
    ) -> Result<Margins, NoMemory> {
        let rows = unbounded(alloc, circuit)?;
        Ok(Margins { version, rows })
    }

    fn add_case<W: CyclicWave<Item = Value>>(
        &mut self,
        alloc: Global,
        circuit: &Circuit,
        _place: u32,
        case: &SettledCase,
        waves: &Waves<W>,
    ) -> Result<(), NoMemory> {
        lower(&mut self.rows, alloc, circuit, case.number, waves)
    }

    fn end(self, alloc: Global, circuit: &Circuit) -> Result<Reply<Outcome>, NoMemory> {
        let mut bytes = Bytes::new(alloc);
        write_period(circuit, self.version, &mut bytes)?;
        add_rows(&mut bytes, circuit, self.rows.as_slice())?;
        add_count(&mut bytes, self.rows.len())?;
        Ok(Reply {
            outcome: Outcome::Done,
            bytes: Output::whole(bytes),
        })
    }
}
