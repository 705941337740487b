//! The notes on a drawing while its cases come one after the other.

use crate::SoFar;
use crate::report::report;
use drawing_omissions::{CaseBits, Findings, for_places, spreads, written_cases};
use drawing_tree::{Drawing, Places};
use fixpoint_engine::Waves;
use flat_circuit::Circuit;
use program_call::{Reply, Reporter};
use scald_base::{NoMemory, Outcome};
use std::alloc::Global;
use step_values::Value;
use timing_analysis::SettledCase;
use wave_core::CyclicWave;

/// What the notes keep of a drawing.
#[derive(Drop)]
pub struct Kept {
    pub version: u8,
    /// What is found while it is expanded.
    pub found: Findings,
    /// The places of its FORs, in the order of the text.
    pub fors: Places,
    pub cases: CaseBits,
}

/// What is kept of the drawing, and what the cases so far show.
#[derive(Drop)]
pub struct Noting {
    pub kept: Kept,
    pub so_far: SoFar,
}

impl Reporter for Noting {
    ghost use Rattle.std.specs.Prelude.{◌≡◌, List};
    ghost use Rattle.timing_analysis.specs.Case.{Case};
    ghost use Rattle.drawing_notes.specs.Answer.{kept_of};
    ghost use Rattle.drawing_notes.specs.Report.{AreNotes};
    ghost use Rattle.drawing_notes.specs.SoFar.{HoldsOf};

    type Asked = ();

    type Kept = Kept;

    ghost keeps = { kept_of };

    ghost reports = { λ asked kept. AreNotes kept };

    ghost holds = { λ noting asked kept c base cases. (noting.kept ≡ kept)
        × HoldsOf noting.so_far c cases };

    ghost ready = { λ noting c places. (cases : List Case) × HoldsOf noting.so_far c cases };

    fn keep(alloc: Global, drawing: &Drawing) -> Result<Kept, NoMemory> {
        Ok(Kept {
            version: drawing.version,
            found: spreads(alloc, drawing)?,
            fors: for_places(alloc, drawing)?,
            cases: written_cases(alloc, drawing)?,
        })
    }

    fn begin(
        alloc: Global,
        _asked: (),
        kept: Kept,
        circuit: &Circuit,
        _base: u32,
    ) -> Result<Noting, NoMemory> {
        let so_far = SoFar::begin(alloc, circuit)?;
        Ok(Noting { kept, so_far })
    }

    fn add_case<W: CyclicWave<Item = Value>>(
        &mut self,
        alloc: Global,
        circuit: &Circuit,
        _place: u32,
        case: &SettledCase,
        waves: &Waves<W>,
    ) -> Result<(), NoMemory> {
        self.so_far.add_case(alloc, circuit, case.number, waves)
    }

    fn end(self, alloc: Global, circuit: &Circuit) -> Result<Reply<Outcome>, NoMemory> {
        report(alloc, circuit, &self.kept, &self.so_far)
    }
}
