//! A report while it is written, case by case.

use drawing_tree::Drawing;
use fixpoint_engine::Waves;
use flat_circuit::Circuit;
use listing::{CaseHead, Lines, Mode};
use program_call::{Reply, Reporter, verdict};
use scald_base::{NoMemory, Outcome};
use std::alloc::Global;
use step_values::Value;
use timing_analysis::SettledCase;
use wave_core::CyclicWave;

/// The lines of a report so far, and how many faults the cases in it have.
#[derive(Drop)]
pub struct Report {
    pub lines: Lines,
    /// Which lines of a case are shown.
    pub mode: Mode,
    /// The round in which the base settled.
    pub base: u32,
    pub total: u32,
}

impl Reporter for Report {
    ghost use Rattle.scald_tool.specs.Answer.{Reported};
    ghost use Rattle.scald_tool.specs.Report.{HasLines, IsReady};

    type Asked = Mode;

    type Kept = u8;

    ghost keeps = { λ d. d.version };

    ghost reports = { Reported };

    ghost holds = { HasLines };

    ghost ready = { IsReady };

    fn keep(_alloc: Global, drawing: &Drawing) -> Result<u8, NoMemory> {
        Ok(drawing.version)
    }

    fn begin(
        alloc: Global,
        mode: Mode,
        version: u8,
        circuit: &Circuit,
        base: u32,
    ) -> Result<Report, NoMemory> {
        let mut lines = Lines::new(alloc);
        lines.add_head(circuit, version)?;
        Ok(Report {
            lines,
            mode,
            base,
            total: 0,
        })
    }

    fn add_case<W: CyclicWave<Item = Value>>(
        &mut self,
        alloc: Global,
        circuit: &Circuit,
        _place: u32,
        case: &SettledCase,
        waves: &Waves<W>,
    ) -> Result<(), NoMemory> {
        let head = CaseHead {
            number: case.number,
            base: self.base,
            rounds: case.settled.rounds,
            tick: case.tick,
        };
        self.lines
            .add_case(alloc, circuit, head, waves, &case.faults, self.mode)?;
        self.total += case.faults.len() as u32;
        Ok(())
    }

    fn end(self, _alloc: Global, circuit: &Circuit) -> Result<Reply<Outcome>, NoMemory> {
        let Report {
            lines,
            mode: _,
            base: _,
            total,
        } = self;
        let bytes = lines.end(circuit, total)?;
        Ok(Reply {
            outcome: verdict(total),
            bytes,
        })
    }
}
