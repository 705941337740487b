//! What the cases so far show.

ghost use Rattle.std.specs.Prelude.{◌≡◌, ◌++◌, ◌∷◌, [], List, IfOk, OnOk};
ghost use Rattle.fixpoint_engine.specs.Waves.{FitWaves, waves_of};
ghost use Rattle.timing_analysis.specs.Case.{Case};
ghost use Rattle.drawing_notes.specs.SoFar.{HoldsOf};

use crate::case_gates::CaseGates;
use crate::case_paths::CasePaths;
use crate::unclocked::add_acts;
use crate::unknown::add_unknown;
use drawing_omissions::Notes;
use fixpoint_engine::Waves;
use flat_circuit::Circuit;
use scald_base::{Bytes, NoMemory};
use std::alloc::Global;
use step_values::Value;
use wave_core::CyclicWave;

/// What the cases so far show.
#[derive(Drop)]
pub struct SoFar {
    /// By the numbers of instances, whose clock or enable does something in some case.
    pub acts: Vec<bool>,
    /// The notes on what is unknown.
    pub unknown: Notes,
    /// Gates that let clocks through.
    pub gates: CaseGates,
    /// Paths from storage on.
    pub paths: CasePaths,
}

impl SoFar {
    /// Before any case. `NoMemory` comes if memory runs out.
    pub fn begin(alloc: Global, c: &Circuit) -> Result<SoFar, NoMemory>
        ensures { IfOk result (λ so_far. HoldsOf so_far c.now []) }
    {
        let gates = CaseGates::begin(alloc, c)?;
        let paths = CasePaths::begin(alloc, c)?;
        Ok(SoFar {
            acts: vec![in alloc; false; c.instance_count() as usize]?,
            unknown: Notes::new(Bytes::new(alloc)),
            gates,
            paths,
        })
    }

    /// One case more, by its number and its waves. `NoMemory` comes if memory runs out.
    pub fn add_case<W: CyclicWave<Item = Value>>(
        &mut self,
        alloc: Global,
        c: &Circuit,
        number: u32,
        waves: &Waves<W>,
    ) -> Result<(), NoMemory>
        requires fit { FitWaves c.now waves.now }
        requires ready { (cases : List Case) × HoldsOf self.old c.now cases }
        ensures { OnOk result ((cases : List Case) (one : Case) → one.listed.number ≡ number →
            one.waves ≡ waves_of waves.now → HoldsOf self.old c.now cases →
            HoldsOf self.new c.now (cases ++ one ∷ [])) }
    {
        add_acts(alloc, c, waves, &mut self.acts)?;
        self.gates.add_case(c, waves);
        self.paths.add_case(alloc, c, waves)?;
        add_unknown(&mut self.unknown, c, number, waves)
    }
}
