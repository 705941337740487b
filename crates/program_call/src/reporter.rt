//! What reports on a circuit, case by case.

ghost use Rattle.std.specs.Prelude.{◌≡◌, ◌+◌, ◌++◌, ◌≤◌, ◌<◌, ◌∷◌, ℕ, [], List, IfOk, OnOk, length};
ghost use Rattle.drawing_tree.specs.Tree.{Drawing as Tree, drawing_of};
ghost use Rattle.drawing_tree.specs.WellFormed.{IsWellFormed};
ghost use Rattle.flat_circuit.specs.Circuit.{Circuit as Flat};
ghost use Rattle.fixpoint_engine.specs.Waves.{FitWaves};
ghost use Rattle.timing_analysis.specs.Case.{Case, Listed};
ghost use Rattle.timing_analysis.specs.Settled.{IsSettledCase, settled_case};
ghost use Rattle.program_call.specs.Answer.{Reporting};

use crate::Reply;
use drawing_tree::Drawing;
use fixpoint_engine::Waves;
use flat_circuit::Circuit;
use scald_base::{NoMemory, Outcome};
use std::alloc::Global;
use step_values::Value;
use timing_analysis::SettledCase;
use wave_core::CyclicWave;

/// What reports on a circuit, case by case. Of a drawing and of a case only what the report needs
/// is kept: the circuit may take the room of the one, and the next case that of the other's waves.
pub trait Reporter: Sized + Drop {
    /// What the words ask for beside the report.
    type Asked: Copy;

    /// What is kept of a drawing.
    type Kept: Drop;

    /// What is kept of it.
    ghost keeps: { Tree → Self.Kept };

    /// Which outcome and bytes are reported, by what is asked for and what is kept of the drawing.
    ghost reports: { Self.Asked → Self.Kept → Reporting };

    /// What holds after these cases of a circuit and no other, its base having settled in a round.
    ghost holds: { Self → Self.Asked → Self.Kept → Flat → ℕ → List Case → Type 0 };

    /// What holds before one case more, after so many.
    ghost ready: { Self → Flat → ℕ → Type 0 } = { λ reporter c cases. Unit {0} };

    /// What is kept of a drawing. `NoMemory` comes if memory runs out, here and below.
    fn keep(alloc: Global, drawing: &Drawing) -> Result<Self::Kept, NoMemory>
        requires { IsWellFormed (drawing_of drawing.now) }
        ensures { IfOk result (λ kept. kept ≡ keeps (drawing_of drawing.now)) };

    /// Before any case of a circuit whose base settled in this round.
    fn begin(
        alloc: Global,
        asked: Self::Asked,
        kept: Self::Kept,
        circuit: &Circuit,
        base: u32,
    ) -> Result<Self, NoMemory>
        requires { base ≤ 10000000 }
        ensures holds { IfOk result (λ reporter. holds reporter asked kept circuit.now base []) }
        ensures ready { IfOk result (λ reporter. ready reporter circuit.now 0) };

    /// One case more, with its waves. After an error the reporter is of no use.
    fn add_case<W: CyclicWave<Item = Value>>(
        &mut self,
        alloc: Global,
        circuit: &Circuit,
        place: u32,
        case: &SettledCase,
        waves: &Waves<W>,
    ) -> Result<(), NoMemory>
        requires place { place < 256 }
        requires ready { ready self.old circuit.now place }
        requires fit { FitWaves circuit.now waves.now }
        requires few { length case.now.faults ≤ 458752 }
        ensures ready { OnOk result (ready self.new circuit.now (place + 1)) }
        ensures holds { OnOk result ((asked : Self.Asked) (kept : Self.Kept) (limit base : ℕ)
            (listed : Listed) (cases : List Case) →
            IsSettledCase circuit.now limit base listed case.now.number case.now.settled.rounds
            case.now.tick waves.now case.now.faults →
            holds self.old asked kept circuit.now base cases →
            holds self.new asked kept circuit.now base
            (cases ++ settled_case listed case.now.settled.rounds waves.now ∷ [])) };

    /// What is replied after all cases.
    fn end(self, alloc: Global, circuit: &Circuit) -> Result<Reply<Outcome>, NoMemory>
        requires { (cases : ℕ) × ready self circuit.now cases }
        ensures { IfOk result (λ reply.
            (asked : Self.Asked) (kept : Self.Kept) (base : ℕ) (cases : List Case) →
            holds self asked kept circuit.now base cases →
            reports asked kept circuit.now base cases reply.outcome reply.bytes) };
}
