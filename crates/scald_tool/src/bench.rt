//! From a number of sections to the numbers of the report on the drawing that has so many.

ghost use Rattle.std.specs.Prelude.{◌≡◌, IfOk};
ghost use Rattle.scald_tool.specs.Answer.{Benched};

use case_analysis::{reach, tick};
use design_gen::generate;
use drawing_tree::Drawing;
use fixpoint_engine::Waves;
use flat_circuit::Circuit;
use listing::{Output, write_summary};
use program_call::{Omissions, Reply, Reporter, reply_to};
use run_wave::RunWave;
use scald_base::{Bytes, NoMemory, Outcome};
use std::alloc::Global;
use step_values::Value;
use timing_analysis::SettledCase;
use wave_core::CyclicWave;

/// The numbers of the report on the generated drawing of so many sections, at its own limit of
/// rounds; or, as `verify` has it, why that is refused or which net does not settle.
pub fn bench(alloc: Global, sections: u16) -> Result<Reply<Outcome>, NoMemory>
    ensures { IfOk result (λ reply. Benched sections reply.outcome reply.bytes) }
{
    let text = generate(alloc, sections)?;
    reply_to::<Numbers, RunWave<Value>>(
        alloc,
        text.as_slice(),
        sections,
        None,
        &mut Omissions::unasked(),
    )
}

/// How many sections a drawing has, the round in which its base settled, and how many faults the
/// cases so far have.
#[derive(Drop)]
pub struct Numbers {
    pub sections: u16,
    pub base: u32,
    pub total: u32,
}

impl Reporter for Numbers {
    ghost use Rattle.std.specs.Prelude.{◌≡◌, ◌≤◌, ◌*◌};
    ghost use Rattle.timing_analysis.specs.Case.{fault_count};
    ghost use Rattle.scald_tool.specs.Answer.{Measured};

    type Asked = u16;

    type Kept = ();

    ghost keeps = { λ d. tt };

    ghost reports = { λ sections kept. Measured sections };

    ghost holds = { λ numbers sections kept c base cases.
        (numbers.sections ≡ sections) × (numbers.base ≡ base)
        × (numbers.total ≡ fault_count c cases) };

    ghost ready = { λ numbers c cases. (numbers.total ≤ cases * 458752)
        × (numbers.base ≤ 10000000) };

    fn keep(_alloc: Global, _drawing: &Drawing) -> Result<(), NoMemory> {
        Ok(())
    }

    fn begin(
        _alloc: Global,
        sections: u16,
        _kept: (),
        _circuit: &Circuit,
        base: u32,
    ) -> Result<Numbers, NoMemory> {
        Ok(Numbers {
            sections,
            base,
            total: 0,
        })
    }

    fn add_case<W: CyclicWave<Item = Value>>(
        &mut self,
        _alloc: Global,
        _circuit: &Circuit,
        _place: u32,
        case: &SettledCase,
        _waves: &Waves<W>,
    ) -> Result<(), NoMemory> {
        self.total += case.faults.len() as u32;
        Ok(())
    }

    fn end(self, alloc: Global, circuit: &Circuit) -> Result<Reply<Outcome>, NoMemory> {
        let tick = tick(reach(circuit), self.base, 0);
        let mut bytes = Bytes::new(alloc);
        write_summary(
            circuit,
            self.sections,
            self.base,
            tick,
            self.total,
            &mut bytes,
        )?;
        Ok(Reply {
            outcome: Outcome::Done,
            bytes: Output::whole(bytes),
        })
    }
}
