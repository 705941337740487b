//! The chains of a circuit's faults while its cases come one after the other.

ghost use Rattle.std.specs.Prelude.{◌≡◌, ◌++◌, OnOk};
ghost use Rattle.std.specs.List.{flat_map};
ghost use Rattle.fixpoint_engine.specs.Waves.{FitWaves, waves_of};
ghost use Rattle.fault_chain.specs.Report.{explained};

use crate::follow::chain_of;
use crate::lines::{add_chain, add_fault, add_number};
use drawing_tree::Drawing;
use fixpoint_engine::{NetSet, Waves};
use flat_circuit::{Circuit, Fault};
use listing::{Output, end_report, write_period};
use program_call::{Reply, Reporter, verdict};
use scald_base::{Bytes, NoMemory, Outcome};
use std::alloc::Global;
use step_values::Value;
use timing_analysis::SettledCase;
use wave_core::CyclicWave;

/// The lines of the cases so far, and how many faults they have.
#[derive(Drop)]
pub struct Chains {
    pub bytes: Bytes,
    pub total: u32,
}

/// The lines of faults, each with its chain.
fn add_explained<W: CyclicWave<Item = Value>>(
    out: &mut Bytes,
    alloc: Global,
    c: &Circuit,
    waves: &Waves<W>,
    faults: &[Fault],
) -> Result<(), NoMemory>
    requires { FitWaves c.now waves.now }
    ensures { OnOk result
        (out.new ≡ out.old ++ flat_map (explained c.now (waves_of waves.now)) faults.now) }
{
    let mut met = NetSet::new(alloc, c.net_count())?;
    for fault in faults {
        add_fault(out, c, fault)?;
        let chain = chain_of(alloc, c, waves, &mut met, *fault)?;
        add_chain(out, c, &chain)?;
    }
    Ok(())
}

impl Reporter for Chains {
    ghost use Rattle.std.specs.Prelude.{◌≡◌, ◌++◌, ◌≤◌, ◌*◌};
    ghost use Rattle.std.specs.List.{flat_map};
    ghost use Rattle.listing.specs.Head.{period_line};
    ghost use Rattle.timing_analysis.specs.Case.{fault_count};
    ghost use Rattle.fault_chain.specs.Answer.{AreChains};
    ghost use Rattle.fault_chain.specs.Report.{case_text};

    type Asked = ();

    type Kept = u8;

    ghost keeps = { λ d. d.version };

    ghost reports = { λ asked. AreChains };

    ghost holds = { λ chains asked version c base cases.
        (chains.bytes ≡ period_line version c ++ flat_map (case_text c) cases)
        × (chains.total ≡ fault_count c cases) };

    ghost ready = { λ chains c cases. chains.total ≤ cases * 458752 };

    fn keep(_alloc: Global, drawing: &Drawing) -> Result<u8, NoMemory> {
        Ok(drawing.version)
    }

    fn begin(
        alloc: Global,
        _asked: (),
        version: u8,
        circuit: &Circuit,
        _base: u32,
    ) -> Result<Chains, NoMemory> {
        let mut bytes = Bytes::new(alloc);
        write_period(circuit, version, &mut bytes)?;
        Ok(Chains { bytes, total: 0 })
    }

    fn add_case<W: CyclicWave<Item = Value>>(
        &mut self,
        alloc: Global,
        circuit: &Circuit,
        _place: u32,
        case: &SettledCase,
        waves: &Waves<W>,
    ) -> Result<(), NoMemory> {
        add_number(&mut self.bytes, case.number)?;
        if !case.faults.is_empty() {
            let faults = case.faults.as_slice();
            add_explained(&mut self.bytes, alloc, circuit, waves, faults)?;
        }
        self.total += case.faults.len() as u32;
        Ok(())
    }

    fn end(self, _alloc: Global, _circuit: &Circuit) -> Result<Reply<Outcome>, NoMemory> {
        let Chains { mut bytes, total } = self;
        end_report(total, &mut bytes)?;
        Ok(Reply {
            outcome: verdict(total),
            bytes: Output::whole(bytes),
        })
    }
}
