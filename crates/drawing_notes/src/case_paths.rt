//! Paths from storage on, in one case after the other.

ghost use Rattle.std.specs.Prelude.{◌≡◌, ◌++◌, ◌∷◌, ◌*◌, [], ℕ, Bool, List, IfOk, OnOk, length};
ghost use Rattle.fixpoint_engine.specs.Waves.{FitWaves, waves_of};
ghost use Rattle.timing_analysis.specs.Case.{Case};
ghost use Rattle.drawing_notes.specs.Arrivals.{AreRaisedBy, AreUpTo};
ghost use Rattle.drawing_notes.specs.Seen.{IsSeen, Sees};
ghost use Rattle.drawing_notes.specs.SoFar.{HoldPaths, IsOrder};

use crate::common::raise_ticks;
use crate::held::{held, passable};
use crate::launched::{Arrival, all_edges, edges_at, later, order};
use crate::loops::{Part, parts};
use crate::passing::View;
use fixpoint_engine::Waves;
use flat_circuit::Circuit;
use scald_base::NoMemory;
use std::alloc::Global;
use step_values::Value;
use wave_core::CyclicWave;

/// The loops of a circuit, and what the cases so far show of paths past them.
#[derive(Drop)]
pub struct CasePaths {
    /// By the numbers of nets, the loop that each is on.
    pub parts: Vec<Part>,
    /// The nets, each of no loop after those of no loop that lead to it.
    pub order: Vec<usize>,
    /// By the numbers of nets, the latest that comes there in some case.
    pub latest: Vec<Option<Arrival>>,
    /// By the numbers of instances, the greatest skew of the clock of a checker in a case in which
    /// it launches the checker's input, in ticks.
    pub ticks: Vec<u16>,
}

/// Raises the latest at each net to what comes there in one case more.
fn raise_latest<W: CyclicWave<Item = Value>>(
    alloc: Global,
    view: &View<W>,
    order: &[usize],
    latest: &mut [Option<Arrival>],
) -> Result<(), NoMemory>
    requires sees { IsSeen view.now.circuit.now view.now.waves.now view.now.within.now
        view.now.held.now }
    requires order { (looped : ℕ → Bool) × IsOrder view.now.circuit.now looped order.now }
    requires long { length latest.old ≡ length view.now.circuit.now.nets }
    ensures { let v = view.now in OnOk result ((looped : ℕ → Bool) →
        Sees v.circuit.now looped v.waves.now v.within.now v.held.now →
        IsOrder v.circuit.now looped order.now →
        AreRaisedBy v.circuit.now looped (waves_of v.waves.now) latest.old latest.new) }
{
    let edges = all_edges(alloc, view, order)?;
    for net in 0..view.circuit.net_count() {
        let found = edges_at(&edges, net);
        let place = net as usize;
        latest[place] = later(latest[place], later(found.rise, found.fall));
    }
    Ok(())
}

impl CasePaths {
    /// Before any case. `NoMemory` comes if memory runs out.
    pub fn begin(alloc: Global, c: &Circuit) -> Result<CasePaths, NoMemory>
        ensures { IfOk result (λ paths. HoldPaths c.now [] paths) }
    {
        let parts = parts(alloc, c)?;
        let order = order(alloc, c, &parts)?;
        Ok(CasePaths {
            parts,
            order,
            latest: vec![in alloc; None; c.net_count() as usize]?,
            ticks: vec![in alloc; 0; c.instance_count() as usize]?,
        })
    }

    /// One case more, by its waves. `NoMemory` comes if memory runs out.
    pub fn add_case<W: CyclicWave<Item = Value>>(
        &mut self,
        alloc: Global,
        c: &Circuit,
        waves: &Waves<W>,
    ) -> Result<(), NoMemory>
        requires fit { FitWaves c.now waves.now }
        requires ready { (cases : List Case) × HoldPaths c.now cases self.old }
        ensures { OnOk result ((cases : List Case) (one : Case) → one.waves ≡ waves_of waves.now →
            HoldPaths c.now cases self.old → HoldPaths c.now (cases ++ one ∷ []) self.new) }
    {
        c.known();
        let within = passable(alloc, c, &self.parts, waves)?;
        let held = held(alloc, c, waves)?;
        let view = View {
            circuit: c,
            waves,
            within: &within,
            held: &held,
        };
        raise_latest(alloc, &view, &self.order, &mut self.latest)?;
        raise_ticks(alloc, &view, &mut self.ticks)
    }
}
