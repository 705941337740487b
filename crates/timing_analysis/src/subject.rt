//! What is evaluated: a circuit and its cases.

ghost use Rattle.std.specs.Prelude.{◌≡◌, ◌≤◌, IfOk, length};
ghost use Rattle.std.specs.List.{All};
ghost use Rattle.case_analysis.specs.Case.{NetsExist};
ghost use Rattle.timing_analysis.specs.Subject.{IsSubject};

use crate::Drawn;
use case_analysis::{Reached, reach, shared_reach};
use fixpoint_engine::NetClasses;
use flat_circuit::{CaseList, Circuit};
use scald_base::NoMemory;
use std::alloc::Global;

/// A circuit and the cases in which it is evaluated, with what is found out of it once for all of
/// them.
#[derive(Drop)]
pub struct Subject {
    pub circuit: Circuit,
    pub cases: CaseList,
    /// The classes of its nets, by which rounds go.
    pub classes: NetClasses,
    /// The nets that each of its cases reaches, if all set the same nets.
    pub reached: Option<Reached>,
    /// How many ticks later than a round the next one holds.
    pub reach: u32,
}

impl Subject {
    /// A circuit with its cases, its classes and its reach. `NoMemory` comes if memory runs out.
    pub fn new(alloc: Global, drawn: Drawn) -> Result<Subject, NoMemory>
        requires few { length drawn.cases ≤ 256 }
        requires exist { All (NetsExist drawn.circuit) drawn.cases }
        ensures circuit { IfOk result (λ subject. subject.circuit ≡ drawn.circuit) }
        ensures cases { IfOk result (λ subject. subject.cases ≡ drawn.cases) }
        ensures is { IfOk result IsSubject }
    {
        let Drawn { circuit, cases } = drawn;
        let classes = NetClasses::of(alloc, &circuit, &cases)?;
        let reached = shared_reach(alloc, &circuit, &cases)?;
        let reach = reach(&circuit);
        Ok(Subject {
            circuit,
            cases,
            classes,
            reached,
            reach,
        })
    }
}
