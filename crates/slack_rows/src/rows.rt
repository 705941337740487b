//! The least slack of each limit over more and more cases.

ghost use Rattle.std.specs.Prelude.{◌≡◌, ◌<◌, ◌+◌, ◌++◌, ◌∷◌, [], IfOk, OnOk, List, None, length, replicate, reverse};
ghost use Rattle.scald_base.specs.Time.{period as period_of};
ghost use Rattle.fixpoint_engine.specs.Waves.{waves_of};
ghost use Rattle.critical_paths.specs.Known.{Knows};
ghost use Rattle.critical_paths.specs.Views.{Sees};
ghost use Rattle.slack_rows.specs.Held.{GoesOn};
ghost use Rattle.slack_rows.specs.Known.{AreKnown, IsFirst, IsLowered, IsSetWith, numbers_of, places_of};
ghost use Rattle.slack_rows.specs.Limit.{Case};
ghost use Rattle.slack_rows.specs.Rows.{all_limits};
ghost use Rattle.slack_rows.specs.Shown.{ExplainAt, ShowAt};

use crate::causes::{Causes, causes_of};
use crate::limits::{Parameters, parameters_of};
use crate::parameter::Parameter;
use crate::slack::{Finding, Slacks};
use crate::subject::slacks_at;
use critical_paths::{At, Paths, View};
use flat_circuit::Circuit;
use indexmap::IndexSet;
use scald_base::{List, NoMemory};
use std::alloc::Global;
use step_values::Value;
use wave_core::CyclicWave;

/// Sets of cases: each is another one, by its number from 1, and one case more, by its place.
pub type Sets = IndexSet<(usize, usize)>;

/// A slack, its paths in the first case that has it, that case, by its place from 0, and the number
/// of the set of all that have it.
#[derive(Clone, Copy)]
pub struct Least {
    pub finding: Finding,
    pub data: Option<At>,
    pub clock: Option<At>,
    pub case: usize,
    pub cases: usize,
}

/// The least slack of each limit, and where it is.
#[derive(Drop)]
pub struct Rows {
    pub parameters: Parameters,
    /// Of each limit; none if nothing can break it.
    pub least: List<Option<Least>>,
    /// All paths.
    pub paths: Paths,
    /// The numbers of the cases so far.
    pub cases: List<u32>,
    pub sets: Sets,
    /// How many ticks a period has.
    pub period: u16,
    ghost each: { length least ≡ length parameters },
    ghost some: { 0 < period },
}

/// The number of the set of some cases and one more.
fn set_with(sets: &mut Sets, cases: usize, case: usize) -> Result<usize, NoMemory>
    ensures { IfOk result (λ number. IsSetWith sets.old.keys (cases, case) number sets.new.keys) }
{
    let (place, _) = sets.insert_full((cases, case))?;
    // no table has more than can be counted
    let _count = sets.len();
    Ok(place + 1)
}

/// The slack of a limit in a case, as its least: the first case that has it.
fn first<W: CyclicWave<Item = Value>>(
    view: &View<W>,
    paths: &mut Paths,
    sets: &mut Sets,
    parameter: Parameter,
    finding: Finding,
    case: usize,
) -> Result<Least, NoMemory>
    requires sees { Sees view.now.circuit.now view.now.waves.now view.now.hazards.now }
    requires knows { Knows view.now.circuit.now (waves_of view.now.waves.now) paths.old.nodes
        paths.old.met.entries }
    ensures paths { OnOk result (GoesOn view.now.circuit.now (waves_of view.now.waves.now)
        paths.old paths.new) }
    ensures least { IfOk result (λ found. IsFirst sets.old.keys finding case sets.new.keys found) }
    ensures shown { IfOk result (λ found.
        ShowAt parameter.subject parameter.word finding found.«data» found.clock) }
    ensures explained { IfOk result (λ found. ExplainAt parameter.subject parameter.word
        paths.new.nodes found.«data» found.clock) }
{
    let Causes { data, clock } = causes_of(view, paths, parameter, finding)?;
    let cases = set_with(sets, 0, case)?;
    Ok(Least {
        finding,
        data,
        clock,
        case,
        cases,
    })
}

/// The least slack of a limit with that of one case more.
fn lowered<W: CyclicWave<Item = Value>>(
    view: &View<W>,
    paths: &mut Paths,
    sets: &mut Sets,
    parameter: Parameter,
    least: Option<Least>,
    finding: Option<Finding>,
    case: usize,
) -> Result<Option<Least>, NoMemory>
    requires sees { Sees view.now.circuit.now view.now.waves.now view.now.hazards.now }
    requires knows { Knows view.now.circuit.now (waves_of view.now.waves.now) paths.old.nodes
        paths.old.met.entries }
    ensures paths { OnOk result (GoesOn view.now.circuit.now (waves_of view.now.waves.now)
        paths.old paths.new) }
    ensures least { IfOk result (λ found.
        IsLowered sets.old.keys least finding case sets.new.keys found) }
{
    let Some(finding) = finding else {
        return Ok(least);
    };
    let Some(old) = least else {
        return Ok(Some(first(view, paths, sets, parameter, finding, case)?));
    };
    if finding.slack.is_less(old.finding.slack) {
        return Ok(Some(first(view, paths, sets, parameter, finding, case)?));
    }
    if old.finding.slack.is_less(finding.slack) {
        return Ok(least);
    }
    let cases = set_with(sets, old.cases, case)?;
    Ok(Some(Least { cases, ..old }))
}

impl Rows {
    /// The limits of a circuit, over no case.
    pub fn new(alloc: Global, c: &Circuit) -> Result<Rows, NoMemory>
        ensures known { IfOk result (λ rows.
            AreKnown c.now [] rows.parameters rows.least rows.cases rows.sets.keys) }
        ensures period { IfOk result (λ rows. rows.period ≡ period_of c.now.header) }
    {
        let period = c.header().period();
        let parameters = parameters_of(alloc, c)?;
        let least = none_yet(alloc, parameters.len())?;
        Ok(Rows {
            parameters,
            least,
            paths: Paths::new(alloc),
            cases: List::new(alloc),
            sets: IndexSet::new(alloc),
            period,
        })
    }

    /// One case more, of this number.
    pub fn add_case<W: CyclicWave<Item = Value>>(
        &mut self,
        number: u32,
        view: &View<W>,
    ) -> Result<(), NoMemory>
        requires sees { Sees view.now.circuit.now view.now.waves.now view.now.hazards.now }
        requires limits { self.old.parameters ≡ all_limits view.now.circuit.now }
        ensures period { OnOk result (self.new.period ≡ self.old.period) }
        ensures known { OnOk result ((cases : List Case) (one : Case) →
            one.number ≡ number → one.waves ≡ waves_of view.now.waves.now →
            AreKnown view.now.circuit.now cases
            self.old.parameters self.old.least self.old.cases self.old.sets.keys →
            AreKnown view.now.circuit.now (cases ++ one ∷ [])
            self.new.parameters self.new.least self.new.cases self.new.sets.keys) }
    {
        self.paths.next_case();
        let case = self.cases.len();
        let mut slacks = Slacks::NONE;
        let mut subject = None;
        for place in 0..self.parameters.len() {
            let parameter = self.parameters.as_slice()[place];
            slacks = slacks_at(view, &mut self.paths, subject, slacks, parameter.subject)?;
            subject = Some(parameter.subject);
            let least = lowered(
                view,
                &mut self.paths,
                &mut self.sets,
                parameter,
                self.least.as_slice()[place],
                slacks.of(parameter.word),
                case,
            )?;
            self.least.set(place, least);
        }
        self.cases.push(number)?;
        Ok(())
    }

    /// The numbers of the cases of a set, in their order.
    pub fn cases_of(&self, alloc: Global, set: usize) -> Result<List<u32>, NoMemory>
        ensures { IfOk result (λ numbers. numbers
            ≡ numbers_of self.now.cases (places_of self.now.sets.keys set)) }
    {
        let found = places_back(alloc, &self.sets, set)?;
        let places = found.as_slice();
        let mut numbers = List::with_room(alloc, places.len())?;
        for back in 0..places.len() {
            let place = places[places.len() - 1 - back];
            numbers.push(self.cases.get(place).copied().unwrap_or(0))?;
        }
        Ok(numbers)
    }
}

/// So many limits of which nothing is known yet.
fn none_yet(alloc: Global, count: usize) -> Result<List<Option<Least>>, NoMemory>
    ensures { IfOk result (λ least. least ≡ replicate count None) }
{
    let mut least = List::with_room(alloc, count)?;
    for _ in 0..count {
        least.push(None)?;
    }
    Ok(least)
}

/// The places of the cases of a set, from the last back.
fn places_back(alloc: Global, sets: &Sets, set: usize) -> Result<List<usize>, NoMemory>
    ensures { IfOk result (λ places. reverse places ≡ places_of sets.now.keys set) }
{
    let mut places = List::new(alloc);
    let mut left = set;
    for _ in 0..sets.len() {
        if left == 0 {
            return Ok(places);
        }
        let (before, case) = sets.get_index(left - 1).copied().unwrap_or((0, 0));
        places.push(case)?;
        left = before;
    }
    Ok(places)
}
