//! The settled base and cases of a circuit, with their faults.

ghost use Rattle.std.specs.Prelude.{◌≡◌, ◌≢◌, ◌≤◌, ◌<◌, ◌+◌, [], ℕ, List, IfErr, IfOk, IfSome, MatchResult, OnOk, length};
ghost use Rattle.flat_circuit.specs.Instances.{outputs};
ghost use Rattle.flat_circuit.specs.declared.case.CaseValue.{CaseValue};
ghost use Rattle.flat_circuit.specs.Circuit.{Circuit as Flat};
ghost use Rattle.fixpoint_engine.specs.Table.{AreKnown, waves_at};
ghost use Rattle.fixpoint_engine.specs.Waves.{FitWaves, waves_of};
ghost use Rattle.fixpoint_engine.specs.End.{EndsFor};
ghost use Rattle.fixpoint_engine.specs.Loops.{HasNoLoop};
ghost use Rattle.fixpoint_engine.specs.Reach.{reach};
ghost use Rattle.case_analysis.specs.Base.{base_round};
ghost use Rattle.case_analysis.specs.Case.{PermitCase, case_at};
ghost use Rattle.case_analysis.specs.Tick.{tick};
ghost use Rattle.timing_analysis.specs.Case.{faults_of};
ghost use Rattle.timing_analysis.specs.Ended.{EndsCase};
ghost use Rattle.timing_analysis.specs.Known.{IsKnown};
ghost use Rattle.timing_analysis.specs.Promise.{KeepsFaultless};
ghost use Rattle.timing_analysis.specs.Settled.{IsBaseIn, IsCaseIn};
ghost use Rattle.timing_analysis.specs.Subject.{IsSubject};

use crate::case_faults::{KnownFaults, faults, faults_again, known_faults};
use crate::subject::Subject;
use case_analysis::{AllCases, base, case_waves, tick};
use fixpoint_engine::{EngineEnd, Numbers, Settled, Store, Waves};
use flat_circuit::{Circuit, Faults};
use scald_base::NoMemory;
use std::alloc::Global;
use step_values::Value;
use wave_core::CyclicWave;

/// The settled base of a circuit, with which each case begins.
#[derive(Drop)]
pub struct SettledBase<W: CyclicWave<Item = Value>> {
    /// The waves by their numbers, and what was made of them.
    pub store: Store<W>,
    /// The numbers of the waves of the base, and the round in which they settled.
    pub base: Settled,
    /// The faults of each instance and of each net in these waves, if there are cases: what a
    /// case leaves as it is in the base is not checked again.
    pub known: Option<KnownFaults>,
}

/// A settled case.
#[derive(Drop)]
pub struct SettledCase {
    /// The number of the case: from 1, or 0 if a drawing lists none.
    pub number: u32,
    /// The numbers of the waves of the case, and how many rounds they took from the base on.
    pub settled: Settled,
    /// The tick that is printed for the case: what has no fault is not broken from there on.
    pub tick: u64,
    /// The faults of the case, in the order of the report.
    pub faults: Faults,
}

impl Subject {
    /// The settled base of the circuit. `Unsettled` comes if it does not settle within so many
    /// rounds, and `NoMemory` if memory runs out.
    pub fn base<W: CyclicWave<Item = Value>>(
        &self,
        alloc: Global,
        limit: u32,
    ) -> Result<SettledBase<W>, EngineEnd>
        requires { IsSubject self.now }
        ensures settled { IfOk result (λ r.
            IsBaseIn self.now.circuit limit r.base.rounds r.store r.base.numbers r.known) }
        ensures unsettled { IfErr result
            (EndsFor self.now.circuit.order (base_round self.now.circuit) limit) }
        ensures loopless { HasNoLoop self.now.circuit → outputs self.now.circuit.instances ≤ limit →
            MatchResult result (λ r.
            r.base.rounds ≤ outputs self.now.circuit.instances) (λ e. e ≡ EngineEnd.NoMemory) }
    {
        let mut store: Store<W> = Store::new(alloc);
        let base = base(
            alloc,
            &self.circuit,
            &mut store,
            &self.cases,
            &self.classes,
            limit,
        )?;
        let known = if self.cases.is_empty() {
            None
        } else {
            let waves = Waves::new(store.waves(), base.numbers.as_slice());
            Some(known_faults(alloc, &self.circuit, &waves)?)
        };
        Ok(SettledBase { store, base, known })
    }

    /// The settled case at this place of the list, from 0, from the base on. `Unsettled` comes
    /// if it does not settle within so many rounds, and `NoMemory` if memory runs out; the
    /// base may then be lost.
    pub fn case<W: CyclicWave<Item = Value>>(
        &self,
        alloc: Global,
        settled_base: &mut SettledBase<W>,
        place: u32,
        limit: u32,
    ) -> Result<SettledCase, EngineEnd>
        requires is { IsSubject self.now }
        requires few { limit ≤ 10000000 }
        requires inside { place < length self.now.cases }
        requires settled { IsBaseIn self.now.circuit limit
            settled_base.old.base.rounds settled_base.old.store settled_base.old.base.numbers
            settled_base.old.known }
        ensures kept { let kept = IsBaseIn self.now.circuit limit
            settled_base.new.base.rounds settled_base.new.store settled_base.new.base.numbers
            settled_base.new.known in
            MatchResult result (λ _. kept) (λ e. e ≢ EngineEnd.NoMemory → kept) }
        ensures round { settled_base.new.base.rounds ≡ settled_base.old.base.rounds }
        ensures settled { IfOk result (λ k.
            IsCaseIn self.now.circuit limit settled_base.old.base.rounds
            (record { number = place + 1; values = case_at self.now.cases place })
            settled_base.new.store k) }
        ensures unsettled { IfErr result (EndsCase self.now.circuit limit
            settled_base.old.base.rounds (record {
              number = place + 1;
              values =
                  case_at self.now.cases place;
            })) }
        ensures loopless { HasNoLoop self.now.circuit →
            outputs self.now.circuit.instances ≤ limit →
            IfErr result (λ e. e ≡ EngineEnd.NoMemory) }
    {
        settled_base.shorten(alloc)?;
        let cases = AllCases {
            list: &self.cases,
            classes: &self.classes,
            reached: &self.reached,
        };
        let settled = case_waves(
            alloc,
            &self.circuit,
            &mut settled_base.store,
            &cases,
            &settled_base.base,
            place,
            limit,
        )?;
        let found = faults_from(alloc, &self.circuit, settled_base, &settled.numbers)?;
        let tick = tick(self.reach, settled_base.base.rounds, settled.rounds);
        Ok(SettledCase {
            number: place + 1,
            settled,
            tick,
            faults: found,
        })
    }
}

impl<W: CyclicWave<Item = Value>> SettledBase<W> {
    /// The one case of what lists none: the base, from which it takes no more rounds.
    /// `NoMemory` comes if memory runs out. The limit is that of the base's rounds.
    pub fn only_case(
        self,
        alloc: Global,
        subject: &Subject,
        limit: u32,
    ) -> Result<(Store<W>, SettledCase), NoMemory>
        requires is { IsSubject subject.now }
        requires few { limit ≤ 10000000 }
        requires settled { IsBaseIn subject.now.circuit limit self.base.rounds self.store
            self.base.numbers self.known }
        ensures { IfOk result (λ k. IsCaseIn subject.now.circuit limit self.base.rounds
            (record { number = 0; values = [] }) k.0 k.1) }
    {
        let SettledBase {
            store,
            base,
            known: _,
        } = self;
        let Settled {
            numbers,
            rounds,
            evals: _,
        } = base;
        let waves = Waves::new(store.waves(), numbers.as_slice());
        let found = faults(alloc, &subject.circuit, &waves)?;
        let tick = tick(subject.reach, rounds, 0);
        let case = SettledCase {
            number: 0,
            settled: Settled {
                numbers,
                rounds: 0,
                evals: 0,
            },
            tick,
            faults: found,
        };
        Ok((store, case))
    }

    /// Forgets the waves that are not the base's, and all evaluations, if much came in: cases
    /// that come to ever new waves would else take memory without end.
    fn shorten(&mut self, alloc: Global) -> Result<(), NoMemory>
        requires { AreKnown self.old.store self.old.base.numbers }
        ensures kept { OnOk result ((c : Flat) (limit : ℕ) →
            IsBaseIn c limit self.old.base.rounds self.old.store self.old.base.numbers
            self.old.known →
            IsBaseIn c limit self.new.base.rounds self.new.store self.new.base.numbers
            self.new.known) }
        ensures round { self.new.base.rounds ≡ self.old.base.rounds }
    {
        let base = self.base.numbers.as_slice();
        if !self.store.is_long_in_all(alloc, base)? {
            return Ok(());
        }
        let numbers = self.store.compact(alloc, 0, base)?;
        self.base.numbers = numbers;
        Ok(())
    }
}

/// The faults of a case with the waves of these numbers: what it leaves as it is in the base is not
/// checked again if the faults of the base are known.
fn faults_from<W: CyclicWave<Item = Value>>(
    alloc: Global,
    circuit: &Circuit,
    settled_base: &SettledBase<W>,
    numbers: &Numbers,
) -> Result<Faults, NoMemory>
    requires base { AreKnown settled_base.now.store settled_base.now.base.numbers }
    requires before { FitWaves circuit.now
        (waves_at settled_base.now.store settled_base.now.base.numbers) }
    requires known { IfSome settled_base.now.known
        (IsKnown circuit.now (waves_of
        (waves_at settled_base.now.store settled_base.now.base.numbers))) }
    requires numbers { AreKnown settled_base.now.store numbers.now }
    requires fit { FitWaves circuit.now (waves_at settled_base.now.store numbers.now) }
    ensures are { IfOk result (λ faults.
        faults ≡ faults_of circuit.now (waves_of (waves_at settled_base.now.store numbers.now))) }
    ensures few { IfOk result (λ faults. length faults ≤ 458752) }
    ensures keep { IfOk result (λ faults. (values : List CaseValue) (base rounds : ℕ) →
        PermitCase circuit.now values (base + rounds)
        (waves_of (waves_at settled_base.now.store numbers.now)) →
        KeepsFaultless circuit.now values faults (tick (reach circuit.now) base rounds)) }
{
    let table = settled_base.store.waves();
    let waves = Waves::new(table, numbers.as_slice());
    match &settled_base.known {
        Some(known) => {
            let before = Waves::new(table, settled_base.base.numbers.as_slice());
            faults_again(alloc, circuit, &before, known, &waves)
        }
        None => faults(alloc, circuit, &waves),
    }
}
