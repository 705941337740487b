//! The rounds of a case.

ghost use Rattle.std.specs.Prelude.{◌≡◌, ◌≤◌, ◌+◌, ◌<◌, ℕ, Bool, List, IfErr, IfOk, IfSome, MatchResult, [], length};
ghost use Rattle.flat_circuit.specs.Instances.{outputs};
ghost use Rattle.step_values.specs.declared.value.Value.{Value as OfValues};
ghost use Rattle.skew_algebra.specs.Wave.{Wave};
ghost use Rattle.fixpoint_engine.specs.Table.{AreKnown, Grows, IsNumber, waves_at};
ghost use Rattle.fixpoint_engine.specs.Waves.{FitWaves, waves_of};
ghost use Rattle.fixpoint_engine.specs.End.{EndsFor};
ghost use Rattle.fixpoint_engine.specs.Key.{AreConstants};
ghost use Rattle.fixpoint_engine.specs.Loops.{HasNoLoop};
ghost use Rattle.fixpoint_engine.specs.Members.{evaluations_to};
ghost use Rattle.fixpoint_engine.specs.NetClasses.{AreClasses};
ghost use Rattle.fixpoint_engine.specs.Settled.{marked_in};
ghost use Rattle.fixpoint_engine.specs.Start.{unknown_wave};
ghost use Rattle.case_analysis.specs.Base.{IsBase};
ghost use Rattle.case_analysis.specs.Case.{EndsInCone, HasCone, IsCase, IsCone, NetsExist, PermitCase, case_active, case_at, case_round, case_start};
ghost use Rattle.case_analysis.specs.Reached.{AreReached};

use crate::base_rounds::unknown_wave;
use crate::parts::case_at;
use crate::reached::{Reached, own_reach};
use fixpoint_engine::{
    Constants, EngineEnd, NetClasses, NetSet, Numbers, Settled, Start, Store, constant_numbers,
    settle,
};
use flat_circuit::{Case, CaseList, Circuit};
use scald_base::{List, NoMemory};
use std::alloc::Global;
use step_values::Value;
use wave_core::CyclicWave;

/// The cases of a circuit, and what is found once for all of them.
#[derive(Clone, Copy)]
pub struct AllCases<'a> {
    pub list: &'a CaseList,
    /// The classes of the circuit's nets, by which rounds go.
    pub classes: &'a NetClasses,
    /// The nets that each case reaches, if all set the same nets.
    pub reached: &'a Option<Reached>,
}

/// The numbers of the waves of all nets before those of the case are set: nothing is known of a net
/// that the case reaches, and each other net is as it was.
fn unset_numbers(
    alloc: Global,
    c: &Circuit,
    cone: &NetSet,
    before: &[u32],
    unknown: u32,
) -> Result<Numbers, NoMemory>
    requires cone { length cone.now ≡ length c.now.nets }
    requires each_net { length before.now ≡ length c.now.nets }
    ensures each_net { IfOk result (λ numbers. length numbers ≡ length c.now.nets) }
    ensures known { IfOk result (λ numbers. (table : List (Wave OfValues)) →
        AreKnown table before.now → unknown < length table → AreKnown table numbers) }
    ensures is { IfOk result (λ numbers. (table : List (Wave OfValues)) →
        IsNumber table (unknown_wave c.now.header) unknown → (i : ℕ) →
        waves_of (waves_at table numbers) i
        ≡ case_start c.now [] (marked_in cone.now) (waves_of (waves_at table before.now)) i) }
{
    let mut numbers: Numbers = List::new(alloc);
    for net in 0..c.net_count() {
        numbers.push(if cone.has(net) {
            unknown
        } else {
            before[net as usize]
        })?;
    }
    Ok(numbers)
}

/// The numbers of the waves that a case begins with, and those of the constants.
fn start_numbers<W: CyclicWave<Item = Value>>(
    alloc: Global,
    c: &Circuit,
    store: &mut Store<W>,
    case: &Case,
    cone: &NetSet,
    before: &Numbers,
) -> Result<(Numbers, Constants), NoMemory>
    requires exist { NetsExist c.now case.now }
    requires cone { length cone.now ≡ length c.now.nets }
    requires known { AreKnown store.old before.now }
    requires fit { FitWaves c.now (waves_at store.old before.now) }
    ensures grows { Grows store.old store.new }
    ensures constants { IfOk result (λ start. AreConstants c.now.header store.new start.1) }
    ensures known { IfOk result (λ start. AreKnown store.new start.0) }
    ensures is { let old = waves_of (waves_at store.old before.now) in
        IfOk result (λ start. (i : ℕ) → waves_of (waves_at store.new start.0) i
        ≡ case_start c.now case.now (marked_in cone.now) old i) }
    ensures fit { IfOk result (λ start. FitWaves c.now (waves_at store.new start.0)) }
{
    let unknown = store.number(unknown_wave(alloc, c.header())?)?;
    let constants = constant_numbers(alloc, c.header(), store)?;
    let mut numbers = unset_numbers(alloc, c, cone, before.as_slice(), unknown)?;
    for value in case.as_slice() {
        numbers.set(value.net as usize, constants.of(value.one));
    }
    Ok((numbers, constants))
}

/// The settled waves of the case with this number from 0: its nets have their values, the other
/// nets of its cone are unknown at the start, and all others keep the base's waves; rounds over the
/// driven nets of the cone, until a round is as the one before, by one net of each class if
/// there are classes. The waves permit every run of the case whose inputs keep their assertions,
/// `reach` ticks later for each round of the base and of the case. `Unsettled` comes exactly if
/// no round up to `limit` is as the next one: never if no net is reached from itself through
/// listening pins and the limit is not below the number of instances with an output.
pub fn case_waves<W: CyclicWave<Item = Value>>(
    alloc: Global,
    c: &Circuit,
    store: &mut Store<W>,
    cases: &AllCases,
    base: &Settled,
    number: u32,
    limit: u32,
) -> Result<Settled, EngineEnd>
    requires known { AreKnown store.old base.now.numbers }
    requires classes { AreClasses c.now cases.now.list.now cases.now.classes.now }
    requires number { number < length cases.now.list.now }
    requires exist { NetsExist c.now (case_at cases.now.list.now number) }
    requires shared { IfSome cases.now.reached.now
        (AreReached c.now (case_at cases.now.list.now number)) }
    requires base { IsBase c.now base.now.rounds base.now.rounds
        (waves_of (waves_at store.old base.now.numbers)) }
    requires fit { FitWaves c.now (waves_at store.old base.now.numbers) }
    ensures grows { Grows store.old store.new }
    ensures known { IfOk result (λ s. AreKnown store.new s.numbers) }
    ensures settled { let case = case_at cases.now.list.now number in
        let before = waves_of (waves_at store.old base.now.numbers) in
        IfOk result (λ s. (cone : ℕ → Bool) → IsCone c.now case cone →
        IsCase c.now case cone before limit s.rounds (waves_of (waves_at store.new s.numbers))) }
    ensures within { IfOk result (λ s. s.rounds ≤ limit) }
    ensures fit { IfOk result (λ s. FitWaves c.now (waves_at store.new s.numbers)) }
    ensures work { let case = case_at cases.now.list.now number in
        let before = waves_of (waves_at store.old base.now.numbers) in
        IfOk result (λ s. (cone : ℕ → Bool) → IsCone c.now case cone →
        s.evals ≡ evaluations_to cases.now.classes.now.nets c.now (case_active c.now cone)
        (case_round c.now case cone before) (s.rounds + 1)) }
    ensures sound { IfOk result (λ s. PermitCase c.now (case_at cases.now.list.now number)
        (base.now.rounds + s.rounds) (waves_of (waves_at store.new s.numbers))) }
    ensures unsettled { let case = case_at cases.now.list.now number in
        let before = waves_of (waves_at store.old base.now.numbers) in
        IfErr result (λ e. (cone : ℕ → Bool) → IsCone c.now case cone →
        EndsFor c.now.order (case_round c.now case cone before) limit e) }
    ensures cone { let case = case_at cases.now.list.now number in
        MatchResult result (λ _. HasCone c.now case) (EndsInCone c.now case) }
    ensures loopless { HasNoLoop c.now → outputs c.now.instances ≤ limit →
        MatchResult result (λ s. s.rounds ≤ outputs c.now.instances) (λ e. e ≡ EngineEnd.NoMemory) }
{
    c.known();
    c.header().known();
    let case = case_at(cases.list, number);
    let reached = own_reach(alloc, c, case, cases.reached)?;
    let (numbers, constants) = start_numbers(alloc, c, store, case, &reached.cone, &base.numbers)?;
    let Reached { cone: _, active } = reached;
    let start = Start {
        numbers,
        constants,
        active,
    };
    settle(alloc, c, store, &start, cases.classes, limit)
}
