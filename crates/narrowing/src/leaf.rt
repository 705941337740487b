//! A narrowing, evaluated.

ghost use Rattle.std.specs.Prelude.{◌≡◌, ◌≤◌, ℕ, IfOk, IfSome, false, length};
ghost use Rattle.std.specs.List.{All, list_any};
ghost use Rattle.scald_base.specs.Time.{IsHeader};
ghost use Rattle.flat_circuit.specs.Circuit.{IsCircuit};
ghost use Rattle.fixpoint_engine.specs.Table.{AreKnown, waves_at};
ghost use Rattle.fixpoint_engine.specs.Waves.{FitWaves};
ghost use Rattle.fixpoint_engine.specs.Start.{default_limit};
ghost use Rattle.timing_analysis.specs.Settled.{IsBaseIn};
ghost use Rattle.case_analysis.specs.Case.{NetsExist};
ghost use Rattle.timing_analysis.specs.Subject.{IsSubject};
ghost use Rattle.narrowing.specs.Constraint.{is_of};
ghost use Rattle.narrowing.specs.Leaf.{IsFreeLeaf, NeverBreaksIn, Says};
ghost use Rattle.narrowing.specs.Narrowed.{narrowed, narrowed_cases, narrowed_values, only_case};
ghost use Rattle.narrowing.specs.Part.{PartFits};
ghost use Rattle.narrowing.specs.declared.leaf.Leaf.TheVariants.{Free};

use crate::circuit::narrow;
use crate::constraint::Constraint;
use crate::doubt::doubt;
use crate::part::Part;
use case_analysis::default_limit;
use fixpoint_engine::{EngineEnd, Store, Waves};
use flat_circuit::{Case, CaseList, CaseValue, Circuit, Fault};
use run_wave::RunWave;
use scald_base::NoMemory;
use std::alloc::Global;
use step_values::Value;
use timing_analysis::{Drawn, SettledBase, SettledCase, Subject};

/// What the waves of a narrowed circuit say of a constraint.
#[derive(Clone, Copy, PartialEq, Eq, Debug)]
pub enum Leaf {
    /// They show no fault of it; this is their printed tick.
    Free(u64),
    /// They show one, and leave so much open.
    Faulty(u64),
    /// They do not settle, or there is no such circuit.
    Unsettled,
}

/// The nets of a case, and those that are narrowed to a bit.
fn narrowed_values(alloc: Global, values: &[CaseValue], parts: &[Part]) -> Result<Case, NoMemory>
    ensures { IfOk result (λ case. case ≡ narrowed_values values.now parts.now) }
{
    let mut case = Case::from_slice(alloc, values)?;
    for part in parts {
        if let Part::Constant { net, one } = part {
            case.push(CaseValue {
                net: *net,
                one: *one,
            })?;
        }
    }
    Ok(case)
}

/// The case as the only one, or none if it sets nothing.
fn only_case(alloc: Global, case: Case) -> Result<CaseList, NoMemory>
    ensures { IfOk result (λ cases. cases ≡ only_case case) }
{
    let mut cases = CaseList::new(alloc);
    if !case.is_empty() {
        cases.push(case)?;
    }
    Ok(cases)
}

/// Whether a fault is of a constraint.
fn is_of(x: Constraint, fault: Fault) -> bool
    ensures { result ≡ is_of x fault }
{
    match (x, fault) {
        (Constraint::Instance(k), Fault::Point { instance, .. }) => instance == k,
        (Constraint::Instance(k), Fault::Width { instance, .. }) => instance == k,
        (Constraint::Instance(k), Fault::Hazard { instance, .. }) => instance == k,
        (
            Constraint::Pulse { instance: k, high },
            Fault::Width {
                instance,
                high: level,
                ..
            },
        ) => instance == k && level == high,
        (Constraint::Net(i), Fault::Assertion { net, .. }) => net == i,
        _ => false,
    }
}

/// Whether one of the faults is of a constraint.
fn any_is_of(x: Constraint, faults: &[Fault]) -> bool
    ensures { result ≡ list_any (is_of x) faults.now }
{
    for fault in faults {
        if is_of(x, *fault) {
            return true;
        }
    }
    false
}

/// What a settled case says.
fn said_by(
    alloc: Global,
    c: &Circuit,
    store: &Store<RunWave<Value>>,
    case: &SettledCase,
    x: Constraint,
) -> Result<Leaf, NoMemory>
    requires known { AreKnown store.now case.now.settled.numbers }
    requires fit { FitWaves c.now (waves_at store.now case.now.settled.numbers) }
    ensures { IfOk result (λ leaf. (tick : ℕ) → leaf ≡ Free tick →
        (tick ≡ case.now.tick) × (list_any (is_of x) case.now.faults ≡ false)) }
{
    let faults = case.faults.as_slice();
    if any_is_of(x, faults) {
        let numbers = case.settled.numbers.as_slice();
        let waves = Waves::new(store.waves(), numbers);
        Ok(Leaf::Faulty(doubt(alloc, c, &waves, x)?))
    } else {
        Ok(Leaf::Free(case.tick))
    }
}

/// What a settled base says, if no case is listed.
fn said_by_base(
    alloc: Global,
    subject: &Subject,
    base: SettledBase<RunWave<Value>>,
    x: Constraint,
) -> Result<Leaf, NoMemory>
    requires is { IsSubject subject.now }
    requires none { length subject.now.cases ≡ 0 }
    requires settled { let limit = default_limit subject.now.circuit in
        IsBaseIn subject.now.circuit limit base.base.rounds base.store base.base.numbers
        base.known }
    ensures { IfOk result (Says subject.now.circuit subject.now.cases x) }
{
    let limit = default_limit(&subject.circuit);
    let (store, case) = base.only_case(alloc, subject, limit)?;
    said_by(alloc, &subject.circuit, &store, &case, x)
}

/// What the first case that is listed says.
fn said_by_case(
    alloc: Global,
    subject: &Subject,
    base: &mut SettledBase<RunWave<Value>>,
    x: Constraint,
) -> Result<Leaf, NoMemory>
    requires is { IsSubject subject.now }
    requires some { 1 ≤ length subject.now.cases }
    requires settled { let limit = default_limit subject.now.circuit in
        IsBaseIn subject.now.circuit limit base.old.base.rounds base.old.store
        base.old.base.numbers base.old.known }
    ensures { IfOk result (Says subject.now.circuit subject.now.cases x) }
{
    let limit = default_limit(&subject.circuit);
    match subject.case(alloc, base, 0, limit) {
        Ok(case) => said_by(alloc, &subject.circuit, &base.store, &case, x),
        Err(EngineEnd::Unsettled { .. }) => Ok(Leaf::Unsettled),
        Err(EngineEnd::NoMemory) => Err(NoMemory),
    }
}

/// What the only case of a subject says, or its base if it has none.
fn evaluate_subject(alloc: Global, subject: &Subject, x: Constraint) -> Result<Leaf, NoMemory>
    requires { IsSubject subject.now }
    ensures { IfOk result (Says subject.now.circuit subject.now.cases x) }
{
    let limit = default_limit(&subject.circuit);
    match subject.base::<RunWave<Value>>(alloc, limit) {
        Ok(mut base) => {
            if subject.cases.is_empty() {
                said_by_base(alloc, subject, base, x)
            } else {
                said_by_case(alloc, subject, &mut base, x)
            }
        }
        Err(EngineEnd::Unsettled { .. }) => Ok(Leaf::Unsettled),
        Err(EngineEnd::NoMemory) => Err(NoMemory),
    }
}

/// What the only case of a circuit says, or its base if there is none.
fn evaluate_drawn(alloc: Global, drawn: Drawn, x: Constraint) -> Result<Leaf, NoMemory>
    requires few { length drawn.cases ≤ 256 }
    requires exist { All (NetsExist drawn.circuit) drawn.cases }
    ensures { IfOk result (Says drawn.circuit drawn.cases x) }
{
    let subject = Subject::new(alloc, drawn)?;
    evaluate_subject(alloc, &subject, x)
}

/// The circuit and the case that parts make, if there is such a circuit.
fn drawn(
    alloc: Global,
    c: &Circuit,
    values: &[CaseValue],
    parts: &[Part],
) -> Result<Option<Drawn>, NoMemory>
    ensures circuit { IfOk result (λ found. IfSome found (λ d.
        d.circuit ≡ narrowed c.now parts.now)) }
    ensures cases { IfOk result (λ found. IfSome found (λ d.
        d.cases ≡ narrowed_cases values.now parts.now)) }
{
    let case = narrowed_values(alloc, values, parts)?;
    let cases = only_case(alloc, case)?;
    match narrow(alloc, c, parts)? {
        None => Ok(None),
        Some(circuit) => Ok(Some(Drawn { circuit, cases })),
    }
}

/// What is known of the circuit.
fn know(c: &Circuit)
    ensures header { IsHeader c.now.header }
    ensures circuit { IsCircuit c.now }
{
    c.known();
    c.header().known();
}

/// What the waves of the circuit and the case that parts make say of a constraint.
pub fn evaluate(
    alloc: Global,
    c: &Circuit,
    values: &Case,
    x: Constraint,
    parts: &[Part],
) -> Result<Leaf, NoMemory>
    requires exist { NetsExist c.now values.now }
    requires fit { All (PartFits c.now values.now) parts.now }
    ensures free { IfOk result (λ leaf. (tick : ℕ) → leaf ≡ Free tick →
        IsFreeLeaf c.now values.now parts.now x tick) }
    ensures never { IfOk result (λ leaf. (tick : ℕ) → leaf ≡ Free tick →
        NeverBreaksIn c.now values.now parts.now x tick) }
{
    know(c);
    let found = drawn(alloc, c, values.as_slice(), parts)?;
    match found {
        None => Ok(Leaf::Unsettled),
        Some(drawn) => evaluate_drawn(alloc, drawn, x),
    }
}
