//! The faults of a case, each with what is said of it, or the trace of one of them.

ghost use Rattle.std.specs.Prelude.{◌≡◌, ◌++◌, ◌∷◌, ℕ, [], List, IfOk, OnOk};
ghost use Rattle.case_analysis.specs.Case.{NetsExist};
ghost use Rattle.flat_circuit.specs.declared.fault.Fault.{Fault as FaultOf};
ghost use Rattle.listing.specs.Fault.{fault_line};
ghost use Rattle.narrowing.specs.Constraint.{constraint_of};
ghost use Rattle.fault_decider.specs.Lines.{AreLines};
ghost use Rattle.fault_decider.specs.Verdict.{IsVerdict};
ghost use Rattle.fault_decider.specs.Reporting.{AreSought, AreTold, IsTold, TraceAdded};

use crate::answer::{Answer, Question, one_more};
use crate::decide::decide;
use crate::lines::add_verdict;
use crate::verdict::Verdict;
use flat_circuit::{Case, Circuit, Fault};
use listing::write_fault;
use narrowing::constraint_of;
use scald_base::{Bytes, NoMemory};
use std::alloc::Global;
use trace_tool::write_trace;

/// The line of a fault, and those of what is said of it.
fn add_lines(
    out: &mut Bytes,
    alloc: Global,
    c: &Circuit,
    values: &Case,
    fault: Fault,
    verdict: &Verdict,
) -> Result<(), NoMemory>
    ensures { OnOk result ((said : List ℕ)
        × AreLines c.now values.now (constraint_of fault) verdict.now said
        × (out.new ≡ out.old ++ fault_line c.now fault ++ said)) }
{
    out.extend(b"FAULT ")?;
    write_fault(c, &fault, out)?;
    out.push(b'\n')?;
    add_verdict(out, alloc, c, values, constraint_of(fault), verdict)
}

/// Counts what is said of a fault, and puts it at the end.
fn add_told(
    answer: &mut Answer,
    alloc: Global,
    c: &Circuit,
    values: &Case,
    fault: Fault,
    verdict: &Verdict,
) -> Result<(), NoMemory>
    ensures { OnOk result (IsTold c.now values.now fault verdict.now answer.old answer.new) }
{
    answer.counts.count(verdict)?;
    add_lines(&mut answer.bytes, alloc, c, values, fault, verdict)
}

/// What is said of a fault, in a report and for its trace alike.
fn decided(
    alloc: Global,
    c: &Circuit,
    values: &Case,
    fault: Fault,
    tick: u64,
    question: Question,
) -> Result<Verdict, NoMemory>
    requires { NetsExist c.now values.now }
    ensures { IfOk result (IsVerdict c.now values.now (constraint_of fault) tick) }
{
    let effort = question.request.effort;
    decide(alloc, c, values, constraint_of(fault), tick, effort)
}

/// One fault more.
fn add_fault(
    answer: &mut Answer,
    alloc: Global,
    c: &Circuit,
    values: &Case,
    fault: Fault,
    tick: u64,
    question: Question,
) -> Result<(), NoMemory>
    requires { NetsExist c.now values.now }
    ensures { OnOk result ((start : Answer) (before : List FaultOf) →
        AreTold c.now values.now tick before start answer.old →
        AreTold c.now values.now tick (before ++ fault ∷ []) start answer.new) }
{
    let verdict = decided(alloc, c, values, fault, tick, question)?;
    add_told(answer, alloc, c, values, fault, &verdict)
}

/// The trace of a run that shows a fault, if the verdict has one.
fn add_trace(answer: &mut Answer, c: &Circuit, verdict: &Verdict) -> Result<(), NoMemory>
    ensures { OnOk result ((answer.new.faults ≡ answer.old.faults)
        × TraceAdded c.now verdict.now answer.old answer.new) }
{
    let Verdict::Shown(showing) = verdict else {
        return Ok(());
    };
    write_trace(c, &showing.trace, &mut answer.bytes)?;
    answer.is_traced = true;
    Ok(())
}

/// One fault more, whose trace is the answer if it has the number that is wanted and is shown.
fn seek_trace(
    answer: &mut Answer,
    alloc: Global,
    c: &Circuit,
    values: &Case,
    fault: Fault,
    tick: u64,
    question: Question,
    wanted: u32,
) -> Result<(), NoMemory>
    requires { NetsExist c.now values.now }
    ensures { OnOk result ((start : Answer) (before : List FaultOf) →
        AreSought c.now values.now tick before wanted start answer.old →
        AreSought c.now values.now tick (before ++ fault ∷ []) wanted start answer.new) }
{
    answer.faults = one_more(answer.faults)?;
    if answer.faults != wanted {
        return Ok(());
    }
    let verdict = decided(alloc, c, values, fault, tick, question)?;
    add_trace(answer, c, &verdict)
}

/// All faults of a case.
pub fn add_faults(
    answer: &mut Answer,
    alloc: Global,
    c: &Circuit,
    values: &Case,
    faults: &[Fault],
    tick: u64,
    question: Question,
) -> Result<(), NoMemory>
    requires { NetsExist c.now values.now }
    ensures { OnOk result (AreTold c.now values.now tick faults.now answer.old answer.new) }
{
    for fault in faults {
        add_fault(answer, alloc, c, values, *fault, tick, question)?;
    }
    Ok(())
}

/// The same for the trace that is wanted.
pub fn seek_traces(
    answer: &mut Answer,
    alloc: Global,
    c: &Circuit,
    values: &Case,
    faults: &[Fault],
    tick: u64,
    question: Question,
    wanted: u32,
) -> Result<(), NoMemory>
    requires { NetsExist c.now values.now }
    ensures { OnOk result
        (AreSought c.now values.now tick faults.now wanted answer.old answer.new) }
{
    for fault in faults {
        seek_trace(answer, alloc, c, values, *fault, tick, question, wanted)?;
    }
    Ok(())
}
