//! The slacks of a circuit over more and more cases, and the reply by them.

ghost use Rattle.std.specs.Prelude.{◌≡◌, ◌<◌, ◌+◌, ℕ, ◌++◌, ◌∷◌, [], false, List, IfOk, OnOk, length, slice_get};
ghost use Rattle.scald_base.specs.Time.{IsHeader};
ghost use Rattle.step_values.specs.Cell.{values};
ghost use Rattle.skew_algebra.specs.Wave.{IsNormal};
ghost use Rattle.flat_circuit.specs.declared.instance.Instance.{Instance as OfCircuit};
ghost use Rattle.flat_circuit.specs.Instances.{InstanceFits};
ghost use Rattle.fixpoint_engine.specs.Settled.{marked_in};
ghost use Rattle.fixpoint_engine.specs.Waves.{FitWaves, marked_pin as marked, waves_of};
ghost use Rattle.slack_rows.specs.Limit.{Case};
ghost use Rattle.slack_report.specs.Answer.{AreRows, AreSlacksOf, first_line, last_lines};
ghost use Rattle.slack_report.specs.Hazards.{AreMarked, has_hazard as mark_has_hazard};

use crate::answer::{Counts, add_first, add_last};
use crate::counts::row_count;
use crate::request::Part;
use critical_paths::View;
// a set of numbers: here of instances
use fixpoint_engine::{NetSet as InstanceSet, Waves, waves_at_pins};
use flat_circuit::{Circuit, Instance};
use gate_eval::hold_fault;
use listing::Output;
use program_call::{Reply, verdict};
use scald_base::{Bytes, NoMemory, Outcome};
use slack_rows::Rows;
use std::alloc::Global;
use step_values::Value;
use wave_core::CyclicWave;

/// The most limits that an outcome may count.
const MOST_LIMITS: usize = 4_294_967_295;

/// Which pin is marked.
fn marked_pin(instance: &Instance) -> Option<usize>
    ensures { result ≡ marked instance.now }
{
    instance.pins.as_slice().iter().position(|pin| pin.hold)
}

/// Whether the mark of an instance has a hazard.
fn has_hazard<W: CyclicWave<Item = Value>>(
    alloc: Global,
    c: &Circuit,
    waves: &Waves<W>,
    instance: &Instance,
) -> Result<bool, NoMemory>
    requires fits { InstanceFits c.now.header (length c.now.nets) instance.now }
    requires fit { FitWaves c.now waves.now }
    ensures { IfOk result (λ found.
        found ≡ mark_has_hazard c.now (waves_of waves.now) instance.now) }
{
    if marked_pin(instance).is_none() {
        return Ok(false);
    }
    c.header().known();
    let pins = waves_at_pins(alloc, c, waves, instance.pins.as_slice())?;
    Ok(hold_fault(instance.kind, &pins).is_some())
}

/// Puts an instance into a set, if it is to be there.
fn add_if(found: &mut InstanceSet, number: u32, is_there: bool)
    requires room { number < length found.old }
    requires new { marked_in found.old number ≡ false }
    ensures long { length found.new ≡ length found.old }
    ensures here { marked_in found.new number ≡ is_there }
    ensures other { (k : ℕ) → ¬ (k ≡ number) → marked_in found.new k ≡ marked_in found.old k }
{
    if is_there {
        found.add(number);
    }
}

/// Puts the instance of a number into the set of those whose mark has a hazard, if it is one.
fn add_instance<W: CyclicWave<Item = Value>>(
    alloc: Global,
    c: &Circuit,
    waves: &Waves<W>,
    number: u32,
    found: &mut InstanceSet,
) -> Result<(), NoMemory>
    requires fit { FitWaves c.now waves.now }
    requires marked { AreMarked c.now (waves_of waves.now) found.old number }
    ensures { OnOk result (AreMarked c.now (waves_of waves.now) found.new (number + 1)) }
{
    c.known();
    let Some(instance) = c.instance(number) else {
        return Ok(());
    };
    let is_there = has_hazard(alloc, c, waves, instance)?;
    add_if(found, number, is_there);
    Ok(())
}

/// The instances whose mark has a hazard.
fn hazards_in<W: CyclicWave<Item = Value>>(
    alloc: Global,
    c: &Circuit,
    waves: &Waves<W>,
) -> Result<InstanceSet, NoMemory>
    requires { FitWaves c.now waves.now }
    ensures { let ws = waves_of waves.now in IfOk result (λ hazards. (k : ℕ) (j : OfCircuit) →
        slice_get c.now.instances k ≡ Some j → marked_in hazards k ≡ mark_has_hazard c.now ws j) }
{
    let mut found = InstanceSet::new(alloc, c.instance_count())?;
    for number in 0..c.instance_count() {
        add_instance(alloc, c, waves, number, &mut found)?;
    }
    Ok(found)
}

/// What holds of the waves of all nets.
fn known_waves<W: CyclicWave<Item = Value>>(c: &Circuit, waves: &Waves<W>)
    requires { FitWaves c.now waves.now }
    ensures { (i : ℕ) → i < length c.now.nets → IsNormal values (waves_of waves.now i) }
{
    for net in 0..c.net_count() {
        waves.at(net).known();
    }
}

/// What holds of the head of a circuit.
fn known_header(c: &Circuit)
    ensures { IsHeader c.now.header }
{
    c.header().known();
}

/// The limits of a circuit, over no case.
pub fn no_rows(alloc: Global, circuit: &Circuit) -> Result<Rows, NoMemory>
    ensures { IfOk result (λ rows. AreRows circuit.now [] rows) }
{
    let rows = Rows::new(alloc, circuit)?;
    Ok(rows)
}

/// One case more, of this number.
pub fn add_case<W: CyclicWave<Item = Value>>(
    rows: &mut Rows,
    alloc: Global,
    circuit: &Circuit,
    number: u32,
    waves: &Waves<W>,
) -> Result<(), NoMemory>
    requires fit { FitWaves circuit.now waves.now }
    requires ready { (cases : List Case) × AreRows circuit.now cases rows.old }
    ensures { OnOk result ((cases : List Case) → AreRows circuit.now cases rows.old →
        AreRows circuit.now
        (cases ++ record { number = number; waves = waves_of waves.now } ∷ []) rows.new) }
{
    circuit.known();
    known_header(circuit);
    known_waves(circuit, waves);
    let hazards = hazards_in(alloc, circuit, waves)?;
    let view = View {
        alloc,
        circuit,
        waves,
        hazards: &hazards,
    };
    rows.add_case(number, &view)?;
    Ok(())
}

/// Puts the whole answer at the end: the first line, those that are given, and the last ones.
fn add_text(
    out: &mut Bytes,
    circuit: &Circuit,
    part: Part,
    lines: &Bytes,
    counts: Counts,
) -> Result<(), NoMemory>
    ensures { OnOk result (out.new ≡ out.old ++ first_line circuit.now ++ lines.now
        ++ last_lines part counts.free counts.broken counts.limits) }
{
    add_first(out, circuit)?;
    out.extend(lines.as_slice())?;
    add_last(out, part, counts)
}

/// The whole answer.
fn text(
    alloc: Global,
    circuit: &Circuit,
    part: Part,
    lines: &Bytes,
    counts: Counts,
) -> Result<Bytes, NoMemory>
    ensures { IfOk result (λ bytes. bytes ≡ first_line circuit.now ++ lines.now
        ++ last_lines part counts.free counts.broken counts.limits) }
{
    let mut bytes = Bytes::new(alloc);
    add_text(&mut bytes, circuit, part, lines, counts)?;
    Ok(bytes)
}

/// The reply: how many limits are broken, and the whole answer. More than an outcome may count have
/// no memory.
pub fn reply(
    alloc: Global,
    circuit: &Circuit,
    part: Part,
    rows: &Rows,
    lines: &Bytes,
) -> Result<Reply<Outcome>, NoMemory>
    requires { (cases : List Case) × AreRows circuit.now cases rows.now }
    ensures { IfOk result (λ reply. (cases : List Case) → AreRows circuit.now cases rows.now →
        AreSlacksOf part circuit.now cases reply.outcome reply.bytes) }
{
    let broken = rows.broken_count();
    if broken > MOST_LIMITS {
        return Err(NoMemory);
    }
    let counts = Counts {
        free: rows.free_count(),
        broken,
        limits: row_count(rows),
    };
    let bytes = text(alloc, circuit, part, lines, counts)?;
    Ok(Reply {
        outcome: verdict(broken as u32),
        bytes: Output::whole(bytes),
    })
}
