//! The lines of a verdict.

ghost use Rattle.std.specs.Prelude.{◌≡◌, ◌++◌, ◌∷◌, [], ℕ, List, IfOk, OnOk, decimal};
ghost use Rattle.listing.specs.Text.{line};
ghost use Rattle.fixpoint_engine.specs.Settled.{marked_in};
ghost use Rattle.fault_decider.specs.Cone.{IsCone};
ghost use Rattle.fault_decider.specs.Lines.{AreLines, IsShownText, break_text, named_texts, own_instance as own_of, shown_text};

use crate::choices::{add_delays, add_wires};
use crate::inputs::add_inputs;
use crate::leaves::add_refuted;
use crate::offsets::add_offsets;
use crate::showing::Showing;
use crate::steps::add_steps;
use crate::verdict::Verdict;
use fixpoint_engine::NetSet;
use flat_circuit::{Case, CaseValue, Circuit};
use listing::{Piece, add_line, add_pieces};
use narrowing::{Constraint, Named, Through, cone_behind, nets_of};
use scald_base::{Bytes, NoMemory};
use std::alloc::Global;

/// A line of two texts, each with a tick after it.
fn add_two<'x>(
    out: &mut Bytes,
    front: &'x [u8],
    m: u32,
    between: &'x [u8],
    n: u32,
) -> Result<(), NoMemory>
    ensures { OnOk result (out.new
        ≡ out.old ++ line (front.now ∷ decimal m ∷ between.now ∷ decimal n ∷ [])) }
{
    add_line(
        out,
        &[
            Piece::Text(front),
            Piece::Number(u64::from(m)),
            Piece::Text(between),
            Piece::Number(u64::from(n)),
        ],
    )
}

/// The ticks of a break.
fn add_named(out: &mut Bytes, x: Constraint, named: Named) -> Result<(), NoMemory>
    ensures { OnOk result (out.new ≡ out.old ++ line (named_texts x named)) }
{
    match named {
        Named::Edge { rise, change } => {
            add_two(out, b"CLOCK RISES ", rise, b" INPUT CHANGES ", change)
        }
        Named::High { rise, fall, change } => add_line(
            out,
            &[
                Piece::Text(b"CLOCK RISES "),
                Piece::Number(u64::from(rise)),
                Piece::Text(b" FALLS "),
                Piece::Number(u64::from(fall)),
                Piece::Text(b" INPUT CHANGES "),
                Piece::Number(u64::from(change)),
            ],
        ),
        Named::Pulse { start, end } => {
            let front: &[u8] = match x {
                Constraint::Pulse { high: false, .. } => b"LOW FROM ",
                _ => b"HIGH FROM ",
            };
            add_two(out, front, start, b" TO ", end)
        }
        Named::Mark { tick, .. } => add_two(out, b"MARK ", tick, b" INPUT CHANGES ", tick),
        Named::Step(tick) => add_line(
            out,
            &[
                Piece::Text(b"LEAVES ASSERTION "),
                Piece::Number(u64::from(tick)),
            ],
        ),
    }
}

/// The nets on which a constraint depends.
fn cone_of(alloc: Global, c: &Circuit, x: Constraint) -> Result<NetSet, NoMemory>
    ensures { IfOk result (λ cone. IsCone c.now x (marked_in cone)) }
{
    let own = nets_of(alloc, c, x)?;
    cone_behind(alloc, c, &own, Through::EachPin)
}

/// The line of the break that a run shows.
fn add_break(out: &mut Bytes, x: Constraint, named: Named) -> Result<(), NoMemory>
    ensures { OnOk result (out.new ≡ out.old ++ break_text x named) }
{
    add_pieces(
        out,
        &[
            Piece::Text(b"SHOWN TICK "),
            Piece::Number(u64::from(named.last())),
            Piece::Text(b" "),
        ],
    )?;
    add_named(out, x, named)
}

/// The instance of a constraint that is no assertion's.
fn own_instance(x: Constraint) -> Option<u32>
    ensures { result ≡ own_of x }
{
    match x {
        Constraint::Instance(instance) => Some(instance),
        Constraint::Pulse { instance, high: _ } => Some(instance),
        Constraint::Net(_) => None,
    }
}

/// The lines of a run that shows a fault, by the cone of its constraint.
fn add_showing(
    out: &mut Bytes,
    c: &Circuit,
    values: &[CaseValue],
    x: Constraint,
    showing: &Showing,
    cone: &NetSet,
) -> Result<(), NoMemory>
    ensures { OnOk result (out.new
        ≡ out.old ++ shown_text c.now values.now x (marked_in cone.now) showing.now) }
{
    let trace = &showing.trace;
    add_break(out, x, showing.named)?;
    add_delays(out, c, trace, cone)?;
    add_wires(out, c, trace, cone, own_instance(x))?;
    add_offsets(out, c, trace, cone)?;
    add_inputs(out, c, trace, cone, values)?;
    add_steps(out, c, trace, cone, showing.named.last())
}

/// The lines of a run that shows a fault.
fn add_shown(
    out: &mut Bytes,
    alloc: Global,
    c: &Circuit,
    values: &[CaseValue],
    x: Constraint,
    showing: &Showing,
) -> Result<(), NoMemory>
    ensures { OnOk result ((said : List ℕ) × IsShownText c.now values.now x showing.now said
        × (out.new ≡ out.old ++ said)) }
{
    let cone = cone_of(alloc, c, x)?;
    add_showing(out, c, values, x, showing, &cone)
}

/// The lines of what is said of a fault.
pub fn add_verdict(
    out: &mut Bytes,
    alloc: Global,
    c: &Circuit,
    values: &Case,
    x: Constraint,
    verdict: &Verdict,
) -> Result<(), NoMemory>
    ensures { OnOk result ((said : List ℕ) × AreLines c.now values.now x verdict.now said
        × (out.new ≡ out.old ++ said)) }
{
    match verdict {
        Verdict::Shown(showing) => add_shown(out, alloc, c, values.as_slice(), x, showing),
        Verdict::Refuted { from, leaves } => add_refuted(out, c, *from, leaves.as_slice()),
        Verdict::Window { from } => add_line(
            out,
            &[
                Piece::Text(b"REFUTED FROM "),
                Piece::Number(*from),
                Piece::Text(b" BY WINDOW"),
            ],
        ),
        Verdict::Open => add_line(out, &[Piece::Text(b"OPEN")]),
    }
}
