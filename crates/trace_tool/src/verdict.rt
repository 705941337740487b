//! The lines of a verdict.
//!
//! Each function puts its line at the end of the bytes. Its one error is that memory ran out.

ghost use Rattle.std.specs.Prelude.{◌≡◌, ◌++◌, OnOk};
ghost use Rattle.flat_circuit.specs.Name.{net_at};
ghost use Rattle.listing.specs.Names.{net_text};
ghost use Rattle.listing.specs.Piece.{piece_text};
ghost use Rattle.trace_tool.specs.Judged.{break_line, element_text, inputs_line, not_a_run_line, outcome_of, run_line};

use crate::Element;
use crate::outcome::TraceOutcome;
use flat_circuit::Circuit;
use listing::{Piece, add_line, instance_piece, net_piece};
use scald_base::{Bytes, NoMemory};

/// That bits are no run: the tick and the net that show it.
pub fn add_no_run(out: &mut Bytes, c: &Circuit, tick: u32, net: u32) -> Result<(), NoMemory>
    ensures { OnOk result (out.new ≡ out.old ++ not_a_run_line c.now tick net) }
{
    add_line(
        out,
        &[
            Piece::Text(b"NOT A RUN TICK "),
            Piece::Number(u64::from(tick)),
            Piece::Text(b" "),
            net_piece(c, net),
        ],
    )
}

/// That they are a run.
pub fn add_run(out: &mut Bytes) -> Result<(), NoMemory>
    ensures { OnOk result (out.new ≡ out.old ++ run_line) }
{
    add_line(out, &[Piece::Text(b"RUN")])
}

/// The net at a place in name order.
fn place_piece(c: &Circuit, place: u32) -> Piece<'_>
    ensures { piece_text result ≡ net_text c.now (net_at c.now.order place) }
{
    net_piece(c, c.net_at(place))
}

/// Whether inputs keep their assertions, or which does not, by its place in name order.
pub fn add_inputs(out: &mut Bytes, c: &Circuit, stray: Option<u32>) -> Result<(), NoMemory>
    ensures { OnOk result (out.new ≡ out.old ++ inputs_line c.now stray) }
{
    match stray {
        None => add_line(out, &[Piece::Text(b"INTERFACE")]),
        Some(place) => add_line(out, &[Piece::Text(b"INTERFACE NO "), place_piece(c, place)]),
    }
}

/// What may break.
fn element_piece(c: &Circuit, element: Element) -> Piece<'_>
    ensures { piece_text result ≡ element_text c.now element }
{
    match element {
        Element::Instance(k) => instance_piece(c, k),
        Element::Net(place) => place_piece(c, place),
    }
}

/// What breaks first, and the greatest tick that it names, if anything does.
pub fn add_break(
    out: &mut Bytes,
    c: &Circuit,
    found: Option<(Element, u32)>,
) -> Result<(), NoMemory>
    ensures { OnOk result (out.new ≡ out.old ++ break_line c.now found) }
{
    match found {
        None => add_line(out, &[Piece::Text(b"NO BREAK")]),
        Some((element, tick)) => add_line(
            out,
            &[
                Piece::Text(b"BREAK "),
                element_piece(c, element),
                Piece::Text(b" TICK "),
                Piece::Number(u64::from(tick)),
            ],
        ),
    }
}

/// How a call ends that judges a run.
pub fn outcome_of(found: Option<(Element, u32)>) -> TraceOutcome
    ensures { result ≡ outcome_of found }
{
    match found {
        None => TraceOutcome::Done,
        Some(_) => TraceOutcome::Broken,
    }
}
