//! A trace, written as a text.
//!
//! Each function puts its text at the end of the bytes. Its one error is that memory ran out, and
//! then a part of the text may stand there.

ghost use Rattle.std.specs.Prelude.{◌≡◌, ◌++◌, ◌∷◌, [], OnErr, OnOk};
ghost use Rattle.std.specs.List.{flat_map};
ghost use Rattle.flat_circuit.specs.Split.{two_delays};
ghost use Rattle.listing.specs.Piece.{piece_text};
ghost use Rattle.listing.specs.Text.{HasPart};
ghost use Rattle.trace_tool.specs.declared.line.Line.TheVariants.{Delays};
ghost use Rattle.trace_tool.specs.Trace.{delay_text, delays_line, digit_text, head_line, instance_line, line_text, net_line, pick_at, row_at, trace_text, wires_at, wires_text};

use crate::line::{Line, line_at, line_count};
use crate::trace::Trace;
use element_kinds::Form;
use flat_circuit::{Circuit, Instance};
use listing::{Piece, add_pieces, net_piece};
use scald_base::{Bytes, NoMemory};

/// The delays at an instance, or a hyphen if it has none in a run.
fn delay_pieces(i: &Instance, pick: (u16, u16)) -> (Piece<'static>, Piece<'static>, Piece<'static>)
    ensures { piece_text result.0 ++ (piece_text result.1 ++ (piece_text result.2 ++ []))
        ≡ delay_text i.now.kind (two_delays i.now.kind i.now.split) pick }
{
    let rise = Piece::Number(u64::from(pick.0));
    let none = Piece::Text(b"");
    if i.kind.may_split() && i.split.is_some() {
        return (rise, Piece::Text(b" "), Piece::Number(u64::from(pick.1)));
    }
    match i.kind.form() {
        Form::Gate => (rise, none, none),
        Form::Change => (Piece::Text(b"-"), none, none),
        Form::Register(_) => (rise, none, none),
        Form::Latch(_) => (rise, none, none),
        Form::Checker(_) => (Piece::Text(b"-"), none, none),
    }
}

/// The delays of wires.
fn add_wires(out: &mut Bytes, wires: &[u16]) -> Result<(), NoMemory>
    ensures ok { OnOk result (out.new ≡ out.old ++ wires_text wires.now) }
    ensures err { OnErr result (HasPart out.old out.new (wires_text wires.now)) }
{
    for wire in wires {
        add_pieces(out, &[Piece::Text(b" "), Piece::Number(u64::from(*wire))])?;
    }
    Ok(())
}

/// The line of an instance.
pub(crate) fn add_instance(
    out: &mut Bytes,
    i: &Instance,
    pick: (u16, u16),
    wires: &[u16],
) -> Result<(), NoMemory>
    ensures ok { OnOk result (out.new ≡ out.old ++ instance_line i.now pick wires.now) }
    ensures err { OnErr result (HasPart out.old out.new (instance_line i.now pick wires.now)) }
{
    let (first, second, third) = delay_pieces(i, pick);
    let front = [
        Piece::Bit(i.path.as_slice(), i.bit),
        Piece::Text(b" "),
        first,
        second,
        third,
        Piece::Text(b" :"),
    ];
    add_pieces(out, &front)?;
    add_wires(out, wires)
}

/// The line of an instance by its number; past the last there is none.
fn add_delays(out: &mut Bytes, c: &Circuit, trace: &Trace, k: u32) -> Result<(), NoMemory>
    ensures ok { OnOk result (out.new ≡ out.old ++ line_text c.now trace.now (Delays k)) }
    ensures err { OnErr result (HasPart out.old out.new (line_text c.now trace.now (Delays k))) }
{
    match c.instance(k) {
        None => Ok(()),
        Some(i) => add_instance(out, i, trace.pick(k), trace.wires(k)),
    }
}

/// A bit, as a digit.
fn digit(bit: bool) -> &'static [u8]
    ensures { result.now ≡ digit_text bit }
{
    if bit { b"1" } else { b"0" }
}

/// Bits, each as a digit.
fn add_digits(out: &mut Bytes, row: &[bool]) -> Result<(), NoMemory>
    ensures ok { OnOk result (out.new ≡ out.old ++ flat_map digit_text row.now) }
    ensures err { OnErr result (HasPart out.old out.new (flat_map digit_text row.now)) }
{
    for bit in row {
        out.extend(digit(*bit))?;
    }
    Ok(())
}

/// The line of a net.
pub(crate) fn add_net(out: &mut Bytes, c: &Circuit, net: u32, row: &[bool]) -> Result<(), NoMemory>
    ensures ok { OnOk result (out.new ≡ out.old ++ net_line c.now net row.now) }
    ensures err { OnErr result (HasPart out.old out.new (net_line c.now net row.now)) }
{
    add_pieces(out, &[net_piece(c, net), Piece::Text(b" ")])?;
    add_digits(out, row)
}

/// The head.
pub(crate) fn add_head(out: &mut Bytes, ticks: u32) -> Result<(), NoMemory>
    ensures ok { OnOk result (out.new ≡ out.old ++ head_line ticks) }
    ensures err { OnErr result (HasPart out.old out.new (head_line ticks)) }
{
    add_pieces(
        out,
        &[Piece::Text(b"TRACE "), Piece::Number(u64::from(ticks))],
    )
}

/// What a line says.
fn add_text(out: &mut Bytes, c: &Circuit, trace: &Trace, line: Line) -> Result<(), NoMemory>
    ensures ok { OnOk result (out.new ≡ out.old ++ line_text c.now trace.now line) }
    ensures err { OnErr result (HasPart out.old out.new (line_text c.now trace.now line)) }
{
    match line {
        Line::Head => add_head(out, trace.ticks),
        Line::Delays(k) => add_delays(out, c, trace, k),
        Line::Bits(net) => add_net(out, c, net, trace.row(net)),
        Line::End => out.extend(b"END TRACE"),
    }
}

/// A line, with the byte that ends it.
fn add_ended(out: &mut Bytes, c: &Circuit, trace: &Trace, line: Line) -> Result<(), NoMemory>
    ensures ok { OnOk result (out.new ≡ out.old ++ (line_text c.now trace.now line ++ 10 ∷ [])) }
    ensures err { OnErr result
        (HasPart out.old out.new (line_text c.now trace.now line ++ 10 ∷ [])) }
{
    add_text(out, c, trace, line)?;
    out.push(b'\n')
}

/// Puts the text of a trace of the circuit at the end of `out`: a line with its ticks, a line for
/// each instance with the delays of it and of its pins' wires, a line for each net, in name order,
/// with its bits, and a last line. If memory runs out, a part of these lines may stand there.
pub fn write_trace(c: &Circuit, trace: &Trace, out: &mut Bytes) -> Result<(), NoMemory>
    ensures ok { OnOk result (out.new ≡ out.old ++ trace_text c.now trace.now) }
    ensures err { OnErr result (HasPart out.old out.new (trace_text c.now trace.now)) }
{
    for place in 0..line_count(c) {
        match line_at(c, place) {
            None => {}
            Some(line) => add_ended(out, c, trace, line)?,
        }
    }
    Ok(())
}
