//! The lines of faults, and their parts.

ghost use Rattle.std.specs.Prelude.{◌≡◌, ◌++◌, OnErr, OnOk};
ghost use Rattle.listing.specs.Fault.{fault_element, fault_kind, fault_place, kind_text, level_text, slot_text};
ghost use Rattle.listing.specs.Fault.{fault_line, fault_lines, fault_text, unnamed_fault};
ghost use Rattle.listing.specs.Piece.{piece_text};
ghost use Rattle.listing.specs.Text.{HasPart};

use crate::names::{instance_piece, net_piece};
use crate::piece::{Piece, add_pieces};
use flat_circuit::{Circuit, Fault, PointKind};
use scald_base::{Bytes, NoMemory};

/// On which side of an edge the fault of a point is.
fn kind_piece(kind: PointKind) -> Piece<'static>
    ensures { piece_text result ≡ kind_text kind }
{
    match kind {
        PointKind::Setup => Piece::Text(b"SETUP"),
        PointKind::High => Piece::Text(b"HIGH"),
        PointKind::Hold => Piece::Text(b"HOLD"),
    }
}

/// Whether a pulse is a high or a low one.
fn level_piece(high: bool) -> Piece<'static>
    ensures { piece_text result ≡ level_text high }
{
    if high {
        Piece::Text(b"HIGH")
    } else {
        Piece::Text(b"LOW")
    }
}

/// A slot, as one of the period.
fn slot_piece(c: &Circuit, slot: u16) -> Piece<'static>
    ensures { piece_text result ≡ slot_text c.now slot }
{
    Piece::Number(u64::from(slot % c.header().period()))
}

/// What kind of fault it is.
fn fault_piece(fault: Fault) -> Piece<'static>
    ensures { piece_text result ≡ fault_kind fault }
{
    match fault {
        Fault::Point { kind, .. } => kind_piece(kind),
        Fault::Width { .. } => Piece::Text(b"WIDTH"),
        Fault::Hazard { .. } => Piece::Text(b"HAZARD"),
        Fault::Assertion { .. } => Piece::Text(b"ASSERT"),
    }
}

/// The checker, the marked instance or the net that has a fault.
fn element_piece(c: &Circuit, fault: Fault) -> Piece<'_>
    ensures { piece_text result ≡ fault_element c.now fault }
{
    match fault {
        Fault::Point { instance, .. }
        | Fault::Width { instance, .. }
        | Fault::Hazard { instance, .. } => instance_piece(c, instance),
        Fault::Assertion { net, .. } => net_piece(c, net),
    }
}

/// Where a fault was found.
#[tactic(auto, unfolding(crate::specs::Fault::fault_place))]
fn add_place(out: &mut Bytes, c: &Circuit, fault: Fault) -> Result<(), NoMemory>
    ensures ok { OnOk result (out.new ≡ out.old ++ fault_place c.now fault) }
    ensures err { OnErr result (HasPart out.old out.new (fault_place c.now fault)) }
{
    match fault {
        Fault::Point {
            edge,
            slot,
            value,
            ..
        } => add_pieces(
            out,
            &[
                Piece::Text(b"EDGE "),
                slot_piece(c, edge),
                Piece::Text(b" SLOT "),
                slot_piece(c, slot),
                Piece::Text(b" VALUE "),
                Piece::Byte(value),
            ],
        ),
        Fault::Width {
            high,
            from,
            width,
            ..
        } => add_pieces(
            out,
            &[
                level_piece(high),
                Piece::Text(b" FROM "),
                slot_piece(c, from),
                Piece::Text(b" WIDTH "),
                Piece::Number(u64::from(width)),
            ],
        ),
        Fault::Hazard { slot, pin, .. } => add_pieces(
            out,
            &[
                Piece::Text(b"SLOT "),
                slot_piece(c, slot),
                Piece::Text(b" PIN "),
                Piece::Number(u64::from(pin)),
            ],
        ),
        Fault::Assertion { slot, value, .. } => add_pieces(
            out,
            &[
                Piece::Text(b"SLOT "),
                slot_piece(c, slot),
                Piece::Text(b" VALUE "),
                Piece::Byte(value),
            ],
        ),
    }
}

/// Appends to `out` the kind of a fault, the element that has it and where it was found: its line
/// in the report without the first word and the line's end. If memory runs out, a part of this
/// text may stand there.
pub fn write_fault(c: &Circuit, fault: &Fault, out: &mut Bytes) -> Result<(), NoMemory>
    ensures ok { OnOk result (out.new ≡ out.old ++ fault_text c.now fault.now) }
    ensures err { OnErr result (HasPart out.old out.new (fault_text c.now fault.now)) }
{
    add_pieces(
        out,
        &[
            fault_piece(*fault),
            Piece::Byte(b' '),
            element_piece(c, *fault),
            Piece::Byte(b' '),
        ],
    )?;
    add_place(out, c, *fault)
}

/// Appends to `out` what [`write_fault`] does without the element and the space after it. If
/// memory runs out, a part of this text may stand there.
pub fn write_unnamed_fault(c: &Circuit, fault: &Fault, out: &mut Bytes) -> Result<(), NoMemory>
    ensures ok { OnOk result (out.new ≡ out.old ++ unnamed_fault c.now fault.now) }
    ensures err { OnErr result (HasPart out.old out.new (unnamed_fault c.now fault.now)) }
{
    add_pieces(out, &[fault_piece(*fault), Piece::Byte(b' ')])?;
    add_place(out, c, *fault)
}

/// The line of a fault.
pub(crate) fn add_fault(out: &mut Bytes, c: &Circuit, fault: Fault) -> Result<(), NoMemory>
    ensures ok { OnOk result (out.new ≡ out.old ++ fault_line c.now fault) }
    ensures err { OnErr result (HasPart out.old out.new (fault_line c.now fault)) }
{
    out.extend(b"FAULT ")?;
    write_fault(c, &fault, out)?;
    out.push(b'\n')
}

/// The lines of faults, in the order in which they stand.
pub fn add_faults(out: &mut Bytes, c: &Circuit, faults: &[Fault]) -> Result<(), NoMemory>
    ensures ok { OnOk result (out.new ≡ out.old ++ fault_lines c.now faults.now) }
    ensures err { OnErr result (HasPart out.old out.new (fault_lines c.now faults.now)) }
{
    for fault in faults {
        add_fault(out, c, *fault)?;
    }
    Ok(())
}
