//! The lines of margins.

ghost use Rattle.std.specs.Prelude.{◌≡◌, ◌++◌, OnOk};
ghost use Rattle.std.specs.List.{flat_map};
ghost use Rattle.listing.specs.Piece.{piece_text};
ghost use Rattle.margin_report.specs.Report.{count_line, margin_line, margin_text, parameter_text};

use crate::margin::{Margin, Parameter, Row};
use flat_circuit::Circuit;
use listing::{Piece, add_line, add_pieces, instance_piece, write_unnamed_fault};
use scald_base::{Bytes, NoMemory};

/// The name of a parameter in a drawing.
fn parameter_piece(parameter: Parameter) -> Piece<'static>
    ensures { piece_text result ≡ parameter_text parameter }
{
    match parameter {
        Parameter::Setup => Piece::Text(b"SETUP"),
        Parameter::Hold => Piece::Text(b"HOLD"),
        Parameter::High => Piece::Text(b"HIGH"),
        Parameter::Low => Piece::Text(b"LOW"),
    }
}

/// A margin, as it stands in its line.
fn add_margin(out: &mut Bytes, c: &Circuit, margin: Margin) -> Result<(), NoMemory>
    ensures { OnOk result (out.new ≡ out.old ++ margin_text c.now margin) }
{
    match margin {
        Margin::Fault => out.extend(b"FAULT"),
        Margin::Limit(more) => add_pieces(
            out,
            &[Piece::Number(u64::from(more)), Piece::Text(b" LIMIT")],
        ),
        Margin::Next { more, case, fault } => {
            add_pieces(
                out,
                &[
                    Piece::Number(u64::from(more)),
                    Piece::Text(b" NEXT CASE "),
                    Piece::Number(u64::from(case)),
                    Piece::Text(b" "),
                ],
            )?;
            write_unnamed_fault(c, &fault, out)
        }
    }
}

/// The line of a margin.
#[tactic(auto, unfolding(crate::specs::Report::margin_line))]
fn add_row(out: &mut Bytes, c: &Circuit, row: Row) -> Result<(), NoMemory>
    ensures { OnOk result (out.new ≡ out.old ++ margin_line c.now row) }
{
    add_pieces(
        out,
        &[
            Piece::Text(b"MARGIN "),
            instance_piece(c, row.instance),
            Piece::Text(b" "),
            parameter_piece(row.parameter),
            Piece::Text(b" "),
        ],
    )?;
    add_margin(out, c, row.margin)?;
    out.push(b'\n')
}

/// The lines of margins, in their order.
pub fn add_rows(out: &mut Bytes, c: &Circuit, rows: &[Row]) -> Result<(), NoMemory>
    ensures { OnOk result (out.new ≡ out.old ++ flat_map (margin_line c.now) rows.now) }
{
    for row in rows {
        add_row(out, c, *row)?;
    }
    Ok(())
}

/// The line that counts margins.
#[tactic(auto, unfolding(crate::specs::Report::count_line))]
pub fn add_count(out: &mut Bytes, count: usize) -> Result<(), NoMemory>
    ensures { OnOk result (out.new ≡ out.old ++ count_line count) }
{
    add_line(
        out,
        &[Piece::Text(b"MARGINS "), Piece::Number(count as u64)],
    )
}
