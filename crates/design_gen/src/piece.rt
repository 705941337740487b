//! Lines, piece by piece.

ghost use Rattle.std.specs.Prelude.{◌≡◌, ◌++◌, map, OnOk};
ghost use Rattle.design_gen.specs.Piece.{piece_text};
ghost use Rattle.design_gen.specs.Text.{line};

use itoa::Buffer;
use scald_base::{Bytes, NoMemory};

/// What lines are made of.
#[derive(Clone, Copy)]
pub enum Piece<'a> {
    /// These bytes.
    Text(&'a [u8]),
    /// A number, in decimal.
    Number(u16),
}

/// Puts one piece at the end. The error is that memory ran out.
fn add_piece(out: &mut Bytes, piece: &Piece) -> Result<(), NoMemory>
    ensures { OnOk result (out.new ≡ out.old ++ piece_text piece.now) }
{
    match piece {
        Piece::Text(bytes) => out.extend(bytes),
        Piece::Number(number) => out.extend(Buffer::new().format(*number).as_bytes()),
    }
}

/// Puts a line of pieces at the end. The error is that memory ran out, and then a part of the line
/// may stand there.
pub fn add_line(out: &mut Bytes, pieces: &[Piece]) -> Result<(), NoMemory>
    ensures { OnOk result (out.new ≡ out.old ++ line (map piece_text pieces.now)) }
{
    for piece in pieces {
        add_piece(out, piece)?;
    }
    out.push(b'\n')
}
