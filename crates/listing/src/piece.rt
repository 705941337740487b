//! Lines, piece by piece.
//!
//! Each function puts its text at the end of the bytes. Its one error is that memory ran out, and
//! then a part of the text may stand there.

ghost use Rattle.std.specs.Prelude.{◌≡◌, ◌++◌, decimal, map, OnErr, OnOk};
ghost use Rattle.std.specs.List.{flat_map};
ghost use Rattle.listing.specs.Piece.{piece_text};
ghost use Rattle.listing.specs.Text.{HasPart, bit_text, line};

use itoa::Buffer;
use scald_base::{Bytes, NoMemory};

/// What lines are made of.
#[derive(Clone, Copy, Debug)]
pub enum Piece<'a> {
    /// These bytes.
    Text(&'a [u8]),
    /// This byte.
    Byte(u8),
    /// A number, in decimal.
    Number(u64),
    /// One bit of what has this name.
    Bit(&'a [u8], u16),
}

/// A number, in decimal. Many have one digit.
pub fn add_number(out: &mut Bytes, number: u64) -> Result<(), NoMemory>
    ensures ok { OnOk result (out.new ≡ out.old ++ decimal number) }
    ensures err { OnErr result (out.new ≡ out.old) }
{
    if number < 10 {
        return out.push(b'0' + number as u8);
    }
    out.extend(Buffer::new().format(number).as_bytes())
}

/// One bit of what has this name.
fn add_bit(out: &mut Bytes, name: &[u8], bit: u16) -> Result<(), NoMemory>
    ensures ok { OnOk result (out.new ≡ out.old
        ++ bit_text (record { text = name.now; bit = bit })) }
    ensures err { OnErr result (HasPart out.old out.new
        (bit_text (record { text = name.now; bit = bit }))) }
{
    out.extend(name)?;
    out.push(b'<')?;
    add_number(out, u64::from(bit))?;
    out.push(b'>')
}

/// One piece.
#[inline(always)]
fn add_piece(out: &mut Bytes, piece: &Piece) -> Result<(), NoMemory>
    ensures ok { OnOk result (out.new ≡ out.old ++ piece_text piece.now) }
    ensures err { OnErr result (HasPart out.old out.new (piece_text piece.now)) }
{
    match piece {
        Piece::Text(bytes) => out.extend(bytes),
        Piece::Byte(byte) => out.push(*byte),
        Piece::Number(number) => add_number(out, *number),
        Piece::Bit(name, bit) => add_bit(out, name, *bit),
    }
}

/// Pieces, one after another.
#[inline(always)]
pub fn add_pieces(out: &mut Bytes, pieces: &[Piece]) -> Result<(), NoMemory>
    ensures ok { OnOk result (out.new ≡ out.old ++ flat_map piece_text pieces.now) }
    ensures err { OnErr result (HasPart out.old out.new (flat_map piece_text pieces.now)) }
{
    for piece in pieces {
        add_piece(out, piece)?;
    }
    Ok(())
}

/// A line of pieces.
pub fn add_line(out: &mut Bytes, pieces: &[Piece]) -> Result<(), NoMemory>
    ensures ok { OnOk result (out.new ≡ out.old ++ line (map piece_text pieces.now)) }
    ensures err { OnErr result (HasPart out.old out.new (line (map piece_text pieces.now))) }
{
    add_pieces(out, pieces)?;
    out.push(b'\n')
}
