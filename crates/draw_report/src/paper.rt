//! Text that is put together piece by piece. What finds no memory is remembered, and told once at
//! the end.

ghost use Rattle.std.specs.Prelude.{◌≡◌, [], ◌∷◌, false, true, decimal, IfOk, MatchOption};
ghost use Rattle.std.specs.List.{flat_map};
ghost use Rattle.draw_report.specs.Element.{escape, escaped};
ghost use Rattle.draw_report.specs.Paper.{Adds, piece_text};

use itoa::Buffer;
use scald_base::{Bytes, NoMemory};
use std::alloc::Global;

/// What a text is put together of.
#[derive(Clone, Copy)]
pub enum Piece<'a> {
    /// These bytes, as they are.
    Markup(&'a [u8]),
    /// These bytes, each escaped where XML gives it a meaning.
    Text(&'a [u8]),
    /// A byte, escaped in the same way.
    Byte(u8),
    /// A number, in decimal.
    Number(u64),
}

/// Bytes, and whether some found no memory.
#[derive(Drop)]
pub struct Paper {
    pub bytes: Bytes,
    pub failed: bool,
}

/// What stands for a byte in a text, if it does not stand for itself.
fn escape(byte: u8) -> Option<&'static [u8]>
    ensures { MatchOption result (escape byte ≡ byte ∷ []) (λ text. text.now ≡ escape byte) }
{
    match byte {
        b'&' => Some(b"&amp;".as_slice()),
        b'<' => Some(b"&lt;".as_slice()),
        b'>' => Some(b"&gt;".as_slice()),
        b'"' => Some(b"&quot;".as_slice()),
        32..=126 => None,
        _ => Some(b"?".as_slice()),
    }
}

impl Paper {
    /// An empty paper.
    pub fn new(alloc: Global) -> Paper
        ensures bytes { result.bytes ≡ [] }
        ensures failed { result.failed ≡ false }
    {
        Paper {
            bytes: Bytes::new(alloc),
            failed: false,
        }
    }

    /// Puts these bytes at the end.
    fn markup(&mut self, text: &[u8])
        ensures { Adds self.old self.new text.now }
    {
        if self.bytes.extend(text).is_err() {
            self.failed = true;
        }
    }

    /// Puts a byte at the end.
    fn byte(&mut self, byte: u8)
        ensures { Adds self.old self.new (byte ∷ []) }
    {
        if self.bytes.push(byte).is_err() {
            self.failed = true;
        }
    }

    /// Puts a number at the end, in decimal.
    fn number(&mut self, number: u64)
        ensures { Adds self.old self.new (decimal number) }
    {
        self.markup(Buffer::new().format(number).as_bytes());
    }

    /// Puts a byte at the end, escaped.
    fn escaped_byte(&mut self, byte: u8)
        ensures { Adds self.old self.new (escape byte) }
    {
        match escape(byte) {
            Some(text) => self.markup(text),
            None => self.byte(byte),
        }
    }

    /// Puts a text at the end, escaped.
    fn text(&mut self, text: &[u8])
        ensures { Adds self.old self.new (escaped text.now) }
    {
        for byte in text {
            self.escaped_byte(*byte);
        }
    }

    /// Puts a piece at the end.
    fn piece(&mut self, piece: &Piece)
        ensures { Adds self.old self.new (piece_text piece.now) }
    {
        match piece {
            Piece::Markup(text) => self.markup(text),
            Piece::Text(text) => self.text(text),
            Piece::Byte(byte) => self.escaped_byte(*byte),
            Piece::Number(number) => self.number(*number),
        }
    }

    /// Puts pieces at the end, one after another.
    pub fn put(&mut self, pieces: &[Piece])
        ensures { Adds self.old self.new (flat_map piece_text pieces.now) }
    {
        for piece in pieces {
            self.piece(piece);
        }
    }

    /// What was to be put found no memory.
    pub fn lose(&mut self)
        ensures { self.new.failed ≡ true }
    {
        self.failed = true;
    }

    /// All bytes, if none found no memory.
    pub fn done(self) -> Result<Bytes, NoMemory>
        ensures failed { IfOk result (λ bytes. self.failed ≡ false) }
        ensures bytes { IfOk result (λ bytes. bytes ≡ self.bytes) }
    {
        let Paper { bytes, failed } = self;
        if failed { Err(NoMemory) } else { Ok(bytes) }
    }
}
