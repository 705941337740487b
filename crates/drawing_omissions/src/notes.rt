//! Notes while they are written, line by line.

ghost use Rattle.std.specs.Prelude.{◌≡◌, ◌∷◌, [], ℕ, List, OnOk, map};
ghost use Rattle.listing.specs.Piece.{piece_text};
ghost use Rattle.listing.specs.Text.{line};
ghost use Rattle.drawing_omissions.specs.Lines.{Adds};

use listing::{Piece, add_line};
use scald_base::{Bytes, NoMemory};
use std::marker::Model;

/// The lines of notes after others, and how many notes there are.
#[derive(Drop)]
pub struct Notes {
    bytes: Bytes,
    count: usize,
}

impl Model for Notes {
    ghost use Rattle.std.specs.Prelude.{◌≤◌, length};
    ghost use Rattle.drawing_omissions.specs.Lines.{Lines};

    ghost Value = { Lines };

    ghost view = { λ n. record { bytes = n.bytes; count = n.count } };

    ghost invariant = { λ n. n.count ≤ length n.bytes };
}

impl Notes {
    /// No notes yet, after these bytes.
    pub fn new(bytes: Bytes) -> Notes
        ensures { result ≡ record { bytes = bytes; count = 0 } }
    {
        Notes { bytes, count: 0 }
    }

    /// How many notes there are.
    pub fn count(&self) -> usize
        ensures { result ≡ self.now.count }
    {
        self.count
    }

    /// The bytes of all lines.
    pub fn into_bytes(self) -> Bytes
        ensures { result ≡ self.bytes }
    {
        self.bytes
    }

    /// One note more, whose line has these pieces.
    pub fn add(&mut self, pieces: &[Piece]) -> Result<(), NoMemory>
        ensures { OnOk result (Adds self.old self.new (line (map piece_text pieces.now) ∷ [])) }
    {
        let before = self.count;
        add_line(&mut self.bytes, pieces)?;
        // A line has a byte at least, so there are as many bytes as notes.
        let _length = self.bytes.len();
        self.count = before + 1;
        Ok(())
    }

    /// The notes of others, after these.
    pub fn append(&mut self, others: &Notes) -> Result<(), NoMemory>
        ensures { OnOk result ((lines : List (List ℕ)) →
            Adds (record { bytes = []; count = 0 }) others.now lines →
            Adds self.old self.new lines) }
    {
        let before = self.count;
        self.bytes.extend(others.bytes.as_slice())?;
        let _length = self.bytes.len();
        self.count = before + others.count;
        Ok(())
    }
}
