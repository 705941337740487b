//! Lines for a person, put together from parts.

use crate::text::{line_of, part};
use itoa::Buffer;
use scald_base::{Bytes, Place};
use std::alloc::Global;
use std::str;

/// What lines are made of.
#[derive(Clone, Copy)]
pub enum Part<'a> {
    /// These bytes.
    Text(&'a [u8]),
    /// Bytes of a drawing, as a terminal can show them.
    Shown(&'a [u8]),
    /// Bytes of a drawing in quotes, at most 64 of them.
    Quoted(&'a [u8]),
    /// A number, in decimal.
    Number(u64),
    /// A place: its line, a colon and its column.
    At(Place),
}

/// The last column that is shown with all columns before it, and how many are shown before one that
/// is further to the right.
const LAST_WHOLE: usize = 72;

const BEFORE: usize = 40;

/// The most columns that are shown of a line, and the most bytes that are quoted.
const MOST_SHOWN: usize = 100;

const MOST_QUOTED: usize = 64;

/// Lines that grow at their end. If memory runs out there are none.
#[derive(Drop)]
pub struct Lines {
    bytes: Bytes,
    failed: bool,
}

impl Lines {
    /// No lines yet.
    pub fn new(alloc: Global) -> Lines {
        Lines {
            bytes: Bytes::new(alloc),
            failed: false,
        }
    }

    /// All of them, or nothing if memory ran out.
    pub fn as_str(&self) -> &str {
        if self.failed {
            return "";
        }
        str::from_utf8(self.bytes.as_slice()).unwrap_or("")
    }

    /// Puts bytes at the end.
    pub fn put(&mut self, bytes: &[u8]) {
        if self.bytes.extend(bytes).is_err() {
            self.failed = true;
        }
    }

    /// Puts bytes of a drawing at the end: blanks as a space, and what is not printable as `?`.
    fn put_shown(&mut self, bytes: &[u8]) {
        for byte in bytes {
            self.put(&[match *byte {
                b' '..=b'~' => *byte,
                b'\t' | b'\r' => b' ',
                _ => b'?',
            }]);
        }
    }

    /// Puts a number at the end.
    fn put_number(&mut self, number: u64) {
        self.put(Buffer::new().format(number).as_bytes());
    }

    /// Puts a part at the end.
    fn put_part(&mut self, part_of: Part) {
        match part_of {
            Part::Text(bytes) => self.put(bytes),
            Part::Shown(bytes) => self.put_shown(bytes),
            Part::Quoted(bytes) => {
                self.put(b"'");
                self.put_shown(part(bytes, 0, MOST_QUOTED));
                self.put(b"'");
            }
            Part::Number(number) => self.put_number(number),
            Part::At(place) => {
                self.put_number(u64::from(place.line));
                self.put(b":");
                self.put_number(u64::from(place.col));
            }
        }
    }

    /// Puts parts at the end, one after another.
    pub fn add(&mut self, parts: &[Part]) {
        for part_of in parts {
            self.put_part(*part_of);
        }
    }

    /// Puts a line of parts at the end.
    pub fn line(&mut self, parts: &[Part]) {
        self.add(parts);
        self.put(b"\n");
    }

    /// Puts a text at the end, with these parts in place of the signs `%` in it.
    pub fn fill(&mut self, text: &[u8], parts: &[Part]) {
        for (number, between) in text.split(|byte| *byte == b'%').enumerate() {
            self.put(between);
            if let Some(part_of) = parts.get(number) {
                self.put_part(*part_of);
            }
        }
    }

    /// Puts a line of such a text at the end, four columns to the right.
    pub fn tell(&mut self, text: &[u8], parts: &[Part]) {
        self.put(b"    ");
        self.fill(text, parts);
        self.put(b"\n");
    }

    /// Puts a line of one text at the end, four columns to the right.
    pub fn note(&mut self, text: &[u8]) {
        self.tell(text, &[]);
    }

    /// Puts the line of a place at the end, and below it a mark under the place. Of a long line the
    /// part around the place is shown.
    pub fn mark(&mut self, text: &[u8], place: Place) {
        let col = place.col as usize;
        let from = if col <= LAST_WHOLE { 0 } else { col - BEFORE };
        let line = line_of(text, place.line);
        self.put(if from == 0 { b"    " } else { b" .. " });
        self.put_shown(part(line, from, from.saturating_add(MOST_SHOWN)));
        self.put(b"\n    ");
        for _column in from..col.saturating_sub(1) {
            self.put(b" ");
        }
        self.put(b"^\n");
    }
}
