//! Text that is put together piece by piece. What finds no memory is remembered, and returned once
//! at the end.

use itoa::Buffer;
use scald_base::{Bytes, NoMemory};
use std::alloc::Global;

/// Bytes, and whether some found no memory.
#[derive(Drop)]
pub struct Page {
    bytes: Bytes,
    failed: bool,
}

/// A count as a number that may be put.
pub fn number_of(count: usize) -> i64 {
    i64::try_from(count).unwrap_or(i64::MAX)
}

/// How many columns a number fills.
pub fn columns(number: i64) -> usize {
    Buffer::new().format(number).len()
}

impl Page {
    /// An empty page.
    pub fn new(alloc: Global) -> Page {
        Page {
            bytes: Bytes::new(alloc),
            failed: false,
        }
    }

    /// Puts these bytes at the end.
    pub fn put(&mut self, text: &[u8]) {
        if self.bytes.extend(text).is_err() {
            self.failed = true;
        }
    }

    /// Puts a number at the end, in decimal.
    pub fn number(&mut self, number: i64) {
        self.put(Buffer::new().format(number).as_bytes());
    }

    /// Puts a text with these numbers in the places of its `#`.
    pub fn fill(&mut self, text: &[u8], numbers: &[i64]) {
        let mut numbers = numbers.iter();
        for byte in text {
            if *byte != b'#' {
                self.put(&[*byte]);
            } else if let Some(number) = numbers.next() {
                self.number(*number);
            }
        }
    }

    /// Puts so many spaces at the end.
    pub fn spaces(&mut self, count: usize) {
        for _ in 0..count {
            self.put(b" ");
        }
    }

    /// What was to be put found no memory.
    pub fn lose(&mut self) {
        self.failed = true;
    }

    /// How many bytes there are.
    pub fn len(&self) -> usize {
        self.bytes.len()
    }

    /// All bytes, if none found no memory.
    pub fn done(self) -> Result<Bytes, NoMemory> {
        let Page { bytes, failed } = self;
        if failed { Err(NoMemory) } else { Ok(bytes) }
    }
}
