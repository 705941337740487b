//! What is asked of a run that is drawn, and of a trace.

use crate::TickLength;
use crate::extent::Extent;

/// How a run is written.
#[derive(Clone, Copy, PartialEq, Eq, Debug)]
pub enum Format {
    /// As a trace.
    Trace,
    /// As a value change dump, with ticks of this length.
    Dump(TickLength),
}

/// A run of 1 to 1,048,576 ticks, drawn by a seed, and in a case of 1 to 256 if one is asked for.
#[derive(Clone, Copy, PartialEq, Eq, Debug)]
pub struct Asked {
    pub ticks: u32,
    pub seed: u64,
    pub case: Option<u16>,
    pub format: Format,
}

/// What is to be said of a trace of at most so many ticks, with breaks from a tick on.
#[derive(Clone, Copy, PartialEq, Eq, Debug)]
pub struct Trial {
    pub from: u32,
    pub extent: Extent,
}
