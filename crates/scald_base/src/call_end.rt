//! The ends of a call of a program that say nothing of its text.

/// Why a program has no answer to its text. What it is called with is wrong, a device failed, or
/// memory ran out.
#[derive(Clone, Copy, PartialEq, Eq, Debug)]
pub enum CallEnd {
    /// The words are unrecognised. The number is that of the first with which no form continues,
    /// from 0, or the count of words if one is missing. Nothing is read or written.
    BadWords(u32),
    /// More bytes came than the program reads. Nothing is written.
    TooLong,
    /// The source failed. Nothing is written.
    ReadFault,
    /// The sink failed. A front of the answer's bytes was taken, as far as the sink tells.
    WriteFault,
    /// Memory ran out. Nothing is written.
    NoMemory,
}
