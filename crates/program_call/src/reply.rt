//! An answer before it is written.

use listing::Output;

/// An outcome, with the bytes that are written.
#[derive(Drop, Debug)]
pub struct Reply<O> {
    pub outcome: O,
    pub bytes: Output,
}
