//! Why there is no list of bits.

use scald_base::NoMemory;
use thiserror::Error;

/// Why there are no such bits.
#[derive(Clone, Copy, PartialEq, Eq, Debug, Error)]
pub enum VectorFault {
    /// A bit's number is outside 0 to 65,535, or a range has more than 256 bits.
    #[error("a bit number is out of range, or too many come")]
    BadRange,
    /// A connection has more than 256 bits, or not as many as are needed.
    #[error("a connection has the wrong width")]
    Width,
    /// Memory ran out.
    #[error("memory ran out")]
    NoMemory,
}

impl From<NoMemory> for VectorFault {
    ghost use Rattle.std.specs.Prelude.{◌≡◌};
    ghost use Rattle.vector_names.specs.declared.fault.VectorFault.TheVariants.{NoMemory as OutOfMemory};

    ghost from_gives = { λ _ e. e ≡ OutOfMemory };

    fn from(_e: NoMemory) -> VectorFault {
        VectorFault::NoMemory
    }
}
