//! Where bytes go.

ghost use Rattle.std.specs.Prelude.{ℕ, List, Option, IfOk, OnErr};
ghost use Rattle.std.specs.Io.KnownBytes.{Keeps};
ghost use Rattle.scald_base.specs.Device.{CountsFaults, Rose, Takes};

use crate::source::Failed;

/// A sink for bytes.
pub trait Sink {
    /// The bytes that were taken so far, if the sink tells them.
    ghost taken: { Self → Option (List ℕ) };

    /// How often a write failed. The count never falls.
    ghost faults: { Self → ℕ };

    /// How a write that fails changes the count, by the count before and after it. All sinks raise
    /// it; one that says how far promises it here.
    ghost rises: { ℕ → ℕ → Type 0 } = { Rose };

    /// Takes bytes from the front of the piece, and says how many: at least one if there is one.
    /// `Failed` comes only if the count of faults rose. If the sink tells its bytes, they
    /// grew by exactly those, and by none if the write failed.
    fn write(&mut self, piece: &[u8]) -> Result<usize, Failed>
        ensures takes { IfOk result (λ n. Takes (taken self.old) (taken self.new) piece.now n) }
        ensures kept { OnErr result (Keeps (taken self.old) (taken self.new)) }
        ensures faults { CountsFaults (faults self.old) (faults self.new) result }
        ensures rises { OnErr result (rises (faults self.old) (faults self.new)) };
}
