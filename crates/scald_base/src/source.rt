//! Where bytes come from.

ghost use Rattle.std.specs.Prelude.{ℕ, List, Option, IfOk, OnErr};
ghost use Rattle.std.specs.Io.KnownBytes.{Keeps};
ghost use Rattle.scald_base.specs.Device.{CountsFaults, Gives, Rose};

/// A device failed, and moved no byte in this call.
#[derive(Clone, Copy, PartialEq, Eq, Debug)]
pub struct Failed;

/// A source of bytes.
pub trait Source {
    /// The bytes that are left to read, if the source tells them.
    ghost left: { Self → Option (List ℕ) };

    /// How often a read failed. The count never falls.
    ghost faults: { Self → ℕ };

    /// How a read that fails changes the count, by the count before and after it. All sources raise
    /// it; one that says how far promises it here.
    ghost rises: { ℕ → ℕ → Type 0 } = { Rose };

    /// Reads bytes into the front of the room, and says how many. `Ok(0)` on a room that is not
    /// empty is the end. `Failed` comes only if the count of faults rose. If the source tells
    /// its bytes, those that came were the first, none come exactly if the room is empty or no
    /// byte is left, and nothing was read if the read failed.
    fn read(&mut self, room: &mut [u8]) -> Result<usize, Failed>
        ensures gives { IfOk result (λ n.
            Gives (left self.old) (left self.new) room.old room.new n) }
        ensures kept { OnErr result (Keeps (left self.old) (left self.new)) }
        ensures faults { CountsFaults (faults self.old) (faults self.new) result }
        ensures rises { OnErr result (rises (faults self.old) (faults self.new)) };
}
