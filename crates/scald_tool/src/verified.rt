//! The report on a text that lies in memory, whichever way its waves are kept.

ghost use Rattle.std.specs.Prelude.{◌≡◌, ◌≢◌, ◌-◌, ◌^◌, ◌<◌, ◌≤◌, ◌⊎◌, ℕ, true, None, IfSome, length};
ghost use Rattle.timing_analysis.specs.Drawn.{IsLoopless};
ghost use Rattle.timing_analysis.specs.Promise.{FaultlessNeverBreaks, NeverBreaks};
ghost use Rattle.scald_tool.specs.Promise.{IsVerified, has_report, may_give};

use crate::report::Report;
use crate::words::Command;
use listing::Mode;
use program_call::{Omissions, reply_to};
use scald_base::{Bytes, Outcome};
use std::alloc::Global;
use step_values::Value;
use wave_core::CyclicWave;

/// What `verify` answers to a text of fewer than 4,294,967,295 bytes, in this mode and, if a
/// number is given, with at most so many rounds of the base and of each case, at most 10,000,000.
/// It is the same whichever kind of waves is chosen.
///
/// The answer is `Clean`, `Faulty`, `Refused` or `Unsettled`, and `out` grows by exactly its bytes;
/// or it is `NoMemory`, and `out` is as before.
pub fn verify_text<W: CyclicWave<Item = Value>>(
    alloc: Global,
    text: &[u8],
    mode: Mode,
    rounds: Option<u32>,
    out: &mut Bytes,
) -> Outcome
    requires short { length text.now < 2 ^ 32 - 1 }
    requires few { IfSome rounds (λ limit. limit ≤ 10000000) }
    ensures whole { (result ≡ Outcome.NoMemory)
        ⊎ IsVerified mode rounds text.now result out.old out.new }
    ensures no_memory { result ≡ Outcome.NoMemory → out.new ≡ out.old }
    ensures given { (result ≡ Outcome.NoMemory)
        ⊎ (may_give (Command.Verify mode rounds) result ≡ true) }
    ensures clean { result ≡ Outcome.Clean → NeverBreaks text.now }
    ensures faultless { has_report result ≡ true → FaultlessNeverBreaks text.now }
    ensures loopless { (place round : ℕ) → rounds ≡ None →
        IsLoopless text.now → result ≢ Outcome.Unsettled place round }
{
    let reply = match reply_to::<Report, W>(alloc, text, mode, rounds, &mut Omissions::unasked()) {
        Ok(reply) => reply,
        Err(_) => return Outcome::NoMemory,
    };
    let bytes = match reply.bytes.joined(alloc) {
        Ok(bytes) => bytes,
        Err(_) => return Outcome::NoMemory,
    };
    match out.extend(bytes.as_slice()) {
        Ok(()) => reply.outcome,
        Err(_) => Outcome::NoMemory,
    }
}
