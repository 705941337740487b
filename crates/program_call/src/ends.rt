//! The answers on a text of whose circuit nothing is reported.

ghost use Rattle.std.specs.Prelude.{◌≡◌, ◌<◌, ℕ, IfOk, length};
ghost use Rattle.listing.specs.Answer.{refusal_line, unsettled_line};
ghost use Rattle.program_call.specs.Ended.{IsEnded};

use crate::Reply;
use fixpoint_engine::EngineEnd;
use flat_circuit::Circuit;
use listing::{Output, write_refusal, write_unsettled};
use scald_base::{Bytes, NoMemory, Outcome, Refusal};
use std::alloc::Global;

/// A refusal with its line.
pub fn refused(alloc: Global, refusal: Refusal) -> Result<Reply<Outcome>, NoMemory>
    ensures outcome { IfOk result (λ reply. reply.outcome ≡ Outcome.Refused refusal) }
    ensures bytes { IfOk result (λ reply. reply.bytes ≡ refusal_line refusal) }
{
    let mut bytes = Bytes::new(alloc);
    write_refusal(&refusal, &mut bytes)?;
    Ok(Reply {
        outcome: Outcome::Refused(refusal),
        bytes: Output::whole(bytes),
    })
}

/// The answer if a circuit or a case of it does not settle: the line of the first net that still
/// changes in the round at the limit.
pub fn ended(alloc: Global, circuit: &Circuit, end: EngineEnd) -> Result<Reply<Outcome>, NoMemory>
    requires { (place round : ℕ) → end ≡ EngineEnd.Unsettled place round →
        place < length circuit.now.order }
    ensures { IfOk result (λ reply. IsEnded circuit.now end reply.outcome reply.bytes) }
{
    match end {
        EngineEnd::Unsettled { net, round } => unsettled(alloc, circuit, net, round),
        EngineEnd::NoMemory => Err(NoMemory),
    }
}

/// The line of the net that still changes in the round at the limit.
fn unsettled(
    alloc: Global,
    circuit: &Circuit,
    net: u32,
    round: u32,
) -> Result<Reply<Outcome>, NoMemory>
    requires { net < length circuit.now.order }
    ensures outcome { IfOk result (λ reply. reply.outcome ≡ Outcome.Unsettled net round) }
    ensures bytes { IfOk result (λ reply. reply.bytes ≡ unsettled_line circuit.now net round) }
{
    let mut bytes = Bytes::new(alloc);
    write_unsettled(circuit, net, round, &mut bytes)?;
    Ok(Reply {
        outcome: Outcome::Unsettled { net, round },
        bytes: Output::whole(bytes),
    })
}
