//! Replies that say nothing of a run.

ghost use Rattle.std.specs.Prelude.{◌≡◌, [], IfOk};
ghost use Rattle.listing.specs.Answer.{refusal_line};

use crate::outcome::TraceOutcome;
use listing::{Output, write_refusal};
use program_call::Reply;
use scald_base::{Bytes, NoMemory, Refusal};
use std::alloc::Global;

/// A refusal with its line.
pub fn refused(alloc: Global, refusal: Refusal) -> Result<Reply<TraceOutcome>, NoMemory>
    ensures outcome { IfOk result (λ reply. reply.outcome ≡ TraceOutcome.Refused refusal) }
    ensures bytes { IfOk result (λ reply. reply.bytes ≡ refusal_line refusal) }
{
    let mut bytes = Bytes::new(alloc);
    write_refusal(&refusal, &mut bytes)?;
    Ok(Reply {
        outcome: TraceOutcome::Refused(refusal),
        bytes: Output::whole(bytes),
    })
}

/// An outcome with which nothing is written.
pub fn silent(alloc: Global, outcome: TraceOutcome) -> Reply<TraceOutcome>
    ensures outcome { result.outcome ≡ outcome }
    ensures bytes { result.bytes ≡ [] }
{
    Reply {
        outcome,
        bytes: Output::whole(Bytes::new(alloc)),
    }
}
