//! From a text to what is replied to it.

ghost use Rattle.std.specs.Prelude.{◌≡◌, ◌-◌, ◌^◌, ◌<◌, ℕ, IfErr, IfOk, length};
ghost use Rattle.scald_base.specs.declared.refusal.Refusal.{Refusal as WhyRefused};
ghost use Rattle.listing.specs.Answer.{refusal_line, unsettled_line};
ghost use Rattle.timing_analysis.specs.Drawn.{IsTextRefused};
ghost use Rattle.program_call.specs.Reporter.{IsRead};
ghost use Rattle.fault_decider.specs.Decided.{Decided};
ghost use Rattle.fault_decider.specs.Promise.{NeverBreaksLater};
ghost use Rattle.fault_decider.specs.Reporting.{IsEnded};

use crate::answer::Question;
use crate::outcome::DecideOutcome;
use crate::report::report;
use crate::words::Request;
use case_analysis::default_limit;
use fixpoint_engine::EngineEnd;
use flat_circuit::Circuit;
use listing::{Output, write_refusal, write_unsettled};
use macro_expander::expanded;
use program_call::Reply;
use scald_base::{Bytes, NoMemory, Refusal, Stop};
use std::alloc::Global;
use timing_analysis::{Subject, circuit_of, read_text};

/// A refusal with its line.
fn refused(alloc: Global, refusal: Refusal) -> Result<Reply<DecideOutcome>, NoMemory>
    ensures outcome { IfOk result (λ reply. reply.outcome ≡ DecideOutcome.Refused refusal) }
    ensures bytes { IfOk result (λ reply. reply.bytes ≡ refusal_line refusal) }
{
    let mut bytes = Bytes::new(alloc);
    write_refusal(&refusal, &mut bytes)?;
    Ok(Reply {
        outcome: DecideOutcome::Refused(refusal),
        bytes: Output::whole(bytes),
    })
}

/// The line of the net that still changes in the round at the limit.
fn unsettled(
    alloc: Global,
    c: &Circuit,
    net: u32,
    round: u32,
) -> Result<Reply<DecideOutcome>, NoMemory>
    requires { net < length c.now.order }
    ensures outcome { IfOk result (λ reply. reply.outcome ≡ DecideOutcome.Unsettled net round) }
    ensures bytes { IfOk result (λ reply. reply.bytes ≡ unsettled_line c.now net round) }
{
    let mut bytes = Bytes::new(alloc);
    write_unsettled(c, net, round, &mut bytes)?;
    Ok(Reply {
        outcome: DecideOutcome::Unsettled { net, round },
        bytes: Output::whole(bytes),
    })
}

/// The answer if a circuit or a case of it does not settle.
fn ended(alloc: Global, c: &Circuit, end: EngineEnd) -> Result<Reply<DecideOutcome>, NoMemory>
    requires { (place round : ℕ) → end ≡ EngineEnd.Unsettled place round →
        place < length c.now.order }
    ensures { IfOk result (λ reply. IsEnded c.now end reply.outcome reply.bytes) }
{
    match end {
        EngineEnd::Unsettled { net, round } => unsettled(alloc, c, net, round),
        EngineEnd::NoMemory => Err(NoMemory),
    }
}

/// What the text draws, and in which version of the language. The tree of the drawing goes before
/// its circuit is finished.
fn read(alloc: Global, text: &[u8]) -> Result<(u8, Subject), Stop>
    requires { length text.now < 2 ^ 32 - 1 }
    ensures read { IfOk result (λ read. IsRead (λ d. d.version) text.now read.0 read.1) }
    ensures refused { IfErr result (λ stop. (r : WhyRefused) → stop ≡ Stop.Refused r →
        IsTextRefused text.now r) }
{
    let drawing = match read_text(alloc, text) {
        Ok(drawing) => drawing,
        Err(stop) => return Err(stop),
    };
    let version = drawing.version;
    let expansion = match expanded(alloc, &drawing) {
        Ok(expansion) => expansion,
        Err(stop) => return Err(stop),
    };
    let drawn = match circuit_of(alloc, drawing, expansion) {
        Ok(drawn) => drawn,
        Err(stop) => return Err(stop),
    };
    let subject = Subject::new(alloc, drawn)?;
    Ok((version, subject))
}

/// The reply to a text of fewer than 4,294,967,295 bytes: the report with what is said of each
/// fault, or the trace of the fault that is asked for; or why the text is refused, or which net
/// does not settle.
pub fn decide_text(
    alloc: Global,
    text: &[u8],
    request: Request,
) -> Result<Reply<DecideOutcome>, NoMemory>
    requires { length text.now < 2 ^ 32 - 1 }
    ensures is { IfOk result (λ reply. Decided request text.now reply.outcome reply.bytes) }
    ensures settled { IfOk result (λ reply. reply.outcome ≡ DecideOutcome.Settled →
        NeverBreaksLater text.now) }
{
    match read(alloc, text) {
        Ok((version, subject)) => {
            let limit = default_limit(&subject.circuit);
            let question = Question { request, version };
            match report(alloc, &subject, limit, question) {
                Ok(reply) => Ok(reply),
                Err(end) => ended(alloc, &subject.circuit, end),
            }
        }
        Err(Stop::Refused(refusal)) => refused(alloc, refusal),
        Err(Stop::NoMemory) => Err(NoMemory),
    }
}
