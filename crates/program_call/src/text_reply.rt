//! From a text to the reply on its circuit.

ghost use Rattle.std.specs.Prelude.{◌≡◌, ◌-◌, ◌^◌, ◌<◌, ◌≤◌, true, IfOk, IfErr, IfSome, length};
ghost use Rattle.scald_base.specs.declared.refusal.Refusal.{Refusal};
ghost use Rattle.timing_analysis.specs.Drawn.{IsTextRefused};
ghost use Rattle.timing_analysis.specs.Promise.{FaultlessNeverBreaks};
ghost use Rattle.program_call.specs.Answer.{Evaluated, is_finished, limit_for};
ghost use Rattle.program_call.specs.Reporter.{IsRead};

use crate::Reply;
use crate::cases::report_cases;
use crate::ends::{ended, refused};
use crate::reporter::Reporter;
use case_analysis::default_limit;
use drawing_omissions::Omissions;
use flat_circuit::Circuit;
use macro_expander::expanded;
use scald_base::{NoMemory, Outcome, Stop};
use std::alloc::Global;
use step_values::Value;
use timing_analysis::{Subject, circuit_of, read_text};
use wave_core::CyclicWave;

/// The reply to a text of fewer than 4,294,967,295 bytes: what `R` reports of its circuit, after at
/// most so many rounds of the base and of each case if the number is given, at most 10,000,000,
/// or else as many as the circuit's own limit has; or why the text is refused, or which net does
/// not settle. It is the same whichever kind of waves is chosen.
///
/// If the text is accepted, `omissions` count what its drawing leaves out, if they are asked for.
/// Nothing is promised of them.
pub fn reply_to<R: Reporter, W: CyclicWave<Item = Value>>(
    alloc: Global,
    text: &[u8],
    asked: R::Asked,
    rounds: Option<u32>,
    omissions: &mut Omissions,
) -> Result<Reply<Outcome>, NoMemory>
    requires short { length text.now < 2 ^ 32 - 1 }
    requires few { IfSome rounds (λ limit. limit ≤ 10000000) }
    ensures is { IfOk result (λ reply.
        Evaluated (λ d. R.reports asked (R.keeps d)) rounds text.now reply.outcome reply.bytes) }
    ensures faultless { IfOk result (λ reply.
        is_finished reply.outcome ≡ true → FaultlessNeverBreaks text.now) }
{
    match read::<R>(alloc, text, omissions) {
        Ok((kept, subject)) => {
            omissions.count_circuit(alloc, &subject.circuit, subject.cases.as_slice());
            let limit = limit_for(&subject.circuit, rounds);
            match report_cases::<R, W>(alloc, &subject, asked, kept, limit) {
                Ok(reply) => Ok(reply),
                Err(end) => ended(alloc, &subject.circuit, end),
            }
        }
        Err(Stop::Refused(refusal)) => refused(alloc, refusal),
        Err(Stop::NoMemory) => Err(NoMemory),
    }
}

/// What is kept of the drawing of a text, and what is evaluated of it. The tree of the drawing goes
/// before its circuit is finished. Its statements are gone through again only once it is expanded:
/// in a drawing that is refused FORs may have turns without end.
fn read<R: Reporter>(
    alloc: Global,
    text: &[u8],
    omissions: &mut Omissions,
) -> Result<(R::Kept, Subject), Stop>
    requires { length text.now < 2 ^ 32 - 1 }
    ensures read { IfOk result (λ read. IsRead R.keeps text.now read.0 read.1) }
    ensures refused { IfErr result (λ stop. (r : Refusal) → stop ≡ Stop.Refused r →
        IsTextRefused text.now r) }
{
    let drawing = match read_text(alloc, text) {
        Ok(drawing) => drawing,
        Err(stop) => return Err(stop),
    };
    let expansion = match expanded(alloc, &drawing) {
        Ok(expansion) => expansion,
        Err(stop) => return Err(stop),
    };
    let kept = R::keep(alloc, &drawing)?;
    omissions.count_drawing(alloc, &drawing);
    let drawn = match circuit_of(alloc, drawing, expansion) {
        Ok(drawn) => drawn,
        Err(stop) => return Err(stop),
    };
    let subject = Subject::new(alloc, drawn)?;
    Ok((kept, subject))
}

/// How many rounds there may be: as many as the words allow, or else the circuit's own limit.
fn limit_for(circuit: &Circuit, rounds: Option<u32>) -> u32
    requires { IfSome rounds (λ limit. limit ≤ 10000000) }
    ensures is { result ≡ limit_for circuit.now rounds }
    ensures few { result ≤ 10000000 }
{
    match rounds {
        Some(limit) => limit,
        None => default_limit(circuit),
    }
}
