//! From a text to the reply.

ghost use Rattle.std.specs.Prelude.{◌≡◌, ◌-◌, ◌^◌, ◌<◌, ◌≤◌, [], IfOk, IfSome, length};
ghost use Rattle.std.specs.List.{All};
ghost use Rattle.std.specs.Option.{option_copied};
ghost use Rattle.case_analysis.specs.Case.{NetsExist};
ghost use Rattle.timing_analysis.specs.Subject.{IsSubject};
ghost use Rattle.program_call.specs.Answer.{limit_for};
ghost use Rattle.draw_report.specs.Answer.{Draws, DrawsAsked, DrawsCase, DrawsLimits};
ghost use Rattle.draw_report.specs.Case.{answered};
ghost use Rattle.draw_report.specs.Drawn.{answered_below};
ghost use Rattle.draw_report.specs.Words.{IsRow, IsWithin, asking};

use crate::asked::{Asked, Job, Limits};
use crate::below::has_below;
use crate::drawn::Drawn;
use crate::job::{Told, draw_limits};
use crate::outcome::DrawOutcome;
use crate::request::Request;
use crate::sought::{Found, Sought, seek};
use case_analysis::default_limit;
use drawing_tree::Drawing;
use flat_circuit::Circuit;
use listing::Output;
use program_call::{Reply, ended, refused, verdict};
use scald_base::{Bytes, NoMemory, Outcome, Stop};
use slack_report::Names;
use std::alloc::Global;
use step_values::Value;
use timing_analysis::{Drawn as Read, Subject, read_circuit, read_text};
use wave_core::CyclicWave;

/// A reply that writes nothing.
fn silent(alloc: Global, outcome: DrawOutcome) -> Reply<DrawOutcome>
    ensures outcome { result.outcome ≡ outcome }
    ensures bytes { result.bytes ≡ [] }
{
    Reply {
        outcome,
        bytes: Output::whole(Bytes::new(alloc)),
    }
}

/// The reply to what was sought among so many cases.
fn reply_of(alloc: Global, sought: Sought, count: u32) -> Reply<DrawOutcome>
    ensures outcome { result.outcome ≡ (answered sought.found count sought.faults).outcome }
    ensures bytes { result.bytes ≡ (answered sought.found count sought.faults).bytes }
{
    let Sought { found, faults } = sought;
    match found {
        Found::Nothing => silent(alloc, DrawOutcome::NoCase(count)),
        Found::Much => silent(alloc, DrawOutcome::TooMuch),
        Found::Picture(bytes) => Reply {
            outcome: DrawOutcome::Drawing(verdict(faults)),
            bytes: Output::whole(bytes),
        },
    }
}

/// The reply to what was drawn of limits, or of the nets below a path, if there are some.
fn reply_of_limits(alloc: Global, told: Told, has_nets: bool) -> Reply<DrawOutcome>
    ensures outcome { result.outcome
        ≡ (answered_below has_nets told.drawn told.faults).outcome }
    ensures bytes { result.bytes ≡ (answered_below has_nets told.drawn told.faults).bytes }
{
    if !has_nets {
        return silent(alloc, DrawOutcome::NoNet);
    }
    let Told { drawn, faults } = told;
    match drawn {
        Drawn::NoRow(count) => silent(alloc, DrawOutcome::NoRow(count)),
        Drawn::Much => silent(alloc, DrawOutcome::TooMuch),
        Drawn::Picture(bytes) => Reply {
            outcome: DrawOutcome::Limits(verdict(faults)),
            bytes: Output::whole(bytes),
        },
    }
}

/// A reply as the verifier has it.
fn as_verified(reply: Reply<Outcome>) -> Reply<DrawOutcome>
    ensures outcome { result.outcome ≡ DrawOutcome.Drawing reply.outcome }
    ensures bytes { result.bytes ≡ reply.bytes }
{
    let Reply { outcome, bytes } = reply;
    Reply {
        outcome: DrawOutcome::Drawing(outcome),
        bytes,
    }
}

/// How many rounds there may be: as many as the words allow, or else the circuit's own limit.
fn limit_of(circuit: &Circuit, rounds: Option<u32>) -> u32
    requires { IfSome rounds (λ limit. limit ≤ 10000000) }
    ensures is { result ≡ limit_for circuit.now rounds }
    ensures few { result ≤ 10000000 }
{
    match rounds {
        Some(limit) => limit,
        None => default_limit(circuit),
    }
}

/// The reply to a circuit of which a case is asked for.
fn draw_case<W: CyclicWave<Item = Value>>(
    alloc: Global,
    subject: &Subject,
    number: u32,
    limit: u32,
) -> Result<Reply<DrawOutcome>, NoMemory>
    requires is { IsSubject subject.now }
    requires few { limit ≤ 10000000 }
    ensures { IfOk result (λ reply. DrawsCase number subject.now.circuit subject.now.cases limit
        reply.outcome reply.bytes) }
{
    match seek::<W>(alloc, subject, number, limit) {
        Ok(sought) => Ok(reply_of(alloc, sought, subject.cases.len() as u32)),
        Err(end) => Ok(as_verified(ended(alloc, &subject.circuit, end)?)),
    }
}

/// The reply to a circuit of which limits are asked for.
fn draw_job<W: CyclicWave<Item = Value>>(
    job: Job,
    limits: Limits,
) -> Result<Reply<DrawOutcome>, NoMemory>
    requires is { IsSubject job.subject.now }
    requires few { job.limit ≤ 10000000 }
    requires asked { IsRow limits }
    ensures { IfOk result (λ reply. DrawsLimits limits (option_copied job.entry.under)
        job.entry.subject.now.circuit job.entry.subject.now.cases job.entry.limit reply.outcome
        reply.bytes) }
{
    let has_nets = has_below(job.alloc, &job.subject.circuit, job.under)?;
    match draw_limits::<W>(job, limits) {
        Ok(told) => Ok(reply_of_limits(job.alloc, told, has_nets)),
        Err(end) => Ok(as_verified(ended(job.alloc, &job.subject.circuit, end)?)),
    }
}

/// The reply to a circuit of which limits are asked for, with its drawing, and with names to which
/// those of the circuit are added.
fn draw_named<W: CyclicWave<Item = Value>>(
    alloc: Global,
    subject: &Subject,
    limit: u32,
    drawing: &Drawing,
    limits: Limits,
    under: Option<&[u8]>,
    names: &mut Names,
) -> Result<Reply<DrawOutcome>, NoMemory>
    requires is { IsSubject subject.now }
    requires few { limit ≤ 10000000 }
    requires asked { IsRow limits }
    ensures { IfOk result (λ reply. DrawsLimits limits (option_copied under.entry)
        subject.now.circuit subject.now.cases limit reply.outcome reply.bytes) }
{
    names.fill(alloc, &subject.circuit)?;
    let job = Job {
        alloc,
        subject,
        limit,
        drawing,
        names: &*names,
        under,
    };
    draw_job::<W>(job, limits)
}

/// The same with no names yet.
fn draw_of_limits<W: CyclicWave<Item = Value>>(
    alloc: Global,
    subject: &Subject,
    limit: u32,
    drawing: &Drawing,
    limits: Limits,
    under: Option<&[u8]>,
) -> Result<Reply<DrawOutcome>, NoMemory>
    requires is { IsSubject subject.now }
    requires few { limit ≤ 10000000 }
    requires asked { IsRow limits }
    ensures { IfOk result (λ reply. DrawsLimits limits (option_copied under.entry)
        subject.now.circuit subject.now.cases limit reply.outcome reply.bytes) }
{
    let mut names = Names::new(alloc);
    draw_named::<W>(alloc, subject, limit, drawing, limits, under, &mut names)
}

/// The drawing of a text that draws a circuit, for what is said of its limits.
fn drawing_of(alloc: Global, text: &[u8]) -> Result<Drawing, NoMemory>
    requires { length text.now < 2 ^ 32 - 1 }
{
    match read_text(alloc, text) {
        Ok(drawing) => Ok(drawing),
        // It was read before, so only memory is wanting.
        Err(_) => Err(NoMemory),
    }
}

/// The reply to a text and its circuit.
fn draw_subject<W: CyclicWave<Item = Value>>(
    alloc: Global,
    text: &[u8],
    subject: &Subject,
    request: Request,
    under: Option<&[u8]>,
) -> Result<Reply<DrawOutcome>, NoMemory>
    requires short { length text.now < 2 ^ 32 - 1 }
    requires is { IsSubject subject.now }
    requires within { IsWithin request }
    ensures { IfOk result (λ reply. DrawsAsked request.asked (option_copied under.entry)
        subject.now.circuit subject.now.cases (limit_for subject.now.circuit request.rounds)
        reply.outcome reply.bytes) }
{
    let limit = limit_of(&subject.circuit, request.rounds);
    match request.asked {
        Asked::Case(number) => draw_case::<W>(alloc, subject, number, limit),
        Asked::Limits(limits) => {
            let drawing = drawing_of(alloc, text)?;
            draw_of_limits::<W>(alloc, subject, limit, &drawing, limits, under)
        }
    }
}

/// The reply to what a text draws.
fn draw_drawn<W: CyclicWave<Item = Value>>(
    alloc: Global,
    text: &[u8],
    drawn: Read,
    request: Request,
    under: Option<&[u8]>,
) -> Result<Reply<DrawOutcome>, NoMemory>
    requires short { length text.now < 2 ^ 32 - 1 }
    requires few { length drawn.cases ≤ 256 }
    requires exist { All (NetsExist drawn.circuit) drawn.cases }
    requires within { IsWithin request }
    ensures { IfOk result (λ reply. DrawsAsked request.asked (option_copied under.entry)
        drawn.circuit drawn.cases (limit_for drawn.circuit request.rounds) reply.outcome
        reply.bytes) }
{
    let subject = Subject::new(alloc, drawn)?;
    draw_subject::<W>(alloc, text, &subject, request, under)
}

/// The reply to a text of fewer than 4,294,967,295 bytes: what is asked for as a picture or a page,
/// of the nets below a path if one is asked for, or why there is none. It is the same whichever kind
/// of waves is chosen. `NoMemory` comes if memory runs out.
pub fn draw<W: CyclicWave<Item = Value>>(
    alloc: Global,
    text: &[u8],
    request: Request,
    under: Option<&[u8]>,
) -> Result<Reply<DrawOutcome>, NoMemory>
    requires short { length text.now < 2 ^ 32 - 1 }
    requires within { IsWithin request }
    ensures { IfOk result (λ reply. Draws (asking (option_copied under.entry) request) text.now
        reply.outcome reply.bytes) }
{
    match read_circuit(alloc, text) {
        Ok(drawn) => draw_drawn::<W>(alloc, text, drawn, request, under),
        Err(Stop::Refused(refusal)) => Ok(as_verified(refused(alloc, refusal)?)),
        Err(Stop::NoMemory) => Err(NoMemory),
    }
}
