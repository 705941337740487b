//! What is answered to a text of sections.

ghost use Rattle.std.specs.Prelude.{◌≡◌, ◌⊎◌, ◌-◌, ◌^◌, ◌<◌, ◌≤◌, [], true, None, Some, IfErr, IfOk, MatchBool, length, map, slice_get};
ghost use Rattle.std.specs.List.{All, AllZip};
ghost use Rattle.section_compose.specs.Broken.{IsOfSection};
ghost use Rattle.section_compose.specs.Drawn.{DrawsSection};
ghost use Rattle.section_compose.specs.Pieces.{Lies, piece_of};
ghost use Rattle.section_compose.specs.Rule.{is_of_net};
ghost use Rattle.section_compose.specs.Rules.{circuits, first_broken};
ghost use Rattle.section_compose.specs.Answer.{AreEnough, Concluded, Joined};
ghost use Rattle.section_compose.specs.Promise.{NeverBreaksJoined};
ghost use Rattle.section_compose.specs.Reading.{AreTimed, IsRefusedIn};

use crate::evaluated::settled_section;
use crate::outcome::SectionsOutcome;
use crate::report::{Report, bad_section, refused, unsettled};
use crate::{Broken, Piece, Section, first_broken, read_section, sections_of};
use fixpoint_engine::EngineEnd;
use flat_circuit::Circuit;
use listing::Output;
use program_call::Reply;
use run_wave::RunWave;
use scald_base::{Bytes, List, NoMemory, Refusal, Stop};
use std::alloc::Global;
use step_values::Value;

/// The fewest and the most sections of a text.
const FEWEST: usize = 2;

const MOST: usize = 64;

/// Whether there are too few or too many sections.
fn is_wrong(count: usize) -> bool
    ensures { MatchBool result ((count < 2) ⊎ (64 < count)) (AreEnough count) }
{
    count < FEWEST || MOST < count
}

/// The answer to a text of several drawings.
pub fn answer(alloc: Global, text: &[u8]) -> Result<Reply<SectionsOutcome>, NoMemory>
    requires { length text.now ≤ 4194304 }
    ensures is { IfOk result (λ reply. Joined text.now reply.outcome reply.bytes) }
    ensures clean { IfOk result (λ reply. reply.outcome ≡ SectionsOutcome.Clean →
        NeverBreaksJoined text.now) }
{
    let pieces = sections_of(alloc, text)?;
    let count = pieces.len();
    if is_wrong(count) {
        return Ok(bad_count(alloc, count as u32));
    }
    match read_sections(alloc, text, pieces.as_slice()) {
        Ok(sections) => joined(alloc, sections.as_slice()),
        Err(End::Refused { section, refusal }) => refused(alloc, section, refusal),
        Err(End::NoMemory) => Err(NoMemory),
    }
}

/// The answer if there are so many sections, which are too few or too many.
fn bad_count(alloc: Global, count: u32) -> Reply<SectionsOutcome>
    ensures outcome { result.outcome ≡ SectionsOutcome.BadCount count }
    ensures bytes { result.bytes ≡ [] }
{
    Reply {
        outcome: SectionsOutcome::BadCount(count),
        bytes: Output::whole(Bytes::new(alloc)),
    }
}

// ---- the sections

/// Why there are no sections: one, counted from 1, is refused, or memory ran out.
#[derive(Clone, Copy, Debug)]
enum End {
    Refused { section: u32, refusal: Refusal },
    NoMemory,
}

impl From<NoMemory> for End {
    ghost use Rattle.section_compose.specs.declared.answer.End.{End};

    ghost from_gives = { λ _ e. e ≡ End.NoMemory };

    fn from(_e: NoMemory) -> End {
        End::NoMemory
    }
}

/// The bytes of a section.
fn section_text<'a>(text: &'a [u8], piece: &Piece) -> &'a [u8]
    requires { Lies (length text.now) piece.now }
    ensures { result.now ≡ piece_of text.now piece.now }
{
    &text[piece.from..piece.to]
}

/// The sections that lie at these places of a text, or the first that is refused.
fn read_sections(alloc: Global, text: &[u8], pieces: &[Piece]) -> Result<List<Section>, End>
    requires short { length text.now < 2 ^ 32 - 1 }
    requires within { All (Lies (length text.now)) pieces.now }
    requires few { length pieces.now ≤ 64 }
    ensures drawn { IfOk result (AllZip DrawsSection (map (piece_of text.now) pieces.now)) }
    ensures timed { IfOk result AreTimed }
    ensures refused { IfErr result (IsRefusedIn (map (piece_of text.now) pieces.now)) }
{
    let mut sections = List::new(alloc);
    for s in 0..pieces.len() {
        match read_section(alloc, section_text(text, &pieces[s])) {
            Ok(section) => sections.push(section)?,
            Err(Stop::Refused(refusal)) => {
                return Err(End::Refused {
                    section: s as u32 + 1,
                    refusal,
                });
            }
            Err(Stop::NoMemory) => return Err(End::NoMemory),
        }
    }
    Ok(sections)
}

// ---- what is answered to them

/// The section whose rule is broken.
fn broken_in(sections: &[Section], broken: Broken) -> &Circuit
    requires { IsOfSection (circuits sections.now) 1 broken }
    ensures section { slice_get (circuits sections.now) (broken.section - 1) ≡ Some result.now }
    ensures place { is_of_net broken.rule ≡ true → broken.net < length result.now.order }
{
    &sections[broken.section as usize - 1].circuit
}

/// The answer if all sections are drawn.
fn joined(alloc: Global, sections: &[Section]) -> Result<Reply<SectionsOutcome>, NoMemory>
    requires { AreEnough (length sections.now) }
    ensures { IfOk result (λ reply. Concluded sections.now reply.outcome reply.bytes) }
{
    match first_broken(sections) {
        Some(broken) => bad_section(alloc, broken, broken_in(sections, broken)),
        None => settled(alloc, sections),
    }
}

/// The answer if the sections break no rule: the report, or the first section that does not
/// settle.
fn settled(alloc: Global, sections: &[Section]) -> Result<Reply<SectionsOutcome>, NoMemory>
    requires enough { AreEnough (length sections.now) }
    requires kept { first_broken sections.now ≡ None }
    ensures { IfOk result (λ reply. Concluded sections.now reply.outcome reply.bytes) }
{
    let mut report = Report::new(alloc);
    for s in 0..sections.len() {
        let section = &sections[s];
        let number = s as u32 + 1;
        match settled_section::<RunWave<Value>>(alloc, sections, &section.circuit) {
            Ok(settling) => report.add_section(number, section, &settling)?,
            Err(EngineEnd::Unsettled { net, round }) => {
                return unsettled(alloc, number, &section.circuit, net, round);
            }
            Err(EngineEnd::NoMemory) => return Err(NoMemory),
        }
    }
    report.end(sections.len() as u32)
}
