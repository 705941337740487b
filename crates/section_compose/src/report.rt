//! The lines on sections.

ghost use Rattle.std.specs.Prelude.{◌≡◌, ◌++◌, ◌+◌, ◌^◌, ◌<◌, ◌≤◌, [], false, true, IfOk, OnOk, length, max};
ghost use Rattle.flat_circuit.specs.Circuit.{Circuit as Whole};
ghost use Rattle.fixpoint_engine.specs.Table.{AreKnown, waves_at};
ghost use Rattle.fixpoint_engine.specs.Waves.{FitWaves};
ghost use Rattle.listing.specs.Answer.{unsettled_line};
ghost use Rattle.listing.specs.End.{last_line};
ghost use Rattle.section_compose.specs.Evaluated.{faults_in, tick_of};
ghost use Rattle.section_compose.specs.Lines.{broken_line, refused_lines, section_line, section_lines, sections_line};
ghost use Rattle.section_compose.specs.Outcome.{verdict_of};
ghost use Rattle.section_compose.specs.Rule.{is_of_net, number_of};
ghost use Rattle.section_compose.specs.Settled.{settling_in};

use crate::evaluated::SettledSection;
use crate::outcome::SectionsOutcome;
use crate::{Broken, Rule, Section};
use fixpoint_engine::Waves;
use flat_circuit::Circuit;
use listing::{
    CaseHead, Mode, Output, Piece, add_line, begin_report, end_report, net_piece, write_case,
    write_refusal, write_unsettled,
};
use program_call::Reply;
use scald_base::{Bytes, NoMemory, Refusal};
use std::alloc::Global;
use std::cmp::max;
use step_values::Value;
use wave_core::CyclicWave;

/// The line that names a section, counted from 1.
#[tactic(auto, unfolding(crate::specs::Lines::section_line))]
fn add_section(out: &mut Bytes, section: u32) -> Result<(), NoMemory>
    ensures { OnOk result (out.new ≡ out.old ++ section_line section) }
{
    add_line(
        out,
        &[Piece::Text(b"SECTION "), Piece::Number(u64::from(section))],
    )
}

/// The lines of the report so far, the greatest tick that is printed for a section, and how many
/// faults the sections have.
#[derive(Drop)]
pub struct Report {
    pub bytes: Bytes,
    pub tick: u64,
    pub total: u32,
}

impl Report {
    /// A report before any section.
    pub fn new(alloc: Global) -> Report
        ensures bytes { result.bytes ≡ [] }
        ensures tick { result.tick ≡ 0 }
        ensures none { result.total ≡ 0 }
    {
        Report {
            bytes: Bytes::new(alloc),
            tick: 0,
            total: 0,
        }
    }

    /// The lines of a settled section, counted from 1, after those of the others.
    pub fn add_section<W: CyclicWave<Item = Value>>(
        &mut self,
        number: u32,
        section: &Section,
        settling: &SettledSection<W>,
    ) -> Result<(), NoMemory>
        requires room { self.old.total + 458752 < 2 ^ 32 }
        requires known { AreKnown settling.now.store settling.now.settled.numbers }
        requires fit { FitWaves section.now.circuit
            (waves_at settling.now.store settling.now.settled.numbers) }
        requires tick { settling.now.tick ≡ tick_of section.now.circuit
            (settling_in settling.now.settled.rounds settling.now.store
            settling.now.settled.numbers) }
        requires found { settling.now.faults ≡ faults_in section.now.circuit
            (settling_in settling.now.settled.rounds settling.now.store
            settling.now.settled.numbers) }
        requires few { length settling.now.faults ≤ 458752 }
        ensures lines { OnOk result (self.new.bytes ≡ self.old.bytes
            ++ section_lines number section.now
            (settling_in settling.now.settled.rounds settling.now.store
            settling.now.settled.numbers)) }
        ensures tick { OnOk result (self.new.tick ≡ max self.old.tick settling.now.tick) }
        ensures counted { OnOk result (self.new.total
            ≡ self.old.total + length settling.now.faults) }
    {
        add_section(&mut self.bytes, number)?;
        begin_report(&section.circuit, section.version, &mut self.bytes)?;
        let head = CaseHead {
            number: 0,
            base: settling.settled.rounds,
            rounds: 0,
            tick: settling.tick,
        };
        let waves = Waves::new(settling.store.waves(), settling.settled.numbers.as_slice());
        write_case(
            &section.circuit,
            head,
            &waves,
            &settling.faults,
            Mode::Faults,
            &mut self.bytes,
        )?;
        self.tick = max(self.tick, settling.tick);
        self.total += settling.faults.len() as u32;
        Ok(())
    }

    /// The whole report on so many sections, with its outcome.
    pub fn end(self, sections: u32) -> Result<Reply<SectionsOutcome>, NoMemory>
        ensures outcome { IfOk result (λ reply. reply.outcome ≡ verdict_of self.total) }
        ensures bytes { IfOk result (λ reply.
            reply.bytes ≡ self.bytes ++ (sections_line sections self.tick
            ++ last_line self.total)) }
    {
        let Report {
            mut bytes,
            tick,
            total,
        } = self;
        add_sections(&mut bytes, sections, tick)?;
        end_report(total, &mut bytes)?;
        Ok(Reply {
            outcome: SectionsOutcome::verdict(total),
            bytes: Output::whole(bytes),
        })
    }
}

/// The line that counts the sections, with the tick from which on all of their waves hold.
#[tactic(auto, unfolding(crate::specs::Lines::sections_line))]
fn add_sections(out: &mut Bytes, sections: u32, tick: u64) -> Result<(), NoMemory>
    ensures { OnOk result (out.new ≡ out.old ++ sections_line sections tick) }
{
    add_line(
        out,
        &[
            Piece::Text(b"SECTIONS "),
            Piece::Number(u64::from(sections)),
            Piece::Text(b" T "),
            Piece::Number(tick),
        ],
    )
}

// ---- in place of a report

/// The answer if a section, counted from 1, is refused.
pub fn refused(
    alloc: Global,
    section: u32,
    refusal: Refusal,
) -> Result<Reply<SectionsOutcome>, NoMemory>
    ensures outcome { IfOk result (λ reply. reply.outcome
        ≡ SectionsOutcome.Refused section refusal) }
    ensures bytes { IfOk result (λ reply. reply.bytes ≡ refused_lines section refusal) }
{
    let mut bytes = Bytes::new(alloc);
    add_section(&mut bytes, section)?;
    write_refusal(&refusal, &mut bytes)?;
    Ok(Reply {
        outcome: SectionsOutcome::Refused { section, refusal },
        bytes: Output::whole(bytes),
    })
}

/// The answer if a section, counted from 1, does not settle.
pub fn unsettled(
    alloc: Global,
    section: u32,
    circuit: &Circuit,
    net: u32,
    round: u32,
) -> Result<Reply<SectionsOutcome>, NoMemory>
    requires { net < length circuit.now.order }
    ensures outcome { IfOk result (λ reply. reply.outcome
        ≡ SectionsOutcome.Unsettled section net round) }
    ensures bytes { IfOk result (λ reply.
        reply.bytes ≡ section_line section ++ unsettled_line circuit.now net round) }
{
    let mut bytes = Bytes::new(alloc);
    add_section(&mut bytes, section)?;
    write_unsettled(circuit, net, round, &mut bytes)?;
    Ok(Reply {
        outcome: SectionsOutcome::Unsettled {
            section,
            net,
            round,
        },
        bytes: Output::whole(bytes),
    })
}

/// The line of a broken rule that is one of sections.
#[tactic(auto, unfolding(crate::specs::Lines::broken_line))]
fn add_broken(out: &mut Bytes, broken: Broken) -> Result<(), NoMemory>
    requires { is_of_net broken.rule ≡ false }
    ensures { (c : Whole) →
        OnOk result (out.new ≡ out.old ++ broken_line broken.rule broken.section c broken.net) }
{
    add_line(
        out,
        &[
            Piece::Text(b"REFUSED "),
            Piece::Number(u64::from(broken.rule.number())),
            Piece::Text(b" "),
            Piece::Text(broken.rule.name().as_bytes()),
            Piece::Text(b" SECTION "),
            Piece::Number(u64::from(broken.section)),
        ],
    )
}

/// The line of a broken rule that is one of nets, with the net.
#[tactic(auto, unfolding(crate::specs::Lines::broken_line))]
fn add_broken_net(out: &mut Bytes, broken: Broken, circuit: &Circuit) -> Result<(), NoMemory>
    requires rule { is_of_net broken.rule ≡ true }
    requires place { broken.net < length circuit.now.order }
    ensures { OnOk result
        (out.new ≡ out.old ++ broken_line broken.rule broken.section circuit.now broken.net) }
{
    add_line(
        out,
        &[
            Piece::Text(b"REFUSED "),
            Piece::Number(u64::from(broken.rule.number())),
            Piece::Text(b" "),
            Piece::Text(broken.rule.name().as_bytes()),
            Piece::Text(b" SECTION "),
            Piece::Number(u64::from(broken.section)),
            Piece::Text(b" NET "),
            net_piece(circuit, circuit.net_at(broken.net)),
        ],
    )
}

/// The answer if a section breaks a rule of sections that are joined.
pub fn bad_section(
    alloc: Global,
    broken: Broken,
    circuit: &Circuit,
) -> Result<Reply<SectionsOutcome>, NoMemory>
    requires { is_of_net broken.rule ≡ true → broken.net < length circuit.now.order }
    ensures outcome { IfOk result (λ reply.
        reply.outcome ≡ SectionsOutcome.BadSection broken.section
        (number_of broken.rule) broken.net) }
    ensures bytes { IfOk result (λ reply.
        reply.bytes ≡ broken_line broken.rule broken.section circuit.now broken.net) }
{
    let mut bytes = Bytes::new(alloc);
    match broken.rule {
        Rule::Case | Rule::Clock => add_broken(&mut bytes, broken)?,
        Rule::Assertion | Rule::Drivers | Rule::Unasserted | Rule::Delay => {
            add_broken_net(&mut bytes, broken, circuit)?
        }
    }
    Ok(Reply {
        outcome: SectionsOutcome::BadSection {
            section: broken.section,
            rule: broken.rule.number(),
            net: broken.net,
        },
        bytes: Output::whole(bytes),
    })
}
