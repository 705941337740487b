//! The lines of a report while it is written, of which those that come again are kept once.

ghost use Rattle.std.specs.Prelude.{◌≡◌, ◌++◌, [], IfOk, OnOk};
ghost use Rattle.listing.specs.Output.{part_of};
ghost use Rattle.flat_circuit.specs.Circuit.{Circuit as Flat};
ghost use Rattle.fixpoint_engine.specs.Waves.{FitWaves, waves_of};
ghost use Rattle.listing.specs.Case.{case_line, case_lines, shown_faults, shown_waves};
ghost use Rattle.listing.specs.End.{last_line};
ghost use Rattle.listing.specs.Fault.{fault_line, fault_lines};
ghost use Rattle.listing.specs.Head.{head};
ghost use Rattle.listing.specs.Lines.{AreLines, IsWithin, Keeps, lines_text};

use crate::case::{CaseHead, Mode, add_case_head};
use crate::end::end_report;
use crate::fault::{add_fault, add_faults};
use crate::head::begin_report;
use crate::known::KnownLines;
use crate::output::{Output, Part, Parts};
use fixpoint_engine::Waves;
use flat_circuit::{Circuit, Fault, Faults};
use scald_base::{Bytes, NoMemory};
use std::alloc::Global;
use step_values::Value;
use wave_core::CyclicWave;

/// The lines of a report while it is written. If memory ran out they are of no use.
#[derive(Drop)]
pub struct Lines {
    /// The bytes of all lines, each line of a fault once.
    kept: Bytes,
    /// The parts of them that make up the report, but for the last.
    parts: Parts,
    last: Part,
    /// Where the lines of faults lie.
    known: KnownLines,
}

impl Lines {
    /// No lines. It needs no allocation yet.
    pub fn new(alloc: Global) -> Lines
        ensures text { lines_text result ≡ [] }
        ensures are { (c : Flat) → AreLines c result }
    {
        Lines {
            kept: Bytes::new(alloc),
            parts: Parts::new(alloc),
            last: Part { from: 0, to: 0 },
            known: KnownLines::new(alloc),
        }
    }

    /// Puts a part of what is kept at the end of the lines.
    fn refer(&mut self, part: Part) -> Result<(), NoMemory>
        requires within { IsWithin self.old.kept part }
        requires last { IsWithin self.old.kept self.old.last }
        ensures text { OnOk result
            (lines_text self.new ≡ lines_text self.old ++ part_of self.old.kept part) }
        ensures are { OnOk result ((c : Flat) → AreLines c self.old → AreLines c self.new) }
    {
        if self.last.to == part.from {
            self.last.to = part.to;
            return Ok(());
        }
        self.parts.push(self.last)?;
        self.last = part;
        Ok(())
    }

    /// Keeps the head of the report.
    fn keep_head(&mut self, c: &Circuit, version: u8) -> Result<Part, NoMemory>
        requires { AreLines c.now self.old }
        ensures { IfOk result (Keeps c.now self.old self.new (head version c.now)) }
    {
        let from = self.kept.len();
        begin_report(c, version, &mut self.kept)?;
        Ok(Part {
            from,
            to: self.kept.len(),
        })
    }

    /// Keeps a case's own line, and the lines of its waves if the mode shows them.
    fn keep_case<W: CyclicWave<Item = Value>>(
        &mut self,
        c: &Circuit,
        head: CaseHead,
        waves: &Waves<W>,
        mode: Mode,
    ) -> Result<Part, NoMemory>
        requires fit { FitWaves c.now waves.now }
        requires are { AreLines c.now self.old }
        ensures { IfOk result (Keeps c.now self.old self.new
            (case_line head.number head.base head.rounds head.tick
            ++ shown_waves c.now mode (waves_of waves.now))) }
    {
        let from = self.kept.len();
        add_case_head(&mut self.kept, c, head, waves, mode)?;
        Ok(Part {
            from,
            to: self.kept.len(),
        })
    }

    /// Keeps the line of a fault.
    fn keep_fault(&mut self, c: &Circuit, fault: Fault) -> Result<Part, NoMemory>
        requires { AreLines c.now self.old }
        ensures { IfOk result (Keeps c.now self.old self.new (fault_line c.now fault)) }
    {
        let from = self.kept.len();
        add_fault(&mut self.kept, c, fault)?;
        Ok(Part {
            from,
            to: self.kept.len(),
        })
    }

    /// Keeps the lines of faults, one after another.
    fn keep_faults(&mut self, c: &Circuit, faults: &[Fault]) -> Result<Part, NoMemory>
        requires { AreLines c.now self.old }
        ensures { IfOk result (Keeps c.now self.old self.new (fault_lines c.now faults.now)) }
    {
        let from = self.kept.len();
        add_faults(&mut self.kept, c, faults)?;
        Ok(Part {
            from,
            to: self.kept.len(),
        })
    }

    /// Keeps the last line of the report.
    fn keep_end(&mut self, c: &Circuit, total: u32) -> Result<Part, NoMemory>
        requires { AreLines c.now self.old }
        ensures { IfOk result (Keeps c.now self.old self.new (last_line total)) }
    {
        let _ = c;
        let from = self.kept.len();
        end_report(total, &mut self.kept)?;
        Ok(Part {
            from,
            to: self.kept.len(),
        })
    }

    /// Puts the head of the report at the end.
    pub fn add_head(&mut self, c: &Circuit, version: u8) -> Result<(), NoMemory>
        requires { AreLines c.now self.old }
        ensures text { OnOk result
            (lines_text self.new ≡ lines_text self.old ++ head version c.now) }
        ensures are { OnOk result (AreLines c.now self.new) }
    {
        let part = self.keep_head(c, version)?;
        self.refer(part)?;
        Ok(())
    }

    /// Makes the line of a fault, and puts it at the end.
    fn add_new(&mut self, c: &Circuit, fault: Fault) -> Result<(), NoMemory>
        requires { AreLines c.now self.old }
        ensures text { OnOk result
            (lines_text self.new ≡ lines_text self.old ++ fault_line c.now fault) }
        ensures are { OnOk result (AreLines c.now self.new) }
    {
        let part = self.keep_fault(c, fault)?;
        self.known.remember(fault, part)?;
        self.refer(part)?;
        Ok(())
    }

    /// Puts the line of a fault at the end.
    fn add_fault(&mut self, c: &Circuit, fault: Fault) -> Result<(), NoMemory>
        requires { AreLines c.now self.old }
        ensures text { OnOk result
            (lines_text self.new ≡ lines_text self.old ++ fault_line c.now fault) }
        ensures are { OnOk result (AreLines c.now self.new) }
    {
        match self.known.find(fault) {
            Some(part) => {
                self.refer(part)?;
                Ok(())
            }
            None => self.add_new(c, fault),
        }
    }

    /// Puts the lines of faults at the end, each of which may come again in other cases.
    fn add_again(&mut self, c: &Circuit, faults: &[Fault]) -> Result<(), NoMemory>
        requires { AreLines c.now self.old }
        ensures text { OnOk result
            (lines_text self.new ≡ lines_text self.old ++ fault_lines c.now faults.now) }
        ensures are { OnOk result (AreLines c.now self.new) }
    {
        for fault in faults {
            self.add_fault(c, *fault)?;
        }
        Ok(())
    }

    /// Puts the lines of the faults of the only case at the end.
    fn add_only(&mut self, c: &Circuit, faults: &[Fault]) -> Result<(), NoMemory>
        requires { AreLines c.now self.old }
        ensures text { OnOk result
            (lines_text self.new ≡ lines_text self.old ++ fault_lines c.now faults.now) }
        ensures are { OnOk result (AreLines c.now self.new) }
    {
        let part = self.keep_faults(c, faults)?;
        self.refer(part)?;
        Ok(())
    }

    /// Puts the lines of the faults of a case at the end: those of a case that is not the only one
    /// may come again.
    fn add_faults(
        &mut self,
        alloc: Global,
        c: &Circuit,
        number: u32,
        faults: &[Fault],
    ) -> Result<(), NoMemory>
        requires { AreLines c.now self.old }
        ensures text { OnOk result
            (lines_text self.new ≡ lines_text self.old ++ fault_lines c.now faults.now) }
        ensures are { OnOk result (AreLines c.now self.new) }
    {
        if number == 0 {
            return self.add_only(c, faults);
        }
        self.known.make_room(alloc, c)?;
        self.add_again(c, faults)
    }

    /// Puts the lines of one case at the end: its own line; then, as the mode says, a line for the
    /// wave of each net, in name order, and a line for each fault, in the order of `faults`.
    pub fn add_case<W: CyclicWave<Item = Value>>(
        &mut self,
        alloc: Global,
        c: &Circuit,
        head: CaseHead,
        waves: &Waves<W>,
        faults: &Faults,
        mode: Mode,
    ) -> Result<(), NoMemory>
        requires fit { FitWaves c.now waves.now }
        requires are { AreLines c.now self.old }
        ensures text { let all = waves_of waves.now in
            OnOk result (lines_text self.new ≡ lines_text self.old
            ++ case_lines c.now mode head.number head.base head.rounds head.tick all faults.now) }
        ensures are { OnOk result (AreLines c.now self.new) }
    {
        let part = self.keep_case(c, head, waves, mode)?;
        self.refer(part)?;
        if !mode.shows_faults() {
            return Ok(());
        }
        self.add_faults(alloc, c, head.number, faults.as_slice())?;
        Ok(())
    }

    /// All lines, with the last line of the report after them: how many faults there are over all
    /// cases, or that there is none.
    pub fn end(self, c: &Circuit, total: u32) -> Result<Output, NoMemory>
        requires { AreLines c.now self }
        ensures { IfOk result (λ output. output ≡ lines_text self ++ last_line total) }
    {
        let mut lines = self;
        let part = lines.keep_end(c, total)?;
        lines.refer(part)?;
        lines.parts.push(lines.last)?;
        let Lines {
            kept,
            parts,
            last: _,
            known: _,
        } = lines;
        Ok(Output::of_parts(kept, parts))
    }
}
