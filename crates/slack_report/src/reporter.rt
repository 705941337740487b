//! The slacks of a circuit while its cases come one after the other, and in the end its table or
//! its paragraphs.

ghost use Rattle.std.specs.Prelude.{List, IfOk};
ghost use Rattle.slack_rows.specs.Limit.{Case};
ghost use Rattle.slack_report.specs.declared.request.Part.TheVariants.{Paragraphs as OfParagraphs, Table as OfTable};
ghost use Rattle.slack_report.specs.Answer.{AreRows, AreSlacks, AreSlacksOf, cases_of};

use crate::body::{paragraphs, table};
use crate::collected::{add_case, no_rows, reply};
use crate::request::Part;
use drawing_tree::Drawing;
use fixpoint_engine::Waves;
use flat_circuit::Circuit;
use format_upgrade::copy_drawing;
use program_call::{Reply, Reporter};
use scald_base::{NoMemory, Outcome};
use slack_rows::Rows;
use std::alloc::Global;
use std::marker::Model;
use step_values::Value;
use timing_analysis::SettledCase;
use wave_core::CyclicWave;

/// The table of slacks: how many rows are asked for, and the slacks over the cases so far.
#[derive(Drop)]
pub struct Table {
    pub worst: Option<u32>,
    pub rows: Rows,
}

/// The reply of the table.
fn table_reply(
    alloc: Global,
    circuit: &Circuit,
    rows: &Rows,
    worst: Option<u32>,
) -> Result<Reply<Outcome>, NoMemory>
    requires { (cases : List Case) × AreRows circuit.now cases rows.now }
    ensures { IfOk result (λ reply. (cases : List Case) → AreRows circuit.now cases rows.now →
        AreSlacksOf Part.Table circuit.now cases reply.outcome reply.bytes) }
{
    let lines = table(alloc, circuit, rows, worst)?;
    reply(alloc, circuit, Part::Table, rows, &lines)
}

impl Reporter for Table {
    type Asked = Option<u32>;

    type Kept = ();

    ghost keeps = { λ d. tt };

    ghost reports = { λ asked kept. AreSlacks OfTable };

    ghost holds = { λ table asked kept c base cases. AreRows c (cases_of cases) table.rows };

    ghost ready = { λ table c places. (cases : List Case) × AreRows c cases table.rows };

    fn keep(_alloc: Global, _drawing: &Drawing) -> Result<(), NoMemory> {
        Ok(())
    }

    fn begin(
        alloc: Global,
        worst: Option<u32>,
        _kept: (),
        circuit: &Circuit,
        _base: u32,
    ) -> Result<Table, NoMemory> {
        let rows = no_rows(alloc, circuit)?;
        Ok(Table { worst, rows })
    }

    fn add_case<W: CyclicWave<Item = Value>>(
        &mut self,
        alloc: Global,
        circuit: &Circuit,
        _place: u32,
        case: &SettledCase,
        waves: &Waves<W>,
    ) -> Result<(), NoMemory> {
        add_case(&mut self.rows, alloc, circuit, case.number, waves)
    }

    fn end(self, alloc: Global, circuit: &Circuit) -> Result<Reply<Outcome>, NoMemory> {
        table_reply(alloc, circuit, &self.rows, self.worst)
    }
}

/// A copy of a drawing, of which contracts see the canonical text.
#[derive(Drop)]
pub struct KeptDrawing {
    drawing: Drawing,
}

impl Model for KeptDrawing {
    ghost use Rattle.std.specs.Prelude.{List, ℕ};
    ghost use Rattle.drawing_tree.specs.Canonical.{canonical};
    ghost use Rattle.drawing_tree.specs.Tree.{drawing_of};

    ghost Value = { List ℕ };

    ghost view = { λ kept. canonical (drawing_of kept.drawing) };
}

/// The paragraphs on slacks: how many rows are asked for, the drawing, and the slacks over the
/// cases so far.
#[derive(Drop)]
pub struct Paragraphs {
    pub worst: Option<u32>,
    pub kept: KeptDrawing,
    pub rows: Rows,
}

/// The reply of the paragraphs.
fn paragraphs_reply(
    alloc: Global,
    circuit: &Circuit,
    rows: &Rows,
    drawing: &Drawing,
    worst: Option<u32>,
) -> Result<Reply<Outcome>, NoMemory>
    requires { (cases : List Case) × AreRows circuit.now cases rows.now }
    ensures { IfOk result (λ reply. (cases : List Case) → AreRows circuit.now cases rows.now →
        AreSlacksOf Part.Paragraphs circuit.now cases reply.outcome reply.bytes) }
{
    let lines = paragraphs(alloc, circuit, rows, drawing, worst)?;
    reply(alloc, circuit, Part::Paragraphs, rows, &lines)
}

impl Reporter for Paragraphs {
    ghost use Rattle.drawing_tree.specs.Canonical.{canonical};

    type Asked = Option<u32>;

    type Kept = KeptDrawing;

    ghost keeps = { canonical };

    ghost reports = { λ asked kept. AreSlacks OfParagraphs };

    ghost holds = { λ told asked kept c base cases. AreRows c (cases_of cases) told.rows };

    ghost ready = { λ told c places. (cases : List Case) × AreRows c cases told.rows };

    fn keep(alloc: Global, drawing: &Drawing) -> Result<KeptDrawing, NoMemory> {
        let copy = copy_drawing(alloc, drawing)?;
        Ok(KeptDrawing { drawing: copy })
    }

    fn begin(
        alloc: Global,
        worst: Option<u32>,
        kept: KeptDrawing,
        circuit: &Circuit,
        _base: u32,
    ) -> Result<Paragraphs, NoMemory> {
        let rows = no_rows(alloc, circuit)?;
        Ok(Paragraphs { worst, kept, rows })
    }

    fn add_case<W: CyclicWave<Item = Value>>(
        &mut self,
        alloc: Global,
        circuit: &Circuit,
        _place: u32,
        case: &SettledCase,
        waves: &Waves<W>,
    ) -> Result<(), NoMemory> {
        add_case(&mut self.rows, alloc, circuit, case.number, waves)
    }

    fn end(self, alloc: Global, circuit: &Circuit) -> Result<Reply<Outcome>, NoMemory> {
        paragraphs_reply(alloc, circuit, &self.rows, &self.kept.drawing, self.worst)
    }
}
