//! Writes a whole drawing.

ghost use Rattle.std.specs.Prelude.{◌≡◌, ◌++◌, [], OnOk, IfOk, map, codes, decimal};
ghost use Rattle.std.specs.List.{flat_map};
ghost use Rattle.drawing_tree.specs.Tree.{assignment_of, formal_of, macro_of, statements_of, drawing_of};
ghost use Rattle.drawing_tree.specs.Canonical.{header_lines, constant_line, formal_text, inputs_text, outputs_text, macro_head, macro_lines, body_lines, line, entry_text, case_lines, canonical};

use crate::connection_text::{add_name, add_range};
use crate::drawing::{CaseEntry, CaseStmt, Drawing, Formal, MacroDef};
use crate::expression_text::add_sum;
use crate::printed::{Printed, add_bracketed, add_bracketed_if_some, add_each, add_joined};
use crate::statement::{Assign, Stmt};
use crate::statement_text::{add_line, add_params, add_statements};
use itoa::Buffer;
use scald_base::{Bytes, Header, NoMemory};
use std::alloc::Global;

/// Puts a number at the end, with bytes before it.
fn add_number(out: &mut Bytes, before: &[u8], number: u32) -> Result<(), NoMemory>
    ensures { OnOk result (out.new ≡ out.old ++ before.now ++ decimal number) }
{
    out.extend(before)?;
    out.extend(Buffer::new().format(number).as_bytes())
}

/// Puts a line of the header with two numbers at the end.
fn add_pair(
    out: &mut Bytes,
    before: &[u8],
    first: u16,
    between: &[u8],
    second: u16,
) -> Result<(), NoMemory>
    ensures { OnOk result
        (out.new ≡ out.old ++ line [] (before.now ++ decimal first ++ between.now ++ decimal second
        ++ codes ";")) }
{
    add_number(out, before, u32::from(first))?;
    add_number(out, between, u32::from(second))?;
    out.extend(b";\n")
}

#[tactic(auto, unfolding(crate::specs::Canonical::header_lines))]
fn add_header(out: &mut Bytes, version: u8, h: &Header) -> Result<(), NoMemory>
    ensures { OnOk result (out.new ≡ out.old ++ header_lines version h.now) }
{
    add_number(out, b"SCALD ", u32::from(version))?;
    out.extend(b";\n")?;
    add_pair(out, b"CLOCK ", h.units, b" x ", h.ticks)?;
    add_pair(out, b"WIRE ", h.wire.min, b":", h.wire.max)?;
    add_pair(out, b"PSKEW ", h.pskew.0, b":", h.pskew.1)?;
    add_pair(out, b"CSKEW ", h.cskew.0, b":", h.cskew.1)
}

/// Puts the line of a constant at the end.
#[tactic(auto, unfolding(crate::specs::Canonical::constant_line))]
fn add_constant(out: &mut Bytes, constant: &Assign) -> Result<(), NoMemory>
    ensures { OnOk result (out.new ≡ out.old ++ constant_line (assignment_of constant.now)) }
{
    out.extend(b"CONST ")?;
    out.extend(constant.name.as_slice())?;
    out.extend(b" = ")?;
    add_sum(out, &constant.value)?;
    out.extend(b";\n")
}

/// Puts the lines of the constants at the end.
#[tactic(auto, using(crate::proofs::Joined::each_map))]
fn add_constants(out: &mut Bytes, constants: &[Assign]) -> Result<(), NoMemory>
    ensures { OnOk result (out.new
        ≡ out.old ++ flat_map constant_line (map assignment_of constants.now)) }
{
    'constants: for constant in constants {
        add_constant(out, constant)?;
    }
    Ok(())
}

impl Printed for Formal {
    ghost text = { λ f. formal_text (formal_of f) };

    fn add_to(&self, _alloc: Global, out: &mut Bytes) -> Result<(), NoMemory> {
        out.push(b'"')?;
        out.extend(self.base.as_slice())?;
        out.push(b'"')?;
        add_range(out, &self.range)
    }
}

/// Puts the inputs of a macro in their parentheses at the end.
#[tactic(auto, using(crate::proofs::Joined::bracketed_map))]
fn add_ins(alloc: Global, out: &mut Bytes, ins: &[Formal]) -> Result<(), NoMemory>
    ensures { OnOk result (out.new ≡ out.old ++ inputs_text formal_text (map formal_of ins.now)) }
{
    add_bracketed(alloc, out, b" (", b")", ins)
}

/// Appends an arrow and the outputs of a macro, if there are some.
#[tactic(auto, using(crate::proofs::Joined::bracketed_if_some_map))]
fn add_outs(alloc: Global, out: &mut Bytes, outs: &[Formal]) -> Result<(), NoMemory>
    ensures { OnOk result (out.new ≡ out.old ++ outputs_text formal_text (map formal_of outs.now)) }
{
    add_bracketed_if_some(alloc, out, b" -> (", b")", outs)
}

/// Puts what stands in the first line of a macro at the end.
#[tactic(auto, unfolding(crate::specs::Canonical::macro_head))]
fn add_head(alloc: Global, out: &mut Bytes, m: &MacroDef) -> Result<(), NoMemory>
    ensures { OnOk result (out.new ≡ out.old ++ macro_head (macro_of m.now)) }
{
    out.extend(b"MACRO ")?;
    out.extend(m.name.as_slice())?;
    add_params(alloc, out, m.params.as_slice())?;
    add_ins(alloc, out, m.ins.as_slice())?;
    add_outs(alloc, out, m.outs.as_slice())?;
    out.push(b';')
}

/// Appends the statements of a macro or of the drawing itself, and the END after them.
#[tactic(auto, unfolding(crate::specs::Canonical::body_lines))]
fn add_body(alloc: Global, out: &mut Bytes, body: &[Stmt]) -> Result<(), NoMemory>
    ensures { OnOk result (out.new ≡ out.old ++ body_lines (statements_of body.now)) }
{
    add_statements(alloc, out, b"  ", body)?;
    add_line(out, b"", b"END;")
}

impl Printed for MacroDef {
    ghost text = { λ m. macro_lines (macro_of m) };

    #[tactic(auto, unfolding(crate::specs::Canonical::macro_lines))]
    fn add_to(&self, alloc: Global, out: &mut Bytes) -> Result<(), NoMemory> {
        add_head(alloc, out, self)?;
        out.push(b'\n')?;
        add_body(alloc, out, self.body.as_slice())
    }
}

impl Printed for CaseEntry {
    ghost text = { entry_text };

    fn add_to(&self, alloc: Global, out: &mut Bytes) -> Result<(), NoMemory> {
        add_name(alloc, out, &self.name)?;
        add_number(out, b"<", self.bit)?;
        add_number(out, b">=", self.value)
    }
}

impl Printed for CaseStmt {
    ghost text = { case_lines };

    fn add_to(&self, alloc: Global, out: &mut Bytes) -> Result<(), NoMemory> {
        out.extend(b"CASE ")?;
        add_joined(alloc, out, b", ", self.entries.as_slice())?;
        out.extend(b";\n")
    }
}

/// Puts the lines of the constants and then the macros at the end.
#[tactic(auto, using(crate::proofs::Joined::each_map))]
fn add_declared(alloc: Global, out: &mut Bytes, d: &Drawing) -> Result<(), NoMemory>
    ensures { OnOk result (out.new ≡ out.old
        ++ flat_map constant_line (map assignment_of d.now.consts)
        ++ flat_map macro_lines (map macro_of d.now.macros)) }
{
    add_constants(out, d.consts.as_slice())?;
    add_each(alloc, out, d.macros.as_slice())
}

/// Puts the line that begins the drawing itself at the end.
fn add_title(out: &mut Bytes, name: &[u8]) -> Result<(), NoMemory>
    ensures { OnOk result (out.new
        ≡ out.old ++ line [] (codes "DRAWING " ++ name.now ++ codes ";")) }
{
    out.extend(b"DRAWING ")?;
    out.extend(name)?;
    out.extend(b";\n")
}

/// The canonical text of a drawing: one statement a line, each line ended by byte 10.
pub fn print_drawing(alloc: Global, d: &Drawing) -> Result<Bytes, NoMemory>
    ensures { IfOk result (λ text. text ≡ canonical (drawing_of d.now)) }
{
    let mut out = Bytes::new(alloc);
    add_header(&mut out, d.version, &d.header)?;
    add_declared(alloc, &mut out, d)?;
    add_title(&mut out, d.name.as_slice())?;
    add_body(alloc, &mut out, d.body.as_slice())?;
    add_each(alloc, &mut out, d.cases.as_slice())?;
    Ok(out)
}
