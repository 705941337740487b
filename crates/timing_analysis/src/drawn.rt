//! From a text to the drawing that it draws, and to its circuit and cases.

ghost use Rattle.std.specs.Prelude.{◌≡◌, ◌-◌, ◌^◌, ◌<◌, ◌≤◌, ℕ, List, IfOk, IfErr, length};
ghost use Rattle.std.specs.List.{All};
ghost use Rattle.scald_base.specs.declared.refusal.Refusal.{Refusal};
ghost use Rattle.drawing_tree.specs.Tree.{drawing_of};
ghost use Rattle.drawing_tree.specs.WellFormed.{IsWellFormed};
ghost use Rattle.drawing_grammar.specs.CanonicalDraws.{TextDraws};
ghost use Rattle.drawing_grammar.specs.Refused.{IsRefusal};
ghost use Rattle.macro_expander.specs.Stands.{IsExpansionOf};
ghost use Rattle.case_analysis.specs.Case.{NetsExist};
ghost use Rattle.timing_analysis.specs.Drawn.{DrawsBy, DrawsCircuit, IsTextRefused};

use case_analysis::check_cases;
use drawing_reader::read_drawing;
use drawing_tree::{CaseStmts, Drawing};
use flat_circuit::{CaseList, Circuit};
use macro_expander::{Expansion, expanded};
use scald_base::Stop;
use scald_lex::packed_tokens;
use std::alloc::Global;

/// The drawing that a text of fewer than 4,294,967,295 bytes draws; or `Refused`, if it draws
/// none, or `NoMemory`, if memory runs out.
pub fn read_text(alloc: Global, text: &[u8]) -> Result<Drawing, Stop>
    requires { length text.now < 2 ^ 32 - 1 }
    ensures drawn { IfOk result (λ drawing. TextDraws text.now (drawing_of drawing)) }
    ensures formed { IfOk result (λ drawing. IsWellFormed (drawing_of drawing)) }
    ensures refused { IfErr result (λ stop. (r : Refusal) → stop ≡ Stop.Refused r →
        IsRefusal text.now r) }
{
    let tokens = match packed_tokens(alloc, text) {
        Ok(tokens) => tokens,
        Err(stop) => return Err(stop),
    };
    match read_drawing(alloc, text, tokens) {
        Ok(drawing) => Ok(drawing),
        Err(stop) => Err(stop),
    }
}

/// The cases of a drawing, as they are written. All else of it goes, and the memory that it takes.
fn written_cases(drawing: Drawing) -> CaseStmts
    ensures { result ≡ drawing.cases }
{
    let Drawing {
        version: _,
        header: _,
        consts: _,
        const_places: _,
        macros: _,
        name: _,
        body: _,
        cases,
    } = drawing;
    cases
}

/// A circuit and the cases in which it is evaluated.
#[derive(Drop)]
pub struct Drawn {
    pub circuit: Circuit,
    pub cases: CaseList,
}

/// The circuit of a drawing that is expanded so, with its cases; or `Refused`, if it has no circuit
/// or has a case that is refused; or `NoMemory`, if memory runs out.
pub fn circuit_of(alloc: Global, drawing: Drawing, expansion: Expansion) -> Result<Drawn, Stop>
    requires { IsExpansionOf (drawing_of drawing) expansion }
    ensures drawn { IfOk result (λ drawn. (text : List ℕ) → TextDraws text (drawing_of drawing) →
        DrawsBy text (drawing_of drawing) drawn.circuit drawn.cases) }
    ensures exist { IfOk result (λ drawn. All (NetsExist drawn.circuit) drawn.cases) }
    ensures few { IfOk result (λ drawn. length drawn.cases ≤ 256) }
    ensures refused { IfErr result (λ stop. (text : List ℕ) (r : Refusal) →
        TextDraws text (drawing_of drawing) → stop ≡ Stop.Refused r → IsTextRefused text r) }
{
    // The tree of a large drawing takes as much as its circuit: it goes before that is finished.
    let written = written_cases(drawing);
    let circuit = match expansion.finish() {
        Ok(circuit) => circuit,
        Err(stop) => return Err(stop),
    };
    circuit.known();
    match check_cases(alloc, &circuit, &written) {
        Ok(cases) => Ok(Drawn { circuit, cases }),
        Err(stop) => Err(stop),
    }
}

/// The circuit that a text of fewer than 4,294,967,295 bytes draws, with its cases; or `Refused`,
/// if the text draws no drawing, or that has no circuit or has a case that is refused; or
/// `NoMemory`, if memory runs out.
pub fn read_circuit(alloc: Global, text: &[u8]) -> Result<Drawn, Stop>
    requires { length text.now < 2 ^ 32 - 1 }
    ensures drawn { IfOk result (λ drawn. DrawsCircuit text.now drawn.circuit drawn.cases) }
    ensures exist { IfOk result (λ drawn. All (NetsExist drawn.circuit) drawn.cases) }
    ensures few { IfOk result (λ drawn. length drawn.cases ≤ 256) }
    ensures refused { IfErr result (λ stop. (r : Refusal) → stop ≡ Stop.Refused r →
        IsTextRefused text.now r) }
{
    let drawing = match read_text(alloc, text) {
        Ok(drawing) => drawing,
        Err(stop) => return Err(stop),
    };
    match expanded(alloc, &drawing) {
        Ok(expansion) => circuit_of(alloc, drawing, expansion),
        Err(stop) => Err(stop),
    }
}
