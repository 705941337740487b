//! The drawing of a text.

ghost use Rattle.std.specs.Prelude.{IfOk, IfErr};
ghost use Rattle.scald_base.specs.declared.refusal.Refusal.{Refusal};
ghost use Rattle.scald_lex.specs.Place.{IsPlacedStop};
ghost use Rattle.scald_lex.specs.Tokens.{AreTokens};
ghost use Rattle.drawing_tree.specs.Tree.{drawing_of, Drawing as Drawn};
ghost use Rattle.drawing_grammar.specs.Lexeme.{lexemes};
ghost use Rattle.drawing_tree.specs.Canonical.{canonical};
ghost use Rattle.drawing_tree.specs.WellFormed.{IsWellFormed};
ghost use Rattle.drawing_grammar.specs.CanonicalDraws.{DrawsAgain, IsShallowDrawing};
ghost use Rattle.drawing_grammar.specs.Drawing.{Draws, IsWrong, IsWrongStop};
ghost use Rattle.drawing_reader.specs.Sketched.{GivesDrawing, GivesRefusal, IsStopAt};

use crate::double_names::distinct_names;
use crate::header::{judged_header, version_of};
use crate::names::{doubtful_names, judged_names};
use crate::reader::{Sketch, read_sketch};
use drawing_tree::Drawing;
use scald_base::{NoMemory, Stop};
use scald_lex::PackedList;
use std::alloc::Global;

/// The drawing of a text, whose tokens these are, or its first refusal: `Syntax` or `TooDeep`,
/// whichever token comes first; then `BadHeader`; then `BadName` and `EdgesOverlap`, name by name;
/// then `DoubleName`. A refusal has the place of one of the tokens. The drawing is well formed, and
/// its canonical text draws it again, places aside, if that text does not nest too deep. The tokens
/// go as they are read, so that they and the whole tree never take room at once.
pub fn read_drawing(alloc: Global, text: &[u8], tokens: PackedList) -> Result<Drawing, Stop>
    requires { AreTokens text.now tokens }
    ensures drawn { IfOk result (λ d. Draws (lexemes text.now tokens) (drawing_of d)) }
    ensures formed { IfOk result (λ d. IsWellFormed (drawing_of d)) }
    ensures again { IfOk result (λ d.
        IsShallowDrawing (drawing_of d) → DrawsAgain (canonical (drawing_of d)) (drawing_of d)) }
    ensures refused { IfErr result (λ stop. IsWrongStop (lexemes text.now tokens) stop) }
    ensures at_token { IfErr result (λ stop. IsStopAt (lexemes text.now tokens) stop) }
    ensures placed { IfErr result (λ stop. IsPlacedStop text.now stop) }
    ensures only_drawing { (d : Drawn) → Draws (lexemes text.now tokens) d →
        GivesDrawing d result }
    ensures only_refusal { (r : Refusal) → IsWrong (lexemes text.now tokens) r →
        GivesRefusal r result }
{
    judged_drawing(alloc, text, tokens)
}

/// The drawing, or the refusal. That there are no others is a law of the tokens.
fn judged_drawing(alloc: Global, text: &[u8], tokens: PackedList) -> Result<Drawing, Stop>
    requires { AreTokens text.now tokens }
    ensures drawn { IfOk result (λ d. Draws (lexemes text.now tokens) (drawing_of d)) }
    ensures refused { IfErr result (λ stop. IsWrongStop (lexemes text.now tokens) stop) }
{
    // The tokens go as they are read, so their names are looked at first.
    let doubtful = match doubtful_names(alloc, text, tokens.as_slice()) {
        Ok(names) => names,
        Err(NoMemory) => return Err(Stop::NoMemory),
    };
    let sketch = match read_sketch(alloc, text, tokens) {
        Ok(sketch) => sketch,
        Err(stop) => return Err(stop),
    };
    let header = match judged_header(&sketch.header) {
        Ok(header) => header,
        Err(refusal) => return Err(Stop::Refused(refusal)),
    };
    if let Err(stop) = judged_names(alloc, doubtful.as_slice(), &header) {
        return Err(stop);
    }
    if let Err(stop) = distinct_names(
        alloc,
        &sketch.constants,
        &sketch.macros,
        sketch.heads.as_slice(),
        sketch.body.as_slice(),
    ) {
        return Err(stop);
    }
    let Sketch {
        header: written,
        constants,
        macros,
        heads: _,
        name,
        body,
        cases,
    } = sketch;
    Ok(Drawing {
        version: version_of(&written),
        header,
        consts: constants.consts,
        const_places: constants.places,
        macros,
        name,
        body,
        cases,
    })
}
