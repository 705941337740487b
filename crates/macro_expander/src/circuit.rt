//! The circuit of a drawing.

ghost use Rattle.std.specs.Prelude.{MatchResult};
ghost use Rattle.drawing_tree.specs.Tree.{Drawing as Drawn, drawing_of};
ghost use Rattle.drawing_tree.specs.WellFormed.{IsWellFormed};
ghost use Rattle.macro_expander.specs.Stands.{IsCircuitOf, IsExpansionOf, IsStopOf};

use crate::constants::{constants, copied_env};
use crate::expansion::Expansion;
use crate::library::Library;
use crate::scope::Scope;
use crate::statement::body;
use drawing_tree::Drawing;
use flat_circuit::{Builder, Circuit};
use scald_base::Stop;
use std::alloc::Global;

/// How deep uses of macros may go.
pub const DEEPEST: u32 = 64;

/// The circuit of a drawing: its constants, then its statements in the order of the text, each
/// macro's body at its uses and each FOR's body once for each value, and then the circuit's own
/// rules. A refusal of a constant stands at its word CONST, one of expansion at the statement that
/// is expanded, and that of a rule at the statement whose bit breaks it; `NoMemory` comes if
/// memory runs out.
pub fn expand(alloc: Global, drawing: &Drawing) -> Result<Circuit, Stop>
    requires { IsWellFormed (drawing_of drawing.now) }
    ensures { MatchResult result (IsCircuitOf (drawing_of drawing.now))
        (IsStopOf (drawing_of drawing.now)) }
{
    match expanded(alloc, drawing) {
        Ok(expansion) => expansion.finish(),
        Err(stop) => Err(stop),
    }
}

/// The statements of a drawing, expanded as `expand` does, or their first refusal. Nothing of the
/// drawing is needed after it: if memory counts, the drawing goes before `finish` is called.
pub fn expanded(alloc: Global, drawing: &Drawing) -> Result<Expansion, Stop>
    requires { IsWellFormed (drawing_of drawing.now) }
    ensures { MatchResult result (IsExpansionOf (drawing_of drawing.now))
        (IsStopOf (drawing_of drawing.now)) }
{
    let consts = constants(alloc, &drawing.consts, &drawing.const_places)?;
    let top = Scope::top(alloc, copied_env(alloc, &consts)?);
    let period = drawing.header.period();
    let library = Library::of(alloc, drawing.version, period, consts, &drawing.macros)?;
    let mut expansion = Expansion {
        statements: 0,
        builder: Builder::new(alloc, drawing.header),
    };
    body(
        &mut expansion,
        alloc,
        &library,
        &drawing.body,
        &top,
        DEEPEST,
    )?;
    Ok(expansion)
}

impl Expansion {
    /// The circuit of the drawing that is expanded so, or the refusal of the first rule of circuits
    /// that it breaks.
    pub fn finish(self) -> Result<Circuit, Stop>
        ensures { (d : Drawn) → IsExpansionOf d self →
            MatchResult result (IsCircuitOf d) (IsStopOf d) }
    {
        let Expansion {
            builder,
            statements: _,
        } = self;
        builder.known();
        builder.finish()
    }
}
