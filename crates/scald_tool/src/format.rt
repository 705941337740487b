//! From a text to the canonical text of its drawing.

ghost use Rattle.std.specs.Prelude.{◌≡◌, ◌-◌, ◌^◌, ◌<◌, IfOk, length};
ghost use Rattle.drawing_tree.specs.Tree.{drawing_of};
ghost use Rattle.drawing_tree.specs.Canonical.{canonical};
ghost use Rattle.scald_tool.specs.Answer.{Formatted};

use drawing_tree::{Drawing, print_drawing};
use listing::Output;
use program_call::{Reply, refused};
use scald_base::{NoMemory, Outcome, Stop};
use std::alloc::Global;
use timing_analysis::read_text;

/// The canonical text of a drawing, or the line of its refusal.
pub fn format(alloc: Global, text: &[u8]) -> Result<Reply<Outcome>, NoMemory>
    requires { length text.now < 2 ^ 32 - 1 }
    ensures { IfOk result (λ reply. Formatted text.now reply.outcome reply.bytes) }
{
    match read_text(alloc, text) {
        Ok(drawing) => formatted(alloc, &drawing),
        Err(Stop::Refused(refusal)) => refused(alloc, refusal),
        Err(Stop::NoMemory) => Err(NoMemory),
    }
}

/// The canonical text of a drawing.
fn formatted(alloc: Global, drawing: &Drawing) -> Result<Reply<Outcome>, NoMemory>
    ensures outcome { IfOk result (λ reply. reply.outcome ≡ Outcome.Done) }
    ensures bytes { IfOk result (λ reply. reply.bytes ≡ canonical (drawing_of drawing.now)) }
{
    let bytes = print_drawing(alloc, drawing)?;
    Ok(Reply {
        outcome: Outcome::Done,
        bytes: Output::whole(bytes),
    })
}
