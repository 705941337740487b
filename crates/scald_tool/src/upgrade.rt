//! From a text to the text of the same circuit in the last version of the language.

ghost use Rattle.std.specs.Prelude.{◌≡◌, ◌-◌, ◌^◌, ◌<◌, IfOk, length};
ghost use Rattle.drawing_tree.specs.Tree.{drawing_of};
ghost use Rattle.format_upgrade.specs.Upgraded.{upgraded_text};
ghost use Rattle.scald_tool.specs.Answer.{Upgrades};

use drawing_tree::Drawing;
use format_upgrade::upgrade;
use listing::Output;
use program_call::{Reply, refused};
use scald_base::{NoMemory, Outcome, Stop};
use std::alloc::Global;
use timing_analysis::read_text;

/// The upgraded text of a drawing, or the line of its refusal.
pub fn upgrade_text(alloc: Global, text: &[u8]) -> Result<Reply<Outcome>, NoMemory>
    requires { length text.now < 2 ^ 32 - 1 }
    ensures { IfOk result (λ reply. Upgrades text.now reply.outcome reply.bytes) }
{
    match read_text(alloc, text) {
        Ok(drawing) => upgraded(alloc, &drawing),
        Err(Stop::Refused(refusal)) => refused(alloc, refusal),
        Err(Stop::NoMemory) => Err(NoMemory),
    }
}

/// The upgraded text of a drawing.
fn upgraded(alloc: Global, drawing: &Drawing) -> Result<Reply<Outcome>, NoMemory>
    ensures outcome { IfOk result (λ reply. reply.outcome ≡ Outcome.Done) }
    ensures bytes { IfOk result (λ reply. reply.bytes ≡ upgraded_text (drawing_of drawing.now)) }
{
    let bytes = upgrade(alloc, drawing)?;
    Ok(Reply {
        outcome: Outcome::Done,
        bytes: Output::whole(bytes),
    })
}
