//! The reply to a text.

ghost use Rattle.std.specs.Prelude.{◌≡◌, ◌≤◌, ◌++◌, OnOk, IfOk, length};
ghost use Rattle.netlist_import.specs.Answer.{Imported, most_bytes, refusal_line, text_of};

use crate::forms::Command;
use crate::library::{add_cells, add_design};
use crate::netlist::Netlist;
use crate::outcome::ImportOutcome;
use crate::read::{NetlistEnd, NetlistRefusal, read_netlist};
use crate::text::add_number;
use listing::Output;
use program_call::Reply;
use scald_base::{Bytes, NoMemory};
use std::alloc::Global;

/// Puts the line of a refused text at the end of `out`.
#[tactic(auto, unfolding(crate::specs::Answer::refusal_line))]
fn add_refusal(out: &mut Bytes, refusal: NetlistRefusal) -> Result<(), NoMemory>
    ensures { OnOk result (out.new ≡ out.old ++ refusal_line refusal) }
{
    out.extend(b"REFUSED ")?;
    add_number(out, usize::from(refusal.kind.number()))?;
    out.push(b' ')?;
    out.extend(refusal.kind.name().as_bytes())?;
    out.push(b' ')?;
    add_number(out, refusal.place.line as usize)?;
    out.push(b':')?;
    add_number(out, refusal.place.col as usize)?;
    out.push(b'\n')
}

/// The line of a refused text.
fn refusal_line(alloc: Global, refusal: NetlistRefusal) -> Result<Bytes, NoMemory>
    ensures { IfOk result (λ line. line ≡ refusal_line refusal) }
{
    let mut out = Bytes::new(alloc);
    add_refusal(&mut out, refusal)?;
    Ok(out)
}

/// Puts the macros of a netlist at the end of `out`.
fn add_macros(
    alloc: Global,
    out: &mut Bytes,
    command: Command,
    netlist: &Netlist,
) -> Result<(), NoMemory>
    ensures { OnOk result (out.new ≡ out.old ++ text_of command netlist.now) }
{
    match command {
        Command::Design => add_design(alloc, out, netlist.as_slice()),
        Command::Cells => add_cells(alloc, out, netlist.as_slice()),
    }
}

/// The macros of a netlist.
fn macros(alloc: Global, command: Command, netlist: &Netlist) -> Result<Bytes, NoMemory>
    ensures { IfOk result (λ text. text ≡ text_of command netlist.now) }
{
    let mut out = Bytes::new(alloc);
    add_macros(alloc, &mut out, command, netlist)?;
    Ok(out)
}

/// What is answered to a text.
pub(crate) fn answer(
    alloc: Global,
    command: Command,
    text: &[u8],
) -> Result<Reply<ImportOutcome>, NoMemory>
    requires { length text.now ≤ most_bytes }
    ensures { IfOk result (λ reply. Imported command text.now reply.outcome reply.bytes) }
{
    match read_netlist(alloc, text) {
        Ok(netlist) => Ok(Reply {
            outcome: ImportOutcome::Done,
            bytes: Output::whole(macros(alloc, command, &netlist)?),
        }),
        Err(NetlistEnd::Refused(refusal)) => Ok(Reply {
            outcome: ImportOutcome::Refused(refusal),
            bytes: Output::whole(refusal_line(alloc, refusal)?),
        }),
        Err(NetlistEnd::NoMemory) => Err(NoMemory),
    }
}
