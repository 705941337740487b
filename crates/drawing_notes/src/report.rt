//! All notes on a circuit, kind by kind.

ghost use Rattle.std.specs.Prelude.{◌≡◌, ◌++◌, ℕ, Bool, List, OnOk, IfOk};
ghost use Rattle.fixpoint_engine.specs.Waves.{Waves};
ghost use Rattle.timing_analysis.specs.Case.{Case};
ghost use Rattle.drawing_omissions.specs.Lines.{Adds};
ghost use Rattle.drawing_notes.specs.SoFar.{AreLaunches, HoldsOf, ways_of};
ghost use Rattle.drawing_notes.specs.Report.{AreNotes, count_line, path_notes, single_notes};

use crate::drawn::add_drawn;
use crate::reply::Kept;
use crate::{
    SoFar, add_common, add_idle, add_late, add_loops, add_unchecked, add_unclocked, add_unmarked,
    add_unread,
};
use drawing_omissions::Notes;
use flat_circuit::Circuit;
use listing::{Output, Piece, add_line, write_period};
use program_call::{Reply, verdict};
use scald_base::{Bytes, NoMemory, Outcome};
use std::alloc::Global;

/// The most notes that are counted.
const MOST_NOTES: usize = 4_294_967_295;

/// The last line: how many notes there are, or that there is none.
#[tactic(auto, unfolding(crate::specs::Report::count_line))]
fn add_count(out: &mut Bytes, count: usize) -> Result<(), NoMemory>
    ensures { OnOk result (out.new ≡ out.old ++ count_line count) }
{
    if count == 0 {
        add_line(out, &[Piece::Text(b"CLEAN")])
    } else {
        add_line(out, &[Piece::Text(b"NOTES "), Piece::Number(count as u64)])
    }
}

/// The notes on instances and nets, each by itself and by the clocks that come to it.
fn add_single(notes: &mut Notes, alloc: Global, c: &Circuit, so_far: &SoFar) -> Result<(), NoMemory>
    requires { (cases : List Case) × HoldsOf so_far.now c.now cases }
    ensures { OnOk result ((cases : List Case) (launched : Waves → ℕ → ℕ → Bool) →
        HoldsOf so_far.now c.now cases →
        Adds notes.old notes.new (single_notes (ways_of so_far.now launched) c.now cases)) }
{
    add_unclocked(notes, c, &so_far.acts)?;
    add_idle(notes, c)?;
    add_unchecked(notes, alloc, c)?;
    add_unmarked(notes, c, &so_far.gates.firsts)?;
    add_unread(notes, alloc, c)?;
    Ok(())
}

/// The notes on paths between nets, and on what they meet with in waves.
fn add_paths(notes: &mut Notes, alloc: Global, c: &Circuit, so_far: &SoFar) -> Result<(), NoMemory>
    requires { (cases : List Case) × HoldsOf so_far.now c.now cases }
    ensures { OnOk result ((cases : List Case) (launched : Waves → ℕ → ℕ → Bool) →
        HoldsOf so_far.now c.now cases → AreLaunches so_far.now c.now launched →
        Adds notes.old notes.new (path_notes (ways_of so_far.now launched) c.now cases)) }
{
    c.known();
    add_late(notes, c, &so_far.paths.latest)?;
    add_loops(notes, alloc, c, &so_far.paths.parts)?;
    notes.append(&so_far.unknown)?;
    add_common(notes, c, &so_far.paths.ticks)?;
    Ok(())
}

/// The reply with all notes on a circuit, by what is kept of its drawing and what its cases show.
/// Where memory runs out, or there are more notes than numbers of 32 bits, it is `NoMemory`.
pub fn report(
    alloc: Global,
    c: &Circuit,
    kept: &Kept,
    so_far: &SoFar,
) -> Result<Reply<Outcome>, NoMemory>
    requires { (cases : List Case) × HoldsOf so_far.now c.now cases }
    ensures { IfOk result (λ reply. (base : ℕ) (cases : List Case) →
        HoldsOf so_far.now c.now cases →
        AreNotes kept.now c.now base cases reply.outcome reply.bytes) }
{
    let mut bytes = Bytes::new(alloc);
    write_period(c, kept.version, &mut bytes)?;
    let mut notes = Notes::new(bytes);
    add_single(&mut notes, alloc, c, so_far)?;
    add_drawn(&mut notes, alloc, c, kept)?;
    add_paths(&mut notes, alloc, c, so_far)?;
    let count = notes.count();
    if count > MOST_NOTES {
        return Err(NoMemory);
    }
    let mut bytes = notes.into_bytes();
    add_count(&mut bytes, count)?;
    Ok(Reply {
        outcome: verdict(count as u32),
        bytes: Output::whole(bytes),
    })
}
