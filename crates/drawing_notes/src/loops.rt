//! The loops through gates and change functions.

ghost use Rattle.std.specs.Prelude.{◌≡◌, ◌<◌, ◌==◌, ◌&&◌, ℕ, Bool, IfOk, OnOk, not, length, false, true, replicate, slice_index_or, None, Option, if◌then◌else◌};
ghost use Rattle.std.specs.List.{All, list_any};
ghost use Rattle.fixpoint_engine.specs.Settled.{marked_in};
ghost use Rattle.fixpoint_engine.specs.Worklist.{among};
ghost use Rattle.drawing_notes.specs.Parts.{AreInside, ArePartly, part_at, together};
ghost use Rattle.drawing_notes.specs.Paths.{TellsLoops};

use crate::found::{Found, is_led_to};
use crate::left::left;
use fixpoint_engine::NetSet;
use flat_circuit::Circuit;
use scald_base::NoMemory;
use std::alloc::Global;

/// A net of the loop that a net is on, the same for all of its nets; `None` if the net is on no
/// loop.
pub type Part = Option<u32>;

/// All nets.
fn all(alloc: Global, c: &Circuit) -> Result<NetSet, NoMemory>
    ensures each_net { IfOk result (λ set. length set ≡ length c.now.nets) }
    ensures all { IfOk result (λ set. (i : ℕ) → i < length c.now.nets → marked_in set i ≡ true) }
{
    let mut set = NetSet::new(alloc, c.net_count())?;
    for net in 0..c.net_count() {
        set.add(net);
    }
    Ok(set)
}

/// So many nets, of which no part is known.
fn no_parts(alloc: Global, nets: u32) -> Result<Vec<Part>, NoMemory>
    ensures { IfOk result (λ parts. parts.items ≡ replicate nets None) }
{
    let parts = vec![in alloc; None; nets as usize]?;
    Ok(parts)
}

/// Gives nets their part, and takes them out of those whose part is not known.
fn settle(fresh: &mut NetSet, parts: &mut [Part], nets: &[u32], part: Part)
    requires fresh { All (λ net. net < length fresh.old) nets.now }
    requires parts { All (λ net. net < length parts.old) nets.now }
    ensures each_net { length fresh.new ≡ length fresh.old }
    ensures each_part { length parts.new ≡ length parts.old }
    ensures settled { (i : ℕ) → marked_in fresh.new i
        ≡ (marked_in fresh.old i && not (among nets.now i)) }
    ensures given { (i : ℕ) → part_at parts.new i
        ≡ (if among nets.now i then part else part_at parts.old i) }
{
    for net in nets {
        fresh.remove(*net);
        parts[*net as usize] = part;
    }
}

/// What the search for one loop after the other needs: the nets that are reached from one net, and
/// those of them that also lead back to it. Both are empty between two searches.
#[derive(Drop)]
struct Search {
    reached: Found,
    shared: Found,
}

/// Finds the part of a net, and of all nets of that part.
fn know(
    c: &Circuit,
    search: &mut Search,
    fresh: &mut NetSet,
    parts: &mut [Part],
    root: u32,
) -> Result<(), NoMemory>
    requires partly { ArePartly c.now fresh.old parts.old }
    requires root { root < length c.now.nets }
    requires reached { search.old.reached.marks ≡ replicate (length c.now.nets) false }
    requires shared { search.old.shared.marks ≡ replicate (length c.now.nets) false }
    ensures partly { OnOk result (ArePartly c.now fresh.new parts.new) }
    ensures root { OnOk result (marked_in fresh.new root ≡ false) }
    ensures stays { OnOk result ((i : ℕ) → marked_in fresh.old i ≡ false →
        marked_in fresh.new i ≡ false) }
    ensures reached { OnOk result (search.new.reached.marks ≡ replicate (length c.now.nets) false) }
    ensures shared { OnOk result (search.new.shared.marks ≡ replicate (length c.now.nets) false) }
{
    if !fresh.has(root) {
        return Ok(());
    }
    search.reached.add(root)?;
    search.reached.follow(c, fresh)?;
    search.shared.add(root)?;
    search.shared.trace(c, search.reached.set())?;
    let part = if is_led_to(c, search.shared.set(), root) {
        Some(root)
    } else {
        None
    };
    settle(fresh, parts, search.shared.nets(), part);
    search.reached.clear();
    search.shared.clear();
    Ok(())
}

/// The part of each net: two nets have one part exactly if each of them leads to the other
/// through gates and change functions, and a net has one exactly if it leads to itself.
pub fn parts(alloc: Global, c: &Circuit) -> Result<Vec<Part>, NoMemory>
    ensures each_net { IfOk result (λ parts. length parts.items ≡ length c.now.nets) }
    ensures inside { IfOk result (λ parts. AreInside (length c.now.nets) parts.items) }
    ensures are { IfOk result (λ parts. TellsLoops c.now (together parts.items)) }
{
    let left = left(alloc, c)?;
    let mut fresh = all(alloc, c)?;
    let mut parts = no_parts(alloc, c.net_count())?;
    let mut search = Search {
        reached: Found::new(alloc, c.net_count())?,
        shared: Found::new(alloc, c.net_count())?,
    };
    // Where the net that was left last comes first, nothing is reached that is not on its own loop.
    let mut place = left.len();
    'left: while place > 0 {
        place -= 1;
        let root = left[place];
        if root < c.net_count() {
            know(c, &mut search, &mut fresh, &mut parts, root)?;
        }
    }
    for root in 0..c.net_count() {
        know(c, &mut search, &mut fresh, &mut parts, root)?;
    }
    Ok(parts)
}
