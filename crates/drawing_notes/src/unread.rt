//! Driven nets that nothing reads.

ghost use Rattle.std.specs.Prelude.{◌≡◌, slice_get, OnOk};
ghost use Rattle.drawing_omissions.specs.Lines.{Adds};
ghost use Rattle.drawing_omissions.specs.Read.{AreRead};
ghost use Rattle.drawing_notes.specs.Unread.{is_plain_output, is_unread, unread, unread_at};

use drawing_omissions::{Notes, read_nets};
use fixpoint_engine::NetSet;
use flat_circuit::Circuit;
use listing::{Piece, net_piece};
use scald_base::{AssertSpec, NoMemory};
use std::alloc::Global;

/// Whether the net is driven and nothing is asserted of it.
fn is_plain_output(c: &Circuit, net: u32) -> bool
    ensures { result ≡ is_plain_output (slice_get c.now.nets net) }
{
    match c.net(net) {
        Some(found) => found.driver.is_some()
            && matches!(found.spec.or(&AssertSpec::None), AssertSpec::None),
        None => false,
    }
}

/// Whether the net is such a net, and no pin is on it.
fn is_unread(c: &Circuit, read: &NetSet, net: u32) -> bool
    requires { AreRead c.now.instances read.now }
    ensures { result ≡ is_unread c.now net }
{
    is_plain_output(c, net) && !read.has(net)
}

/// The note on a net, if nothing reads it.
#[tactic(auto, unfolding(crate::specs::Unread::unread_line))]
fn add_unread_at(notes: &mut Notes, c: &Circuit, read: &NetSet, net: u32) -> Result<(), NoMemory>
    requires { AreRead c.now.instances read.now }
    ensures { OnOk result (Adds notes.old notes.new (unread_at c.now net)) }
{
    if is_unread(c, read, net) {
        notes.add(&[Piece::Text(b"NOTE UNREAD "), net_piece(c, net)])?;
    }
    Ok(())
}

/// The notes on driven nets without an assertion that no pin is on, in name order.
pub fn add_unread(notes: &mut Notes, alloc: Global, c: &Circuit) -> Result<(), NoMemory>
    ensures { OnOk result (Adds notes.old notes.new (unread c.now)) }
{
    c.known();
    let read = read_nets(alloc, c)?;
    for place in 0..c.net_count() {
        add_unread_at(notes, c, &read, c.net_at(place))?;
    }
    Ok(())
}
