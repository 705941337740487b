//! The notes on gates that let a clock through without a mark.

ghost use Rattle.std.specs.Prelude.{◌≡◌, OnOk, length, slice_get};
ghost use Rattle.drawing_omissions.specs.Lines.{Adds};
ghost use Rattle.drawing_notes.specs.Unmarked.{first_at, unmarked_by, unmarked_on, unmarked_pin};

use crate::pins::pin_net;
use drawing_omissions::Notes;
use flat_circuit::Circuit;
use listing::{Piece, instance_piece, net_piece};
use scald_base::NoMemory;

/// The note on the pin at a place of an instance, if it is on a net.
#[tactic(auto, unfolding(crate::specs::Unmarked::unmarked_line))]
fn add_unmarked_on(
    notes: &mut Notes,
    c: &Circuit,
    number: u32,
    place: usize,
    net: Option<u32>,
) -> Result<(), NoMemory>
    ensures { OnOk result (Adds notes.old notes.new (unmarked_on c.now number place net)) }
{
    let Some(net) = net else {
        return Ok(());
    };
    notes.add(&[
        Piece::Text(b"NOTE UNMARKED "),
        instance_piece(c, number),
        Piece::Text(b" PIN "),
        Piece::Number(place as u64),
        Piece::Text(b" "),
        net_piece(c, net),
    ])
}

/// The note on an instance, by the place of the pin that it is about, if there is one.
fn add_unmarked_at(
    notes: &mut Notes,
    c: &Circuit,
    number: u32,
    place: Option<usize>,
) -> Result<(), NoMemory>
    ensures { OnOk result (Adds notes.old notes.new
        (unmarked_pin c.now number (slice_get c.now.instances number) place)) }
{
    let Some(instance) = c.instance(number) else {
        return Ok(());
    };
    match place {
        Some(place) => add_unmarked_on(notes, c, number, place, pin_net(instance, place)),
        None => Ok(()),
    }
}

/// Appends the notes on gates without a hazard mark that let a clock through to storage or a
/// checker, and another pin of which may change in a case in which the clock does, in the order of
/// expansion. `firsts` has the first such pin of each instance. `NoMemory` comes if memory runs
/// out.
pub fn add_unmarked(
    notes: &mut Notes,
    c: &Circuit,
    firsts: &[Option<usize>],
) -> Result<(), NoMemory>
    requires { length firsts.now ≡ length c.now.instances }
    ensures { OnOk result (Adds notes.old notes.new (unmarked_by c.now (first_at firsts.now))) }
{
    for number in 0..c.instance_count() {
        add_unmarked_at(notes, c, number, firsts[number as usize])?;
    }
    Ok(())
}
