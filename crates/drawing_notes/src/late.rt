//! Paths that take longer than a period.

ghost use Rattle.std.specs.Prelude.{◌≡◌, ◌*◌, ◌^◌, OnOk};
ghost use Rattle.drawing_notes.specs.Arrivals.{AreUpTo, arrival_at};
ghost use Rattle.drawing_notes.specs.Late.{late, late_at, late_on};
ghost use Rattle.drawing_omissions.specs.Lines.{Adds};

use crate::launched::{Arrival, arrival_at, behind_wire};
use crate::pins::{passes, pin_net};
use drawing_omissions::Notes;
use flat_circuit::Circuit;
use listing::{Piece, instance_piece, net_piece};
use scald_base::NoMemory;

/// The note on a pin, if what comes there takes longer than a period.
#[tactic(auto, unfolding(crate::specs::Late::late_line))]
fn add_late_on(
    notes: &mut Notes,
    c: &Circuit,
    arrivals: &[Option<Arrival>],
    number: u32,
    place: usize,
    net: Option<u32>,
) -> Result<(), NoMemory>
    requires { AreUpTo (131070 * 2 ^ 32) arrivals.now }
    ensures { OnOk result (Adds notes.old notes.new
        (late_on c.now (arrival_at arrivals.now) number place net)) }
{
    let Some(net) = net else {
        return Ok(());
    };
    let Some(arrival) = arrival_at(arrivals, net) else {
        return Ok(());
    };
    let arrival = behind_wire(c, net, arrival);
    if u64::from(c.header().period()) < arrival.ticks {
        notes.add(&[
            Piece::Text(b"NOTE LATE "),
            instance_piece(c, number),
            Piece::Text(b" PIN "),
            Piece::Number(place as u64),
            Piece::Text(b" "),
            net_piece(c, net),
            Piece::Text(b" TICKS "),
            Piece::Number(arrival.ticks),
            Piece::Text(b" FROM "),
            instance_piece(c, arrival.storage),
        ])?;
    }
    Ok(())
}

/// The notes on the pins of an instance, if it is storage or a checker.
fn add_late_at(
    notes: &mut Notes,
    c: &Circuit,
    arrivals: &[Option<Arrival>],
    number: u32,
) -> Result<(), NoMemory>
    requires { AreUpTo (131070 * 2 ^ 32) arrivals.now }
    ensures { OnOk result (Adds notes.old notes.new
        (late_at c.now (arrival_at arrivals.now) number)) }
{
    let Some(instance) = c.instance(number) else {
        return Ok(());
    };
    if passes(instance.kind) {
        return Ok(());
    }
    for place in 0..instance.pins.len() {
        add_late_on(notes, c, arrivals, number, place, pin_net(instance, place))?;
    }
    Ok(())
}

/// The notes on pins of storage and of checkers that what storage launches reaches after more than
/// a period, in the order of expansion.
pub fn add_late(
    notes: &mut Notes,
    c: &Circuit,
    arrivals: &[Option<Arrival>],
) -> Result<(), NoMemory>
    requires { AreUpTo (131070 * 2 ^ 32) arrivals.now }
    ensures { OnOk result (Adds notes.old notes.new (late c.now (arrival_at arrivals.now))) }
{
    for number in 0..c.instance_count() {
        add_late_at(notes, c, arrivals, number)?;
    }
    Ok(())
}
