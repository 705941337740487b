//! The notes on loops.

ghost use Rattle.std.specs.Prelude.{◌≡◌, ◌<◌, ◌^◌, IfOk, OnOk, length};
ghost use Rattle.drawing_notes.specs.Loops.{loops};
ghost use Rattle.drawing_notes.specs.Parts.{AreInside, AreSizes, part_at, together};
ghost use Rattle.drawing_omissions.specs.Lines.{Adds};

use crate::loops::Part;
use drawing_omissions::Notes;
use fixpoint_engine::NetSet;
use flat_circuit::Circuit;
use listing::{Piece, net_piece};
use scald_base::NoMemory;
use std::alloc::Global;

/// The part of a net. Past the last net there is none.
pub fn part_at(parts: &[Part], net: u32) -> Part
    ensures { result ≡ part_at parts.now net }
{
    match parts.get(net as usize) {
        Some(part) => *part,
        None => None,
    }
}

/// How many nets are on the loop that goes by each net.
fn sizes(alloc: Global, parts: &[Part]) -> Result<Vec<u32>, NoMemory>
    requires few { length parts.now < 2 ^ 32 }
    requires inside { AreInside (length parts.now) parts.now }
    ensures long { IfOk result (λ sizes. length sizes.items ≡ length parts.now) }
    ensures are { IfOk result (λ sizes. AreSizes (length parts.now) parts.now sizes.items) }
{
    let mut sizes = vec![in alloc; 0; parts.len()]?;
    for net in 0..parts.len() {
        if let Some(root) = parts[net] {
            sizes[root as usize] += 1;
        }
    }
    Ok(sizes)
}

/// The notes on loops through gates and change functions, each by the first of its nets, in name
/// order.
#[tactic(auto, unfolding(crate::specs::Loops::loop_line))]
pub fn add_loops(
    notes: &mut Notes,
    alloc: Global,
    c: &Circuit,
    parts: &[Part],
) -> Result<(), NoMemory>
    requires each_net { length parts.now ≡ length c.now.nets }
    requires inside { AreInside (length c.now.nets) parts.now }
    ensures { OnOk result (Adds notes.old notes.new (loops c.now (together parts.now))) }
{
    c.known();
    let sizes = sizes(alloc, parts)?;
    let mut noted = NetSet::new(alloc, c.net_count())?;
    for place in 0..c.net_count() {
        let net = c.net_at(place);
        if let Some(root) = part_at(parts, net) {
            if !noted.has(root) {
                noted.add(root);
                notes.add(&[
                    Piece::Text(b"NOTE LOOP "),
                    net_piece(c, net),
                    Piece::Text(b" NETS "),
                    Piece::Number(u64::from(sizes[root as usize])),
                ])?;
            }
        }
    }
    Ok(())
}
