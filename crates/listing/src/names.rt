//! How the report names nets and instances.

ghost use Rattle.std.specs.Prelude.{◌≡◌, ◌<◌, length};
ghost use Rattle.flat_circuit.specs.Name.{net_at};
ghost use Rattle.listing.specs.Names.{instance_text, net_text};
ghost use Rattle.listing.specs.Piece.{piece_text};

use crate::piece::Piece;
use flat_circuit::Circuit;

/// The number of the net at a place, from 0, in name order.
pub fn net_at(c: &Circuit, place: u32) -> u32
    requires { place < length c.now.order }
    ensures { result ≡ net_at c.now.order place }
{
    c.by_name(place).unwrap()
}

/// A net, by its number. What is past the last net has no name.
pub fn net_piece(c: &Circuit, net: u32) -> Piece<'_>
    ensures { piece_text result ≡ net_text c.now net }
{
    match c.net(net) {
        Some(found) => Piece::Bit(found.name.as_slice(), found.bit),
        None => Piece::Bit(&[], 0),
    }
}

/// An instance, by its number. What is past the last instance has no name.
pub fn instance_piece(c: &Circuit, instance: u32) -> Piece<'_>
    ensures { piece_text result ≡ instance_text c.now instance }
{
    match c.instance(instance) {
        Some(found) => Piece::Bit(found.path.as_slice(), found.bit),
        None => Piece::Bit(&[], 0),
    }
}
