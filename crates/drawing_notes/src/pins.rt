//! The pins at which storage and checkers of setup and hold have their clock and their input.

ghost use Rattle.std.specs.Prelude.{◌≡◌, slice_get};
ghost use Rattle.listing.specs.Piece.{piece_text};
ghost use Rattle.drawing_notes.specs.Pins.{has_clock, is_inverted, is_latch, is_storage, passes, pin_net, target_net, target_text};

use element_kinds::Form;
use flat_circuit::{Circuit, Instance, Kind, Target};
use listing::{Piece, net_piece};

/// The place of the clock or the enable.
pub const CLOCK: usize = 0;

/// The place of the input.
pub const INPUT: usize = 1;

/// Whether it is a register or a latch.
pub fn is_storage(kind: Kind) -> bool
    ensures { result ≡ is_storage kind }
{
    kind.form().keeps_bit()
}

/// Whether it is a latch.
pub fn is_latch(kind: Kind) -> bool
    ensures { result ≡ is_latch kind }
{
    matches!(kind.form(), Form::Latch(_))
}

/// Whether it is a gate or a change function.
pub fn passes(kind: Kind) -> bool
    ensures { result ≡ passes kind }
{
    kind.form().is_memoryless()
}

/// Whether it has a clock, or an enable, and an input.
pub fn has_clock(kind: Kind) -> bool
    ensures { result ≡ has_clock kind }
{
    is_storage(kind) || kind.checks_points()
}

/// The net of a target, if it is one.
pub fn target_net(target: Target) -> Option<u32>
    ensures { result ≡ target_net target }
{
    match target {
        Target::Net(net) => Some(net),
        Target::Constant(_) => None,
    }
}

/// The net that the pin at a place is on.
pub fn pin_net(instance: &Instance, place: usize) -> Option<u32>
    ensures { result ≡ pin_net (slice_get instance.now.pins place) }
{
    match instance.pins.get(place) {
        Some(pin) => target_net(pin.target),
        None => None,
    }
}

/// Whether the pin at a place is complemented.
pub fn is_inverted(instance: &Instance, place: usize) -> bool
    ensures { result ≡ is_inverted (slice_get instance.now.pins place) }
{
    match instance.pins.get(place) {
        Some(pin) => pin.inverted,
        None => false,
    }
}

/// What a pin is on, as a line names it.
pub fn target_piece(c: &Circuit, target: Target) -> Piece<'_>
    ensures { piece_text result ≡ target_text c.now target }
{
    match target {
        Target::Net(net) => net_piece(c, net),
        Target::Constant(true) => Piece::Text(b"ONE"),
        Target::Constant(false) => Piece::Text(b"ZERO"),
    }
}
