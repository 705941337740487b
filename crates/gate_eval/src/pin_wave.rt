//! The waves at the pins of an element.

ghost use Rattle.std.specs.Prelude.{◌≡◌, length};
ghost use Rattle.wave_core.specs.Slots.{IsPeriod};
ghost use Rattle.skew_algebra.specs.Wave.{IsNormal};

use scald_base::List;
use skew_algebra::Skewed;
use wave_core::CyclicWave;

/// What a pin shows: its net's wave, moved by the wire and complemented if the pin is marked so.
#[derive(Drop)]
pub struct PinWave<W: CyclicWave> {
    /// The wave at the pin.
    pub wave: Skewed<W>,
    /// Whether the other pins are to stay as they are while this one lets them through.
    pub hold: bool,
    ghost normal: { IsNormal W.Item.kind wave },
    ghost sized: { IsPeriod (length wave.cells) },
}

impl<W: CyclicWave> PinWave<W> {
    /// A pin that shows this wave, and whether the other pins are to stay as they are.
    pub fn new(wave: Skewed<W>, hold: bool) -> PinWave<W>
        ensures wave { result.wave ≡ wave }
        ensures hold { result.hold ≡ hold }
    {
        wave.known();
        PinWave { wave, hold }
    }
}

/// The waves at the pins of one element, in the order of its pins.
pub type PinWaves<W> = List<PinWave<W>>;
