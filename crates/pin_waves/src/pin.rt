//! The waves of receiving pins.

ghost use Rattle.std.specs.Prelude.{◌≡◌, IfOk, length};
ghost use Rattle.pin_waves.specs.Pin.{pin_wave, KeepsPin};

use scald_base::{Delay, NoMemory};
use skew_algebra::Skewed;
use std::alloc::Global;
use step_values::Value;
use wave_core::CyclicWave;

/// The wave of a pin on a net with this wave: late by the bounds of the net's wire, and
/// complemented if the pin is marked so.
pub fn pin_wave<W: CyclicWave<Item = Value>>(
    alloc: Global,
    net: &Skewed<W>,
    wire: Delay,
    inverted: bool,
) -> Result<Skewed<W>, NoMemory>
    ensures wave { IfOk result (λ s. s ≡ pin_wave net.now wire inverted) }
    ensures permits { IfOk result (λ s. KeepsPin net.now s wire inverted) }
    ensures sized { IfOk result (λ s. length s.cells ≡ length net.now.cells) }
{
    net.known();
    let late = net.moved(alloc, wire)?;
    if inverted {
        late.flipped(alloc)
    } else {
        Ok(late)
    }
}
