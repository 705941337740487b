//! What is drawn by the next words of a generator.

ghost use Rattle.std.specs.Prelude.{◌≡◌, ◌≤◌};
ghost use Rattle.trace_sim.specs.Draw.{draw_bit, draw_from};

use rand_core::Rng;

/// A number from the least to the greatest, by one word.
pub(crate) fn draw_from<R: Rng>(rng: &mut R, least: u32, greatest: u32) -> u32
    requires { least ≤ greatest }
    ensures is { (result, R.stream rng.new) ≡ draw_from least greatest (R.stream rng.old) }
    ensures within { (least ≤ result) × (result ≤ greatest) }
{
    let count = u64::from(greatest - least) + 1;
    least + (rng.next_u64() % count) as u32
}

/// A bit, by one word.
pub(crate) fn draw_bit<R: Rng>(rng: &mut R) -> bool
    ensures { (result, R.stream rng.new) ≡ draw_bit (R.stream rng.old) }
{
    rng.next_u64() % 2 == 1
}
