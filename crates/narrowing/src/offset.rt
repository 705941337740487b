//! The halves of a clock's offset.

ghost use Rattle.std.specs.Prelude.{◌≡◌, IsTrue};
ghost use Rattle.narrowing.specs.Tree.{AreHalves, HalvesOffset, offset_bounds};

use crate::moved::most_late;
use crate::part::{Late, Part, offset_in};
use flat_circuit::Circuit;
use scald_base::{AssertSpec, ClockSpec, Header};

/// By how many ticks a clock may be late: by those that are given, or else by all that it has.
pub fn bounds_left(h: &Header, clock: &ClockSpec, given: Option<Late>) -> (u32, u32)
    ensures least { result.0 ≡ (offset_bounds h.now clock.now given).min }
    ensures greatest { result.1 ≡ (offset_bounds h.now clock.now given).max }
{
    match given {
        Some(bounds) => (u32::from(bounds.min), u32::from(bounds.max)),
        None => (0, most_late(h, clock)),
    }
}

/// Whether two intervals are the halves of those bounds.
fn are_late_halves(
    h: &Header,
    clock: &ClockSpec,
    given: Option<Late>,
    lower: Late,
    upper: Late,
) -> bool
    ensures { IsTrue result → AreHalves (offset_bounds h.now clock.now given) lower.min lower.max
        upper.min upper.max }
{
    let (least, greatest) = bounds_left(h, clock, given);
    u32::from(lower.min) == least
        && lower.min <= lower.max
        && u32::from(upper.min) == u32::from(lower.max) + 1
        && lower.max < upper.max
        && u32::from(upper.max) == greatest
}

/// Whether two intervals are the halves of the offset that a narrowing leaves a clock.
pub fn are_offsets(c: &Circuit, parts: &[Part], net: u32, lower: Late, upper: Late) -> bool
    ensures { IsTrue result →
        HalvesOffset c.now parts.now net lower.min lower.max upper.min upper.max }
{
    let Some(found) = c.net(net) else {
        return false;
    };
    let nothing = AssertSpec::None;
    match found.spec.or(&nothing) {
        AssertSpec::Precision(clock) => {
            found.driver.is_none()
                && are_late_halves(c.header(), clock, offset_in(net, parts), lower, upper)
        }
        _ => false,
    }
}
