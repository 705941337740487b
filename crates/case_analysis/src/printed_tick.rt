//! The printed tick.

ghost use Rattle.std.specs.Prelude.{◌≡◌, ◌+◌, ◌≤◌};
ghost use Rattle.fixpoint_engine.specs.Waves.{target_wire};
ghost use Rattle.fixpoint_engine.specs.Reach.{farthest, greatest_delay, greatest_wire, reach};
ghost use Rattle.case_analysis.specs.Tick.{tick};

use crate::parts::instance_of;
use flat_circuit::{Circuit, Instance, Pin, Target};
use std::cmp::max;

/// The most ticks that the wire takes which leads from what a pin is on; a constant has no wire.
fn longest_wire(c: &Circuit, target: Target) -> u16
    ensures is { result ≡ (target_wire c.now.nets target).max }
    ensures bounded { result ≤ 4095 }
{
    match target {
        Target::Net(net) => match c.net(net) {
            Some(found) => {
                found.wire.known();
                found.wire.max
            }
            None => 0,
        },
        Target::Constant(_) => 0,
    }
}

/// The most ticks that a wire to one of the pins takes.
fn greatest_wire(c: &Circuit, pins: &[Pin]) -> u16
    ensures is { result ≡ greatest_wire c.now.nets pins.now }
    ensures bounded { result ≤ 4095 }
{
    let mut greatest = 0;
    for pin in pins {
        greatest = max(greatest, longest_wire(c, pin.target));
    }
    greatest
}

/// How many ticks an instance looks back, at most: by its own delay, which a checker has not, and
/// by the wires to its pins. With two delays it is the greatest of both, at which `delay` ends.
fn looks_back(c: &Circuit, instance: &Instance) -> u32
    ensures is { result ≡ greatest_delay instance.now + greatest_wire c.now.nets instance.now.pins }
    ensures bounded { result ≤ 8190 }
{
    let wires = greatest_wire(c, instance.pins.as_slice());
    instance.delay.known();
    if instance.kind.has_output() {
        u32::from(instance.delay.max) + u32::from(wires)
    } else {
        u32::from(wires)
    }
}

/// How many ticks later than a round the next one holds: one more than the farthest that any
/// instance looks back, since storage looks at its own output a tick before.
pub fn reach(c: &Circuit) -> u32
    ensures is { result ≡ reach c.now }
    ensures bounded { result ≤ 8191 }
{
    let mut farthest = 0;
    for k in 0..c.instance_count() {
        farthest = max(farthest, looks_back(c, instance_of(c, k)));
    }
    farthest + 1
}

/// The tick from which on the waves of a case may be relied on at each pin, after so many rounds of
/// the base and so many of the case.
pub fn tick(reach: u32, base: u32, rounds: u32) -> u64
    requires reach { reach ≤ 8191 }
    requires base { base ≤ 10000000 }
    requires rounds { rounds ≤ 10000000 }
    ensures { result ≡ tick reach base rounds }
{
    (u64::from(base) + u64::from(rounds) + 1) * u64::from(reach)
}
