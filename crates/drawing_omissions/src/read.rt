//! Nets that a pin is on.

ghost use Rattle.std.specs.Prelude.{◌≡◌, ◌∷◌, [], IfOk, length};
ghost use Rattle.std.specs.List.{All};
ghost use Rattle.flat_circuit.specs.Instances.{PinExists, pins_at};
ghost use Rattle.drawing_omissions.specs.Read.{AreRead, MarksPins};

use fixpoint_engine::NetSet;
use flat_circuit::{Circuit, Pin, Target};
use scald_base::NoMemory;
use std::alloc::Global;

/// Puts the net that a pin is on into a set.
fn mark_pin(read: &mut NetSet, pin: Pin)
    requires { PinExists (length read.old) pin }
    ensures { MarksPins (pin ∷ []) read.old read.new }
{
    if let Target::Net(net) = pin.target {
        read.add(net);
    }
}

/// Puts the nets that pins are on into a set.
fn mark(read: &mut NetSet, pins: &[Pin])
    requires { All (PinExists (length read.old)) pins.now }
    ensures { MarksPins pins.now read.old read.new }
{
    for pin in pins {
        mark_pin(read, *pin);
    }
}

/// Puts the nets that the pins of an instance are on into a set.
fn mark_instance(read: &mut NetSet, c: &Circuit, number: u32)
    requires { length read.old ≡ length c.now.nets }
    ensures { MarksPins (pins_at c.now.instances number) read.old read.new }
{
    c.known();
    if let Some(instance) = c.instance(number) {
        mark(read, instance.pins.as_slice());
    }
}

/// The nets that some pin is on, of elements and of checkers. `NoMemory` comes if memory runs
/// out.
pub fn read_nets(alloc: Global, c: &Circuit) -> Result<NetSet, NoMemory>
    ensures { IfOk result (AreRead c.now.instances) }
{
    let mut read = NetSet::new(alloc, c.net_count())?;
    for number in 0..c.instance_count() {
        mark_instance(&mut read, c, number);
    }
    Ok(read)
}
