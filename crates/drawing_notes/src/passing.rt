//! What passes on a change in a case: which nets do, and which pins of gates and change functions
//! are open.

ghost use Rattle.std.specs.Prelude.{◌≡◌, ◌-◌, ◌<◌, ◌≤◌, ℕ, Some, length};
ghost use Rattle.std.specs.List.{All};
ghost use Rattle.flat_circuit.specs.Instances.{PinExists};
ghost use Rattle.fixpoint_engine.specs.Waves.{waves_of};
ghost use Rattle.drawing_notes.specs.Passing.{delay_to as spec_delay_to, is_heard as spec_is_heard, is_shut as spec_is_shut, keeps_direction as spec_keeps_direction, makes as spec_makes, shows as spec_shows, shuts as spec_shuts, span as spec_span, takes as spec_takes, turned_if as spec_turned_if};

use crate::searching::has_other;
// a set of numbers: here of instances too
use fixpoint_engine::{NetSet, NetSet as InstanceSet, Waves};
use flat_circuit::{Circuit, Instance, Kind, Pin, Target};
use step_values::Value;
use wave_core::CyclicWave;

/// The settled waves of a case of a circuit, and what they show.
#[derive(Drop)]
pub struct View<'a, W: CyclicWave<Item = Value>> {
    pub circuit: &'a Circuit,
    pub waves: &'a Waves<'a, W>,
    /// The nets that pass something on.
    pub within: &'a NetSet,
    /// The instances with a mark whose rule holds.
    pub held: &'a InstanceSet,
}

/// A bit, or its complement.
fn turned_if(inverted: bool, bit: bool) -> bool
    ensures { result ≡ spec_turned_if inverted bit }
{
    if inverted { !bit } else { bit }
}

/// How many pieces of data stand together at a select, by how many selects follow it.
fn span(after: usize) -> usize
    ensures is { result ≡ spec_span after }
    ensures some { 0 < result }
{
    match after {
        0 => 1,
        1 => 2,
        _ => 4,
    }
}

/// The bit of a select at which it takes the data of this number.
fn takes(after: usize, number: usize) -> bool
    ensures { result ≡ spec_takes after number }
{
    (number / span(after)) % 2 == 1
}

/// Whether a pin shows this bit in each slot.
fn shows<W: CyclicWave<Item = Value>>(waves: &Waves<W>, bit: bool, pin: Pin) -> bool
    requires { PinExists (length waves.now) pin }
    ensures { result ≡ spec_shows (waves_of waves.now) bit (Some pin) }
{
    let bit = turned_if(pin.inverted, bit);
    match pin.target {
        Target::Net(net) => !has_other(bit, waves.at(net).wave()),
        Target::Constant(one) => one == bit,
    }
}

/// Whether the select at a place excludes the data of this number.
fn shuts<W: CyclicWave<Item = Value>>(
    waves: &Waves<W>,
    instance: &Instance,
    number: usize,
    place: usize,
) -> bool
    requires exist { All (PinExists (length waves.now)) instance.now.pins }
    ensures { result ≡ spec_shuts (waves_of waves.now) instance.now number place }
{
    let selects = instance.kind.selects();
    let after = if place < selects {
        selects - 1 - place
    } else {
        0
    };
    match instance.pins.get(place) {
        Some(pin) => shows(waves, !takes(after, number), *pin),
        None => false,
    }
}

/// Whether the pin at a place is data that some select excludes.
fn is_shut<W: CyclicWave<Item = Value>>(waves: &Waves<W>, instance: &Instance, place: usize) -> bool
    requires exist { All (PinExists (length waves.now)) instance.now.pins }
    ensures { result ≡ spec_is_shut (waves_of waves.now) instance.now place }
{
    let selects = instance.kind.selects();
    if place < selects {
        return false;
    }
    for select in 0..selects {
        if shuts(waves, instance, place - selects, select) {
            return true;
        }
    }
    false
}

/// Whether the pin at a place is heard, by whether the rule of a mark of its instance holds.
pub(crate) fn is_heard<W: CyclicWave<Item = Value>>(
    held: bool,
    waves: &Waves<W>,
    instance: &Instance,
    place: usize,
    pin: Pin,
) -> bool
    requires exist { All (PinExists (length waves.now)) instance.now.pins }
    ensures { result ≡ spec_is_heard held (waves_of waves.now) instance.now place pin }
{
    (pin.hold || !held) && !is_shut(waves, instance, place)
}

/// Whether the output of a kind rises with rises of its pins alone, selects left aside.
fn keeps_direction(kind: Kind) -> bool
    ensures { result ≡ spec_keeps_direction kind }
{
    matches!(
        kind,
        Kind::Buf | Kind::And | Kind::Or | Kind::Mux2 | Kind::Mux4 | Kind::Mux8
    )
}

/// Whether the pin at a place makes of a rise or a fall of its net this change of the output's net.
pub(crate) fn makes(instance: &Instance, place: usize, pin: Pin, before: bool, rise: bool) -> bool
    ensures { result ≡ spec_makes instance.now place pin before rise }
{
    let keeps = keeps_direction(instance.kind) && instance.kind.selects() <= place;
    !keeps || turned_if(pin.inverted, before) == turned_if(instance.out_inverted, rise)
}

/// The greatest delay to a rise or a fall of the net that an instance drives, in ticks.
pub(crate) fn delay_to(rise: bool, instance: &Instance) -> u16
    ensures { result ≡ spec_delay_to rise instance.now }
{
    let rises = turned_if(instance.out_inverted, rise);
    match instance.split {
        Some(split) if instance.kind.may_split() => {
            if rises {
                split.rise.max
            } else {
                split.fall.max
            }
        }
        _ => instance.delay.max,
    }
}
