//! What an evaluation depends on.

ghost use Rattle.std.specs.Prelude.{◌≡◌, ◌<◌, IfOk, if◌then◌else◌, List, length, map};
ghost use Rattle.std.specs.List.{All};
ghost use Rattle.step_values.specs.declared.value.Value.{Value as OfValues};
ghost use Rattle.skew_algebra.specs.Wave.{Wave};
ghost use Rattle.flat_circuit.specs.Instances.{PinExists, TargetExists};
ghost use Rattle.fixpoint_engine.specs.Table.{AreKnown, Grows, wave_at, waves_at};
ghost use Rattle.fixpoint_engine.specs.Waves.{pin_wave as wave_shown, target_wave, waves_of};
ghost use Rattle.fixpoint_engine.specs.Key.{AreConstants, IsKeyOf, pin_word, shown_by};

use crate::{Evaluated, Evaluations, wire_behind};
use element_kinds::Kind;
use flat_circuit::{Circuit, Instance, Pin, ShortList, Target};
use pin_waves::constant_wave;
use scald_base::{Delay, Header, NoMemory};
use std::alloc::Global;
use std::hash::{Hash, Hasher};
use step_values::Value;
use wave_core::CyclicWave;

/// A pin of an element: the number of the wave of what it is on, the bounds of the wire that leads
/// from there, in ticks, whether it shows the complement, and whether it is marked `!H`.
#[derive(Clone, Copy, PartialEq, Eq, Drop)]
pub struct KeyPin {
    pub wave: u32,
    pub least: u16,
    pub greatest: u16,
    pub inverted: bool,
    pub hold: bool,
}

impl KeyPin {
    /// The wave and the complement as one number, which a hasher takes at once.
    fn word(&self) -> u64
        ensures { result ≡ pin_word self.now }
    {
        u64::from(self.wave) * 2 + u64::from(self.inverted)
    }
}

impl Hash for KeyPin {
    ghost use Rattle.std.proofs.Common.{ap};
    ghost use Rattle.fixpoint_engine.specs.Key.{pin_fed};
    ghost use Rattle.fixpoint_engine.specs.SameKey.{pin_is};

    ghost hash_input = { pin_fed };

    ghost respects_eq = { λ p q e. ap pin_fed (pin_is p q e) };

    fn hash<H: Hasher>(&self, state: &mut H) {
        state.write_u64(self.word());
    }
}

/// What the output of an element depends on. With two delays the bounds of each stand here, and
/// else 0; the least and the greatest delay are then those of both. Most elements have one pin or
/// two, whose key needs no allocation.
#[derive(PartialEq, Eq, Drop)]
pub struct Key {
    pub kind: Kind,
    pub least: u16,
    pub greatest: u16,
    pub split: bool,
    pub rise_least: u16,
    pub rise_greatest: u16,
    pub fall_least: u16,
    pub fall_greatest: u16,
    pub inverted: bool,
    pub pins: ShortList<KeyPin>,
}

/// What a key takes beside its pins, in words of four bytes, and what each pin takes.
const KEY_WORDS: usize = 32;

const PIN_WORDS: usize = 3;

impl Key {
    /// How many words of four bytes it takes, with its place in a store.
    pub fn words(&self) -> usize {
        KEY_WORDS.saturating_add(self.pins.len().saturating_mul(PIN_WORDS))
    }
}

impl Hash for Key {
    ghost use Rattle.std.proofs.Common.{ap};
    ghost use Rattle.fixpoint_engine.specs.Key.{key_fed};
    ghost use Rattle.fixpoint_engine.specs.SameKey.{same_key};

    ghost hash_input = { key_fed };

    ghost respects_eq = { λ j k e. ap key_fed (same_key j k e) };

    fn hash<H: Hasher>(&self, state: &mut H) {
        let least = self.least;
        let greatest = self.greatest;
        state.write_u32(u32::from(least) * 65_536 + u32::from(greatest));
        self.pins.as_slice().hash(state);
    }
}

impl Evaluated for Key {
    ghost use Rattle.fixpoint_engine.specs.Key.{key_makes, key_reads};
    ghost use Rattle.fixpoint_engine.specs.SameKey.{same_key};

    ghost reads = { key_reads };

    ghost makes = { key_makes };

    ghost exact = { same_key };
}

/// The waves of a run of rounds, each once, with what was made of them.
pub type Store<W> = Evaluations<W, Key>;

/// The numbers of the waves of the constants 0 and 1.
#[derive(Clone, Copy)]
pub struct Constants {
    pub zero: u32,
    pub one: u32,
}

impl Constants {
    /// The number of the wave of a constant.
    pub fn of(self, one: bool) -> u32
        ensures { result ≡ (if one then self.one else self.zero) }
    {
        if one { self.one } else { self.zero }
    }
}

/// The numbers of the waves of both constants.
pub fn constant_numbers<W: CyclicWave<Item = Value>>(
    alloc: Global,
    h: &Header,
    store: &mut Store<W>,
) -> Result<Constants, NoMemory>
    ensures grows { Grows store.old store.new }
    ensures are { IfOk result (AreConstants h.now store.new) }
{
    let zero = store.number(constant_wave(alloc, h, false)?)?;
    let one = store.number(constant_wave(alloc, h, true)?)?;
    Ok(Constants { zero, one })
}

/// The number of the wave of what a pin is on.
fn number_at(constants: Constants, numbers: &[u32], target: Target) -> u32
    requires { TargetExists (length numbers.now) target }
    ensures known { (h : Header) (table : List (Wave OfValues)) → AreConstants h table constants →
        AreKnown table numbers.now → result < length table }
    ensures is { (h : Header) (table : List (Wave OfValues)) → AreConstants h table constants →
        wave_at table result ≡ target_wave h (waves_of (waves_at table numbers.now)) target }
{
    match target {
        Target::Net(net) => numbers[net as usize],
        Target::Constant(one) => constants.of(one),
    }
}

/// The pin of a key.
fn key_pin(c: &Circuit, constants: Constants, numbers: &[u32], pin: Pin) -> KeyPin
    requires exists { PinExists (length c.now.nets) pin }
    requires each_net { length numbers.now ≡ length c.now.nets }
    ensures hold { result.hold ≡ pin.hold }
    ensures known { (table : List (Wave OfValues)) → AreConstants c.now.header table constants →
        AreKnown table numbers.now → result.wave < length table }
    ensures shows { (table : List (Wave OfValues)) → AreConstants c.now.header table constants →
        shown_by result (wave_at table result.wave)
        ≡ wave_shown c.now (waves_of (waves_at table numbers.now)) pin }
{
    let wire = wire_behind(c, pin.target);
    KeyPin {
        wave: number_at(constants, numbers, pin.target),
        least: wire.min,
        greatest: wire.max,
        inverted: pin.inverted,
        hold: pin.hold,
    }
}

/// The pins of a key.
fn key_pins(
    alloc: Global,
    c: &Circuit,
    constants: Constants,
    numbers: &[u32],
    pins: &[Pin],
) -> Result<ShortList<KeyPin>, NoMemory>
    requires exist { All (PinExists (length c.now.nets)) pins.now }
    requires each_net { length numbers.now ≡ length c.now.nets }
    ensures marks { IfOk result (λ keys. map (λ p. p.hold) keys ≡ map (λ p. p.hold) pins.now) }
    ensures known { IfOk result (λ keys.
        (table : List (Wave OfValues)) → AreConstants c.now.header table constants →
        AreKnown table numbers.now → AreKnown table (map (λ p. p.wave) keys)) }
    ensures shows { IfOk result (λ keys.
        (table : List (Wave OfValues)) → AreConstants c.now.header table constants →
        map (λ p. shown_by p (wave_at table p.wave)) keys
        ≡ map (wave_shown c.now (waves_of (waves_at table numbers.now))) pins.now) }
{
    let mut keys = ShortList::with_room(alloc, pins.len())?;
    for pin in pins {
        keys.push(key_pin(c, constants, numbers, *pin))?;
    }
    Ok(keys)
}

/// What the output of an instance depends on, if the nets have the waves of these numbers.
pub fn key_of<W: CyclicWave<Item = Value>>(
    alloc: Global,
    c: &Circuit,
    store: &Store<W>,
    constants: Constants,
    numbers: &[u32],
    instance: &Instance,
) -> Result<Key, NoMemory>
    requires exist { All (PinExists (length c.now.nets)) instance.now.pins }
    requires each_net { length numbers.now ≡ length c.now.nets }
    requires known { AreKnown store.now numbers.now }
    requires constants { AreConstants c.now.header store.now constants }
    ensures { let ws = waves_of (waves_at store.now numbers.now) in
        IfOk result (IsKeyOf c.now store.now ws instance.now) }
{
    let pins = key_pins(alloc, c, constants, numbers, instance.pins.as_slice())?;
    let none = Delay { min: 0, max: 0 };
    let (rise, fall) = match instance.split {
        Some(split) => (split.rise, split.fall),
        None => (none, none),
    };
    Ok(Key {
        kind: instance.kind,
        least: instance.delay.min,
        greatest: instance.delay.max,
        split: instance.split.is_some(),
        rise_least: rise.min,
        rise_greatest: rise.max,
        fall_least: fall.min,
        fall_greatest: fall.max,
        inverted: instance.out_inverted,
        pins,
    })
}
