//! Numbers of what nets have in common: nets of different keys are different, and different nets
//! hardly ever have one key.

use crate::{Circuit, Instance, Pin, Split, Target};
use scald_base::{AssertSpec, ClockSpec, Delay, Span};

/// By how many places a key is rotated before the next part, and by what it is multiplied after it.
const TURN: u32 = 23;

const FACTOR: u64 = 0x9E37_79B9_7F4A_7C15;

/// A number that is made from parts, one after another.
#[derive(Clone, Copy, PartialEq, Eq, PartialOrd, Ord, Debug)]
pub struct Key {
    number: u64,
}

impl Key {
    /// The key of no part.
    pub const EMPTY: Key = Key { number: 0 };

    /// The key of one part more.
    pub fn followed_by(self, part: u64) -> Key {
        let number = (self.number.rotate_left(TURN) ^ part).wrapping_mul(FACTOR);
        Key { number }
    }
}

/// The key of all that tells a net apart but the nets that its driver's pins are on, and the values
/// that cases give it.
pub fn key_of_net(c: &Circuit, net: u32) -> Key {
    match c.net(net) {
        Some(named) => {
            let key = and_spec(
                and_delay(Key::EMPTY, named.wire),
                named.spec.or(&AssertSpec::None),
            );
            and_driver(key, c.driver_of(net))
        }
        None => Key::EMPTY,
    }
}

/// The bounds of a delay as one number.
fn number_of_delay(delay: Delay) -> u64 {
    u64::from(delay.min) << 16 | u64::from(delay.max)
}

fn and_delay(key: Key, delay: Delay) -> Key {
    key.followed_by(number_of_delay(delay))
}

fn and_split(key: Key, split: Option<Split>) -> Key {
    match split {
        Some(s) => and_delay(and_delay(key.followed_by(1), s.rise), s.fall),
        None => key.followed_by(0),
    }
}

fn and_spec(key: Key, spec: &AssertSpec) -> Key {
    match spec {
        AssertSpec::None => key.followed_by(0),
        AssertSpec::Precision(clock) => and_clock(key.followed_by(1), clock),
        AssertSpec::Clock(clock) => and_clock(key.followed_by(2), clock),
        AssertSpec::Stable(spans) => and_spans(key.followed_by(3), spans.as_slice()),
    }
}

fn and_clock(key: Key, clock: &ClockSpec) -> Key {
    let key = and_spans(key, clock.spans.as_slice()).followed_by(u64::from(clock.low));
    match clock.skew {
        Some((early, late)) => key
            .followed_by(u64::from(early))
            .followed_by(u64::from(late)),
        None => key,
    }
}

fn and_spans(mut key: Key, spans: &[Span]) -> Key {
    for span in spans {
        key = key
            .followed_by(u64::from(span.lo))
            .followed_by(u64::from(span.hi));
    }
    key.followed_by(spans.len() as u64)
}

fn and_driver(key: Key, driver: Option<&Instance>) -> Key {
    match driver {
        Some(driver) => and_instance(key.followed_by(1), driver),
        None => key,
    }
}

fn and_instance(key: Key, instance: &Instance) -> Key {
    let shape = (instance.kind as u64) << 1 | u64::from(instance.out_inverted);
    let key = key.followed_by(shape << 32 | number_of_delay(instance.delay));
    and_pins(and_split(key, instance.split), instance.pins.as_slice())
}

fn and_pins(mut key: Key, pins: &[Pin]) -> Key {
    for pin in pins {
        key = key.followed_by(number_of_pin(*pin));
    }
    key.followed_by(pins.len() as u64)
}

/// A number for all that tells pins apart but the nets that they are on.
fn number_of_pin(pin: Pin) -> u64 {
    let target = match pin.target {
        Target::Net(_) => 0,
        Target::Constant(false) => 1,
        Target::Constant(true) => 2,
    };
    4 * target + 2 * u64::from(pin.inverted) + u64::from(pin.hold)
}
