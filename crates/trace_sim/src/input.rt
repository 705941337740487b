//! The bits of a net, tick by tick: what its case or its assertion makes of the free bits, and
//! these themselves if something drives it.

ghost use Rattle.std.specs.Prelude.{◌≡◌, ◌-◌, ◌<◌, ◌≤◌, ◌^◌, ◌&&◌, ◌||◌, [], IfOk, Some, map, not};
ghost use Rattle.std.specs.List.{range_with_len};
ghost use Rattle.trace_sim.specs.Input.{asserted, bits_in, given_in, held, is_edge, is_last, is_near, moved, shifted};

use crate::Levels;
use crate::clock::{skew_of, slot_back};
use assertion_syntax::{ideal, quiet};
use flat_circuit::Net;
use scald_base::{AssertSpec, ClockSpec, Header, NoMemory, Spans};
use std::alloc::Global;

fn bit_at(bits: &[bool], t: usize) -> bool
    ensures { result ≡ bits_in bits.now t }
{
    match bits.get(t) {
        None => false,
        Some(bit) => *bit,
    }
}

// ---- stable nets

fn held_bit(h: &Header, spans: &Spans, free: &[bool], t: usize, before: bool) -> bool
    requires short { t < 2 ^ 32 }
    requires before { 1 ≤ t → before ≡ held h.now spans.now (bits_in free.now) (t - 1) }
    ensures { result ≡ held h.now spans.now (bits_in free.now) t }
{
    if t == 0 {
        bit_at(free, 0)
    } else if quiet(spans, h, slot_back(h, t, 0)) {
        before
    } else {
        bit_at(free, t)
    }
}

fn still_bit(h: &Header, free: &[bool], t: usize, before: bool) -> bool
    requires { 1 ≤ t → before ≡ held h.now [] (bits_in free.now) (t - 1) }
    ensures { result ≡ held h.now [] (bits_in free.now) t }
{
    let _ = h;
    if t == 0 { bit_at(free, 0) } else { before }
}

// ---- clocks

fn shifted_bit(clock: &ClockSpec, h: &Header, skew: (u16, u16), by: u32, t: usize) -> bool
    requires { t < 2 ^ 32 }
    ensures { result ≡ shifted clock.now h.now skew by t }
{
    ideal(clock, h, slot_back(h, t + skew.0 as usize, by as usize))
}

fn is_edge(clock: &ClockSpec, h: &Header, to: bool, slot: u16) -> bool
    ensures { result ≡ is_edge clock.now h.now to slot }
{
    let before = ideal(clock, h, slot_back(h, slot as usize, 1));
    let after = ideal(clock, h, slot);
    if to {
        !before && after
    } else {
        before && !after
    }
}

fn is_near(clock: &ClockSpec, h: &Header, skew: (u16, u16), to: bool, slot: u16) -> bool
    ensures { result ≡ is_near clock.now h.now skew to slot }
{
    let last = skew.0 as usize + skew.1 as usize;
    for by in 0..last + 1 {
        if is_edge(
            clock,
            h,
            to,
            slot_back(h, slot as usize + skew.0 as usize, by),
        ) {
            return true;
        }
    }
    false
}

fn is_last(clock: &ClockSpec, h: &Header, skew: (u16, u16), to: bool, slot: u16) -> bool
    ensures { result ≡ is_last clock.now h.now skew to slot }
{
    is_edge(clock, h, to, slot_back(h, slot as usize, skew.1 as usize))
}

fn moved_first(clock: &ClockSpec, h: &Header, skew: (u16, u16), free: &[bool]) -> bool
    ensures { result ≡ moved clock.now h.now skew (bits_in free.now) 0 }
{
    let rises = is_near(clock, h, skew, true, 0) && !is_last(clock, h, skew, true, 0);
    let falls = is_near(clock, h, skew, false, 0) && !is_last(clock, h, skew, false, 0);
    if rises || falls {
        bit_at(free, 0)
    } else {
        ideal(clock, h, 0)
    }
}

fn moved_bit(
    clock: &ClockSpec,
    h: &Header,
    skew: (u16, u16),
    free: &[bool],
    t: usize,
    before: bool,
) -> bool
    requires short { t < 2 ^ 32 }
    requires before { 1 ≤ t → before ≡ moved clock.now h.now skew (bits_in free.now) (t - 1) }
    ensures { result ≡ moved clock.now h.now skew (bits_in free.now) t }
{
    if t == 0 {
        return moved_first(clock, h, skew, free);
    }
    let slot = slot_back(h, t, 0);
    if is_near(clock, h, skew, true, slot) {
        rising(before, is_last(clock, h, skew, true, slot), bit_at(free, t))
    } else if is_near(clock, h, skew, false, slot) {
        falling(
            before,
            is_last(clock, h, skew, false, slot),
            bit_at(free, t),
        )
    } else {
        ideal(clock, h, slot)
    }
}

// Near a rise: 1 if it was, at the last slot, or if the free bit is.
fn rising(before: bool, last: bool, free: bool) -> bool
    ensures { result ≡ (before || (last || free)) }
{
    before || last || free
}

// Near a fall: 0 if it was, at the last slot, or if the free bit is.
fn falling(before: bool, last: bool, free: bool) -> bool
    ensures { result ≡ (before && (not last && free)) }
{
    before && !last && free
}

// ---- each net

fn asserted_bit(
    h: &Header,
    spec: &AssertSpec,
    by: u32,
    free: &[bool],
    t: usize,
    before: bool,
) -> bool
    requires short { t < 2 ^ 32 }
    requires before { 1 ≤ t → before ≡ asserted h.now spec.now by (bits_in free.now) (t - 1) }
    ensures { result ≡ asserted h.now spec.now by (bits_in free.now) t }
{
    match spec {
        AssertSpec::None => still_bit(h, free, t, before),
        AssertSpec::Precision(clock) => shifted_bit(clock, h, skew_of(clock, h.pskew), by, t),
        AssertSpec::Clock(clock) => moved_bit(clock, h, skew_of(clock, h.cskew), free, t, before),
        AssertSpec::Stable(spans) => held_bit(h, spans, free, t, before),
    }
}

fn given_bit(
    h: &Header,
    value: Option<bool>,
    net: &Net,
    by: u32,
    free: &[bool],
    t: usize,
    before: bool,
) -> bool
    requires short { t < 2 ^ 32 }
    requires before { 1 ≤ t → before
        ≡ given_in h.now value (Some net.now) by (bits_in free.now) (t - 1) }
    ensures { result ≡ given_in h.now value (Some net.now) by (bits_in free.now) t }
{
    match value {
        Some(one) => one,
        None => match net.driver {
            Some(_) => bit_at(free, t),
            None => asserted_bit(h, net.spec.or(&AssertSpec::None), by, free, t, before),
        },
    }
}

/// The bits of a net for so many ticks: what it comes later by, and its free bits, were drawn.
pub(crate) fn given_row(
    alloc: Global,
    h: &Header,
    value: Option<bool>,
    net: &Net,
    by: u32,
    free: &[bool],
    ticks: u32,
) -> Result<Levels, NoMemory>
    ensures { IfOk result (λ row. row
        ≡ map (given_in h.now value (Some net.now) by (bits_in free.now))
        (range_with_len 0 ticks)) }
{
    let mut row = Levels::new(alloc);
    let mut before = false;
    for t in 0..ticks as usize {
        before = given_bit(h, value, net, by, free, t, before);
        row.push(before)?;
    }
    Ok(row)
}
