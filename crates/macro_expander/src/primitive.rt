//! What a use of a primitive says before its connections are looked at.

ghost use Rattle.std.specs.Prelude.{◌≡◌, ◌≤◌, ◌+◌, ◌∷◌, [], map, is_some, option_map, Some};
ghost use Rattle.std.specs.List.{list_any};
ghost use Rattle.std.specs.Str.{bytes_eq};
ghost use Rattle.drawing_tree.specs.Tree.{assignment_of, connection_of, both_of, use_of};
ghost use Rattle.macro_expander.specs.Primitives.{parameters_for, fewest_inputs as spec_fewest, most_inputs as spec_most, most_marks as spec_most_marks, takes as spec_takes, are_of, marks as spec_marks, delay_within as spec_delay_within, delay_between as spec_delay_between, written_delay as spec_written_delay, fall_of, split_of as spec_split_of, delays_of as spec_delays_of, takes_delays as spec_takes_delays, setup_and_hold as spec_setup_and_hold, high_and_low as spec_high_and_low, limits_for as spec_limits_for, limits_of as spec_limits_of, are_connected as spec_are_connected, plan_of};
ghost use Rattle.macro_expander.specs.Steps.{JudgedAt};

use crate::parameter::{comes_again, value_given, values_given};
use crate::range::{at, value};
use drawing_tree::{Assigns, Conns, Env, Expr, UseStmt};
use element_kinds::{Check, Kind};
use flat_circuit::{Limits, Split};
use scald_base::{Delay, RefusalKind, Stop, same_bytes};
use std::alloc::Global;

/// The delays of a primitive's bits and a checker's limits, in ticks.
#[derive(Clone, Copy, PartialEq, Eq, Debug)]
pub struct Plan {
    /// The bounds of the delay, or from the least to the greatest of both.
    pub delay: Delay,
    /// The bounds of the rise delay and of the fall delay, if two are written.
    pub split: Option<Split>,
    pub limits: Limits,
}

const LONGEST_DELAY: u16 = 4095;

/// The longest rise delay and fall delay, if two are written.
const LONGEST_SPLIT: u16 = 255;

fn fewest_inputs(kind: Kind) -> usize
    ensures { result ≡ spec_fewest kind }
{
    kind.inputs().0 as usize
}

fn most_inputs(kind: Kind) -> usize
    ensures { result ≡ spec_most kind }
{
    kind.inputs().1 as usize
}

fn most_marks(kind: Kind) -> usize
    ensures { result ≡ spec_most_marks kind }
{
    match kind.closes() {
        None => 0,
        Some(_) => 1,
    }
}

fn is_one_of(name: &[u8], one: &[u8], other: &[u8]) -> bool
    ensures { result ≡ list_any (bytes_eq name.now) (one.now ∷ other.now ∷ []) }
{
    same_bytes(name, one) || same_bytes(name, other)
}

fn takes_for(check: Check, name: &[u8]) -> bool
    ensures { result ≡ list_any (bytes_eq name.now) (parameters_for (Some check)) }
{
    match check {
        Check::SetupHold | Check::RiseFall => is_one_of(
            name,
            b"SETUP".as_slice(),
            b"HOLD".as_slice(),
        ),
        Check::MinPulse => is_one_of(name, b"HIGH".as_slice(), b"LOW".as_slice()),
    }
}

fn takes(kind: Kind, name: &[u8]) -> bool
    ensures { result ≡ spec_takes kind name.now }
{
    match kind.check() {
        None => false,
        Some(check) => takes_for(check, name),
    }
}

fn are_parameters(kind: Kind, params: &Assigns) -> bool
    ensures { result ≡ are_of (spec_takes kind) (map assignment_of params.now) }
{
    let params = params.as_slice();
    for i in 0..params.len() {
        let name = params[i].name.as_slice();
        if !takes(kind, name) || comes_again(&params[i + 1..], name) {
            return false;
        }
    }
    true
}

/// How many connections are marked.
pub(crate) fn marks(connections: &Conns) -> usize
    ensures { result ≡ spec_marks (map connection_of connections.now) }
{
    connections.as_slice().iter().filter(|c| c.hold).count()
}

/// A delay's bounds, which are refused if the least is negative or above the greatest, or the
/// greatest is above the longest.
fn delay_within(longest: u16, min: i64, max: i64) -> Result<Delay, RefusalKind>
    requires { longest ≤ 4095 }
    ensures { result ≡ spec_delay_within longest min max }
{
    if 0 <= min && min <= max && max <= i64::from(longest) {
        return Ok(Delay {
            min: min as u16,
            max: max as u16,
        });
    }
    Err(RefusalKind::Bounds)
}

/// The bounds of the one delay of an element, or of a wire.
pub fn delay_between(min: i64, max: i64) -> Result<Delay, RefusalKind>
    ensures { result ≡ spec_delay_between min max }
{
    delay_within(LONGEST_DELAY, min, max)
}

/// The values of the two expressions of a delay.
fn both_values(bounds: &(Expr, Expr), env: &Env) -> Result<Option<(i64, i64)>, RefusalKind>
    ensures { result ≡ spec_written_delay env.now (Some (both_of bounds.now)) }
{
    let min = value(&bounds.0, env)?;
    let max = value(&bounds.1, env)?;
    Ok(Some((min, max)))
}

/// The values of the delay of a use, if one is written, or why one has none.
pub fn written_delay(
    delay: &Option<(Expr, Expr)>,
    env: &Env,
) -> Result<Option<(i64, i64)>, RefusalKind>
    ensures { result ≡ spec_written_delay env.now (option_map both_of delay.now) }
{
    match delay {
        None => Ok(None),
        Some(bounds) => both_values(bounds, env),
    }
}

/// The fall delay of a use, which without a delay counts as not there.
pub fn written_fall(statement: &UseStmt, env: &Env) -> Result<Option<(i64, i64)>, RefusalKind>
    ensures { result ≡ spec_written_delay env.now (fall_of (use_of statement.now)) }
{
    match statement.delay {
        None => Ok(None),
        Some(_) => match &statement.fall {
            None => Ok(None),
            Some(bounds) => both_values(bounds, env),
        },
    }
}

/// The bounds of two delays.
fn split_of(rise: (i64, i64), fall: (i64, i64)) -> Result<Split, RefusalKind>
    ensures { result ≡ spec_split_of rise fall }
{
    let rise = delay_within(LONGEST_SPLIT, rise.0, rise.1)?;
    let fall = delay_within(LONGEST_SPLIT, fall.0, fall.1)?;
    Ok(Split { rise, fall })
}

/// The bounds of all delays, and the two delays if two are written, or why they are refused.
pub fn delays_of(
    delay: Option<(i64, i64)>,
    fall: Option<(i64, i64)>,
) -> Result<(Delay, Option<Split>), RefusalKind>
    ensures { result ≡ spec_delays_of delay fall }
{
    match (delay, fall) {
        (None, _) => Ok((Delay { min: 0, max: 0 }, None)),
        (Some((min, max)), None) => Ok((delay_between(min, max)?, None)),
        (Some(rise), Some(fall)) => {
            let split = split_of(rise, fall)?;
            Ok((split.either(), Some(split)))
        }
    }
}

/// Whether the kind takes the delays of a use: none if it has no output, else one, or two if
/// it may have two.
fn takes_delays(kind: Kind, statement: &UseStmt) -> bool
    ensures { result ≡ spec_takes_delays kind (use_of statement.now) }
{
    let is_split = statement.delay.is_some() && statement.fall.is_some();
    statement.delay.is_some() == kind.has_output() && (!is_split || kind.may_split())
}

fn setup_and_hold(period: u16, setup: i64, hold: i64) -> Result<Limits, RefusalKind>
    ensures { result ≡ spec_setup_and_hold period setup hold }
{
    let period = i64::from(period);
    if 0 <= setup && 0 <= hold && setup <= period && hold <= period - setup {
        return Ok(Limits::Edges {
            setup: setup as u16,
            hold: hold as u16,
        });
    }
    Err(RefusalKind::Bounds)
}

fn high_and_low(period: u16, high: i64, low: i64) -> Result<Limits, RefusalKind>
    ensures { result ≡ spec_high_and_low period high low }
{
    let period = i64::from(period);
    if 0 <= high && 0 <= low && high <= period && low <= period {
        return Ok(Limits::Pulses {
            high: high as u16,
            low: low as u16,
        });
    }
    Err(RefusalKind::Bounds)
}

fn limits_for(period: u16, check: Check, given: &Env) -> Result<Limits, RefusalKind>
    ensures { result ≡ spec_limits_for period (Some check) given.now }
{
    match check {
        Check::SetupHold | Check::RiseFall => {
            let setup = value_given(given, b"SETUP".as_slice());
            let hold = value_given(given, b"HOLD".as_slice());
            setup_and_hold(period, setup, hold)
        }
        Check::MinPulse => {
            let high = value_given(given, b"HIGH".as_slice());
            let low = value_given(given, b"LOW".as_slice());
            high_and_low(period, high, low)
        }
    }
}

/// The limits of a checker whose use gives these values, or why they are refused; another kind has
/// none.
pub fn limits_of(period: u16, kind: Kind, given: &Env) -> Result<Limits, RefusalKind>
    ensures { result ≡ spec_limits_of period kind given.now }
{
    match kind.check() {
        None => Ok(Limits::None),
        Some(check) => limits_for(period, check, given),
    }
}

fn are_connected(kind: Kind, statement: &UseStmt) -> bool
    ensures { result ≡ spec_are_connected kind (use_of statement.now) }
{
    let outputs = if kind.has_output() { 1 } else { 0 };
    fewest_inputs(kind) <= statement.ins.len()
        && statement.ins.len() <= most_inputs(kind)
        && statement.outs.len() == outputs
        && marks(&statement.ins) <= most_marks(kind)
        && marks(&statement.outs) == 0
}

/// The delays and the limits of a use, or its refusal: a delay that is missing or not allowed, a
/// parameter that is not the kind's or comes twice, the first fault of an expression, a value out
/// of its bounds, or a wrong number of connections or marks.
#[tactic(auto, unfolding(crate::specs::Primitives::plan_of))]
pub(crate) fn planned(
    alloc: Global,
    period: u16,
    kind: Kind,
    statement: &UseStmt,
    env: &Env,
) -> Result<Plan, Stop>
    ensures { JudgedAt statement.now.place result
        (plan_of period kind env.now (use_of statement.now)) }
{
    let place = statement.place;
    if !takes_delays(kind, statement) {
        return Err(Stop::refused(RefusalKind::Bounds, place));
    }
    if !are_parameters(kind, &statement.params) {
        return Err(Stop::refused(RefusalKind::BadParameter, place));
    }
    let ends = at(place, written_delay(&statement.delay, env))?;
    let fall = at(place, written_fall(statement, env))?;
    let given = values_given(alloc, &statement.params, env, place)?;
    let (delay, split) = at(place, delays_of(ends, fall))?;
    let limits = at(place, limits_of(period, kind, &given))?;
    if !are_connected(kind, statement) {
        return Err(Stop::refused(RefusalKind::PinCount, place));
    }
    Ok(Plan {
        delay,
        split,
        limits,
    })
}
