//! Slacks of the widths of pulses.

ghost use Rattle.std.specs.Prelude.{◌≡◌, ◌<◌, ◌^◌, pos, ◌+ℤ◌, ◌-ℤ◌, ◌==◌, ◌&&◌, nat_lt, IfOk, IfSome, Some, true, false, length, slice_get};
ghost use Rattle.std.specs.Option.{option_map};
ghost use Rattle.scald_base.specs.Signal.{turned};
ghost use Rattle.scald_base.specs.Time.{period};
ghost use Rattle.flat_circuit.specs.declared.instance.Pin.{Pin};
ghost use Rattle.flat_circuit.specs.Circuit.{driver};
ghost use Rattle.flat_circuit.specs.Instances.{InstanceFits, PinExists};
ghost use Rattle.fixpoint_engine.specs.Pins.{read};
ghost use Rattle.flat_circuit.specs.Split.{two_delays};
ghost use Rattle.gate_eval.specs.Instance.{gate_image};
ghost use Rattle.fixpoint_engine.specs.Waves.{marked_pin, pin_wave as wave_shown, pin_waves, waves_of};
ghost use Rattle.element_kinds.specs.Kinds.{checks_pulses, may_split};
ghost use Rattle.flat_circuit.specs.Limits.{high_of, low_of};
ghost use Rattle.critical_paths.specs.Tick.{IsWithin, most_tick};
ghost use Rattle.critical_paths.specs.Views.{Sees};
ghost use Rattle.slack_rows.specs.Limit.{begin_of, finding_level};
ghost use Rattle.slack_rows.specs.Pulse.{begins_at, begins_by, begins_if, begins_in, changes_again, latest_begin, left_at, left_by, left_if, left_in, left_of as left_after, may_change_again, narrowest as narrowest_of, finding_wave};
ghost use Rattle.slack_rows.specs.Slack.{finding_of};
ghost use Rattle.slack_rows.specs.Views.{IsPulseWindow, Tells, comes_again};

use crate::slack::{By, Finding, Slack, Slacks};
use crate::window::Window;
use critical_paths::{Direction, View};
use fixpoint_engine::{pin_wave, waves_at_pins, wire_behind};
use flat_circuit::{Instance, Pin, Split, Target};
use gate_eval::eval_gate;
use pulse_check::first_narrow;
use scald_base::{Delay, NoMemory};
use skew_algebra::Skewed;
use step_values::Value;
use wave_core::{Cell, CyclicWave};

/// The first of the narrowest pulses at a level, as the slot in which it may begin and its width;
/// `None` if no pulse is narrower than a period.
fn narrowest<W: CyclicWave<Item = Value>>(wave: &W, level: bool) -> Option<(u16, u16)>
    ensures is { result
        ≡ narrowest_of (length (W.cells wave.now)) level (read (W.cells wave.now)) }
    ensures begin { IfSome result (λ pulse. pulse.0 < length (W.cells wave.now)) }
    ensures width { IfSome result (λ pulse. pulse.1 < length (W.cells wave.now)) }
{
    let mut best = None;
    let mut limit = wave.period();
    'narrower: while let Some(found) = first_narrow(wave, level, limit) {
        limit = found.1;
        best = Some(found);
    }
    best
}

/// Whether the wave may change in both ways in a slot of a pulse, and again in the next one.
fn is_repeated<W: CyclicWave<Item = Value>>(wave: &W, pulse: (u16, u16)) -> bool
    requires begin { pulse.0 < length (W.cells wave.now) }
    requires width { pulse.1 < length (W.cells wave.now) }
    ensures { result ≡ may_change_again (read (W.cells wave.now)) pulse }
{
    let period = wave.period();
    for place in 0..pulse.1 {
        let value = wave.at((pulse.0 + place) % period);
        let next = wave.at((pulse.0 + place + 1) % period);
        if value.may_rise() && value.may_fall() && !next.quiet() {
            return true;
        }
    }
    false
}

/// A width against its limit, of a pulse that begins at the pin in a slot; the window is the pulse.
fn finding(level: bool, limit: u16, slot: u16, window: Window, by: By) -> Finding
    requires first { IsWithin most_tick window.first }
    requires last { IsWithin most_tick window.last }
    ensures slack { result.slack ≡ Slack.Ticks (window.last -ℤ window.first -ℤ pos limit) }
    ensures window { result.window ≡ window }
    ensures pin { result.pin ≡ 0 }
    ensures direction { result.direction ≡ begin_of level }
    ensures tick { result.tick ≡ pos slot }
    ensures way { result.by ≡ by }
{
    Finding {
        slack: Slack::Ticks(window.last - window.first - i64::from(limit)),
        window,
        pin: 0,
        direction: if level {
            Direction::Rise
        } else {
            Direction::Fall
        },
        tick: i64::from(slot),
        by,
    }
}

/// The ticks of a pulse.
fn ticks(begin: i64, width: i64) -> Window
    requires begin { IsWithin (2 ^ 32) begin }
    requires width { IsWithin (2 ^ 32) width }
    ensures first { result.first ≡ begin }
    ensures last { result.last ≡ begin +ℤ width }
    ensures from { result.from ≡ begin +ℤ pos 1 }
    ensures to { result.to ≡ begin +ℤ width }
{
    let end = begin + width;
    Window {
        first: begin,
        last: end,
        from: begin + 1,
        to: end,
    }
}

/// What two delays leave of a pulse at a level of an element's own output, in ticks: it begins the
/// one delay late, and ends the other.
fn left_of(split: &Split, level: bool, width: u16) -> i64
    ensures is { result ≡ left_after split.now level width }
    ensures near { IsWithin (2 ^ 18) result }
{
    if level {
        i64::from(width) + i64::from(split.fall.min) - i64::from(split.rise.max)
    } else {
        i64::from(width) + i64::from(split.rise.min) - i64::from(split.fall.max)
    }
}

/// The narrowest pulse at a level of an element's own output, its delay not counted.
fn narrowest_made<W: CyclicWave<Item = Value>>(
    view: &View<W>,
    element: &Instance,
    level: bool,
) -> Result<Option<(u16, u16)>, NoMemory>
    requires sees { Sees view.now.circuit.now view.now.waves.now view.now.hazards.now }
    requires gate { may_split element.now.kind ≡ true }
    requires fits { InstanceFits view.now.circuit.now.header
        (length view.now.circuit.now.nets) element.now }
    ensures { let c = view.now.circuit.now in let j = element.now in
        let waves = pin_waves c (waves_of view.now.waves.now) j in
        IfOk result (λ found. found ≡ narrowest_of (period c.header) level
        (read (gate_image j.kind waves (marked_pin j)).cells)) }
{
    view.circuit.header().known();
    let at_once = Delay { min: 0, max: 0 };
    let pins = waves_at_pins(
        view.alloc,
        view.circuit,
        view.waves,
        element.pins.as_slice(),
    )?;
    let made: Skewed<W> = eval_gate(view.alloc, element.kind, &pins, at_once)?;
    Ok(narrowest(made.wave(), level))
}

/// How late a pulse at a level may begin.
fn late_begin(split: &Split, level: bool) -> u16
    ensures { result ≡ latest_begin split.now level }
{
    if level {
        split.rise.max
    } else {
        split.fall.max
    }
}

/// What two delays leave of a pulse of an element's own output, if that is nothing: when it
/// begins at its output, and how many ticks are left.
fn nothing_left(split: &Split, level: bool, pulse: (u16, u16)) -> Option<(i64, i64)>
    ensures left { option_map (λ left. left.1) result ≡ left_if split.now level (Some pulse) }
    ensures begin { option_map (λ left. left.0) result ≡ begins_if split.now level (Some pulse) }
    ensures near { IfSome result (λ left. IsWithin (2 ^ 20) left.0) }
    ensures few { IfSome result (λ left. IsWithin (2 ^ 20) left.1) }
{
    let left = left_of(split, level, pulse.1);
    if left > 0 {
        return None;
    }
    Some((
        i64::from(pulse.0) + i64::from(late_begin(split, level)),
        left,
    ))
}

/// The same of an element's narrowest pulse, if it has two delays.
fn swallowed_by<W: CyclicWave<Item = Value>>(
    view: &View<W>,
    element: &Instance,
    level: bool,
) -> Result<Option<(i64, i64)>, NoMemory>
    requires sees { Sees view.now.circuit.now view.now.waves.now view.now.hazards.now }
    requires fits { InstanceFits view.now.circuit.now.header
        (length view.now.circuit.now.nets) element.now }
    ensures near { IfOk result (λ found. IfSome found (λ left. IsWithin (2 ^ 20) left.0)) }
    ensures few { IfOk result (λ found. IfSome found (λ left. IsWithin (2 ^ 20) left.1)) }
    ensures left { let c = view.now.circuit.now in let j = element.now in
        IfOk result (λ found. option_map (λ left. left.1) found
        ≡ left_by c (waves_of view.now.waves.now) j level (two_delays j.kind j.split)) }
    ensures begin { let c = view.now.circuit.now in let j = element.now in
        IfOk result (λ found. option_map (λ left. left.0) found
        ≡ begins_by c (waves_of view.now.waves.now) j level (two_delays j.kind j.split)) }
{
    match element.split {
        None => Ok(None),
        Some(split) => match narrowest_made(view, element, level)? {
            None => Ok(None),
            Some(pulse) => Ok(nothing_left(&split, level, pulse)),
        },
    }
}

/// The level of which a level is seen, if the complement may be.
fn level_behind(inverted: bool, level: bool) -> bool
    ensures { result ≡ turned inverted level }
{
    if inverted { !level } else { level }
}

/// The same of a pulse of a net, by what drives it.
fn swallowed_behind<W: CyclicWave<Item = Value>>(
    view: &View<W>,
    net: u32,
    level: bool,
) -> Result<Option<(i64, i64)>, NoMemory>
    requires sees { Sees view.now.circuit.now view.now.waves.now view.now.hazards.now }
    ensures near { IfOk result (λ found. IfSome found (λ left. IsWithin (2 ^ 20) left.0)) }
    ensures few { IfOk result (λ found. IfSome found (λ left. IsWithin (2 ^ 20) left.1)) }
    ensures left { let c = view.now.circuit.now in
        IfOk result (λ found. option_map (λ left. left.1) found
        ≡ left_in c (waves_of view.now.waves.now) level (driver c net)) }
    ensures begin { let c = view.now.circuit.now in
        IfOk result (λ found. option_map (λ left. left.0) found
        ≡ begins_in c (waves_of view.now.waves.now) level (driver c net)) }
{
    match view.circuit.driver_of(net) {
        None => Ok(None),
        Some(element) => {
            let own = level_behind(element.out_inverted, level);
            let found = swallowed_by(view, element, own)?;
            Ok(found)
        }
    }
}

/// The same after a wire.
fn after_wire(left: Option<(i64, i64)>, wire: u16) -> Option<(i64, i64)>
    requires near { IfSome left (λ found. IsWithin (2 ^ 20) found.0) }
    requires few { IfSome left (λ found. IsWithin (2 ^ 20) found.1) }
    ensures near { IfSome result (λ found. IsWithin (2 ^ 21) found.0) }
    ensures few { IfSome result (λ found. IsWithin (2 ^ 20) found.1) }
    ensures left { option_map (λ found. found.1) result ≡ option_map (λ found. found.1) left }
    ensures begin { option_map (λ found. found.0) result
        ≡ option_map (λ found. found.0 +ℤ pos wire) left }
{
    match left {
        None => None,
        Some((begin, ticks)) => Some((begin + i64::from(wire), ticks)),
    }
}

/// The same of a pulse at a pin.
fn swallowed<W: CyclicWave<Item = Value>>(
    view: &View<W>,
    pin: Pin,
    level: bool,
) -> Result<Option<(i64, i64)>, NoMemory>
    requires sees { Sees view.now.circuit.now view.now.waves.now view.now.hazards.now }
    ensures near { IfOk result (λ found. IfSome found (λ left. IsWithin (2 ^ 21) left.0)) }
    ensures few { IfOk result (λ found. IfSome found (λ left. IsWithin (2 ^ 20) left.1)) }
    ensures left { let c = view.now.circuit.now in
        IfOk result (λ found. option_map (λ left. left.1) found
        ≡ left_at c (waves_of view.now.waves.now) level pin) }
    ensures begin { let c = view.now.circuit.now in
        IfOk result (λ found. option_map (λ left. left.0) found
        ≡ begins_at c (waves_of view.now.waves.now) level pin) }
{
    match pin.target {
        Target::Constant(_) => Ok(None),
        Target::Net(net) => {
            let behind = level_behind(pin.inverted, level);
            let found = swallowed_behind(view, net, behind)?;
            let wire = wire_behind(view.circuit, pin.target);
            let later = after_wire(found, wire.min);
            Ok(later)
        }
    }
}

/// Whether a pulse is to be wider than one slot, and is not.
fn may_vanish(width: u16, limit: u16) -> bool
    ensures { result ≡ ((width == 1) && nat_lt 1 limit) }
{
    width == 1 && limit > 1
}

/// The slack of the least width of pulses at a level; `None` if there is no such pulse.
fn width<W: CyclicWave<Item = Value>>(
    view: &View<W>,
    pin: Pin,
    level: bool,
    limit: u16,
) -> Result<Option<Finding>, NoMemory>
    requires sees { Sees view.now.circuit.now view.now.waves.now view.now.hazards.now }
    requires pin { PinExists (length view.now.circuit.now.nets) pin }
    ensures finding { let c = view.now.circuit.now in let ws = waves_of view.now.waves.now in
        let wave = read (wave_shown c ws pin).cells in
        IfOk result (λ found. Tells (period c.header) found (finding_of 0 (begin_of level)
        (finding_wave limit (left_at c ws level pin) wave
        (narrowest_of (period c.header) level wave)))) }
    ensures again { let c = view.now.circuit.now in let ws = waves_of view.now.waves.now in
        let wave = read (wave_shown c ws pin).cells in
        IfOk result (λ found. IfSome found (λ finding. comes_again finding.by
        ≡ changes_again wave (narrowest_of (period c.header) level wave))) }
    ensures window { let c = view.now.circuit.now in
        IfOk result (λ found. IfSome found (IsPulseWindow limit
        (begins_at c (waves_of view.now.waves.now) level pin))) }
{
    let wave = pin_wave(view.alloc, view.circuit, view.waves, pin)?;
    let shown = wave.wave();
    let Some(pulse) = narrowest(shown, level) else {
        return Ok(None);
    };
    let window = ticks(i64::from(pulse.0), i64::from(pulse.1));
    if is_repeated(shown, pulse) {
        let repeated = finding(level, limit, pulse.0, window, By::Repeated);
        return Ok(Some(repeated));
    }
    if !may_vanish(pulse.1, limit) {
        let wide = finding(level, limit, pulse.0, window, By::Pulse);
        return Ok(Some(wide));
    }
    match swallowed(view, pin, level)? {
        None => {
            let kept = finding(level, limit, pulse.0, window, By::Pulse);
            Ok(Some(kept))
        }
        Some((begin, left)) => {
            let rest = ticks(begin, left);
            let gone = finding(level, limit, pulse.0, rest, By::Swallowed);
            Ok(Some(gone))
        }
    }
}

/// The first pin of a checker.
fn first_pin(checker: &Instance) -> Pin
    requires { 0 < length checker.now.pins }
    ensures { slice_get checker.now.pins 0 ≡ Some result }
{
    checker.pins.as_slice()[0]
}

/// The slacks of the least widths of a checker's pulses.
pub fn width_slacks<W: CyclicWave<Item = Value>>(
    view: &View<W>,
    checker: &Instance,
) -> Result<Slacks, NoMemory>
    requires sees { Sees view.now.circuit.now view.now.waves.now view.now.hazards.now }
    requires checks { checks_pulses checker.now.kind ≡ true }
    requires fits { InstanceFits view.now.circuit.now.header
        (length view.now.circuit.now.nets) checker.now }
    ensures finding { let c = view.now.circuit.now in let ws = waves_of view.now.waves.now in
        let j = checker.now in let first = slice_get j.pins 0 in
        IfOk result (λ found.
        (Tells (period c.header) found.before (finding_level c ws j true (high_of j.limits) first))
        × (Tells (period c.header) found.after (finding_level c ws j false (low_of j.limits) first))) }
    ensures windows { (pin : Pin) → slice_get checker.now.pins 0 ≡ Some pin →
        let c = view.now.circuit.now in let ws = waves_of view.now.waves.now in
        IfOk result (λ found. IfSome found.before
        (IsPulseWindow (high_of checker.now.limits) (begins_at c ws true pin))
        × IfSome found.after
        (IsPulseWindow (low_of checker.now.limits) (begins_at c ws false pin))) }
{
    let pin = first_pin(checker);
    Ok(Slacks {
        level: None,
        before: width(view, pin, true, checker.limits.high())?,
        after: width(view, pin, false, checker.limits.low())?,
    })
}
