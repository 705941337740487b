//! What an input does about the edges of a clock.

ghost use Rattle.std.specs.Prelude.{◌≡◌, ◌+◌, ◌*◌, ◌^◌, ◌<◌, ◌≤◌, IfSome, length};
ghost use Rattle.flat_circuit.specs.Limits.{hold_of, setup_of};
ghost use Rattle.fixpoint_engine.specs.Pins.{read};
ghost use Rattle.point_check.specs.Window.{kind_at as kind_of_place, slot_at as slot_of_place, window_fault as fault_of_window};
ghost use Rattle.point_check.specs.Point.{edge_fault as fault_of_edge, falls_somewhere as falls, first_fault as fault_of_edges, first_low as low_after, high_window as window_of_rise, last_fall as fall_before, window_by as window_by_check, window_of as window_by_kind, all_round as window_all_round};
ghost use Rattle.point_check.specs.Folds.{WindowFits};
ghost use Rattle.point_check.specs.Next.{IsNextEdge};

use crate::window::Window;
use element_kinds::Check;
use flat_circuit::{Fault, Kind, Limits, PointKind};
use step_values::{Step, Value};
use wave_core::{Cell, CyclicWave, first_where};

/// The slot at a place of the window of an edge: place 0 is `setup` slots before the slot after the
/// edge, and the slots go round the period.
fn slot_at(period: u16, window: Window, edge: u16, place: u16) -> u16
    requires small { period ≤ 4096 }
    requires early { window.setup ≤ period }
    requires edge { edge < period }
    requires place { place < 2 * period }
    ensures slot { result ≡ slot_of_place period window edge place }
    ensures within { result < period }
{
    (edge + 1 + place + (period - window.setup)) % period
}

/// In which part of a window a place is.
fn kind_at(window: Window, place: u16) -> PointKind
    requires { window.setup + window.high < 2 ^ 16 }
    ensures { result ≡ kind_of_place window place }
{
    if place < window.setup {
        PointKind::Setup
    } else if place < window.setup + window.high {
        PointKind::High
    } else {
        PointKind::Hold
    }
}

/// The fault of an edge that has this window: of the first place of it at which the input may
/// change.
fn window_fault<W: CyclicWave<Item = Value>>(
    input: &W,
    instance: u32,
    window: Window,
    edge: u16,
) -> Option<Fault>
    requires window { WindowFits (length (W.cells input.now)) window }
    requires edge { edge < length (W.cells input.now) }
    ensures { result ≡ fault_of_window (length (W.cells input.now))
        instance (read (W.cells input.now)) edge (Some window) }
{
    let period = input.period();
    let from = slot_at(period, window, edge, 0);
    let count = window.setup + window.high + window.hold;
    match first_where(input, from, count, |value| !value.quiet()) {
        None => None,
        Some(place) => {
            let slot = slot_at(period, window, edge, place);
            Some(Fault::Point {
                kind: kind_at(window, place),
                instance,
                edge,
                slot,
                value: input.at(slot).letter(),
            })
        }
    }
}

/// After how many slots, 1 to a period, the clock can first not stay at 1.
pub fn first_low<W: CyclicWave<Item = Value>>(clock: &W, edge: u16) -> Option<u16>
    requires { edge < length (W.cells clock.now) }
    ensures first { result ≡ low_after (length (W.cells clock.now))
        (read (W.cells clock.now)) edge }
    ensures within { IfSome result (λ low. low ≤ length (W.cells clock.now)) }
{
    let period = clock.period();
    match first_where(clock, (edge + 1) % period, period, |value| {
        !value.permits(Step::HIGH)
    }) {
        None => None,
        Some(place) => Some(place + 1),
    }
}

/// After how many slots, 1 to `low`, the clock may last fall.
pub fn last_fall<W: CyclicWave<Item = Value>>(clock: &W, edge: u16, low: u16) -> Option<u16>
    requires edge { edge < length (W.cells clock.now) }
    requires low { low ≤ length (W.cells clock.now) }
    ensures last { result ≡ fall_before (read (W.cells clock.now)) edge low }
    ensures within { IfSome result (λ fall. fall ≤ low) }
{
    let period = clock.period();
    let mut last = None;
    let mut fall = 1;
    'runs: while fall <= low {
        let slot = (edge + fall) % period;
        let next = (fall + (clock.same_until(slot) - slot)).min(low + 1);
        if clock.at(slot).may_fall() {
            last = Some(next - 1);
        }
        fall = next;
    }
    last
}

/// The window if the clock may stay at 1 for ever: the whole period, or none if it can not
/// fall.
fn all_round<W: CyclicWave<Item = Value>>(clock: &W, limits: Limits) -> Option<Window>
    requires { setup_of limits + hold_of limits ≤ length (W.cells clock.now) }
    ensures window { result ≡ window_all_round (length (W.cells clock.now))
        limits (falls (length (W.cells clock.now)) (read (W.cells clock.now))) }
    ensures fits { IfSome result (WindowFits (length (W.cells clock.now))) }
{
    let period = clock.period();
    match first_where(clock, 0, period, |value| value.may_fall()) {
        None => None,
        Some(_fall) => Some(Window {
            setup: limits.setup(),
            high: period,
            hold: 0,
        }),
    }
}

/// From before a rise to after the last fall after it; the whole period if the clock may stay at
/// 1 for ever, and no window if it can not fall.
fn high_window<W: CyclicWave<Item = Value>>(clock: &W, limits: Limits, edge: u16) -> Option<Window>
    requires edge { edge < length (W.cells clock.now) }
    requires limits { setup_of limits + hold_of limits ≤ length (W.cells clock.now) }
    ensures window { result ≡ window_of_rise (length (W.cells clock.now))
        (read (W.cells clock.now)) limits edge }
    ensures fits { IfSome result (WindowFits (length (W.cells clock.now))) }
{
    match first_low(clock, edge) {
        Some(low) => match last_fall(clock, edge, low) {
            Some(high) => Some(Window {
                setup: limits.setup(),
                high,
                hold: limits.hold(),
            }),
            None => None,
        },
        None => all_round(clock, limits),
    }
}

/// The window of an edge, by what is checked.
fn window_by<W: CyclicWave<Item = Value>>(
    check: Check,
    clock: &W,
    limits: Limits,
    edge: u16,
) -> Option<Window>
    requires edge { edge < length (W.cells clock.now) }
    requires limits { setup_of limits + hold_of limits ≤ length (W.cells clock.now) }
    ensures window { result ≡ window_by_check check
        (length (W.cells clock.now)) (read (W.cells clock.now)) limits edge }
    ensures fits { IfSome result (WindowFits (length (W.cells clock.now))) }
{
    match check {
        Check::SetupHold => Some(Window {
            setup: limits.setup(),
            high: 0,
            hold: limits.hold(),
        }),
        Check::RiseFall => high_window(clock, limits, edge),
        Check::MinPulse => None,
    }
}

/// The window of an edge, for a checker of each kind.
fn window_of<W: CyclicWave<Item = Value>>(
    kind: Kind,
    clock: &W,
    limits: Limits,
    edge: u16,
) -> Option<Window>
    requires edge { edge < length (W.cells clock.now) }
    requires limits { setup_of limits + hold_of limits ≤ length (W.cells clock.now) }
    ensures window { result ≡ window_by_kind kind (length (W.cells clock.now))
        (read (W.cells clock.now)) limits edge }
    ensures fits { IfSome result (WindowFits (length (W.cells clock.now))) }
{
    match kind.check() {
        None => None,
        Some(check) => window_by(check, clock, limits, edge),
    }
}

/// What an edge makes, if the clock may rise in its slot.
fn edge_fault<W: CyclicWave<Item = Value>>(
    kind: Kind,
    instance: u32,
    clock: &W,
    input: &W,
    limits: Limits,
    edge: u16,
) -> Option<Fault>
    requires edge { edge < length (W.cells clock.now) }
    requires limits { setup_of limits + hold_of limits ≤ length (W.cells clock.now) }
    requires periods { length (W.cells input.now) ≡ length (W.cells clock.now) }
    ensures { result ≡ fault_of_edge kind (length (W.cells clock.now))
        instance (read (W.cells clock.now)) (read (W.cells input.now)) limits edge }
{
    if !clock.at(edge).may_rise() {
        return None;
    }
    match window_of(kind, clock, limits, edge) {
        None => None,
        Some(window) => window_fault(input, instance, window, edge),
    }
}

/// The first slot from this one on in which the clock may rise, or the period if there is none.
fn next_edge<W: CyclicWave<Item = Value>>(clock: &W, from: u16) -> u16
    requires { from ≤ length (W.cells clock.now) }
    ensures { IsNextEdge (read (W.cells clock.now)) from (length (W.cells clock.now)) result }
{
    let period = clock.period();
    if from == period {
        return period;
    }
    match first_where(clock, from, period - from, |value| value.may_rise()) {
        None => period,
        Some(place) => from + place,
    }
}

/// The fault of a checker by the folds of its clock and its input: that of the first edge that has
/// one.
pub fn first_fault<W: CyclicWave<Item = Value>>(
    kind: Kind,
    instance: u32,
    clock: &W,
    input: &W,
    limits: Limits,
) -> Option<Fault>
    requires limits { setup_of limits + hold_of limits ≤ length (W.cells clock.now) }
    requires periods { length (W.cells input.now) ≡ length (W.cells clock.now) }
    ensures { result ≡ fault_of_edges kind (length (W.cells clock.now))
        instance (read (W.cells clock.now)) (read (W.cells input.now)) limits }
{
    let mut edge = 0;
    'edges: while edge < clock.period() {
        if let Some(fault) = edge_fault(kind, instance, clock, input, limits, edge) {
            return Some(fault);
        }
        edge = next_edge(clock, edge + 1);
    }
    None
}
