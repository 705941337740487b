//! The slacks of driven nets against what their names assert.

ghost use Rattle.std.specs.Prelude.{◌≡◌, ◌<◌, ◌&&◌, not, IfOk, IfSome, OnOk, Some, length, slice_get, false, [], ◌∷◌};
ghost use Rattle.scald_base.specs.Time.{period};
ghost use Rattle.step_values.specs.Steps.{has};
ghost use Rattle.fixpoint_engine.specs.Waves.{waves_of};
ghost use Rattle.fixpoint_engine.specs.Pins.{read};
ghost use Rattle.point_check.specs.Assertion.{exceeds as exceeds_wide, first_excess};
ghost use Rattle.critical_paths.specs.declared.direction.Direction.TheVariants.{Fall, Rise};
ghost use Rattle.critical_paths.specs.Event.{events};
ghost use Rattle.critical_paths.specs.Known.{Knows};
ghost use Rattle.critical_paths.specs.Views.{Sees};
ghost use Rattle.slack_rows.specs.Held.{GoesOn, IsLevelFinding, TellDirections, TellParts, is_high_outside, is_step_outside, lacking, watch_at};
ghost use Rattle.slack_rows.specs.Limit.{steps_outside, finding_net};
ghost use Rattle.slack_rows.specs.Slack.{no_launches};
ghost use Rattle.slack_rows.specs.Views.{Tells, lesser_found, finding_level_by};
ghost use Rattle.slack_rows.specs.Watch.{directions_of};
ghost use Rattle.slack_rows.specs.declared.parameter.Word.TheVariants.{Assert, From as StableFrom, To as StableTo};

use crate::slack::{Finding, Reason, Slacks, lesser};
use crate::watch::{slots, still_slacks};
use critical_paths::{Direction, Paths, Test, View};
use flat_circuit::Net;
use pin_waves::wide_wave;
use scald_base::{AssertSpec, NoMemory};
use step_values::{Step, Value};
use wave_core::CyclicWave;

/// Whether a value permits a step that the other lacks.
fn exceeds(value: Value, wide: Value, step: Step) -> bool
    ensures { result
        ≡ (has value step.before step.after && not (has wide step.before step.after)) }
{
    value.permits(step) && !wide.permits(step)
}

/// Whether a value permits a step from one bit to the other that the other value lacks.
fn steps_beyond(value: Value, wide: Value) -> bool
    ensures { result ≡ is_step_outside value wide }
{
    exceeds(value, wide, Step::RISE) || exceeds(value, wide, Step::FALL)
}

/// Whether a value permits any step that the other lacks.
fn is_beyond(value: Value, wide: Value) -> bool
    ensures { result ≡ exceeds_wide value wide }
{
    exceeds(value, wide, Step::LOW)
        || exceeds(value, wide, Step::RISE)
        || exceeds(value, wide, Step::FALL)
        || exceeds(value, wide, Step::HIGH)
}

/// Whether a net may make a step in some slot that it may not make.
fn is_outside<W: CyclicWave<Item = Value>>(fold: &W, wide: &W) -> bool
    requires { length (W.cells wide.now) ≡ length (W.cells fold.now) }
    ensures { result ≡ steps_outside (length (W.cells fold.now)) (read (W.cells fold.now))
        (read (W.cells wide.now)) }
{
    let mut slot = 0;
    'changes: while slot < fold.period() {
        if steps_beyond(fold.at(slot), wide.at(slot)) {
            return true;
        }
        slot = fold.same_until(slot).min(wide.same_until(slot));
    }
    false
}

/// The first slot in which a net may do what it may not.
fn first_beyond<W: CyclicWave<Item = Value>>(fold: &W, wide: &W) -> Option<u16>
    requires { length (W.cells wide.now) ≡ length (W.cells fold.now) }
    ensures first { result ≡ first_excess (length (W.cells fold.now)) (read (W.cells fold.now))
        (read (W.cells wide.now)) }
    ensures within { IfSome result (λ slot. slot < length (W.cells fold.now)) }
{
    let mut slot = 0;
    'changes: while slot < fold.period() {
        if is_beyond(fold.at(slot), wide.at(slot)) {
            return Some(slot);
        }
        slot = fold.same_until(slot).min(wide.same_until(slot));
    }
    None
}

/// The first slot at which a net may be at a level that it may not have, if it makes no step
/// that it may not make.
fn first_level<W: CyclicWave<Item = Value>>(fold: &W, wide: &W) -> Option<Reason>
    requires { length (W.cells wide.now) ≡ length (W.cells fold.now) }
    ensures { let p = length (W.cells fold.now) in let found = read (W.cells fold.now) in
        let permitted = read (W.cells wide.now) in
        IsLevelFinding (λ t. is_high_outside (found t) (permitted t)) result
        (steps_outside p found permitted) (first_excess p found permitted) }
{
    if is_outside(fold, wide) {
        return None;
    }
    match first_beyond(fold, wide) {
        Some(slot) => {
            let is_high = exceeds(fold.at(slot), wide.at(slot), Step::HIGH);
            Some(Reason::Level(is_high, slot))
        }
        None => None,
    }
}

/// The slacks with that of a level that an assertion does not permit.
fn with_level(slacks: Slacks, level: Option<Reason>) -> Slacks
    ensures level { result.level ≡ lesser_found slacks.level (finding_level_by level) }
    ensures before { result.before ≡ slacks.before }
    ensures after { result.after ≡ slacks.after }
{
    match level {
        Some(reason) => Slacks {
            level: lesser(
                slacks.level,
                Some(Finding::none(reason, 0, Direction::Change)),
            ),
            ..slacks
        },
        None => slacks,
    }
}

/// The slacks of a net's steps of one direction against its assertion.
fn steps<W: CyclicWave<Item = Value>>(
    view: &View<W>,
    paths: &mut Paths,
    fold: &W,
    wide: &W,
    direction: Direction,
) -> Result<Slacks, NoMemory>
    requires sees { Sees view.now.circuit.now view.now.waves.now view.now.hazards.now }
    requires knows { Knows view.now.circuit.now (waves_of view.now.waves.now) paths.old.nodes
        paths.old.met.entries }
    requires fold { length (W.cells fold.now) ≡ period view.now.circuit.now.header }
    requires wide { length (W.cells wide.now) ≡ period view.now.circuit.now.header }
    ensures paths { OnOk result (GoesOn view.now.circuit.now (waves_of view.now.waves.now)
        paths.old paths.new) }
    ensures finding { let p = period view.now.circuit.now.header in IfOk result
        (TellParts p no_launches (λ w r. false) 0 direction
        (watch_at p (events direction (read (W.cells fold.now)))
        (lacking direction (read (W.cells wide.now))))) }
{
    let changes = slots(view, fold, Test::May(direction))?;
    let still = slots(view, wide, Test::Lacks(direction))?;
    still_slacks(view, paths, &changes, &still, None, direction)
}

/// The slacks of a net's rises and falls against its assertion.
fn both_steps<W: CyclicWave<Item = Value>>(
    view: &View<W>,
    paths: &mut Paths,
    fold: &W,
    wide: &W,
) -> Result<Slacks, NoMemory>
    requires sees { Sees view.now.circuit.now view.now.waves.now view.now.hazards.now }
    requires knows { Knows view.now.circuit.now (waves_of view.now.waves.now) paths.old.nodes
        paths.old.met.entries }
    requires fold { length (W.cells fold.now) ≡ period view.now.circuit.now.header }
    requires wide { length (W.cells wide.now) ≡ period view.now.circuit.now.header }
    ensures paths { OnOk result (GoesOn view.now.circuit.now (waves_of view.now.waves.now)
        paths.old paths.new) }
    ensures finding { let p = period view.now.circuit.now.header in IfOk result
        (TellDirections p (read (W.cells fold.now)) (read (W.cells wide.now))
        (Rise ∷ Fall ∷ [])) }
{
    let rises = steps(view, paths, fold, wide, Direction::Rise)?;
    let falls = steps(view, paths, fold, wide, Direction::Fall)?;
    Ok(rises.lesser(falls))
}

/// The slacks of a net's steps against an assertion of these directions.
fn all_steps<W: CyclicWave<Item = Value>>(
    view: &View<W>,
    paths: &mut Paths,
    fold: &W,
    wide: &W,
    spec: &AssertSpec,
) -> Result<Slacks, NoMemory>
    requires sees { Sees view.now.circuit.now view.now.waves.now view.now.hazards.now }
    requires knows { Knows view.now.circuit.now (waves_of view.now.waves.now) paths.old.nodes
        paths.old.met.entries }
    requires fold { length (W.cells fold.now) ≡ period view.now.circuit.now.header }
    requires wide { length (W.cells wide.now) ≡ period view.now.circuit.now.header }
    ensures paths { OnOk result (GoesOn view.now.circuit.now (waves_of view.now.waves.now)
        paths.old paths.new) }
    ensures finding { let p = period view.now.circuit.now.header in IfOk result
        (TellDirections p (read (W.cells fold.now)) (read (W.cells wide.now))
        (directions_of spec.now)) }
{
    match spec {
        AssertSpec::None => Ok(Slacks::NONE),
        AssertSpec::Stable(_) => {
            let changes = steps(view, paths, fold, wide, Direction::Change)?;
            Ok(changes)
        }
        AssertSpec::Precision(_) => {
            let both = both_steps(view, paths, fold, wide)?;
            Ok(both)
        }
        AssertSpec::Clock(_) => {
            let edges = both_steps(view, paths, fold, wide)?;
            Ok(edges)
        }
    }
}

/// The slacks of a driven net with an assertion.
pub fn net_slacks<W: CyclicWave<Item = Value>>(
    view: &View<W>,
    paths: &mut Paths,
    number: u32,
    net: &Net,
) -> Result<Slacks, NoMemory>
    requires sees { Sees view.now.circuit.now view.now.waves.now view.now.hazards.now }
    requires knows { Knows view.now.circuit.now (waves_of view.now.waves.now) paths.old.nodes
        paths.old.met.entries }
    requires net { slice_get view.now.circuit.now.nets number ≡ Some net.now }
    ensures paths { OnOk result (GoesOn view.now.circuit.now (waves_of view.now.waves.now)
        paths.old paths.new) }
    ensures finding { let c = view.now.circuit.now in let ws = waves_of view.now.waves.now in
        IfOk result (λ found.
        (Tells (period c.header) found.level (finding_net c ws number net.now Assert))
        × (Tells (period c.header) found.before (finding_net c ws number net.now StableFrom))
        × (Tells (period c.header) found.after (finding_net c ws number net.now StableTo))) }
{
    // no period is short
    let _period = view.period();
    let spec = net.spec.or(&AssertSpec::None);
    let fold = view.waves.at(number).folded(view.alloc)?;
    let wide: W = wide_wave(view.alloc, spec, view.circuit.header())?;
    let found = all_steps(view, paths, &fold, &wide, spec)?;
    Ok(with_level(found, first_level(&fold, &wide)))
}
