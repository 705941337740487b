//! Slacks of changes that are not to come in some slots.

ghost use Rattle.std.specs.Prelude.{◌≡◌, IfOk, OnOk, if◌then◌else◌, is_some, length};
ghost use Rattle.scald_base.specs.Time.{period};
ghost use Rattle.step_values.specs.Cell.{values};
ghost use Rattle.skew_algebra.specs.Wave.{folded};
ghost use Rattle.flat_circuit.specs.Instances.{PinExists};
ghost use Rattle.fixpoint_engine.specs.Waves.{pin_wave as wave_shown, waves_of};
ghost use Rattle.critical_paths.specs.Event.{Events};
ghost use Rattle.critical_paths.specs.Region.{IsCyclic};
ghost use Rattle.critical_paths.specs.Known.{Knows};
ghost use Rattle.critical_paths.specs.Views.{Sees, passing};
ghost use Rattle.slack_rows.specs.Held.{AreSlots, GoesOn, IsSlots, MayBeHeld, TellParts, launches_of, place_in, two_of, watch_at};
ghost use Rattle.slack_rows.specs.Sides.{AreAtSlots};
ghost use Rattle.slack_rows.specs.Slack.{Nowhere};
ghost use Rattle.slack_rows.specs.Views.{place_without};

use crate::held::{Held, Watch, place_of};
use crate::sides::about_all;
use crate::slack::{Reason, Slacks};
use crate::window::Extent;
use critical_paths::{Direction, Paths, Slots, Test, View, slots_of};
use fixpoint_engine::pin_wave;
use flat_circuit::Pin;
use scald_base::NoMemory;
use step_values::Value;
use wave_core::CyclicWave;

/// What a pin may do in each slot, however late its wave comes.
pub fn fold<W: CyclicWave<Item = Value>>(view: &View<W>, pin: Pin) -> Result<W, NoMemory>
    requires sees { Sees view.now.circuit.now view.now.waves.now view.now.hazards.now }
    requires pin { PinExists (length view.now.circuit.now.nets) pin }
    ensures { IfOk result (λ w. W.cells w ≡ folded values (wave_shown
        view.now.circuit.now (waves_of view.now.waves.now) pin)) }
{
    pin_wave(view.alloc, view.circuit, view.waves, pin)?.folded(view.alloc)
}

/// The slots of a wave of the period that pass a test.
pub fn slots<W: CyclicWave<Item = Value>>(
    view: &View<W>,
    wave: &W,
    test: Test,
) -> Result<Slots, NoMemory>
    requires { length (W.cells wave.now) ≡ period view.now.circuit.now.header }
    ensures close { IfOk result (IsSlots (period view.now.circuit.now.header)) }
    ensures are { IfOk result (AreSlots (period view.now.circuit.now.header)
        (passing test (W.cells wave.now))) }
{
    // no period is short, and none is long
    let _period = view.period();
    let found = slots_of(view.alloc, wave, test)?;
    Ok(found)
}

/// Why changes are never to come: the mark is never at rest, or a net's assertion permits none.
fn never_still(held: Option<Held>) -> Reason
    ensures is { result ≡ (if is_some held then Reason.Mark else Reason.Still) }
    ensures place { place_without result ≡ Nowhere }
{
    match held {
        Some(_) => Reason::Mark,
        None => Reason::Still,
    }
}

/// The slacks of changes that are not to come in these slots, nor in the one before them.
pub fn still_slacks<W: CyclicWave<Item = Value>>(
    view: &View<W>,
    paths: &mut Paths,
    changes: &Slots,
    still: &Slots,
    held: Option<Held>,
    direction: Direction,
) -> Result<Slacks, NoMemory>
    requires sees { Sees view.now.circuit.now view.now.waves.now view.now.hazards.now }
    requires knows { Knows view.now.circuit.now (waves_of view.now.waves.now) paths.old.nodes
        paths.old.met.entries }
    requires held { MayBeHeld view.now.circuit.now held }
    requires changes { IsSlots (period view.now.circuit.now.header) changes.now }
    requires still { IsSlots (period view.now.circuit.now.header) still.now }
    ensures paths { OnOk result (GoesOn view.now.circuit.now (waves_of view.now.waves.now)
        paths.old paths.new) }
    ensures finding { let c = view.now.circuit.now in let p = period c.header in
        let ws = waves_of view.now.waves.now in (ev quiet : Events) →
        IsCyclic p ev → IsCyclic p quiet → AreSlots p ev changes.now → AreSlots p quiet still.now →
        IfOk result (TellParts p (launches_of c ws held) (two_of c ws held) (place_in held)
        direction (watch_at p ev quiet)) }
    ensures are { IfOk result (AreAtSlots view.now.circuit.now (waves_of view.now.waves.now)
        paths.old held direction changes.now still.now) }
{
    // no period is short
    let _period = view.period();
    let is_free = changes.are_none();
    if is_free {
        return Ok(Slacks::NONE);
    }
    let is_unmet = still.are_none();
    if is_unmet {
        return Ok(Slacks::NONE);
    }
    if still.are_all {
        return Ok(Slacks::level(never_still(held), place_of(held), direction));
    }
    if changes.are_all {
        return Ok(Slacks::none(Reason::Data, place_of(held), direction));
    }
    let edges = still.regions.as_slice();
    let moving = changes.regions.as_slice();
    let watch = Watch {
        edges,
        extent: Extent {
            before: 1,
            after: 0,
        },
        changes: moving,
        direction,
        held,
    };
    let found = about_all(view, paths, watch)?;
    Ok(found)
}
