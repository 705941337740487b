//! Slacks of a checker that asks for nothing about an edge: how many slots are quiet.

ghost use Rattle.std.specs.Prelude.{◌≡◌, ◌<◌, ℕ, length};
ghost use Rattle.fixpoint_engine.specs.Pins.{read};
ghost use Rattle.critical_paths.specs.declared.direction.Direction.TheVariants.{Change, Rise};
ghost use Rattle.critical_paths.specs.Event.{events};
ghost use Rattle.slack_rows.specs.Limit.{least_still, still_after, still_before, finding_still};
ghost use Rattle.slack_rows.specs.Slack.{finding_of};
ghost use Rattle.slack_rows.specs.Views.{Tells};

use crate::slack::{By, Finding, Slack, Slacks};
use crate::window::{Extent, Window};
use critical_paths::{Direction, Region};
use step_values::Value;
use wave_core::{Cell, CyclicWave};

/// How many slots up to this one have no change, itself among them; `None` if none has one.
fn quiet_before<W: CyclicWave<Item = Value>>(input: &W, slot: u16) -> Option<u16>
    requires { slot < length (W.cells input.now) }
    ensures { result
        ≡ still_before (length (W.cells input.now)) (events Change (read (W.cells input.now)))
        slot }
{
    let period = input.period();
    for back in 0..period {
        if !input.at((slot + (period - back)) % period).quiet() {
            return Some(back);
        }
    }
    None
}

/// How many slots after this one have no change; `None` if none has one.
fn quiet_after<W: CyclicWave<Item = Value>>(input: &W, slot: u16) -> Option<u16>
    requires { slot < length (W.cells input.now) }
    ensures { result
        ≡ still_after (length (W.cells input.now)) (events Change (read (W.cells input.now))) slot }
{
    let period = input.period();
    for place in 0..period {
        if !input.at((slot + 1 + place) % period).quiet() {
            return Some(place);
        }
    }
    None
}

/// So many quiet slots about an edge in a slot.
fn finding(slot: u16, quiet: Option<u16>) -> Option<Finding>
    ensures { (p : ℕ) → Tells p result (finding_of 1 Change (finding_still quiet)) }
{
    let ticks = quiet?;
    let edge = Region {
        first: i64::from(slot),
        last: i64::from(slot),
    };
    Some(Finding {
        slack: Slack::Ticks(i64::from(ticks)),
        window: Window::about(edge, Extent::NONE),
        pin: 1,
        direction: Direction::Change,
        tick: i64::from(slot),
        by: By::Quiet,
    })
}

/// The least about the slots in which a clock may rise.
pub fn quiet_slacks<W: CyclicWave<Item = Value>>(clock: &W, input: &W) -> Slacks
    requires { length (W.cells input.now) ≡ length (W.cells clock.now) }
    ensures before { let p = length (W.cells clock.now) in
        Tells p result.before (finding_of 1 Change (least_still
        (still_before p (events Change (read (W.cells input.now)))) p
        (events Rise (read (W.cells clock.now))))) }
    ensures after { let p = length (W.cells clock.now) in
        Tells p result.after (finding_of 1 Change (least_still
        (still_after p (events Change (read (W.cells input.now)))) p
        (events Rise (read (W.cells clock.now))))) }
{
    let mut all = Slacks::NONE;
    for slot in 0..clock.period() {
        if clock.at(slot).may_rise() {
            all = all.lesser(Slacks {
                level: None,
                before: finding(slot, quiet_before(input, slot)),
                after: finding(slot, quiet_after(input, slot)),
            });
        }
    }
    all
}
