//! Which limits have a row of their own in the table, and how many nothing can break.

ghost use Rattle.std.specs.Prelude.{◌≡◌, ◌<◌, ◌^◌, ◌==◌, ◌&&◌, ◌-ℤ◌, ℕ, not, true, int_le, is_some, List, Some, false, length, slice_get};
ghost use Rattle.scald_base.specs.Time.{period as period_of};
ghost use Rattle.flat_circuit.specs.Circuit.{Circuit};
ghost use Rattle.critical_paths.specs.Tick.{IsWithin, slot_of as slot_in};
ghost use Rattle.slack_rows.specs.declared.parameter.Parameter.{Parameter};
ghost use Rattle.slack_rows.specs.Known.{AreKnown, are_sure, breaks, free_by, in_one_case, is_sure, least_at, finding_least};
ghost use Rattle.slack_rows.specs.Limit.{Case};
ghost use Rattle.slack_rows.specs.Rows.{are_one_region, broken_count as broken_limits, free_count as free_limits, have_no_number as none_of_both, is_own_row, is_same_pin as is_by_one_pin, is_reported as is_reported_before, partner, row, some_broken, reported_once};
ghost use Rattle.slack_rows.specs.Slack.{Finding as Telling, is_broken as breaks_slack};
ghost use Rattle.slack_rows.specs.Views.{IsNear, Tells, are_close, is_close, region_finding, shape_in, slack_by, finding_by_found};

use crate::parameter::Word;
use crate::rows::{Least, Rows};
use crate::slack::{By, Finding, Slack};
use crate::window::Window;
use critical_paths::Region;

/// More ticks than lie between the first period and any region about a window of it.
const CLOSE: u64 = 0x10_0000;

/// The slot of a period in which a region begins, and how many ticks come after that.
#[derive(Clone, Copy, PartialEq, Eq)]
pub struct Shape {
    slot: u16,
    ticks: i64,
}

/// Whether neither has a number.
fn have_no_number(before: Finding, after: Finding) -> bool
    ensures { result ≡ none_of_both (slack_by before.slack) (slack_by after.slack) }
{
    match (before.slack, after.slack) {
        (Slack::NoNumber(_), Slack::NoNumber(_)) => true,
        _ => false,
    }
}

/// Whether both are of the same steps of one pin.
fn is_same_pin(before: Finding, after: Finding) -> bool
    ensures { (p : ℕ) → result ≡ is_by_one_pin (finding_by_found p before) (finding_by_found p after) }
{
    before.pin == after.pin && before.direction == after.direction
}

/// The region of changes that a slack comes from, if it comes from one.
fn region_of(by: By) -> Option<Region>
    ensures { result ≡ region_finding by }
{
    match by {
        By::Region(region) => Some(region),
        By::Way(_) | By::Quiet | By::Nothing => None,
        By::Pulse | By::Swallowed | By::Repeated => None,
    }
}

/// Whether a tick is close to the first period.
fn is_close(tick: i64) -> bool
    ensures is { result ≡ is_close tick }
    ensures within { result ≡ true → IsWithin (2 ^ 20) tick }
{
    tick.unsigned_abs() <= CLOSE
}

/// Whether a window and a region are.
fn are_close(window: Window, region: Region) -> bool
    ensures is { result ≡ are_close window region }
    ensures from { result ≡ true → IsWithin (2 ^ 20) window.from }
    ensures first { result ≡ true → IsWithin (2 ^ 20) region.first }
    ensures last { result ≡ true → IsWithin (2 ^ 20) region.last }
{
    is_close(window.from) && (is_close(region.first) && is_close(region.last))
}

/// How long after the begin of a region its window opens.
fn opens_after(region: Region, window: Window) -> i64
    requires region { IsWithin (2 ^ 20) region.first }
    requires window { IsWithin (2 ^ 20) window.from }
    ensures { result ≡ window.from -ℤ region.first }
{
    window.from - region.first
}

/// Whether a window does not open later than another one, each after the begin of its region.
fn is_in_order(before: i64, after: i64) -> bool
    ensures { result ≡ int_le before after }
{
    before <= after
}

/// The slot of a tick of any period, of which each has so many.
fn slot_of(period: u16, tick: i64) -> u16
    requires { 0 < period }
    ensures { result ≡ slot_in period tick }
{
    tick.rem_euclid(i64::from(period)) as u16
}

/// Where a region lies in a period, and how long it is.
fn shape_of(period: u16, region: Region) -> Shape
    requires period { 0 < period }
    requires first { IsWithin (2 ^ 20) region.first }
    requires last { IsWithin (2 ^ 20) region.last }
    ensures { result ≡ shape_in period region }
{
    Shape {
        slot: slot_of(period, region.first),
        ticks: region.last - region.first,
    }
}

/// Whether they are one region, in the same period or whole periods apart.
fn are_same(one: Shape, other: Shape) -> bool
    ensures same { result ≡ true → one ≡ other }
    ensures other { result ≡ false → one ≡ other → ⊥ }
{
    one == other
}

/// Whether one region of changes breaks a limit before a window and one after that or a later
/// window, whichever the periods: it would do earlier or later.
fn have_one_region(period: u16, before: Finding, after: Finding) -> bool
    requires { 0 < period }
    ensures { IsNear period before before.by → IsNear period after after.by → result ≡
        are_one_region period (finding_by_found period before).place
        (finding_by_found period after).place }
{
    let Some(one) = region_of(before.by) else {
        return false;
    };
    let Some(other) = region_of(after.by) else {
        return false;
    };
    // no region that a slack comes from is far
    if !are_close(before.window, one) {
        return false;
    }
    if !are_close(after.window, other) {
        return false;
    }
    if !is_in_order(
        opens_after(one, before.window),
        opens_after(other, after.window),
    ) {
        return false;
    }
    are_same(shape_of(period, one), shape_of(period, other))
}

/// Whether both limits are broken.
fn are_broken(before: Finding, after: Finding) -> bool
    ensures { result
        ≡ (breaks_slack (slack_by before.slack) && breaks_slack (slack_by after.slack)) }
{
    before.slack.is_broken() && after.slack.is_broken()
}

/// Whether both come from one region of changes of one pin.
fn have_one_cause(period: u16, before: Finding, after: Finding) -> bool
    requires { 0 < period }
    ensures { IsNear period before before.by → IsNear period after after.by → result ≡
        (is_by_one_pin (finding_by_found period before) (finding_by_found period after)
        && are_one_region period (finding_by_found period before).place
        (finding_by_found period after).place) }
{
    is_same_pin(before, after) && have_one_region(period, before, after)
}

/// Whether two slacks, which may be of one case, are one row: neither has a number, or one region
/// breaks both limits.
fn are_reported_once(period: u16, is_one_case: bool, before: Finding, after: Finding) -> bool
    requires { 0 < period }
    ensures broken { result ≡ true → breaks_slack (slack_by before.slack) ≡ true }
    ensures finding { IsNear period before before.by → IsNear period after after.by → result ≡
        reported_once period is_one_case (finding_by_found period before)
        (finding_by_found period after) }
{
    if have_no_number(before, after) {
        return true;
    }
    if !are_broken(before, after) {
        return false;
    }
    is_one_case && have_one_cause(period, before, after)
}

/// Whether the slack of a limit is in the row of the one before it.
fn is_reported_with(period: u16, before: Option<Least>, after: Option<Least>) -> bool
    requires { 0 < period }
    ensures broken { result ≡ true → breaks before ≡ true }
    ensures finding { (a b : Telling) → Tells period (finding_least before) a →
        Tells period (finding_least after) b →
        result ≡ reported_once period (in_one_case before after) a b }
{
    let Some(before) = before else {
        return false;
    };
    let Some(after) = after else {
        return false;
    };
    are_reported_once(
        period,
        before.case == after.case,
        before.finding,
        after.finding,
    )
}

/// Whether a limit is broken.
fn is_broken(least: Option<Least>) -> bool
    ensures { result ≡ breaks least }
{
    match least {
        Some(least) => least.finding.slack.is_broken(),
        None => false,
    }
}

impl Rows {
    /// The least slack of the limit so many places before one; `None` if nothing can break it.
    fn least_before(&self, place: usize, count: usize) -> Option<Least>
        requires { place < length self.now.parameters }
        ensures { result ≡ least_at self.now.least place count }
    {
        if count > place {
            return None;
        }
        self.least.as_slice()[place - count]
    }

    /// Whether a limit is in the row of the one before it, which is of the same edges: neither has
    /// a number, or one region breaks both.
    pub fn is_reported(&self, place: usize) -> bool
        requires { place < length self.now.parameters }
        ensures broken { result ≡ true → breaks (least_at self.now.least place 1) ≡ true }
        ensures finding { (c : Circuit) (cases : List Case) (q : Parameter) →
            AreKnown c cases self.now.parameters self.now.least self.now.cases self.now.sets.keys →
            self.now.period ≡ period_of c.header →
            slice_get self.now.parameters place ≡ Some q → is_sure c cases q.subject ≡ true →
            result ≡ is_reported_before c cases (row c cases q.subject q.word) }
    {
        if self.is_second(place) {
            is_reported_with(
                self.period,
                self.least_before(place, 1),
                self.least_before(place, 0),
            )
        } else {
            false
        }
    }

    /// Whether the limit before this one is on the other side of the same edges.
    fn is_second(&self, place: usize) -> bool
        requires { place < length self.now.parameters }
        ensures { (q : Parameter) → slice_get self.now.parameters place ≡ Some q →
            result ≡ is_some (partner q.word) }
    {
        match self.parameters.as_slice()[place].word {
            Word::Hold | Word::After | Word::To => true,
            Word::Setup | Word::High | Word::Low | Word::Gate => false,
            Word::Before | Word::Assert | Word::From => false,
        }
    }

    /// Whether nothing can break a limit, nor the mark or the assertion itself.
    fn is_free(&self, place: usize) -> bool
        requires { place < length self.now.parameters }
        ensures { (q : Parameter) → slice_get self.now.parameters place ≡ Some q →
            result ≡ free_by q.word self.now.least place }
    {
        let level = match self.parameters.as_slice()[place].word {
            Word::Gate | Word::Assert => return false,
            Word::Setup | Word::Hold | Word::High | Word::Low => {
                return self.least_before(place, 0).is_none();
            }
            Word::Before | Word::From => 1,
            Word::After | Word::To => 2,
        };
        self.least_before(place, 0).is_none() && self.least_before(place, level).is_none()
    }

    /// How many limits nothing can break.
    pub fn free_count(&self) -> usize
        ensures { (c : Circuit) (cases : List Case) →
            AreKnown c cases self.now.parameters self.now.least self.now.cases self.now.sets.keys →
            result ≡ free_limits c cases }
    {
        let mut count = 0;
        for place in 0..self.parameters.len() {
            if self.is_free(place) {
                count += 1;
            }
        }
        count
    }

    /// Whether the limit at a place is broken, and has a row of its own.
    fn is_own(&self, place: usize) -> bool
        requires { place < length self.now.parameters }
        ensures own { result ≡ true → breaks (least_at self.now.least place 0) ≡ true }
        ensures not { breaks (least_at self.now.least place 0) ≡ true →
            not result ≡ true → breaks (least_at self.now.least place 1) ≡ true }
        ensures is { (c : Circuit) (cases : List Case) (q : Parameter) →
            AreKnown c cases self.now.parameters self.now.least self.now.cases self.now.sets.keys →
            self.now.period ≡ period_of c.header →
            slice_get self.now.parameters place ≡ Some q → is_sure c cases q.subject ≡ true →
            result ≡ is_own_row c cases (row c cases q.subject q.word) }
    {
        is_broken(self.least_before(place, 0)) && !self.is_reported(place)
    }

    /// How many of the limits are broken and have a row of their own: none exactly if no limit
    /// is broken.
    pub fn broken_count(&self) -> usize
        ensures none { (c : Circuit) (cases : List Case) →
            AreKnown c cases self.now.parameters self.now.least self.now.cases self.now.sets.keys →
            (result == 0) ≡ not (some_broken c cases) }
        ensures are { (c : Circuit) (cases : List Case) →
            AreKnown c cases self.now.parameters self.now.least self.now.cases self.now.sets.keys →
            self.now.period ≡ period_of c.header → are_sure c cases ≡ true →
            result ≡ broken_limits c cases }
    {
        let mut count = 0;
        for place in 0..self.parameters.len() {
            if self.is_own(place) {
                count += 1;
            }
        }
        count
    }
}
