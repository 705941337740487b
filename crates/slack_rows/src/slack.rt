//! A slack, and what it comes from.

ghost use Rattle.std.specs.Prelude.{◌≡◌, None, Some};
ghost use Rattle.slack_rows.specs.Slack.{is_above as above, is_broken as breaks, is_less as less};
ghost use Rattle.slack_rows.specs.Views.{lesser_found, rank_of, slack_by, slack_for, ticks_of, finding_none};

use crate::parameter::Word;
use crate::window::{Extent, Window};
use critical_paths::{Direction, Region};

/// Why there is no number.
#[derive(Clone, Copy)]
pub enum Reason {
    /// The data may change in every slot.
    Data,
    /// The same, and a way to it comes from a loop.
    DataLoop,
    /// The clock may rise in every slot.
    Clock,
    /// The clock may stay at 1 for a whole period.
    High,
    /// The mark is never at rest.
    Mark,
    /// The assertion permits no change.
    Still,
    /// The net may be at a level that its assertion does not permit: which, and at which tick.
    Level(bool, u16),
}

/// By how many ticks a limit is met, or why there is no number.
#[derive(Clone, Copy)]
pub enum Slack {
    NoNumber(Reason),
    /// Below 0 the limit is broken.
    Ticks(i64),
    /// The same of a way, and not of the waves: it is broken whatever the number.
    Way(i64),
}

/// How the rows of the table are sorted: broken ones first, of these no number first, then by
/// number.
#[derive(Clone, Copy, PartialEq, Eq, PartialOrd, Ord)]
pub struct Rank {
    pub is_met: bool,
    pub ticks: Option<i64>,
}

impl Slack {
    /// Whether the limit is broken.
    pub fn is_broken(self) -> bool
        ensures { result ≡ breaks (slack_by self) }
    {
        match self {
            Slack::Ticks(ticks) => ticks < 0,
            Slack::NoNumber(_) | Slack::Way(_) => true,
        }
    }

    /// Its number, or 0.
    pub fn ticks(self) -> i64
        ensures { result ≡ ticks_of self }
    {
        match self {
            Slack::NoNumber(_) => 0,
            Slack::Ticks(ticks) => ticks,
            Slack::Way(ticks) => ticks,
        }
    }

    /// Where it is sorted.
    pub fn rank(self) -> Rank
        ensures { result ≡ rank_of self }
    {
        let is_met = !self.is_broken();
        match self {
            Slack::NoNumber(_) => Rank {
                is_met,
                ticks: None,
            },
            Slack::Ticks(ticks) => Rank {
                is_met,
                ticks: Some(ticks),
            },
            Slack::Way(ticks) => Rank {
                is_met,
                ticks: Some(ticks),
            },
        }
    }

    /// Whether its row stands above that of another one: by the order of ranks.
    pub fn is_above(self, than: Slack) -> bool
        ensures { result ≡ above (slack_by self) (slack_by than) }
    {
        self.rank() < than.rank()
    }

    /// Whether it comes before another one of the same limit: what is broken first, of that no
    /// number first, then by number, a way's before an equal one.
    pub fn is_less(self, than: Slack) -> bool
        ensures { result ≡ less (slack_by self) (slack_by than) }
    {
        match (self, than) {
            (_, Slack::NoNumber(_)) => false,
            (Slack::NoNumber(_), _) => true,
            (Slack::Way(ticks), Slack::Way(other)) => ticks < other,
            (Slack::Way(ticks), Slack::Ticks(other)) => other >= 0 || ticks <= other,
            (Slack::Ticks(ticks), Slack::Way(other)) => ticks < 0 && ticks < other,
            (Slack::Ticks(ticks), Slack::Ticks(other)) => ticks < other,
        }
    }
}

/// What a slack comes from.
#[derive(Clone, Copy)]
pub enum By {
    /// The end of a region of changes.
    Region(Region),
    /// A way from an edge of the clock, by the number of its event.
    Way(usize),
    /// Quiet ticks about an edge.
    Quiet,
    /// A pulse.
    Pulse,
    /// A pulse that may be swallowed.
    Swallowed,
    /// A pulse that may change more than once.
    Repeated,
    /// No number.
    Nothing,
}

/// A slack, where it is least.
#[derive(Clone, Copy)]
pub struct Finding {
    pub slack: Slack,
    pub window: Window,
    /// The data's pin.
    pub pin: u16,
    pub direction: Direction,
    /// The tick of the data; of a pulse that in which it begins at the pin.
    pub tick: i64,
    pub by: By,
}

impl Finding {
    /// That there is no number, of steps of a pin in this direction.
    pub fn none(reason: Reason, pin: u16, direction: Direction) -> Finding
        ensures { result ≡ finding_none reason pin direction }
    {
        Finding {
            slack: Slack::NoNumber(reason),
            window: Window::about(Region { first: 0, last: 0 }, Extent::NONE),
            pin,
            direction,
            tick: 0,
            by: By::Nothing,
        }
    }
}

/// The lesser one; of equals the first.
#[tactic(auto, using(crate::proofs::Ordered::free_is_last, crate::proofs::Ordered::before_free))]
pub fn lesser(best: Option<Finding>, found: Option<Finding>) -> Option<Finding>
    ensures { result ≡ lesser_found best found }
{
    match (best, found) {
        (_, None) => best,
        (None, Some(_)) => found,
        (Some(old), Some(new)) => {
            if new.slack.is_less(old.slack) {
                found
            } else {
                best
            }
        }
    }
}

/// The slacks of a checker, a marked instance or an asserted net: of the mark or the assertion
/// itself, of what is before and of what is after; of a width those of high and low pulses.
#[derive(Clone, Copy)]
pub struct Slacks {
    pub level: Option<Finding>,
    pub before: Option<Finding>,
    pub after: Option<Finding>,
}

impl Slacks {
    /// None.
    pub const NONE: Slacks = Slacks {
        level: None,
        before: None,
        after: None,
    };

    /// No number of a mark or an assertion.
    pub fn level(reason: Reason, pin: u16, direction: Direction) -> Slacks
        ensures { let finding = Some (finding_none reason pin direction) in
            result ≡ record { level = finding; before = None; after = None } }
    {
        Slacks {
            level: Some(Finding::none(reason, pin, direction)),
            before: None,
            after: None,
        }
    }

    /// No number before and after.
    pub fn none(reason: Reason, pin: u16, direction: Direction) -> Slacks
        ensures { let finding = Some (finding_none reason pin direction) in
            result ≡ record { level = None; before = finding; after = finding } }
    {
        let finding = Some(Finding::none(reason, pin, direction));
        Slacks {
            level: None,
            before: finding,
            after: finding,
        }
    }

    /// The lesser ones.
    pub fn lesser(self, other: Slacks) -> Slacks
        ensures level { result.level ≡ lesser_found self.level other.level }
        ensures before { result.before ≡ lesser_found self.before other.before }
        ensures after { result.after ≡ lesser_found self.after other.after }
    {
        Slacks {
            level: lesser(self.level, other.level),
            before: lesser(self.before, other.before),
            after: lesser(self.after, other.after),
        }
    }

    /// That of a limit.
    pub fn of(self, word: Word) -> Option<Finding>
        ensures { result ≡ slack_for self word }
    {
        match word {
            Word::Gate | Word::Assert => self.level,
            Word::Setup | Word::High | Word::Before | Word::From => self.before,
            Word::Hold | Word::Low | Word::After | Word::To => self.after,
        }
    }
}
