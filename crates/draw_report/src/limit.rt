//! A limit that is drawn: its pins, its paths, and the ticks that it is about.
//!
//! Ticks are moved by whole periods, so that the first path begins in the first period.

ghost use Rattle.std.specs.Prelude.{◌≡◌};

use critical_paths::{At, Steps};
use fixpoint_engine::wire_behind;
use flat_circuit::{Circuit, Instance, Pin, Target};
use scald_base::{Delay, NoMemory};
use slack_report::{Limit, Sheet};
use slack_rows::{By, Least, Reason, Slack, Subject, Window, Word};

/// From one tick to another.
#[derive(Clone, Copy)]
pub struct Ticks {
    pub from: i64,
    pub to: i64,
}

/// What is left of a limit, or lacks: how many ticks, whether that is of a way alone, and where.
#[derive(Clone, Copy)]
pub struct Left {
    pub ticks: i64,
    pub is_way: bool,
    pub at: Ticks,
}

/// A limit with the sheet that tells it, and by how many ticks all that is told of it is moved.
#[derive(Clone, Copy)]
pub struct Subjected<'a> {
    pub sheet: Sheet<'a>,
    pub limit: Limit,
    pub moved: i64,
}

/// By how many ticks a tick is moved into the first period.
fn to_first_period(sheet: Sheet, tick: i64) -> i64 {
    tick.rem_euclid(sheet.period()).saturating_sub(tick)
}

/// The ticks that are among these and among those, if there are some.
fn common(these: Ticks, those: Ticks) -> Option<Ticks> {
    let from = these.from.max(those.from);
    let to = these.to.min(those.to);
    if from <= to {
        Some(Ticks { from, to })
    } else {
        None
    }
}

/// The net that a pin is on, if it is on one.
pub fn net_of(pin: Pin) -> Option<u32> {
    match pin.target {
        Target::Net(net) => Some(net),
        Target::Constant(_) => None,
    }
}

/// Whether a pin has a row of its own: it shows the complement of its net, or has a wire.
pub fn has_own_row(c: &Circuit, pin: Pin) -> bool {
    pin.inverted || wire_behind(c, pin.target).max > 0
}

impl<'a> Subjected<'a> {
    /// A limit whose first path begins in the first period.
    pub fn along_paths(sheet: Sheet<'a>, limit: Limit) -> Subjected<'a>
        ensures { result.sheet.circuit.now ≡ sheet.entry.circuit.now }
    {
        let Least { data, clock, .. } = limit.least;
        let first = match (data, clock) {
            (Some(data), Some(clock)) => sheet.begin(data).min(sheet.begin(clock)),
            (Some(at), None) | (None, Some(at)) => sheet.begin(at),
            (None, None) => limit.least.finding.window.first,
        };
        Subjected {
            sheet,
            limit,
            moved: to_first_period(sheet, first),
        }
    }

    /// A limit whose window begins in the first period at the data's net.
    pub fn in_panel(sheet: Sheet<'a>, limit: Limit) -> Subjected<'a> {
        let mut of = Subjected {
            sheet,
            limit,
            moved: 0,
        };
        let begin = match of.net_window() {
            Some(window) => window.from,
            None => limit.least.finding.window.first,
        };
        of.moved = to_first_period(sheet, begin);
        of
    }

    /// What is told of it.
    pub fn least(self) -> Least {
        self.limit.least
    }

    /// Which limit it is.
    pub fn word(self) -> Word {
        self.limit.parameter.word
    }

    /// The instance whose limit it is, if it is that of one.
    fn instance(self) -> Option<&'a Instance> {
        match self.limit.parameter.subject {
            Subject::Instance(number) => self.sheet.circuit.instance(number),
            Subject::Net(_) => None,
        }
    }

    /// The net whose assertion it is, if it is that of one.
    fn asserted(self) -> Option<u32> {
        match self.limit.parameter.subject {
            Subject::Instance(_) => None,
            Subject::Net(net) => Some(net),
        }
    }

    /// The pin of the instance at a place.
    fn pin(self, place: usize) -> Option<Pin> {
        self.instance()?.pins.as_slice().get(place).copied()
    }

    /// The pin of the data, or of the pulse.
    pub fn data_pin(self) -> Option<Pin> {
        self.pin(usize::from(self.limit.least.finding.pin))
    }

    /// The pin of the clock or of the mark, if there is one beside the data's.
    pub fn clock_pin(self) -> Option<Pin> {
        match self.word() {
            Word::Setup | Word::Hold => self.pin(0),
            Word::Gate | Word::Before | Word::After => self.marked_pin(),
            Word::High | Word::Low | Word::Assert | Word::From | Word::To => None,
        }
    }

    /// The pin that is marked, if there is one.
    fn marked_pin(self) -> Option<Pin> {
        for pin in self.instance()?.pins.as_slice() {
            if pin.hold {
                return Some(*pin);
            }
        }
        None
    }

    /// The wire that leads to the data's pin.
    fn data_wire(self) -> Delay {
        match self.data_pin() {
            Some(pin) => wire_behind(self.sheet.circuit, pin.target),
            None => Delay { min: 0, max: 0 },
        }
    }

    /// The net of the data's pin, or that whose assertion it is.
    pub fn data_net(self) -> Option<u32> {
        match self.data_pin() {
            Some(pin) => net_of(pin),
            None => self.asserted(),
        }
    }

    /// The net of the clock's pin, if it is on one.
    pub fn clock_net(self) -> Option<u32> {
        net_of(self.clock_pin()?)
    }

    /// Whether it has paths to be drawn: it is told by a region, by a way or by a pulse.
    pub fn has_paths(self) -> bool {
        let Least {
            finding,
            data,
            clock,
            ..
        } = self.limit.least;
        match finding.by {
            By::Region(_) | By::Way(_) => data.is_some(),
            By::Pulse | By::Swallowed => data.is_some() && clock.is_some(),
            By::Quiet | By::Repeated | By::Nothing => false,
        }
    }

    /// The steps of a path, from its event back.
    pub fn steps(self, at: Option<At>) -> Result<Steps, NoMemory> {
        match at {
            Some(at) => self.sheet.steps(at),
            None => Ok(Steps::new(self.sheet.alloc)),
        }
    }

    /// The ticks in which nothing is to change, if there is a window.
    pub fn window(self) -> Option<Ticks> {
        let Window { from, to, .. } = self.limit.least.finding.window;
        let is_pulse = self.word().is_width();
        if is_pulse || to < from {
            None
        } else {
            Some(self.later(from, to))
        }
    }

    /// Ticks, as they are moved.
    fn later(self, from: i64, to: i64) -> Ticks {
        Ticks {
            from: from.saturating_add(self.moved),
            to: to.saturating_add(self.moved),
        }
    }

    /// Whether it is told of an edge, or of edges; if there is no number it is told of none.
    pub fn has_edges(self) -> bool {
        !matches!(self.limit.least.finding.by, By::Nothing)
    }

    /// The edges that the window is about: the first and the last.
    pub fn edges(self) -> Ticks {
        let Window { first, last, .. } = self.limit.least.finding.window;
        self.later(first, last)
    }

    /// The slots of the data's net from which a step may reach the pin within the window.
    pub fn net_window(self) -> Option<Ticks> {
        let window = self.window()?;
        let wire = self.data_wire();
        Some(Ticks {
            from: window.from.saturating_sub(i64::from(wire.max)),
            to: window.to.saturating_sub(i64::from(wire.min)),
        })
    }

    /// The slot of a level that is not permitted, if that is told of.
    fn level(self) -> Option<Ticks> {
        match self.limit.least.finding.slack {
            Slack::NoNumber(Reason::Level(_, tick)) => {
                Some(self.later(i64::from(tick), i64::from(tick)))
            }
            _ => None,
        }
    }

    /// The region of changes that is told of, if one is.
    fn region(self) -> Option<Ticks> {
        let finding = self.limit.least.finding;
        let By::Region(region) = finding.by else {
            return None;
        };
        let later = match self.word() {
            Word::Setup | Word::Before | Word::From => finding.tick.saturating_sub(region.last),
            _ => finding.tick.saturating_sub(region.first),
        };
        let from = region.first.saturating_add(later);
        let to = region.last.saturating_add(later);
        Some(self.later(from, to))
    }

    /// The slots of the pin that are told of: within the window, or that of a level which is not
    /// permitted.
    pub fn bad(self) -> Option<Ticks> {
        match self.level() {
            Some(level) => Some(level),
            None => common(self.region()?, self.window()?),
        }
    }

    /// The same of the data's net: slots in which it may change, and from which a step may reach
    /// the pin within the window.
    pub fn net_bad(self) -> Option<Ticks> {
        if let Some(level) = self.level() {
            return Some(level);
        }
        let region = self.region()?;
        let wire = self.data_wire();
        let steps = Ticks {
            from: region.from.saturating_sub(i64::from(wire.min)),
            to: region.to.saturating_sub(i64::from(wire.max)),
        };
        common(steps, self.net_window()?)
    }

    /// What is left before or after the window, or of a width.
    pub fn left(self) -> Option<Left> {
        self.left_by(self.limit.least, self.word())
    }

    /// The same of the other side, if one region of changes breaks both.
    pub fn left_after(self) -> Option<Left> {
        let word = match self.word() {
            Word::Setup => Word::Hold,
            Word::Before => Word::After,
            Word::From => Word::To,
            other => other,
        };
        self.left_by(self.limit.after?, word)
    }

    /// What is left by one side of a limit.
    fn left_by(self, least: Least, word: Word) -> Option<Left> {
        let (ticks, is_way) = match least.finding.slack {
            Slack::NoNumber(_) => return None,
            Slack::Ticks(ticks) => (ticks, false),
            Slack::Way(ticks) => (ticks, true),
        };
        let ends = self.left_ends(least, word)?;
        Some(Left {
            ticks,
            is_way,
            at: self.later(ends.0.min(ends.1), ends.0.max(ends.1)),
        })
    }

    /// Where that is: from the last change to the window, from the window to the first change, or
    /// from the end of the limit to that of the pulse.
    fn left_ends(self, least: Least, word: Word) -> Option<(i64, i64)> {
        let limit = i64::from(self.limit.parameter.limit);
        let Window {
            first,
            last,
            from,
            to,
        } = least.finding.window;
        match word {
            Word::Setup | Word::Before | Word::From => {
                Some((least.finding.tick, from.saturating_sub(1)))
            }
            Word::Hold | Word::After | Word::To => Some((to, least.finding.tick.saturating_sub(1))),
            Word::High | Word::Low => Some((first.saturating_add(limit), last)),
            Word::Gate | Word::Assert => None,
        }
    }
}
