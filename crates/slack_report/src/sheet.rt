//! What is reported: a circuit, and the slacks of its limits.

ghost use Rattle.std.specs.Prelude.{◌≤ℤ◌, pos};

use critical_paths::{At, Node, Nodes, Parts, Steps, counted_twice};
use drawing_places::scope_len;
use flat_circuit::Circuit;
use indexmap::IndexSet;
use scald_base::{Bytes, List, NoMemory};
use slack_rows::{Least, Parameter, Rows, Slack, Subject};
use std::alloc::Global;

/// Texts, each of which has a number, and how many have it.
#[derive(Drop)]
pub struct Texts {
    distinct: IndexSet<Bytes>,
    numbers: List<usize>,
    counts: List<u32>,
}

impl Texts {
    /// No texts.
    fn new(alloc: Global) -> Texts {
        Texts {
            distinct: IndexSet::new(alloc),
            numbers: List::new(alloc),
            counts: List::new(alloc),
        }
    }

    /// One text more.
    fn add(&mut self, alloc: Global, text: &[u8]) -> Result<(), NoMemory> {
        let bytes = Bytes::of(alloc, text)?;
        let (number, is_new) = self.distinct.insert_full(bytes)?;
        if is_new {
            self.counts.push(0)?;
        }
        self.count(number);
        self.numbers.push(number)
    }

    /// Counts the text of a number once more.
    fn count(&mut self, number: usize) {
        if number < self.counts.len() {
            let count = self.counts.as_slice()[number];
            self.counts.set(number, count.saturating_add(1));
        }
    }

    /// The number of the text at a place.
    pub fn number(&self, place: u32) -> usize {
        self.numbers.get(place as usize).copied().unwrap_or(0)
    }

    /// Whether no other has it.
    pub fn is_alone(&self, place: u32) -> bool {
        self.counts.get(self.number(place)) == Some(&1)
    }
}

/// The names of nets, the paths of instances and their scopes.
#[derive(Drop)]
pub struct Names {
    pub nets: Texts,
    pub paths: Texts,
    pub scopes: Texts,
}

impl Names {
    /// No names.
    pub fn new(alloc: Global) -> Names {
        Names {
            nets: Texts::new(alloc),
            paths: Texts::new(alloc),
            scopes: Texts::new(alloc),
        }
    }

    /// Adds those of a circuit.
    pub fn fill(&mut self, alloc: Global, c: &Circuit) -> Result<(), NoMemory> {
        for number in 0..c.net_count() {
            if let Some(net) = c.net(number) {
                self.nets.add(alloc, net.name.as_slice())?;
            }
        }
        for number in 0..c.instance_count() {
            if let Some(instance) = c.instance(number) {
                self.add_path(alloc, instance.path.as_slice())?;
            }
        }
        Ok(())
    }

    /// Adds the path of an instance, and its scope.
    fn add_path(&mut self, alloc: Global, path: &[u8]) -> Result<(), NoMemory> {
        self.paths.add(alloc, path)?;
        self.scopes.add(alloc, &path[..scope_len(path)])
    }

    /// The number of the name of a net or an instance.
    pub fn number(&self, subject: Subject) -> usize {
        match subject {
            Subject::Instance(number) => self.paths.number(number),
            Subject::Net(number) => self.nets.number(number),
        }
    }

    /// Whether no other bit has the name of a net or an instance.
    pub fn is_alone(&self, subject: Subject) -> bool {
        match subject {
            Subject::Instance(number) => self.paths.is_alone(number),
            Subject::Net(number) => self.nets.is_alone(number),
        }
    }
}

/// A circuit with its slacks.
#[derive(Clone, Copy)]
pub struct Sheet<'a> {
    pub alloc: Global,
    pub circuit: &'a Circuit,
    pub rows: &'a Rows,
    pub names: &'a Names,
}

/// A limit that something can break: its least slack, and that of the other side if one region
/// of changes breaks both.
#[derive(Clone, Copy)]
pub struct Limit {
    pub parameter: Parameter,
    pub least: Least,
    pub after: Option<Least>,
}

/// A statement in a scope.
#[derive(Clone, Copy)]
pub struct Statement {
    pub scope: usize,
    pub line: u32,
    pub col: u32,
}

impl<'a> Sheet<'a> {
    /// The slots of a period.
    pub fn period(self) -> i64
        ensures { pos 1 ≤ℤ result }
    {
        i64::from(self.circuit.header().period())
    }

    /// The event of a number, if there is one.
    pub fn node(self, number: usize) -> Option<Node> {
        if number < self.rows.paths.len() {
            Some(self.rows.paths.node(number))
        } else {
            None
        }
    }

    /// How many events there are on the path of one.
    pub fn event_count(self, number: usize) -> usize {
        match self.node(number) {
            Some(node) => node.count,
            None => 0,
        }
    }

    /// The number of the event before one.
    pub fn before(self, number: usize) -> usize {
        match self.node(number) {
            Some(node) => node.next,
            None => number,
        }
    }

    /// The tick at which a path begins; 0 if there is no such path.
    pub fn begin(self, at: At) -> i64 {
        if self.rows.paths.has(at) {
            self.rows.paths.begin(at)
        } else {
            0
        }
    }

    /// The steps of a path; none if there is no such path.
    pub fn steps(self, at: At) -> Result<Steps, NoMemory> {
        if self.rows.paths.has(at) {
            self.rows.paths.steps(self.alloc, at)
        } else {
            Ok(Steps::new(self.alloc))
        }
    }

    /// The events of a path.
    pub fn way(self, at: At) -> Result<Nodes, NoMemory> {
        if self.rows.paths.has(at) {
            self.rows.paths.way(self.alloc, at.node)
        } else {
            Ok(Nodes::new(self.alloc))
        }
    }

    /// How many ticks before the clock the data is launched, if both come from one clock.
    pub fn ago(self, data: At, clock: At) -> Option<i64> {
        if self.rows.paths.has(data) && self.rows.paths.has(clock) {
            self.rows.paths.ago(data, clock)
        } else {
            None
        }
    }

    /// The slack of the limit at a place, if something can break it.
    fn least(self, place: usize) -> Option<Least> {
        *self.rows.least.get(place)?
    }

    /// What two paths take from one constant of a run.
    pub fn counted_twice(self, data: At, clock: At) -> Result<Parts, NoMemory> {
        let paths = &self.rows.paths;
        if paths.has(data) && paths.has(clock) {
            counted_twice(self.alloc, self.circuit, paths, data, clock)
        } else {
            Ok(Parts::new(self.alloc))
        }
    }

    /// Whether the limit at a place is reported with the one before it.
    pub fn is_reported(self, place: usize) -> bool {
        place < self.rows.parameters.len() && self.rows.is_reported(place)
    }

    /// The slack of the limit after it, if that is reported with it.
    fn after(self, place: usize) -> Option<Least> {
        let next = place.checked_add(1)?;
        if self.is_reported(next) {
            self.least(next)
        } else {
            None
        }
    }

    /// The limit at a place, if something can break it.
    pub fn limit(self, place: usize) -> Option<Limit> {
        let parameter = *self.rows.parameters.get(place)?;
        let least = self.least(place)?;
        let after = match least.finding.slack {
            Slack::NoNumber(_) => None,
            Slack::Ticks(_) | Slack::Way(_) => self.after(place),
        };
        Some(Limit {
            parameter,
            least,
            after,
        })
    }

    /// The bit of a net or an instance.
    pub fn bit(self, subject: Subject) -> u16 {
        match subject {
            Subject::Instance(number) => match self.circuit.instance(number) {
                Some(found) => found.bit,
                None => 0,
            },
            Subject::Net(number) => match self.circuit.net(number) {
                Some(found) => found.bit,
                None => 0,
            },
        }
    }

    /// The number of the instance that a subject is, or that drives it.
    pub fn element(self, subject: Subject) -> Option<u32> {
        match subject {
            Subject::Instance(number) => Some(number),
            Subject::Net(net) => self.circuit.net(net)?.driver,
        }
    }

    /// Where its statement stands.
    pub fn statement(self, subject: Subject) -> Option<Statement> {
        let number = self.element(subject)?;
        let instance = self.circuit.instance(number)?;
        Some(Statement {
            scope: self.names.scopes.number(number),
            line: instance.place.line,
            col: instance.place.col,
        })
    }

    /// The line of its statement.
    pub fn line(self, subject: Subject) -> i64 {
        match self.statement(subject) {
            Some(statement) => i64::from(statement.line),
            None => 0,
        }
    }

    /// The numbers of the cases of a set.
    pub fn cases_of(self, set: usize) -> Result<List<u32>, NoMemory> {
        self.rows.cases_of(self.alloc, set)
    }

    /// Whether there are cases.
    pub fn has_cases(self) -> bool {
        !matches!(self.rows.cases.as_slice(), [0])
    }
}
