//! A search for what a loop reaches.

ghost use Rattle.std.specs.Prelude.{◌≡◌, ◌≢◌, ◌<◌, ◌≤◌, ℕ, length, IfOk, OnOk, MatchOption, MatchBool};
ghost use Rattle.flat_circuit.specs.Search.{IsFedByLoop, feeders_of, AreInRange, AreMarks, HasNoOpen, StaysMarked, mark_at, IsFirstFed, FramesIn, closed, IsFeeder, IsFirstLooped};
ghost use Rattle.flat_circuit.specs.declared.search.Mark.TheVariants.{Fresh, Open, Clear, Looped};

use scald_base::NoMemory;
use std::alloc::Global;

/// A node, with the numbers of those that lead to it by one step.
#[derive(Drop)]
pub struct Node {
    pub feeders: Vec<usize>,
}

/// What is known of a node.
#[derive(Clone, Copy, PartialEq, Eq, Debug)]
pub enum Mark {
    /// It was not looked at.
    Fresh,
    /// It stands on the path that is looked at.
    Open,
    /// No loop reaches it.
    Clear,
    /// A loop reaches it.
    Looped,
}

/// A node of the path, and how many of its feeders were looked at.
#[derive(Clone, Copy)]
pub struct Frame {
    node: usize,
    at: usize,
}

/// The first node that can be reached from a loop. Each feeder is looked at once.
pub(crate) fn first_from_loop(alloc: Global, nodes: &[Node]) -> Result<Option<usize>, NoMemory>
    requires { AreInRange nodes.now }
    ensures { IfOk result (λ first.
        MatchOption first ((i : ℕ) → i < length nodes.now →
        ¬ (IsFedByLoop (feeders_of nodes.now) i))
        (IsFirstFed (feeders_of nodes.now))) }
{
    let mut marks = vec![in alloc; Mark::Fresh; nodes.len()]?;
    for root in 0..nodes.len() {
        if is_fresh(marks[root]) {
            search(alloc, nodes, &mut marks, root)?;
        }
    }
    Ok(first_looped(&marks))
}

// Looks at all that leads to the root, and marks it.
fn search(alloc: Global, nodes: &[Node], marks: &mut [Mark], root: usize) -> Result<(), NoMemory>
    requires nodes { AreInRange nodes.now }
    requires marks { AreMarks nodes.now marks.old }
    requires closed { HasNoOpen marks.old }
    requires root { root < length nodes.now }
    requires fresh { mark_at marks.old root ≡ Fresh }
    ensures marks { OnOk result (AreMarks nodes.now marks.new) }
    ensures closed { OnOk result (HasNoOpen marks.new) }
    ensures stays { OnOk result (StaysMarked marks.old marks.new) }
    ensures root { OnOk result (mark_at marks.new root ≢ Fresh) }
{
    let mut path: Vec<Frame> = Vec::new(alloc);
    let mut node = root;
    let mut at = 0;
    marks[root] = Mark::Open;
    'walk: loop {
        match feeder_at(nodes, node, at) {
            Some(pin) => {
                let mark = marks[pin];
                if is_fresh(mark) {
                    path.push(Frame { node, at: at + 1 })?;
                    marks[pin] = Mark::Open;
                    node = pin;
                    at = 0;
                } else if is_clear(mark) {
                    at += 1;
                } else {
                    marks[node] = Mark::Looped;
                    close(marks, &path);
                    return Ok(());
                }
            }
            None => {
                marks[node] = Mark::Clear;
                match path.pop() {
                    None => return Ok(()),
                    Some(frame) => {
                        node = frame.node;
                        at = frame.at;
                    }
                }
            }
        }
    }
}

fn is_fresh(mark: Mark) -> bool
    ensures { MatchBool result (mark ≡ Fresh) (mark ≢ Fresh) }
{
    matches!(mark, Mark::Fresh)
}

fn is_clear(mark: Mark) -> bool
    ensures { MatchBool result (mark ≡ Clear) (mark ≢ Clear) }
{
    matches!(mark, Mark::Clear)
}

fn is_looped(mark: Mark) -> bool
    ensures { MatchBool result (mark ≡ Looped) (mark ≢ Looped) }
{
    matches!(mark, Mark::Looped)
}

// The first node that a loop reaches, by the marks.
fn first_looped(marks: &[Mark]) -> Option<usize>
    ensures { MatchOption result
        ((i : ℕ) → i < length marks.now → mark_at marks.now i ≢ Looped) (IsFirstLooped marks.now) }
{
    for i in 0..marks.len() {
        if is_looped(marks[i]) {
            return Some(i);
        }
    }
    None
}

// The feeder at a place, or none at the end.
fn feeder_at(nodes: &[Node], node: usize, at: usize) -> Option<usize>
    requires nodes { AreInRange nodes.now }
    requires node { node < length nodes.now }
    ensures { MatchOption result (length (feeders_of nodes.now node) ≤ at)
        (IsFeeder nodes.now node at) }
{
    let feeders = &nodes[node].feeders;
    if at < feeders.len() {
        Some(feeders[at])
    } else {
        None
    }
}

// A loop reaches all of the path.
fn close(marks: &mut [Mark], path: &[Frame])
    requires { FramesIn (length marks.old) path.now }
    ensures { marks.new ≡ closed marks.old path.now }
{
    for frame in path {
        marks[frame.node] = Mark::Looped;
    }
}
