//! A search backwards that puts each node after those that feed it.

ghost use Rattle.std.specs.Prelude.{◌≡◌, ◌≢◌, ◌<◌, ◌≤◌, length, IfOk, OnOk, MatchOption, MatchBool};
ghost use Rattle.flat_circuit.specs.Node.{feeders_of, AreInRange, AreLoopless};
ghost use Rattle.flat_circuit.specs.Sorted.{IsSorted, AreMarks, HasNoOpen, StaysMarked, mark_at};
ghost use Rattle.flat_circuit.specs.declared.order_search.Mark.TheVariants.{Fresh, Open, Clear};

use crate::node::{Node, feeder_at};
use scald_base::NoMemory;
use std::alloc::Global;

/// What is known of a node.
#[derive(Clone, Copy, PartialEq, Eq, Debug)]
pub enum Mark {
    /// It was not looked at.
    Fresh,
    /// It stands on the path that is looked at.
    Open,
    /// It is placed in the order.
    Clear,
}

/// A node of the path, and how many of its feeders were looked at.
#[derive(Clone, Copy)]
pub struct Frame {
    node: usize,
    at: usize,
}

/// All nodes, each once and after its feeders. Each feeder is looked at once.
pub fn sorted(alloc: Global, nodes: &[Node]) -> Result<Vec<usize>, NoMemory>
    requires nodes { AreInRange nodes.now }
    requires loopless { AreLoopless (feeders_of nodes.now) }
    ensures { IfOk result (λ order.
        IsSorted (feeders_of nodes.now) (length nodes.now) order.items) }
{
    let mut marks = vec![in alloc; Mark::Fresh; nodes.len()]?;
    let mut order = Vec::new(alloc);
    for root in 0..nodes.len() {
        if is_fresh(marks[root]) {
            search(alloc, nodes, &mut marks, &mut order, root)?;
        }
    }
    Ok(order)
}

// Looks at all that leads to the root, and puts it into the order, the root last.
fn search(
    alloc: Global,
    nodes: &[Node],
    marks: &mut [Mark],
    order: &mut Vec<usize>,
    root: usize,
) -> Result<(), NoMemory>
    requires nodes { AreInRange nodes.now }
    requires loopless { AreLoopless (feeders_of nodes.now) }
    requires marks { AreMarks nodes.now marks.old order.old.items }
    requires closed { HasNoOpen marks.old }
    requires root { root < length nodes.now }
    requires fresh { mark_at marks.old root ≡ Fresh }
    ensures marks { OnOk result (AreMarks nodes.now marks.new order.new.items) }
    ensures closed { OnOk result (HasNoOpen marks.new) }
    ensures stays { OnOk result (StaysMarked marks.old marks.new) }
    ensures root { OnOk result (mark_at marks.new root ≢ Fresh) }
{
    let mut path: Vec<Frame> = Vec::new(alloc);
    let mut node = root;
    let mut at = 0;
    marks[root] = Mark::Open;
    'walk: loop {
        match feeder_at(nodes, node, at) {
            Some(pin) => {
                let mark = marks[pin];
                if is_fresh(mark) {
                    path.push(Frame { node, at: at + 1 })?;
                    marks[pin] = Mark::Open;
                    node = pin;
                    at = 0;
                } else {
                    at += 1;
                }
            }
            None => {
                order.push(node)?;
                marks[node] = Mark::Clear;
                match path.pop() {
                    None => return Ok(()),
                    Some(frame) => {
                        node = frame.node;
                        at = frame.at;
                    }
                }
            }
        }
    }
}

fn is_fresh(mark: Mark) -> bool
    ensures { MatchBool result (mark ≡ Fresh) (mark ≢ Fresh) }
{
    matches!(mark, Mark::Fresh)
}
