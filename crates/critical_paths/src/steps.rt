//! The events of a path, one after the other, with the tick of each.

ghost use Rattle.std.specs.Prelude.{◌≡◌, ◌<◌, length, slice_get, IfOk, Some};
ghost use Rattle.critical_paths.specs.Known.{IsNear, IsShortPath, step_at, steps_from, ticks_by, way_of};

use crate::event::Stop;
use crate::path::{At, Node, Nodes, Passage, Paths, Step, Steps};
use scald_base::NoMemory;
use std::alloc::Global;

/// The node at a place of a way.
pub(crate) fn node_at(way: &[Node], place: usize) -> Node
    requires { place < length way.now }
    ensures { slice_get way.now place ≡ Some result }
{
    way[place]
}

/// The step of an event on a path, at its tick.
fn step_at(node: Node, tick: i64) -> Step
    ensures { result ≡ step_at tick node }
{
    let Stop { net, direction, .. } = node.stop;
    Step {
        net,
        direction,
        passage: node.passage,
        tick,
    }
}

/// What an event takes from the one before it, in ticks; if there is none, nothing.
fn taken(passage: Option<Passage>) -> i64
    ensures is { result ≡ ticks_by passage }
    ensures near { IsNear 131072 result }
{
    match passage {
        Some(passage) => passage.ticks(),
        None => 0,
    }
}

impl Paths {
    /// The nodes of a path, from its event back.
    pub fn way(&self, alloc: Global, number: usize) -> Result<Nodes, NoMemory>
        requires { number < length self.now.nodes }
        ensures { IfOk result (λ way. way ≡ way_of self.now.nodes number) }
    {
        let first = self.node(number);
        let mut way = Nodes::new(alloc);
        way.push(first)?;
        let mut next = first.next;
        for _ in 1..first.count {
            match self.nodes.get(next) {
                Some(node) => {
                    next = node.next;
                    way.push(*node)?;
                }
                None => return Ok(way),
            }
        }
        Ok(way)
    }

    /// The steps of a path.
    pub fn steps(&self, alloc: Global, at: At) -> Result<Steps, NoMemory>
        requires node { at.node < length self.now.nodes }
        requires near { IsShortPath self.now.nodes at }
        ensures { IfOk result (λ s. s ≡ steps_from at.tick (way_of self.now.nodes at.node)) }
    {
        let way = self.way(alloc, at.node)?;
        let nodes = way.as_slice();
        let mut steps = Steps::new(alloc);
        let mut tick = at.tick;
        for place in 0..nodes.len() {
            let node = node_at(nodes, place);
            steps.push(step_at(node, tick))?;
            tick -= taken(node.passage);
        }
        Ok(steps)
    }
}
