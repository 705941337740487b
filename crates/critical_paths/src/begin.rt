//! Where paths begin, and how long one launch comes before another.

ghost use Rattle.std.specs.Prelude.{◌≡◌, ◌^◌, ◌<◌, length, IfSome, Some, IsTrue};
ghost use Rattle.critical_paths.specs.Known.{IsNear, IsShortNode, IsShortPath, ago_in, begin_in, edge_in};

use crate::path::{At, End, Node, Paths};

/// The most ticks from 0 to where a path may begin.
const MOST_TICKS: u64 = 1 << 60;

/// The most events of a path.
const MOST_EVENTS: usize = 1 << 40;

/// Whether a number lies within so many of 0.
fn is_near(most: u64, number: i64) -> bool
    ensures { IsTrue result → IsNear most number }
{
    number.unsigned_abs() <= most
}

impl Node {
    /// Whether neither its events nor their ticks are too many.
    fn is_short(&self) -> bool
        ensures { IsTrue result → IsShortNode (Some self.now) }
    {
        self.count <= MOST_EVENTS && is_near(131_072 * self.count as u64, self.age)
    }
}

impl Paths {
    /// Whether a path is one of these, and neither its tick nor its begin is far off.
    pub fn has(&self, at: At) -> bool
        ensures { IsTrue result →
            (at.node < length self.now.nodes) × IsShortPath self.now.nodes at }
    {
        match self.nodes.get(at.node) {
            Some(node) => is_near(MOST_TICKS, at.tick) && node.is_short(),
            None => false,
        }
    }

    /// The tick at which a path begins: that of its ideal edge, or of its last event.
    pub fn begin(&self, at: At) -> i64
        requires node { at.node < length self.now.nodes }
        requires near { IsShortPath self.now.nodes at }
        ensures is { Some result ≡ begin_in self.now.nodes at }
        ensures near { IsNear (2 ^ 61) result }
    {
        at.tick - self.node(at.node).age
    }

    /// The clock that a path comes from, and the tick of the edge.
    pub fn edge(&self, at: At) -> Option<(u32, i64)>
        requires node { at.node < length self.now.nodes }
        requires near { IsShortPath self.now.nodes at }
        ensures is { result ≡ edge_in self.now.nodes at }
        ensures near { IfSome result (λ edge. IsNear (2 ^ 61) edge.1) }
    {
        let node = self.node(at.node);
        if matches!(node.end, End::Edge) {
            Some((node.source, self.begin(at)))
        } else {
            None
        }
    }

    /// How many ticks before the clock the data is launched, if both come from one clock.
    pub fn ago(&self, data: At, clock: At) -> Option<i64>
        requires own { «data».node < length self.now.nodes }
        requires clock { clock.node < length self.now.nodes }
        requires near_data { IsShortPath self.now.nodes «data» }
        requires near_clock { IsShortPath self.now.nodes clock }
        ensures { result ≡ ago_in (edge_in self.now.nodes «data») (edge_in self.now.nodes clock) }
    {
        let (net, launched) = self.edge(data)?;
        let (other, edge) = self.edge(clock)?;
        if net == other {
            Some(edge - launched)
        } else {
            None
        }
    }
}
