//! Nodes, each with those that lead to it.

ghost use Rattle.std.specs.Prelude.{◌≡◌, ◌<◌, ◌≤◌, length, MatchOption};
ghost use Rattle.flat_circuit.specs.Node.{feeders_of, AreInRange, IsFeeder};

/// A node, with the numbers of those that lead to it by one step.
#[derive(Drop)]
pub struct Node {
    pub feeders: Vec<usize>,
}

/// The feeder at a place, or none at the end.
pub(crate) fn feeder_at(nodes: &[Node], node: usize, at: usize) -> Option<usize>
    requires nodes { AreInRange nodes.now }
    requires node { node < length nodes.now }
    ensures { MatchOption result (length (feeders_of nodes.now node) ≤ at)
        (IsFeeder nodes.now node at) }
{
    let feeders = &nodes[node].feeders;
    if at < feeders.len() {
        Some(feeders[at])
    } else {
        None
    }
}
