//! What a run is made from.

ghost use Rattle.std.specs.Prelude.{◌≡◌, slice_get, option_map};
ghost use Rattle.trace_sim.specs.Choice.{chosen, choices_of};

use scald_base::List;
use vector_names::Indices;

/// For each instance its rise and its fall delay, in ticks; if it has one delay, both are that
/// one. What stands at a change function or at a checker does not count.
pub type DelayPicks = List<(u16, u16)>;

/// For each instance the delay of the wire to each of its pins, in ticks: 0 on a constant.
pub type WirePicks = List<Indices>;

/// The bits of one net, one for each tick.
pub type Levels = List<bool>;

/// The bits of all nets, by their numbers.
pub type Traces = List<Levels>;

/// What a run is made from.
#[derive(Drop)]
pub struct Choice {
    pub delays: DelayPicks,
    pub wires: WirePicks,
    /// The bits of the nets that nothing drives. Those of other nets do not count.
    pub inputs: Traces,
    /// The bits of driven nets if no equation fixes one: the start, a change function that may
    /// change, set and reset both 1. Other bits do not count.
    pub free: Traces,
}

impl Choice {
    /// The delays and the wires' delays that are picked at an instance, or `None` past the last.
    pub fn at(&self, k: usize) -> Option<((u16, u16), &[u16])>
        ensures { option_map (λ p. chosen p.0 p.1.now) result ≡ slice_get (choices_of self.now) k }
    {
        match self.delays.get(k) {
            None => None,
            Some(delays) => match self.wires.get(k) {
                None => None,
                Some(wires) => Some((*delays, wires.as_slice())),
            },
        }
    }
}
