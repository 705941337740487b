//! Paths: each event that was met once, with what leads on from it.

ghost use Rattle.std.specs.Prelude.{◌≡◌, ◌+◌, ◌-◌, ◌*◌, ◌^◌, ◌<◌, ◌≤◌, ◌++◌, ◌∷◌, [], drop, length, slice_get, pos, unwrap_or, IfOk, MatchOption, OnOk, None, Some, false};
ghost use Rattle.std.specs.Option.{option_map};
ghost use Rattle.scald_base.specs.Time.{period as period_of};
ghost use Rattle.fixpoint_engine.specs.Waves.{waves_of};
ghost use Rattle.critical_paths.specs.Launch.{offset_at, ticks_of};
ghost use Rattle.critical_paths.specs.Known.{AreShort, Has, IsNear, IsShort, IsShortNode, Tells, are_met, node_before, ticks_along};
ghost use Rattle.critical_paths.specs.Walk.{origin_of, same_stop};

use crate::arrival::{Known, Place};
use crate::direction::Direction;
use crate::event::Stop;
use crate::near::Near;
use crate::view::View;
use indexmap::IndexMap;
use scald_base::{List, NoMemory};
use std::alloc::Global;
use step_values::Value;
use wave_core::CyclicWave;

/// How surely a link goes on from the one before.
#[derive(Clone, Copy)]
pub enum Word {
    /// The delay is at its bound, and what makes the event ends there too.
    Tight,
    /// The delay is at its bound. What ends there makes nothing, and this other pin goes on.
    Bounded(u16),
    /// The delay is at its bound, but what makes the event goes on.
    Loose,
    /// A delay is inside of its bounds.
    Inside,
    /// The least delay, which counts at both ends of a pulse.
    Same,
}

/// By what an event comes from the one before it.
#[derive(Clone, Copy)]
pub enum Passage {
    /// Through a pin of the net's driver, by its wire and the driver's delay, in ticks.
    Through {
        pin: u16,
        wire: u16,
        delay: u16,
        word: Word,
    },
    /// The net's other step cuts it short, so many ticks before it.
    Cut(i8),
}

impl Passage {
    /// The ticks from the event before to this one.
    pub fn ticks(self) -> i64
        ensures is { result ≡ ticks_of self }
        ensures near { IsNear 131072 result }
    {
        match self {
            Passage::Through { wire, delay, .. } => i64::from(wire) + i64::from(delay),
            Passage::Cut(ticks) => i64::from(ticks),
        }
    }
}

/// From what an event comes.
#[derive(Clone, Copy)]
pub enum Origin {
    /// Nothing drives its net.
    Input,
    /// No pin makes it: it comes of levels, or of set and reset together.
    Level,
    /// From an earlier one, by this.
    Earlier(Passage, Stop),
}

/// Where a path ends.
#[derive(Clone, Copy)]
pub enum End {
    /// At an edge of a clock.
    Edge,
    /// At a change of another net that nothing drives.
    Source,
    /// At an event that it has passed.
    Loop,
    /// At an event that no pin makes: it comes of levels, or of set and reset together.
    Nothing,
}

/// An event that was met, and how the path goes on from it.
#[derive(Clone, Copy)]
pub struct Node {
    pub stop: Stop,
    /// By what it comes; `None` if no path goes on from it.
    pub passage: Option<Passage>,
    /// The number of the event before.
    pub next: usize,
    /// How many events the path has from here, with the one at which it ends.
    pub count: usize,
    pub end: End,
    /// The net at which it ends.
    pub(crate) source: u32,
    /// How many ticks after the path's begin the event comes: its ideal edge, or its last event.
    pub(crate) age: i64,
}

impl Node {
    /// An event at which a path ends.
    pub(crate) fn last(stop: Stop, end: End, age: i64) -> Node
        ensures { result ≡ record {
          stop = stop;
          passage = None;
          next = 0;
          count = 1;
          end = end;
          source = stop.net;
          age = age;
        } }
    {
        Node {
            stop,
            passage: None,
            next: 0,
            count: 1,
            end,
            source: stop.net,
            age,
        }
    }
}

/// Nodes, by their numbers from 0.
pub type Nodes = List<Node>;

/// A path: the number of its event, the tick of that at its net, and the ticks of the wire to the
/// pin at which it shows.
#[derive(Clone, Copy)]
pub struct At {
    pub node: usize,
    pub tick: i64,
    pub wire: u16,
}

/// A step of a net on a path, at its tick, and by what it comes.
#[derive(Clone, Copy)]
pub struct Step {
    pub net: u32,
    pub direction: Direction,
    pub passage: Option<Passage>,
    pub tick: i64,
}

/// The steps of a path, from its event back.
pub type Steps = List<Step>;

/// The events that a walk back passes, each with what it comes by.
pub(crate) type Chain = IndexMap<Stop, Passage>;

/// Where a walk back ends.
#[derive(Clone, Copy)]
pub(crate) enum Halt {
    /// At an event whose path is known, by its number.
    Known(usize),
    /// At an event that it has passed, by its place.
    Passed(usize),
    /// At an event that comes of none.
    Ends(Node),
}

/// The events of the paths of all cases, and what is known of those of the last case.
#[derive(Drop)]
pub struct Paths {
    pub(crate) nodes: Nodes,
    met: IndexMap<Stop, usize>,
    pub(crate) known: IndexMap<Place, Known>,
    pub(crate) arrivals: List<Near>,
}

/// An event of an input.
pub(crate) fn source<W: CyclicWave<Item = Value>>(view: &View<W>, stop: Stop) -> Node
    requires slot { stop.slot < period_of view.now.circuit.now.header }
    requires input { origin_of view.now.circuit.now (waves_of view.now.waves.now) stop ≡
        Origin.Input }
    ensures tells { Tells view.now.circuit.now (waves_of view.now.waves.now) [] (same_stop stop)
        stop result }
    ensures age { result.age ≡ unwrap_or (offset_at view.now.circuit.now stop) (pos 0) }
{
    match view.offset(stop) {
        Some(after) => Node::last(stop, End::Edge, after),
        None => Node::last(stop, End::Source, 0),
    }
}

/// What the events of a chain from a place on take, in ticks.
pub(crate) fn ticks_from(chain: &Chain, first: usize) -> i64
    requires short { AreShort chain.now.entries }
    requires long { length chain.now.entries ≤ 2 ^ 40 }
    ensures is { result ≡ ticks_along (drop first chain.now.entries) }
    ensures near { IsNear (131072 * (length chain.now.entries - first)) result }
{
    let mut ticks = 0;
    for place in first..chain.len() {
        if let Some((_, passage)) = chain.get_index(place) {
            ticks += passage.ticks();
        }
    }
    ticks
}

impl Paths {
    /// No paths.
    pub fn new(alloc: Global) -> Paths
        ensures nodes { result.nodes ≡ [] }
        ensures met { result.met.entries ≡ [] }
        ensures known { result.known.entries ≡ [] }
    {
        Paths {
            nodes: List::new(alloc),
            met: IndexMap::new(alloc),
            known: IndexMap::new(alloc),
            arrivals: List::new(alloc),
        }
    }

    /// Forgets the events of a case: other waves are to come. Its paths stay.
    pub fn next_case(&mut self)
        ensures nodes { self.new.nodes ≡ self.old.nodes }
        ensures met { self.new.met.entries ≡ [] }
        ensures known { self.new.known.entries ≡ [] }
    {
        self.met.clear();
        self.known.clear();
    }

    /// How many events there are.
    pub fn len(&self) -> usize
        ensures { result ≡ length self.now.nodes }
    {
        self.nodes.len()
    }

    /// An event.
    pub fn node(&self, number: usize) -> Node
        requires { number < length self.now.nodes }
        ensures { slice_get self.now.nodes number ≡ Some result }
    {
        self.nodes.as_slice()[number]
    }

    /// Appends an event, and gives its number.
    pub(crate) fn enter(&mut self, node: Node) -> Result<usize, NoMemory>
        requires { are_met self.old.met.entries node.stop ≡ false }
        ensures number { IfOk result (λ r. r ≡ length self.old.nodes) }
        ensures nodes { OnOk result (self.new.nodes ≡ self.old.nodes ++ node ∷ []) }
        ensures met { OnOk result (self.new.met.entries ≡ self.old.met.entries ++ (
          node.stop,
          length
              self.old.nodes,
        ) ∷ []) }
        ensures known { OnOk result (self.new.known.entries ≡ self.old.known.entries) }
        ensures arrivals { OnOk result (self.new.arrivals ≡ self.old.arrivals) }
    {
        let number = self.nodes.len();
        self.push(node)?;
        self.give_number(node.stop, number)?;
        Ok(number)
    }

    /// An event that comes from that of a number.
    pub(crate) fn before(&self, stop: Stop, passage: Passage, next: usize) -> Node
        requires next { next < length self.now.nodes }
        requires short { IsShortNode (slice_get self.now.nodes next) }
        requires passage { IsShort passage }
        ensures is { option_map (node_before stop passage next) (slice_get self.now.nodes next) ≡
            Some result }
        ensures near { IsNear 131072 (ticks_of passage) }
    {
        let after = self.node(next);
        Node {
            stop,
            passage: Some(passage),
            next,
            count: after.count + 1,
            age: after.age + passage.ticks(),
            ..after
        }
    }

    /// Appends an event that comes from that of a number, and gives its own.
    pub(crate) fn add(
        &mut self,
        stop: Stop,
        passage: Passage,
        next: usize,
    ) -> Result<usize, NoMemory>
        requires new { are_met self.old.met.entries stop ≡ false }
        requires next { next < length self.old.nodes }
        requires short { IsShortNode (slice_get self.old.nodes next) }
        requires passage { IsShort passage }
        ensures number { IfOk result (λ r. r ≡ length self.old.nodes) }
        ensures nodes { OnOk result (option_map (λ after. self.old.nodes ++ node_before stop passage
            next after ∷ []) (slice_get self.old.nodes next)
            ≡ Some self.new.nodes) }
        ensures met { OnOk result (self.new.met.entries ≡ self.old.met.entries ++ (
          stop,
          length
              self.old.nodes,
        ) ∷ []) }
        ensures near { IsNear 131072 (ticks_of passage) }
        ensures known { OnOk result (self.new.known.entries ≡ self.old.known.entries) }
        ensures arrivals { OnOk result (self.new.arrivals ≡ self.old.arrivals) }
    {
        let node = self.before(stop, passage, next);
        self.enter(node)
    }

    /// The number of an event that was met.
    pub(crate) fn number(&self, stop: Stop) -> Option<usize>
        ensures { MatchOption result (are_met self.now.met.entries stop ≡ false) (λ i. Has
            self.now.met.entries stop i) }
    {
        self.met.get(&stop).copied()
    }

    /// Appends a node.
    pub(crate) fn push(&mut self, node: Node) -> Result<(), NoMemory>
        ensures nodes { OnOk result (self.new.nodes ≡ self.old.nodes ++ node ∷ []) }
        ensures met { self.new.met ≡ self.old.met }
        ensures known { self.new.known.entries ≡ self.old.known.entries }
        ensures arrivals { self.new.arrivals ≡ self.old.arrivals }
    {
        self.nodes.push(node)
    }

    /// Gives an event its number.
    pub(crate) fn give_number(&mut self, stop: Stop, number: usize) -> Result<(), NoMemory>
        requires { are_met self.old.met.entries stop ≡ false }
        ensures nodes { self.new.nodes ≡ self.old.nodes }
        ensures met { OnOk result (self.new.met.entries ≡ self.old.met.entries ++ (stop, number) ∷
            []) }
        ensures known { self.new.known.entries ≡ self.old.known.entries }
        ensures arrivals { self.new.arrivals ≡ self.old.arrivals }
    {
        self.met.insert(stop, number)?;
        Ok(())
    }
}
