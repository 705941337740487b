//! Walks back from an event, along what is not known yet.

ghost use Rattle.std.specs.Prelude.{◌≡◌, ◌+◌, ◌-◌, ◌+ℤ◌, ◌<◌, ◌≤◌, ◌^◌, length, nat_lt, pos, if◌then◌else◌, IfOk, IfSome, OnOk, Some, []};
ghost use Rattle.std.specs.Option.{option_and_then, option_map};
ghost use Rattle.scald_base.specs.Time.{period as period_of};
ghost use Rattle.fixpoint_engine.specs.Waves.{waves_of};
ghost use Rattle.critical_paths.specs.Launch.{edge_of};
ghost use Rattle.critical_paths.specs.Known.{AreApart, AreNew, AreStops, Grows, Has, IsBegun, IsHalt, IsNear, IsNumbered, IsRound, IsShortPath, IsStop, IsWalked, Knows, Leads, Walked, corner_in, edge_in, path_at, path_known, stop_after, edge_pair};
ghost use Rattle.critical_paths.specs.Tick.{IsWithin, most_tick, slot_of};
ghost use Rattle.critical_paths.specs.Views.{IsPin, Sees, event_of};
ghost use Rattle.critical_paths.specs.Walk.{end_pin_path, path_of_stop, pin_path_on, stop_of};

use crate::event::{Event, PinEvent, Reading, Stop};
use crate::path::{At, Chain, End, Halt, Node, Origin, Paths, source, ticks_from};
use crate::view::View;
use fixpoint_engine::wire_behind;
use flat_circuit::Target;
use scald_base::NoMemory;
use step_values::Value;
use wave_core::CyclicWave;

/// The number of the event before that at a place of a chain, of which those from one place on go
/// round and have numbers from one on.
fn next_in_round(base: usize, first: usize, place: usize, past: usize) -> usize
    requires from { first ≤ place }
    requires room { base + past < 2 ^ 64 }
    ensures { result ≡ (if nat_lt (place + 1) past then base + (place + 1 - first) else base) }
{
    if place < past && place + 1 < past {
        base + (place + 1 - first)
    } else {
        base
    }
}

impl Paths {
    /// Walks back from an event along what is not known, and says where that ends.
    fn walk<W: CyclicWave<Item = Value>>(
        &self,
        view: &View<W>,
        chain: &mut Chain,
        start: Stop,
    ) -> Result<(Halt, Stop), NoMemory>
        requires sees { Sees view.now.circuit.now view.now.waves.now view.now.hazards.now }
        requires stop { IsStop view.now.circuit.now start.corner start }
        requires none { chain.old.entries ≡ [] }
        ensures walked { IfOk result (λ r. Walked view.now.circuit.now (waves_of view.now.waves.now)
            self.now.met.entries start chain.new.entries r.1) }
        ensures halt { IfOk result (λ r. IsHalt view.now.circuit.now (waves_of view.now.waves.now)
            self.now.met.entries chain.new.entries r.1 r.0) }
    {
        let mut stop = start;
        'links: loop {
            if let Some(number) = self.number(stop) {
                return Ok((Halt::Known(number), stop));
            }
            if let Some(place) = chain.get_index_of(&stop) {
                return Ok((Halt::Passed(place), stop));
            }
            match view.origin(stop)? {
                Origin::Earlier(passage, earlier) => {
                    chain.insert(stop, passage)?;
                    stop = earlier;
                }
                Origin::Input => return Ok((Halt::Ends(source(view, stop)), stop)),
                Origin::Level => return Ok((Halt::Ends(Node::last(stop, End::Nothing, 0)), stop)),
            }
        }
    }

    /// Appends the events of a chain from a place on, of which each comes from the next and the
    /// last from the first, and which take so many ticks together.
    fn push_round(&mut self, chain: &Chain, first: usize, ticks: i64) -> Result<(), NoMemory>
        requires { first < length chain.now.entries }
        ensures nodes { OnOk result (IsRound self.old.nodes chain.now.entries first (length
            chain.now.entries) ticks self.new.nodes) }
        ensures met { self.new.met ≡ self.old.met }
        ensures known { OnOk result (self.new.known.entries ≡ self.old.known.entries) }
        ensures arrivals { OnOk result (self.new.arrivals ≡ self.old.arrivals) }
    {
        let base = self.nodes.as_slice().len();
        let past = chain.len();
        for place in first..past {
            if let Some((stop, passage)) = chain.get_index(place) {
                self.push(Node {
                    stop: *stop,
                    passage: Some(*passage),
                    next: next_in_round(base, first, place, past),
                    count: past - first + 1,
                    end: End::Loop,
                    source: stop.net,
                    age: ticks,
                })?;
            }
        }
        Ok(())
    }

    /// Gives the events of a chain from a place on their numbers, from one on.
    fn number_round(&mut self, chain: &Chain, first: usize, base: usize) -> Result<(), NoMemory>
        requires new { AreNew self.old.met.entries chain.now.entries (length chain.now.entries) }
        requires apart { AreApart chain.now.entries }
        requires room { base + length chain.now.entries < 2 ^ 64 }
        ensures nodes { self.new.nodes ≡ self.old.nodes }
        ensures met { OnOk result (IsNumbered self.old.met.entries chain.now.entries first base
            (length chain.now.entries) self.new.met.entries) }
        ensures known { OnOk result (self.new.known.entries ≡ self.old.known.entries) }
        ensures arrivals { OnOk result (self.new.arrivals ≡ self.old.arrivals) }
    {
        for place in first..chain.len() {
            if let Some((stop, _)) = chain.get_index(place) {
                self.give_number(*stop, base + (place - first))?;
            }
        }
        Ok(())
    }

    /// Makes the end of a walk known: its number, and the place in the chain up to which the events
    /// lead to it.
    fn settle<W: CyclicWave<Item = Value>>(
        &mut self,
        view: &View<W>,
        chain: &Chain,
        halt: Halt,
        stop: Stop,
    ) -> Result<(usize, usize), NoMemory>
        requires sees { Sees view.now.circuit.now view.now.waves.now view.now.hazards.now }
        requires knows { Knows view.now.circuit.now (waves_of view.now.waves.now) self.old.nodes
            self.old.met.entries }
        requires walked { IsWalked view.now.circuit.now (waves_of view.now.waves.now)
            self.old.met.entries chain.now.entries stop }
        requires halt { IsHalt view.now.circuit.now (waves_of view.now.waves.now)
            self.old.met.entries chain.now.entries stop halt }
        ensures begun { IfOk result (IsBegun view.now.circuit.now (waves_of view.now.waves.now)
            self.new.nodes self.new.met.entries chain.now.entries stop) }
        ensures grows { OnOk result (Grows self.old.nodes self.new.nodes) }
        ensures known { OnOk result (self.new.known.entries ≡ self.old.known.entries) }
        ensures arrivals { OnOk result (self.new.arrivals ≡ self.old.arrivals) }
    {
        // no path is long, since no period is
        let _period = view.period();
        match halt {
            Halt::Known(number) => Ok((number, chain.len())),
            Halt::Ends(node) => Ok((self.enter(node)?, chain.len())),
            Halt::Passed(place) => {
                let base = self.nodes.as_slice().len();
                self.push_round(chain, place, ticks_from(chain, place))?;
                self.number_round(chain, place, base)?;
                Ok((base, place))
            }
        }
    }

    /// Makes the events of a chain before a place known, the last of them first: the number of the
    /// first. The event at the place has this number.
    fn link<W: CyclicWave<Item = Value>>(
        &mut self,
        view: &View<W>,
        chain: &Chain,
        stop: Stop,
        last: usize,
        past: usize,
    ) -> Result<usize, NoMemory>
        requires sees { Sees view.now.circuit.now view.now.waves.now view.now.hazards.now }
        requires leads { Leads view.now.circuit.now (waves_of view.now.waves.now) chain.now.entries
            stop }
        requires stops { AreStops view.now.circuit.now stop.corner chain.now.entries }
        requires apart { AreApart chain.now.entries }
        requires begun { IsBegun view.now.circuit.now (waves_of view.now.waves.now) self.old.nodes
            self.old.met.entries chain.now.entries stop (last, past) }
        ensures knows { OnOk result (Knows view.now.circuit.now (waves_of view.now.waves.now)
            self.new.nodes self.new.met.entries) }
        ensures grows { OnOk result (Grows self.old.nodes self.new.nodes) }
        ensures path { IfOk result (λ n. path_known self.new.nodes n
            ≡ Some (path_of_stop view.now.circuit.now (waves_of view.now.waves.now) (stop_after
            chain.now.entries stop 0))) }
        ensures has { IfOk result (λ n. Has self.new.met.entries (stop_after chain.now.entries stop
            0) n) }
        ensures known { OnOk result (self.new.known.entries ≡ self.old.known.entries) }
        ensures arrivals { OnOk result (self.new.arrivals ≡ self.old.arrivals) }
    {
        // no path is long, since no period is
        let _period = view.period();
        let mut number = last;
        for back in 0..past {
            if let Some((event, passage)) = chain.get_index(past - 1 - back) {
                number = self.add(*event, *passage, number)?;
            }
        }
        Ok(number)
    }

    /// The number of an event, whose path is worked out if it is not yet.
    pub(crate) fn trace<W: CyclicWave<Item = Value>>(
        &mut self,
        view: &View<W>,
        start: Stop,
    ) -> Result<usize, NoMemory>
        requires sees { Sees view.now.circuit.now view.now.waves.now view.now.hazards.now }
        requires knows { Knows view.now.circuit.now (waves_of view.now.waves.now) self.old.nodes
            self.old.met.entries }
        requires stop { IsStop view.now.circuit.now start.corner start }
        ensures knows { OnOk result (Knows view.now.circuit.now (waves_of view.now.waves.now)
            self.new.nodes self.new.met.entries) }
        ensures grows { OnOk result (Grows self.old.nodes self.new.nodes) }
        ensures path { IfOk result (λ n. path_known self.new.nodes n
            ≡ Some (path_of_stop view.now.circuit.now (waves_of view.now.waves.now) start)) }
        ensures has { IfOk result (λ n. Has self.new.met.entries start n) }
        ensures known { OnOk result (self.new.known.entries ≡ self.old.known.entries) }
        ensures arrivals { OnOk result (self.new.arrivals ≡ self.old.arrivals) }
    {
        let mut chain = Chain::new(view.alloc);
        let (halt, stop) = self.walk(view, &mut chain, start)?;
        let (last, past) = self.settle(view, &chain, halt, stop)?;
        let first = self.link(view, &chain, stop, last, past)?;
        Ok(first)
    }
}

impl<'a, W: CyclicWave<Item = Value>> View<'a, W> {
    /// The path of an event of a net.
    pub fn net_path(&self, paths: &mut Paths, event: Event) -> Result<At, NoMemory>
        requires sees { Sees self.now.circuit.now self.now.waves.now self.now.hazards.now }
        requires knows { Knows self.now.circuit.now (waves_of self.now.waves.now) paths.old.nodes
            paths.old.met.entries }
        requires net { event.net < length self.now.circuit.now.nets }
        ensures knows { OnOk result (Knows self.now.circuit.now (waves_of self.now.waves.now)
            paths.new.nodes paths.new.met.entries) }
        ensures grows { OnOk result (Grows paths.old.nodes paths.new.nodes) }
        ensures path { let c = self.now.circuit.now in IfOk result (λ at. path_known paths.new.nodes
            at.node
            ≡ Some (path_of_stop c (waves_of self.now.waves.now)
            (stop_of c event.corner event.reading (event_of (period_of c.header) event)))) }
        ensures tick { IfOk result (λ at. at.tick ≡ event.tick) }
        ensures corner { IfOk result (λ at. corner_in paths.new.nodes at ≡ Some event.corner) }
        ensures has { let c = self.now.circuit.now in IfOk result (λ at. Has paths.new.met.entries
            (stop_of c event.corner event.reading (event_of (period_of c.header) event)) at.node) }
        ensures short { IfOk result (λ at. IsNear (2 ^ 60) event.tick → IsShortPath paths.new.nodes
            at) }
        ensures edge { let c = self.now.circuit.now in IfOk result (λ at. event.reading ≡
            Reading.Folded →
            edge_in paths.new.nodes at ≡ option_map edge_pair (option_and_then (edge_of c
            event.corner at.tick)
            (path_known paths.new.nodes at.node))) }
        ensures known { OnOk result (paths.new.known.entries ≡ paths.old.known.entries) }
        ensures arrivals { OnOk result (paths.new.arrivals ≡ paths.old.arrivals) }
    {
        // no path is long, since no period is
        let _period = self.period();
        Ok(At {
            node: paths.trace(self, self.stop_at(event.corner, event))?,
            tick: event.tick,
            wire: 0,
        })
    }

    /// The path of a step of a pin, or `None` if it may not make it.
    pub fn pin_path(&self, paths: &mut Paths, at: PinEvent) -> Result<Option<At>, NoMemory>
        requires sees { Sees self.now.circuit.now self.now.waves.now self.now.hazards.now }
        requires knows { Knows self.now.circuit.now (waves_of self.now.waves.now) paths.old.nodes
            paths.old.met.entries }
        requires pin { IsPin self.now.circuit.now at.pin }
        requires tick { IsWithin most_tick at.tick }
        ensures knows { OnOk result (Knows self.now.circuit.now (waves_of self.now.waves.now)
            paths.new.nodes paths.new.met.entries) }
        ensures grows { OnOk result (Grows paths.old.nodes paths.new.nodes) }
        ensures path { let c = self.now.circuit.now in IfOk result (λ found. option_map (path_at
            paths.new.nodes) found
            ≡ option_map Some (pin_path_on c (waves_of self.now.waves.now) at.corner (slot_of
            (period_of c.header) at.tick)
            at.direction at.pin.inverted at.pin.target)) }
        ensures tick { IfOk result (λ found. IfSome found (λ path. path.tick +ℤ pos path.wire ≡
            at.tick)) }
        ensures corner { IfOk result (λ found. IfSome found (λ path.
            corner_in paths.new.nodes path ≡ Some at.corner)) }
        ensures short { IfOk result (λ found. IfSome found (IsShortPath paths.new.nodes)) }
        ensures edge { let c = self.now.circuit.now in IfOk result (λ found. IfSome found (λ path.
            edge_in paths.new.nodes path ≡ option_map edge_pair (option_and_then (edge_of c
            at.corner path.tick)
            (path_known paths.new.nodes path.node)))) }
        ensures known { OnOk result (paths.new.known.entries ≡ paths.old.known.entries) }
        ensures arrivals { OnOk result (paths.new.arrivals ≡ paths.old.arrivals) }
    {
        let Some(behind) = self.behind(at) else {
            return Ok(None);
        };
        let path = self.net_path(paths, behind.event)?;
        Ok(Some(At {
            wire: behind.wire,
            ..path
        }))
    }

    /// The path of an end of a pulse at a pin, in waves whose skew is not folded in; none on a
    /// constant.
    pub fn end_path(&self, paths: &mut Paths, at: PinEvent) -> Result<Option<At>, NoMemory>
        requires sees { Sees self.now.circuit.now self.now.waves.now self.now.hazards.now }
        requires knows { Knows self.now.circuit.now (waves_of self.now.waves.now) paths.old.nodes
            paths.old.met.entries }
        requires pin { IsPin self.now.circuit.now at.pin }
        requires tick { IsWithin most_tick at.tick }
        ensures knows { OnOk result (Knows self.now.circuit.now (waves_of self.now.waves.now)
            paths.new.nodes paths.new.met.entries) }
        ensures grows { OnOk result (Grows paths.old.nodes paths.new.nodes) }
        ensures path { let c = self.now.circuit.now in IfOk result (λ found. option_map (path_at
            paths.new.nodes) found
            ≡ option_map Some (end_pin_path c (waves_of self.now.waves.now) at.corner at.direction
            (slot_of (period_of c.header) at.tick) at.pin)) }
        ensures tick { IfOk result (λ found. IfSome found (λ path. path.tick +ℤ pos path.wire ≡
            at.tick)) }
        ensures corner { IfOk result (λ found. IfSome found (λ path.
            corner_in paths.new.nodes path ≡ Some at.corner)) }
        ensures short { IfOk result (λ found. IfSome found (IsShortPath paths.new.nodes)) }
        ensures known { OnOk result (paths.new.known.entries ≡ paths.old.known.entries) }
        ensures arrivals { OnOk result (paths.new.arrivals ≡ paths.old.arrivals) }
    {
        // there is a slot, since each period has one
        let _period = self.period();
        let Target::Net(net) = at.pin.target else {
            return Ok(None);
        };
        let wire = wire_behind(self.circuit, at.pin.target).min;
        let path = self.net_path(
            paths,
            Event {
                net,
                direction: at.direction.turned(at.pin.inverted),
                tick: at.tick - i64::from(wire),
                corner: at.corner,
                reading: Reading::Unfolded,
            },
        )?;
        Ok(Some(At { wire, ..path }))
    }
}
