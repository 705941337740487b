//! The arrivals at a place, from those at the places behind the pins of its driver.

ghost use Rattle.std.specs.Prelude.{◌≡◌, ℕ, ◌+◌, ◌*◌, ◌+ℤ◌, ◌==◌, ◌++◌, ◌∷◌, ◌<◌, ◌≤◌, [], ◌^◌, true, fold, is_some, length, map, slice_get, slice_set, if◌then◌else◌, IfNone, IfOk, IfSome, List, None, OnOk, Option, Some};
ghost use Rattle.std.specs.List.{All};
ghost use Rattle.std.specs.Option.{option_map};
ghost use Rattle.std.specs.Ordering.{int_eq};
ghost use Rattle.flat_circuit.specs.Circuit.{driver as driver_of};
ghost use Rattle.flat_circuit.specs.Instances.{InstanceFits};
ghost use Rattle.fixpoint_engine.specs.Waves.{waves_of};
ghost use Rattle.critical_paths.specs.declared.gather.Reached.{Reached};
ghost use Rattle.critical_paths.specs.declared.near.Near.{Near};
ghost use Rattle.critical_paths.specs.declared.path.Node.{Node};
ghost use Rattle.critical_paths.specs.Arrival.{source_arrivals};
ghost use Rattle.critical_paths.specs.Tick.{IsWithin, is_further};
ghost use Rattle.critical_paths.specs.Known.{IsNear, IsShort, node_before};
ghost use Rattle.critical_paths.specs.Launch.{ticks_of};
ghost use Rattle.critical_paths.specs.Reached.{AddsOnly, AddsThrough, AreArrivals, AreDoneBehind, AreExact, AreThrough, AreWays, HasWay, HaveWays, IsBehind, IsEdgeRegion, IsFew, IsFirstOf, IsOfNone, end_time, gathered, is_done, later, of_clock, time_of, times_in, with_later, with_one, with_time};
ghost use Rattle.critical_paths.specs.Views.{Sees};

use crate::arrival::{Known, Place, is_net, place_behind};
use crate::direction::Corner;
use crate::event::Stop;
use crate::near::Near;
use crate::path::{Node, Passage, Paths, source};
use crate::region::{Region, Test, slots_of};
use crate::view::View;
use flat_circuit::Instance;
use scald_base::{List, NoMemory};
use step_values::Value;
use wave_core::CyclicWave;

/// More events than any way has on which no net comes twice: there are at most 65,536 nets.
const LONGEST: usize = 0x100_0000;

/// An arrival at a place and its event, which has no number yet.
#[derive(Clone, Copy)]
pub(crate) struct Reached {
    pub(crate) event: Node,
    pub(crate) near: Near,
}

/// The arrivals at a place, of each edge one.
pub(crate) type AllReached = List<Reached>;

/// The arrival of a number.
pub(crate) fn reached_at(some: &[Reached], at: usize) -> Reached
    requires { at < length some.now }
    ensures { slice_get some.now at ≡ Some result }
{
    some[at]
}

/// Whether two arrivals are of one edge.
fn are_one(reached: Reached, other: Reached) -> bool
    ensures { result ≡ int_eq reached.near.ideal other.near.ideal }
{
    reached.near.ideal == other.near.ideal
}

/// The number of the first arrival of an arrival's edge among some.
fn place_of(some: &[Reached], reached: Reached) -> Option<usize>
    ensures within { IfSome result (λ at. at < length some.now) }
    ensures is { IfSome result (λ at. (a : Reached) × IsFirstOf reached.near.ideal some.now at a) }
    ensures none { IfNone result (IsOfNone reached.near.ideal some.now) }
{
    for at in 0..some.len() {
        if are_one(reached_at(some, at), reached) {
            return Some(at);
        }
    }
    None
}

/// Puts an arrival in the place of another one of its edge, if it is further.
fn set_further(out: &mut AllReached, corner: Corner, at: usize, reached: Reached)
    requires { at < length out.old }
    ensures { (own : Reached) → slice_get out.old at ≡ Some own → out.new ≡
        (if is_further corner reached.near.tick own.near.tick then slice_set out.old at reached
        else out.old) }
{
    let own = reached_at(out.as_slice(), at);
    if corner.is_further(reached.near.tick, own.near.tick) {
        out.set(at, reached);
    }
}

/// Adds an arrival, or puts it in the place of one of its edge that is not as far.
fn merge(out: &mut AllReached, corner: Corner, reached: Reached) -> Result<(), NoMemory>
    ensures gathered { OnOk result (gathered out.new
        ≡ with_time corner (gathered out.old) (time_of reached)) }
    ensures only { OnOk result (AddsOnly reached out.old out.new) }
{
    match place_of(out.as_slice(), reached) {
        Some(at) => set_further(out, corner, at, reached),
        None => out.push(reached)?,
    }
    Ok(())
}

/// Adds the arrival of an edge of the clock at the clock itself, at the end of a region.
fn add_edge<W: CyclicWave<Item = Value>>(
    view: &View<W>,
    place: Place,
    region: Region,
    out: &mut AllReached,
) -> Result<(), NoMemory>
    requires input { driver_of view.now.circuit.now place.net ≡ None }
    requires edge { IsEdgeRegion view.now.circuit.now (waves_of view.now.waves.now) place region }
    ensures gathered { OnOk result (gathered out.new
        ≡ gathered out.old ++ end_time view.now.circuit.now place region ∷ []) }
    ensures ways { let c = view.now.circuit.now in let ws = waves_of view.now.waves.now in
        (nodes : List Node) → place.net ≡ place.clock →
        OnOk result (AreWays c ws nodes place out.old → AreWays c ws nodes place out.new) }
{
    let tick = region.end(place.corner);
    let stop = place.stop(view.slot(tick));
    let event = source(view, stop);
    let near = Near::begun(tick, event.age);
    out.push(Reached { event, near })?;
    Ok(())
}

/// Adds those at the ends of some regions.
fn add_each<W: CyclicWave<Item = Value>>(
    view: &View<W>,
    place: Place,
    regions: &[Region],
    out: &mut AllReached,
) -> Result<(), NoMemory>
    requires input { driver_of view.now.circuit.now place.net ≡ None }
    requires edges { All (IsEdgeRegion view.now.circuit.now (waves_of view.now.waves.now) place)
        regions.now }
    ensures gathered { OnOk result (gathered out.new
        ≡ gathered out.old ++ map (end_time view.now.circuit.now place) regions.now) }
    ensures ways { let c = view.now.circuit.now in let ws = waves_of view.now.waves.now in
        (nodes : List Node) → place.net ≡ place.clock →
        OnOk result (AreWays c ws nodes place out.old → AreWays c ws nodes place out.new) }
{
    for region in regions {
        add_edge(view, place, *region, out)?;
    }
    Ok(())
}

/// Adds the arrivals at the clock itself.
fn add_edges<W: CyclicWave<Item = Value>>(
    view: &View<W>,
    place: Place,
    out: &mut AllReached,
) -> Result<(), NoMemory>
    requires sees { Sees view.now.circuit.now view.now.waves.now view.now.hazards.now }
    requires net { place.net < length view.now.circuit.now.nets }
    requires input { driver_of view.now.circuit.now place.net ≡ None }
    ensures gathered { OnOk result (place.net ≡ place.clock → gathered out.new
        ≡ gathered out.old ++ of_clock place.clock
        (source_arrivals view.now.circuit.now (waves_of view.now.waves.now) place.corner
        place.direction place.net)) }
    ensures ways { let c = view.now.circuit.now in let ws = waves_of view.now.waves.now in
        (nodes : List Node) → place.net ≡ place.clock →
        OnOk result (AreWays c ws nodes place out.old → AreWays c ws nodes place out.new) }
{
    // no period is short
    let _period = view.period();
    let fold = view.waves.at(place.net).folded(view.alloc)?;
    let changes = slots_of(view.alloc, &fold, Test::May(place.direction))?;
    // what may change in every slot has no edge
    if changes.are_all {
        return Ok(());
    }
    add_each(view, place, changes.regions.as_slice(), out)?;
    Ok(())
}

impl Paths {
    /// An event that comes from that of a number, unless there is none or its path is longer than
    /// any can be.
    fn after(&self, stop: Stop, passage: Passage, next: usize) -> Option<Node>
        requires { IsShort passage }
        ensures is { IfSome result (λ node. option_map (node_before stop passage next)
            (slice_get self.now.nodes next) ≡ Some node) }
        ensures some { (n : Node) → slice_get self.now.nodes next ≡ Some n → n.count ≤ 2 ^ 24 →
            IsNear (131072 * n.count) n.age → is_some result ≡ true }
    {
        let before = self.nodes.get(next)?;
        if before.count > LONGEST {
            return None;
        }
        if before.age.unsigned_abs() > 131_072 * before.count as u64 {
            return None;
        }
        Some(self.before(stop, passage, next))
    }

    /// An arrival at an event that comes by a passage from another one, unless the way is longer
    /// than any can be.
    fn reached(&self, stop: Stop, passage: Passage, behind: Near) -> Option<Reached>
        requires { IsShort passage }
        ensures time { IfSome result (λ found. time_of found
            ≡ later passage (behind.ideal, behind.tick)) }
        ensures event { IfSome result (λ found. option_map (node_before stop passage behind.node)
            (slice_get self.now.nodes behind.node) ≡ Some found.event) }
        ensures some { (n : Node) → slice_get self.now.nodes behind.node ≡ Some n →
            n.count ≤ 2 ^ 24 → IsNear (131072 * n.count) n.age →
            IsWithin (2 ^ 46) (behind.tick +ℤ ticks_of passage) → is_some result ≡ true }
    {
        let near = behind.later(passage.ticks())?;
        let event = self.after(stop, passage, behind.node)?;
        Some(Reached { event, near })
    }

    /// Adds that of a number by a passage, if the net may make such a step at its tick; `false` if
    /// the way is longer than any can be.
    fn add_one<W: CyclicWave<Item = Value>>(
        &self,
        view: &View<W>,
        place: Place,
        passage: Passage,
        number: usize,
        out: &mut AllReached,
    ) -> Result<bool, NoMemory>
        requires sees { Sees view.now.circuit.now view.now.waves.now view.now.hazards.now }
        requires net { place.net < length view.now.circuit.now.nets }
        requires passage { IsShort passage }
        requires number { number < length self.now.arrivals }
        ensures gathered { let c = view.now.circuit.now in let ws = waves_of view.now.waves.now in
            IfOk result (λ fits. fits ≡ true → (behind : Near) →
            slice_get self.now.arrivals number ≡ Some behind → gathered out.new
            ≡ with_one c ws place (gathered out.old)
            (later passage (behind.ideal, behind.tick))) }
        ensures ways { let c = view.now.circuit.now in let ws = waves_of view.now.waves.now in
            OnOk result ((b : Place) (behind : Near) → IsBehind c place (b, passage) →
            slice_get self.now.arrivals number ≡ Some behind →
            HasWay c ws self.now.nodes b behind →
            AreWays c ws self.now.nodes place out.old →
            AreWays c ws self.now.nodes place out.new) }
        ensures fits { let c = view.now.circuit.now in let ws = waves_of view.now.waves.now in
            IfOk result (λ fits. (b : Place) (behind : Near) → IsFew c ws b →
            slice_get self.now.arrivals number ≡ Some behind →
            HasWay c ws self.now.nodes b behind → fits ≡ true) }
    {
        let behind = self.near_at(number);
        let tick = behind.tick_after(passage.ticks());
        if !view.permits(place.net, place.direction, tick) {
            return Ok(true);
        }
        let stop = place.stop(view.slot(tick));
        let Some(reached) = self.reached(stop, passage, behind) else {
            return Ok(false);
        };
        merge(out, place.corner, reached)?;
        Ok(true)
    }

    /// Adds those of some numbers by a passage; `false` if a way is longer than any can be.
    fn add_some<W: CyclicWave<Item = Value>>(
        &self,
        view: &View<W>,
        place: Place,
        passage: Passage,
        numbers: (usize, usize),
        out: &mut AllReached,
    ) -> Result<bool, NoMemory>
        requires sees { Sees view.now.circuit.now view.now.waves.now view.now.hazards.now }
        requires net { place.net < length view.now.circuit.now.nets }
        requires passage { IsShort passage }
        requires ordered { numbers.0 ≤ numbers.1 }
        requires numbers { numbers.1 ≤ length self.now.arrivals }
        ensures gathered { let c = view.now.circuit.now in let ws = waves_of view.now.waves.now in
            IfOk result (λ fits. fits ≡ true → gathered out.new
            ≡ fold (with_later c ws place passage) (gathered out.old)
            (times_in self.now.arrivals numbers.0 numbers.1)) }
        ensures ways { let c = view.now.circuit.now in let ws = waves_of view.now.waves.now in
            OnOk result ((b : Place) → IsBehind c place (b, passage) →
            HaveWays c ws self.now.nodes b self.now.arrivals numbers.0 numbers.1 →
            AreWays c ws self.now.nodes place out.old →
            AreWays c ws self.now.nodes place out.new) }
        ensures fits { let c = view.now.circuit.now in let ws = waves_of view.now.waves.now in
            IfOk result (λ fits. (b : Place) → IsFew c ws b →
            HaveWays c ws self.now.nodes b self.now.arrivals numbers.0 numbers.1 →
            fits ≡ true) }
    {
        let (from, to) = numbers;
        for number in from..to {
            if !self.add_one(view, place, passage, number, out)? {
                return Ok(false);
            }
        }
        Ok(true)
    }

    /// Adds those that come through a pin, if there is a place after it; `false` if that is not
    /// worked out, or a way is longer than any can be.
    fn add_through<W: CyclicWave<Item = Value>>(
        &self,
        view: &View<W>,
        place: Place,
        behind: Option<(Place, Passage)>,
        out: &mut AllReached,
    ) -> Result<bool, NoMemory>
        requires sees { Sees view.now.circuit.now view.now.waves.now view.now.hazards.now }
        requires net { place.net < length view.now.circuit.now.nets }
        requires passage { IfSome behind (λ found. IsShort found.1) }
        ensures gathered { let c = view.now.circuit.now in let ws = waves_of view.now.waves.now in
            AreExact c ws self.now → IfOk result (λ fits. fits ≡ true →
            AddsThrough c ws place behind (gathered out.old) (gathered out.new)) }
        ensures ways { let c = view.now.circuit.now in let ws = waves_of view.now.waves.now in
            AreExact c ws self.now → OnOk result (IfSome behind (IsBehind c place) →
            AreWays c ws self.now.nodes place out.old →
            AreWays c ws self.now.nodes place out.new) }
        ensures fits { let c = view.now.circuit.now in let ws = waves_of view.now.waves.now in
            AreExact c ws self.now → IfOk result (λ fits.
            IfSome behind (λ found. (is_done self.now.known.entries found.0 ≡ true)
            × IsFew c ws found.0) → fits ≡ true) }
    {
        let Some((behind, passage)) = behind else {
            return Ok(true);
        };
        let Some(numbers) = self.range(behind) else {
            return Ok(false);
        };
        self.add_some(view, place, passage, numbers, out)
    }

    /// Adds those that come through each pin of the driver of a place's net; `false` if a place
    /// after them is not worked out, or a way is longer than any can be.
    fn add_pins<W: CyclicWave<Item = Value>>(
        &self,
        view: &View<W>,
        element: &Instance,
        place: Place,
        out: &mut AllReached,
    ) -> Result<bool, NoMemory>
        requires sees { Sees view.now.circuit.now view.now.waves.now view.now.hazards.now }
        requires net { place.net < length view.now.circuit.now.nets }
        requires fits { InstanceFits view.now.circuit.now.header
            (length view.now.circuit.now.nets) element.now }
        requires driven { driver_of view.now.circuit.now place.net ≡ Some element.now }
        ensures gathered { let c = view.now.circuit.now in let ws = waves_of view.now.waves.now in
            AreExact c ws self.now → IfOk result (λ fits. fits ≡ true →
            AreThrough c ws element.now place
            (length element.now.pins) (gathered out.old) (gathered out.new)) }
        ensures ways { let c = view.now.circuit.now in let ws = waves_of view.now.waves.now in
            AreExact c ws self.now → OnOk result (
            AreWays c ws self.now.nodes place out.old →
            AreWays c ws self.now.nodes place out.new) }
        ensures fits { let c = view.now.circuit.now in let ws = waves_of view.now.waves.now in
            AreExact c ws self.now → IsFew c ws place →
            AreDoneBehind c self.now.known.entries place → IfOk result (λ fits. fits ≡ true) }
    {
        for number in 0..element.pins.len() {
            let behind = place_behind(view.circuit, element, place, number);
            if !self.add_through(view, place, behind, out)? {
                return Ok(false);
            }
        }
        Ok(true)
    }

    /// Adds the arrivals at a place, from those at the places behind its pins; `false` if one of
    /// these is not worked out, or a way is longer than any can be.
    pub(crate) fn add_all<W: CyclicWave<Item = Value>>(
        &self,
        view: &View<W>,
        place: Place,
        out: &mut AllReached,
    ) -> Result<bool, NoMemory>
        requires { Sees view.now.circuit.now view.now.waves.now view.now.hazards.now }
        ensures are { let c = view.now.circuit.now in let ws = waves_of view.now.waves.now in
            AreExact c ws self.now → out.old ≡ [] →
            IfOk result (λ fits. fits ≡ true → AreArrivals c ws place (gathered out.new)) }
        ensures ways { let c = view.now.circuit.now in let ws = waves_of view.now.waves.now in
            AreExact c ws self.now → out.old ≡ [] →
            OnOk result (AreWays c ws self.now.nodes place out.new) }
        ensures fits { let c = view.now.circuit.now in let ws = waves_of view.now.waves.now in
            AreExact c ws self.now → IsFew c ws place →
            AreDoneBehind c self.now.known.entries place → IfOk result (λ fits. fits ≡ true) }
    {
        // no period is short
        let _period = view.period();
        match view.driver(place.net) {
            Some((_, element)) => {
                let fits = self.add_pins(view, element, place, out)?;
                Ok(fits)
            }
            None => {
                if !is_net(view, place.net) {
                    return Ok(false);
                }
                if !place.is_at_clock() {
                    return Ok(true);
                }
                add_edges(view, place, out)?;
                Ok(true)
            }
        }
    }
}
