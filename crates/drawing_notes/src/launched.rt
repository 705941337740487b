//! When what storage launches makes each net rise and fall at the latest, in a case.

ghost use Rattle.std.specs.Prelude.{◌≡◌, ◌<◌, ◌≤◌, ◌++◌, ◌*◌, ◌+◌, ◌^◌, ℕ, Bool, IfOk, Some, None, length, map, replicate, slice_get};
ghost use Rattle.std.specs.List.{All, filter_map, range_with_len};
ghost use Rattle.flat_circuit.specs.Circuit.{driver_at as spec_driver_at, wire_at};
ghost use Rattle.flat_circuit.specs.Instances.{PinExists};
ghost use Rattle.flat_circuit.specs.Node.{node_feeders};
ghost use Rattle.fixpoint_engine.specs.Waves.{waves_of};
ghost use Rattle.drawing_notes.specs.Arrivals.{AreSmall, EdgesUpTo, IsUpTo, TellsEdges, arrival_at, edge_of as spec_edge_of, edge_on as spec_edge_on, edge_through as spec_edge_through, edges_at as spec_edges_at, feeders_in, latest_at as spec_latest_at, later, made_at as spec_made_at, no_edges, open_net, passed as spec_passed, pin_edge as spec_pin_edge};
ghost use Rattle.drawing_notes.specs.Late.{behind_wire};
ghost use Rattle.drawing_notes.specs.Parts.{together};
ghost use Rattle.drawing_notes.specs.Paths.{TellsLoops, is_looped};
ghost use Rattle.drawing_notes.specs.Seen.{IsSeen, Sees};
ghost use Rattle.drawing_notes.specs.SoFar.{IsOrder};

use crate::loop_notes::part_at;
use crate::loops::Part;
use crate::passing::{View, delay_to, is_heard, makes};
use crate::pins::{is_storage, passes, target_net};
use fixpoint_engine::Waves;
use flat_circuit::{Circuit, Instance, Node, Pin, Target, sorted};
use scald_base::NoMemory;
use std::alloc::Global;
use step_values::Value;
use wave_core::CyclicWave;

/// After so many ticks at the latest a change at the clock or the enable of this storage is seen.
#[derive(Clone, Copy)]
pub struct Arrival {
    pub ticks: u64,
    pub storage: u32,
}

/// When what storage launches makes a net rise, and when fall; `None` if it does not.
#[derive(Clone, Copy)]
pub struct Edges {
    pub rise: Option<Arrival>,
    pub fall: Option<Arrival>,
}

/// No rise and no fall.
const STILL: Edges = Edges {
    rise: None,
    fall: None,
};

/// The later of two arrivals; of two at one tick that from the earlier storage.
pub(crate) fn later(first: Option<Arrival>, second: Option<Arrival>) -> Option<Arrival>
    ensures { result ≡ later first second }
{
    match first {
        None => second,
        Some(a) => match second {
            None => first,
            Some(b) => {
                if a.ticks < b.ticks || (b.ticks == a.ticks && b.storage < a.storage) {
                    second
                } else {
                    first
                }
            }
        },
    }
}

/// The arrival at a net. Past the last net there is none.
pub fn arrival_at(arrivals: &[Option<Arrival>], net: u32) -> Option<Arrival>
    ensures { result ≡ arrival_at arrivals.now net }
{
    match arrivals.get(net as usize) {
        Some(arrival) => *arrival,
        None => None,
    }
}

/// The greatest delay of the wires of a net. Past the last net it is 0.
fn greatest_wire(c: &Circuit, net: u32) -> u16
    ensures { result ≡ (wire_at c.now.nets net).max }
{
    match c.net(net) {
        Some(found) => found.wire.max,
        None => 0,
    }
}

/// An arrival after the wire from a net to a pin.
pub fn behind_wire(c: &Circuit, net: u32, arrival: Arrival) -> Arrival
    requires { arrival.ticks < 2 ^ 63 }
    ensures is { result ≡ behind_wire c.now net arrival }
    ensures small { result.ticks ≤ arrival.ticks + 65535 }
{
    Arrival {
        ticks: arrival.ticks + u64::from(greatest_wire(c, net)),
        storage: arrival.storage,
    }
}

/// What makes a net rise and fall. Past the last net nothing does.
pub(crate) fn edges_at(edges: &[Edges], net: u32) -> Edges
    ensures { result ≡ spec_edges_at edges.now net }
{
    match edges.get(net as usize) {
        Some(found) => *found,
        None => STILL,
    }
}

fn edge_of(rise: bool, edges: Edges) -> Option<Arrival>
    ensures { result ≡ spec_edge_of rise edges }
{
    if rise { edges.rise } else { edges.fall }
}

/// A rise or a fall of what a pin is on, after its wire.
fn edge_on(c: &Circuit, edges: &[Edges], before: bool, target: Target) -> Option<Arrival>
    requires { AreSmall (2 ^ 32) edges.now }
    ensures is { result ≡ spec_edge_on c.now (spec_edges_at edges.now) before target }
    ensures small { (steps : ℕ) → AreSmall steps edges.now →
        IsUpTo (131070 * steps + 65535) result }
{
    match target {
        Target::Constant(_) => None,
        Target::Net(net) => match edge_of(before, edges_at(edges, net)) {
            None => None,
            Some(arrival) => Some(behind_wire(c, net, arrival)),
        },
    }
}

/// The same, if the pin at a place makes this change of the output's net of it.
fn edge_through(
    c: &Circuit,
    edges: &[Edges],
    instance: &Instance,
    rise: bool,
    place: usize,
    pin: Pin,
    before: bool,
) -> Option<Arrival>
    requires { AreSmall (2 ^ 32) edges.now }
    ensures is { result ≡ spec_edge_through c.now (spec_edges_at edges.now) instance.now rise place
        pin before }
    ensures small { (steps : ℕ) → AreSmall steps edges.now →
        IsUpTo (131070 * steps + 65535) result }
{
    if makes(instance, place, pin, before, rise) {
        edge_on(c, edges, before, pin.target)
    } else {
        None
    }
}

/// The latest at the pin at a place that makes this change of the output's net.
fn pin_edge<W: CyclicWave<Item = Value>>(
    c: &Circuit,
    waves: &Waves<W>,
    held: bool,
    edges: &[Edges],
    instance: &Instance,
    rise: bool,
    place: usize,
) -> Option<Arrival>
    requires exist { All (PinExists (length waves.now)) instance.now.pins }
    requires small { AreSmall (2 ^ 32) edges.now }
    ensures is { result ≡ spec_pin_edge c.now held (waves_of waves.now) (spec_edges_at edges.now)
        instance.now rise place (slice_get instance.now.pins place) }
    ensures small { (steps : ℕ) → AreSmall steps edges.now →
        IsUpTo (131070 * steps + 65535) result }
{
    let pin = *instance.pins.get(place)?;
    if !is_heard(held, waves, instance, place, pin) {
        return None;
    }
    let rising = edge_through(c, edges, instance, rise, place, pin, true);
    let falling = edge_through(c, edges, instance, rise, place, pin, false);
    later(rising, falling)
}

/// The same at all pins.
fn latest_at<W: CyclicWave<Item = Value>>(
    c: &Circuit,
    waves: &Waves<W>,
    held: bool,
    edges: &[Edges],
    instance: &Instance,
    rise: bool,
) -> Option<Arrival>
    requires exist { All (PinExists (length waves.now)) instance.now.pins }
    requires small { AreSmall (2 ^ 32) edges.now }
    ensures is { result ≡ spec_latest_at c.now held (waves_of waves.now) (spec_edges_at edges.now)
        instance.now rise }
    ensures small { (steps : ℕ) → AreSmall steps edges.now →
        IsUpTo (131070 * steps + 65535) result }
{
    let mut latest = None;
    for place in 0..instance.pins.len() {
        latest = later(
            latest,
            pin_edge(c, waves, held, edges, instance, rise, place),
        );
    }
    latest
}

/// What makes the net rise, or fall, that a gate or a change function drives.
fn passed<W: CyclicWave<Item = Value>>(
    c: &Circuit,
    waves: &Waves<W>,
    held: bool,
    edges: &[Edges],
    instance: &Instance,
    rise: bool,
) -> Option<Arrival>
    requires exist { All (PinExists (length waves.now)) instance.now.pins }
    requires small { AreSmall (2 ^ 32) edges.now }
    ensures is { result ≡ spec_passed c.now held (waves_of waves.now) (spec_edges_at edges.now)
        instance.now rise }
    ensures small { (steps : ℕ) → AreSmall steps edges.now →
        IsUpTo (131070 * (steps + 1)) result }
{
    match latest_at(c, waves, held, edges, instance, rise) {
        None => None,
        Some(latest) => Some(Arrival {
            ticks: latest.ticks + u64::from(delay_to(rise, instance)),
            storage: latest.storage,
        }),
    }
}

/// The number of what drives a net.
fn driver_at(c: &Circuit, net: u32) -> Option<u32>
    ensures { result ≡ spec_driver_at c.now.nets net }
{
    c.net(net)?.driver
}

/// What makes a net rise and fall, by what makes the nets do so that lead to it.
fn made_at<W: CyclicWave<Item = Value>>(
    view: &View<W>,
    edges: &[Edges],
    net: u32,
    steps: u32,
) -> Edges
    requires sees { IsSeen view.now.circuit.now view.now.waves.now view.now.within.now
        view.now.held.now }
    requires small { AreSmall steps edges.now }
    ensures is { let v = view.now in (looped : ℕ → Bool) →
        Sees v.circuit.now looped v.waves.now v.within.now v.held.now → result ≡ spec_made_at
        v.circuit.now looped (waves_of v.waves.now) (spec_edges_at edges.now) net }
    ensures small { EdgesUpTo (131070 * (steps + 1)) result }
{
    let c = view.circuit;
    if !view.within.has(net) {
        return STILL;
    }
    let Some(number) = driver_at(c, net) else {
        return STILL;
    };
    let Some(driver) = c.instance(number) else {
        return STILL;
    };
    if is_storage(driver.kind) {
        let launched = Some(Arrival {
            ticks: u64::from(driver.delay.max),
            storage: number,
        });
        return Edges {
            rise: launched,
            fall: launched,
        };
    }
    if !passes(driver.kind) {
        return STILL;
    }
    let held = view.held.has(number);
    Edges {
        rise: passed(c, view.waves, held, edges, driver, true),
        fall: passed(c, view.waves, held, edges, driver, false),
    }
}

/// The nets of no loop that pins are on.
fn open_nets(alloc: Global, parts: &[Part], pins: &[Pin]) -> Result<Vec<usize>, NoMemory>
    ensures { IfOk result (λ nets.
        nets.items ≡ filter_map (open_net (is_looped (together parts.now))) pins.now) }
{
    let mut nets = Vec::new(alloc);
    for pin in pins {
        if let Some(net) = target_net(pin.target) {
            if part_at(parts, net).is_none() {
                nets.push(net as usize)?;
            }
        }
    }
    Ok(nets)
}

/// The nets of no loop that lead to a net of no loop.
fn feeders(alloc: Global, c: &Circuit, parts: &[Part], net: u32) -> Result<Vec<usize>, NoMemory>
    ensures { IfOk result (λ nets. nets.items
        ≡ feeders_in c.now (is_looped (together parts.now)) net) }
{
    if part_at(parts, net).is_some() {
        return Ok(Vec::new(alloc));
    }
    match c.driver_of(net) {
        Some(driver) if passes(driver.kind) => open_nets(alloc, parts, driver.pins.as_slice()),
        _ => Ok(Vec::new(alloc)),
    }
}

/// The nets, each with those of no loop that lead to it.
fn nodes(alloc: Global, c: &Circuit, parts: &[Part]) -> Result<Vec<Node>, NoMemory>
    ensures { IfOk result (λ nodes. map node_feeders nodes.items
        ≡ map (feeders_in c.now (is_looped (together parts.now)))
        (range_with_len 0 (length c.now.nets))) }
{
    let mut nodes = Vec::new(alloc);
    for net in 0..c.net_count() {
        nodes.push(Node {
            feeders: feeders(alloc, c, parts, net)?,
        })?;
    }
    Ok(nodes)
}

/// An order of the nets in which each of no loop follows those of no loop that lead to it. Each pin
/// is looked at twice.
pub fn order(alloc: Global, c: &Circuit, parts: &[Part]) -> Result<Vec<usize>, NoMemory>
    requires { TellsLoops c.now (together parts.now) }
    ensures { IfOk result (λ order. IsOrder c.now (is_looped (together parts.now)) order.items) }
{
    c.known();
    let nodes = nodes(alloc, c, parts)?;
    sorted(alloc, &nodes)
}

/// So many nets, which nothing is known to make rise or fall.
fn without_edges(alloc: Global, nets: u32) -> Result<Vec<Edges>, NoMemory>
    ensures { IfOk result (λ edges. edges.items ≡ replicate nets no_edges) }
{
    let edges = vec![in alloc; STILL; nets as usize]?;
    Ok(edges)
}

/// When what storage launches makes each net rise and fall at the latest, net by net in order.
/// Each pin is looked at twice.
pub(crate) fn all_edges<W: CyclicWave<Item = Value>>(
    alloc: Global,
    view: &View<W>,
    order: &[usize],
) -> Result<Vec<Edges>, NoMemory>
    requires sees { IsSeen view.now.circuit.now view.now.waves.now view.now.within.now
        view.now.held.now }
    requires order { (looped : ℕ → Bool) × IsOrder view.now.circuit.now looped order.now }
    ensures long { IfOk result (λ edges. length edges.items ≡ length view.now.circuit.now.nets) }
    ensures are { let v = view.now in IfOk result (λ edges. (looped : ℕ → Bool) →
        Sees v.circuit.now looped v.waves.now v.within.now v.held.now →
        IsOrder v.circuit.now looped order.now →
        TellsEdges v.circuit.now looped (waves_of v.waves.now) (spec_edges_at edges.items)) }
    ensures small { IfOk result (λ edges.
        AreSmall (length view.now.circuit.now.nets) edges.items) }
{
    let c = view.circuit;
    c.known();
    let mut edges = without_edges(alloc, c.net_count())?;
    let mut steps = 0;
    for net in order {
        let made = made_at(view, &edges, *net as u32, steps);
        edges[*net] = made;
        steps += 1;
    }
    Ok(edges)
}
