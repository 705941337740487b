//! What both paths of a limit take from one constant of a run: it is counted twice.

ghost use Rattle.std.specs.Prelude.{◌≡◌, ◌<◌, ◌++◌, ◌∷◌, [], length, slice_get, take, IfOk, IfSome, OnOk, Some, if◌then◌else◌};
ghost use Rattle.std.specs.Option.{option_map};
ghost use Rattle.flat_circuit.specs.Circuit.{driver_at};
ghost use Rattle.critical_paths.specs.Common.{counted_twice_known, delay_parts, driver_parts, is_at_bounds, is_part_of, is_twice, link_parts, node_parts, of_both, parts as parts_of, source_parts, spread, wire_parts};
ghost use Rattle.critical_paths.specs.Known.{end_of, path_known};
ghost use Rattle.critical_paths.specs.Walk.{event_at, link};

use crate::direction::Direction;
use crate::event::Stop;
use crate::path::{At, End, Node, Passage, Paths, Word};
use crate::steps::node_at;
use fixpoint_engine::wire_behind;
use flat_circuit::{Circuit, Instance};
use scald_base::{AssertSpec, Delay, List, NoMemory};
use std::alloc::Global;

/// What is one constant in a run.
#[derive(Clone, Copy, PartialEq, Eq)]
pub enum Part {
    /// The delay of an instance.
    Delay(u32),
    /// The delay of an instance's rises, of two.
    RiseOf(u32),
    /// The delay of an instance's falls, of two.
    FallOf(u32),
    /// The wire to a pin of an instance.
    Wire(u32, u16),
    /// The offset of a clock.
    Offset(u32),
}

/// A part, and by how many ticks its most is above its least.
#[derive(Clone, Copy)]
pub struct Counted {
    pub part: Part,
    pub amount: u32,
}

/// Parts, in the order of a path.
pub type Parts = List<Counted>;

/// A part by its bounds.
fn by_bounds(part: Part, bounds: Delay) -> Counted
    ensures { result ≡ record { part = part; amount = spread bounds } }
{
    bounds.known();
    Counted {
        part,
        amount: u32::from(bounds.max - bounds.min),
    }
}

/// Appends the delay of an element's own step; a change function may take another at each change.
fn add_delay(
    out: &mut Parts,
    number: u32,
    element: &Instance,
    own: Direction,
) -> Result<(), NoMemory>
    ensures { OnOk result (out.new ≡ out.old ++ delay_parts number element.now own
        element.now.split) }
{
    match (element.split, own) {
        (None, _) if element.kind.is_change() => Ok(()),
        (None, _) => out.push(by_bounds(Part::Delay(number), element.delay)),
        (Some(split), Direction::Rise) => out.push(by_bounds(Part::RiseOf(number), split.rise)),
        (Some(split), Direction::Fall) => out.push(by_bounds(Part::FallOf(number), split.fall)),
        (Some(_), Direction::Change) => Ok(()),
    }
}

/// Appends the wire to a pin of an element.
fn add_wire(
    out: &mut Parts,
    c: &Circuit,
    number: u32,
    element: &Instance,
    pin: u16,
) -> Result<(), NoMemory>
    ensures { OnOk result (out.new ≡ out.old ++ wire_parts c.now number pin (slice_get
        element.now.pins pin)) }
{
    let Some(on) = element.pins.get(usize::from(pin)) else {
        return Ok(());
    };
    let wire = wire_behind(c, on.target);
    out.push(by_bounds(Part::Wire(number, pin), wire))
}

/// The number of the instance that drives a net.
fn driver_of(c: &Circuit, net: u32) -> Option<u32>
    ensures { result ≡ driver_at c.now.nets net }
{
    c.net(net)?.driver
}

/// Appends the delay and the wire by which an event comes through a pin of its net's driver.
fn add_through(out: &mut Parts, c: &Circuit, stop: Stop, pin: u16) -> Result<(), NoMemory>
    ensures { OnOk result (out.new ≡ out.old ++ driver_parts c.now (event_at stop) pin (driver_at
        c.now.nets stop.net)) }
{
    c.known();
    let Some(number) = driver_of(c, stop.net) else {
        return Ok(());
    };
    let Some(element) = c.instance(number) else {
        return Ok(());
    };
    let own = stop.direction.turned(element.out_inverted);
    add_delay(out, number, element, own)?;
    add_wire(out, c, number, element, pin)?;
    Ok(())
}

/// Whether a delay is at a bound, and so the same number wherever it is counted.
fn is_at_bounds(word: Word) -> bool
    ensures { result ≡ is_at_bounds word }
{
    match word {
        Word::Tight | Word::Bounded(_) | Word::Loose | Word::Same => true,
        Word::Inside => false,
    }
}

/// Appends the parts of what an event comes by; a delay within its bounds is none.
fn add_link(out: &mut Parts, c: &Circuit, stop: Stop, passage: Passage) -> Result<(), NoMemory>
    ensures { OnOk result (out.new ≡ out.old ++ link_parts c.now (link stop passage)) }
{
    match passage {
        Passage::Through { pin, word, .. } => {
            if is_at_bounds(word) {
                add_through(out, c, stop, pin)
            } else {
                Ok(())
            }
        }
        Passage::Cut(_) => Ok(()),
    }
}

/// Appends the offset of a clock that moves as a whole, if a path comes from its net.
fn add_source(out: &mut Parts, c: &Circuit, net: u32, end: End) -> Result<(), NoMemory>
    ensures { OnOk result (out.new ≡ out.old ++ source_parts c.now net (end_of end)) }
{
    if !matches!(end, End::Edge | End::Source) {
        return Ok(());
    }
    let Some(found) = c.net(net) else {
        return Ok(());
    };
    let AssertSpec::Precision(clock) = found.spec.or(&AssertSpec::None) else {
        return Ok(());
    };
    let (early, late) = clock.skew.unwrap_or(c.header().pskew);
    out.push(Counted {
        part: Part::Offset(net),
        amount: u32::from(early) + u32::from(late),
    })
}

/// Appends the parts of an event on a path: those that it comes by, or those of the path's source
/// if it is the last.
fn add_node(
    out: &mut Parts,
    c: &Circuit,
    node: Node,
    is_last: bool,
    end: End,
) -> Result<(), NoMemory>
    ensures { OnOk result (out.new ≡ out.old ++ node_parts c.now (end_of end) node is_last) }
{
    if is_last {
        return add_source(out, c, node.stop.net, end);
    }
    match node.passage {
        Some(passage) => add_link(out, c, node.stop, passage),
        None => Ok(()),
    }
}

/// The parts of a path.
fn parts(alloc: Global, c: &Circuit, paths: &Paths, number: usize) -> Result<Parts, NoMemory>
    requires { number < length paths.now.nodes }
    ensures { IfOk result (λ found. Some found ≡ option_map (parts_of c.now) (path_known
        paths.now.nodes number)) }
{
    let end = paths.node(number).end;
    let way = paths.way(alloc, number)?;
    let nodes = way.as_slice();
    let mut out = Parts::new(alloc);
    for place in 0..nodes.len() {
        let node = node_at(nodes, place);
        add_node(&mut out, c, node, place + 1 == nodes.len(), end)?;
    }
    Ok(out)
}

/// Whether a part is among some.
fn is_among(some: &[Counted], part: Part) -> bool
    ensures { result ≡ is_part_of some.now part }
{
    some.iter().any(|own| own.part == part)
}

/// Whether the part at a place of one path is counted twice: it did not come before, it is more
/// than one number, and the other path has it too.
fn is_twice(own: &[Counted], place: usize, other: &[Counted]) -> bool
    requires { place < length own.now }
    ensures { IfSome (slice_get own.now place) (λ x. result ≡ is_twice (take place own.now)
        other.now x) }
{
    let Counted { part, amount } = own[place];
    !is_among(&own[..place], part) && amount > 0 && is_among(other, part)
}

/// Appends a part if it is counted.
fn add_if(out: &mut Parts, is_counted: bool, part: Counted) -> Result<(), NoMemory>
    ensures { OnOk result (out.new ≡ (if is_counted then out.old ++ part ∷ [] else out.old)) }
{
    if is_counted { out.push(part) } else { Ok(()) }
}

/// The parts of one path that another has too, each once, in the order of the first.
fn of_both(alloc: Global, own: &[Counted], other: &[Counted]) -> Result<Parts, NoMemory>
    ensures { IfOk result (λ found. found ≡ of_both own.now other.now) }
{
    let mut twice = Parts::new(alloc);
    for place in 0..own.len() {
        add_if(&mut twice, is_twice(own, place, other), own[place])?;
    }
    Ok(twice)
}

/// What is counted twice on two paths, each part once, in the order of the first.
pub fn counted_twice(
    alloc: Global,
    c: &Circuit,
    paths: &Paths,
    data: At,
    clock: At,
) -> Result<Parts, NoMemory>
    requires own { «data».node < length paths.now.nodes }
    requires clock { clock.node < length paths.now.nodes }
    ensures { IfOk result (λ found. Some found ≡ counted_twice_known c.now (path_known paths.now.nodes
        «data».node) (path_known paths.now.nodes clock.node)) }
{
    let own = parts(alloc, c, paths, data.node)?;
    let other = parts(alloc, c, paths, clock.node)?;
    of_both(alloc, own.as_slice(), other.as_slice())
}
