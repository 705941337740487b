//! Loops without delay.

ghost use Rattle.std.specs.Prelude.{◌≡◌, ◌<◌, ◌++◌, length, map, option_to_list, IfOk, OnOk, MatchResult, slice_get};
ghost use Rattle.std.specs.List.{range_with_len};
ghost use Rattle.flat_circuit.specs.Instances.{least_delay_at};
ghost use Rattle.flat_circuit.specs.Loop.{IsLooped, HoldsOfNone};
ghost use Rattle.flat_circuit.specs.Builder.{bounds_at, StandsAt};
ghost use Rattle.flat_circuit.specs.Steps.{DrivenTo, StopsAtLoop, entry, if_at_once, quick_driver, quick_list, quick_feeders, node_feeders};

use crate::instance::{Instance, Pin};
use crate::net_table::NetTable;
use crate::search::{Node, first_from_loop};
use scald_base::{NoMemory, Place, RefusalKind, Stop};
use std::alloc::Global;
use vector_names::Target;

/// Fails with `ZeroLoop` exactly if instances pass on at once round a loop, at the first
/// instance that can be reached from one.
pub(crate) fn no_loop(
    alloc: Global,
    nets: &NetTable,
    drivers: &[Option<u32>],
    instances: &[Instance],
) -> Result<(), Stop>
    requires { DrivenTo instances.now (length drivers.now) (length instances.now) drivers.now }
    ensures { MatchResult result (λ _.
        HoldsOfNone (IsLooped (bounds_at nets.now.wires) instances.now) instances.now)
        (StopsAtLoop nets.now.wires instances.now) }
{
    let nodes = nodes(alloc, nets, drivers, instances)?;
    match first_from_loop(alloc, &nodes)? {
        None => Ok(()),
        Some(k) => Err(Stop::refused(RefusalKind::ZeroLoop, place_at(instances, k))),
    }
}

fn place_at(instances: &[Instance], k: usize) -> Place
    requires { k < length instances.now }
    ensures { StandsAt (slice_get instances.now k) result }
{
    instances[k].place
}

fn nodes(
    alloc: Global,
    nets: &NetTable,
    drivers: &[Option<u32>],
    instances: &[Instance],
) -> Result<Vec<Node>, NoMemory>
    ensures { IfOk result (λ nodes. map node_feeders nodes.items
        ≡ map (quick_feeders nets.now.wires drivers.now instances.now)
        (range_with_len 0 (length instances.now))) }
{
    let mut nodes = Vec::new(alloc);
    for k in 0..instances.len() {
        nodes.push(Node {
            feeders: quick_to(alloc, nets, drivers, instances, k)?,
        })?;
    }
    Ok(nodes)
}

// What passes on at once to instance k.
fn quick_to(
    alloc: Global,
    nets: &NetTable,
    drivers: &[Option<u32>],
    instances: &[Instance],
    k: usize,
) -> Result<Vec<usize>, NoMemory>
    requires { k < length instances.now }
    ensures { IfOk result (λ feeders.
        feeders.items ≡ quick_feeders nets.now.wires drivers.now instances.now k) }
{
    if instances[k].out.is_some() {
        quick_all(
            alloc,
            nets,
            drivers,
            instances,
            instances[k].pins.as_slice(),
        )
    } else {
        Ok(Vec::new(alloc))
    }
}

fn quick_all(
    alloc: Global,
    nets: &NetTable,
    drivers: &[Option<u32>],
    instances: &[Instance],
    pins: &[Pin],
) -> Result<Vec<usize>, NoMemory>
    ensures { IfOk result (λ feeders.
        feeders.items ≡ quick_list nets.now.wires drivers.now instances.now pins.now) }
{
    let mut list = Vec::new(alloc);
    for pin in pins {
        push_some(&mut list, quick(nets, drivers, instances, pin.target))?;
    }
    Ok(list)
}

fn push_some(list: &mut Vec<usize>, value: Option<usize>) -> Result<(), NoMemory>
    ensures { OnOk result (list.new.items ≡ list.old.items ++ option_to_list value) }
{
    match value {
        None => {}
        Some(number) => list.push(number)?,
    }
    Ok(())
}

// The driver of what a pin is on, if it passes on without delay.
fn quick(
    nets: &NetTable,
    drivers: &[Option<u32>],
    instances: &[Instance],
    target: Target,
) -> Option<usize>
    ensures { result ≡ quick_driver nets.now.wires drivers.now instances.now target }
{
    match target {
        Target::Constant(_) => None,
        Target::Net(i) => {
            if nets.wire_at(i as usize).min == 0 {
                if_quick(instances, entry_at(drivers, i))
            } else {
                None
            }
        }
    }
}

fn if_quick(instances: &[Instance], driver: Option<u32>) -> Option<usize>
    ensures { result ≡ if_at_once instances.now driver }
{
    match driver {
        None => None,
        Some(d) => {
            if delay_min_at(instances, d) == 0 {
                Some(d as usize)
            } else {
                None
            }
        }
    }
}

fn entry_at(drivers: &[Option<u32>], i: u32) -> Option<u32>
    ensures { result ≡ entry drivers.now i }
{
    match drivers.get(i as usize) {
        Some(driver) => *driver,
        None => None,
    }
}

// The least delay: with two delays `delay` begins with the least of both.
fn delay_min_at(instances: &[Instance], d: u32) -> u16
    ensures { result ≡ least_delay_at instances.now d }
{
    match instances.get(d as usize) {
        Some(instance) => instance.delay.min,
        None => 0,
    }
}
