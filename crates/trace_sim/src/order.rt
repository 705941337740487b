//! The order in which the instances of a circuit are evaluated within a tick.

ghost use Rattle.std.specs.Prelude.{◌≡◌, ◌<◌, ◌++◌, length, map, option_to_list, IfOk, OnOk};
ghost use Rattle.std.specs.List.{range_with_len};
ghost use Rattle.flat_circuit.specs.Node.{node_feeders};
ghost use Rattle.trace_sim.specs.Order.{IsEvaluationOrder, feeders_in, at_once_driver, at_once_list};

use flat_circuit::{Circuit, Node, Pin, Target, sorted};
use scald_base::NoMemory;
use std::alloc::Global;

/// All instances, each once, and each after those that it may read at once: the same order serves
/// every choice of delays.
pub fn evaluation_order(alloc: Global, c: &Circuit) -> Result<Vec<usize>, NoMemory>
    ensures { IfOk result (λ order. IsEvaluationOrder c.now order.items) }
{
    c.known();
    let nodes = nodes(alloc, c)?;
    sorted(alloc, &nodes)
}

fn nodes(alloc: Global, c: &Circuit) -> Result<Vec<Node>, NoMemory>
    ensures { IfOk result (λ nodes.
        map node_feeders nodes.items ≡ map (feeders_in c.now)
        (range_with_len 0 (length c.now.instances))) }
{
    let mut nodes = Vec::new(alloc);
    for k in 0..c.instance_count() {
        nodes.push(Node {
            feeders: feeders(alloc, c, k)?,
        })?;
    }
    Ok(nodes)
}

// The drivers that instance k may read at once.
fn feeders(alloc: Global, c: &Circuit, k: u32) -> Result<Vec<usize>, NoMemory>
    ensures { IfOk result (λ feeders. feeders.items ≡ feeders_in c.now k) }
{
    match c.instance(k) {
        None => Ok(Vec::new(alloc)),
        Some(instance) => {
            if instance.out.is_some() && instance.delay.min == 0 {
                at_once(alloc, c, instance.pins.as_slice())
            } else {
                Ok(Vec::new(alloc))
            }
        }
    }
}

fn at_once(alloc: Global, c: &Circuit, pins: &[Pin]) -> Result<Vec<usize>, NoMemory>
    ensures { IfOk result (λ list. list.items ≡ at_once_list c.now.nets pins.now) }
{
    let mut list = Vec::new(alloc);
    for pin in pins {
        push_some(&mut list, driver(c, pin.target))?;
    }
    Ok(list)
}

fn push_some(list: &mut Vec<usize>, value: Option<usize>) -> Result<(), NoMemory>
    ensures { OnOk result (list.new.items ≡ list.old.items ++ option_to_list value) }
{
    match value {
        None => {}
        Some(number) => list.push(number)?,
    }
    Ok(())
}

// What drives the net after a pin, if its wire may have no delay.
fn driver(c: &Circuit, target: Target) -> Option<usize>
    ensures { result ≡ at_once_driver c.now.nets target }
{
    match target {
        Target::Constant(_) => None,
        Target::Net(i) => match c.net(i) {
            None => None,
            Some(net) => {
                if net.wire.min == 0 {
                    number(net.driver)
                } else {
                    None
                }
            }
        },
    }
}

fn number(driver: Option<u32>) -> Option<usize>
    ensures { result ≡ driver }
{
    match driver {
        None => None,
        Some(d) => Some(d as usize),
    }
}
