//! The order in which a search leaves the nets.

use crate::pins::{passes, target_net};
use flat_circuit::Circuit;
use scald_base::NoMemory;
use std::alloc::Global;

/// A net of the path, and how many pins of its driver were looked at.
#[derive(Clone, Copy)]
struct Frame {
    net: u32,
    at: usize,
}

/// Whether a net was not seen before.
fn is_unseen(seen: &[bool], net: u32) -> bool {
    match seen.get(net as usize) {
        Some(mark) => !*mark,
        None => false,
    }
}

/// Sees a net.
fn see(seen: &mut [bool], net: u32) {
    let place = net as usize;
    if place < seen.len() {
        seen[place] = true;
    }
}

/// The next net that leads to that of the frame and was not seen before; the frame is then past it.
fn next_unseen(c: &Circuit, seen: &[bool], frame: &mut Frame) -> Option<u32> {
    let driver = c.driver_of(frame.net)?;
    if !passes(driver.kind) {
        return None;
    }
    for at in frame.at..driver.pins.len() {
        if let Some(net) = target_net(driver.pins.get(at)?.target) {
            if is_unseen(seen, net) {
                frame.at = at + 1;
                return Some(net);
            }
        }
    }
    None
}

/// Goes back from a net to all that leads to it, and leaves each net after those that lead to it.
fn visit(
    alloc: Global,
    c: &Circuit,
    seen: &mut [bool],
    left: &mut Vec<u32>,
    root: u32,
) -> Result<(), NoMemory> {
    let mut path: Vec<Frame> = Vec::new(alloc);
    let mut frame = Frame { net: root, at: 0 };
    // Each turn sees a net or leaves one.
    for _turn in 0..2 * u64::from(c.net_count()) {
        match next_unseen(c, seen, &mut frame) {
            Some(net) => {
                see(seen, net);
                path.push(frame)?;
                frame = Frame { net, at: 0 };
            }
            None => {
                left.push(frame.net)?;
                match path.pop() {
                    Some(before) => frame = before,
                    None => return Ok(()),
                }
            }
        }
    }
    Ok(())
}

/// Nets in the order in which a search back from each of them leaves them: if no loop is in the
/// way, a net comes after all that leads to it. No contract says which nets are there, since
/// nothing but the cost of the search for loops rests on it.
pub fn left(alloc: Global, c: &Circuit) -> Result<Vec<u32>, NoMemory> {
    let mut seen = vec![in alloc; false; c.net_count() as usize]?;
    let mut left = Vec::new(alloc);
    for root in 0..c.net_count() {
        if is_unseen(&seen, root) {
            see(&mut seen, root);
            visit(alloc, c, &mut seen, &mut left, root)?;
        }
    }
    Ok(left)
}
