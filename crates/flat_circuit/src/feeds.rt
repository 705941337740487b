//! Which nets feed which: the driver of the one has a pin on the other.

use crate::numbers::{at, put};
use crate::{Circuit, Pin, Target};
use scald_base::NoMemory;
use std::alloc::Global;

/// For each net the nets that it feeds.
#[derive(Drop, Debug)]
pub struct Feeds {
    /// The nets that are fed: those that the first net feeds before those of the second, and so on.
    fed: Vec<u32>,
    /// Where those begin that a net feeds, and after the last net the end of all.
    begins: Vec<u32>,
    /// Which nets stand in the list that is made.
    is_listed: Vec<bool>,
}

impl Feeds {
    /// Which nets of a circuit feed which.
    pub fn of(alloc: Global, c: &Circuit) -> Result<Feeds, NoMemory> {
        let nets = c.net_count() as usize;
        let mut begins = Vec::from_elem(alloc, 0, nets)?;
        for to in 0..c.net_count() {
            count_pins(&mut begins, pins_of(c, to));
        }
        let total = add_up(&mut begins);
        begins.push(total)?;
        let mut fed = Vec::from_elem(alloc, 0, total as usize)?;
        for to in 0..c.net_count() {
            put_pins(&mut fed, &mut begins, pins_of(c, to), to);
        }
        let is_listed = Vec::from_elem(alloc, false, nets)?;
        Ok(Feeds {
            fed,
            begins,
            is_listed,
        })
    }

    /// The nets that some of these feed, each once.
    pub fn fed_by(&mut self, alloc: Global, changed: &[u32]) -> Result<Vec<u32>, NoMemory> {
        let mut nets = Vec::new(alloc);
        for from in changed {
            let begin = at(&self.begins, *from as usize) as usize;
            let end = at(&self.begins, (*from as usize).saturating_add(1)) as usize;
            for net in self.fed.get(begin..end).unwrap_or(&[]) {
                if list(&mut self.is_listed, *net) {
                    nets.push(*net)?;
                }
            }
        }
        for net in &nets {
            let place = *net as usize;
            if place < self.is_listed.len() {
                self.is_listed[place] = false;
            }
        }
        Ok(nets)
    }
}

/// Marks a net as listed, and says whether it was not yet.
fn list(is_listed: &mut [bool], net: u32) -> bool {
    let place = net as usize;
    if place >= is_listed.len() || is_listed[place] {
        return false;
    }
    is_listed[place] = true;
    true
}

/// The pins of the instance that drives a net.
fn pins_of(c: &Circuit, net: u32) -> &[Pin] {
    match c.driver_of(net) {
        Some(driver) => driver.pins.as_slice(),
        None => &[],
    }
}

/// Counts each of these pins at its net.
fn count_pins(counts: &mut [u32], pins: &[Pin]) {
    for pin in pins {
        if let Target::Net(from) = pin.target {
            let count = at(counts, from as usize).saturating_add(1);
            put(counts, from as usize, count);
        }
    }
}

/// Puts the sum of the counts so far in the place of each, and gives the sum of all.
fn add_up(counts: &mut [u32]) -> u32 {
    let mut sum: u32 = 0;
    for place in 0..counts.len() {
        sum = sum.saturating_add(counts[place]);
        counts[place] = sum;
    }
    sum
}

/// Puts a net before those that the nets of its driver's pins feed. Their places begin there.
fn put_pins(fed: &mut [u32], begins: &mut [u32], pins: &[Pin], to: u32) {
    for pin in pins {
        if let Target::Net(from) = pin.target {
            let place = at(begins, from as usize).saturating_sub(1);
            put(begins, from as usize, place);
            put(fed, place as usize, to);
        }
    }
}
