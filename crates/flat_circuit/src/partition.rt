//! The making of classes: nets are taken for one until something tells them apart.
//!
//! What tells nets apart by themselves, and the values of cases, split the classes once. Then the
//! nets whose drivers have a pin on a net of a new class are looked at again, until no class
//! splits. Of the parts of a class the largest keeps its number if all of its nets were looked
//! at, so a net gets a new number a few times at most in most circuits. Nets are compared by keys,
//! and not with each other, so a look at some nets costs their pins and the sorting of their keys.

ghost use Rattle.std.specs.Prelude.{◌≡◌, IfOk, length};

use crate::class_map::ClassMap;
use crate::feeds::Feeds;
use crate::key::{Key, key_of_net};
use crate::numbers::{at, narrow, put};
use crate::{Case, CaseList, Circuit, Pin, Target};
use scald_base::{List, NoMemory};
use std::alloc::Global;

/// Nets of one key that stand side by side, at these places of a list.
#[derive(Clone, Copy, PartialEq, Eq, PartialOrd, Ord, Debug)]
struct Run {
    key: Key,
    begin: u32,
    end: u32,
}

/// Nets by the keys of what tells them apart. The bits of a vector mostly stand side by side and
/// have one key, so keys are those of runs of nets and not of nets.
#[derive(Drop, Debug)]
struct Keyed {
    nets: Vec<u32>,
    runs: Vec<Run>,
}

impl Keyed {
    /// No nets, with room for so many.
    fn with_room(alloc: Global, nets: usize) -> Result<Keyed, NoMemory> {
        Ok(Keyed {
            nets: Vec::with_capacity(alloc, nets)?,
            runs: Vec::new(alloc),
        })
    }

    fn push(&mut self, key: Key, net: u32) -> Result<(), NoMemory> {
        let begin = narrow(self.nets.len());
        let end = begin.saturating_add(1);
        self.nets.push(net)?;
        let runs = self.runs.len();
        if runs > 0 && self.runs[runs - 1].key == key {
            self.runs[runs - 1].end = end;
        } else {
            self.runs.push(Run { key, begin, end })?;
        }
        Ok(())
    }

    /// The same nets in the order of their keys.
    fn in_order(self, alloc: Global) -> Result<Keyed, NoMemory> {
        let Keyed { nets, mut runs } = self;
        runs.sort_unstable();
        let mut sorted = Vec::with_capacity(alloc, nets.len())?;
        for place in 0..runs.len() {
            let Run { key, begin, end } = runs[place];
            let new_begin = narrow(sorted.len());
            sorted.extend_from_slice(nets.get(begin as usize..end as usize).unwrap_or(&[]))?;
            runs[place] = Run {
                key,
                begin: new_begin,
                end: narrow(sorted.len()),
            };
        }
        Ok(Keyed { nets: sorted, runs })
    }
}

/// Nets of one class and one key, at these places of a list.
#[derive(Clone, Copy, PartialEq, Eq, Debug)]
struct Part {
    class: u32,
    begin: u32,
    end: u32,
}

impl Part {
    /// How many nets there are.
    fn size(&self) -> u32 {
        self.end.saturating_sub(self.begin)
    }
}

/// Classes so far.
#[derive(Drop, Debug)]
struct Partition {
    /// The class of each net.
    classes: Vec<u32>,
    /// How many nets each class has.
    sizes: Vec<u32>,
    /// How many nets of each class are in the parts at hand: none between two splits.
    at_hand: Vec<u32>,
}

impl Partition {
    /// All nets in one class.
    fn whole(alloc: Global, nets: u32) -> Result<Partition, NoMemory> {
        let mut partition = Partition {
            classes: Vec::from_elem(alloc, 0, nets as usize)?,
            sizes: Vec::new(alloc),
            at_hand: Vec::new(alloc),
        };
        partition.sizes.push(nets)?;
        partition.at_hand.push(0)?;
        Ok(partition)
    }

    fn class(&self, net: u32) -> u32 {
        at(&self.classes, net as usize)
    }

    /// The class of what a pin is on. Constants count as one: the nets of a class have them alike.
    fn class_of_pin(&self, pin: Pin) -> u32 {
        match pin.target {
            Target::Net(net) => self.class(net),
            Target::Constant(_) => 0,
        }
    }

    /// The key of the class of a net, and of the classes that its driver's pins are on.
    fn key(&self, c: &Circuit, net: u32) -> Key {
        let mut key = Key::EMPTY.followed_by(u64::from(self.class(net)));
        if let Some(driver) = c.driver_of(net) {
            for pin in driver.pins.as_slice() {
                key = key.followed_by(u64::from(self.class_of_pin(*pin)));
            }
        }
        key
    }

    /// The parts into which nets fall that stand in the order of their keys.
    fn parts(&self, alloc: Global, keyed: &Keyed) -> Result<Vec<Part>, NoMemory> {
        let mut parts: Vec<Part> = Vec::new(alloc);
        let mut before = None;
        for run in &keyed.runs {
            let count = parts.len();
            if count > 0 && before == Some(run.key) {
                parts[count - 1].end = run.end;
            } else {
                parts.push(self.part(&keyed.nets, *run))?;
            }
            before = Some(run.key);
        }
        Ok(parts)
    }

    fn part(&self, nets: &[u32], run: Run) -> Part {
        Part {
            class: self.class(at(nets, run.begin as usize)),
            begin: run.begin,
            end: run.end,
        }
    }

    /// Makes a class of the nets of each key, but for the largest of those that make up a class,
    /// and gives the nets that have got a new class. Nets of one key are of one class.
    fn split(&mut self, alloc: Global, keyed: Keyed) -> Result<Vec<u32>, NoMemory> {
        let keyed = keyed.in_order(alloc)?;
        let mut parts = self.parts(alloc, &keyed)?;
        let Keyed { nets, runs: _ } = keyed;
        parts.sort_unstable_by(|a, b| (a.class, b.size()).cmp(&(b.class, a.size())));
        self.take_at_hand(&parts);
        let changed = self.make_classes(alloc, &nets, &parts)?;
        self.let_go(&parts);
        Ok(changed)
    }

    /// Counts the nets of the parts at hand, in the class that each part is of.
    fn take_at_hand(&mut self, parts: &[Part]) {
        for part in parts {
            let count = at(&self.at_hand, part.class as usize).saturating_add(part.size());
            put(&mut self.at_hand, part.class as usize, count);
        }
    }

    /// No part is at hand any more.
    fn let_go(&mut self, parts: &[Part]) {
        for part in parts {
            put(&mut self.at_hand, part.class as usize, 0);
        }
    }

    /// Makes a class of each part at hand, but for the first of those that make up a class, and
    /// gives the nets that have got a new class.
    fn make_classes(
        &mut self,
        alloc: Global,
        nets: &[u32],
        parts: &[Part],
    ) -> Result<Vec<u32>, NoMemory> {
        let mut changed = Vec::new(alloc);
        let mut before = None;
        for part in parts {
            let class = part.class as usize;
            let is_whole = at(&self.at_hand, class) == at(&self.sizes, class);
            if before == Some(part.class) || !is_whole {
                let members = nets
                    .get(part.begin as usize..part.end as usize)
                    .unwrap_or(&[]);
                self.make_class(members, &mut changed)?;
            }
            before = Some(part.class);
        }
        Ok(changed)
    }

    fn make_class(&mut self, nets: &[u32], changed: &mut Vec<u32>) -> Result<(), NoMemory> {
        let class = self.new_class(narrow(nets.len()))?;
        for net in nets {
            self.move_to(class, *net);
            changed.push(*net)?;
        }
        Ok(())
    }

    /// The number of a new class, which is to have so many nets.
    fn new_class(&mut self, nets: u32) -> Result<u32, NoMemory> {
        let class = narrow(self.sizes.len());
        self.sizes.push(nets)?;
        self.at_hand.push(0)?;
        Ok(class)
    }

    /// Moves a net to a new class.
    fn move_to(&mut self, class: u32, net: u32) {
        let old = self.class(net) as usize;
        let left = at(&self.sizes, old).saturating_sub(1);
        put(&mut self.sizes, old, left);
        put(&mut self.classes, net as usize, class);
    }

    /// Separates a net from the others of its class, if there are any, and gives it if it has got a
    /// new class.
    fn split_off(&mut self, alloc: Global, net: u32) -> Result<Vec<u32>, NoMemory> {
        let mut changed = Vec::new(alloc);
        if at(&self.sizes, self.class(net) as usize) > 1 {
            let class = self.new_class(1)?;
            self.move_to(class, net);
            changed.push(net)?;
        }
        Ok(changed)
    }

    /// Separates the nets that differ by themselves, or by the kinds of their drivers.
    fn split_by_kind(&mut self, alloc: Global, c: &Circuit) -> Result<(), NoMemory> {
        let mut keyed = Keyed::with_room(alloc, c.net_count() as usize)?;
        for net in 0..c.net_count() {
            keyed.push(key_of_net(c, net), net)?;
        }
        self.split(alloc, keyed)?;
        Ok(())
    }

    /// Separates the nets to which a case gives a value from those to which it does not.
    fn split_by_case(&mut self, alloc: Global, case: &Case, one: bool) -> Result<(), NoMemory> {
        let mut keyed = Keyed::with_room(alloc, 0)?;
        for value in case.as_slice() {
            if value.one == one {
                let key = Key::EMPTY.followed_by(u64::from(self.class(value.net)));
                keyed.push(key, value.net)?;
            }
        }
        self.split(alloc, keyed)?;
        Ok(())
    }

    /// Separates those of the nets whose drivers have pins on nets of different classes, and gives
    /// the nets that have got a new class. One net alone leaves its class, whose other nets are not
    /// looked at.
    fn split_by_pins(
        &mut self,
        alloc: Global,
        c: &Circuit,
        nets: &[u32],
    ) -> Result<Vec<u32>, NoMemory> {
        if let [net] = nets {
            return self.split_off(alloc, *net);
        }
        let mut keyed = Keyed::with_room(alloc, nets.len())?;
        for net in nets {
            keyed.push(self.key(c, *net), *net)?;
        }
        self.split(alloc, keyed)
    }

    /// Separates the nets to which some case gives a value of its own.
    fn split_by_cases(&mut self, alloc: Global, cases: &CaseList) -> Result<(), NoMemory> {
        for case in cases.as_slice() {
            self.split_by_case(alloc, case, false)?;
            self.split_by_case(alloc, case, true)?;
        }
        Ok(())
    }

    /// Separates the nets whose drivers have pins on nets of different classes, until no class
    /// splits.
    fn split_to_the_end(&mut self, alloc: Global, c: &Circuit) -> Result<(), NoMemory> {
        let mut feeds = Feeds::of(alloc, c)?;
        let mut nets = all_nets(alloc, c)?;
        for _round in 0..c.net_count() {
            let changed = self.split_by_pins(alloc, c, &nets)?;
            nets = feeds.fed_by(alloc, &changed)?;
            if nets.is_empty() {
                break;
            }
        }
        Ok(())
    }

    /// For each net the first of its class.
    fn numbered(&self, alloc: Global, c: &Circuit) -> Result<ClassMap, NoMemory>
        ensures { IfOk result (λ k. length k ≡ length c.now.nets) }
    {
        let mut firsts = Vec::from_elem(alloc, None, self.sizes.len())?;
        let mut numbers = List::new(alloc);
        for net in 0..c.net_count() {
            numbers.push(first_of(&mut firsts, self.class(net), net))?;
        }
        Ok(numbers)
    }
}

/// The first net of a class: this one, if there has been none.
fn first_of(firsts: &mut [Option<u32>], class: u32, net: u32) -> u32 {
    let class = class as usize;
    if class >= firsts.len() {
        return net;
    }
    match firsts[class] {
        Some(first) => first,
        None => {
            firsts[class] = Some(net);
            net
        }
    }
}

fn all_nets(alloc: Global, c: &Circuit) -> Result<Vec<u32>, NoMemory> {
    let mut nets = Vec::with_capacity(alloc, c.net_count() as usize)?;
    for net in 0..c.net_count() {
        nets.push(net)?;
    }
    Ok(nets)
}

/// Gives each net the number of its class, which is that of one of its nets. They are the fewest
/// classes for which `stable` is true, unless different nets have one key; but nothing depends on
/// either.
pub fn classes(alloc: Global, c: &Circuit, cases: &CaseList) -> Result<ClassMap, NoMemory>
    ensures { IfOk result (λ k. length k ≡ length c.now.nets) }
{
    let mut partition = Partition::whole(alloc, c.net_count())?;
    partition.split_by_kind(alloc, c)?;
    partition.split_by_cases(alloc, cases)?;
    partition.split_to_the_end(alloc, c)?;
    partition.numbered(alloc, c)
}
