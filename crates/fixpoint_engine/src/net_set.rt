//! Sets of nets.

ghost use Rattle.std.specs.Prelude.{◌≡◌, ◌<◌, IfOk, false, true, length, replicate, slice_set};
ghost use Rattle.fixpoint_engine.specs.Settled.{marked_in};

use scald_base::NoMemory;
use std::alloc::Global;
use std::marker::Model;

/// A set of nets, by their numbers. Contracts see a mark for each net, which is set if the net
/// is in the set.
#[derive(Drop)]
pub struct NetSet {
    marks: Vec<bool>,
}

impl Model for NetSet {
    ghost use Rattle.std.specs.Prelude.{List, Bool};

    ghost Value = { List Bool };

    ghost view = { λ s. s.marks.items };
}

impl NetSet {
    /// The empty set, with room for the nets below this number.
    pub fn new(alloc: Global, nets: u32) -> Result<NetSet, NoMemory>
        ensures { IfOk result (λ set. set ≡ replicate nets false) }
    {
        let marks = Vec::from_elem(alloc, false, nets as usize)?;
        Ok(NetSet { marks })
    }

    /// The same set once more.
    pub fn copy(&self, alloc: Global) -> Result<NetSet, NoMemory>
        ensures { IfOk result (λ set. set ≡ self.now) }
    {
        let marks = Vec::from_slice(alloc, &self.marks)?;
        Ok(NetSet { marks })
    }

    /// Puts a net into the set.
    pub fn add(&mut self, net: u32)
        requires { net < length self.old }
        ensures { self.new ≡ slice_set self.old net true }
    {
        self.marks[net as usize] = true;
    }

    /// Takes a net out of the set.
    pub fn remove(&mut self, net: u32)
        requires { net < length self.old }
        ensures { self.new ≡ slice_set self.old net false }
    {
        self.marks[net as usize] = false;
    }

    /// Whether the net is in the set: it was added.
    pub fn has(&self, net: u32) -> bool
        ensures { result ≡ marked_in self.now net }
    {
        match self.marks.get(net as usize) {
            Some(mark) => *mark,
            None => false,
        }
    }
}
