//! The nets' numbers and wire bounds, while a circuit is built.

ghost use Rattle.std.specs.Prelude.{◌≡◌, ◌<◌, [], ◌∷◌, ◌++◌, length, slice_set, OnOk, OnErr, MatchOption, true, false};
ghost use Rattle.flat_circuit.specs.Name.{IsNumber, name_at};
ghost use Rattle.flat_circuit.specs.Builder.{has_name, name_of_key, net_entries, bounds_at};

use crate::text::Text;
use indexmap::IndexMap;
use indexmap::map::IntoIter;
use scald_base::{Delay, NoMemory};
use std::alloc::Global;
use std::marker::Model;

/// The whole text of path and base name, and the bit.
#[derive(Drop, PartialEq, Eq, Hash)]
pub struct NetName {
    pub text: Text,
    pub bit: u16,
}

/// Names in the order of their numbers, each with the bounds of its wires.
#[derive(Drop)]
pub struct NetTable {
    nets: IndexMap<NetName, Delay>,
}

impl Model for NetTable {
    ghost use Rattle.flat_circuit.specs.Builder.{Nets, net_entries, IsNets};

    ghost Value = { Nets };

    ghost view = { λ t. net_entries t.nets.entries };

    ghost invariant = { λ t. IsNets (net_entries t.nets.entries) };
}

impl NetTable {
    pub(crate) fn new(alloc: Global) -> NetTable
        ensures names { result.names ≡ [] }
        ensures wires { result.wires ≡ [] }
    {
        NetTable {
            nets: IndexMap::new(alloc),
        }
    }

    pub(crate) fn len(&self) -> usize
        ensures names { result ≡ length self.now.names }
        ensures wires { result ≡ length self.now.wires }
    {
        self.nets.len()
    }

    /// The number of a name.
    pub(crate) fn number_of(&self, name: &NetName) -> Option<usize>
        ensures { MatchOption result (has_name self.now.names (name_of_key name.now) ≡ false) (λ i.
            (has_name self.now.names (name_of_key name.now) ≡ true) × IsNumber self.now.names
            (name_of_key name.now) i) }
    {
        self.nets.get_index_of(name)
    }

    /// Gives a new name the next number.
    pub(crate) fn add(&mut self, name: NetName, wire: Delay) -> Result<(), NoMemory>
        requires { has_name self.old.names (name_of_key name) ≡ false }
        ensures names { OnOk result (self.new.names ≡ self.old.names ++ name_of_key name ∷ []) }
        ensures wires { OnOk result (self.new.wires ≡ self.old.wires ++ wire ∷ []) }
        ensures err { OnErr result (self.new ≡ self.old) }
    {
        self.nets.insert(name, wire)?;
        Ok(())
    }

    /// The name of a number.
    pub(crate) fn name(&self, i: usize) -> &NetName
        requires { i < length self.now.names }
        ensures { name_of_key result.now ≡ name_at self.now.names i }
    {
        self.nets.get_index(i).unwrap().0
    }

    /// The bounds of a net's wires, and 0:0 if there is no such net.
    pub(crate) fn wire_at(&self, i: usize) -> Delay
        ensures { result ≡ bounds_at self.now.wires i }
    {
        match self.nets.get_index(i) {
            Some((_, wire)) => *wire,
            None => Delay { min: 0, max: 0 },
        }
    }

    /// The names with the bounds of their wires, in the order of their numbers, without what finds
    /// a number.
    pub(crate) fn into_entries(self) -> IntoIter<NetName, Delay>
        ensures { net_entries result ≡ self }
    {
        self.nets.into_iter()
    }

    /// Sets the bounds of a net's wires.
    pub(crate) fn set_wire(&mut self, net: usize, wire: Delay)
        requires { net < length self.old.names }
        ensures names { self.new.names ≡ self.old.names }
        ensures wires { self.new.wires ≡ slice_set self.old.wires net wire }
    {
        if let Some(bounds) = self.nets.get_index_mut(net) {
            *bounds = wire;
        }
    }
}
