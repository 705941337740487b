//! The circuit, and how it is read.

ghost use Rattle.std.specs.Prelude.{◌≡◌, ◌<◌, ◌≤◌, ℕ, length, slice_get, MatchOption};
ghost use Rattle.std.specs.Option.{option_copied};
ghost use Rattle.flat_circuit.specs.Name.{Name, IsNumber, name_at, name_cmp, net_at};
ghost use Rattle.flat_circuit.specs.Instances.{readers_of};
ghost use Rattle.flat_circuit.specs.Circuit.{IsCircuit, driver, net_names};

use crate::instance::Instance;
use crate::net::Net;
use crate::readers::Readers;
use scald_base::{Header, List};
use std::cmp::Ordering;
use std::marker::Model;

/// A drawing's circuit. Nets and instances go by their numbers, which count from 0: nets in the
/// order in which they were first named, instances in the order of expansion, checkers among them.
/// `known` says what holds of each.
#[derive(Drop)]
pub struct Circuit {
    pub(crate) header: Header,
    pub(crate) nets: List<Net>,
    pub(crate) instances: List<Instance>,
    /// The instances that read each net.
    pub(crate) readers: Vec<Readers>,
    /// The nets' numbers, sorted by name and bit.
    pub(crate) order: Vec<u32>,
}

impl Model for Circuit {
    ghost use Rattle.std.specs.Prelude.{◌≡◌, map, length};
    ghost use Rattle.std.specs.List.{range_with_len};
    ghost use Rattle.flat_circuit.specs.Instances.{readers_of};
    ghost use Rattle.flat_circuit.specs.Circuit.{Circuit as Flat, IsCircuit};

    ghost Value = { Flat };

    ghost view = { λ c.
        record {
          header = c.header;
          nets = c.nets;
          instances = c.instances;
          order = c.order.items;
        } };

    ghost invariant = { λ c.
        IsCircuit (record {
          header = c.header;
          nets = c.nets;
          instances = c.instances;
          order = c.order.items;
        })
        × (c.readers.items ≡ map (readers_of c.instances) (range_with_len 0 (length c.nets))) };
}

impl Circuit {
    /// What holds of each circuit: the numbers in it exist, assertions fit the header, pins and
    /// limits fit the kinds, each net has at most one driver, and there is no loop without delay.
    pub fn known(&self)
        ensures { IsCircuit self.now }
    {
        let _ = &self.nets;
    }

    /// What the head of the drawing says.
    pub fn header(&self) -> &Header
        ensures { result.now ≡ self.now.header }
    {
        &self.header
    }

    /// How many nets there are.
    pub fn net_count(&self) -> u32
        ensures { result ≡ length self.now.nets }
    {
        self.nets.len() as u32
    }

    /// The net of a number, or `None` exactly if it is past the last.
    pub fn net(&self, i: u32) -> Option<&Net>
        ensures { option_copied result ≡ slice_get self.now.nets i }
    {
        self.nets.get(i as usize)
    }

    /// How many instances there are, checkers among them.
    pub fn instance_count(&self) -> u32
        ensures { result ≡ length self.now.instances }
    {
        self.instances.len() as u32
    }

    /// The instance of a number, or `None` exactly if it is past the last.
    pub fn instance(&self, i: u32) -> Option<&Instance>
        ensures { option_copied result ≡ slice_get self.now.instances i }
    {
        self.instances.get(i as usize)
    }

    /// The instance that drives the net of a number, or `None` exactly if nothing drives it or
    /// there is no such net.
    pub fn driver_of(&self, net: u32) -> Option<&Instance>
        ensures { option_copied result ≡ driver self.now net }
    {
        let driver = self.net(net)?.driver?;
        self.instance(driver)
    }

    /// The instances with an output that have a listening pin on the net, each once, in ascending
    /// order, and no checkers; or `None` exactly if there is no such net.
    pub fn readers(&self, net: u32) -> Option<&[u32]>
        ensures { MatchOption result (length self.now.nets ≤ net) (λ readers.
            (net < length self.now.nets) × (readers.now ≡ readers_of self.now.instances net)) }
    {
        match self.readers.get(net as usize) {
            Some(row) => Some(row.as_slice()),
            None => None,
        }
    }

    /// The number of the net at a place from 0 in name order, or `None` exactly past the last.
    pub fn by_name(&self, k: u32) -> Option<u32>
        ensures { result ≡ slice_get self.now.order k }
    {
        self.order.get(k as usize).copied()
    }

    /// The number of the net at a place from 0 in name order; past the last, 0.
    #[tactic(auto, using(crate::proofs::Numbered::past_last, crate::proofs::Numbered::at_place))]
    pub fn net_at(&self, place: u32) -> u32
        ensures { result ≡ net_at self.now.order place }
    {
        match self.by_name(place) {
            Some(net) => net,
            None => 0,
        }
    }

    /// The number of the net of this whole name, path and base, and this bit, or `None` exactly
    /// if there is none.
    pub fn find(&self, name: &[u8], bit: u16) -> Option<u32>
        ensures { let wanted : Name = record { text = name.now; bit = bit } in MatchOption result
            ((i : ℕ) → ¬ (IsNumber (net_names self.now.nets) wanted i))
            (IsNumber (net_names self.now.nets) wanted) }
    {
        let nets = self.nets.as_slice();
        match self
            .order
            .binary_search_by(|i| order_of_number(nets, *i, name, bit))
        {
            Ok(at) => Some(self.order[at]),
            Err(_) => None,
        }
    }
}

// Where one name stands against another.
fn order_of_names(text: &[u8], bit: u16, other: &[u8], other_bit: u16) -> Ordering
    ensures { result ≡ name_cmp (record { text = text.now; bit = bit })
        (record { text = other.now; bit = other_bit }) }
{
    text.cmp(other).then(bit.cmp(&other_bit))
}

// Where the name of the net of a number stands against another; a number past the last is as one
// without a name.
pub(crate) fn order_of_number(nets: &[Net], number: u32, text: &[u8], bit: u16) -> Ordering
    ensures { result ≡ name_cmp (name_at (net_names nets.now) number)
        (record { text = text.now; bit = bit }) }
{
    match nets.get(number as usize) {
        Some(net) => order_of_names(net.name.as_slice(), net.bit, text, bit),
        None => order_of_names(&[], 0, text, bit),
    }
}
