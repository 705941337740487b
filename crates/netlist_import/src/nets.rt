//! The nets of a macro, and which of them each bit is.

ghost use Rattle.std.specs.Prelude.{◌≡◌, ◌+◌, ◌-◌, ◌^◌, ◌<◌, [], ◌∷◌, ◌++◌, IfOk, None, OnOk, length, map};
ghost use Rattle.drawing_tree.specs.Canonical.{connection_text};
ghost use Rattle.netlist_import.specs.Body.{connection_of};
ghost use Rattle.netlist_import.specs.Nets as spec;
ghost use Rattle.netlist_import.specs.declared.nets.Wired.TheVariants as wired;

use crate::kinds::is_same_way;
use crate::names::Names;
use crate::netlist::{Bit, Direction, Module, NetName, Port};
use crate::text::add_connection;
use crate::words::{base_of, counted, word_of};
use indexmap::IndexMap;
use scald_base::{Bytes, List, NoMemory};
use std::alloc::Global;
use std::marker::Model;

/// A net: what it is called, and how many bits it has. One that names no bit is called nothing.
#[derive(Drop)]
pub(crate) struct Net {
    pub(crate) name: Bytes,
    pub(crate) width: usize,
}

/// A bit of a net, both by their numbers.
#[derive(Clone, Copy)]
pub(crate) struct Wire {
    pub(crate) net: usize,
    pub(crate) index: usize,
}

/// What stands for a bit.
#[derive(Clone, Copy)]
pub(crate) enum Wired {
    Zero,
    One,
    Bit(Wire),
}

/// What stands for the bits of a connection, in the order in which it is written.
pub(crate) type Wires = List<Wired>;

/// The bits that are called by something, each with the bit of a net that it is.
#[derive(Drop)]
pub(crate) struct Places {
    map: IndexMap<u32, Wire>,
}

impl Model for Places {
    ghost use Rattle.std.specs.Prelude.{List, ℕ};
    ghost use Rattle.netlist_import.specs.declared.nets.Wire.{Wire};

    ghost Value = { List (ℕ × Wire) };

    ghost view = { λ p. p.map.entries };
}

/// The nets of a macro.
#[derive(Drop)]
pub(crate) struct Nets {
    /// The nets by their numbers.
    pub(crate) list: List<Net>,
    /// The names that they took.
    pub(crate) taken: Names,
    pub(crate) wires: Places,
    /// How many nets there are that nothing drives.
    pub(crate) undriven: usize,
}

/// Adds a bit of a net for a bit. There is none for it yet.
fn add_wire(map: &mut IndexMap<u32, Wire>, number: u32, wire: Wire) -> Result<(), NoMemory>
    requires { spec.wire_of number map.old.entries ≡ None }
    ensures { OnOk result (map.new.entries ≡ map.old.entries ++ (number, wire) ∷ []) }
{
    map.insert(number, wire)?;
    Ok(())
}

impl Places {
    /// Nothing calls a bit.
    fn new(alloc: Global) -> Places
        ensures { result ≡ [] }
    {
        Places {
            map: IndexMap::new(alloc),
        }
    }

    /// The bit of a net that a bit of the module is, if it is called by something.
    fn named(&self, number: u32) -> Option<Wire>
        ensures { result ≡ spec.wire_of number self.now }
    {
        self.map.get(&number).copied()
    }

    /// Calls a bit by a bit of a net. Nothing calls it yet.
    fn call(&mut self, number: u32, wire: Wire) -> Result<(), NoMemory>
        requires { spec.wire_of number self.old ≡ None }
        ensures { OnOk result (self.new ≡ self.old ++ (number, wire) ∷ []) }
    {
        add_wire(&mut self.map, number, wire)
    }
}

/// Calls a bit by a bit of a net, if nothing calls it yet.
fn claim_number(places: &mut Places, wire: Wire, number: u32) -> Result<(), NoMemory>
    ensures { OnOk result (places.new ≡ spec.with_wire number wire places.old) }
{
    match places.named(number) {
        Some(_) => Ok(()),
        None => places.call(number, wire),
    }
}

/// Takes a bit of a net that no net before it has.
fn claim_bit(places: &mut Places, wire: Wire, bit: Bit) -> Result<(), NoMemory>
    ensures { OnOk result (places.new ≡ spec.with_bit wire.net (wire.index, bit)
        places.old) }
{
    match bit {
        Bit::Number(number) => claim_number(places, wire, number),
        _ => Ok(()),
    }
}

/// Takes the bits of a net that no net before it has.
#[tactic(auto, unfolding(crate::specs::Nets::with_bits, crate::specs::Nets::numbered_from))]
fn claim(places: &mut Places, net: usize, bits: &[Bit]) -> Result<(), NoMemory>
    ensures { OnOk result (places.new
        ≡ spec.with_bits net (spec.numbered_from 0 bits.now) places.old) }
{
    for (index, bit) in bits.iter().enumerate() {
        claim_bit(places, Wire { net, index }, *bit)?;
    }
    Ok(())
}

/// Takes the bits of all ports of a direction. The first port has the number 0.
#[tactic(auto, unfolding(crate::specs::Nets::with_vectors, crate::specs::Nets::numbered_from))]
fn claim_ports(places: &mut Places, ports: &[Port], direction: Direction) -> Result<(), NoMemory>
    ensures { OnOk result (places.new
        ≡ spec.with_vectors (spec.port_vectors direction 0 ports.now) places.old) }
{
    for (net, port) in ports.iter().enumerate() {
        if is_same_way(port.direction, direction) {
            claim(places, net, port.bits.as_slice())?;
        }
    }
    Ok(())
}

/// Takes the bits of all nets that are hidden, or that are not. The first net has the number
/// `first`.
#[tactic(auto, unfolding(crate::specs::Nets::with_vectors, crate::specs::Nets::numbered_from))]
fn claim_nets(
    places: &mut Places,
    nets: &[NetName],
    first: usize,
    is_hidden: bool,
) -> Result<(), NoMemory>
    requires { first + length nets.now < 2 ^ 64 }
    ensures { OnOk result (places.new
        ≡ spec.with_vectors (spec.net_vectors is_hidden first nets.now) places.old) }
{
    for (place, named) in nets.iter().enumerate() {
        if named.is_hidden == is_hidden {
            claim(places, first + place, named.bits.as_slice())?;
        }
    }
    Ok(())
}

/// The bits of a module that has a name: the first input port that has it, else the first output
/// port, else the first net that is not hidden, else the first net.
#[tactic(auto, using(crate::proofs::Claims::vectors_both))]
fn places_of(alloc: Global, module: &Module) -> Result<Places, NoMemory>
    ensures { IfOk result (λ places. places ≡ spec.own_wires «module».now) }
{
    let mut places = Places::new(alloc);
    let ports = module.ports.as_slice();
    let nets = module.nets.as_slice();
    let first = ports.len();
    claim_ports(&mut places, ports, Direction::Input)?;
    claim_ports(&mut places, ports, Direction::Output)?;
    claim_nets(&mut places, nets, first, false)?;
    claim_nets(&mut places, nets, first, true)?;
    Ok(places)
}

/// Whether a bit is called by this net.
fn is_named_by(places: &Places, net: usize, bit: Bit) -> bool
    ensures { result ≡ spec.named_by places.now net bit }
{
    let Bit::Number(number) = bit else {
        return false;
    };
    match places.named(number) {
        Some(wire) => wire.net == net,
        None => false,
    }
}

/// Whether one of these bits is called by this net.
fn names_a_bit(places: &Places, net: usize, bits: &[Bit]) -> bool
    ensures { result ≡ spec.names_a_bit places.now net bits.now }
{
    bits.iter().any(|bit| is_named_by(places, net, *bit))
}

/// What a net is to be called, after so many others that are hidden.
fn wanted_name(alloc: Global, hidden: usize, net: &NetName) -> Result<Bytes, NoMemory>
    ensures { IfOk result (λ name. name ≡ spec.net_name hidden net.now) }
{
    if net.is_hidden {
        counted(alloc, b"n", hidden)
    } else {
        base_of(alloc, net.name.as_slice())
    }
}

/// How many nets are hidden after this one.
fn hidden_after(hidden: usize, net: &NetName) -> usize
    requires { hidden < 2 ^ 64 - 1 }
    ensures { result ≡ spec.hidden_after hidden net.now }
{
    if net.is_hidden { hidden + 1 } else { hidden }
}

impl Nets {
    /// The nets of a module: its ports, and those that name a bit.
    pub(crate) fn of(alloc: Global, module: &Module) -> Result<Nets, NoMemory>
        ensures { IfOk result (λ nets. nets ≡ spec.own_nets «module».now) }
    {
        let places = places_of(alloc, module)?;
        let mut nets = Nets::calling(alloc, places);
        nets.add_own(alloc, module)?;
        Ok(nets)
    }

    /// No nets yet, and the bits that they are to be called by.
    fn calling(alloc: Global, places: Places) -> Nets
        ensures { result ≡ spec.no_nets places }
    {
        Nets {
            list: List::new(alloc),
            taken: Names::new(alloc),
            wires: places,
            undriven: 0,
        }
    }

    /// Adds the ports of a module, and its nets that name a bit.
    fn add_own(&mut self, alloc: Global, module: &Module) -> Result<(), NoMemory>
        requires { self.old ≡ spec.no_nets (spec.own_wires «module».now) }
        ensures { OnOk result (self.new ≡ spec.own_nets «module».now) }
    {
        self.add_ports(alloc, module.ports.as_slice())?;
        self.add_nets(alloc, module.ports.len(), module.nets.as_slice())
    }

    /// Adds a net that is called so if it can be.
    fn add(&mut self, alloc: Global, wanted: Bytes, width: usize) -> Result<usize, NoMemory>
        ensures net { IfOk result (λ net. net ≡ length self.old.list) }
        ensures nets { OnOk result (self.new ≡ spec.with_net wanted width self.old) }
    {
        let name = self.taken.fresh(alloc, wanted)?;
        let net = self.list.len();
        self.list.push(Net { name, width })?;
        Ok(net)
    }

    /// Adds a net that is called nothing.
    fn add_unnamed(&mut self, alloc: Global, width: usize) -> Result<(), NoMemory>
        ensures { OnOk result (self.new ≡ spec.with_wanted None width self.old) }
    {
        let name = Bytes::new(alloc);
        self.list.push(Net { name, width })
    }

    /// Adds the net of a port.
    fn add_port(&mut self, alloc: Global, port: &Port) -> Result<(), NoMemory>
        ensures { OnOk result (self.new ≡ spec.with_wanted (spec.port_wanted port.now)
            (length port.now.bits) self.old) }
    {
        if port.bits.is_empty() {
            return self.add_unnamed(alloc, port.bits.len());
        }
        let wanted = word_of(alloc, port.name.as_slice())?;
        self.add(alloc, wanted, port.bits.len())?;
        Ok(())
    }

    /// Adds the nets of the ports.
    #[tactic(auto, unfolding(crate::specs::Nets::with_all))]
    fn add_ports(&mut self, alloc: Global, ports: &[Port]) -> Result<(), NoMemory>
        ensures { OnOk result (self.new ≡ spec.with_all (map spec.port_wanted ports.now)
            (map (λ p. length p.bits) ports.now) self.old) }
    {
        for port in ports {
            self.add_port(alloc, port)?;
        }
        Ok(())
    }

    /// Adds the nets that are not those of ports. The first one has the number `first`.
    #[tactic(auto, unfolding(crate::specs::Nets::with_all, crate::specs::Nets::nets_wanted))]
    fn add_nets(&mut self, alloc: Global, first: usize, nets: &[NetName]) -> Result<(), NoMemory>
        requires { first + length nets.now < 2 ^ 64 }
        ensures { OnOk result (self.new ≡ spec.with_all
            (spec.nets_wanted self.old.wires 0 first nets.now)
            (map (λ n. length n.bits) nets.now) self.old) }
    {
        let mut hidden = 0;
        for (place, net) in nets.iter().enumerate() {
            let width = net.bits.len();
            if names_a_bit(&self.wires, first + place, net.bits.as_slice()) {
                let wanted = wanted_name(alloc, hidden, net)?;
                self.add(alloc, wanted, width)?;
                hidden = hidden_after(hidden, net);
            } else {
                self.add_unnamed(alloc, width)?;
            }
        }
        Ok(())
    }

    /// Adds a net of so many bits that nothing drives.
    fn add_undriven(&mut self, alloc: Global, width: usize) -> Result<usize, NoMemory>
        ensures net { IfOk result (λ net. net ≡ length self.old.list) }
        ensures nets { OnOk result (self.new ≡ spec.with_undriven width self.old) }
    {
        // No memory holds so many nets.
        let Some(undriven) = self.undriven.checked_add(1) else {
            return Err(NoMemory);
        };
        let wanted = counted(alloc, b"x", self.undriven)?;
        let net = self.add(alloc, wanted, width)?;
        self.undriven = undriven;
        Ok(net)
    }

    /// Adds a net for a bit that is called by nothing.
    fn add_other(&mut self, alloc: Global, number: u32) -> Result<Wire, NoMemory>
        requires { spec.wire_of number self.old.wires ≡ None }
        ensures wire { IfOk result (λ wire. wire ≡ spec.next_wire self.old) }
        ensures nets { OnOk result (self.new ≡ spec.with_other number self.old) }
    {
        let wanted = Bytes::of(alloc, b"b")?;
        let net = self.add(alloc, wanted, 1)?;
        let wire = Wire { net, index: 0 };
        self.wires.call(number, wire)?;
        Ok(wire)
    }

    /// The bit of a net that a bit of the module is. One without a name becomes a net of its own.
    fn wire_of(&mut self, alloc: Global, number: u32) -> Result<Wire, NoMemory>
        ensures { IfOk result (λ wire. (wired.Bit wire, self.new)
            ≡ spec.found_or_other number self.old (spec.wire_of number self.old.wires)) }
    {
        match self.named(number) {
            Some(wire) => Ok(wire),
            None => self.add_other(alloc, number),
        }
    }

    /// What stands for a bit.
    pub(crate) fn wired(&mut self, alloc: Global, bit: Bit) -> Result<Wired, NoMemory>
        ensures { IfOk result (λ stands. (stands, self.new) ≡ spec.stand bit self.old) }
    {
        match bit {
            Bit::Zero => Ok(Wired::Zero),
            Bit::One => Ok(Wired::One),
            Bit::Number(number) => Ok(Wired::Bit(self.wire_of(alloc, number)?)),
            Bit::Undriven => {
                let net = self.add_undriven(alloc, 1)?;
                Ok(Wired::Bit(Wire { net, index: 0 }))
            }
        }
    }

    /// What stands for bits, from the last to the first.
    #[tactic(auto, unfolding(crate::specs::Nets::stand_along))]
    pub(crate) fn wires(&mut self, alloc: Global, bits: &[Bit]) -> Result<Wires, NoMemory>
        ensures { IfOk result (λ wires. (wires, self.new) ≡ spec.wires bits.now self.old) }
    {
        let mut wires = List::new(alloc);
        let mut left = bits.len();
        while left > 0 {
            left -= 1;
            wires.push(self.wired(alloc, bits[left])?)?;
        }
        Ok(wires)
    }

    /// What stands for a connection of so many bits that a cell leaves out: a net of its own.
    pub(crate) fn left_out(&mut self, alloc: Global, width: usize) -> Result<Wires, NoMemory>
        ensures { IfOk result (λ wires. (wires, self.new) ≡ spec.left_out width self.old) }
    {
        let net = self.add_undriven(alloc, width)?;
        let mut wires = List::new(alloc);
        let mut index = width;
        while index > 0 {
            index -= 1;
            wires.push(Wired::Bit(Wire { net, index }))?;
        }
        Ok(wires)
    }

    /// The bit of a net that a bit of the module is, if it is called by something.
    pub(crate) fn named(&self, number: u32) -> Option<Wire>
        ensures { result ≡ spec.wire_of number self.now.wires }
    {
        self.wires.named(number)
    }

    /// The names of the nets, in the order in which they were taken: those of the ports first.
    pub(crate) fn taken_names(&self) -> &[Bytes]
        ensures { result.now ≡ self.now.taken }
    {
        self.taken.as_slice()
    }

    /// Puts a connection at the end of `out`.
    pub(crate) fn add_connection(&self, out: &mut Bytes, wires: &[Wired]) -> Result<(), NoMemory>
        ensures { OnOk result (out.new ≡ out.old
            ++ connection_text (connection_of self.now.list wires.now)) }
    {
        add_connection(out, self.list.as_slice(), wires)
    }
}
