//! What a constraint depends on: its nets, and those of the drivers behind them.

ghost use Rattle.std.specs.Prelude.{◌≡◌, ◌<◌, ◌==◌, ◌++◌, ◌&&◌, ◌||◌, ℕ, IfOk, OnOk, false, length, replicate, slice_get};
ghost use Rattle.std.specs.List.{All};
ghost use Rattle.flat_circuit.specs.Instances.{PinExists, is_on};
ghost use Rattle.flat_circuit.specs.Circuit.{driver};
ghost use Rattle.fixpoint_engine.specs.Settled.{marked_in};
ghost use Rattle.fixpoint_engine.specs.Worklist.{IsQueue};
ghost use Rattle.case_analysis.specs.Found.{Extends};
ghost use Rattle.narrowing.specs.Cone.{IsBehind, any_leads, fed_by, is_first, leads as leads_on, net_of_target, nets_of_instance, nets_of_pins, own_nets};

use crate::constraint::Constraint;
use element_kinds::Kind;
use fixpoint_engine::NetSet;
use flat_circuit::{Circuit, Pin, Target};
use scald_base::NoMemory;
use std::alloc::Global;
use std::marker::Model;

/// Which pins of a driver lead on.
#[derive(Clone, Copy, PartialEq, Eq, Debug)]
pub enum Through {
    /// All.
    EachPin,
    /// Those to which the output listens: not the input of a register.
    ListeningPins,
}

impl Through {
    /// Whether the pin at a place leads on.
    fn leads(self, kind: Kind, place: usize) -> bool
        ensures { result ≡ leads_on self kind place }
    {
        match self {
            Through::EachPin => true,
            Through::ListeningPins => kind.listens(place),
        }
    }
}

// ---- the nets that a constraint is about

/// The instance of a constraint that is no assertion's.
pub fn instance_of(x: Constraint) -> Option<u32> {
    match x {
        Constraint::Instance(instance) => Some(instance),
        Constraint::Pulse { instance, high: _ } => Some(instance),
        Constraint::Net(_) => None,
    }
}

/// Puts the net of a pin at the end, if it is on one.
fn add_net_of(nets: &mut Vec<u32>, pin: Pin) -> Result<(), NoMemory>
    ensures { OnOk result (nets.new.items ≡ nets.old.items ++ net_of_target pin.target) }
{
    if let Target::Net(net) = pin.target {
        nets.push(net)?;
    }
    Ok(())
}

/// Puts the nets of pins at the end.
fn add_nets_of(nets: &mut Vec<u32>, pins: &[Pin]) -> Result<(), NoMemory>
    ensures { OnOk result (nets.new.items ≡ nets.old.items ++ nets_of_pins pins.now) }
{
    for pin in pins {
        add_net_of(nets, *pin)?;
    }
    Ok(())
}

/// The nets that a constraint is about.
pub fn nets_of(alloc: Global, c: &Circuit, x: Constraint) -> Result<Vec<u32>, NoMemory>
    ensures { IfOk result (λ nets. nets.items ≡ own_nets c.now x) }
{
    let mut nets = Vec::new(alloc);
    match x {
        Constraint::Instance(k) => add_pins_of(&mut nets, c, k)?,
        Constraint::Pulse { instance, high: _ } => add_pins_of(&mut nets, c, instance)?,
        Constraint::Net(net) => nets.push(net)?,
    }
    Ok(nets)
}

/// Puts the nets of the pins of instance k at the end, if there is such an instance.
fn add_pins_of(nets: &mut Vec<u32>, c: &Circuit, k: u32) -> Result<(), NoMemory>
    ensures { OnOk result (nets.new.items
        ≡ nets.old.items ++ nets_of_instance (slice_get c.now.instances k)) }
{
    match c.instance(k) {
        None => Ok(()),
        Some(i) => add_nets_of(nets, i.pins.as_slice()),
    }
}

// ---- the nets behind them

/// Nets that were found, each once.
#[derive(Drop)]
struct Found {
    nets: Vec<u32>,
    /// Which nets stand in the list.
    marks: NetSet,
}

impl Model for Found {
    ghost use Rattle.fixpoint_engine.specs.Worklist.{Queue, IsQueue};

    ghost Value = { Queue };

    ghost view = { λ f. record { nets = f.nets.items; marks = f.marks } };

    ghost invariant = { λ f. IsQueue (record { nets = f.nets.items; marks = f.marks }) };
}

impl Found {
    /// None of so many nets.
    fn new(alloc: Global, nets: u32) -> Result<Found, NoMemory>
        ensures { IfOk result (λ found. found.marks ≡ replicate nets false) }
    {
        Ok(Found {
            nets: Vec::new(alloc),
            marks: NetSet::new(alloc, nets)?,
        })
    }

    /// The net that was found so many nets after the first.
    fn at(&self, place: usize) -> Option<u32>
        ensures is { result ≡ slice_get self.now.nets place }
        ensures once { IsQueue self.now }
    {
        self.nets.get(place).copied()
    }

    /// Appends a net, unless it is there already.
    fn add(&mut self, net: u32) -> Result<(), NoMemory>
        requires { net < length self.old.marks }
        ensures { OnOk result (Extends (λ i. net == i) self.old self.new) }
    {
        if !self.marks.has(net) {
            self.nets.push(net)?;
            self.marks.add(net);
        }
        Ok(())
    }

    /// Appends the net of a pin, if the pin leads on.
    fn add_pin(&mut self, pin: Pin, leads: bool) -> Result<(), NoMemory>
        requires { PinExists (length self.old.marks) pin }
        ensures { OnOk result (Extends (λ i. leads && is_on i pin.target) self.old self.new) }
    {
        match pin.target {
            Target::Net(net) if leads => self.add(net),
            _ => Ok(()),
        }
    }

    /// Appends the nets of the pins that lead on.
    fn add_pins(&mut self, kind: Kind, pins: &[Pin], through: Through) -> Result<(), NoMemory>
        requires { All (PinExists (length self.old.marks)) pins.now }
        ensures { OnOk result (Extends (λ i. any_leads through kind i 0 pins.now)
            self.old self.new) }
    {
        for place in 0..pins.len() {
            self.add_pin(pins[place], through.leads(kind, place))?;
        }
        Ok(())
    }

    /// Appends the nets of the pins of a net's driver that lead on.
    fn add_behind(&mut self, c: &Circuit, net: u32, through: Through) -> Result<(), NoMemory>
        requires { length self.old.marks ≡ length c.now.nets }
        ensures { OnOk result (Extends (λ i. fed_by through i (driver c.now net))
            self.old self.new) }
    {
        c.known();
        match c.driver_of(net) {
            None => Ok(()),
            Some(driver) => self.add_pins(driver.kind, driver.pins.as_slice(), through),
        }
    }

    /// Appends those of some nets that the circuit has.
    #[tactic(auto, using(crate::proofs::Behind::first_more, crate::proofs::Behind::other_more))]
    fn add_firsts(&mut self, c: &Circuit, nets: &[u32]) -> Result<(), NoMemory>
        requires { length self.old.marks ≡ length c.now.nets }
        ensures each_net { OnOk result (length self.new.marks ≡ length c.now.nets) }
        ensures marks { OnOk result ((i : ℕ) → marked_in self.new.marks i
            ≡ (marked_in self.old.marks i || is_first (length c.now.nets) nets.now i)) }
    {
        for net in nets {
            if *net < c.net_count() {
                self.add(*net)?;
            }
        }
        Ok(())
    }
}

/// All that is found behind some nets.
fn found_behind(
    alloc: Global,
    c: &Circuit,
    nets: &[u32],
    through: Through,
) -> Result<Found, NoMemory>
    ensures { IfOk result (λ found. IsBehind c.now through nets.now (marked_in found.marks)) }
{
    let mut found = Found::new(alloc, c.net_count())?;
    found.add_firsts(c, nets)?;
    let mut next = 0;
    'nets: while let Some(net) = found.at(next) {
        found.add_behind(c, net, through)?;
        next += 1;
    }
    Ok(found)
}

/// These nets and those of the drivers behind them, each once, the nearest first.
pub fn nets_behind(
    alloc: Global,
    c: &Circuit,
    nets: &[u32],
    through: Through,
) -> Result<Vec<u32>, NoMemory> {
    let Found { nets, marks: _ } = found_behind(alloc, c, nets, through)?;
    Ok(nets)
}

/// The set of these nets and of those of the drivers behind them, and of no other.
pub fn cone_behind(
    alloc: Global,
    c: &Circuit,
    nets: &[u32],
    through: Through,
) -> Result<NetSet, NoMemory>
    ensures { IfOk result (λ set. IsBehind c.now through nets.now (marked_in set)) }
{
    let Found { nets: _, marks } = found_behind(alloc, c, nets, through)?;
    Ok(marks)
}
