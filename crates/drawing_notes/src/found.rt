//! Searches from net to net, through gates and change functions alone.

ghost use Rattle.std.specs.Prelude.{◌≡◌, ◌<◌, ◌==◌, ◌&&◌, ◌||◌, ℕ, [], IfOk, OnOk, Some, false, length, replicate, slice_get};
ghost use Rattle.std.specs.List.{All, list_any};
ghost use Rattle.flat_circuit.specs.Instances.{PinExists, is_on};
ghost use Rattle.fixpoint_engine.specs.Settled.{marked_in};
ghost use Rattle.fixpoint_engine.specs.Work.{is_on_any};
ghost use Rattle.fixpoint_engine.specs.Worklist.{IsQueue};
ghost use Rattle.case_analysis.specs.Found.{Extends};
ghost use Rattle.fixpoint_engine.specs.Waves.{waves_of};
ghost use Rattle.drawing_notes.specs.Passing.{opens_at as spec_opens_at, opens_by, opens_on};
ghost use Rattle.drawing_notes.specs.Paths.{leads, leads_in};
ghost use Rattle.drawing_notes.specs.Seen.{IsSeen};
ghost use Rattle.drawing_notes.specs.Search.{IsFound, is_led_to, opens_to, passes_to};

use crate::passing::{View, is_heard};
use crate::pins::passes;
use fixpoint_engine::{NetSet, Waves, output_of, readers_of};
use flat_circuit::{Circuit, Instance, Pin, Target};
use scald_base::NoMemory;
use std::alloc::Global;
use std::marker::Model;
use step_values::Value;
use wave_core::CyclicWave;

/// Nets that were found, each once.
#[derive(Drop)]
pub struct Found {
    nets: Vec<u32>,
    /// Which nets stand in the list.
    marks: NetSet,
}

impl Model for Found {
    ghost use Rattle.fixpoint_engine.specs.Worklist.{Queue, IsQueue};

    ghost Value = { Queue };

    ghost view = { λ f. record { nets = f.nets.items; marks = f.marks } };

    ghost invariant = { λ f. IsQueue (record { nets = f.nets.items; marks = f.marks }) };
}

impl Found {
    /// None of so many nets.
    pub fn new(alloc: Global, nets: u32) -> Result<Found, NoMemory>
        ensures { IfOk result (λ found. found.marks ≡ replicate nets false) }
    {
        Ok(Found {
            nets: Vec::new(alloc),
            marks: NetSet::new(alloc, nets)?,
        })
    }

    /// The nets that were found.
    pub fn nets(&self) -> &[u32]
        ensures is { result.now ≡ self.now.nets }
        ensures once { IsQueue self.now }
    {
        self.nets.as_slice()
    }

    /// The same as a set.
    pub fn set(&self) -> &NetSet
        ensures { result.now ≡ self.now.marks }
    {
        &self.marks
    }

    /// The net that was found so many nets after the first.
    fn at(&self, place: usize) -> Option<u32>
        ensures is { result ≡ slice_get self.now.nets place }
        ensures once { IsQueue self.now }
    {
        self.nets.get(place).copied()
    }

    /// Appends a net, unless it is there already.
    pub fn add(&mut self, net: u32) -> Result<(), NoMemory>
        requires { net < length self.old.marks }
        ensures { OnOk result (Extends (λ i. net == i) self.old self.new) }
    {
        if !self.marks.has(net) {
            self.nets.push(net)?;
            self.marks.add(net);
        }
        Ok(())
    }

    /// Forgets all nets. It costs what was found.
    pub fn clear(&mut self)
        ensures nets { self.new.nets ≡ [] }
        ensures marks { self.new.marks ≡ replicate (length self.old.marks) false }
    {
        while let Some(net) = self.nets.pop() {
            self.marks.remove(net);
        }
    }

    /// Appends what an instance drives, if it passes on what its pins do and the net is within
    /// the set.
    fn add_output(&mut self, c: &Circuit, within: &NetSet, number: u32) -> Result<(), NoMemory>
        requires { length self.old.marks ≡ length c.now.nets }
        ensures { OnOk result (Extends (λ i. marked_in within.now i
            && passes_to (slice_get c.now.instances number) i) self.old self.new) }
    {
        c.known();
        let Some(instance) = c.instance(number) else {
            return Ok(());
        };
        if !passes(instance.kind) {
            return Ok(());
        }
        match output_of(c, number) {
            Some(net) if within.has(net) => self.add(net),
            _ => Ok(()),
        }
    }

    /// Appends the nets within the set to which a net leads by one step.
    fn add_after(&mut self, c: &Circuit, within: &NetSet, net: u32) -> Result<(), NoMemory>
        requires each_net { length self.old.marks ≡ length c.now.nets }
        requires exists { net < length c.now.nets }
        ensures { OnOk result (Extends (λ i. marked_in within.now i
            && leads c.now net i) self.old self.new) }
    {
        c.known();
        for reader in readers_of(c, net) {
            self.add_output(c, within, *reader)?;
        }
        Ok(())
    }

    /// Appends the nets within the set that pins are on.
    fn add_pins(&mut self, within: &NetSet, pins: &[Pin]) -> Result<(), NoMemory>
        requires { All (PinExists (length self.old.marks)) pins.now }
        ensures { OnOk result (Extends (λ i. marked_in within.now i
            && list_any (λ p. is_on i p.target) pins.now) self.old self.new) }
    {
        for pin in pins {
            if let Target::Net(net) = pin.target {
                if within.has(net) {
                    self.add(net)?;
                }
            }
        }
        Ok(())
    }

    /// Appends the nets within the set that lead to a net by one step.
    fn add_before(&mut self, c: &Circuit, within: &NetSet, net: u32) -> Result<(), NoMemory>
        requires each_net { length self.old.marks ≡ length c.now.nets }
        ensures { OnOk result (Extends (λ i. marked_in within.now i
            && leads c.now i net) self.old self.new) }
    {
        c.known();
        match c.driver_of(net) {
            Some(driver) if passes(driver.kind) => self.add_pins(within, driver.pins.as_slice()),
            _ => Ok(()),
        }
    }

    /// Appends all nets to which the found ones lead over nets within the set. It costs what the
    /// readers of these nets cost.
    pub fn follow(&mut self, c: &Circuit, within: &NetSet) -> Result<(), NoMemory>
        requires each_net { length self.old.marks ≡ length c.now.nets }
        ensures each_net { OnOk result (length self.new.marks ≡ length c.now.nets) }
        ensures is { OnOk result (IsFound (leads c.now) (marked_in within.now)
            (marked_in self.old.marks) (marked_in self.new.marks)) }
    {
        c.known();
        let mut next = 0;
        'nets: while let Some(net) = self.at(next) {
            self.add_after(c, within, net)?;
            next += 1;
        }
        Ok(())
    }

    /// Appends what an instance drives, if it has an open pin on a net, and what it drives passes
    /// something on.
    fn add_open_output<W: CyclicWave<Item = Value>>(
        &mut self,
        view: &View<W>,
        net: u32,
        number: u32,
    ) -> Result<(), NoMemory>
        requires sees { IsSeen view.now.circuit.now view.now.waves.now view.now.within.now
            view.now.held.now }
        requires each_net { length self.old.marks ≡ length view.now.circuit.now.nets }
        ensures { let v = view.now in OnOk result (Extends (λ i. marked_in v.within.now i
            && opens_to v.circuit.now (waves_of v.waves.now) net
            (slice_get v.circuit.now.instances number) i) self.old self.new) }
    {
        let c = view.circuit;
        c.known();
        let Some(instance) = c.instance(number) else {
            return Ok(());
        };
        if !is_open_from(view, net, number, instance) {
            return Ok(());
        }
        match output_of(c, number) {
            Some(driven) if view.within.has(driven) => self.add(driven),
            _ => Ok(()),
        }
    }

    /// Appends the nets that pass something on and whose driver has an open pin on a net.
    fn add_open<W: CyclicWave<Item = Value>>(
        &mut self,
        view: &View<W>,
        net: u32,
    ) -> Result<(), NoMemory>
        requires sees { IsSeen view.now.circuit.now view.now.waves.now view.now.within.now
            view.now.held.now }
        requires each_net { length self.old.marks ≡ length view.now.circuit.now.nets }
        requires exists { net < length view.now.circuit.now.nets }
        ensures { let v = view.now in OnOk result (Extends (λ i. marked_in v.within.now i
            && leads_in v.circuit.now (waves_of v.waves.now) net i) self.old self.new) }
    {
        let c = view.circuit;
        c.known();
        for reader in readers_of(c, net) {
            self.add_open_output(view, net, *reader)?;
        }
        Ok(())
    }

    /// Appends all nets that the found ones lead to in a case, over nets that pass something on and
    /// open pins. It costs what the readers of these nets cost.
    pub(crate) fn follow_open<W: CyclicWave<Item = Value>>(
        &mut self,
        view: &View<W>,
    ) -> Result<(), NoMemory>
        requires sees { IsSeen view.now.circuit.now view.now.waves.now view.now.within.now
            view.now.held.now }
        requires each_net { length self.old.marks ≡ length view.now.circuit.now.nets }
        ensures each_net { OnOk result (length self.new.marks ≡ length view.now.circuit.now.nets) }
        ensures is { let v = view.now in OnOk result (IsFound
            (leads_in v.circuit.now (waves_of v.waves.now)) (marked_in v.within.now)
            (marked_in self.old.marks) (marked_in self.new.marks)) }
    {
        view.circuit.known();
        let mut next = 0;
        'nets: while let Some(net) = self.at(next) {
            self.add_open(view, net)?;
            next += 1;
        }
        Ok(())
    }

    /// The nets that were found, as a set.
    pub fn into_set(self) -> NetSet
        ensures { result ≡ self.marks }
    {
        self.marks
    }

    /// Appends all nets that lead to the found ones over nets within the set. It costs what the
    /// pins of the drivers of these nets cost.
    pub fn trace(&mut self, c: &Circuit, within: &NetSet) -> Result<(), NoMemory>
        requires each_net { length self.old.marks ≡ length c.now.nets }
        ensures each_net { OnOk result (length self.new.marks ≡ length c.now.nets) }
        ensures is { OnOk result (IsFound (λ from i. leads c.now i from) (marked_in within.now)
            (marked_in self.old.marks) (marked_in self.new.marks)) }
    {
        c.known();
        let mut next = 0;
        'nets: while let Some(net) = self.at(next) {
            self.add_before(c, within, net)?;
            next += 1;
        }
        Ok(())
    }
}

/// Whether an instance is a gate or a change function that has an open pin on a net.
fn is_open_from<W: CyclicWave<Item = Value>>(
    view: &View<W>,
    net: u32,
    number: u32,
    instance: &Instance,
) -> bool
    requires sees { IsSeen view.now.circuit.now view.now.waves.now view.now.within.now
        view.now.held.now }
    requires is { Some instance.now ≡ slice_get view.now.circuit.now.instances number }
    ensures { result
        ≡ opens_on view.now.circuit.now (waves_of view.now.waves.now) net (Some instance.now) }
{
    view.circuit.known();
    if !passes(instance.kind) {
        return false;
    }
    has_open_pin_on(view.waves, view.held.has(number), net, instance)
}

/// Whether an instance has an open pin on a net, by whether the rule of a mark of it holds.
fn has_open_pin_on<W: CyclicWave<Item = Value>>(
    waves: &Waves<W>,
    held: bool,
    net: u32,
    instance: &Instance,
) -> bool
    requires exist { All (PinExists (length waves.now)) instance.now.pins }
    ensures { result ≡ opens_by held (waves_of waves.now) net instance.now }
{
    for place in 0..instance.pins.len() {
        if opens_at(waves, held, net, instance, place) {
            return true;
        }
    }
    false
}

/// Whether the pin at a place is open, and on a net.
fn opens_at<W: CyclicWave<Item = Value>>(
    waves: &Waves<W>,
    held: bool,
    net: u32,
    instance: &Instance,
    place: usize,
) -> bool
    requires exist { All (PinExists (length waves.now)) instance.now.pins }
    ensures { result ≡ spec_opens_at held (waves_of waves.now) net instance.now place
        (slice_get instance.now.pins place) }
{
    match instance.pins.get(place) {
        Some(pin) => pin.target == Target::Net(net) && is_heard(held, waves, instance, place, *pin),
        None => false,
    }
}

/// Whether one of the nets of a set leads to a net by one step.
pub fn is_led_to(c: &Circuit, nets: &NetSet, net: u32) -> bool
    ensures { result ≡ is_led_to c.now (marked_in nets.now) net }
{
    match c.driver_of(net) {
        Some(driver) if passes(driver.kind) => has_pin_on_any(nets, driver.pins.as_slice()),
        _ => false,
    }
}

/// Whether one of the pins is on a net of a set.
fn has_pin_on_any(nets: &NetSet, pins: &[Pin]) -> bool
    ensures { result ≡ list_any (λ p. is_on_any (marked_in nets.now) p.target) pins.now }
{
    for pin in pins {
        if let Target::Net(net) = pin.target {
            if nets.has(net) {
                return true;
            }
        }
    }
    false
}
