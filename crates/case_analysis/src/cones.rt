//! Cones: the nets that a case may reach.

ghost use Rattle.std.specs.Prelude.{◌≡◌, ◌<◌, ◌==◌, IfOk, OnOk, false, length, replicate, slice_get};
ghost use Rattle.flat_circuit.specs.Instances.{out_at};
ghost use Rattle.flat_circuit.specs.Circuit.{driver};
ghost use Rattle.fixpoint_engine.specs.Settled.{marked_in};
ghost use Rattle.fixpoint_engine.specs.Work.{hears_in};
ghost use Rattle.fixpoint_engine.specs.Worklist.{IsQueue, drives_in};
ghost use Rattle.case_analysis.specs.Case.{IsCone, NetsExist};
ghost use Rattle.case_analysis.specs.Found.{Extends};

use fixpoint_engine::{NetSet, output_of, readers_of};
use flat_circuit::{Case, Circuit};
use scald_base::NoMemory;
use std::alloc::Global;
use std::marker::Model;

/// Nets that were found, each once.
#[derive(Drop)]
struct Found {
    nets: Vec<u32>,
    /// Which nets stand in the list.
    marks: NetSet,
}

impl Model for Found {
    ghost use Rattle.fixpoint_engine.specs.Worklist.{Queue, IsQueue};

    ghost Value = { Queue };

    ghost view = { λ f. record { nets = f.nets.items; marks = f.marks } };

    ghost invariant = { λ f. IsQueue (record { nets = f.nets.items; marks = f.marks }) };
}

impl Found {
    /// None of so many nets.
    fn new(alloc: Global, nets: u32) -> Result<Found, NoMemory>
        ensures { IfOk result (λ found. found.marks ≡ replicate nets false) }
    {
        Ok(Found {
            nets: Vec::new(alloc),
            marks: NetSet::new(alloc, nets)?,
        })
    }

    /// The net that was found so many nets after the first.
    fn at(&self, place: usize) -> Option<u32>
        ensures is { result ≡ slice_get self.now.nets place }
        ensures once { IsQueue self.now }
    {
        self.nets.get(place).copied()
    }

    /// Appends a net, unless it is there already.
    fn add(&mut self, net: u32) -> Result<(), NoMemory>
        requires { net < length self.old.marks }
        ensures { OnOk result (Extends (λ i. net == i) self.old self.new) }
    {
        if !self.marks.has(net) {
            self.nets.push(net)?;
            self.marks.add(net);
        }
        Ok(())
    }

    /// Appends the net that an instance drives.
    fn add_output(&mut self, c: &Circuit, instance: u32) -> Result<(), NoMemory>
        requires { length self.old.marks ≡ length c.now.nets }
        ensures { OnOk result (Extends
            (drives_in (out_at c.now.instances instance)) self.old self.new) }
    {
        c.known();
        match output_of(c, instance) {
            Some(net) => self.add(net),
            None => Ok(()),
        }
    }

    /// Appends the nets whose drivers listen to this one.
    fn add_hearers(&mut self, c: &Circuit, net: u32) -> Result<(), NoMemory>
        requires each_net { length self.old.marks ≡ length c.now.nets }
        requires exists { net < length c.now.nets }
        ensures { OnOk result (Extends (λ i.
            hears_in (λ j. net == j) (driver c.now i)) self.old self.new) }
    {
        c.known();
        for reader in readers_of(c, net) {
            self.add_output(c, *reader)?;
        }
        Ok(())
    }

    /// Which nets were found.
    fn into_set(self) -> NetSet
        ensures { result ≡ self.marks }
    {
        self.marks
    }
}

/// The nets that a case may reach: its own, and each whose driver has a listening pin on one of
/// them, and no other. It costs what the readers of these nets cost.
pub fn cone(alloc: Global, c: &Circuit, case: &Case) -> Result<NetSet, NoMemory>
    requires { NetsExist c.now case.now }
    ensures each_net { IfOk result (λ set. length set ≡ length c.now.nets) }
    ensures is { IfOk result (λ set. IsCone c.now case.now (marked_in set)) }
{
    let mut found = Found::new(alloc, c.net_count())?;
    for value in case.as_slice() {
        found.add(value.net)?;
    }
    let mut next = 0;
    'nets: while let Some(net) = found.at(next) {
        found.add_hearers(c, net)?;
        next += 1;
    }
    Ok(found.into_set())
}
