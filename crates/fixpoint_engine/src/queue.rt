//! The nets that are to be evaluated in a round.

ghost use Rattle.std.specs.Prelude.{◌≡◌, ◌<◌, ◌==◌, ◌&&◌, [], ℕ, IfOk, IfSome, OnOk, Some, false, length, map, replicate, true};
ghost use Rattle.std.specs.List.{All};
ghost use Rattle.flat_circuit.specs.Instances.{out_at};
ghost use Rattle.flat_circuit.specs.Circuit.{driver};
ghost use Rattle.fixpoint_engine.specs.Settled.{FitActive, marked_in};
ghost use Rattle.flat_circuit.specs.Alike.{class_of};
ghost use Rattle.fixpoint_engine.specs.Hearers.{AreHearers};
ghost use Rattle.fixpoint_engine.specs.Members.{is_evaluated, is_with, is_with_any, leads_in};
ghost use Rattle.fixpoint_engine.specs.Work.{hears_in};
ghost use Rattle.fixpoint_engine.specs.Worklist.{Adds, IsQueue, among, drives_in};

use crate::changes::Change;
use crate::class_nets::{ClassNets, is_evaluated};
use crate::hearers::Hearers;
use crate::net_classes::NetClasses;
use crate::net_set::NetSet;
use crate::readers::{output_of, readers_of};
use flat_circuit::Circuit;
use scald_base::NoMemory;
use std::alloc::Global;
use std::marker::Model;

/// Nets that wait for their evaluation, each once.
#[derive(Drop)]
pub struct Queue {
    nets: Vec<u32>,
    /// Which nets stand in the list.
    queued: NetSet,
}

impl Model for Queue {
    ghost use Rattle.fixpoint_engine.specs.Worklist.{Queue as Waiting, IsQueue};

    ghost Value = { Waiting };

    ghost view = { λ q. record { nets = q.nets.items; marks = q.queued } };

    ghost invariant = { λ q. IsQueue (record { nets = q.nets.items; marks = q.queued }) };
}

impl Queue {
    /// All active nets, of each class the first.
    pub fn all(
        alloc: Global,
        c: &Circuit,
        classes: &Option<ClassNets>,
        active: &NetSet,
    ) -> Result<Queue, NoMemory>
        requires { FitActive c.now active.now }
        ensures each_net { IfOk result (λ q. length q.marks ≡ length c.now.nets) }
        ensures are { IfOk result (λ q.
            (i : ℕ) → marked_in q.marks i ≡ is_evaluated active.now classes.now i) }
    {
        let mut queue = Queue {
            nets: Vec::new(alloc),
            queued: NetSet::new(alloc, c.net_count())?,
        };
        for net in 0..c.net_count() {
            if is_evaluated(active, classes, net) {
                queue.add(net)?;
            }
        }
        Ok(queue)
    }

    /// The nets that wait, each once.
    pub fn nets(&self) -> &[u32]
        ensures nets { result.now ≡ self.now.nets }
        ensures once { IsQueue self.now }
    {
        self.nets.as_slice()
    }

    /// Lets a net wait, if it does not yet.
    fn add(&mut self, net: u32) -> Result<(), NoMemory>
        requires { net < length self.old.marks }
        ensures { OnOk result (Adds (λ i. net == i) self.old self.new) }
    {
        if !self.queued.has(net) {
            self.nets.push(net)?;
            self.queued.add(net);
        }
        Ok(())
    }

    /// Lets no net wait.
    fn clear(&mut self)
        ensures nets { self.new.nets ≡ [] }
        ensures marks { self.new.marks ≡ replicate (length self.old.marks) false }
    {
        while let Some(net) = self.nets.pop() {
            self.queued.remove(net);
        }
    }

    /// Lets the net wait that an instance drives, if it is active and the first of its class.
    #[tactic(auto, using(crate::proofs::Drivers::evaluated_below))]
    fn add_output(
        &mut self,
        c: &Circuit,
        classes: &Option<ClassNets>,
        active: &NetSet,
        instance: u32,
    ) -> Result<(), NoMemory>
        requires active { FitActive c.now active.now }
        requires each_net { length self.old.marks ≡ length c.now.nets }
        ensures { OnOk result (Adds (λ i. is_evaluated active.now classes.now i
            && drives_in (out_at c.now.instances instance) i) self.old self.new) }
    {
        match output_of(c, instance) {
            Some(net) if is_evaluated(active, classes, net) => self.add(net),
            _ => Ok(()),
        }
    }

    /// Lets the active nets wait whose drivers listen to this net, of each class the first.
    fn add_hearers(
        &mut self,
        c: &Circuit,
        classes: &Option<ClassNets>,
        active: &NetSet,
        net: u32,
    ) -> Result<(), NoMemory>
        requires active { FitActive c.now active.now }
        requires each_net { length self.old.marks ≡ length c.now.nets }
        requires exists { net < length c.now.nets }
        ensures { OnOk result (Adds (λ i. is_evaluated active.now classes.now i
            && hears_in (λ j. net == j) (driver c.now i)) self.old self.new) }
    {
        c.known();
        for reader in readers_of(c, net) {
            self.add_output(c, classes, active, *reader)?;
        }
        Ok(())
    }

    /// Lets the active nets wait that hear the class for which this net stands.
    fn add_firsts(
        &mut self,
        c: &Circuit,
        classes: &ClassNets,
        hearers: &Hearers,
        active: &NetSet,
        first: u32,
    ) -> Result<(), NoMemory>
        requires each_net { length self.old.marks ≡ length classes.now }
        requires hearers { AreHearers c.now classes.now hearers.now }
        requires first { leads_in (Some classes.now) first ≡ true }
        ensures { OnOk result (Adds (λ i. is_evaluated active.now (Some classes.now) i
            && hears_in (λ j. class_of classes.now first == class_of classes.now j)
            (driver c.now i))
            self.old self.new) }
    {
        let _ = c;
        let _ = classes;
        for net in hearers.of_first(first) {
            self.add_active(active, *net)?;
        }
        Ok(())
    }

    /// Lets a net wait, if it is active.
    fn add_active(&mut self, active: &NetSet, net: u32) -> Result<(), NoMemory>
        requires { net < length self.old.marks }
        ensures { OnOk result (Adds (λ i. marked_in active.now i && net == i) self.old self.new) }
    {
        if active.has(net) {
            self.add(net)?;
        }
        Ok(())
    }

    /// In place of those that wait: the active nets that hear a class of which the first net
    /// changed, and stand for theirs.
    fn refill_firsts(
        &mut self,
        c: &Circuit,
        classes: &ClassNets,
        hearers: &Hearers,
        active: &NetSet,
        changes: &[Change],
    ) -> Result<(), NoMemory>
        requires each_net { length self.old.marks ≡ length classes.now }
        requires hearers { AreHearers c.now classes.now hearers.now }
        requires firsts { All (λ ch. leads_in (Some classes.now) ch.net ≡ true) changes.now }
        ensures each_net { OnOk result (length self.new.marks ≡ length classes.now) }
        ensures due { OnOk result
            ((i : ℕ) → marked_in self.new.marks i ≡ (is_evaluated active.now (Some classes.now) i
            && hears_in (is_with classes.now (map (λ ch. ch.net) changes.now)) (driver c.now i))) }
    {
        self.clear();
        for change in changes {
            self.add_firsts(c, classes, hearers, active, change.net)?;
        }
        Ok(())
    }

    /// In place of those that wait: the active nets whose drivers listen to a net that changed, of
    /// each class the first.
    fn refill(
        &mut self,
        c: &Circuit,
        classes: &Option<ClassNets>,
        active: &NetSet,
        changes: &[Change],
    ) -> Result<(), NoMemory>
        requires active { FitActive c.now active.now }
        requires each_net { length self.old.marks ≡ length c.now.nets }
        requires exist { All (λ ch. ch.net < length c.now.nets) changes.now }
        ensures each_net { OnOk result (length self.new.marks ≡ length c.now.nets) }
        ensures due { OnOk result
            ((i : ℕ) → marked_in self.new.marks i
            ≡ (is_evaluated active.now classes.now i
            && hears_in (among (map (λ ch. ch.net) changes.now)) (driver c.now i))) }
    {
        self.clear();
        for change in changes {
            self.add_hearers(c, classes, active, change.net)?;
        }
        Ok(())
    }

    /// In place of those that wait: the active nets whose drivers listen to a net that changes with
    /// these, of each class the first. If there are classes, each of these nets stands for all
    /// of its own.
    pub fn refill_all(
        &mut self,
        c: &Circuit,
        classes: &NetClasses,
        active: &NetSet,
        changes: &[Change],
    ) -> Result<(), NoMemory>
        requires active { FitActive c.now active.now }
        requires each_net { length self.old.marks ≡ length c.now.nets }
        requires classes { IfSome classes.now.nets (λ each. length each ≡ length c.now.nets) }
        requires hearers { IfSome classes.now.nets (λ each.
            AreHearers c.now each classes.now.hearers) }
        requires exist { All (λ ch. ch.net < length c.now.nets) changes.now }
        requires firsts { All (λ ch. leads_in classes.now.nets ch.net ≡ true) changes.now }
        ensures each_net { OnOk result (length self.new.marks ≡ length c.now.nets) }
        ensures due { OnOk result
            ((i : ℕ) → marked_in self.new.marks i
            ≡ (is_evaluated active.now classes.now.nets i
            && hears_in (is_with_any classes.now.nets (map (λ ch. ch.net) changes.now))
            (driver c.now i))) }
    {
        match &classes.nets {
            Some(nets) => self.refill_firsts(c, nets, &classes.hearers, active, changes),
            None => self.refill(c, &classes.nets, active, changes),
        }
    }
}
