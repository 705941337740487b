//! The nets of each class.

ghost use Rattle.std.specs.Prelude.{◌≡◌, ◌<◌, IfOk, Some, length, true};
ghost use Rattle.flat_circuit.specs.Alike.{class_of};
ghost use Rattle.fixpoint_engine.specs.Members.{is_evaluated, last_below, leads_in};

use crate::last_nets::LastNets;
use crate::net_set::NetSet;
use flat_circuit::ClassMap;
use scald_base::NoMemory;
use std::alloc::Global;
use std::marker::Model;

/// The nets of each class, from the last to the first. Contracts see the class of each net.
#[derive(Drop)]
pub struct ClassNets {
    classes: Vec<u32>,
    /// For each net the last one of its class before it.
    before: Vec<Option<u32>>,
    /// For each net the first one of its class, which stands for all of them.
    firsts: Vec<u32>,
    /// For each net that stands for its class, the last one of the class.
    lasts: Vec<u32>,
}

impl Model for ClassNets {
    ghost use Rattle.std.specs.Prelude.{List, ℕ};
    ghost use Rattle.fixpoint_engine.specs.Members.{AreMembers};

    ghost Value = { List ℕ };

    ghost view = { λ t. t.classes.items };

    ghost invariant = { λ t.
        AreMembers t.classes.items t.before.items t.firsts.items t.lasts.items };
}

impl ClassNets {
    /// The nets of the classes that these numbers name, one number for each net.
    pub fn of(alloc: Global, numbers: &ClassMap, nets: u32) -> Result<ClassNets, NoMemory>
        requires { length numbers.now ≡ nets }
        ensures { IfOk result (λ t. t ≡ numbers.now) }
    {
        let classes = Vec::from_slice(alloc, numbers.as_slice())?;
        let mut before = Vec::with_capacity(alloc, nets as usize)?;
        let mut firsts = Vec::with_capacity(alloc, nets as usize)?;
        let mut lasts = Vec::with_capacity(alloc, nets as usize)?;
        let mut last = LastNets::new(alloc, nets)?;
        for net in 0..nets {
            let earlier = last.put(classes[net as usize], net)?;
            let first = match earlier {
                Some(one) => firsts[one as usize],
                None => net,
            };
            before.push(earlier)?;
            firsts.push(first)?;
            lasts.push(net)?;
            lasts[first as usize] = net;
        }
        Ok(ClassNets {
            classes,
            before,
            firsts,
            lasts,
        })
    }

    /// The first net of the class that a net is of.
    pub fn first(&self, net: u32) -> u32
        requires { net < length self.now }
        ensures first { leads_in (Some self.now) result ≡ true }
        ensures alike { class_of self.now result ≡ class_of self.now net }
    {
        self.firsts[net as usize]
    }

    /// The last net of the class for which a net stands.
    pub fn last(&self, first: u32) -> Option<u32>
        requires { leads_in (Some self.now) first ≡ true }
        ensures { result ≡ last_below self.now (class_of self.now first) (length self.now) }
    {
        Some(self.lasts[first as usize])
    }

    /// The last net before this one that is of its class.
    pub fn previous(&self, net: u32) -> Option<u32>
        requires { net < length self.now }
        ensures { result ≡ last_below self.now (class_of self.now net) net }
    {
        self.before[net as usize]
    }

    /// Whether there is such a net, and none before it is of its class.
    pub fn leads(&self, net: u32) -> bool
        ensures { result ≡ leads_in (Some self.now) net }
    {
        match self.before.get(net as usize) {
            Some(before) => before.is_none(),
            None => false,
        }
    }
}

/// Whether a net is evaluated in the rounds in which it is due: it is active and the first of its
/// class. If there are no classes, each net is one of its own.
pub fn is_evaluated(active: &NetSet, classes: &Option<ClassNets>, net: u32) -> bool
    ensures { result ≡ is_evaluated active.now classes.now net }
{
    match classes {
        Some(classes) => active.has(net) && classes.leads(net),
        None => active.has(net),
    }
}
