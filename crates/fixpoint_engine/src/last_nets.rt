//! The last net of each class, while nets are gone over.

ghost use Rattle.std.specs.Prelude.{◌≡◌, ◌==◌, ℕ, IfOk, Some, None, if◌then◌else◌, nat_eq};
ghost use Rattle.std.specs.HashMap.{get};
ghost use Rattle.fixpoint_engine.specs.Members.{last_in};

use scald_base::NoMemory;
use std::alloc::Global;
use std::collections::HashMap;

/// The last net of each class so far. Classes mostly have the number of one of their nets, so that
/// they need no map.
#[derive(Drop)]
pub struct LastNets {
    near: Vec<Option<u32>>,
    far: HashMap<u32, u32>,
}

impl LastNets {
    /// None yet, with places for the classes of numbers below this one.
    pub fn new(alloc: Global, nets: u32) -> Result<LastNets, NoMemory>
        ensures { IfOk result (λ t.
            (class : ℕ) → last_in t.near.items (get nat_eq t.far) class ≡ None) }
    {
        Ok(LastNets {
            near: Vec::from_elem(alloc, None, nets as usize)?,
            far: HashMap::new(alloc),
        })
    }

    /// Puts a net in the place of the last one of a class, and gives that.
    pub fn put(&mut self, class: u32, net: u32) -> Result<Option<u32>, NoMemory>
        ensures old { IfOk result (λ last.
            last ≡ last_in self.old.near.items (get nat_eq self.old.far) class) }
        ensures new { IfOk result (λ _.
            (other : ℕ) → last_in self.new.near.items (get nat_eq self.new.far) other
            ≡ (if class == other then Some net
            else last_in self.old.near.items (get nat_eq self.old.far) other)) }
    {
        let place = class as usize;
        if place < self.near.len() {
            let last = self.near[place];
            self.near[place] = Some(net);
            return Ok(last);
        }
        let last = self.far.insert(class, net)?;
        Ok(last)
    }
}
