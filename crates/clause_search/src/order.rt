//! The order in which variables are decided: those first that were in a conflict last.

use crate::trail::Trail;
use scald_base::NoMemory;
use std::alloc::Global;

/// A variable's neighbours in the order.
#[derive(Clone, Copy)]
struct Link {
    before: Option<u32>,
    after: Option<u32>,
    /// It grows along the order.
    stamp: u64,
}

/// The variables in a row, of which the last is decided first.
#[derive(Drop)]
pub(crate) struct Order {
    links: Vec<Link>,
    last: Option<u32>,
    /// Every variable after this one has a bit.
    free: Option<u32>,
    stamp: u64,
}

impl Order {
    pub(crate) fn new(alloc: Global) -> Order {
        Order {
            links: Vec::new(alloc),
            last: None,
            free: None,
            stamp: 0,
        }
    }

    /// Appends a variable, the next by its number.
    pub(crate) fn add(&mut self, variable: u32) -> Result<(), NoMemory> {
        let link = Link {
            before: self.last,
            after: None,
            stamp: self.next_stamp(),
        };
        self.links.push(link)?;
        self.set_after(self.last, Some(variable));
        self.last = Some(variable);
        self.free = Some(variable);
        Ok(())
    }

    /// A variable's stamp, which is greater the later it stands.
    pub(crate) fn stamp_of(&self, variable: u32) -> u64 {
        match self.links.get(variable as usize) {
            Some(link) => link.stamp,
            None => 0,
        }
    }

    /// Moves a variable that has a bit to the end.
    pub(crate) fn bump(&mut self, variable: u32) {
        let Some(link) = self.links.get(variable as usize).copied() else {
            return;
        };
        if link.after.is_none() {
            return;
        }
        if self.free == Some(variable) {
            self.free = link.before;
        }
        self.set_after(link.before, link.after);
        self.set_before(link.after, link.before);
        let moved = Link {
            before: self.last,
            after: None,
            stamp: self.next_stamp(),
        };
        self.set_after(self.last, Some(variable));
        self.last = Some(variable);
        if let Some(link) = self.links.get_mut(variable as usize) {
            *link = moved;
        }
    }

    /// Notes that a variable lost its bit.
    pub(crate) fn release(&mut self, variable: u32) {
        let is_later = match self.free {
            Some(free) => self.stamp_of(free) < self.stamp_of(variable),
            None => true,
        };
        if is_later {
            self.free = Some(variable);
        }
    }

    /// The last variable without a bit, or `None` if each has one.
    pub(crate) fn last_free(&mut self, trail: &Trail) -> Option<u32> {
        for _ in 0..self.links.len() {
            let variable = self.free?;
            if trail.is_free(variable) {
                return Some(variable);
            }
            self.free = self.links.get(variable as usize)?.before;
        }
        None
    }

    fn next_stamp(&mut self) -> u64 {
        self.stamp = self.stamp.saturating_add(1);
        self.stamp
    }

    fn set_after(&mut self, variable: Option<u32>, after: Option<u32>) {
        let Some(variable) = variable else {
            return;
        };
        if let Some(link) = self.links.get_mut(variable as usize) {
            link.after = after;
        }
    }

    fn set_before(&mut self, variable: Option<u32>, before: Option<u32>) {
        let Some(variable) = variable else {
            return;
        };
        if let Some(link) = self.links.get_mut(variable as usize) {
            link.before = before;
        }
    }
}
