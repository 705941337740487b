//! Rows: lists with room for all of their items from the start.

ghost use Rattle.std.specs.Prelude.{◌≡◌, ◌∷◌, ◌++◌, ◌≤◌, [], length, IfOk, OnOk, OnErr};
ghost use Rattle.macro_expander.specs.Primitives.{first_reversed};

use scald_base::{List, NoMemory};
use std::alloc::Global;
use std::marker::Model;

/// A list with room for as many items as will come.
#[derive(Drop, Debug)]
pub struct Row<T> {
    items: Vec<T>,
}

impl<T> Model for Row<T> {
    ghost use Rattle.std.specs.Prelude.{List};

    ghost Value = { List T };

    ghost view = { λ r. r.items.items };
}

impl<T> Row<T> {
    /// The empty row. It needs no allocation.
    pub fn new(alloc: Global) -> Row<T>
        ensures { result ≡ [] }
    {
        Row {
            items: Vec::new(alloc),
        }
    }

    /// The empty row with room for so many items.
    pub(crate) fn with_room(alloc: Global, count: usize) -> Result<Row<T>, NoMemory>
        ensures { IfOk result (λ row. row ≡ []) }
    {
        Ok(Row {
            items: Vec::with_capacity(alloc, count)?,
        })
    }

    /// The items as a slice.
    pub(crate) fn as_slice(&self) -> &[T]
        ensures { result.now ≡ self.now }
    {
        self.items.as_slice()
    }

    /// Puts the first items, so many, in reverse order.
    pub(crate) fn reverse_first(&mut self, count: usize)
        requires { count ≤ length self.old }
        ensures { self.new ≡ first_reversed count self.old }
    {
        let (first, _) = self.items.as_mut_slice().split_at_mut(count);
        first.reverse();
    }
}

impl<T: Drop> Row<T> {
    /// Appends an item. If memory runs out the row is as before, and the item is dropped.
    pub fn push(&mut self, item: T) -> Result<(), NoMemory>
        ensures ok { OnOk result (self.new ≡ self.old ++ item ∷ []) }
        ensures err { OnErr result (self.new ≡ self.old) }
    {
        self.items.push(item)?;
        Ok(())
    }
}

/// A copy of the items. `NoMemory` comes if memory runs out.
pub fn copied<T: Copy>(alloc: Global, items: &[T]) -> Result<List<T>, NoMemory>
    ensures { IfOk result (λ copies. copies ≡ items.now) }
{
    List::from_slice(alloc, items)
}
