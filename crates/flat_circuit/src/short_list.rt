//! Short lists, which need no memory of their own.

ghost use Rattle.std.specs.Prelude.{◌≡◌, [], ◌∷◌, ◌++◌, length, slice_get, IfOk, OnOk, OnErr};
ghost use Rattle.std.specs.Option.{option_copied};
ghost use Rattle.flat_circuit.specs.ShortList.{items_in};

use scald_base::NoMemory;
use std::alloc::Global;
use std::marker::Model;

/// Where the items of a short list lie: in the value itself, or apart if they are more than two.
#[derive(Drop, Debug)]
pub(crate) enum Kept<T> {
    Nothing,
    One([T; 1]),
    Two([T; 2]),
    More(Box<Vec<T>>),
}

/// A growing list, which contracts see as the list of its items. One or two lie in the value
/// itself, and only more take memory.
#[derive(Drop, Debug)]
pub struct ShortList<T> {
    kept: Kept<T>,
    alloc: Global,
}

impl<T> Model for ShortList<T> {
    ghost use Rattle.std.specs.Prelude.{List};
    ghost use Rattle.flat_circuit.specs.ShortList.{items_in};

    ghost Value = { List T };

    ghost view = { λ a. items_in a.kept };
}

impl<T: PartialEq> PartialEq for ShortList<T> {
    ghost use Rattle.std.specs.Cmp.Lexicographic.{pointwise, lists_per};
    ghost use Rattle.std.specs.Cmp.{on_per};

    ghost eq = { λ x y. pointwise T.eq x y };

    ghost laws = { on_per (λ x. x) (lists_per T.laws) };

    fn eq(&self, other: &ShortList<T>) -> bool {
        self.as_slice() == other.as_slice()
    }
}

impl<T: Eq> Eq for ShortList<T> {
    ghost use Rattle.std.specs.Cmp.Lexicographic.{lists_equiv};
    ghost use Rattle.std.specs.Cmp.{on_equiv};

    ghost laws = { on_equiv (λ x. x) (lists_equiv T.Eq.laws) };
}

impl<T> ShortList<T> {
    /// No items. It needs no allocation.
    pub fn new(alloc: Global) -> ShortList<T>
        ensures { result ≡ [] }
    {
        ShortList {
            kept: Kept::Nothing,
            alloc,
        }
    }

    /// How many items there are.
    pub fn len(&self) -> usize
        ensures { result ≡ length self.now }
    {
        self.as_slice().len()
    }

    /// The item at a place from 0, or `None` exactly past the end.
    pub fn get(&self, i: usize) -> Option<&T>
        ensures { option_copied result ≡ slice_get self.now i }
    {
        self.as_slice().get(i)
    }

    /// The items as a slice.
    pub fn as_slice(&self) -> &[T]
        ensures { result.now ≡ self.now }
    {
        match &self.kept {
            Kept::Nothing => &[],
            Kept::One(one) => one.as_slice(),
            Kept::Two(two) => two.as_slice(),
            Kept::More(items) => items.as_slice(),
        }
    }
}

impl<T: Copy> ShortList<T> {
    /// No items, with room for so many.
    pub fn with_room(alloc: Global, items: usize) -> Result<ShortList<T>, NoMemory>
        ensures { IfOk result (λ none. none ≡ []) }
    {
        if items <= 2 {
            return Ok(ShortList::new(alloc));
        }
        let items = Vec::with_capacity(alloc, items)?;
        let kept = Kept::More(Box::new(alloc, items)?);
        Ok(ShortList { kept, alloc })
    }

    /// Appends an item. If memory runs out the list is as before, and the item is dropped.
    pub fn push(&mut self, item: T) -> Result<(), NoMemory>
        ensures ok { OnOk result (self.new ≡ self.old ++ item ∷ []) }
        ensures err { OnErr result (self.new ≡ self.old) }
    {
        let alloc = self.alloc;
        self.kept.push(alloc, item)
    }
}

impl<T: Copy> Kept<T> {
    /// Appends an item: the third takes all three to a place apart.
    fn push(&mut self, alloc: Global, item: T) -> Result<(), NoMemory>
        ensures ok { OnOk result (items_in self.new ≡ items_in self.old ++ item ∷ []) }
        ensures err { OnErr result (items_in self.new ≡ items_in self.old) }
    {
        match self {
            Kept::Nothing => *self = Kept::One([item]),
            Kept::One(one) => {
                let first = one[0];
                *self = Kept::Two([first, item]);
            }
            Kept::Two(two) => {
                let items = three(alloc, two[0], two[1], item)?;
                *self = Kept::More(Box::new(alloc, items)?);
            }
            Kept::More(items) => items.push(item)?,
        }
        Ok(())
    }
}

/// Three items, with room for one more.
fn three<T: Copy>(alloc: Global, first: T, second: T, third: T) -> Result<Vec<T>, NoMemory>
    ensures { IfOk result (λ items. items.items ≡ first ∷ second ∷ third ∷ []) }
{
    let mut items = Vec::with_capacity(alloc, 4)?;
    items.push(first)?;
    items.push(second)?;
    items.push(third)?;
    Ok(items)
}
