//! Items by their names: few are compared one by one, and many are looked up.

ghost use Rattle.std.specs.Prelude.{◌≡◌, ℕ, List, IfOk};
ghost use Rattle.std.specs.Option.{option_copied};
ghost use Rattle.std.specs.List.{find};
ghost use Rattle.std.specs.Map.{lookup};
ghost use Rattle.std.specs.Str.{bytes_eq};
ghost use Rattle.macro_expander.specs.Terms.{bit_at_place};
ghost use Rattle.macro_expander.specs.Places.{LeadTo, LeadWhereMany};

use indexmap::IndexMap;
use scald_base::NoMemory;
use std::alloc::Global;

/// The most items that are compared one by one, which costs less than to look a name up.
pub(crate) const FEW: usize = 8;

/// What is found by its name.
pub trait Called {
    ghost name: { Self → List ℕ };

    /// Its name.
    fn name(&self) -> &[u8]
        ensures { result.now ≡ name self.now };
}

/// The place of the first item of each name.
fn all_places<T: Called>(alloc: Global, items: &[T]) -> Result<IndexMap<Vec<u8>, usize>, NoMemory>
    ensures { IfOk result (λ places. LeadTo T.name places.entries items.now items.now) }
{
    let mut places = IndexMap::new(alloc);
    let mut place = items.len();
    while place > 0 {
        place -= 1;
        let name = Vec::from_slice(alloc, items[place].name())?;
        places.insert(name, place)?;
    }
    Ok(places)
}

/// The place of the first item of each name if there are many items, and nothing if there are
/// few.
pub(crate) fn places<T: Called>(
    alloc: Global,
    items: &[T],
) -> Result<IndexMap<Vec<u8>, usize>, NoMemory>
    ensures { IfOk result (λ places. LeadWhereMany T.name places.entries items.now) }
{
    if items.len() <= FEW {
        return Ok(IndexMap::new(alloc));
    }
    all_places(alloc, items)
}

fn first_named<'a, T: Called>(items: &'a [T], name: &[u8]) -> Option<&'a T>
    ensures { option_copied result ≡ find (λ x. bytes_eq (T.name x) name.now) items.now }
{
    for item in items {
        if item.name() == name {
            return Some(item);
        }
    }
    None
}

/// The item at the place of a name.
pub(crate) fn led<'a, T>(
    places: &IndexMap<Vec<u8>, usize>,
    items: &'a [T],
    name: &[u8],
) -> Option<&'a T>
    ensures { option_copied result
        ≡ bit_at_place items.now (lookup (λ k. bytes_eq name.now k.items) places.now.entries) }
{
    match places.get(name) {
        Some(place) => items.get(*place),
        None => None,
    }
}

/// The first item of a name, by the places of the items.
pub(crate) fn named<'a, T: Called>(
    places: &IndexMap<Vec<u8>, usize>,
    items: &'a [T],
    name: &[u8],
) -> Option<&'a T>
    requires { LeadWhereMany T.name places.now.entries items.now }
    ensures { option_copied result ≡ find (λ x. bytes_eq (T.name x) name.now) items.now }
{
    if items.len() <= FEW {
        return first_named(items, name);
    }
    led(places, items, name)
}
