//! Items by their names: few are compared one by one, and many are looked up.

ghost use Rattle.std.specs.Prelude.{◌≡◌, [], ℕ, List, IfOk, option_map};
ghost use Rattle.std.specs.List.{find};
ghost use Rattle.std.specs.Map.{lookup};
ghost use Rattle.std.specs.Option.{unwrap_or};
ghost use Rattle.std.specs.Str.{bytes_eq};
ghost use Rattle.netlist_import.specs.Index.{LeadToFirst, is_key, item_at};

use indexmap::IndexMap;
use scald_base::NoMemory;
use std::alloc::Global;
use std::marker::Model;

/// The most items that are compared one by one, which costs less than a map.
const FEW: usize = 8;

/// What has a name.
pub trait Named {
    ghost name: { Self → List ℕ };

    /// Its name.
    fn name(&self) -> &[u8]
        ensures { result.now ≡ name self.now };
}

/// The place of each name's first item.
pub(crate) fn places<T: Named>(
    alloc: Global,
    items: &[T],
) -> Result<IndexMap<&[u8], usize>, NoMemory>
    ensures { IfOk result (λ places. LeadToFirst T.name items.now places.entries) }
{
    let mut places = IndexMap::new(alloc);
    let mut place = items.len();
    while place > 0 {
        place -= 1;
        places.insert(items[place].name(), place)?;
    }
    Ok(places)
}

/// The items that are there, and none if there are none.
pub(crate) fn or_none<'n, T>(items: Option<&'n [T]>) -> &'n [T]
    ensures { result.now ≡ unwrap_or (option_map (λ xs. xs.now) items.entry) [] }
{
    match items {
        Some(items) => items,
        None => &[],
    }
}

fn first_named<'n, T: Named>(items: &'n [T], name: &[u8]) -> Option<&'n T>
    ensures { option_map (λ x. x.now) result
        ≡ find (λ x. bytes_eq (T.name x) name.now) items.now }
{
    for item in items {
        if item.name() == name {
            return Some(item);
        }
    }
    None
}

/// The item at the place of a name.
fn led<'n, T>(places: &IndexMap<&[u8], usize>, items: &'n [T], name: &[u8]) -> Option<&'n T>
    ensures { option_map (λ x. x.now) result
        ≡ item_at items.now (lookup (is_key name.entry) places.now.entries) }
{
    match places.get(&name) {
        Some(place) => items.get(*place),
        None => None,
    }
}

/// Items to be found by their names.
#[derive(Drop)]
pub(crate) struct Index<'n, T: Named> {
    items: &'n [T],
    /// The place of each name's first item. There is no map of few items, nor if memory runs out:
    /// then they are compared one by one.
    places: Option<IndexMap<&'n [u8], usize>>,
}

impl<'n, T: Named> Model for Index<'n, T> {
    ghost use Rattle.std.specs.Prelude.{List, IfSome};
    ghost use Rattle.netlist_import.specs.Index.{LeadToFirst};

    ghost Value = { List T };

    ghost view = { λ i. i.items.now };

    ghost invariant = { λ i. IfSome i.places
        (λ places. LeadToFirst T.name i.items.now places.entries) };
}

impl<'n, T: Named> Index<'n, T> {
    pub(crate) fn of(alloc: Global, items: &'n [T]) -> Index<'n, T>
        ensures { result ≡ items.now }
    {
        if items.len() > FEW {
            if let Ok(places) = places(alloc, items) {
                return Index {
                    items,
                    places: Some(places),
                };
            }
        }
        Index {
            items,
            places: None,
        }
    }

    /// The items.
    pub(crate) fn items(&self) -> &'n [T]
        ensures { result.now ≡ self.now }
    {
        self.items
    }

    /// The first item of a name.
    pub(crate) fn find(&self, name: &[u8]) -> Option<&'n T>
        ensures { option_map (λ x. x.now) result
            ≡ find (λ x. bytes_eq (T.name x) name.now) self.now }
    {
        match &self.places {
            Some(places) => led(places, self.items, name),
            None => first_named(self.items, name),
        }
    }
}
