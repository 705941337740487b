//! Names that differ from those before them in one place.

ghost use Rattle.std.specs.Prelude.{◌≡◌, ◌≤◌, ◌^◌, [], ◌∷◌, ◌++◌, IfOk, OnOk, take, true};
ghost use Rattle.netlist_import.specs.Fresh.{AreTaken, IsTried, fresh, is_new, least_number, numbered};

use indexmap::{IndexMap, IndexSet};
use scald_base::{Bytes, NoMemory};
use std::alloc::Global;
use std::marker::Model;

/// The most bytes of a name.
const LONGEST: usize = 64;

/// The most bytes of a name that stay before a number.
const STEM: usize = 62;

/// The names that are taken in one place.
#[derive(Drop)]
pub(crate) struct Names {
    taken: IndexSet<Bytes>,
    /// For the front of a name the least number that may still be new after it.
    next: IndexMap<Bytes, usize>,
}

impl Model for Names {
    ghost use Rattle.std.specs.Prelude.{List, ℕ, map};
    ghost use Rattle.netlist_import.specs.Fresh.{AreTried};

    ghost Value = { List (List ℕ) };

    ghost view = { λ n. n.taken.keys };

    ghost invariant = { λ n. AreTried n.taken.keys n.next.entries };
}

/// The first bytes of a name, so many at most.
fn front(name: &[u8], most: usize) -> &[u8]
    ensures { result.now ≡ take most name.now }
{
    if name.len() <= most {
        name
    } else {
        &name[..most]
    }
}

/// A name with a number after it, cut so that both fit.
fn numbered(alloc: Global, wanted: &[u8], number: usize) -> Result<Bytes, NoMemory>
    ensures { IfOk result (λ name. name ≡ numbered wanted.now number) }
{
    let mut buffer = itoa::Buffer::new();
    let digits = buffer.format(number).as_bytes();
    let mut name = Bytes::of(alloc, front(wanted, LONGEST - 1 - digits.len()))?;
    name.push(b'_')?;
    name.extend(digits)?;
    Ok(name)
}

/// The least number that makes a name new, if none below `start` does.
fn least_new(
    alloc: Global,
    taken: &IndexSet<Bytes>,
    wanted: &[u8],
    start: usize,
) -> Result<usize, NoMemory>
    requires { AreTaken taken.now.keys wanted.now start }
    ensures is { IfOk result (λ n. n ≡ least_number taken.now.keys wanted.now) }
    ensures new { IfOk result (λ n. is_new taken.now.keys (numbered wanted.now n) ≡ true) }
    ensures below { IfOk result (λ n. AreTaken taken.now.keys wanted.now n) }
{
    let most = taken.len();
    for number in start..most {
        let name = numbered(alloc, wanted, number)?;
        if !taken.contains(&name) {
            return Ok(number);
        }
    }
    Ok(most)
}

impl Names {
    /// No name is taken.
    pub(crate) fn new(alloc: Global) -> Names
        ensures { result ≡ [] }
    {
        Names {
            taken: IndexSet::new(alloc),
            next: IndexMap::new(alloc),
        }
    }

    /// The names in the order in which they were taken.
    pub(crate) fn as_slice(&self) -> &[Bytes]
        ensures { result.now ≡ self.now }
    {
        self.taken.as_slice()
    }

    /// The number from which one may be new after this front of a name.
    fn next_number(&self, stem: &Bytes) -> usize
        ensures { IsTried self.now (stem.now, result) }
    {
        match self.next.get(stem) {
            Some(number) => *number,
            None => 0,
        }
    }

    /// The first name with a number after it that is new.
    fn new_numbered(&mut self, alloc: Global, wanted: &[u8]) -> Result<Bytes, NoMemory>
        ensures name { IfOk result (λ name. name
            ≡ numbered wanted.now (least_number self.old wanted.now)) }
        ensures new { IfOk result (λ name. is_new self.old name ≡ true) }
        ensures same { self.new ≡ self.old }
    {
        let stem = Bytes::of(alloc, front(wanted, STEM))?;
        let start = self.next_number(&stem);
        let number = least_new(alloc, &self.taken, wanted, start)?;
        self.next.insert(stem, number)?;
        numbered(alloc, wanted, number)
    }

    /// Takes a name that is new.
    fn add(&mut self, alloc: Global, name: &Bytes) -> Result<(), NoMemory>
        requires { is_new self.old name.now ≡ true }
        ensures { OnOk result (self.new ≡ self.old ++ name.now ∷ []) }
    {
        self.taken.insert(Bytes::of(alloc, name.as_slice())?)?;
        Ok(())
    }

    /// Takes the name that is wanted, or if it is too long or taken, the first with a number
    /// that is new.
    pub(crate) fn take(&mut self, alloc: Global, wanted: Bytes) -> Result<(), NoMemory>
        ensures { OnOk result (self.new ≡ self.old ++ fresh self.old wanted ∷ []) }
    {
        self.fresh(alloc, wanted)?;
        Ok(())
    }

    /// The same, and the name that was taken.
    #[tactic(auto, unfolding(crate::specs::Fresh::fresh))]
    pub(crate) fn fresh(&mut self, alloc: Global, wanted: Bytes) -> Result<Bytes, NoMemory>
        ensures name { IfOk result (λ name. name ≡ fresh self.old wanted) }
        ensures taken { IfOk result (λ name. self.new ≡ self.old ++ name ∷ []) }
    {
        let name = if wanted.len() <= LONGEST && !self.taken.contains(&wanted) {
            wanted
        } else {
            self.new_numbered(alloc, wanted.as_slice())?
        };
        self.add(alloc, &name)?;
        Ok(name)
    }
}
