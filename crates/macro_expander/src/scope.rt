//! What names mean in the body that is expanded.

ghost use Rattle.std.specs.Prelude.{◌≡◌, ◌==◌, ◌++◌, [], position, Ok, IfOk, IfSome};
ghost use Rattle.std.specs.Option.{option_copied};
ghost use Rattle.std.specs.List.{All, find};
ghost use Rattle.std.specs.Str.{bytes_eq};
ghost use Rattle.macro_expander.specs.Terms.{bit_numbered, bit_at_place, outer_bits as spec_outer_bits, formal_bits as spec_formal_bits, formal_term as spec_formal_term};
ghost use Rattle.macro_expander.specs.Steps.{JudgedAt};
ghost use Rattle.macro_expander.specs.Runs.{IsRun, HasRun};

use crate::list::{Row, copied};
use crate::places::{Called, named, places};
use crate::range::numbers;
use drawing_tree::Env;
use indexmap::IndexMap;
use scald_base::{AssertSpec, Bytes, List, NoMemory, Place, RefusalKind, Stop};
use std::alloc::Global;
use std::marker::Model;
use vector_names::{BitRef, Bits, Indices};

/// A formal of the macro that is expanded: the numbers of its bits, in the order of its
/// declaration, and the outer bits bound to them.
#[derive(Drop, Debug)]
pub struct Bound {
    /// Its name in the macro's body.
    pub base: Bytes,
    /// The numbers of its bits, in the order of its declaration.
    pub numbers: Indices,
    /// The outer bits that are bound to them.
    pub bits: Bits,
}

impl Bound {
    fn copy(&self, alloc: Global) -> Result<Bound, NoMemory>
        ensures { IfOk result (λ copy. copy ≡ self.now) }
    {
        Ok(Bound {
            base: Bytes::of(alloc, self.base.as_slice())?,
            numbers: copied(alloc, self.numbers.as_slice())?,
            bits: copied(alloc, self.bits.as_slice())?,
        })
    }
}

impl Called for Bound {
    ghost name = { λ f. f.base };

    fn name(&self) -> &[u8] {
        self.base.as_slice()
    }
}

fn copies(alloc: Global, formals: &[Bound]) -> Result<Row<Bound>, NoMemory>
    ensures { IfOk result (λ copies. copies ≡ formals.now) }
{
    let mut copies = Row::with_room(alloc, formals.len())?;
    for formal in formals {
        copies.push(formal.copy(alloc)?)?;
    }
    Ok(copies)
}

/// The formals of a macro in the order of its text, each found by its base name.
#[derive(Drop)]
pub struct Formals {
    items: Row<Bound>,
    places: IndexMap<Vec<u8>, usize>,
}

impl Model for Formals {
    ghost use Rattle.std.specs.Prelude.{List};
    ghost use Rattle.macro_expander.specs.declared.scope.Bound.{Bound};
    ghost use Rattle.std.specs.List.{All};
    ghost use Rattle.macro_expander.specs.Places.{LeadWhereMany, base_of};
    ghost use Rattle.macro_expander.specs.Runs.{HasRun};

    ghost Value = { List Bound };

    ghost view = { λ f. f.items };

    ghost invariant = { λ f. LeadWhereMany base_of f.places.entries f.items × All HasRun f.items };
}

impl Formals {
    /// No formals.
    pub(crate) fn new(alloc: Global) -> Formals
        ensures { result ≡ [] }
    {
        Formals {
            items: Row::new(alloc),
            places: IndexMap::new(alloc),
        }
    }

    /// These formals. `NoMemory` comes if memory runs out.
    pub fn of(alloc: Global, items: Row<Bound>) -> Result<Formals, NoMemory>
        requires { All HasRun items }
        ensures { IfOk result (λ formals. formals ≡ items) }
    {
        let places = places(alloc, items.as_slice())?;
        Ok(Formals { items, places })
    }

    /// A copy of the formals.
    pub(crate) fn copy(&self, alloc: Global) -> Result<Formals, NoMemory>
        ensures { IfOk result (λ copy. copy ≡ self.now) }
    {
        let items = copies(alloc, self.items.as_slice())?;
        Formals::of(alloc, items)
    }

    /// The first formal of a base name.
    pub fn find(&self, base: &[u8]) -> Option<&Bound>
        ensures first { option_copied result ≡ find (λ f. bytes_eq f.base base.now) self.now }
        ensures run { IfSome result (λ f. HasRun f.now) }
    {
        named(&self.places, self.items.as_slice(), base)
    }
}

/// What names and labels mean in a body that is expanded.
#[derive(Drop)]
pub struct Scope {
    /// The labels of the uses from the drawing down, each with a slash after it.
    pub path: Bytes,
    /// What follows each label of the body, for the FORs around it.
    pub suffix: Bytes,
    /// The names that have values, the innermost first: the variables of those FORs, the parameters
    /// and the constants.
    pub env: Env,
    /// The formals of the macro; in a drawing's own statements there are none.
    pub formals: Formals,
}

impl Scope {
    /// The scope of a drawing's own statements.
    pub fn top(alloc: Global, consts: Env) -> Scope
        ensures { result ≡ record { path = []; suffix = []; env = consts; formals = [] } }
    {
        Scope {
            path: Bytes::new(alloc),
            suffix: Bytes::new(alloc),
            env: consts,
            formals: Formals::new(alloc),
        }
    }

    /// The whole text of a label. `NoMemory` comes if memory runs out.
    pub fn labelled(&self, alloc: Global, label: &[u8]) -> Result<Bytes, NoMemory>
        ensures { IfOk result (λ whole. whole ≡ self.now.path ++ label.now ++ self.now.suffix) }
    {
        let room = self.path.len().saturating_add(label.len());
        let mut whole = Bytes::with_room(alloc, room.saturating_add(self.suffix.len()))?;
        whole.extend(self.path.as_slice())?;
        whole.extend(label)?;
        whole.extend(self.suffix.as_slice())?;
        Ok(whole)
    }
}

/// Where a number stands among numbers that follow one another, up or down.
fn place_of(numbers: &[u16], number: u16) -> Option<usize>
    requires { IsRun numbers.now }
    ensures { result ≡ position (λ n. n == number) numbers.now }
{
    let first = *numbers.first()?;
    let place = usize::from(first.abs_diff(number));
    match numbers.get(place) {
        Some(found) => { if *found == number { Some(place) } else { None } }
        None => None,
    }
}

fn bit_at(bits: &[BitRef], place: Option<usize>) -> Option<BitRef>
    ensures { result ≡ bit_at_place bits.now place }
{
    match place {
        None => None,
        Some(k) => bits.get(k).copied(),
    }
}

/// The outer bit of a formal's bit.
#[tactic(auto, unfolding(crate::specs::Terms::bit_numbered))]
fn outer_bit(numbers: &[u16], bits: &[BitRef], number: u16) -> Option<BitRef>
    requires { IsRun numbers.now }
    ensures { result ≡ bit_numbered numbers.now bits.now number }
{
    bit_at(bits, place_of(numbers, number))
}

/// The outer bits of a formal's bits.
fn outer_bits(alloc: Global, bound: &Bound, chosen: &[u16], place: Place) -> Result<Bits, Stop>
    requires { HasRun bound.now }
    ensures { JudgedAt place result (spec_outer_bits bound.now.numbers bound.now.bits chosen.now) }
{
    let mut bits = List::with_room(alloc, chosen.len())?;
    for number in chosen {
        match outer_bit(bound.numbers.as_slice(), bound.bits.as_slice(), *number) {
            Some(bit) => bits.push(bit)?,
            None => return Err(Stop::refused(RefusalKind::BadRange, place)),
        }
    }
    Ok(bits)
}

fn formal_bits(
    alloc: Global,
    bound: &Bound,
    ends: Option<(i64, i64)>,
    place: Place,
) -> Result<Bits, Stop>
    requires { HasRun bound.now }
    ensures { JudgedAt place result (spec_formal_bits bound.now.numbers bound.now.bits ends) }
{
    if ends.is_none() {
        return Ok(copied(alloc, bound.bits.as_slice())?);
    }
    let chosen = numbers(alloc, ends, place)?;
    outer_bits(alloc, bound, chosen.as_slice(), place)
}

/// The outer bits that a formal's name means, followed by a range with these ends.
#[tactic(auto, unfolding(crate::specs::Terms::formal_term))]
pub(crate) fn formal_term(
    alloc: Global,
    bound: &Bound,
    spec: &AssertSpec,
    ends: Option<(i64, i64)>,
    place: Place,
) -> Result<Bits, Stop>
    requires { HasRun bound.now }
    ensures { JudgedAt place result
        (spec_formal_term bound.now.numbers bound.now.bits spec.now ends) }
{
    let bits = formal_bits(alloc, bound, ends, place)?;
    match spec {
        AssertSpec::None => Ok(bits),
        _ => Err(Stop::refused(RefusalKind::AssertionClash, place)),
    }
}
