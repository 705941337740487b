//! How much a drawing leaves out, in numbers.

ghost use Rattle.std.specs.Prelude.{length};
ghost use Rattle.drawing_omissions.specs.Same.{AreWithin};
ghost use Rattle.drawing_tree.specs.Tree.{drawing_of};
ghost use Rattle.drawing_tree.specs.WellFormed.{IsWellFormed};

use crate::Sieve;
use crate::case_notes::add_cases;
use crate::fors::{add_empty, for_places};
use crate::loose::{is_given, loose_nets, name_of, set_nets};
use crate::near::add_near;
use crate::notes::Notes;
use crate::part::add_part;
use crate::spread::Finding;
use crate::walk::spreads;
use drawing_tree::{Drawing, Env, Stmt};
use fixpoint_engine::NetSet;
use flat_circuit::{Case, Circuit};
use macro_expander::constants::constants;
use macro_expander::turn::loop_ends;
use scald_base::{Bytes, NoMemory, Place};
use std::alloc::Global;

/// How much a drawing leaves out, if anybody asks. Nothing is promised of these numbers, which help
/// a person: what there is no memory for is not counted.
#[derive(Clone, Copy)]
pub struct Omissions {
    /// Whether anybody asks.
    pub are_asked: bool,
    /// How many nets nothing determines: neither a driver nor an assertion nor a case.
    pub undriven: u32,
    /// How many notes there are of the kinds PART, NEAR, EMPTY and CASES.
    pub notes: usize,
}

impl Omissions {
    /// Before a drawing of which they are asked.
    pub fn asked() -> Omissions {
        Omissions {
            are_asked: true,
            undriven: 0,
            notes: 0,
        }
    }

    /// Where nobody asks, so that nothing is counted.
    pub fn unasked() -> Omissions {
        Omissions {
            are_asked: false,
            undriven: 0,
            notes: 0,
        }
    }

    /// Counts notes, if memory sufficed for them.
    fn add(&mut self, notes: Result<usize, NoMemory>) {
        if let Ok(count) = notes {
            self.notes = self.notes.saturating_add(count);
        }
    }

    /// Counts what a drawing tells, if anybody asks. Its statements are gone through as its
    /// expansion goes, with no limit: so it has to be one that is expanded without a refusal.
    pub fn count_drawing(&mut self, alloc: Global, drawing: &Drawing)
        requires { IsWellFormed (drawing_of drawing.now) }
    {
        if self.are_asked {
            self.add(empty_count(alloc, drawing));
        }
    }

    /// Counts the notes on nets that nothing determines, by the set of those that cases set.
    fn count_names(&mut self, alloc: Global, c: &Circuit, set: &NetSet) {
        if let Ok(loose) = loose_nets(alloc, c, set) {
            self.add(part_count(alloc, c, &loose));
            self.add(near_count(alloc, c, set, &loose));
        }
    }

    /// Counts what its circuit and its cases tell, if anybody asks.
    pub fn count_circuit(&mut self, alloc: Global, c: &Circuit, cases: &[Case])
        requires { AreWithin (length c.now.nets) cases.now }
    {
        if !self.are_asked {
            return;
        }
        if let Ok(set) = set_nets(alloc, c, cases) {
            self.undriven = undriven_count(c, &set);
            // Only nets that nothing determines have notes on their names.
            if self.undriven > 0 {
                self.count_names(alloc, c, &set);
            }
        }
        self.add(case_count(alloc, c, cases));
    }
}

/// Whether a statement is a FOR that has a turn by these constants.
fn has_turn(consts: &Env, statement: &Stmt) -> bool {
    let Stmt::For(repeated) = statement else {
        return false;
    };
    match loop_ends(repeated, consts) {
        Ok(ends) => ends.0 <= ends.1,
        Err(_) => false,
    }
}

/// How many FORs stand in no other statement and have a turn by the drawing's constants.
fn turned_at_once(alloc: Global, drawing: &Drawing) -> usize
    requires { IsWellFormed (drawing_of drawing.now) }
{
    let Ok(consts) = constants(alloc, &drawing.consts, &drawing.const_places) else {
        return 0;
    };
    let mut count: usize = 0;
    for statement in &drawing.body {
        if has_turn(&consts, statement) {
            count = count.saturating_add(1);
        }
    }
    count
}

/// How many of these FORs are reached and have no turn, by what is found in the expansion.
fn empty_among(alloc: Global, fors: &[Place], found: &[Finding]) -> Result<usize, NoMemory> {
    let mut notes = Notes::new(Bytes::new(alloc));
    add_empty(&mut notes, alloc, fors, found)?;
    Ok(notes.count())
}

/// How many FORs of a drawing are reached and have no turn. The expansion is not gone through if
/// all have a turn at once.
fn empty_count(alloc: Global, drawing: &Drawing) -> Result<usize, NoMemory>
    requires { IsWellFormed (drawing_of drawing.now) }
{
    let fors = for_places(alloc, drawing)?;
    if fors.len() == turned_at_once(alloc, drawing) {
        return Ok(0);
    }
    let found = spreads(alloc, drawing)?;
    empty_among(alloc, fors.as_slice(), found.as_slice())
}

/// How many nets nothing determines, by the set of those that cases set.
fn undriven_count(c: &Circuit, set: &NetSet) -> u32 {
    let mut count: u32 = 0;
    for net in 0..c.net_count() {
        if !is_given(c, set, net) {
            count = count.saturating_add(1);
        }
    }
    count
}

/// The names of these nets, for a first look at others.
fn sieve_of(alloc: Global, c: &Circuit, nets: &[u32]) -> Result<Sieve, NoMemory> {
    let mut sieve = Sieve::new(alloc);
    for net in nets {
        sieve.put(name_of(c, *net))?;
    }
    Ok(sieve)
}

/// Whether something determines the net at a place in name order, and it is no further bit of the
/// name before it.
fn is_new(c: &Circuit, set: &NetSet, place: u32) -> bool {
    let net = c.net_at(place);
    if !is_given(c, set, net) {
        return false;
    }
    if place == 0 {
        return true;
    }
    let before = c.net_at(place - 1);
    !is_given(c, set, before) || name_of(c, before) != name_of(c, net)
}

/// Whether a net that something determines may be near to one of these by its name.
fn some_may_be_near(
    alloc: Global,
    c: &Circuit,
    set: &NetSet,
    nets: &[u32],
) -> Result<bool, NoMemory> {
    let sieve = sieve_of(alloc, c, nets)?;
    for place in 0..c.net_count() {
        if is_new(c, set, place) && sieve.may_be_near(name_of(c, c.net_at(place))) {
            return Ok(true);
        }
    }
    Ok(false)
}

/// How many of these nets, which nothing determines, are bits of signals that are driven.
fn part_count(alloc: Global, c: &Circuit, loose: &[u32]) -> Result<usize, NoMemory> {
    let mut notes = Notes::new(Bytes::new(alloc));
    add_part(&mut notes, alloc, c, loose)?;
    Ok(notes.count())
}

/// How many names of these nets, which nothing determines, are one slip apart from another.
fn near_count(alloc: Global, c: &Circuit, set: &NetSet, loose: &[u32]) -> Result<usize, NoMemory> {
    if !some_may_be_near(alloc, c, set, loose)? {
        return Ok(0);
    }
    let mut notes = Notes::new(Bytes::new(alloc));
    add_near(&mut notes, alloc, c, set, loose)?;
    Ok(notes.count())
}

/// How many notes there are on cases.
fn case_count(alloc: Global, c: &Circuit, cases: &[Case]) -> Result<usize, NoMemory>
    requires { AreWithin (length c.now.nets) cases.now }
{
    let mut notes = Notes::new(Bytes::new(alloc));
    add_cases(&mut notes, alloc, c.net_count(), cases)?;
    Ok(notes.count())
}
