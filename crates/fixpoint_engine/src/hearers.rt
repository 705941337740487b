//! Which nets hear a class.

ghost use Rattle.std.specs.Prelude.{◌≡◌, ◌<◌, ◌==◌, ◌&&◌, ◌||◌, [], ℕ, IfOk, IfSome, OnOk, Some, length, map, true};
ghost use Rattle.std.specs.List.{All, range_with_len};
ghost use Rattle.element_kinds.specs.Kinds.{listens};
ghost use Rattle.flat_circuit.specs.Instances.{PinExists, TargetExists};
ghost use Rattle.flat_circuit.specs.Alike.{class_of};
ghost use Rattle.fixpoint_engine.specs.Members.{leads_in};
ghost use Rattle.fixpoint_engine.specs.Work.{hears_from, is_on_any};
ghost use Rattle.fixpoint_engine.specs.Worklist.{among};
ghost use Rattle.fixpoint_engine.specs.Hearers.{AreHearers, hears_class, is_net, row_of};

use crate::class_nets::ClassNets;
use element_kinds::Kind;
use flat_circuit::{Circuit, Pin, ShortList};
use scald_base::NoMemory;
use std::alloc::Global;
use std::marker::Model;
use vector_names::Target;

/// The nets that hear one class, of which most have one or two.
type Row = ShortList<u32>;

/// For each class the nets that stand for theirs and whose drivers listen to a net of the class. So
/// a round costs what hears the classes that change, and not all of their nets.
#[derive(Drop)]
pub struct Hearers {
    /// At each net that stands for its class, what hears the class.
    rows: Vec<Row>,
}

impl Model for Hearers {
    ghost use Rattle.std.specs.Prelude.{List, ℕ};

    ghost Value = { List (List ℕ) };

    ghost view = { λ h. h.rows.items };
}

fn empty_rows(alloc: Global, count: u32) -> Result<Vec<Row>, NoMemory>
    ensures { IfOk result (λ rows. rows.items ≡ map (λ _. []) (range_with_len 0 count)) }
{
    let mut rows = Vec::with_capacity(alloc, count as usize)?;
    for _k in 0..count {
        rows.push(Row::new(alloc))?;
    }
    Ok(rows)
}

/// The net that stands for the class of what a pin is on, if the pin is on a net and its kind
/// listens to it.
fn heard(classes: &ClassNets, kind: Kind, place: usize, target: Target) -> Option<u32>
    requires { TargetExists (length classes.now) target }
    ensures first { IfSome result (λ first. leads_in (Some classes.now) first ≡ true) }
    ensures is { (net : ℕ) → leads_in (Some classes.now) net ≡ true → is_net result net
        ≡ (listens kind place && is_on_any (λ j.
        class_of classes.now net == class_of classes.now j) target) }
{
    if !kind.listens(place) {
        return None;
    }
    match target {
        Target::Net(net) => Some(classes.first(net)),
        Target::Constant(_) => None,
    }
}

/// Puts a net into a row.
fn add_at(rows: &mut Vec<Row>, first: u32, net: u32) -> Result<(), NoMemory>
    requires { first < length rows.old.items }
    ensures long { OnOk result (length rows.new.items ≡ length rows.old.items) }
    ensures added { OnOk result ((other i : ℕ) → among (row_of rows.new.items other) i
        ≡ (among (row_of rows.old.items other) i || ((first == other) && (net == i)))) }
{
    rows[first as usize].push(net)?;
    Ok(())
}

/// Puts a net into the row of the class that a pin of its driver listens to.
fn add_pin(
    rows: &mut Vec<Row>,
    classes: &ClassNets,
    kind: Kind,
    place: usize,
    target: Target,
    net: u32,
) -> Result<(), NoMemory>
    requires each_net { length rows.old.items ≡ length classes.now }
    requires exists { TargetExists (length classes.now) target }
    ensures long { OnOk result (length rows.new.items ≡ length rows.old.items) }
    ensures added { OnOk result ((first i : ℕ) → leads_in (Some classes.now) first ≡ true →
        among (row_of rows.new.items first) i ≡ (among (row_of rows.old.items first) i
        || ((listens kind place && is_on_any (λ j.
        class_of classes.now first == class_of classes.now j) target)
        && (net == i)))) }
{
    match heard(classes, kind, place, target) {
        Some(first) => add_at(rows, first, net),
        None => Ok(()),
    }
}

/// Puts a net into the rows of the classes that the pins of its driver listen to.
fn add_pins(
    rows: &mut Vec<Row>,
    classes: &ClassNets,
    kind: Kind,
    pins: &[Pin],
    net: u32,
) -> Result<(), NoMemory>
    requires each_net { length rows.old.items ≡ length classes.now }
    requires exist { All (PinExists (length classes.now)) pins.now }
    ensures long { OnOk result (length rows.new.items ≡ length rows.old.items) }
    ensures added { OnOk result ((first i : ℕ) → leads_in (Some classes.now) first ≡ true →
        among (row_of rows.new.items first) i ≡ (among (row_of rows.old.items first) i
        || (hears_from (λ j. class_of classes.now first == class_of classes.now j) kind 0 pins.now
        && (net == i)))) }
{
    for place in 0..pins.len() {
        add_pin(rows, classes, kind, place, pins[place].target, net)?;
    }
    Ok(())
}

/// Puts a net that stands for its class into the rows of the classes that it hears.
fn add_net(rows: &mut Vec<Row>, c: &Circuit, classes: &ClassNets, net: u32) -> Result<(), NoMemory>
    requires each_net { length rows.old.items ≡ length classes.now }
    requires classes { length classes.now ≡ length c.now.nets }
    ensures long { OnOk result (length rows.new.items ≡ length rows.old.items) }
    ensures added { OnOk result ((first i : ℕ) → leads_in (Some classes.now) first ≡ true →
        among (row_of rows.new.items first) i ≡ (among (row_of rows.old.items first) i
        || (hears_class c.now classes.now (class_of classes.now first) net && (net == i)))) }
{
    if !classes.leads(net) {
        return Ok(());
    }
    c.known();
    match c.driver_of(net) {
        Some(driver) => add_pins(rows, classes, driver.kind, driver.pins.as_slice(), net),
        None => Ok(()),
    }
}

impl Hearers {
    /// No rows, if there are no classes.
    pub fn none(alloc: Global) -> Hearers {
        Hearers {
            rows: Vec::new(alloc),
        }
    }

    /// What hears the classes of a circuit.
    pub fn of(alloc: Global, c: &Circuit, classes: &ClassNets) -> Result<Hearers, NoMemory>
        requires { length classes.now ≡ length c.now.nets }
        ensures { IfOk result (AreHearers c.now classes.now) }
    {
        let mut rows = empty_rows(alloc, c.net_count())?;
        for net in 0..c.net_count() {
            add_net(&mut rows, c, classes, net)?;
        }
        Ok(Hearers { rows })
    }

    /// The nets that hear the class for which a net stands. A net may be there more than once.
    pub fn of_first(&self, net: u32) -> &[u32]
        requires { net < length self.now }
        ensures { result.now ≡ row_of self.now net }
    {
        self.rows[net as usize].as_slice()
    }
}
