//! What one round changes.

ghost use Rattle.std.specs.Prelude.{◌≡◌, ◌<◌, ◌++◌, ◌∷◌, [], IfOk, OnOk, List, Some, length, map, true};
ghost use Rattle.std.specs.List.{All};
ghost use Rattle.step_values.specs.declared.value.Value.{Value as OfValues};
ghost use Rattle.skew_algebra.specs.Wave.{Wave};
ghost use Rattle.fixpoint_engine.specs.Table.{AreKnown, Grows, wave_at, waves_at};
ghost use Rattle.fixpoint_engine.specs.Waves.{FitWaves, waves_of};
ghost use Rattle.fixpoint_engine.specs.Key.{AreConstants};
ghost use Rattle.fixpoint_engine.specs.Members.{for_class, for_classes, leads_in};
ghost use Rattle.fixpoint_engine.specs.Worklist.{changed, changes_of};

use crate::Numbers;
use crate::class_nets::ClassNets;
use crate::key::{Constants, Store};
use crate::value::evaluated;
use flat_circuit::Circuit;
use scald_base::NoMemory;
use std::alloc::Global;
use step_values::Value;
use wave_core::CyclicWave;

/// A net whose wave changes, and the number of the wave that it is to have.
#[derive(Clone, Copy, Drop)]
pub struct Change {
    pub net: u32,
    pub number: u32,
}

/// Evaluates a net, and keeps the number of its wave if it differs from what there was.
fn add_change<W: CyclicWave<Item = Value>>(
    made: &mut Vec<Change>,
    alloc: Global,
    c: &Circuit,
    store: &mut Store<W>,
    constants: Constants,
    numbers: &[u32],
    net: u32,
) -> Result<(), NoMemory>
    requires exists { net < length c.now.nets }
    requires known { AreKnown store.old numbers.now }
    requires fit { FitWaves c.now (waves_at store.old numbers.now) }
    requires constants { AreConstants c.now.header store.old constants }
    requires made { AreKnown store.old (map (λ ch. ch.number) made.old.items) }
    ensures grows { Grows store.old store.new }
    ensures known { OnOk result (AreKnown store.new (map (λ ch. ch.number) made.new.items)) }
    ensures made { let before = waves_of (waves_at store.old numbers.now) in
        OnOk result (map (λ ch. (ch.net, wave_at store.new ch.number)) made.new.items
        ≡ map (λ ch. (ch.net, wave_at store.old ch.number)) made.old.items
        ++ changes_of c.now before (net ∷ [])) }
{
    let number = evaluated(alloc, c, store, constants, numbers, net)?;
    store.known();
    if number != numbers[net as usize] {
        made.push(Change { net, number })?;
    }
    Ok(())
}

/// Evaluates these nets, all from the same waves, and keeps what differs from what there was.
pub fn changes<W: CyclicWave<Item = Value>>(
    alloc: Global,
    c: &Circuit,
    store: &mut Store<W>,
    constants: Constants,
    numbers: &[u32],
    nets: &[u32],
) -> Result<Vec<Change>, NoMemory>
    requires exist { All (λ i. i < length c.now.nets) nets.now }
    requires known { AreKnown store.old numbers.now }
    requires fit { FitWaves c.now (waves_at store.old numbers.now) }
    requires constants { AreConstants c.now.header store.old constants }
    ensures grows { Grows store.old store.new }
    ensures known { IfOk result (λ made. AreKnown store.new (map (λ ch. ch.number) made.items)) }
    ensures made { let before = waves_of (waves_at store.old numbers.now) in
        IfOk result (λ made. map (λ ch. (ch.net, wave_at store.new ch.number)) made.items
        ≡ changes_of c.now before nets.now) }
{
    let mut made = Vec::new(alloc);
    for net in nets {
        add_change(&mut made, alloc, c, store, constants, numbers, *net)?;
    }
    Ok(made)
}

/// Puts the numbers of the new waves in the place of the old ones.
pub fn apply(numbers: &mut Numbers, changes: &[Change])
    requires { All (λ ch. ch.net < length numbers.old) changes.now }
    ensures known { (table : List (Wave OfValues)) → AreKnown table numbers.old →
        AreKnown table (map (λ ch. ch.number) changes.now) → AreKnown table numbers.new }
    ensures changed { (table : List (Wave OfValues)) → waves_at table numbers.new
        ≡ changed (waves_at table numbers.old)
        (map (λ ch. (ch.net, wave_at table ch.number)) changes.now) }
{
    for change in changes {
        numbers.set(change.net as usize, change.number);
    }
}

/// Puts the number of a new wave in the place of the old one, for all nets of the class of the net
/// that changes.
fn apply_class(numbers: &mut Numbers, classes: &ClassNets, change: Change)
    requires each_net { length classes.now ≡ length numbers.old }
    requires first { leads_in (Some classes.now) change.net ≡ true }
    ensures each_net { length numbers.new ≡ length numbers.old }
    ensures known { (table : List (Wave OfValues)) → AreKnown table numbers.old →
        change.number < length table → AreKnown table numbers.new }
    ensures changed { (table : List (Wave OfValues)) → waves_at table numbers.new
        ≡ changed (waves_at table numbers.old)
        (for_class classes.now (change.net, wave_at table change.number)) }
{
    let mut at = classes.last(change.net);
    while let Some(net) = at {
        numbers.set(net as usize, change.number);
        at = classes.previous(net);
    }
}

/// The same for all nets of the classes of those that change, which stand for them.
pub fn apply_classes(numbers: &mut Numbers, classes: &ClassNets, changes: &[Change])
    requires each_net { length classes.now ≡ length numbers.old }
    requires firsts { All (λ ch. leads_in (Some classes.now) ch.net ≡ true) changes.now }
    ensures known { (table : List (Wave OfValues)) → AreKnown table numbers.old →
        AreKnown table (map (λ ch. ch.number) changes.now) → AreKnown table numbers.new }
    ensures changed { (table : List (Wave OfValues)) → waves_at table numbers.new
        ≡ changed (waves_at table numbers.old)
        (for_classes classes.now (map (λ ch. (ch.net, wave_at table ch.number)) changes.now)) }
{
    for change in changes {
        apply_class(numbers, classes, *change);
    }
}
