//! The changes of one round, if one net of each class stands for all.

ghost use Rattle.std.specs.Prelude.{◌≡◌, ◌<◌, ◌++◌, ℕ, IfOk, IfSome, OnOk, List, Some, length, map, true};
ghost use Rattle.std.specs.List.{All};
ghost use Rattle.step_values.specs.declared.value.Value.{Value as OfValues};
ghost use Rattle.skew_algebra.specs.Wave.{Wave};
ghost use Rattle.fixpoint_engine.specs.Table.{AreKnown, wave_at, waves_at};
ghost use Rattle.fixpoint_engine.specs.Members.{for_all, for_class, for_classes, leads_in};
ghost use Rattle.fixpoint_engine.specs.Worklist.{changed};

use crate::Numbers;
use crate::changes::{Change, apply, apply_classes};
use crate::class_nets::ClassNets;
use scald_base::NoMemory;
use std::alloc::Global;

/// The change of a net, for each net of its class, however its number is read.
fn add_class(made: &mut Vec<Change>, classes: &ClassNets, change: Change) -> Result<(), NoMemory>
    requires { leads_in (Some classes.now) change.net ≡ true }
    ensures { OnOk result ((read : ℕ → Wave OfValues) →
        map (λ ch. (ch.net, read ch.number)) made.new.items
        ≡ map (λ ch. (ch.net, read ch.number)) made.old.items
        ++ for_class classes.now (change.net, read change.number)) }
{
    let mut at = classes.last(change.net);
    while let Some(net) = at {
        made.push(Change {
            net,
            number: change.number,
        })?;
        at = classes.previous(net);
    }
    Ok(())
}

/// The changes of some nets, each for all nets of its class, however their numbers are read.
fn for_classes(
    alloc: Global,
    classes: &ClassNets,
    changes: &[Change],
) -> Result<Vec<Change>, NoMemory>
    requires { All (λ ch. leads_in (Some classes.now) ch.net ≡ true) changes.now }
    ensures { IfOk result (λ made.
        (read : ℕ → Wave OfValues) → map (λ ch. (ch.net, read ch.number)) made.items
        ≡ for_classes classes.now (map (λ ch. (ch.net, read ch.number)) changes.now)) }
{
    let mut made = Vec::new(alloc);
    for change in changes {
        add_class(&mut made, classes, *change)?;
    }
    Ok(made)
}

/// The changes of some nets, each for all nets for which its own stands.
pub fn for_all(
    alloc: Global,
    classes: &Option<ClassNets>,
    changes: &[Change],
) -> Result<Vec<Change>, NoMemory>
    requires { All (λ ch. leads_in classes.now ch.net ≡ true) changes.now }
    ensures { IfOk result (λ made.
        (read : ℕ → Wave OfValues) → map (λ ch. (ch.net, read ch.number)) made.items
        ≡ for_all classes.now
        (map (λ ch. (ch.net, read ch.number)) changes.now)) }
{
    match classes {
        Some(classes) => for_classes(alloc, classes, changes),
        None => Ok(Vec::from_slice(alloc, changes)?),
    }
}

/// Puts the numbers of the new waves in the place of the old ones, for all nets for which those
/// stand that change.
pub fn apply_all(numbers: &mut Numbers, classes: &Option<ClassNets>, changes: &[Change])
    requires each_net { IfSome classes.now (λ each. length each ≡ length numbers.old) }
    requires exist { All (λ ch. ch.net < length numbers.old) changes.now }
    requires firsts { All (λ ch. leads_in classes.now ch.net ≡ true) changes.now }
    ensures known { (table : List (Wave OfValues)) → AreKnown table numbers.old →
        AreKnown table (map (λ ch. ch.number) changes.now) → AreKnown table numbers.new }
    ensures changed { (table : List (Wave OfValues)) → waves_at table numbers.new
        ≡ changed (waves_at table numbers.old)
        (for_all classes.now
        (map (λ ch. (ch.net, wave_at table ch.number)) changes.now)) }
{
    match classes {
        Some(classes) => apply_classes(numbers, classes, changes),
        None => apply(numbers, changes),
    }
}
