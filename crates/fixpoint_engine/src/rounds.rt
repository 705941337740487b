//! Rounds until they settle.

ghost use Rattle.std.specs.Prelude.{◌≡◌, ◌+◌, ◌<◌, ◌≤◌, ℕ, IfErr, IfOk, IfSome, MatchOption, false, length, map, take};
ghost use Rattle.std.specs.List.{All};
ghost use Rattle.flat_circuit.specs.Name.{net_at};
ghost use Rattle.fixpoint_engine.specs.Table.{AreKnown, Grows, waves_at};
ghost use Rattle.fixpoint_engine.specs.Waves.{FitWaves, waves_of};
ghost use Rattle.fixpoint_engine.specs.Key.{AreConstants};
ghost use Rattle.fixpoint_engine.specs.Rounds.{round};
ghost use Rattle.fixpoint_engine.specs.Settled.{AreSettled, FitActive, KeepRuns, marked_in};
ghost use Rattle.fixpoint_engine.specs.Classes.{OneStandsForAll};
ghost use Rattle.fixpoint_engine.specs.Hearers.{AreHearers};
ghost use Rattle.fixpoint_engine.specs.Members.{evaluations_to, numbers_in};
ghost use Rattle.fixpoint_engine.specs.End.{EndsAt, EndsFor, IsFirstIn};
ghost use Rattle.fixpoint_engine.specs.Worklist.{among};

use crate::changes::{Change, changes};
use crate::class_changes::{apply_all, for_all};
use crate::key::{Constants, Store};
use crate::net_classes::NetClasses;
use crate::net_set::NetSet;
use crate::queue::Queue;
use crate::{Numbers, copied};
use flat_circuit::Circuit;
use scald_base::NoMemory;
use std::alloc::Global;
use step_values::Value;
use wave_core::CyclicWave;

/// What rounds begin with.
#[derive(Drop)]
pub struct Start {
    /// The numbers of the waves of all nets before the first round.
    pub numbers: Numbers,
    /// The numbers of the constants' waves.
    pub constants: Constants,
    /// The nets that are evaluated.
    pub active: NetSet,
}

/// Settled rounds.
#[derive(Drop)]
pub struct Settled {
    /// The numbers of the waves of the first round that the next one equals.
    pub numbers: Numbers,
    /// The number of that round.
    pub rounds: u32,
    /// How many evaluations were due: one for each net that was, in the rounds up to the next one.
    pub evals: u64,
}

/// Why rounds gave no waves.
#[derive(Clone, Copy, PartialEq, Eq, Debug)]
pub enum EngineEnd {
    /// The round at the limit, `round`, and the next one differ. The first net that differs stands
    /// at this place, from 0, in name order.
    Unsettled { net: u32, round: u32 },
    /// Memory ran out.
    NoMemory,
}

impl From<NoMemory> for EngineEnd {
    ghost use Rattle.std.specs.Prelude.{◌≡◌};
    ghost use Rattle.fixpoint_engine.specs.declared.rounds.EngineEnd.TheVariants.{NoMemory as OutOfMemory};

    ghost from_gives = { λ _ e. e ≡ OutOfMemory };

    fn from(_e: NoMemory) -> EngineEnd {
        EngineEnd::NoMemory
    }
}

/// The nets that change, as a set.
fn changed_nets(alloc: Global, c: &Circuit, changes: &[Change]) -> Result<NetSet, NoMemory>
    requires { All (λ ch. ch.net < length c.now.nets) changes.now }
    ensures { IfOk result (λ set.
        (i : ℕ) → marked_in set i ≡ among (map (λ ch. ch.net) changes.now) i) }
{
    let mut changed = NetSet::new(alloc, c.net_count())?;
    for change in changes {
        changed.add(change.net);
    }
    Ok(changed)
}

/// The place in name order of the first net of a set.
fn first_named(c: &Circuit, set: &NetSet) -> Option<u32>
    ensures { MatchOption result ((k : ℕ) → k < length c.now.order →
        marked_in set.now (net_at c.now.order k) ≡ false) (λ place.
        IsFirstIn c.now.order (marked_in set.now) place) }
{
    c.known();
    for place in 0..c.net_count() {
        if set.has(c.net_at(place)) {
            return Some(place);
        }
    }
    None
}

/// The end of rounds whose last ones differ in these nets.
pub fn unsettled(
    alloc: Global,
    c: &Circuit,
    changes: &[Change],
    limit: u32,
) -> Result<EngineEnd, NoMemory>
    requires exist { All (λ ch. ch.net < length c.now.nets) changes.now }
    requires some { 0 < length changes.now }
    ensures { IfOk result (EndsAt c.now.order (among (map (λ ch. ch.net) changes.now)) limit) }
{
    let changed = changed_nets(alloc, c, changes)?;
    c.known();
    match first_named(c, &changed) {
        Some(net) => Ok(EngineEnd::Unsettled { net, round: limit }),
        None => unreachable!(),
    }
}

/// The numbers of the same waves, of which the store forgets those that no net has, and all
/// evaluations, if much came in: else rounds that come to ever new waves would take memory
/// without end. The first waves are kept.
fn shortened<W: CyclicWave<Item = Value>>(
    alloc: Global,
    store: &mut Store<W>,
    kept: usize,
    numbers: Numbers,
) -> Result<Numbers, NoMemory>
    requires { AreKnown store.old numbers }
    ensures grows { Grows (take kept store.old) store.new }
    ensures known { IfOk result (AreKnown store.new) }
    ensures same { IfOk result (λ now. waves_at store.new now ≡ waves_at store.old numbers) }
{
    if !store.is_long(alloc, numbers.as_slice())? {
        return Ok(numbers);
    }
    store.compact(alloc, kept, numbers.as_slice())
}

/// Rounds over the active nets, from the waves at the start, until a round is as the one before:
/// the waves of the first round that the next one equals. The start waves permit a run from some
/// tick on; the settled waves permit it `reach` ticks a round later. `Unsettled` comes exactly
/// if no round up to `limit` is as the next one. In the first round each active net is
/// evaluated, and later those alone whose driver listens to a net that changed in the round before;
/// `evals` counts them. Waves are given and answered by their numbers in the store, which has what
/// is made of them remembered.
///
/// If there are classes, whose nets have one wave in every round and are due in the same rounds,
/// one net of each class is evaluated, and the number of its wave is given to all; `evals` counts
/// the classes that have nets which are due in a round.
pub fn settle<W: CyclicWave<Item = Value>>(
    alloc: Global,
    c: &Circuit,
    store: &mut Store<W>,
    start: &Start,
    classes: &NetClasses,
    limit: u32,
) -> Result<Settled, EngineEnd>
    requires constants { AreConstants c.now.header store.old start.now.constants }
    requires known { AreKnown store.old start.now.numbers }
    requires waves { FitWaves c.now (waves_at store.old start.now.numbers) }
    requires active { FitActive c.now start.now.active }
    requires hearers { IfSome classes.now.nets (λ each.
        AreHearers c.now each classes.now.hearers) }
    requires classes { OneStandsForAll c.now (marked_in start.now.active)
        (numbers_in (length c.now.nets) classes.now.nets)
        (waves_of (waves_at store.old start.now.numbers)) }
    ensures grows { Grows store.old store.new }
    ensures known { IfOk result (λ s. AreKnown store.new s.numbers) }
    ensures settled { let first = waves_of (waves_at store.old start.now.numbers) in
        IfOk result (λ s. AreSettled c.now (marked_in start.now.active) first limit s.rounds
        (waves_of (waves_at store.new s.numbers))) }
    ensures fit { IfOk result (λ s. FitWaves c.now (waves_at store.new s.numbers)) }
    ensures work { let first = waves_of (waves_at store.old start.now.numbers) in
        let active = marked_in start.now.active in
        IfOk result (λ s. s.evals ≡ evaluations_to classes.now.nets c.now active
        (round c.now active first) (s.rounds + 1)) }
    ensures sound { let first = waves_of (waves_at store.old start.now.numbers) in
        IfOk result (λ s. KeepRuns c.now first s.rounds (waves_of (waves_at store.new s.numbers))) }
    ensures unsettled { let first = waves_of (waves_at store.old start.now.numbers) in
        IfErr result
        (EndsFor c.now.order (round c.now (marked_in start.now.active) first) limit) }
{
    c.known();
    c.header().known();
    let kept = store.len();
    let mut numbers = copied(alloc, start.numbers.as_slice())?;
    let mut queue = Queue::all(alloc, c, &classes.nets, &start.active)?;
    let mut rounds = 0;
    let mut evals = 0;
    'rounds: loop {
        let now = numbers.as_slice();
        let made = changes(alloc, c, store, start.constants, now, queue.nets())?;
        evals += queue.nets().len() as u64;
        if made.is_empty() {
            return Ok(Settled {
                numbers,
                rounds,
                evals,
            });
        }
        if rounds == limit {
            let all = for_all(alloc, &classes.nets, &made)?;
            return Err(unsettled(alloc, c, &all, limit)?);
        }
        queue.refill_all(c, classes, &start.active, &made)?;
        apply_all(&mut numbers, &classes.nets, &made);
        numbers = shortened(alloc, store, kept, numbers)?;
        rounds += 1;
    }
}
