//! The base of a circuit.

ghost use Rattle.std.specs.Prelude.{◌≡◌, ◌≤◌, ◌+◌, ℕ, ◌<◌, IfErr, IfOk, MatchBool, MatchResult, length, map};
ghost use Rattle.std.specs.List.{range_with_len};
ghost use Rattle.flat_circuit.specs.Instances.{outputs};
ghost use Rattle.fixpoint_engine.specs.Table.{AreKnown, Grows, IsNumber, waves_at};
ghost use Rattle.fixpoint_engine.specs.Waves.{FitWaves, waves_of};
ghost use Rattle.fixpoint_engine.specs.End.{EndsFor};
ghost use Rattle.fixpoint_engine.specs.Loops.{HasNoLoop};
ghost use Rattle.fixpoint_engine.specs.Members.{evaluations_to};
ghost use Rattle.fixpoint_engine.specs.NetClasses.{AreClasses};
ghost use Rattle.fixpoint_engine.specs.Settled.{marked_in};
ghost use Rattle.fixpoint_engine.specs.Start.{base_start, default_limit, is_driven, unknown_wave};
ghost use Rattle.case_analysis.specs.Base.{AreAssertedAlike, IsBase, PermitInputs, base_round};

use crate::parts::{instance_of, net_of};
use fixpoint_engine::{
    EngineEnd, NetClasses, NetSet, Numbers, Settled, Start, Store, constant_numbers, settle,
};
use flat_circuit::{CaseList, Circuit, Net, is_same_assertion};
use pin_waves::interface_wave;
use scald_base::{AssertSpec, Header, List, NoMemory};
use skew_algebra::Skewed;
use std::alloc::Global;
use step_values::Value;
use wave_core::CyclicWave;

/// The wave of a net of which nothing is known.
pub fn unknown_wave<W: CyclicWave<Item = Value>>(
    alloc: Global,
    h: &Header,
) -> Result<Skewed<W>, NoMemory>
    ensures { IfOk result (λ s. s ≡ unknown_wave h.now) }
{
    let wave = W::uniform(alloc, h.period(), Value::U)?;
    Ok(Skewed::new(wave, 0))
}

/// Whether nothing drives either net, and both assert the same.
fn are_asserted_alike(a: &Net, b: &Net) -> bool
    ensures { MatchBool result (AreAssertedAlike a.now b.now) (¬ (AreAssertedAlike a.now b.now)) }
{
    a.driver.is_none()
        && b.driver.is_none()
        && is_same_assertion(a.spec.or(&AssertSpec::None), b.spec.or(&AssertSpec::None))
}

/// The number of the wave that a net begins with, from those of the nets before it. The bits of a
/// bus mostly assert the same, and a number that is known costs less than a wave that is worked
/// out.
fn number_after<W: CyclicWave<Item = Value>>(
    alloc: Global,
    c: &Circuit,
    store: &mut Store<W>,
    unknown: u32,
    before: &[u32],
    net: u32,
) -> Result<u32, NoMemory>
    requires exists { net < length c.now.nets }
    requires unknown { IsNumber store.old (unknown_wave c.now.header) unknown }
    requires known { AreKnown store.old before.now }
    requires before { waves_at store.old before.now
        ≡ map (base_start c.now) (range_with_len 0 net) }
    ensures grows { Grows store.old store.new }
    ensures is { IfOk result (IsNumber store.new (base_start c.now net)) }
{
    let this = net_of(c, net);
    if this.driver.is_some() {
        return Ok(unknown);
    }
    if net > 0 && are_asserted_alike(net_of(c, net - 1), this) {
        return Ok(before[net as usize - 1]);
    }
    store.number(interface_wave(alloc, this.spec.or(&AssertSpec::None), c.header())?)
}

/// The numbers of the waves that the base begins with.
pub fn start_numbers<W: CyclicWave<Item = Value>>(
    alloc: Global,
    c: &Circuit,
    store: &mut Store<W>,
) -> Result<Numbers, NoMemory>
    ensures grows { Grows store.old store.new }
    ensures known { IfOk result (AreKnown store.new) }
    ensures is { IfOk result (λ numbers.
        (i : ℕ) → waves_of (waves_at store.new numbers) i ≡ base_start c.now i) }
    ensures fit { IfOk result (λ numbers. FitWaves c.now (waves_at store.new numbers)) }
{
    let unknown = store.number(unknown_wave(alloc, c.header())?)?;
    let mut numbers: Numbers = List::new(alloc);
    for net in 0..c.net_count() {
        let number = number_after(alloc, c, store, unknown, numbers.as_slice(), net)?;
        numbers.push(number)?;
    }
    Ok(numbers)
}

/// The nets that are driven.
pub fn driven_nets(alloc: Global, c: &Circuit) -> Result<NetSet, NoMemory>
    ensures each_net { IfOk result (λ set. length set ≡ length c.now.nets) }
    ensures driven { IfOk result (λ set. (i : ℕ) → marked_in set i ≡ is_driven c.now i) }
{
    let mut driven = NetSet::new(alloc, c.net_count())?;
    for net in 0..c.net_count() {
        if net_of(c, net).driver.is_some() {
            driven.add(net);
        }
    }
    Ok(driven)
}

/// The most rounds if no limit is given: one for each instance with an output, four for each
/// tick of the period, and 16.
pub fn default_limit(c: &Circuit) -> u32
    ensures is { result ≡ default_limit c.now }
    ensures bounded { result ≤ 81936 }
{
    c.known();
    let mut outputs = 0;
    for k in 0..c.instance_count() {
        if instance_of(c, k).kind.has_output() {
            outputs += 1;
        }
    }
    outputs + 4 * u32::from(c.header().period()) + 16
}

/// The base: from the assertions of the nets that nothing drives, and nothing known of the others,
/// rounds over all driven nets until a round is as the one before, by one net of each class if
/// there are classes. The settled waves permit every run whose inputs keep their assertions,
/// `reach` ticks a round later. `Unsettled` comes exactly if no round up to `limit` is as the
/// next one: never if no net is reached from itself through listening pins and the limit is not
/// below the number of instances with an output. The waves are answered by their numbers in the
/// store.
pub fn base<W: CyclicWave<Item = Value>>(
    alloc: Global,
    c: &Circuit,
    store: &mut Store<W>,
    cases: &CaseList,
    classes: &NetClasses,
    limit: u32,
) -> Result<Settled, EngineEnd>
    requires { AreClasses c.now cases.now classes.now }
    ensures grows { Grows store.old store.new }
    ensures known { IfOk result (λ s. AreKnown store.new s.numbers) }
    ensures settled { IfOk result (λ s.
        IsBase c.now limit s.rounds (waves_of (waves_at store.new s.numbers))) }
    ensures within { IfOk result (λ s. s.rounds ≤ limit) }
    ensures fit { IfOk result (λ s. FitWaves c.now (waves_at store.new s.numbers)) }
    ensures work { IfOk result (λ s.
        s.evals ≡ evaluations_to classes.now.nets c.now (is_driven c.now) (base_round c.now)
        (s.rounds + 1)) }
    ensures sound { IfOk result (λ s.
        PermitInputs c.now s.rounds (waves_of (waves_at store.new s.numbers))) }
    ensures unsettled { IfErr result (EndsFor c.now.order (base_round c.now) limit) }
    ensures loopless { HasNoLoop c.now → outputs c.now.instances ≤ limit →
        MatchResult result (λ s. s.rounds ≤ outputs c.now.instances) (λ e. e ≡ EngineEnd.NoMemory) }
{
    c.known();
    c.header().known();
    let constants = constant_numbers(alloc, c.header(), store)?;
    let numbers = start_numbers(alloc, c, store)?;
    let active = driven_nets(alloc, c)?;
    let start = Start {
        numbers,
        constants,
        active,
    };
    settle(alloc, c, store, &start, classes, limit)
}
