//! A settled section, evaluated by itself.

ghost use Rattle.std.specs.Prelude.{◌≡◌, ◌<◌, ◌≤◌, ◌++◌, ◌∷◌, ℕ, [], true, false, if◌then◌else◌, IfErr, IfOk, OnOk, length};
ghost use Rattle.fixpoint_engine.specs.Table.{AreKnown, Grows, IsNumber, waves_at};
ghost use Rattle.fixpoint_engine.specs.Waves.{FitWaves, waves_of};
ghost use Rattle.case_analysis.specs.Case.{NetsExist, is_set};
ghost use Rattle.fixpoint_engine.specs.End.{EndsFor};
ghost use Rattle.fixpoint_engine.specs.Rounds.{round};
ghost use Rattle.fixpoint_engine.specs.Settled.{AreSettled};
ghost use Rattle.fixpoint_engine.specs.Start.{default_limit, is_driven};
ghost use Rattle.section_compose.specs.Evaluated.{IsSettled, across, faults_in, section_round, start_with, tick_of, wave_across};
ghost use Rattle.section_compose.specs.Settled.{IsCase, settling_in};
ghost use Rattle.section_compose.specs.Rules.{circuits};

use crate::{Section, crosses_into};
use case_analysis::{default_limit, driven_nets, reach, start_numbers, tick};
use fixpoint_engine::{
    EngineEnd, NetClasses, Numbers, Settled, Start, Store, Waves, constant_numbers, settle,
};
use flat_circuit::{Case, CaseList, CaseValue, Circuit, Faults};
use pin_waves::wide_wave;
use scald_base::{AssertSpec, Header, List, NoMemory};
use skew_algebra::Skewed;
use std::alloc::Global;
use step_values::Value;
use timing_analysis::faults;
use wave_core::CyclicWave;

/// A settled section.
#[derive(Drop)]
pub struct SettledSection<W: CyclicWave<Item = Value>> {
    /// The waves by their numbers, and what was made of them.
    pub store: Store<W>,
    /// The numbers of its waves, and the round in which they settled.
    pub settled: Settled,
    /// The tick that is printed for it.
    pub tick: u64,
    /// Its faults, in the order of the report.
    pub faults: Faults,
}

/// Whether the net of a number comes from another section.
fn comes_in(sections: &[Section], c: &Circuit, net: u32) -> bool
    ensures { result ≡ across (circuits sections.now) c.now net }
{
    match c.net(net) {
        Some(found) => crosses_into(sections, found),
        None => false,
    }
}

/// Sets a net in a case, if it comes from another section.
fn add_where(case: &mut Case, net: u32, comes: bool) -> Result<(), NoMemory>
    ensures { OnOk result (case.new
        ≡ (if comes then case.old ++ record { net = net; one = false } ∷ [] else case.old)) }
{
    if comes {
        case.push(CaseValue { net, one: false })
    } else {
        Ok(())
    }
}

/// The nets that come from other sections, as a case that sets them: so the classes of nets keep
/// them apart from nets that nothing drives.
fn crossing_case(alloc: Global, sections: &[Section], c: &Circuit) -> Result<Case, NoMemory>
    ensures { IfOk result (IsCase (circuits sections.now) c.now) }
{
    let mut case = List::new(alloc);
    for net in 0..c.net_count() {
        add_where(&mut case, net, comes_in(sections, c, net))?;
    }
    Ok(case)
}

/// The wave of a net that comes from another section.
fn wave_across<W: CyclicWave<Item = Value>>(
    alloc: Global,
    h: &Header,
    spec: &AssertSpec,
) -> Result<Skewed<W>, NoMemory>
    ensures { IfOk result (λ s. s ≡ wave_across h.now spec.now) }
{
    let wide = wide_wave(alloc, spec, h)?;
    Skewed::normal(alloc, wide, 0)
}

/// The number of the wave of a net that comes from another section.
fn number_across<W: CyclicWave<Item = Value>>(
    alloc: Global,
    c: &Circuit,
    store: &mut Store<W>,
    net: u32,
) -> Result<u32, NoMemory>
    requires { net < length c.now.nets }
    ensures grows { Grows store.old store.new }
    ensures is { IfOk result (IsNumber store.new (start_with c.now (λ _. true) net)) }
{
    match c.net(net) {
        Some(found) => store.number(wave_across(
            alloc,
            c.header(),
            found.spec.or(&AssertSpec::None),
        )?),
        None => unreachable!(),
    }
}

/// The numbers of the waves that a section begins with: those of its circuit alone, but for the
/// nets that come from other sections.
fn section_start<W: CyclicWave<Item = Value>>(
    alloc: Global,
    c: &Circuit,
    store: &mut Store<W>,
    case: &Case,
) -> Result<Numbers, NoMemory>
    requires { NetsExist c.now case.now }
    ensures grows { Grows store.old store.new }
    ensures known { IfOk result (AreKnown store.new) }
    ensures is { IfOk result (λ numbers.
        (i : ℕ) → waves_of (waves_at store.new numbers) i ≡ start_with c.now (is_set case.now) i) }
    ensures fit { IfOk result (λ numbers. FitWaves c.now (waves_at store.new numbers)) }
{
    let mut numbers = start_numbers(alloc, c, store)?;
    for value in case.as_slice() {
        let number = number_across(alloc, c, store, value.net)?;
        numbers.set(value.net as usize, number);
    }
    Ok(numbers)
}

/// The rounds of a section until they settle, by one net of each class if nothing tells the nets
/// of a class apart, and else by each net. The waves are answered by their numbers in the store.
fn settled<W: CyclicWave<Item = Value>>(
    alloc: Global,
    c: &Circuit,
    store: &mut Store<W>,
    case: Case,
) -> Result<Settled, EngineEnd>
    requires { NetsExist c.now case }
    ensures known { IfOk result (λ s. AreKnown store.new s.numbers) }
    ensures settled { let start = start_with c.now (is_set case) in
        IfOk result (λ s. AreSettled c.now (is_driven c.now) start (default_limit c.now) s.rounds
        (waves_of (waves_at store.new s.numbers))) }
    ensures fit { IfOk result (λ s. FitWaves c.now (waves_at store.new s.numbers)) }
    ensures within { IfOk result (λ s. s.rounds ≤ 81936) }
    ensures unsettled { let start = start_with c.now (is_set case) in
        IfErr result (EndsFor c.now.order (round c.now (is_driven c.now) start)
        (default_limit c.now)) }
{
    c.known();
    c.header().known();
    let constants = constant_numbers(alloc, c.header(), store)?;
    let numbers = section_start(alloc, c, store, &case)?;
    let active = driven_nets(alloc, c)?;
    let limit = default_limit(c);
    let mut cases: CaseList = List::new(alloc);
    cases.push(case)?;
    let classes = NetClasses::of(alloc, c, &cases)?;
    let start = Start {
        numbers,
        constants,
        active,
    };
    settle(alloc, c, store, &start, &classes, limit)
}

/// A settled section, with its faults. `Unsettled` comes if it does not settle within its limit
/// of rounds, and `NoMemory` if memory runs out.
pub fn settled_section<W: CyclicWave<Item = Value>>(
    alloc: Global,
    sections: &[Section],
    c: &Circuit,
) -> Result<SettledSection<W>, EngineEnd>
    ensures known { IfOk result (λ s. AreKnown s.store s.settled.numbers) }
    ensures settled { IfOk result (λ s.
        IsSettled (circuits sections.now) c.now
        (settling_in s.settled.rounds s.store s.settled.numbers)) }
    ensures fit { IfOk result (λ s. FitWaves c.now (waves_at s.store s.settled.numbers)) }
    ensures tick { IfOk result (λ s.
        s.tick ≡ tick_of c.now (settling_in s.settled.rounds s.store s.settled.numbers)) }
    ensures faults { IfOk result (λ s.
        s.faults ≡ faults_in c.now (settling_in s.settled.rounds s.store s.settled.numbers)) }
    ensures few { IfOk result (λ s. length s.faults ≤ 458752) }
    ensures unsettled { IfErr result
        (EndsFor c.now.order (section_round (circuits sections.now) c.now) (default_limit c.now)) }
{
    let case = crossing_case(alloc, sections, c)?;
    let mut store: Store<W> = Store::new(alloc);
    let settled = match settled(alloc, c, &mut store, case) {
        Ok(settled) => settled,
        Err(end) => return Err(end),
    };
    let waves = Waves::new(store.waves(), settled.numbers.as_slice());
    let found = faults(alloc, c, &waves)?;
    let tick = tick(reach(c), settled.rounds, 0);
    Ok(SettledSection {
        store,
        settled,
        tick,
        faults: found,
    })
}
