//! Gates that let clocks through, in one case after the other.

ghost use Rattle.std.specs.Prelude.{◌≡◌, ◌++◌, ◌∷◌, ◌&&◌, [], List, IfOk, OnOk, Some, None, length, not, replicate, slice_get};
ghost use Rattle.std.specs.List.{All, list_any, position_from};
ghost use Rattle.flat_circuit.specs.Instances.{PinExists};
ghost use Rattle.fixpoint_engine.specs.Settled.{marked_in};
ghost use Rattle.fixpoint_engine.specs.Waves.{FitWaves, waves_of};
ghost use Rattle.timing_analysis.specs.Case.{Case};
ghost use Rattle.drawing_notes.specs.Passing.{changes_on as spec_changes_on};
ghost use Rattle.drawing_notes.specs.SoFar.{HoldGates};
ghost use Rattle.drawing_notes.specs.Unmarked.{AreFirst, earlier as spec_earlier, first_in as spec_first_in, is_bare as spec_is_bare, is_marked_kind as spec_is_marked_kind, target_in};

use crate::clocks::{clocks, gated, timed};
use crate::held::marked_pin;
use fixpoint_engine::{NetSet, Waves};
use flat_circuit::{Circuit, Instance, Kind, Pin, Target};
use scald_base::NoMemory;
use std::alloc::Global;
use step_values::Value;
use wave_core::CyclicWave;

/// What clocks reach, and what the cases so far show of the gates that let them through.
#[derive(Drop)]
pub struct CaseGates {
    /// The nets that clocks reach through gates alone.
    pub clocks: NetSet,
    /// The nets that reach a clock pin through gates alone.
    pub timed: NetSet,
    /// By the numbers of instances, the first pin that may change in a case in which a clock does
    /// that the instance lets through without a mark.
    pub firsts: Vec<Option<usize>>,
}

/// Whether what a pin is on is in a set.
fn is_in(nets: &NetSet, target: Target) -> bool
    ensures { result ≡ target_in (marked_in nets.now) target }
{
    match target {
        Target::Net(net) => nets.has(net),
        Target::Constant(_) => false,
    }
}

/// Whether what a pin is on may change.
fn changes_on<W: CyclicWave<Item = Value>>(waves: &Waves<W>, pin: Pin) -> bool
    requires { PinExists (length waves.now) pin }
    ensures { result ≡ spec_changes_on (waves_of waves.now) pin.target }
{
    match pin.target {
        Target::Net(net) => !waves.at(net).is_steady(),
        Target::Constant(_) => false,
    }
}

/// Whether it is a kind that gates a clock only with a mark, or may not have one.
fn is_marked_kind(kind: Kind) -> bool
    ensures { result ≡ spec_is_marked_kind kind }
{
    matches!(
        kind,
        Kind::And | Kind::Or | Kind::Mux2 | Kind::Mux4 | Kind::Mux8
    )
}

/// Whether an instance is an AND, an OR or a MUX without a mark, whose output is in a set.
fn is_bare(timed: &NetSet, instance: &Instance) -> bool
    ensures { result ≡ spec_is_bare (marked_in timed.now) instance.now }
{
    if !is_marked_kind(instance.kind) || marked_pin(instance).is_some() {
        return false;
    }
    match instance.out {
        Some(target) => is_in(timed, target),
        None => false,
    }
}

/// Whether a clock reaches a pin, and the pin may change.
fn is_moving_clock<W: CyclicWave<Item = Value>>(clocks: &NetSet, waves: &Waves<W>, pin: Pin) -> bool
    requires { PinExists (length waves.now) pin }
    ensures { result ≡ (target_in (marked_in clocks.now) pin.target
        && spec_changes_on (waves_of waves.now) pin.target) }
{
    is_in(clocks, pin.target) && changes_on(waves, pin)
}

/// Whether a pin that a clock reaches may change.
fn clock_changes<W: CyclicWave<Item = Value>>(
    clocks: &NetSet,
    waves: &Waves<W>,
    pins: &[Pin],
) -> bool
    requires { All (PinExists (length waves.now)) pins.now }
    ensures { result ≡ list_any (λ p. target_in (marked_in clocks.now) p.target
        && spec_changes_on (waves_of waves.now) p.target) pins.now }
{
    for pin in pins {
        if is_moving_clock(clocks, waves, *pin) {
            return true;
        }
    }
    false
}

/// Whether no clock reaches a pin, and the pin may change.
fn is_moving_other<W: CyclicWave<Item = Value>>(clocks: &NetSet, waves: &Waves<W>, pin: Pin) -> bool
    requires { PinExists (length waves.now) pin }
    ensures { result ≡ (not (target_in (marked_in clocks.now) pin.target)
        && spec_changes_on (waves_of waves.now) pin.target) }
{
    !is_in(clocks, pin.target) && changes_on(waves, pin)
}

/// The first pin that no clock reaches and that may change.
fn first_other<W: CyclicWave<Item = Value>>(
    clocks: &NetSet,
    waves: &Waves<W>,
    pins: &[Pin],
) -> Option<usize>
    requires { All (PinExists (length waves.now)) pins.now }
    ensures { result ≡ position_from (λ p. not (target_in (marked_in clocks.now) p.target)
        && spec_changes_on (waves_of waves.now) p.target) 0 pins.now }
{
    for place in 0..pins.len() {
        if is_moving_other(clocks, waves, pins[place]) {
            return Some(place);
        }
    }
    None
}

/// The first pin of an instance that may change beside a clock in a case, if the instance lets
/// the clock through without a mark.
fn first_pin<W: CyclicWave<Item = Value>>(
    waves: &Waves<W>,
    clocks: &NetSet,
    timed: &NetSet,
    instance: &Instance,
) -> Option<usize>
    requires { All (PinExists (length waves.now)) instance.now.pins }
    ensures { result ≡ spec_first_in (marked_in clocks.now) (marked_in timed.now)
        (waves_of waves.now) (Some instance.now) }
{
    if !is_bare(timed, instance) {
        return None;
    }
    let pins = instance.pins.as_slice();
    if !clock_changes(clocks, waves, pins) {
        return None;
    }
    first_other(clocks, waves, pins)
}

/// The same of the instance of a number.
fn first_in<W: CyclicWave<Item = Value>>(
    c: &Circuit,
    waves: &Waves<W>,
    clocks: &NetSet,
    timed: &NetSet,
    number: u32,
) -> Option<usize>
    requires { FitWaves c.now waves.now }
    ensures { result ≡ spec_first_in (marked_in clocks.now) (marked_in timed.now)
        (waves_of waves.now) (slice_get c.now.instances number) }
{
    c.known();
    match c.instance(number) {
        Some(instance) => first_pin(waves, clocks, timed, instance),
        None => None,
    }
}

/// The earlier of two places.
fn earlier(first: Option<usize>, second: Option<usize>) -> Option<usize>
    ensures { result ≡ spec_earlier first second }
{
    match first {
        None => second,
        Some(a) => match second {
            None => first,
            Some(b) => { if b < a { second } else { first } }
        },
    }
}

/// Lets the first pin of each instance, by its number, be that of the cases so far and one more.
fn add_firsts<W: CyclicWave<Item = Value>>(
    c: &Circuit,
    waves: &Waves<W>,
    clocks: &NetSet,
    timed: &NetSet,
    firsts: &mut [Option<usize>],
)
    requires fit { FitWaves c.now waves.now }
    requires long { length firsts.old ≡ length c.now.instances }
    ensures long { length firsts.new ≡ length c.now.instances }
    ensures firsts { (cases : List Case) (one : Case) → one.waves ≡ waves_of waves.now →
        AreFirst c.now (marked_in clocks.now) (marked_in timed.now) cases firsts.old →
        AreFirst c.now (marked_in clocks.now) (marked_in timed.now) (cases ++ one ∷ [])
        firsts.new }
{
    for number in 0..c.instance_count() {
        let found = first_in(c, waves, clocks, timed, number);
        let place = number as usize;
        firsts[place] = earlier(firsts[place], found);
    }
}

/// Of so many instances, no pin so far.
fn no_firsts(alloc: Global, instances: u32) -> Result<Vec<Option<usize>>, NoMemory>
    ensures { IfOk result (λ firsts. firsts.items ≡ replicate instances None) }
{
    let firsts = vec![in alloc; None; instances as usize]?;
    Ok(firsts)
}

impl CaseGates {
    /// Before any case. `NoMemory` comes if memory runs out.
    pub fn begin(alloc: Global, c: &Circuit) -> Result<CaseGates, NoMemory>
        ensures { IfOk result (λ gates. HoldGates c.now [] gates) }
    {
        let gated = gated(alloc, c)?;
        let clocks = clocks(alloc, c, &gated)?;
        let timed = timed(alloc, c, &gated)?;
        let firsts = no_firsts(alloc, c.instance_count())?;
        Ok(CaseGates {
            clocks,
            timed,
            firsts,
        })
    }

    /// One case more, by its waves.
    pub fn add_case<W: CyclicWave<Item = Value>>(&mut self, c: &Circuit, waves: &Waves<W>)
        requires fit { FitWaves c.now waves.now }
        requires ready { (cases : List Case) × HoldGates c.now cases self.old }
        ensures { (cases : List Case) (one : Case) → one.waves ≡ waves_of waves.now →
            HoldGates c.now cases self.old → HoldGates c.now (cases ++ one ∷ []) self.new }
    {
        add_firsts(c, waves, &self.clocks, &self.timed, &mut self.firsts);
    }
}
