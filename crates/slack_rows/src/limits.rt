//! Which limits a circuit has.

ghost use Rattle.std.specs.Prelude.{◌≡◌, ◌++◌, IfOk, OnOk, Some, length, map};
ghost use Rattle.std.specs.List.{list_any, range_with_len};
ghost use Rattle.fixpoint_engine.specs.Waves.{marked_pin as marked_in};
ghost use Rattle.point_check.specs.Assertion.{is_held as held};
ghost use Rattle.slack_rows.specs.Limit.{is_beside, is_on_net};
ghost use Rattle.slack_rows.specs.Rows.{all_limits, limit_of as ticks_asked, limits_of_instance, limits_of_mark, limits_of_net};

use crate::parameter::{Parameter, Subject, Word};
use element_kinds::Check;
use flat_circuit::{Circuit, Instance, Limits, Net, Target};
use scald_base::{AssertSpec, List, NoMemory};
use std::alloc::Global;

/// Limits, in the order of expansion, and then in name order.
pub type Parameters = List<Parameter>;

/// Whether it is a net.
pub fn is_net(target: Target) -> bool
    ensures { result ≡ is_on_net target }
{
    matches!(target, Target::Net(_))
}

/// Whether another pin than the marked one is on a net.
fn has_pin_beside(gate: &Instance, marked: usize) -> bool
    ensures { result ≡ list_any (is_beside gate.now marked)
        (range_with_len 0 (length gate.now.pins)) }
{
    let pins = gate.pins.as_slice();
    for place in 0..pins.len() {
        if place != marked && is_net(pins[place].target) {
            return true;
        }
    }
    false
}

/// Which pin is marked.
pub fn marked_pin(gate: &Instance) -> Option<usize>
    ensures { result ≡ marked_in gate.now }
{
    gate.pins.as_slice().iter().position(|pin| pin.hold)
}

/// Whether something drives the net, and its name asserts something.
pub fn is_held(net: &Net) -> bool
    ensures { result ≡ held net.now }
{
    net.driver.is_some() && !matches!(net.spec.or(&AssertSpec::None), AssertSpec::None)
}

/// The limits of a gate with a marked pin: none if no other one is on a net.
fn words_beside(gate: &Instance, marked: usize) -> &'static [Word]
    ensures { result.now ≡ limits_of_mark gate.now (Some marked) }
{
    if has_pin_beside(gate, marked) {
        &[Word::Gate, Word::Before, Word::After]
    } else {
        &[]
    }
}

/// The limits of an instance: of a checker, or of a gate with a marked pin.
fn words_of(instance: &Instance) -> &'static [Word]
    ensures { result.now ≡ limits_of_instance (Some instance.now) }
{
    if instance.kind.may_be_marked() {
        return match marked_pin(instance) {
            Some(marked) => words_beside(instance, marked),
            None => &[],
        };
    }
    match instance.kind.check() {
        Some(Check::SetupHold | Check::RiseFall) => &[Word::Setup, Word::Hold],
        Some(Check::MinPulse) => &[Word::High, Word::Low],
        None => &[],
    }
}

/// The limits of a net.
fn words_of_net(net: &Net) -> &'static [Word]
    ensures { result.now ≡ limits_of_net (Some net.now) }
{
    if is_held(net) {
        &[Word::Assert, Word::From, Word::To]
    } else {
        &[]
    }
}

/// What a limit asks for, in ticks; 0 if it has no number.
fn limit_of(limits: Limits, word: Word) -> u16
    ensures { result ≡ ticks_asked limits word }
{
    match word {
        Word::Setup => limits.setup(),
        Word::Hold => limits.hold(),
        Word::High => limits.high(),
        Word::Low => limits.low(),
        Word::Gate | Word::Before | Word::After => 0,
        Word::Assert | Word::From | Word::To => 0,
    }
}

/// Appends the limits of a subject.
fn add(
    out: &mut Parameters,
    subject: Subject,
    limits: Limits,
    words: &[Word],
) -> Result<(), NoMemory>
    ensures { OnOk result (out.new ≡ out.old ++ map (λ word. record {
      subject = subject;
      word = word;
      limit = ticks_asked limits word;
    }) words.now) }
{
    for word in words {
        out.push(Parameter {
            subject,
            word: *word,
            limit: limit_of(limits, *word),
        })?;
    }
    Ok(())
}

/// All limits: of instances in the order of expansion, then of nets in name order.
pub fn parameters_of(alloc: Global, c: &Circuit) -> Result<Parameters, NoMemory>
    ensures { IfOk result (λ found. found ≡ all_limits c.now) }
{
    c.known();
    let mut out = Parameters::new(alloc);
    for number in 0..c.instance_count() {
        if let Some(instance) = c.instance(number) {
            let words = words_of(instance);
            add(&mut out, Subject::Instance(number), instance.limits, words)?;
        }
    }
    for place in 0..c.net_count() {
        let number = c.net_at(place);
        if let Some(net) = c.net(number) {
            add(
                &mut out,
                Subject::Net(number),
                Limits::None,
                words_of_net(net),
            )?;
        }
    }
    Ok(out)
}
