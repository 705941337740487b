//! The nets that clocks reach through gates, and those that reach a clock pin so.

ghost use Rattle.std.specs.Prelude.{◌≡◌, ◌<◌, ◌==◌, ◌&&◌, IfOk, OnOk, length, slice_get};
ghost use Rattle.fixpoint_engine.specs.Settled.{marked_in};
ghost use Rattle.fixpoint_engine.specs.Worklist.{Adds};
ghost use Rattle.drawing_notes.specs.Unmarked.{AreGated, TellsClocks, TellsTimed, is_clock, is_gated, is_timing, times_at};

use crate::found::Found;
use crate::held::put;
use crate::pins::{CLOCK, passes, pin_net};
use element_kinds::Form;
use fixpoint_engine::NetSet;
use flat_circuit::Circuit;
use scald_base::{AssertSpec, NoMemory};
use std::alloc::Global;

/// Whether BUF, AND, OR, XOR or a MUX drives a net.
fn is_gated(c: &Circuit, net: u32) -> bool
    ensures { result ≡ is_gated c.now net }
{
    match c.driver_of(net) {
        Some(driver) => matches!(driver.kind.form(), Form::Gate),
        None => false,
    }
}

/// The nets that such a gate drives.
pub(crate) fn gated(alloc: Global, c: &Circuit) -> Result<NetSet, NoMemory>
    ensures { IfOk result (AreGated c.now) }
{
    let mut set = NetSet::new(alloc, c.net_count())?;
    for net in 0..c.net_count() {
        put(&mut set, net, is_gated(c, net));
    }
    Ok(set)
}

/// Whether a net has a `.P` or `.C` assertion.
fn is_clock(c: &Circuit, net: u32) -> bool
    ensures { result ≡ is_clock c.now net }
{
    match c.net(net) {
        Some(found) => matches!(
            found.spec.or(&AssertSpec::None),
            AssertSpec::Precision(_) | AssertSpec::Clock(_)
        ),
        None => false,
    }
}

/// Appends a net, if it is a clock.
fn add_clock(found: &mut Found, c: &Circuit, net: u32) -> Result<(), NoMemory>
    requires each_net { length found.old.marks ≡ length c.now.nets }
    requires exists { net < length c.now.nets }
    ensures { OnOk result (Adds (λ i. (net == i) && is_clock c.now i) found.old found.new) }
{
    if is_clock(c, net) {
        found.add(net)?;
    }
    Ok(())
}

/// Appends all clocks.
fn add_clocks(found: &mut Found, c: &Circuit) -> Result<(), NoMemory>
    requires { length found.old.marks ≡ length c.now.nets }
    ensures { OnOk result (Adds (is_clock c.now) found.old found.new) }
{
    for net in 0..c.net_count() {
        add_clock(found, c, net)?;
    }
    Ok(())
}

/// The clocks, and the nets that they reach through gates alone.
pub(crate) fn clocks(alloc: Global, c: &Circuit, gated: &NetSet) -> Result<NetSet, NoMemory>
    requires { AreGated c.now gated.now }
    ensures { IfOk result (λ clocks. TellsClocks c.now (marked_in clocks)) }
{
    let mut found = Found::new(alloc, c.net_count())?;
    add_clocks(&mut found, c)?;
    found.follow(c, gated)?;
    Ok(found.into_set())
}

/// Appends the net of the first pin of an instance, if a gate drives the net and the instance is
/// storage or a checker.
fn add_timing_at(
    found: &mut Found,
    c: &Circuit,
    gated: &NetSet,
    number: u32,
) -> Result<(), NoMemory>
    requires { length found.old.marks ≡ length c.now.nets }
    ensures { OnOk result (Adds (λ i. marked_in gated.now i
        && times_at i (slice_get c.now.instances number)) found.old found.new) }
{
    c.known();
    let Some(instance) = c.instance(number) else {
        return Ok(());
    };
    if passes(instance.kind) {
        return Ok(());
    }
    match pin_net(instance, CLOCK) {
        Some(net) if gated.has(net) => found.add(net),
        _ => Ok(()),
    }
}

/// Appends all such nets.
fn add_timing(found: &mut Found, c: &Circuit, gated: &NetSet) -> Result<(), NoMemory>
    requires each_net { length found.old.marks ≡ length c.now.nets }
    requires gated { AreGated c.now gated.now }
    ensures { OnOk result (Adds (is_timing c.now) found.old found.new) }
{
    for number in 0..c.instance_count() {
        add_timing_at(found, c, gated, number)?;
    }
    Ok(())
}

/// The nets that gates drive and that reach, through gates alone, the first pin of storage or of a
/// checker.
pub(crate) fn timed(alloc: Global, c: &Circuit, gated: &NetSet) -> Result<NetSet, NoMemory>
    requires { AreGated c.now gated.now }
    ensures { IfOk result (λ timed. TellsTimed c.now (marked_in timed)) }
{
    let mut found = Found::new(alloc, c.net_count())?;
    add_timing(&mut found, c, gated)?;
    found.trace(c, gated)?;
    Ok(found.into_set())
}
